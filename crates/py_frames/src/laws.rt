//! What holds of the threads of every right program, as laws: a call of such a function does nothing, and gives its
//! caller's proof the facts of its clauses.
ghost use Rattle.py_frames.specs.Laws.{AskLaw, FirstLaw, NeverLacksLaw, OutcomeLaw, SafeLaw, SteadyStepLaw, StepLaw, WaitLaw};

/// The first state of a right program may stand over no records. Of threads that may stand over a heap the next step
/// has what its calls need, and leaves threads that may stand over the heap that it leaves.
pub fn sound_law()
    ensures first { FirstLaw }
    ensures step { StepLaw }
    ensures safe { SafeLaw }
{}

/// How a step ends tells whether its thread lives on.
pub fn outcome_law()
    ensures { OutcomeLaw }
{}

/// In the course of a step no record is longer than before it, or than at its end; and a step that asks whether the
/// output is in mid line goes on to write.
pub fn steady_law()
    ensures lengths { SteadyStepLaw }
    ensures asks { AskLaw }
{}

/// A step that waits leaves its state, the heap, the names, the started threads and the world as they were.
pub fn wait_law()
    ensures { WaitLaw }
{}

/// A thread that may stand over a heap, and doesn't die, lacks no code, instruction, operand, slot, place, block or
/// root.
pub fn never_lacks_law()
    ensures { NeverLacksLaw }
{}
