//! A program as a client of a machine.
ghost use Rattle.std.specs.Prelude.{◌≡◌, IfOk};
ghost use Rattle.lock_run.specs.Client.{IsSoundFirst};
ghost use Rattle.py_frames.specs.Binding.{unset_slots};
ghost use Rattle.py_frames.specs.Laws.{prog_of};
ghost use Rattle.py_frames.specs.Sound.{Sound, first_state, module_frame};

use crate::blocked::would_wait;
use crate::prepared::Prepared;
use crate::step::{step_at_once, step_row};
use lock_run::{Client, Life, Outcome};
use py_calls::push_unset;
use py_code::Program;
use py_data::{Items, NoMemory, Peek, Stop, Value, Values, View};
use py_frames::Frame;
use py_parts::slots_at;
use py_states::ThreadState;
use py_verify::Verified;
use std::alloc::Global;

/// The frame of a program's module, at its first instruction.
fn module_frame(alloc: Global, p: &Program) -> Result<Frame, NoMemory>
    ensures { IfOk result (λ f. f ≡ module_frame p.now) }
{
    let mut slots = Values::new(alloc);
    push_unset(&mut slots, slots_at(p, 0).len())?;
    Ok(Frame {
        code: 0,
        pc: 0,
        slots,
        stack: Values::new(alloc),
        blocks: Items::new(alloc),
        made: Value::Unset,
        names: None,
    })
}

/// The state of a program's first thread.
fn first_state(alloc: Global, p: &Program) -> Result<ThreadState, NoMemory>
    ensures { IfOk result (λ s. s ≡ first_state p.now) }
{
    let frame = module_frame(alloc, p)?;
    ThreadState::entered(alloc, 0, None, None, &frame)
}

/// A program that passed the test, as the threads of a machine. Its first thread begins in the module's code, and
/// each step of a thread is an instruction, but for the last one of a thread that dies, which writes why.
#[derive(Drop)]
pub struct PyClient {
    program: Prepared,
}

impl PyClient {
    ghost use Rattle.py_step.specs.Client.{program_in};

    pub fn new(alloc: Global, program: Verified) -> PyClient
        ensures program { program_in result ≡ program }
        ensures first { IsSoundFirst (prog_of program) (Sound program) }
    {
        PyClient {
            program: Prepared::new(alloc, program),
        }
    }
}

impl Client for PyClient {
    ghost use Rattle.py_frames.specs.Laws.{prog_of};
    ghost use Rattle.py_frames.specs.Sound.{Sound};
    ghost use Rattle.py_frames.proofs.SoundLaws.{step_law, safe_law};
    ghost use Rattle.py_frames.proofs.Outcomes.{outcome_law};
    ghost use Rattle.py_frames.proofs.QuietSteps.{wait_law};
    ghost use Rattle.py_frames.proofs.SteadySteps.{ask_law};
    ghost use Rattle.py_step.specs.Client.{program_in};

    type State = ThreadState;

    ghost prog = { λ c. prog_of (program_in c) };

    ghost sound = { λ c. Sound (program_in c) };

    ghost sound_step = { λ c. step_law (program_in c) };

    ghost sound_safe = { λ c. safe_law (program_in c) };

    ghost outcomes = { λ c. outcome_law (program_in c) };

    ghost waits_quietly = { λ c. wait_law (program_in c) };

    ghost asks_to_print = { λ c. ask_law (program_in c) };

    fn first(&self, alloc: Global) -> Result<ThreadState, NoMemory> {
        first_state(alloc, self.program.program())
    }

    fn step<V: View<ThreadState>>(
        &self,
        alloc: Global,
        s: &mut ThreadState,
        v: &mut V,
    ) -> Result<Outcome, Stop> {
        v.open_step();
        match step_row(alloc, v, &self.program, s) {
            Ok(outcome) => Ok(outcome),
            Err(stop) => {
                v.undo_step();
                Err(stop)
            }
        }
    }

    #[inline(always)]
    fn step_pure(&self, s: &mut ThreadState) -> bool {
        step_at_once(self.program.program(), s)
    }

    fn blocked<P: Peek>(&self, s: &ThreadState, heap: &P) -> bool {
        would_wait(self.program.program(), s, heap)
    }

    fn life(&self, s: &ThreadState) -> Life {
        s.life()
    }

    fn copy(&self, alloc: Global, s: &ThreadState) -> Result<ThreadState, NoMemory> {
        s.copy(alloc)
    }

    fn same(&self, a: &ThreadState, b: &ThreadState) -> bool {
        a.same(b)
    }
}
