//! Laws of turns and runs, as contracts: a call of such a function does nothing, and gives its caller's proof the
//! facts of its clauses.
ghost use Rattle.std.specs.Prelude.{ℕ};
ghost use Rattle.py_data.specs.Sight.{Sight};
ghost use Rattle.py_data.specs.Frames.{Grows};
ghost use Rattle.lock_run.specs.Prog.{Prog};
ghost use Rattle.lock_run.specs.Machine.{Steps};
ghost use Rattle.lock_run.specs.TurnLaws.{AcceptLaw, OneTurnLaw, DoneLaw, ToldLaw, StepsLaw, SnocLaw, AppendLaw, OneRunLaw};

/// A turn that the machine can do is cut only for want of memory or by a fault of a device, where the source tells its
/// bytes.
pub fn accept_law<S>()
    ensures { AcceptLaw S }
{}

/// A turn leads from a machine to one machine only, where the source tells its bytes, and after it the source tells
/// them still. So a turn that was done leads to the machine that the turn leads to.
pub fn turn_law<S>()
    ensures one { OneTurnLaw S }
    ensures done { DoneLaw S }
    ensures told { ToldLaw S }
{}

/// What steps can do at most, and that over another heap that agrees with the first where they look, they are the same
/// steps.
pub fn steps_law<S>()
    ensures frame { StepsLaw S }
    ensures grows { (p : Prog S) (n : ℕ) (q r : S) (s t : Sight S) → Steps p n q s r t → Grows s t }
{}

/// A run and one turn more are a run, two runs one after another are one run, and a run leads to one machine only.
pub fn run_law<S>()
    ensures snoc { SnocLaw S }
    ensures append { AppendLaw S }
    ensures one { OneRunLaw S }
{}
