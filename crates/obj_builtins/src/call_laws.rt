//! What the call of any builtin does, as laws: a call of such a function does nothing, and gives its caller's proof the
//! facts of its clauses.
ghost use Rattle.obj_builtins.specs.CallLaws.{CallHolds, CallQuiet, CallSteady};
ghost use Rattle.obj_builtins.specs.InputLaws.{InputLaw};

use crate::laws::holds_law as functions_law;
use obj_methods::holds_law as methods_law;
use obj_str::holds_law as strings_law;
use obj_threads::{holds_law as threads_law, quiet_law};
use py_data::Demands;

/// Over each heap in order, with its list of roots, an object that is there and items for arguments, the call of a
/// builtin may be begun, answers what it should, and leaves a heap in order; and in its course no record is longer than
/// before it or at its end.
pub fn call_law<S, D: Demands<S>>()
    ensures holds { CallHolds D.rules D.stands }
    ensures steady { CallSteady S }
{
    functions_law::<S, D>();
    methods_law::<S, D>();
    strings_law::<S, D>();
    threads_law::<S, D>();
}

/// A call that waits, or that lets a thread start, has done nothing but look.
pub fn call_quiet_law<S>()
    ensures { CallQuiet S }
{
    quiet_law::<S>();
}

/// `raw_input` takes the next line of the input and answers it without its newline. A prompt is written before, once
/// and as it is, and the output isn't in the middle of a line then.
pub fn input_law<S>()
    ensures { InputLaw S }
{}
