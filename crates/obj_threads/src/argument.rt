//! Arguments of calls.
ghost use Rattle.std.specs.Prelude.{◌≡◌};
ghost use Rattle.py_base.specs.declared.kind.Kind.TheVariants as kinds;
ghost use Rattle.obj_threads.specs.Arguments as arguments;

use crate::answer::Answer;
use py_data::builtin::{LOCK_ACQUIRE, LOCK_LOCKED, LOCK_RELEASE, THREAD_JOIN, THREAD_START};
use py_data::{Got, Value};

/// A value as an answer.
pub fn answered(x: Value) -> Got<Answer>
    ensures { result ≡ arguments.answered x }
{
    Got::Is(Answer::Value(x))
}

/// Whether there are neither arguments nor keywords.
pub fn is_bare(args: &[Value], keys: &[Value]) -> bool
    ensures { result ≡ arguments.is_bare args.now keys.now }
{
    args.is_empty() && keys.is_empty()
}

/// Whether a value is True.
pub fn is_set(x: Value) -> bool
    ensures { result ≡ arguments.is_set x }
{
    match x {
        Value::Bool(b) => b,
        _ => false,
    }
}

/// Whether a value is None.
pub fn is_none(x: Value) -> bool
    ensures { result ≡ arguments.is_none x }
{
    matches!(x, Value::None)
}

/// Whether a builtin is a method of locks.
pub fn is_lock_method(b: u8) -> bool
    ensures { result ≡ arguments.is_method_of kinds.Lock b }
{
    matches!(b, LOCK_ACQUIRE | LOCK_RELEASE | LOCK_LOCKED)
}

/// Whether a builtin is a method of threads.
pub fn is_thread_method(b: u8) -> bool
    ensures { result ≡ arguments.is_method_of kinds.Thread b }
{
    matches!(b, THREAD_START | THREAD_JOIN)
}
