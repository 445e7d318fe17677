//! Whether the call of a builtin would wait, over a committed heap: `acquire` of a held lock, and `join` of a thread
//! that has not ended.
ghost use Rattle.std.specs.Prelude.{◌≡◌, ℕ, ◌==◌, [], length, codes, option_map, MatchOption};
ghost use Rattle.py_base.specs.Numbers.{builtin_number};
ghost use Rattle.py_data.specs.declared.value.Value.TheVariants.{Ref};
ghost use Rattle.py_data.specs.Closed.{Refers};
ghost use Rattle.py_data.specs.Every.{Every};
ghost use Rattle.py_data.specs.Heap.{Has, at};
ghost use Rattle.obj_threads.specs.Arguments as arguments;
ghost use Rattle.obj_threads.specs.Locks.{acquire_with, lock_row};
ghost use Rattle.obj_threads.specs.Threads.{join_row, thread_row};
ghost use Rattle.obj_threads.specs.Threads as threads;
ghost use Rattle.obj_builtins.specs.Calls.{call_row};
ghost use Rattle.py_frames.specs.State.{State};
ghost use Rattle.py_step.specs.inner.Peeked.{AreClosed, AnswersWait, IsOf, Tells};

use super::truths::truth;
use py_data::builtin::{LOCK_ACQUIRE, THREAD_JOIN};
use py_data::{Addr, Kind, Peek, Value};

/// Whether a value is True.
fn is_set(x: Value) -> bool
    ensures { result ≡ arguments.is_set x }
{
    match x {
        Value::Bool(b) => b,
        _ => false,
    }
}

/// Whether a value is None.
fn is_none(x: Value) -> bool
    ensures { result ≡ arguments.is_none x }
{
    matches!(x, Value::None)
}

/// Whether the calling thread, which may have no record, has this one.
fn is_me(me: Option<Addr>, a: Addr) -> bool
    ensures { result ≡ threads.is_me (option_map (λ m. m.0) me) a.0 }
{
    match me {
        Some(m) => m.0 == a.0,
        None => false,
    }
}

/// The address of a record of this kind, where the value is that of one.
pub fn record_of<P: Peek>(heap: &P, x: Value, kind: Kind) -> Option<Addr>
    requires refers { Refers (P.image heap.now) x }
    ensures { MatchOption result (IsOf (P.image heap.now) kind x → ⊥)
        (λ a. (x ≡ Ref a) × Has (P.image heap.now) a.0 × (at (P.image heap.now) a.0).kind ≡ kind) }
{
    match x {
        Value::Ref(a) => {
            if heap.peek_kind(a) == kind {
                Some(a)
            } else {
                None
            }
        }
        Value::Unset | Value::None | Value::Bool(_) | Value::Int(_) | Value::Builtin(_) => None,
    }
}

/// Whether `acquire` of a lock would wait: it is held, and the argument, if there is one, is true.
fn acquire_waits<P: Peek>(heap: &P, a: Addr, args: &[Value]) -> bool
    requires closed { AreClosed (P.image heap.now) }
    requires there { Has (P.image heap.now) a.0 }
    requires lock { length (at (P.image heap.now) a.0).values ≡ 1 }
    requires refer { Every (Refers (P.image heap.now)) args.now }
    ensures { Tells {S = State} result AnswersWait (P.image heap.now) (acquire_with a.0 args.now) }
{
    if !is_set(heap.peek_val(a, 0)) {
        return false;
    }
    match args {
        [] => true,
        [x] => truth(heap, *x),
        _ => false,
    }
}

/// Whether `join` of a thread would wait: it is started, is not the calling one, and has not ended.
fn join_waits<P: Peek>(heap: &P, me: Option<Addr>, a: Addr) -> bool
    requires there { Has (P.image heap.now) a.0 }
    requires thread { length (at (P.image heap.now) a.0).values ≡ 4 }
    ensures { Tells {S = State} result AnswersWait (P.image heap.now) (join_row (option_map (λ m. m.0) me) a.0) }
{
    if is_none(heap.peek_val(a, 2)) {
        return false;
    }
    if is_me(me, a) {
        return false;
    }
    !is_set(heap.peek_val(a, 3))
}

/// Whether `acquire` of a value would wait.
fn lock_waits<P: Peek>(heap: &P, own: Value, args: &[Value]) -> bool
    requires closed { AreClosed (P.image heap.now) }
    requires own { Refers (P.image heap.now) own }
    requires refer { Every (Refers (P.image heap.now)) args.now }
    ensures { Tells {S = State} result AnswersWait (P.image heap.now)
        (lock_row (builtin_number (codes "lock.acquire")) own args.now []) }
{
    match record_of(heap, own, Kind::Lock) {
        Some(a) => acquire_waits(heap, a, args),
        None => false,
    }
}

/// Whether `join` of a value would wait.
fn thread_waits<P: Peek>(heap: &P, me: Option<Addr>, own: Value, args: &[Value]) -> bool
    requires closed { AreClosed (P.image heap.now) }
    requires own { Refers (P.image heap.now) own }
    ensures { (roots : ℕ)
        → Tells {S = State} result AnswersWait (P.image heap.now)
        (thread_row roots (option_map (λ m. m.0) me) (builtin_number (codes "thread.join")) own args.now []) }
{
    match args {
        [] => match record_of(heap, own, Kind::Thread) {
            Some(a) => join_waits(heap, me, a),
            None => false,
        },
        _ => false,
    }
}

/// Whether the call of the builtin of a number would wait, without keywords. `me` is the Thread record of the thread
/// that calls, if it has one, `own` the object of a method.
pub fn builtin_waits<P: Peek>(heap: &P, me: Option<Addr>, b: u8, own: Value, args: &[Value]) -> bool
    requires closed { AreClosed (P.image heap.now) }
    requires own { Refers (P.image heap.now) own }
    requires refer { Every (Refers (P.image heap.now)) args.now }
    ensures { (roots : ℕ) → Tells {S = State} result AnswersWait (P.image heap.now)
        (call_row roots (option_map (λ m. m.0) me) b own args.now []) }
{
    if b == LOCK_ACQUIRE {
        return lock_waits(heap, own, args);
    }
    if b == THREAD_JOIN {
        return thread_waits(heap, me, own, args);
    }
    false
}
