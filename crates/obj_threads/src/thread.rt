//! Thread records: new ones, and their methods.
ghost use Rattle.std.specs.Prelude.{◌≡◌, IfOk, false, [], ◌∷◌, option_map};
ghost use Rattle.py_base.specs.declared.kind.Kind.TheVariants as kinds;
ghost use Rattle.py_data.specs.declared.value.Value.TheVariants as values;
ghost use Rattle.py_data.specs.Heap.{new_rec};
ghost use Rattle.py_data.specs.Made.{rec_of};
ghost use Rattle.py_data.specs.Sense.{Meets, Safe, IsLive};
ghost use Rattle.obj_threads.specs.Threads as threads;

use crate::answer::Answer;
use crate::argument::{answered, is_bare, is_none, is_set};
use crate::keywords::{Keywords, read_keywords};
use crate::starting::{begin, tuple_of};
use obj_str::{wrong_arguments, wrong_operand};
use py_data::builtin::THREAD_START;
use py_data::exception::{RUNTIME_ERROR, raise};
use py_data::{Addr, Bytes, Got, Kind, NoMemory, Record, Stop, Value, Values, View, kind, look};
use std::alloc::Global;

/// The record of a thread that isn't started.
fn fresh_thread(alloc: Global, f: Value, args: Value) -> Result<Record, NoMemory>
    ensures { IfOk result (λ r. rec_of r ≡ new_rec kinds.Thread (f ∷ args ∷ values.None ∷ values.Bool false ∷ []) []) }
{
    let mut values = Values::new(alloc);
    values.push(f)?;
    values.push(args)?;
    values.push(Value::None)?;
    values.push(Value::Bool(false))?;
    Ok(Record {
        kind: Kind::Thread,
        values,
        bytes: Bytes::new(alloc),
    })
}

/// Makes a thread.
#[tactic(auto, using(py_data::proofs::Rows::row_steps), unfolding(crate::specs::Threads::made_thread))]
fn make_thread<S, V: View<S>>(
    alloc: Global,
    v: &mut V,
    f: Value,
    args: Value,
) -> Result<Got<Answer>, Stop>
    requires live { IsLive V.sense v.old }
    requires safe { Safe V.sense.partial (threads.made_thread {S = S} f args) (V.sense.heap v.old) }
    ensures { Meets V.sense (threads.made_thread f args) v.old v.new result }
{
    let made = fresh_thread(alloc, f, args)?;
    Ok(answered(Value::Ref(v.make(&made)?)))
}

/// Makes a tuple without items.
#[tactic(auto, using(py_data::proofs::Rows::row_steps), unfolding(crate::specs::Threads::empty_row))]
fn make_empty<S, V: View<S>>(alloc: Global, v: &mut V) -> Result<Value, Stop>
    requires live { IsLive V.sense v.old }
    requires safe { Safe V.sense.partial (threads.empty_row {S = S}) (V.sense.heap v.old) }
    ensures { Meets V.sense threads.empty_row v.old v.new result }
{
    let made = Record {
        kind: Kind::Tuple,
        values: Values::new(alloc),
        bytes: Bytes::new(alloc),
    };
    Ok(Value::Ref(v.make(&made)?))
}

/// Makes a thread with this tuple of arguments.
#[tactic(auto, using(py_data::proofs::Rows::row_steps), unfolding(crate::specs::Threads::thread_by))]
fn thread_by<S, V: View<S>>(
    alloc: Global,
    v: &mut V,
    f: Value,
    tuple: Option<Addr>,
) -> Result<Got<Answer>, Stop>
    requires live { IsLive V.sense v.old }
    requires safe { Safe V.sense.partial (threads.thread_by {S = S} f tuple) (V.sense.heap v.old) }
    ensures { Meets V.sense (threads.thread_by f tuple) v.old v.new result }
{
    match tuple {
        Some(t) => make_thread(alloc, v, f, Value::Ref(t)),
        None => wrong_arguments(alloc),
    }
}

/// Makes a thread with these arguments; without them it has a new tuple without items.
#[tactic(auto, using(py_data::proofs::Rows::row_steps, py_data::proofs::Steps::call_steps), unfolding(crate::specs::Threads::thread_with))]
fn thread_with<S, V: View<S>>(
    alloc: Global,
    v: &mut V,
    f: Value,
    args: Option<Value>,
) -> Result<Got<Answer>, Stop>
    requires live { IsLive V.sense v.old }
    requires safe { Safe V.sense.partial (threads.thread_with {S = S} f args) (V.sense.heap v.old) }
    ensures { Meets V.sense (threads.thread_with f args) v.old v.new result }
{
    match args {
        Some(x) => {
            let tuple = tuple_of(v, x)?;
            thread_by(alloc, v, f, tuple)
        }
        None => {
            let t = make_empty(alloc, v)?;
            make_thread(alloc, v, f, t)
        }
    }
}

/// Makes a thread with this target, which has to be given.
#[tactic(auto, using(py_data::proofs::Rows::row_steps), unfolding(crate::specs::Threads::thread_of_target))]
fn thread_of_target<S, V: View<S>>(
    alloc: Global,
    v: &mut V,
    args: Option<Value>,
    target: Option<Value>,
) -> Result<Got<Answer>, Stop>
    requires live { IsLive V.sense v.old }
    requires safe { Safe V.sense.partial (threads.thread_of_target {S = S} args target) (V.sense.heap v.old) }
    ensures { Meets V.sense (threads.thread_of_target args target) v.old v.new result }
{
    match target {
        Some(f) => thread_with(alloc, v, f, args),
        None => wrong_arguments(alloc),
    }
}

/// Makes a thread by keywords.
#[tactic(auto, using(py_data::proofs::Rows::row_steps), unfolding(crate::specs::Threads::thread_given))]
fn thread_given<S, V: View<S>>(alloc: Global, v: &mut V, k: Keywords) -> Result<Got<Answer>, Stop>
    requires live { IsLive V.sense v.old }
    requires safe { Safe V.sense.partial (threads.thread_given {S = S} k) (V.sense.heap v.old) }
    ensures { Meets V.sense (threads.thread_given k) v.old v.new result }
{
    thread_of_target(alloc, v, k.args, k.target)
}

/// Makes a thread by keywords that are to be read.
#[tactic(auto, using(py_data::proofs::Rows::row_steps, py_data::proofs::Steps::call_steps), unfolding(crate::specs::Threads::thread_keyed))]
fn thread_keyed<S, V: View<S>>(
    alloc: Global,
    v: &mut V,
    keys: &[Value],
) -> Result<Got<Answer>, Stop>
    requires live { IsLive V.sense v.old }
    requires safe { Safe V.sense.partial (threads.thread_keyed {S = S} keys.now) (V.sense.heap v.old) }
    ensures { Meets V.sense (threads.thread_keyed keys.now) v.old v.new result }
{
    match read_keywords(alloc, v, keys)? {
        Got::Is(k) => thread_given(alloc, v, k),
        Got::Raise(e) => Ok(Got::Raise(e)),
    }
}

/// `Thread(target=f)` and `Thread(target=f, args=t)`. The target may be any value.
#[tactic(auto, using(py_data::proofs::Rows::row_steps), unfolding(crate::specs::Threads::new_thread_row))]
pub fn new_thread<S, V: View<S>>(
    alloc: Global,
    v: &mut V,
    args: &[Value],
    keys: &[Value],
) -> Result<Got<Answer>, Stop>
    requires live { IsLive V.sense v.old }
    requires safe { Safe V.sense.partial (threads.new_thread_row {S = S} args.now keys.now) (V.sense.heap v.old) }
    ensures { Meets V.sense (threads.new_thread_row args.now keys.now) v.old v.new result }
{
    if args.is_empty() {
        thread_keyed(alloc, v, keys)
    } else {
        wrong_arguments(alloc)
    }
}

/// `start` of a thread that isn't started, with its target.
#[tactic(auto, using(py_data::proofs::Rows::row_steps, py_data::proofs::Steps::call_steps), unfolding(crate::specs::Threads::start_called))]
fn start_called<S, V: View<S>>(
    alloc: Global,
    v: &mut V,
    roots: Addr,
    a: Addr,
    f: Value,
) -> Result<Got<Answer>, Stop>
    requires live { IsLive V.sense v.old }
    requires safe { Safe V.sense.partial (threads.start_called {S = S} roots.0 a f) (V.sense.heap v.old) }
    ensures { Meets V.sense (threads.start_called roots.0 a f) v.old v.new result }
{
    let args = look(v, a, 1)?;
    begin(alloc, v, roots, f, args, Some(a))
}

/// `start` of a thread that isn't started.
#[tactic(auto, using(py_data::proofs::Rows::row_steps, py_data::proofs::Steps::call_steps), unfolding(crate::specs::Threads::start_fresh))]
fn start_fresh<S, V: View<S>>(
    alloc: Global,
    v: &mut V,
    roots: Addr,
    a: Addr,
) -> Result<Got<Answer>, Stop>
    requires live { IsLive V.sense v.old }
    requires safe { Safe V.sense.partial (threads.start_fresh {S = S} roots.0 a) (V.sense.heap v.old) }
    ensures { Meets V.sense (threads.start_fresh roots.0 a) v.old v.new result }
{
    let f = look(v, a, 0)?;
    start_called(alloc, v, roots, a, f)
}

/// `start` of a thread that is fresh, or was started.
#[tactic(auto, using(py_data::proofs::Rows::row_steps), unfolding(crate::specs::Threads::start_by_number))]
fn start_by_number<S, V: View<S>>(
    alloc: Global,
    v: &mut V,
    roots: Addr,
    a: Addr,
    fresh: bool,
) -> Result<Got<Answer>, Stop>
    requires live { IsLive V.sense v.old }
    requires safe { Safe V.sense.partial (threads.start_by_number {S = S} roots.0 a fresh) (V.sense.heap v.old) }
    ensures { Meets V.sense (threads.start_by_number roots.0 a fresh) v.old v.new result }
{
    if fresh {
        start_fresh(alloc, v, roots, a)
    } else {
        raise(alloc, RUNTIME_ERROR, b"thread already started")
    }
}

/// `start`.
#[tactic(auto, using(py_data::proofs::Rows::row_steps, py_data::proofs::Steps::call_steps), unfolding(crate::specs::Threads::start_row))]
fn start<S, V: View<S>>(alloc: Global, v: &mut V, roots: Addr, a: Addr) -> Result<Got<Answer>, Stop>
    requires live { IsLive V.sense v.old }
    requires safe { Safe V.sense.partial (threads.start_row {S = S} roots.0 a) (V.sense.heap v.old) }
    ensures { Meets V.sense (threads.start_row roots.0 a) v.old v.new result }
{
    let n = look(v, a, 2)?;
    start_by_number(alloc, v, roots, a, is_none(n))
}

/// Whether the calling thread, which may have no record, has this one.
fn is_me(me: Option<Addr>, a: Addr) -> bool
    ensures { result ≡ threads.is_me (option_map (λ m. m.0) me) a.0 }
{
    match me {
        Some(m) => m.0 == a.0,
        None => false,
    }
}

/// What `join` of a started thread answers: None where it has ended, else it waits.
fn joined(ended: bool) -> Got<Answer>
    ensures { result ≡ threads.joined ended }
{
    if ended {
        answered(Value::None)
    } else {
        Got::Is(Answer::Waits)
    }
}

/// `join` of another thread.
#[tactic(auto, using(py_data::proofs::Rows::row_steps, py_data::proofs::Steps::call_steps), unfolding(crate::specs::Threads::join_other))]
fn join_other<S, V: View<S>>(v: &mut V, a: Addr) -> Result<Got<Answer>, Stop>
    requires live { IsLive V.sense v.old }
    requires safe { Safe V.sense.partial (threads.join_other {S = S} a.0) (V.sense.heap v.old) }
    ensures { Meets V.sense (threads.join_other a.0) v.old v.new result }
{
    let ended = look(v, a, 3)?;
    Ok(joined(is_set(ended)))
}

/// `join` of a started thread.
#[tactic(auto, using(py_data::proofs::Rows::row_steps), unfolding(crate::specs::Threads::join_started))]
fn join_started<S, V: View<S>>(
    alloc: Global,
    v: &mut V,
    me: Option<Addr>,
    a: Addr,
) -> Result<Got<Answer>, Stop>
    requires live { IsLive V.sense v.old }
    requires safe { Safe V.sense.partial (threads.join_started {S = S} (option_map (λ m. m.0) me) a.0)
        (V.sense.heap v.old) }
    ensures { Meets V.sense (threads.join_started (option_map (λ m. m.0) me) a.0) v.old v.new result }
{
    if is_me(me, a) {
        raise(alloc, RUNTIME_ERROR, b"cannot join current thread")
    } else {
        join_other(v, a)
    }
}

/// `join` of a thread that is fresh, or was started.
#[tactic(auto, using(py_data::proofs::Rows::row_steps), unfolding(crate::specs::Threads::join_by_number))]
fn join_by_number<S, V: View<S>>(
    alloc: Global,
    v: &mut V,
    me: Option<Addr>,
    a: Addr,
    fresh: bool,
) -> Result<Got<Answer>, Stop>
    requires live { IsLive V.sense v.old }
    requires safe { Safe V.sense.partial (threads.join_by_number {S = S} (option_map (λ m. m.0) me) a.0 fresh)
        (V.sense.heap v.old) }
    ensures { Meets V.sense (threads.join_by_number (option_map (λ m. m.0) me) a.0 fresh) v.old v.new result }
{
    if fresh {
        raise(alloc, RUNTIME_ERROR, b"thread not started")
    } else {
        join_started(alloc, v, me, a)
    }
}

/// `join`.
#[tactic(auto, using(py_data::proofs::Rows::row_steps, py_data::proofs::Steps::call_steps), unfolding(crate::specs::Threads::join_row))]
fn join<S, V: View<S>>(
    alloc: Global,
    v: &mut V,
    me: Option<Addr>,
    a: Addr,
) -> Result<Got<Answer>, Stop>
    requires live { IsLive V.sense v.old }
    requires safe { Safe V.sense.partial (threads.join_row {S = S} (option_map (λ m. m.0) me) a.0)
        (V.sense.heap v.old) }
    ensures { Meets V.sense (threads.join_row (option_map (λ m. m.0) me) a.0) v.old v.new result }
{
    let n = look(v, a, 2)?;
    join_by_number(alloc, v, me, a, is_none(n))
}

/// `start` or `join`.
#[tactic(auto, using(py_data::proofs::Rows::row_steps), unfolding(crate::specs::Threads::bare_thread_row))]
fn bare_method<S, V: View<S>>(
    alloc: Global,
    v: &mut V,
    roots: Addr,
    me: Option<Addr>,
    m: u8,
    a: Addr,
) -> Result<Got<Answer>, Stop>
    requires live { IsLive V.sense v.old }
    requires safe { Safe V.sense.partial (threads.bare_thread_row {S = S} roots.0 (option_map (λ m. m.0) me) m a)
        (V.sense.heap v.old) }
    ensures { Meets V.sense (threads.bare_thread_row roots.0 (option_map (λ m. m.0) me) m a) v.old v.new result }
{
    if m == THREAD_START {
        start(alloc, v, roots, a)
    } else {
        join(alloc, v, me, a)
    }
}

/// The same, where neither arguments nor keywords may stand.
#[tactic(auto, using(py_data::proofs::Rows::row_steps), unfolding(crate::specs::Threads::thread_bare))]
fn bare<S, V: View<S>>(
    alloc: Global,
    v: &mut V,
    roots: Addr,
    me: Option<Addr>,
    m: u8,
    a: Addr,
    args: &[Value],
    keys: &[Value],
) -> Result<Got<Answer>, Stop>
    requires live { IsLive V.sense v.old }
    requires safe { Safe V.sense.partial
        (threads.thread_bare {S = S} roots.0 (option_map (λ m. m.0) me) m a args.now keys.now) (V.sense.heap v.old) }
    ensures { Meets V.sense (threads.thread_bare roots.0 (option_map (λ m. m.0) me) m a args.now keys.now) v.old
        v.new result }
{
    if is_bare(args, keys) {
        bare_method(alloc, v, roots, me, m, a)
    } else {
        wrong_arguments(alloc)
    }
}

/// The method of a record of a kind.
#[tactic(auto, using(py_data::proofs::Rows::row_steps), unfolding(crate::specs::Threads::thread_of))]
fn of_kind<S, V: View<S>>(
    alloc: Global,
    v: &mut V,
    roots: Addr,
    me: Option<Addr>,
    m: u8,
    a: Addr,
    args: &[Value],
    keys: &[Value],
    kind: Kind,
) -> Result<Got<Answer>, Stop>
    requires live { IsLive V.sense v.old }
    requires safe { Safe V.sense.partial
        (threads.thread_of {S = S} roots.0 (option_map (λ m. m.0) me) m a args.now keys.now kind) (V.sense.heap v.old) }
    ensures { Meets V.sense (threads.thread_of roots.0 (option_map (λ m. m.0) me) m a args.now keys.now kind) v.old
        v.new result }
{
    match kind {
        Kind::Thread => bare(alloc, v, roots, me, m, a, args, keys),
        _ => wrong_operand(alloc),
    }
}

/// The method of a record.
#[tactic(auto, using(py_data::proofs::Rows::row_steps, py_data::proofs::Steps::call_steps), unfolding(crate::specs::Threads::thread_at))]
fn of_record<S, V: View<S>>(
    alloc: Global,
    v: &mut V,
    roots: Addr,
    me: Option<Addr>,
    m: u8,
    a: Addr,
    args: &[Value],
    keys: &[Value],
) -> Result<Got<Answer>, Stop>
    requires live { IsLive V.sense v.old }
    requires safe { Safe V.sense.partial
        (threads.thread_at {S = S} roots.0 (option_map (λ m. m.0) me) m a args.now keys.now) (V.sense.heap v.old) }
    ensures { Meets V.sense (threads.thread_at roots.0 (option_map (λ m. m.0) me) m a args.now keys.now) v.old
        v.new result }
{
    let kind = kind(v, a)?;
    of_kind(alloc, v, roots, me, m, a, args, keys, kind)
}

/// The method of a number, `start` or `join`, of a value. TypeError, `unsupported operand`, where it is no thread.
#[tactic(auto, using(py_data::proofs::Rows::row_steps), unfolding(crate::specs::Threads::thread_row))]
pub fn thread_method<S, V: View<S>>(
    alloc: Global,
    v: &mut V,
    roots: Addr,
    me: Option<Addr>,
    m: u8,
    own: Value,
    args: &[Value],
    keys: &[Value],
) -> Result<Got<Answer>, Stop>
    requires live { IsLive V.sense v.old }
    requires safe { Safe V.sense.partial
        (threads.thread_row {S = S} roots.0 (option_map (λ m. m.0) me) m own args.now keys.now) (V.sense.heap v.old) }
    ensures { Meets V.sense (threads.thread_row roots.0 (option_map (λ m. m.0) me) m own args.now keys.now) v.old
        v.new result }
{
    match own {
        Value::Ref(a) => of_record(alloc, v, roots, me, m, a, args, keys),
        _ => wrong_operand(alloc),
    }
}
