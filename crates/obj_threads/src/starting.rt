//! What leads to a thread's start: what it is to call, and whether there may be one more.
ghost use Rattle.std.specs.Prelude.{◌≡◌};
ghost use Rattle.py_data.specs.Sense.{Meets, Safe, IsLive};
ghost use Rattle.obj_threads.specs.Starting as starting;

use crate::answer::Answer;
use crate::argument::wrong_arguments;
use py_data::exception::{THREAD_ERROR, raise};
use py_data::{Addr, Got, Kind, Stop, Value, View, kind, look};
use std::alloc::Global;

/// The threads that a run has at most, the first one counted.
const MOST_THREADS: i64 = 1_024;

/// Whether there may be one thread more than so many. What is no number counts as full.
fn has_room(count: Value) -> bool
    ensures { result ≡ starting.has_room count }
{
    match count {
        Value::Int(n) => n < MOST_THREADS,
        _ => false,
    }
}

/// What a Cell holds.
#[tactic(auto, using(py_data::proofs::Rows::row_steps), unfolding(crate::specs::Starting::cell_row))]
fn cell_value<S, V: View<S>>(v: &mut V, cell: Value) -> Result<Value, Stop>
    requires live { IsLive V.sense v.old }
    requires safe { Safe V.sense.partial (starting.cell_row {S = S} cell) (V.sense.heap v.old) }
    ensures { Meets V.sense (starting.cell_row cell) v.old v.new result }
{
    match cell {
        Value::Ref(c) => look(v, c, 0),
        _ => Ok(Value::Unset),
    }
}

/// How many threads were started.
#[tactic(auto, using(py_data::proofs::Rows::row_steps, py_data::proofs::Steps::call_steps), unfolding(crate::specs::Starting::count_row))]
fn count<S, V: View<S>>(v: &mut V, roots: Addr) -> Result<Value, Stop>
    requires live { IsLive V.sense v.old }
    requires safe { Safe V.sense.partial (starting.count_row {S = S} roots.0) (V.sense.heap v.old) }
    ensures { Meets V.sense (starting.count_row roots.0) v.old v.new result }
{
    let cell = look(v, roots, 0)?;
    cell_value(v, cell)
}

/// The address of a record, if it is a tuple.
fn tuple_by(a: Addr, kind: Kind) -> Option<Addr>
    ensures { result ≡ starting.tuple_by a kind }
{
    match kind {
        Kind::Tuple => Some(a),
        _ => None,
    }
}

/// The address of a value that is a tuple.
#[tactic(auto, using(py_data::proofs::Rows::row_steps, py_data::proofs::Steps::call_steps), unfolding(crate::specs::Starting::tuple_row))]
pub fn tuple_of<S, V: View<S>>(v: &mut V, x: Value) -> Result<Option<Addr>, Stop>
    requires live { IsLive V.sense v.old }
    requires safe { Safe V.sense.partial (starting.tuple_row {S = S} x) (V.sense.heap v.old) }
    ensures { Meets V.sense (starting.tuple_row x) v.old v.new result }
{
    match x {
        Value::Ref(a) => {
            let kind = kind(v, a)?;
            Ok(tuple_by(a, kind))
        }
        _ => Ok(None),
    }
}

/// Whether a record of this kind is a function.
fn is_function(kind: Kind) -> bool
    ensures { result ≡ starting.is_function kind }
{
    matches!(kind, Kind::Function)
}

/// Whether a value is a function.
#[tactic(auto, using(py_data::proofs::Rows::row_steps, py_data::proofs::Steps::call_steps), unfolding(crate::specs::Starting::function_row))]
fn is_function_value<S, V: View<S>>(v: &mut V, x: Value) -> Result<bool, Stop>
    requires live { IsLive V.sense v.old }
    requires safe { Safe V.sense.partial (starting.function_row {S = S} x) (V.sense.heap v.old) }
    ensures { Meets V.sense (starting.function_row x) v.old v.new result }
{
    match x {
        Value::Ref(a) => {
            let kind = kind(v, a)?;
            Ok(is_function(kind))
        }
        _ => Ok(false),
    }
}

/// Whether a method is one of a function.
#[tactic(auto, using(py_data::proofs::Rows::row_steps, py_data::proofs::Steps::call_steps), unfolding(crate::specs::Starting::method_row))]
fn is_bound_function<S, V: View<S>>(v: &mut V, a: Addr) -> Result<bool, Stop>
    requires live { IsLive V.sense v.old }
    requires safe { Safe V.sense.partial (starting.method_row {S = S} a.0) (V.sense.heap v.old) }
    ensures { Meets V.sense (starting.method_row a.0) v.old v.new result }
{
    let f = look(v, a, 0)?;
    is_function_value(v, f)
}

/// Whether a thread can call a record of this kind.
#[tactic(auto, using(py_data::proofs::Rows::row_steps), unfolding(crate::specs::Starting::target_by))]
fn is_target_by<S, V: View<S>>(v: &mut V, a: Addr, kind: Kind) -> Result<bool, Stop>
    requires live { IsLive V.sense v.old }
    requires safe { Safe V.sense.partial (starting.target_by {S = S} a.0 kind) (V.sense.heap v.old) }
    ensures { Meets V.sense (starting.target_by a.0 kind) v.old v.new result }
{
    match kind {
        Kind::Function => Ok(true),
        Kind::Method => is_bound_function(v, a),
        _ => Ok(false),
    }
}

/// Whether a thread can call a record.
#[tactic(auto, using(py_data::proofs::Rows::row_steps, py_data::proofs::Steps::call_steps), unfolding(crate::specs::Starting::target_at))]
fn is_target_at<S, V: View<S>>(v: &mut V, a: Addr) -> Result<bool, Stop>
    requires live { IsLive V.sense v.old }
    requires safe { Safe V.sense.partial (starting.target_at {S = S} a.0) (V.sense.heap v.old) }
    ensures { Meets V.sense (starting.target_at a.0) v.old v.new result }
{
    let kind = kind(v, a)?;
    is_target_by(v, a, kind)
}

/// Whether a thread can call a value: a function, or a method of a function.
#[tactic(auto, using(py_data::proofs::Rows::row_steps), unfolding(crate::specs::Starting::target_row))]
fn is_target<S, V: View<S>>(v: &mut V, f: Value) -> Result<bool, Stop>
    requires live { IsLive V.sense v.old }
    requires safe { Safe V.sense.partial (starting.target_row {S = S} f) (V.sense.heap v.old) }
    ensures { Meets V.sense (starting.target_row f) v.old v.new result }
{
    match f {
        Value::Ref(a) => is_target_at(v, a),
        _ => Ok(false),
    }
}

/// A start, or `thread.error` where there may be no thread more.
#[tactic(auto, using(py_data::proofs::Rows::row_steps), unfolding(crate::specs::Starting::answer_row))]
fn start_answer<S, V: View<S>>(
    alloc: Global,
    v: &mut V,
    f: Value,
    t: Addr,
    thread: Option<Addr>,
    room: bool,
) -> Result<Got<Answer>, Stop>
    requires live { IsLive V.sense v.old }
    requires safe { Safe V.sense.partial (starting.answer_row {S = S} f t thread room) (V.sense.heap v.old) }
    ensures { Meets V.sense (starting.answer_row f t thread room) v.old v.new result }
{
    if room {
        Ok(Got::Is(Answer::Start {
            target: f,
            args: t,
            thread,
        }))
    } else {
        raise(alloc, THREAD_ERROR, b"can't start new thread")
    }
}

/// A start, if the count of threads allows it.
#[tactic(auto, using(py_data::proofs::Rows::row_steps, py_data::proofs::Steps::call_steps), unfolding(crate::specs::Starting::room_row))]
fn start_within<S, V: View<S>>(
    alloc: Global,
    v: &mut V,
    roots: Addr,
    f: Value,
    t: Addr,
    thread: Option<Addr>,
) -> Result<Got<Answer>, Stop>
    requires live { IsLive V.sense v.old }
    requires safe { Safe V.sense.partial (starting.room_row {S = S} roots.0 f t thread) (V.sense.heap v.old) }
    ensures { Meets V.sense (starting.room_row roots.0 f t thread) v.old v.new result }
{
    let n = count(v, roots)?;
    start_answer(alloc, v, f, t, thread, has_room(n))
}

/// A start of what can be called, or can't.
#[tactic(auto, using(py_data::proofs::Rows::row_steps), unfolding(crate::specs::Starting::start_by))]
fn start_by<S, V: View<S>>(
    alloc: Global,
    v: &mut V,
    roots: Addr,
    f: Value,
    t: Addr,
    thread: Option<Addr>,
    good: bool,
) -> Result<Got<Answer>, Stop>
    requires live { IsLive V.sense v.old }
    requires safe { Safe V.sense.partial (starting.start_by {S = S} roots.0 f t thread good) (V.sense.heap v.old) }
    ensures { Meets V.sense (starting.start_by roots.0 f t thread good) v.old v.new result }
{
    if good {
        start_within(alloc, v, roots, f, t, thread)
    } else {
        wrong_arguments(alloc)
    }
}

/// A start with the tuple of arguments.
#[tactic(auto, using(py_data::proofs::Rows::row_steps, py_data::proofs::Steps::call_steps), unfolding(crate::specs::Starting::start_called))]
fn start_called<S, V: View<S>>(
    alloc: Global,
    v: &mut V,
    roots: Addr,
    f: Value,
    thread: Option<Addr>,
    t: Addr,
) -> Result<Got<Answer>, Stop>
    requires live { IsLive V.sense v.old }
    requires safe { Safe V.sense.partial (starting.start_called {S = S} roots.0 f thread t) (V.sense.heap v.old) }
    ensures { Meets V.sense (starting.start_called roots.0 f thread t) v.old v.new result }
{
    let good = is_target(v, f)?;
    start_by(alloc, v, roots, f, t, thread, good)
}

/// The same, if there is a tuple.
#[tactic(auto, using(py_data::proofs::Rows::row_steps), unfolding(crate::specs::Starting::start_with))]
fn start_with<S, V: View<S>>(
    alloc: Global,
    v: &mut V,
    roots: Addr,
    f: Value,
    thread: Option<Addr>,
    tuple: Option<Addr>,
) -> Result<Got<Answer>, Stop>
    requires live { IsLive V.sense v.old }
    requires safe { Safe V.sense.partial (starting.start_with {S = S} roots.0 f thread tuple) (V.sense.heap v.old) }
    ensures { Meets V.sense (starting.start_with roots.0 f thread tuple) v.old v.new result }
{
    match tuple {
        Some(t) => start_called(alloc, v, roots, f, thread, t),
        None => wrong_arguments(alloc),
    }
}

/// A thread that calls a value with arguments, and that may have a Thread record. The arguments are tested first, then
/// what is called, and then the count of threads.
#[tactic(auto, using(py_data::proofs::Rows::row_steps, py_data::proofs::Steps::call_steps), unfolding(crate::specs::Starting::begin_row))]
pub fn begin<S, V: View<S>>(
    alloc: Global,
    v: &mut V,
    roots: Addr,
    f: Value,
    args: Value,
    thread: Option<Addr>,
) -> Result<Got<Answer>, Stop>
    requires live { IsLive V.sense v.old }
    requires safe { Safe V.sense.partial (starting.begin_row {S = S} roots.0 f args thread) (V.sense.heap v.old) }
    ensures { Meets V.sense (starting.begin_row roots.0 f args thread) v.old v.new result }
{
    let tuple = tuple_of(v, args)?;
    start_with(alloc, v, roots, f, thread, tuple)
}

/// `start_new_thread` without keywords.
#[tactic(auto, using(py_data::proofs::Rows::row_steps), unfolding(crate::specs::Starting::start_new_with))]
fn start_new_with<S, V: View<S>>(
    alloc: Global,
    v: &mut V,
    roots: Addr,
    args: &[Value],
) -> Result<Got<Answer>, Stop>
    requires live { IsLive V.sense v.old }
    requires safe { Safe V.sense.partial (starting.start_new_with {S = S} roots.0 args.now) (V.sense.heap v.old) }
    ensures { Meets V.sense (starting.start_new_with roots.0 args.now) v.old v.new result }
{
    match args {
        [f, t] => begin(alloc, v, roots, *f, *t, None),
        _ => wrong_arguments(alloc),
    }
}

/// `start_new_thread(f, args)`.
#[tactic(auto, using(py_data::proofs::Rows::row_steps), unfolding(crate::specs::Starting::start_new_row))]
pub fn start_new<S, V: View<S>>(
    alloc: Global,
    v: &mut V,
    roots: Addr,
    args: &[Value],
    keys: &[Value],
) -> Result<Got<Answer>, Stop>
    requires live { IsLive V.sense v.old }
    requires safe { Safe V.sense.partial (starting.start_new_row {S = S} roots.0 args.now keys.now) (V.sense.heap v.old) }
    ensures { Meets V.sense (starting.start_new_row roots.0 args.now keys.now) v.old v.new result }
{
    if keys.is_empty() {
        start_new_with(alloc, v, roots, args)
    } else {
        wrong_arguments(alloc)
    }
}
