//! Threads that are started.
ghost use Rattle.std.specs.Prelude.{◌≡◌, ◌∷◌, ◌++◌, IfOk};
ghost use Rattle.py_data.specs.Sense.{Meets, Safe, IsLive};
ghost use Rattle.py_frames.specs.Binding as binding;
ghost use Rattle.py_frames.specs.CallRows as call_rows;

use crate::binding::{count_in, passed_row};
use py_data::{Addr, Got, Kind, NoMemory, Stop, Value, View, kind, look};
use py_frames::{Frame, Next};
use py_parts::{Passed, Site, place_in, push, raise_row, values_row};
use py_states::ThreadState;
use std::alloc::Global;

/// A thread of this number, Thread record and frame.
fn new_state(
    alloc: Global,
    n: u32,
    roots: Addr,
    thread: Option<Addr>,
    f: &Frame,
) -> Result<ThreadState, NoMemory>
    ensures { IfOk result (λ s. s ≡ call_rows.new_state n roots.0 thread f.now) }
{
    ThreadState::entered(alloc, n, Some(roots), thread, f)
}

/// The count of threads rises, and the thread starts. Its number is how many were started before it.
#[tactic(auto, using(py_data::proofs::Rows::change_steps), unfolding(py_frames::specs::CallRows::counted_row))]
fn counted_row<V: View<ThreadState>>(
    alloc: Global,
    v: &mut V,
    roots: Addr,
    thread: Option<Addr>,
    f: &Frame,
    count: Addr,
    n: u32,
    x: Value,
) -> Result<Next, Stop>
    requires live { IsLive V.sense v.old }
    requires safe { Safe V.sense.partial (call_rows.counted_row roots.0 thread f.now count.0 n x) (V.sense.heap v.old) }
    ensures { Meets V.sense (call_rows.counted_row roots.0 thread f.now count.0 n x) v.old v.new result }
{
    let state = new_state(alloc, n, roots, thread, f)?;
    v.set_val(count, 0, Value::Int(n as i64 + 1))?;
    v.start_thread(state)?;
    Ok(push(x))
}

/// The Thread record gets its number, and the answer is None; without one the answer is the number.
#[tactic(auto, using(py_data::proofs::Rows::change_steps, py_data::proofs::Steps::call_steps), unfolding(py_frames::specs::CallRows::started_row))]
fn started_row<V: View<ThreadState>>(
    alloc: Global,
    v: &mut V,
    roots: Addr,
    thread: Option<Addr>,
    f: &Frame,
    count: Addr,
    n: u32,
) -> Result<Next, Stop>
    requires live { IsLive V.sense v.old }
    requires safe { Safe V.sense.partial (call_rows.started_row roots.0 thread f.now count.0 n) (V.sense.heap v.old) }
    ensures { Meets V.sense (call_rows.started_row roots.0 thread f.now count.0 n) v.old v.new result }
{
    match thread {
        Some(t) => {
            v.set_val(t, 2, Value::Int(n as i64))?;
            counted_row(alloc, v, roots, thread, f, count, n, Value::None)
        }
        None => counted_row(alloc, v, roots, thread, f, count, n, Value::Int(n as i64)),
    }
}

/// The thread starts, by the address of the count of threads.
#[tactic(auto, using(py_data::proofs::Rows::row_steps, py_data::proofs::Steps::call_steps), unfolding(py_frames::specs::CallRows::numbered_start))]
fn numbered_start<V: View<ThreadState>>(
    alloc: Global,
    v: &mut V,
    roots: Addr,
    thread: Option<Addr>,
    f: &Frame,
    count: Addr,
) -> Result<Next, Stop>
    requires live { IsLive V.sense v.old }
    requires safe { Safe V.sense.partial (call_rows.numbered_start roots.0 thread f.now count.0) (V.sense.heap v.old) }
    ensures { Meets V.sense (call_rows.numbered_start roots.0 thread f.now count.0) v.old v.new result }
{
    let x = look(v, count, 0)?;
    started_row(alloc, v, roots, thread, f, count, count_in(x)?)
}

/// The thread starts with a frame, or the exception is raised.
#[tactic(auto, using(py_data::proofs::Rows::row_steps, py_data::proofs::Steps::call_steps), unfolding(py_frames::specs::CallRows::thread_row))]
fn thread_row<V: View<ThreadState>>(
    alloc: Global,
    v: &mut V,
    roots: Addr,
    thread: Option<Addr>,
    got: Got<Frame>,
) -> Result<Next, Stop>
    requires live { IsLive V.sense v.old }
    requires safe { Safe V.sense.partial (call_rows.thread_row roots.0 thread got) (V.sense.heap v.old) }
    ensures { Meets V.sense (call_rows.thread_row roots.0 thread got) v.old v.new result }
{
    match got {
        Got::Is(f) => {
            let count = look(v, roots, 0)?;
            numbered_start(alloc, v, roots, thread, &f, place_in(count))
        }
        Got::Raise(e) => raise_row(alloc, v, roots, &e),
    }
}

/// What the call of the Function at an address enters, with arguments alone: the ones before, and then the others.
#[tactic(auto, using(py_data::proofs::Rows::row_steps))]
fn bound_plainly<S, V: View<S>>(
    alloc: Global,
    v: &mut V,
    s: &Site<'_>,
    before: &[Value],
    args: &[Value],
    f: Addr,
) -> Result<Got<Frame>, Stop>
    requires live { IsLive V.sense v.old }
    requires safe { let p = s.now in Safe V.sense.partial
        (binding.bound_row {S = S} p.program (binding.plainly (before.now ++ args.now)) f.0) (V.sense.heap v.old) }
    ensures { let p = s.now in Meets V.sense
        (binding.bound_row p.program (binding.plainly (before.now ++ args.now)) f.0) v.old v.new result }
{
    let g = Passed {
        before,
        args,
        names: &[],
        values: &[],
    };
    passed_row(alloc, v, s.program, &g, f)
}

/// The thread starts with the call of the Function at an address, with the arguments before and then the others. They
/// are bound before anything is changed.
#[tactic(auto, using(py_data::proofs::Rows::row_steps, py_data::proofs::Steps::call_steps), unfolding(py_frames::specs::CallRows::function_start))]
fn passed_start<V: View<ThreadState>>(
    alloc: Global,
    v: &mut V,
    s: &Site<'_>,
    thread: Option<Addr>,
    before: &[Value],
    args: &[Value],
    f: Addr,
) -> Result<Next, Stop>
    requires live { IsLive V.sense v.old }
    requires safe { Safe V.sense.partial (call_rows.function_start s.now thread (before.now ++ args.now) f.0)
        (V.sense.heap v.old) }
    ensures { Meets V.sense (call_rows.function_start s.now thread (before.now ++ args.now) f.0) v.old v.new result }
{
    let got = bound_plainly(alloc, v, s, before, args, f)?;
    thread_row(alloc, v, s.roots, thread, got)
}

/// The thread starts with the call of the Function at an address, with these arguments.
#[tactic(auto, using(py_data::proofs::Rows::row_steps))]
fn function_start<V: View<ThreadState>>(
    alloc: Global,
    v: &mut V,
    s: &Site<'_>,
    thread: Option<Addr>,
    args: &[Value],
    f: Addr,
) -> Result<Next, Stop>
    requires live { IsLive V.sense v.old }
    requires safe { Safe V.sense.partial (call_rows.function_start s.now thread args.now f.0) (V.sense.heap v.old) }
    ensures { Meets V.sense (call_rows.function_start s.now thread args.now f.0) v.old v.new result }
{
    passed_start(alloc, v, s, thread, &[], args, f)
}

/// The same, where one argument more stands before all others.
#[tactic(auto, using(py_data::proofs::Rows::row_steps))]
fn first_start<V: View<ThreadState>>(
    alloc: Global,
    v: &mut V,
    s: &Site<'_>,
    thread: Option<Addr>,
    own: Value,
    args: &[Value],
    f: Addr,
) -> Result<Next, Stop>
    requires live { IsLive V.sense v.old }
    requires safe { Safe V.sense.partial (call_rows.function_start s.now thread (own ∷ args.now) f.0)
        (V.sense.heap v.old) }
    ensures { Meets V.sense (call_rows.function_start s.now thread (own ∷ args.now) f.0) v.old v.new result }
{
    passed_start(alloc, v, s, thread, &[own], args, f)
}

/// The thread starts with the call of a Method, whose own object is the first argument.
#[tactic(auto, using(py_data::proofs::Rows::row_steps, py_data::proofs::Steps::call_steps), unfolding(py_frames::specs::CallRows::owned_start))]
fn owned_start<V: View<ThreadState>>(
    alloc: Global,
    v: &mut V,
    s: &Site<'_>,
    thread: Option<Addr>,
    args: &[Value],
    a: Addr,
    f: Addr,
) -> Result<Next, Stop>
    requires live { IsLive V.sense v.old }
    requires safe { Safe V.sense.partial (call_rows.owned_start s.now thread args.now a.0 f.0) (V.sense.heap v.old) }
    ensures { Meets V.sense (call_rows.owned_start s.now thread args.now a.0 f.0) v.old v.new result }
{
    let own = look(v, a, 1)?;
    first_start(alloc, v, s, thread, own, args, f)
}

/// The thread starts with the call of a record of a kind.
#[tactic(auto, using(py_data::proofs::Rows::row_steps, py_data::proofs::Steps::call_steps), unfolding(py_frames::specs::CallRows::target_start))]
fn target_start<V: View<ThreadState>>(
    alloc: Global,
    v: &mut V,
    s: &Site<'_>,
    thread: Option<Addr>,
    args: &[Value],
    a: Addr,
    kind: Kind,
) -> Result<Next, Stop>
    requires live { IsLive V.sense v.old }
    requires safe { Safe V.sense.partial (call_rows.target_start s.now thread args.now a.0 kind) (V.sense.heap v.old) }
    ensures { Meets V.sense (call_rows.target_start s.now thread args.now a.0 kind) v.old v.new result }
{
    match kind {
        Kind::Method => {
            let f = look(v, a, 0)?;
            owned_start(alloc, v, s, thread, args, a, place_in(f))
        }
        _ => function_start(alloc, v, s, thread, args, a),
    }
}

/// The thread starts with the call of a record.
#[tactic(auto, using(py_data::proofs::Rows::row_steps, py_data::proofs::Steps::call_steps), unfolding(py_frames::specs::CallRows::kind_start))]
fn kind_start<V: View<ThreadState>>(
    alloc: Global,
    v: &mut V,
    s: &Site<'_>,
    thread: Option<Addr>,
    a: Addr,
    args: &[Value],
) -> Result<Next, Stop>
    requires live { IsLive V.sense v.old }
    requires safe { Safe V.sense.partial (call_rows.kind_start s.now thread a.0 args.now) (V.sense.heap v.old) }
    ensures { Meets V.sense (call_rows.kind_start s.now thread a.0 args.now) v.old v.new result }
{
    let kind = kind(v, a)?;
    target_start(alloc, v, s, thread, args, a, kind)
}

/// The thread starts with the call of a target, a Function or a Method of one, with the items of a tuple.
#[tactic(auto, using(py_data::proofs::Rows::row_steps, py_data::proofs::Steps::call_steps), unfolding(py_frames::specs::CallRows::start_row))]
pub fn start_row<V: View<ThreadState>>(
    alloc: Global,
    v: &mut V,
    s: &Site<'_>,
    thread: Option<Addr>,
    target: Value,
    args: Addr,
) -> Result<Next, Stop>
    requires live { IsLive V.sense v.old }
    requires safe { Safe V.sense.partial (call_rows.start_row s.now thread target args.0) (V.sense.heap v.old) }
    ensures { Meets V.sense (call_rows.start_row s.now thread target args.0) v.old v.new result }
{
    let vs = values_row(alloc, v, args)?;
    kind_start(alloc, v, s, thread, place_in(target), vs.as_slice())
}
