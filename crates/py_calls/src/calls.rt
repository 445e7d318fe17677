//! Calls of functions, methods, builtins and values.
ghost use Rattle.std.specs.Prelude.{◌≡◌, IfOk};
ghost use Rattle.obj_builtins.specs.Calls.{call_row};
ghost use Rattle.py_data.specs.Sense.{Meets, Safe, IsLive};
ghost use Rattle.py_frames.specs.Binding as binding;
ghost use Rattle.py_frames.specs.CallRows as call_rows;

use crate::binding::passed_row;
use crate::class_calls::{class_call, entered_row};
use crate::starts::start_row;
use obj_builtins::call;
use obj_threads::Answer;
use py_base::{skip, split};
use py_data::exception::TYPE_ERROR;
use py_data::{Addr, Got, Kind, NoMemory, Stop, Value, Values, View, kind, look, value_or_unset};
use py_frames::Next;
use py_parts::{Given, Passed, Site, place_in, push, raise_row, raise_text, values_row};
use py_states::ThreadState;
use std::alloc::Global;

/// The call of the Function at an address, by what is passed on to it.
#[tactic(auto, using(py_data::proofs::Rows::row_steps, py_data::proofs::Steps::call_steps), unfolding(py_frames::specs::CallRows::function_call))]
fn passed_call<S, V: View<S>>(
    alloc: Global,
    v: &mut V,
    s: &Site<'_>,
    g: &Passed<'_, '_>,
    f: Addr,
) -> Result<Next, Stop>
    requires live { IsLive V.sense v.old }
    requires safe { Safe V.sense.partial (call_rows.function_call {S = S} s.now g.now f.0) (V.sense.heap v.old) }
    ensures { Meets V.sense (call_rows.function_call s.now g.now f.0) v.old v.new result }
{
    let x = passed_row(alloc, v, s.program, g, f)?;
    entered_row(alloc, v, s, x)
}

/// The call of the Function at an address.
#[tactic(auto, using(py_data::proofs::Rows::row_steps))]
pub fn function_call<S, V: View<S>>(
    alloc: Global,
    v: &mut V,
    s: &Site<'_>,
    g: &Given<'_>,
    f: Addr,
) -> Result<Next, Stop>
    requires live { IsLive V.sense v.old }
    requires safe { Safe V.sense.partial (call_rows.function_call {S = S} s.now g.now f.0) (V.sense.heap v.old) }
    ensures { Meets V.sense (call_rows.function_call s.now g.now f.0) v.old v.new result }
{
    passed_call(alloc, v, s, &Passed::new(&[], g), f)
}

/// What the answer of a builtin leads to.
#[tactic(auto, using(py_data::proofs::Rows::row_steps), unfolding(py_frames::specs::CallRows::answered))]
pub fn answered<V: View<ThreadState>>(
    alloc: Global,
    v: &mut V,
    s: &Site<'_>,
    got: Got<Answer>,
) -> Result<Next, Stop>
    requires live { IsLive V.sense v.old }
    requires safe { Safe V.sense.partial (call_rows.answered s.now got) (V.sense.heap v.old) }
    ensures { Meets V.sense (call_rows.answered s.now got) v.old v.new result }
{
    match got {
        Got::Is(answer) => match answer {
            Answer::Value(x) => Ok(push(x)),
            Answer::Waits => Ok(Next::Waits),
            Answer::Start {
                target,
                args,
                thread,
            } => start_row(alloc, v, s, thread, target, args),
        },
        Got::Raise(e) => raise_row(alloc, v, s.roots, &e),
    }
}

/// The call of a builtin, with its keywords at hand.
#[tactic(auto, using(py_data::proofs::Rows::row_steps, py_data::proofs::Steps::call_steps), unfolding(py_frames::specs::CallRows::keyed_call))]
fn keyed_call<V: View<ThreadState>>(
    alloc: Global,
    v: &mut V,
    s: &Site<'_>,
    b: u8,
    own: Value,
    args: &[Value],
    keys: &[Value],
) -> Result<Next, Stop>
    requires live { IsLive V.sense v.old }
    requires safe { Safe V.sense.partial (call_rows.keyed_call s.now b own args.now keys.now) (V.sense.heap v.old) }
    ensures { Meets V.sense (call_rows.keyed_call s.now b own args.now keys.now) v.old v.new result }
{
    let got = call(alloc, v, s.roots, s.thread, b, own, args, keys)?;
    answered(alloc, v, s, got)
}

/// Beside the name of each keyword, a root, its value.
fn key_pairs(
    alloc: Global,
    roots: &[Value],
    names: &[u32],
    values: &[Value],
) -> Result<Values, NoMemory>
    ensures { IfOk result (λ xs. xs ≡ call_rows.key_pairs roots.now names.now values.now) }
{
    let mut out = Values::new(alloc);
    let mut rest = names;
    let mut left = values;
    'names: while let Some((n, more)) = split(rest) {
        out.push(value_or_unset(roots, *n as usize))?;
        out.push(value_or_unset(left, 0))?;
        rest = more;
        left = skip(left, 1);
    }
    Ok(out)
}

/// The keywords of a builtin: names and values by turns.
#[tactic(auto, using(py_data::proofs::Rows::row_steps, py_data::proofs::Steps::call_steps), unfolding(py_frames::specs::CallRows::keys_row))]
fn keys_row<S, V: View<S>>(
    alloc: Global,
    v: &mut V,
    roots: Addr,
    names: &[u32],
    values: &[Value],
) -> Result<Values, Stop>
    requires live { IsLive V.sense v.old }
    requires safe { Safe V.sense.partial (call_rows.keys_row {S = S} roots.0 names.now values.now)
        (V.sense.heap v.old) }
    ensures { Meets V.sense (call_rows.keys_row roots.0 names.now values.now) v.old v.new result }
{
    match names {
        [] => Ok(Values::new(alloc)),
        _ => {
            let rs = values_row(alloc, v, roots)?;
            Ok(key_pairs(alloc, rs.as_slice(), names, values)?)
        }
    }
}

/// The call of a builtin, with its own object or Unset.
#[tactic(auto, using(py_data::proofs::Rows::row_steps, py_data::proofs::Steps::call_steps), unfolding(py_frames::specs::CallRows::builtin_call))]
fn builtin_call<V: View<ThreadState>>(
    alloc: Global,
    v: &mut V,
    s: &Site<'_>,
    own: Value,
    g: &Given<'_>,
    b: u8,
) -> Result<Next, Stop>
    requires live { IsLive V.sense v.old }
    requires safe { Safe V.sense.partial (call_rows.builtin_call s.now own g.now b) (V.sense.heap v.old) }
    ensures { Meets V.sense (call_rows.builtin_call s.now own g.now b) v.old v.new result }
{
    let keys = keys_row(alloc, v, s.roots, g.names, g.values)?;
    keyed_call(alloc, v, s, b, own, g.args, keys.as_slice())
}

/// The call of the Function at an address, where one argument more stands before all others.
#[tactic(auto, using(py_data::proofs::Rows::row_steps))]
fn function_first<S, V: View<S>>(
    alloc: Global,
    v: &mut V,
    s: &Site<'_>,
    own: Value,
    g: &Given<'_>,
    f: Addr,
) -> Result<Next, Stop>
    requires live { IsLive V.sense v.old }
    requires safe { Safe V.sense.partial (call_rows.function_call {S = S} s.now (binding.with_first own g.now) f.0)
        (V.sense.heap v.old) }
    ensures { Meets V.sense (call_rows.function_call s.now (binding.with_first own g.now) f.0) v.old v.new result }
{
    passed_call(alloc, v, s, &Passed::new(&[own], g), f)
}

/// The call of what a Method binds to its own object.
#[tactic(auto, using(py_data::proofs::Rows::row_steps), unfolding(py_frames::specs::CallRows::owned_call))]
fn owned_call<V: View<ThreadState>>(
    alloc: Global,
    v: &mut V,
    s: &Site<'_>,
    f: Value,
    g: &Given<'_>,
    own: Value,
) -> Result<Next, Stop>
    requires live { IsLive V.sense v.old }
    requires safe { Safe V.sense.partial (call_rows.owned_call s.now f g.now own) (V.sense.heap v.old) }
    ensures { Meets V.sense (call_rows.owned_call s.now f g.now own) v.old v.new result }
{
    match f {
        Value::Builtin(b) => builtin_call(alloc, v, s, own, g, b),
        _ => function_first(alloc, v, s, own, g, place_in(f)),
    }
}

/// The call of a Method, with what it binds at hand.
#[tactic(auto, using(py_data::proofs::Rows::row_steps, py_data::proofs::Steps::call_steps), unfolding(py_frames::specs::CallRows::method_of))]
fn method_of<V: View<ThreadState>>(
    alloc: Global,
    v: &mut V,
    s: &Site<'_>,
    a: Addr,
    g: &Given<'_>,
    f: Value,
) -> Result<Next, Stop>
    requires live { IsLive V.sense v.old }
    requires safe { Safe V.sense.partial (call_rows.method_of s.now a.0 g.now f) (V.sense.heap v.old) }
    ensures { Meets V.sense (call_rows.method_of s.now a.0 g.now f) v.old v.new result }
{
    let own = look(v, a, 1)?;
    owned_call(alloc, v, s, f, g, own)
}

/// The call of the Method at an address.
#[tactic(auto, using(py_data::proofs::Rows::row_steps, py_data::proofs::Steps::call_steps), unfolding(py_frames::specs::CallRows::method_call))]
fn method_call<V: View<ThreadState>>(
    alloc: Global,
    v: &mut V,
    s: &Site<'_>,
    g: &Given<'_>,
    a: Addr,
) -> Result<Next, Stop>
    requires live { IsLive V.sense v.old }
    requires safe { Safe V.sense.partial (call_rows.method_call s.now g.now a.0) (V.sense.heap v.old) }
    ensures { Meets V.sense (call_rows.method_call s.now g.now a.0) v.old v.new result }
{
    let f = look(v, a, 0)?;
    method_of(alloc, v, s, a, g, f)
}

/// The call of a record of a kind. TypeError for one that can't be called.
#[tactic(auto, using(py_data::proofs::Rows::row_steps), unfolding(py_frames::specs::CallRows::record_call))]
pub fn record_call<V: View<ThreadState>>(
    alloc: Global,
    v: &mut V,
    s: &Site<'_>,
    g: &Given<'_>,
    a: Addr,
    kind: Kind,
) -> Result<Next, Stop>
    requires live { IsLive V.sense v.old }
    requires safe { Safe V.sense.partial (call_rows.record_call s.now g.now a.0 kind) (V.sense.heap v.old) }
    ensures { Meets V.sense (call_rows.record_call s.now g.now a.0 kind) v.old v.new result }
{
    match kind {
        Kind::Function => function_call(alloc, v, s, g, a),
        Kind::Method => method_call(alloc, v, s, g, a),
        Kind::Class => class_call(alloc, v, s, g, a),
        _ => raise_text(alloc, v, s.roots, TYPE_ERROR, b"not callable"),
    }
}

/// The call of a value, where an object may stand in front: it is a builtin's own object, and the first argument of
/// all else. `g` is what the call gives, and `all` the same with the object in front. TypeError for a value that can't
/// be called.
#[tactic(auto, using(py_data::proofs::Rows::row_steps, py_data::proofs::Steps::call_steps), unfolding(py_frames::specs::CallRows::value_call))]
pub fn value_call<V: View<ThreadState>>(
    alloc: Global,
    v: &mut V,
    s: &Site<'_>,
    own: Value,
    g: &Given<'_>,
    all: &Given<'_>,
    f: Value,
) -> Result<Next, Stop>
    requires live { IsLive V.sense v.old }
    requires all { all.now ≡ binding.with_own own g.now }
    requires safe { Safe V.sense.partial (call_rows.value_call s.now own g.now f) (V.sense.heap v.old) }
    ensures { Meets V.sense (call_rows.value_call s.now own g.now f) v.old v.new result }
{
    match f {
        Value::Ref(a) => {
            let kind = kind(v, a)?;
            record_call(alloc, v, s, all, a, kind)
        }
        Value::Builtin(b) => builtin_call(alloc, v, s, own, g, b),
        _ => raise_text(alloc, v, s.roots, TYPE_ERROR, b"not callable"),
    }
}
