//! MAKE_RAISED: what `raise` raises.
ghost use Rattle.py_data.specs.declared.value.Value.TheVariants.{Ref};
ghost use Rattle.std.specs.Prelude.{[]};
ghost use Rattle.py_data.specs.Sense.{Meets, Safe, IsLive};
ghost use Rattle.py_frames.specs.Binding.{plainly};
ghost use Rattle.py_frames.specs.ClassCalls.{class_call};
ghost use Rattle.py_frames.specs.RaiseRows.{alone_by, call_if, called_with, class_raised, class_valued, class_with, class_with_if, instance_valued, made_alone, made_valued, same_or_called, valued_by};

use crate::raises::{is_instance_row, raised_args};
use py_calls::{class_call, exception_class_row};
use py_data::{Addr, Kind, Stop, Value, View, kind};
use py_frames::Next;
use py_parts::{Given, Site, push, raise_row, raised_fault};
use std::alloc::Global;

/// The call of a class without arguments.
#[tactic(auto, using(py_data::proofs::Rows::row_steps, py_data::proofs::Steps::call_steps), unfolding(py_frames::specs::RaiseRows::call_if))]
fn class_alone<S, V: View<S>>(alloc: Global, v: &mut V, s: &Site<'_>, c: Addr) -> Result<Next, Stop>
    requires live { IsLive V.sense v.old }
    requires safe { Safe V.sense.partial (class_call {S = S} s.now (plainly []) c.0) (V.sense.heap v.old) }
    ensures { Meets V.sense (class_call s.now (plainly []) c.0) v.old v.new result }
{
    let given = Given {
        args: &[],
        names: &[],
        values: &[],
    };
    class_call(alloc, v, s, &given, c)
}

/// The same, if the class is an exception class.
#[tactic(auto, using(py_data::proofs::Rows::row_steps), unfolding(py_frames::specs::RaiseRows::call_if))]
fn call_if<S, V: View<S>>(
    alloc: Global,
    v: &mut V,
    s: &Site<'_>,
    c: Addr,
    exception: bool,
) -> Result<Next, Stop>
    requires live { IsLive V.sense v.old }
    requires safe { Safe V.sense.partial (call_if {S = S} s.now c.0 exception) (V.sense.heap v.old) }
    ensures { Meets V.sense (call_if s.now c.0 exception) v.old v.new result }
{
    if exception {
        class_alone(alloc, v, s, c)
    } else {
        raise_row(alloc, v, s.roots, &raised_fault(alloc)?)
    }
}

/// MAKE_RAISED of a class without a value.
#[tactic(auto, using(py_data::proofs::Rows::row_steps, py_data::proofs::Steps::call_steps), unfolding(py_frames::specs::RaiseRows::class_raised))]
fn class_raised<S, V: View<S>>(
    alloc: Global,
    v: &mut V,
    s: &Site<'_>,
    c: Addr,
) -> Result<Next, Stop>
    requires live { IsLive V.sense v.old }
    requires safe { Safe V.sense.partial (class_raised {S = S} s.now c.0) (V.sense.heap v.old) }
    ensures { Meets V.sense (class_raised s.now c.0) v.old v.new result }
{
    let b = exception_class_row(v, s.roots, c)?;
    call_if(alloc, v, s, c, b)
}

/// MAKE_RAISED of a record of a kind without a value.
#[tactic(auto, using(py_data::proofs::Rows::row_steps), unfolding(py_frames::specs::RaiseRows::alone_by))]
fn alone_by<S, V: View<S>>(
    alloc: Global,
    v: &mut V,
    s: &Site<'_>,
    a: Addr,
    kind: Kind,
) -> Result<Next, Stop>
    requires live { IsLive V.sense v.old }
    requires safe { Safe V.sense.partial (alone_by {S = S} s.now a.0 kind) (V.sense.heap v.old) }
    ensures { Meets V.sense (alone_by s.now a.0 kind) v.old v.new result }
{
    match kind {
        Kind::Class => class_raised(alloc, v, s, a),
        Kind::Instance => Ok(push(Value::Ref(a))),
        _ => raise_row(alloc, v, s.roots, &raised_fault(alloc)?),
    }
}

/// MAKE_RAISED of a record without a value.
#[tactic(auto, using(py_data::proofs::Rows::row_steps, py_data::proofs::Steps::call_steps), unfolding(py_frames::specs::RaiseRows::made_alone))]
fn alone_at<S, V: View<S>>(alloc: Global, v: &mut V, s: &Site<'_>, a: Addr) -> Result<Next, Stop>
    requires live { IsLive V.sense v.old }
    requires safe { Safe V.sense.partial (made_alone {S = S} s.now (Ref a)) (V.sense.heap v.old) }
    ensures { Meets V.sense (made_alone s.now (Ref a)) v.old v.new result }
{
    let kind = kind(v, a)?;
    alone_by(alloc, v, s, a, kind)
}

/// MAKE_RAISED without a value.
#[tactic(auto, using(py_data::proofs::Rows::row_steps), unfolding(py_frames::specs::RaiseRows::made_alone))]
pub fn made_alone<S, V: View<S>>(
    alloc: Global,
    v: &mut V,
    s: &Site<'_>,
    x: Value,
) -> Result<Next, Stop>
    requires live { IsLive V.sense v.old }
    requires safe { Safe V.sense.partial (made_alone {S = S} s.now x) (V.sense.heap v.old) }
    ensures { Meets V.sense (made_alone s.now x) v.old v.new result }
{
    match x {
        Value::Ref(a) => alone_at(alloc, v, s, a),
        _ => raise_row(alloc, v, s.roots, &raised_fault(alloc)?),
    }
}

/// The call of a class with these arguments.
#[tactic(auto, using(py_data::proofs::Rows::row_steps, py_data::proofs::Steps::call_steps), unfolding(py_frames::specs::RaiseRows::called_with))]
fn class_of_args<S, V: View<S>>(
    alloc: Global,
    v: &mut V,
    s: &Site<'_>,
    c: Addr,
    args: &[Value],
) -> Result<Next, Stop>
    requires live { IsLive V.sense v.old }
    requires safe { Safe V.sense.partial (class_call {S = S} s.now (plainly args.now) c.0) (V.sense.heap v.old) }
    ensures { Meets V.sense (class_call s.now (plainly args.now) c.0) v.old v.new result }
{
    let given = Given {
        args,
        names: &[],
        values: &[],
    };
    class_call(alloc, v, s, &given, c)
}

/// The call of a class with what a value gives.
#[tactic(auto, using(py_data::proofs::Rows::row_steps, py_data::proofs::Steps::call_steps), unfolding(py_frames::specs::RaiseRows::called_with))]
fn called_with<S, V: View<S>>(
    alloc: Global,
    v: &mut V,
    s: &Site<'_>,
    c: Addr,
    x: Value,
) -> Result<Next, Stop>
    requires live { IsLive V.sense v.old }
    requires safe { Safe V.sense.partial (called_with {S = S} s.now c.0 x) (V.sense.heap v.old) }
    ensures { Meets V.sense (called_with s.now c.0 x) v.old v.new result }
{
    let args = raised_args(alloc, v, x)?;
    class_of_args(alloc, v, s, c, args.as_slice())
}

/// The value itself, or the call of a class with it.
#[tactic(auto, using(py_data::proofs::Rows::row_steps), unfolding(py_frames::specs::RaiseRows::same_or_called))]
fn same_or_called<S, V: View<S>>(
    alloc: Global,
    v: &mut V,
    s: &Site<'_>,
    c: Addr,
    x: Value,
    same: bool,
) -> Result<Next, Stop>
    requires live { IsLive V.sense v.old }
    requires safe { Safe V.sense.partial (same_or_called {S = S} s.now c.0 x same) (V.sense.heap v.old) }
    ensures { Meets V.sense (same_or_called s.now c.0 x same) v.old v.new result }
{
    if same {
        Ok(push(x))
    } else {
        called_with(alloc, v, s, c, x)
    }
}

/// MAKE_RAISED of an exception class with a value.
#[tactic(auto, using(py_data::proofs::Rows::row_steps, py_data::proofs::Steps::call_steps), unfolding(py_frames::specs::RaiseRows::class_with))]
fn class_with<S, V: View<S>>(
    alloc: Global,
    v: &mut V,
    s: &Site<'_>,
    c: Addr,
    x: Value,
) -> Result<Next, Stop>
    requires live { IsLive V.sense v.old }
    requires safe { Safe V.sense.partial (class_with {S = S} s.now c.0 x) (V.sense.heap v.old) }
    ensures { Meets V.sense (class_with s.now c.0 x) v.old v.new result }
{
    let b = is_instance_row(v, c, x)?;
    same_or_called(alloc, v, s, c, x, b)
}

/// The same, if the class is an exception class.
#[tactic(auto, using(py_data::proofs::Rows::row_steps), unfolding(py_frames::specs::RaiseRows::class_with_if))]
fn class_with_if<S, V: View<S>>(
    alloc: Global,
    v: &mut V,
    s: &Site<'_>,
    c: Addr,
    x: Value,
    exception: bool,
) -> Result<Next, Stop>
    requires live { IsLive V.sense v.old }
    requires safe { Safe V.sense.partial (class_with_if {S = S} s.now c.0 x exception) (V.sense.heap v.old) }
    ensures { Meets V.sense (class_with_if s.now c.0 x exception) v.old v.new result }
{
    if exception {
        class_with(alloc, v, s, c, x)
    } else {
        raise_row(alloc, v, s.roots, &raised_fault(alloc)?)
    }
}

/// MAKE_RAISED of a class with a value.
#[tactic(auto, using(py_data::proofs::Rows::row_steps, py_data::proofs::Steps::call_steps), unfolding(py_frames::specs::RaiseRows::class_valued))]
fn class_valued<S, V: View<S>>(
    alloc: Global,
    v: &mut V,
    s: &Site<'_>,
    c: Addr,
    x: Value,
) -> Result<Next, Stop>
    requires live { IsLive V.sense v.old }
    requires safe { Safe V.sense.partial (class_valued {S = S} s.now c.0 x) (V.sense.heap v.old) }
    ensures { Meets V.sense (class_valued s.now c.0 x) v.old v.new result }
{
    let b = exception_class_row(v, s.roots, c)?;
    class_with_if(alloc, v, s, c, x, b)
}

/// MAKE_RAISED of an instance with a value, which must be None.
#[tactic(auto, using(py_data::proofs::Rows::row_steps), unfolding(py_frames::specs::RaiseRows::instance_valued))]
fn instance_valued<S, V: View<S>>(
    alloc: Global,
    v: &mut V,
    s: &Site<'_>,
    a: Addr,
    x: Value,
) -> Result<Next, Stop>
    requires live { IsLive V.sense v.old }
    requires safe { Safe V.sense.partial (instance_valued {S = S} s.now a.0 x) (V.sense.heap v.old) }
    ensures { Meets V.sense (instance_valued s.now a.0 x) v.old v.new result }
{
    match x {
        Value::None => Ok(push(Value::Ref(a))),
        _ => raise_row(alloc, v, s.roots, &raised_fault(alloc)?),
    }
}

/// MAKE_RAISED of a record of a kind with a value.
#[tactic(auto, using(py_data::proofs::Rows::row_steps), unfolding(py_frames::specs::RaiseRows::valued_by))]
fn valued_by<S, V: View<S>>(
    alloc: Global,
    v: &mut V,
    s: &Site<'_>,
    a: Addr,
    x: Value,
    kind: Kind,
) -> Result<Next, Stop>
    requires live { IsLive V.sense v.old }
    requires safe { Safe V.sense.partial (valued_by {S = S} s.now a.0 x kind) (V.sense.heap v.old) }
    ensures { Meets V.sense (valued_by s.now a.0 x kind) v.old v.new result }
{
    match kind {
        Kind::Class => class_valued(alloc, v, s, a, x),
        Kind::Instance => instance_valued(alloc, v, s, a, x),
        _ => raise_row(alloc, v, s.roots, &raised_fault(alloc)?),
    }
}

/// MAKE_RAISED of a record with a value.
#[tactic(auto, using(py_data::proofs::Rows::row_steps, py_data::proofs::Steps::call_steps), unfolding(py_frames::specs::RaiseRows::made_valued))]
fn valued_at<S, V: View<S>>(
    alloc: Global,
    v: &mut V,
    s: &Site<'_>,
    a: Addr,
    x: Value,
) -> Result<Next, Stop>
    requires live { IsLive V.sense v.old }
    requires safe { Safe V.sense.partial (made_valued {S = S} s.now (Ref a) x) (V.sense.heap v.old) }
    ensures { Meets V.sense (made_valued s.now (Ref a) x) v.old v.new result }
{
    let kind = kind(v, a)?;
    valued_by(alloc, v, s, a, x, kind)
}

/// MAKE_RAISED of `x` with the value `y`.
#[tactic(auto, using(py_data::proofs::Rows::row_steps), unfolding(py_frames::specs::RaiseRows::made_valued))]
pub fn made_valued<S, V: View<S>>(
    alloc: Global,
    v: &mut V,
    s: &Site<'_>,
    x: Value,
    y: Value,
) -> Result<Next, Stop>
    requires live { IsLive V.sense v.old }
    requires safe { Safe V.sense.partial (made_valued {S = S} s.now x y) (V.sense.heap v.old) }
    ensures { Meets V.sense (made_valued s.now x y) v.old v.new result }
{
    match x {
        Value::Ref(a) => valued_at(alloc, v, s, a, y),
        _ => raise_row(alloc, v, s.roots, &raised_fault(alloc)?),
    }
}
