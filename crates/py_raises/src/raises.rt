//! The instructions that raise exceptions and match them.
ghost use Rattle.py_data.specs.declared.value.Value.TheVariants.{Ref};
ghost use Rattle.py_data.specs.Sense.{Meets, Safe, IsLive};
ghost use Rattle.py_frames.specs.ClassCalls.{exception_class_row};
ghost use Rattle.py_frames.specs.RaiseRows.{below_row, catches_if, catches_row, class_catches, class_match, exc_match_row, instance_by, is_instance_row, item_by, item_catches, items_by, match_by, place_catches, raise_by, raise_if, raise_instance, raise_of, raise_value, raised_args, record_catches, some_catches, told_match, tuple_catches};

use obj_class::{is_sub, one};
use py_calls::exception_class_row;
use py_data::exception::BASE_EXCEPTION;
use py_data::{Addr, Kind, Stop, Value, Values, View, kind, look, size};
use py_frames::Next;
use py_parts::{operand_fault, place_in, push, raise_row, raised_fault, values_row};
use std::alloc::Global;

/// Whether a class catches an exception, if it is an exception class.
#[tactic(auto, using(py_data::proofs::Rows::row_steps), unfolding(py_frames::specs::RaiseRows::catches_if))]
fn catches_if<S, V: View<S>>(v: &mut V, e: Addr, c: Addr, exception: bool) -> Result<bool, Stop>
    requires live { IsLive V.sense v.old }
    requires safe { Safe V.sense.partial (catches_if {S = S} e.0 c.0 exception) (V.sense.heap v.old) }
    ensures { Meets V.sense (catches_if e.0 c.0 exception) v.old v.new result }
{
    if exception {
        is_sub(v, e, c)
    } else {
        Ok(false)
    }
}

/// Whether a class catches an exception of the class `e`.
#[tactic(auto, using(py_data::proofs::Rows::row_steps, py_data::proofs::Steps::call_steps), unfolding(py_frames::specs::RaiseRows::class_catches))]
fn class_catches<S, V: View<S>>(v: &mut V, roots: Addr, e: Addr, c: Addr) -> Result<bool, Stop>
    requires live { IsLive V.sense v.old }
    requires safe { Safe V.sense.partial (class_catches {S = S} roots.0 e.0 c.0) (V.sense.heap v.old) }
    ensures { Meets V.sense (class_catches roots.0 e.0 c.0) v.old v.new result }
{
    let b = exception_class_row(v, roots, c)?;
    catches_if(v, e, c, b)
}

/// Whether an item of a tuple that is a record of a kind catches it.
#[tactic(auto, using(py_data::proofs::Rows::row_steps), unfolding(py_frames::specs::RaiseRows::item_by))]
fn item_by<S, V: View<S>>(
    v: &mut V,
    roots: Addr,
    e: Addr,
    c: Addr,
    kind: Kind,
) -> Result<bool, Stop>
    requires live { IsLive V.sense v.old }
    requires safe { Safe V.sense.partial (item_by {S = S} roots.0 e.0 c.0 kind) (V.sense.heap v.old) }
    ensures { Meets V.sense (item_by roots.0 e.0 c.0 kind) v.old v.new result }
{
    match kind {
        Kind::Class => class_catches(v, roots, e, c),
        _ => Ok(false),
    }
}

/// Whether an item of a tuple that is a record catches it.
#[tactic(auto, using(py_data::proofs::Rows::row_steps, py_data::proofs::Steps::call_steps), unfolding(py_frames::specs::RaiseRows::item_catches))]
fn item_at<S, V: View<S>>(v: &mut V, roots: Addr, e: Addr, c: Addr) -> Result<bool, Stop>
    requires live { IsLive V.sense v.old }
    requires safe { Safe V.sense.partial (item_catches {S = S} roots.0 e.0 (Ref c)) (V.sense.heap v.old) }
    ensures { Meets V.sense (item_catches roots.0 e.0 (Ref c)) v.old v.new result }
{
    let kind = kind(v, c)?;
    item_by(v, roots, e, c, kind)
}

/// Whether an item of a tuple catches it.
#[tactic(auto, using(py_data::proofs::Rows::row_steps), unfolding(py_frames::specs::RaiseRows::item_catches))]
fn item_catches<S, V: View<S>>(v: &mut V, roots: Addr, e: Addr, x: Value) -> Result<bool, Stop>
    requires live { IsLive V.sense v.old }
    requires safe { Safe V.sense.partial (item_catches {S = S} roots.0 e.0 x) (V.sense.heap v.old) }
    ensures { Meets V.sense (item_catches roots.0 e.0 x) v.old v.new result }
{
    match x {
        Value::Ref(c) => item_at(v, roots, e, c),
        _ => Ok(false),
    }
}

/// Whether the item at a place of a tuple catches it.
#[tactic(auto, using(py_data::proofs::Rows::row_steps, py_data::proofs::Steps::call_steps), unfolding(py_frames::specs::RaiseRows::place_catches))]
fn place_catches<S, V: View<S>>(
    v: &mut V,
    roots: Addr,
    e: Addr,
    t: Addr,
    i: usize,
) -> Result<bool, Stop>
    requires live { IsLive V.sense v.old }
    requires safe { Safe V.sense.partial (place_catches {S = S} roots.0 e.0 t.0 i) (V.sense.heap v.old) }
    ensures { Meets V.sense (place_catches roots.0 e.0 t.0 i) v.old v.new result }
{
    let x = look(v, t, i)?;
    item_catches(v, roots, e, x)
}

/// Whether one of the first `n` items of a tuple catches it.
#[tactic(auto, unfolding(py_frames::specs::RaiseRows::some_catches))]
fn some_catches<S, V: View<S>>(
    v: &mut V,
    roots: Addr,
    e: Addr,
    t: Addr,
    n: usize,
) -> Result<bool, Stop>
    requires live { IsLive V.sense v.old }
    requires safe { Safe V.sense.partial (some_catches {S = S} roots.0 e.0 t.0 n) (V.sense.heap v.old) }
    ensures { Meets V.sense (some_catches roots.0 e.0 t.0 n) v.old v.new result }
{
    'turns: for i in 0..n {
        let found = place_catches(v, roots, e, t, i)?;
        if found {
            return Ok(found);
        }
    }
    Ok(false)
}

/// Whether an item of a tuple catches it.
#[tactic(auto, using(py_data::proofs::Rows::row_steps, py_data::proofs::Steps::call_steps), unfolding(py_frames::specs::RaiseRows::tuple_catches))]
fn tuple_catches<S, V: View<S>>(v: &mut V, roots: Addr, e: Addr, t: Addr) -> Result<bool, Stop>
    requires live { IsLive V.sense v.old }
    requires safe { Safe V.sense.partial (tuple_catches {S = S} roots.0 e.0 t.0) (V.sense.heap v.old) }
    ensures { Meets V.sense (tuple_catches roots.0 e.0 t.0) v.old v.new result }
{
    let n = size(v, t)?;
    some_catches(v, roots, e, t, n)
}

/// Whether a record of a kind catches it.
#[tactic(auto, using(py_data::proofs::Rows::row_steps), unfolding(py_frames::specs::RaiseRows::record_catches))]
fn record_catches<S, V: View<S>>(
    v: &mut V,
    roots: Addr,
    e: Addr,
    c: Addr,
    kind: Kind,
) -> Result<bool, Stop>
    requires live { IsLive V.sense v.old }
    requires safe { Safe V.sense.partial (record_catches {S = S} roots.0 e.0 c.0 kind) (V.sense.heap v.old) }
    ensures { Meets V.sense (record_catches roots.0 e.0 c.0 kind) v.old v.new result }
{
    match kind {
        Kind::Class => class_catches(v, roots, e, c),
        Kind::Tuple => tuple_catches(v, roots, e, c),
        _ => Ok(false),
    }
}

/// Whether a record catches it.
#[tactic(auto, using(py_data::proofs::Rows::row_steps, py_data::proofs::Steps::call_steps), unfolding(py_frames::specs::RaiseRows::catches_row))]
fn catches_at<S, V: View<S>>(v: &mut V, roots: Addr, e: Addr, c: Addr) -> Result<bool, Stop>
    requires live { IsLive V.sense v.old }
    requires safe { Safe V.sense.partial (catches_row {S = S} roots.0 e.0 (Ref c)) (V.sense.heap v.old) }
    ensures { Meets V.sense (catches_row roots.0 e.0 (Ref c)) v.old v.new result }
{
    let kind = kind(v, c)?;
    record_catches(v, roots, e, c, kind)
}

/// Whether a value catches an exception of the class `e`: an exception class, or a tuple with one.
#[tactic(auto, using(py_data::proofs::Rows::row_steps), unfolding(py_frames::specs::RaiseRows::catches_row))]
fn catches_row<S, V: View<S>>(v: &mut V, roots: Addr, e: Addr, c: Value) -> Result<bool, Stop>
    requires live { IsLive V.sense v.old }
    requires safe { Safe V.sense.partial (catches_row {S = S} roots.0 e.0 c) (V.sense.heap v.old) }
    ensures { Meets V.sense (catches_row roots.0 e.0 c) v.old v.new result }
{
    match c {
        Value::Ref(a) => catches_at(v, roots, e, a),
        _ => Ok(false),
    }
}

/// Pushes whether a value catches an exception of the class `e`.
#[tactic(auto, using(py_data::proofs::Rows::row_steps, py_data::proofs::Steps::call_steps), unfolding(py_frames::specs::RaiseRows::told_match))]
fn told_match<S, V: View<S>>(v: &mut V, roots: Addr, c: Value, e: Addr) -> Result<Next, Stop>
    requires live { IsLive V.sense v.old }
    requires safe { Safe V.sense.partial (told_match {S = S} roots.0 c e.0) (V.sense.heap v.old) }
    ensures { Meets V.sense (told_match roots.0 c e.0) v.old v.new result }
{
    let b = catches_row(v, roots, e, c)?;
    Ok(push(Value::Bool(b)))
}

/// The same for the class of an instance.
#[tactic(auto, using(py_data::proofs::Rows::row_steps, py_data::proofs::Steps::call_steps), unfolding(py_frames::specs::RaiseRows::class_match))]
fn class_match<S, V: View<S>>(v: &mut V, roots: Addr, c: Value, a: Addr) -> Result<Next, Stop>
    requires live { IsLive V.sense v.old }
    requires safe { Safe V.sense.partial (class_match {S = S} roots.0 c a.0) (V.sense.heap v.old) }
    ensures { Meets V.sense (class_match roots.0 c a.0) v.old v.new result }
{
    let e = look(v, a, 0)?;
    told_match(v, roots, c, place_in(e))
}

/// EXC_MATCH for a record of a kind.
#[tactic(auto, using(py_data::proofs::Rows::row_steps), unfolding(py_frames::specs::RaiseRows::match_by))]
fn match_by<S, V: View<S>>(
    alloc: Global,
    v: &mut V,
    roots: Addr,
    c: Value,
    a: Addr,
    kind: Kind,
) -> Result<Next, Stop>
    requires live { IsLive V.sense v.old }
    requires safe { Safe V.sense.partial (match_by {S = S} roots.0 c a.0 kind) (V.sense.heap v.old) }
    ensures { Meets V.sense (match_by roots.0 c a.0 kind) v.old v.new result }
{
    match kind {
        Kind::Instance => class_match(v, roots, c, a),
        _ => raise_row(alloc, v, roots, &operand_fault(alloc)?),
    }
}

/// EXC_MATCH for a record.
#[tactic(auto, using(py_data::proofs::Rows::row_steps, py_data::proofs::Steps::call_steps), unfolding(py_frames::specs::RaiseRows::exc_match_row))]
fn match_at<S, V: View<S>>(
    alloc: Global,
    v: &mut V,
    roots: Addr,
    a: Addr,
    c: Value,
) -> Result<Next, Stop>
    requires live { IsLive V.sense v.old }
    requires safe { Safe V.sense.partial (exc_match_row {S = S} roots.0 (Ref a) c) (V.sense.heap v.old) }
    ensures { Meets V.sense (exc_match_row roots.0 (Ref a) c) v.old v.new result }
{
    let kind = kind(v, a)?;
    match_by(alloc, v, roots, c, a, kind)
}

/// EXC_MATCH: whether the class `c`, or one of the tuple `c`, catches the exception `x`.
#[tactic(auto, using(py_data::proofs::Rows::row_steps), unfolding(py_frames::specs::RaiseRows::exc_match_row))]
pub fn exc_match_row<S, V: View<S>>(
    alloc: Global,
    v: &mut V,
    roots: Addr,
    x: Value,
    c: Value,
) -> Result<Next, Stop>
    requires live { IsLive V.sense v.old }
    requires safe { Safe V.sense.partial (exc_match_row {S = S} roots.0 x c) (V.sense.heap v.old) }
    ensures { Meets V.sense (exc_match_row roots.0 x c) v.old v.new result }
{
    match x {
        Value::Ref(a) => match_at(alloc, v, roots, a, c),
        _ => raise_row(alloc, v, roots, &operand_fault(alloc)?),
    }
}

/// RAISE of an instance, if its class is an exception class.
#[tactic(auto, using(py_data::proofs::Rows::row_steps), unfolding(py_frames::specs::RaiseRows::raise_if))]
fn raise_if<S, V: View<S>>(
    alloc: Global,
    v: &mut V,
    roots: Addr,
    x: Value,
    exception: bool,
) -> Result<Next, Stop>
    requires live { IsLive V.sense v.old }
    requires safe { Safe V.sense.partial (raise_if {S = S} roots.0 x exception) (V.sense.heap v.old) }
    ensures { Meets V.sense (raise_if roots.0 x exception) v.old v.new result }
{
    if exception {
        Ok(Next::Throws(x))
    } else {
        raise_row(alloc, v, roots, &raised_fault(alloc)?)
    }
}

/// RAISE of an instance of a class.
#[tactic(auto, using(py_data::proofs::Rows::row_steps, py_data::proofs::Steps::call_steps), unfolding(py_frames::specs::RaiseRows::raise_of))]
fn raise_of<S, V: View<S>>(
    alloc: Global,
    v: &mut V,
    roots: Addr,
    x: Value,
    c: Addr,
) -> Result<Next, Stop>
    requires live { IsLive V.sense v.old }
    requires safe { Safe V.sense.partial (raise_of {S = S} roots.0 x c.0) (V.sense.heap v.old) }
    ensures { Meets V.sense (raise_of roots.0 x c.0) v.old v.new result }
{
    let b = exception_class_row(v, roots, c)?;
    raise_if(alloc, v, roots, x, b)
}

/// RAISE of an instance.
#[tactic(auto, using(py_data::proofs::Rows::row_steps, py_data::proofs::Steps::call_steps), unfolding(py_frames::specs::RaiseRows::raise_instance))]
fn raise_instance<S, V: View<S>>(
    alloc: Global,
    v: &mut V,
    roots: Addr,
    a: Addr,
) -> Result<Next, Stop>
    requires live { IsLive V.sense v.old }
    requires safe { Safe V.sense.partial (raise_instance {S = S} roots.0 a.0) (V.sense.heap v.old) }
    ensures { Meets V.sense (raise_instance roots.0 a.0) v.old v.new result }
{
    let c = look(v, a, 0)?;
    raise_of(alloc, v, roots, Value::Ref(a), place_in(c))
}

/// RAISE of a record of a kind.
#[tactic(auto, using(py_data::proofs::Rows::row_steps), unfolding(py_frames::specs::RaiseRows::raise_by))]
fn raise_by<S, V: View<S>>(
    alloc: Global,
    v: &mut V,
    roots: Addr,
    a: Addr,
    kind: Kind,
) -> Result<Next, Stop>
    requires live { IsLive V.sense v.old }
    requires safe { Safe V.sense.partial (raise_by {S = S} roots.0 a.0 kind) (V.sense.heap v.old) }
    ensures { Meets V.sense (raise_by roots.0 a.0 kind) v.old v.new result }
{
    match kind {
        Kind::Instance => raise_instance(alloc, v, roots, a),
        _ => raise_row(alloc, v, roots, &raised_fault(alloc)?),
    }
}

/// RAISE of a record.
#[tactic(auto, using(py_data::proofs::Rows::row_steps, py_data::proofs::Steps::call_steps), unfolding(py_frames::specs::RaiseRows::raise_value))]
fn raise_at<S, V: View<S>>(alloc: Global, v: &mut V, roots: Addr, a: Addr) -> Result<Next, Stop>
    requires live { IsLive V.sense v.old }
    requires safe { Safe V.sense.partial (raise_value {S = S} roots.0 (Ref a)) (V.sense.heap v.old) }
    ensures { Meets V.sense (raise_value roots.0 (Ref a)) v.old v.new result }
{
    let kind = kind(v, a)?;
    raise_by(alloc, v, roots, a, kind)
}

/// RAISE.
#[tactic(auto, using(py_data::proofs::Rows::row_steps), unfolding(py_frames::specs::RaiseRows::raise_value))]
pub fn raise_value<S, V: View<S>>(
    alloc: Global,
    v: &mut V,
    roots: Addr,
    x: Value,
) -> Result<Next, Stop>
    requires live { IsLive V.sense v.old }
    requires safe { Safe V.sense.partial (raise_value {S = S} roots.0 x) (V.sense.heap v.old) }
    ensures { Meets V.sense (raise_value roots.0 x) v.old v.new result }
{
    match x {
        Value::Ref(a) => raise_at(alloc, v, roots, a),
        _ => raise_row(alloc, v, roots, &raised_fault(alloc)?),
    }
}

/// Whether an instance is one of the class `e` or of one below it.
#[tactic(auto, using(py_data::proofs::Rows::row_steps, py_data::proofs::Steps::call_steps), unfolding(py_frames::specs::RaiseRows::below_row))]
fn below_row<S, V: View<S>>(v: &mut V, e: Addr, a: Addr) -> Result<bool, Stop>
    requires live { IsLive V.sense v.old }
    requires safe { Safe V.sense.partial (below_row {S = S} e.0 a.0) (V.sense.heap v.old) }
    ensures { Meets V.sense (below_row e.0 a.0) v.old v.new result }
{
    let c = look(v, a, 0)?;
    is_sub(v, place_in(c), e)
}

/// The same of a record of a kind.
#[tactic(auto, using(py_data::proofs::Rows::row_steps), unfolding(py_frames::specs::RaiseRows::instance_by))]
fn instance_by<S, V: View<S>>(v: &mut V, e: Addr, a: Addr, kind: Kind) -> Result<bool, Stop>
    requires live { IsLive V.sense v.old }
    requires safe { Safe V.sense.partial (instance_by {S = S} e.0 a.0 kind) (V.sense.heap v.old) }
    ensures { Meets V.sense (instance_by e.0 a.0 kind) v.old v.new result }
{
    match kind {
        Kind::Instance => below_row(v, e, a),
        _ => Ok(false),
    }
}

/// The same of a record.
#[tactic(auto, using(py_data::proofs::Rows::row_steps, py_data::proofs::Steps::call_steps), unfolding(py_frames::specs::RaiseRows::is_instance_row))]
fn is_instance_at<S, V: View<S>>(v: &mut V, e: Addr, a: Addr) -> Result<bool, Stop>
    requires live { IsLive V.sense v.old }
    requires safe { Safe V.sense.partial (is_instance_row {S = S} e.0 (Ref a)) (V.sense.heap v.old) }
    ensures { Meets V.sense (is_instance_row e.0 (Ref a)) v.old v.new result }
{
    let kind = kind(v, a)?;
    instance_by(v, e, a, kind)
}

/// Whether a value is an instance of the class `e` or of one below it.
#[tactic(auto, using(py_data::proofs::Rows::row_steps), unfolding(py_frames::specs::RaiseRows::is_instance_row))]
pub fn is_instance_row<S, V: View<S>>(v: &mut V, e: Addr, x: Value) -> Result<bool, Stop>
    requires live { IsLive V.sense v.old }
    requires safe { Safe V.sense.partial (is_instance_row {S = S} e.0 x) (V.sense.heap v.old) }
    ensures { Meets V.sense (is_instance_row e.0 x) v.old v.new result }
{
    match x {
        Value::Ref(a) => is_instance_at(v, e, a),
        _ => Ok(false),
    }
}

/// What a class is called with for a record of a kind: the items of a tuple, or the record.
#[tactic(auto, using(py_data::proofs::Rows::row_steps), unfolding(py_frames::specs::RaiseRows::items_by))]
fn items_by<S, V: View<S>>(alloc: Global, v: &mut V, a: Addr, kind: Kind) -> Result<Values, Stop>
    requires live { IsLive V.sense v.old }
    requires safe { Safe V.sense.partial (items_by {S = S} a.0 kind) (V.sense.heap v.old) }
    ensures { Meets V.sense (items_by a.0 kind) v.old v.new result }
{
    match kind {
        Kind::Tuple => values_row(alloc, v, a),
        _ => Ok(one(alloc, Value::Ref(a))?),
    }
}

/// The same for a record.
#[tactic(auto, using(py_data::proofs::Rows::row_steps, py_data::proofs::Steps::call_steps), unfolding(py_frames::specs::RaiseRows::raised_args))]
fn raised_at<S, V: View<S>>(alloc: Global, v: &mut V, a: Addr) -> Result<Values, Stop>
    requires live { IsLive V.sense v.old }
    requires safe { Safe V.sense.partial (raised_args {S = S} (Ref a)) (V.sense.heap v.old) }
    ensures { Meets V.sense (raised_args (Ref a)) v.old v.new result }
{
    let kind = kind(v, a)?;
    items_by(alloc, v, a, kind)
}

/// What a class is called with for a value: nothing for None, a tuple's items, or the value.
#[tactic(auto, using(py_data::proofs::Rows::row_steps), unfolding(py_frames::specs::RaiseRows::raised_args))]
pub fn raised_args<S, V: View<S>>(alloc: Global, v: &mut V, x: Value) -> Result<Values, Stop>
    requires live { IsLive V.sense v.old }
    requires safe { Safe V.sense.partial (raised_args {S = S} x) (V.sense.heap v.old) }
    ensures { Meets V.sense (raised_args x) v.old v.new result }
{
    match x {
        Value::None => Ok(Values::new(alloc)),
        Value::Ref(a) => raised_at(alloc, v, a),
        _ => Ok(one(alloc, x)?),
    }
}
