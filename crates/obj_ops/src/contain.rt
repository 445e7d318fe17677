//! Whether a value is in another.
ghost use Rattle.std.specs.Prelude.{◌≡◌, is_some};
ghost use Rattle.py_data.specs.declared.record.Got.TheVariants.{Is};
ghost use Rattle.py_data.specs.Sense.{Meets, Safe, IsLive};
ghost use Rattle.obj_ops.specs.Contains.{container_of, container_row, item_row, goes_on, items_row, part_row, text_in_row, is_between, is_among, is_key_there, contained_row, contains_row};

use crate::operand::{Operand, operand_at};
use crate::sequence::values_of;
use obj_dict::get;
use obj_nest::{equal, number_of};
use obj_str::{bytes_of, find};
use py_data::exception::{TYPE_ERROR, raise};
use py_data::{Addr, Got, Kind, Stop, Value, View, look, size};
use std::alloc::Global;

/// What can be looked into.
#[derive(Clone, Copy, Debug, Drop, PartialEq, Eq)]
pub enum Container {
    /// The list or tuple at that address.
    Items(Addr),
    /// The dictionary.
    Pairs(Addr),
    /// The string.
    Bytes(Addr),
    /// The range.
    Numbers(Addr),
    Nothing,
}

/// What a record is to `in`.
fn container_of(kind: Kind, a: Addr) -> Container
    ensures { result ≡ container_of kind a }
{
    match kind {
        Kind::Str => Container::Bytes(a),
        Kind::Tuple => Container::Items(a),
        Kind::List => Container::Items(a),
        Kind::Dict => Container::Pairs(a),
        Kind::Range => Container::Numbers(a),
        _ => Container::Nothing,
    }
}

/// What a value is to `in`.
#[tactic(auto, using(py_data::proofs::Rows::row_steps), unfolding(crate::specs::Contains::container_row))]
fn container_at<S, V: View<S>>(v: &mut V, y: Value) -> Result<Container, Stop>
    requires live { IsLive V.sense v.old }
    requires safe { Safe V.sense.partial (container_row {S = S} y) (V.sense.heap v.old) }
    ensures { Meets V.sense (container_row y) v.old v.new result }
{
    match y {
        Value::Ref(a) => Ok(container_of(v.kind(a)?, a)),
        _ => Ok(Container::Nothing),
    }
}

/// Whether a value equals the item at a place.
#[tactic(auto, using(py_data::proofs::Rows::row_steps, py_data::proofs::Steps::call_steps), unfolding(crate::specs::Contains::item_row))]
fn equals_item<S, V: View<S>>(
    alloc: Global,
    v: &mut V,
    x: Value,
    a: Addr,
    i: usize,
) -> Result<Got<bool>, Stop>
    requires live { IsLive V.sense v.old }
    requires safe { Safe V.sense.partial (item_row {S = S} x a.0 i) (V.sense.heap v.old) }
    ensures { Meets V.sense (item_row x a.0 i) v.old v.new result }
{
    let y = look(v, a, i)?;
    equal(alloc, v, x, y)
}

/// Whether the search goes on behind an item.
fn goes_on(found: &Got<bool>) -> bool
    ensures { result ≡ goes_on found.now }
{
    matches!(found, Got::Is(false))
}

/// Whether a value equals one of the first `n` items of a record.
fn is_item<S, V: View<S>>(
    alloc: Global,
    v: &mut V,
    x: Value,
    a: Addr,
    n: usize,
) -> Result<Got<bool>, Stop>
    requires live { IsLive V.sense v.old }
    requires safe { Safe V.sense.partial (items_row {S = S} x a.0 n) (V.sense.heap v.old) }
    ensures { Meets V.sense (items_row x a.0 n) v.old v.new result }
{
    'turns: for i in 0..n {
        let found = equals_item(alloc, v, x, a, i)?;
        if !goes_on(&found) {
            return Ok(found);
        }
    }
    Ok(Got::Is(false))
}

/// Whether bytes stand within a string.
#[tactic(auto, using(py_data::proofs::Rows::row_steps, py_data::proofs::Steps::call_steps), unfolding(crate::specs::Contains::part_row))]
fn has_part<S, V: View<S>>(
    alloc: Global,
    v: &mut V,
    a: Addr,
    part: &[u8],
) -> Result<Got<bool>, Stop>
    requires live { IsLive V.sense v.old }
    requires safe { Safe V.sense.partial (part_row {S = S} a.0 part.now) (V.sense.heap v.old) }
    ensures { Meets V.sense (part_row a.0 part.now) v.old v.new result }
{
    let bytes = bytes_of(alloc, v, a)?;
    let place = find(bytes.as_slice(), part);
    Ok(Got::Is(place.is_some()))
}

/// Whether a string stands within a string. TypeError for what is no string.
#[tactic(auto, using(py_data::proofs::Rows::row_steps, py_data::proofs::Steps::call_steps), unfolding(crate::specs::Contains::text_in_row))]
fn has_text<S, V: View<S>>(alloc: Global, v: &mut V, a: Addr, p: Operand) -> Result<Got<bool>, Stop>
    requires live { IsLive V.sense v.old }
    requires safe { Safe V.sense.partial (text_in_row {S = S} a.0 p) (V.sense.heap v.old) }
    ensures { Meets V.sense (text_in_row a.0 p) v.old v.new result }
{
    match p {
        Operand::Text(p) => {
            let part = bytes_of(alloc, v, p)?;
            has_part(alloc, v, a, part.as_slice())
        }
        _ => raise(alloc, TYPE_ERROR, b"unsupported operand"),
    }
}

/// Whether a number is one of the range from `start` to `stop`.
fn is_between(start: i64, stop: i64, step: i64, i: i64) -> bool
    ensures { result ≡ is_between start stop step i }
{
    if step > 0 {
        i < stop && start <= i && i.abs_diff(start) % step.unsigned_abs() == 0
    } else if step < 0 {
        stop < i && i <= start && start.abs_diff(i) % step.unsigned_abs() == 0
    } else {
        false
    }
}

/// Whether a number is one of the range that these values are.
fn is_among(values: &[Value], n: Option<i64>) -> bool
    ensures { result ≡ is_among values.now n }
{
    match (values, n) {
        ([Value::Int(start), Value::Int(stop), Value::Int(step)], Some(i)) => {
            is_between(*start, *stop, *step, i)
        }
        _ => false,
    }
}

/// Whether a dictionary has a key.
#[tactic(auto, using(py_data::proofs::Rows::row_steps, py_data::proofs::Steps::call_steps))]
fn is_key_there(found: Got<Option<Value>>) -> Got<bool>
    ensures { result ≡ is_key_there found }
{
    match found {
        Got::Is(x) => Got::Is(x.is_some()),
        Got::Raise(e) => Got::Raise(e),
    }
}

/// Whether a value is in a list or tuple.
#[tactic(auto, using(py_data::proofs::Rows::row_steps, py_data::proofs::Steps::call_steps), unfolding(crate::specs::Contains::contained_row))]
fn has<S, V: View<S>>(alloc: Global, v: &mut V, x: Value, c: Container) -> Result<Got<bool>, Stop>
    requires live { IsLive V.sense v.old }
    requires safe { Safe V.sense.partial (contained_row {S = S} x c) (V.sense.heap v.old) }
    ensures { Meets V.sense (contained_row x c) v.old v.new result }
{
    match c {
        Container::Items(a) => {
            let n = size(v, a)?;
            is_item(alloc, v, x, a, n)
        }
        Container::Pairs(a) => {
            let found = get(alloc, v, a, x)?;
            Ok(is_key_there(found))
        }
        Container::Bytes(a) => {
            let p = operand_at(v, x)?;
            has_text(alloc, v, a, p)
        }
        Container::Numbers(a) => {
            let values = values_of(alloc, v, a)?;
            Ok(Got::Is(is_among(values.as_slice(), number_of(x))))
        }
        Container::Nothing => raise(alloc, TYPE_ERROR, b"unsupported operand"),
    }
}

/// Whether a value is in another: an equal item of a list or tuple, a key of a dictionary, bytes within a string, a
/// number of a range. TypeError for all else, and for what is no string before `in` a string.
#[tactic(auto, using(py_data::proofs::Rows::row_steps, py_data::proofs::Steps::call_steps), unfolding(crate::specs::Contains::contains_row))]
pub fn contains<S, V: View<S>>(
    alloc: Global,
    v: &mut V,
    x: Value,
    y: Value,
) -> Result<Got<bool>, Stop>
    requires live { IsLive V.sense v.old }
    requires safe { Safe V.sense.partial (contains_row {S = S} x y) (V.sense.heap v.old) }
    ensures { Meets V.sense (contains_row x y) v.old v.new result }
{
    let c = container_at(v, y)?;
    has(alloc, v, x, c)
}
