//! The operators in place.
ghost use Rattle.std.specs.Prelude.{◌≡◌, ◌≤◌, ◌<◌, length};
ghost use Rattle.py_base.specs.Numbers.{binary_signs};
ghost use Rattle.py_data.specs.declared.record.TheConstants.{LENGTH_LIMIT};
ghost use Rattle.py_data.specs.Sense.{Meets, Safe, IsLive};
ghost use Rattle.obj_ops.specs.InPlace.{push_row, pushed_row, appended_row, extended_row, kept_list, kept_row, changed_row, in_place_row};

use crate::operand::{Operand, list_of, operand_at};
use crate::operate::operate_with;
use crate::operator::{Operator, operator_of};
use obj_seq::gather;
use obj_str::too_long;
use py_data::{Addr, Got, LENGTH_LIMIT, Stop, Value, Values, View, size};
use std::alloc::Global;

/// Puts values at the end of a list.
fn push_all<S, V: View<S>>(v: &mut V, a: Addr, values: &Values) -> Result<(), Stop>
    requires live { IsLive V.sense v.old }
    requires safe { Safe V.sense.partial (push_row {S = S} a.0 values.now) (V.sense.heap v.old) }
    ensures { Meets V.sense (push_row a.0 values.now) v.old v.new result }
{
    let n = values.len();
    'turns: for i in 0..n {
        v.push_val(a, values.at(i))?;
    }
    Ok(())
}

/// Puts values at the end of a list of `n` items, and answers the list. MemoryError, before the first one, where there
/// would be too many.
#[tactic(auto, using(py_data::proofs::Rows::row_steps, py_data::proofs::Steps::call_steps), unfolding(crate::specs::InPlace::pushed_row))]
fn push_short<S, V: View<S>>(
    v: &mut V,
    a: Addr,
    values: &Values,
    n: usize,
) -> Result<Got<Value>, Stop>
    requires within { n ≤ LENGTH_LIMIT }
    requires live { IsLive V.sense v.old }
    requires safe { Safe V.sense.partial (pushed_row {S = S} a.0 values.now n) (V.sense.heap v.old) }
    ensures { Meets V.sense (pushed_row a.0 values.now n) v.old v.new result }
{
    if values.len() <= LENGTH_LIMIT - n {
        push_all(v, a, values)?;
        Ok(Got::Is(Value::Ref(a)))
    } else {
        Ok(too_long())
    }
}

/// Puts values at the end of a list.
#[tactic(auto, using(py_data::proofs::Rows::row_steps, py_data::proofs::Steps::call_steps), unfolding(crate::specs::InPlace::appended_row))]
fn append<S, V: View<S>>(v: &mut V, a: Addr, values: &Values) -> Result<Got<Value>, Stop>
    requires live { IsLive V.sense v.old }
    requires safe { Safe V.sense.partial (appended_row {S = S} a.0 values.now) (V.sense.heap v.old) }
    ensures { Meets V.sense (appended_row a.0 values.now) v.old v.new result }
{
    let n = size(v, a)?;
    push_short(v, a, values, n)
}

/// Puts the items of a value, which are all read before, at the end of a list, and answers the list. TypeError, `not
/// iterable`, for what can't be gone through; MemoryError, before the first item, where the list would have more than
/// `LENGTH_LIMIT`.
#[tactic(auto, using(py_data::proofs::Rows::row_steps, py_data::proofs::Steps::call_steps), unfolding(crate::specs::InPlace::extended_row))]
pub fn extend<S, V: View<S>>(
    alloc: Global,
    v: &mut V,
    a: Addr,
    y: Value,
) -> Result<Got<Value>, Stop>
    requires live { IsLive V.sense v.old }
    requires safe { Safe V.sense.partial (extended_row {S = S} a.0 y) (V.sense.heap v.old) }
    ensures { Meets V.sense (extended_row a.0 y) v.old v.new result }
{
    match gather(alloc, v, y)? {
        Got::Is(values) => append(v, a, &values),
        Got::Raise(e) => Ok(Got::Raise(e)),
    }
}

/// The list that an operator keeps: only `+=` keeps one.
fn kept_list(op: Operator, p: Operand) -> Option<Addr>
    ensures { result ≡ kept_list op p }
{
    match op {
        Operator::Add => list_of(p),
        _ => None,
    }
}

/// Extends the list that is kept, or does what the operator does with two operands.
#[tactic(auto, using(py_data::proofs::Rows::row_steps), unfolding(crate::specs::InPlace::kept_row))]
fn extend_kept<S, V: View<S>>(
    alloc: Global,
    v: &mut V,
    roots: Addr,
    op: Operator,
    p: Operand,
    y: Value,
    list: Option<Addr>,
) -> Result<Got<Value>, Stop>
    requires live { IsLive V.sense v.old }
    requires safe { Safe V.sense.partial (kept_row {S = S} roots.0 op p y list) (V.sense.heap v.old) }
    ensures { Meets V.sense (kept_row roots.0 op p y list) v.old v.new result }
{
    match list {
        Some(a) => extend(alloc, v, a, y),
        None => operate_with(alloc, v, roots, op, p, y),
    }
}

/// An operator in place.
#[tactic(auto, using(py_data::proofs::Rows::row_steps, py_data::proofs::Steps::call_steps), unfolding(crate::specs::InPlace::changed_row))]
fn change<S, V: View<S>>(
    alloc: Global,
    v: &mut V,
    roots: Addr,
    op: Operator,
    x: Value,
    y: Value,
) -> Result<Got<Value>, Stop>
    requires live { IsLive V.sense v.old }
    requires safe { Safe V.sense.partial (changed_row {S = S} roots.0 op x y) (V.sense.heap v.old) }
    ensures { Meets V.sense (changed_row roots.0 op x y) v.old v.new result }
{
    let p = operand_at(v, x)?;
    extend_kept(alloc, v, roots, op, p, y, kept_list(op, p))
}

/// An operator in place, by its number. `+=` appends the items of anything that can be gone through to the list on the
/// left, and answers that list: TypeError, `not iterable`, for what can't be gone through; MemoryError, before the
/// first item, where the list would have more than `LENGTH_LIMIT`. In all else it does what `binary` does.
#[tactic(auto, using(py_data::proofs::Rows::row_steps), unfolding(crate::specs::InPlace::in_place_row))]
pub fn in_place<S, V: View<S>>(
    alloc: Global,
    v: &mut V,
    roots: Addr,
    op: u8,
    x: Value,
    y: Value,
) -> Result<Got<Value>, Stop>
    requires number { op < length binary_signs }
    requires live { IsLive V.sense v.old }
    requires safe { Safe V.sense.partial (in_place_row {S = S} roots.0 op x y) (V.sense.heap v.old) }
    ensures { Meets V.sense (in_place_row roots.0 op x y) v.old v.new result }
{
    change(alloc, v, roots, operator_of(op), x, y)
}
