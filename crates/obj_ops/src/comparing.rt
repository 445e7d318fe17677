//! The comparing operators.
ghost use Rattle.std.specs.Prelude.{◌≡◌, ◌<◌, length};
ghost use Rattle.py_base.specs.Numbers.{compare_signs};
ghost use Rattle.py_data.specs.Comparing.{is_same};
ghost use Rattle.py_data.specs.Sense.{Meets, Safe, IsLive};
ghost use Rattle.obj_ops.specs.Compare.{suits, suited, ordered_row, test_row, is_negated, told, compared_row, compare_row};

use crate::contain::contains;
use crate::operator::{Comparison, comparison_of};
use obj_nest::{equal, order};
use py_data::{Got, Stop, Value, View};
use std::alloc::Global;
use std::cmp::Ordering;

/// Whether two values are the same one, as `is` has it.
fn is_same(x: Value, y: Value) -> bool
    ensures { result ≡ is_same x y }
{
    match (x, y) {
        (Value::None, Value::None) => true,
        (Value::Bool(b), Value::Bool(c)) => b as i64 == c as i64,
        (Value::Int(i), Value::Int(j)) => i == j,
        (Value::Builtin(i), Value::Builtin(j)) => i == j,
        (Value::Ref(a), Value::Ref(b)) => a.0 == b.0,
        _ => false,
    }
}

/// What an order says to `<`, `>`, `>=` or `<=`.
fn suits(c: Comparison, o: Ordering) -> bool
    ensures { result ≡ suits c o }
{
    match c {
        Comparison::Less => o == Ordering::Less,
        Comparison::Greater => o == Ordering::Greater,
        Comparison::GreaterEqual => o != Ordering::Less,
        Comparison::LessEqual => o != Ordering::Greater,
        _ => false,
    }
}

/// The same of an answer that may be an exception.
fn suited(c: Comparison, found: Got<Ordering>) -> Got<bool>
    ensures { result ≡ suited c found }
{
    match found {
        Got::Is(o) => Got::Is(suits(c, o)),
        Got::Raise(e) => Got::Raise(e),
    }
}

/// A comparison by order.
#[tactic(auto, using(py_data::proofs::Rows::row_steps, py_data::proofs::Steps::call_steps), unfolding(crate::specs::Compare::ordered_row))]
fn test_order<S, V: View<S>>(
    alloc: Global,
    v: &mut V,
    c: Comparison,
    x: Value,
    y: Value,
) -> Result<Got<bool>, Stop>
    requires live { IsLive V.sense v.old }
    requires safe { Safe V.sense.partial (ordered_row {S = S} c x y) (V.sense.heap v.old) }
    ensures { Meets V.sense (ordered_row c x y) v.old v.new result }
{
    let found = order(alloc, v, x, y)?;
    Ok(suited(c, found))
}

/// The test that a comparison makes; of two that are each other's opposite it is the same one.
#[tactic(auto, using(py_data::proofs::Rows::row_steps), unfolding(crate::specs::Compare::test_row))]
fn test<S, V: View<S>>(
    alloc: Global,
    v: &mut V,
    c: Comparison,
    x: Value,
    y: Value,
) -> Result<Got<bool>, Stop>
    requires live { IsLive V.sense v.old }
    requires safe { Safe V.sense.partial (test_row {S = S} c x y) (V.sense.heap v.old) }
    ensures { Meets V.sense (test_row c x y) v.old v.new result }
{
    match c {
        Comparison::Equal => equal(alloc, v, x, y),
        Comparison::NotEqual => equal(alloc, v, x, y),
        Comparison::In => contains(alloc, v, x, y),
        Comparison::NotIn => contains(alloc, v, x, y),
        Comparison::Is => Ok(Got::Is(is_same(x, y))),
        Comparison::IsNot => Ok(Got::Is(is_same(x, y))),
        _ => test_order(alloc, v, c, x, y),
    }
}

/// Whether a comparison is told by the opposite of its test.
fn is_negated(c: Comparison) -> bool
    ensures { result ≡ is_negated c }
{
    match c {
        Comparison::NotEqual => true,
        Comparison::NotIn => true,
        Comparison::IsNot => true,
        _ => false,
    }
}

/// The answer of a test, or its opposite.
fn tell(negated: bool, found: Got<bool>) -> Got<Value>
    ensures { result ≡ told negated found }
{
    match found {
        Got::Is(b) => Got::Is(Value::Bool(if negated { !b } else { b })),
        Got::Raise(e) => Got::Raise(e),
    }
}

/// A comparison.
#[tactic(auto, using(py_data::proofs::Rows::row_steps, py_data::proofs::Steps::call_steps), unfolding(crate::specs::Compare::compared_row))]
fn compare_by<S, V: View<S>>(
    alloc: Global,
    v: &mut V,
    c: Comparison,
    x: Value,
    y: Value,
) -> Result<Got<Value>, Stop>
    requires live { IsLive V.sense v.old }
    requires safe { Safe V.sense.partial (compared_row {S = S} c x y) (V.sense.heap v.old) }
    ensures { Meets V.sense (compared_row c x y) v.old v.new result }
{
    let found = test(alloc, v, c, x, y)?;
    Ok(tell(is_negated(c), found))
}

/// A comparing operator, by its number; it answers a truth value. `<`, `>`, `<=` and `>=` of values that have no order
/// raise TypeError, and so do `in` and `not in` where the right value can't be looked into. RuntimeError where values
/// are nested deeper than 100 levels up to what decides.
#[tactic(auto, using(py_data::proofs::Rows::row_steps), unfolding(crate::specs::Compare::compare_row))]
pub fn compare<S, V: View<S>>(
    alloc: Global,
    v: &mut V,
    op: u8,
    x: Value,
    y: Value,
) -> Result<Got<Value>, Stop>
    requires number { op < length compare_signs }
    requires live { IsLive V.sense v.old }
    requires safe { Safe V.sense.partial (compare_row {S = S} op x y) (V.sense.heap v.old) }
    ensures { Meets V.sense (compare_row op x y) v.old v.new result }
{
    compare_by(alloc, v, comparison_of(op), x, y)
}
