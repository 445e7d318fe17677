//! The operators of one and of two operands.
ghost use Rattle.std.specs.Prelude.{◌≡◌, ◌<◌, MatchResult, length};
ghost use Rattle.py_base.specs.Numbers.{binary_signs, unary_signs};
ghost use Rattle.py_data.specs.declared.stop.Stop.TheVariants.{OutOfMemory};
ghost use Rattle.py_data.specs.Sense.{Meets, Safe, IsLive};
ghost use Rattle.obj_ops.specs.Binary.{signed_value, unary_row, calculated_case, case_row, operand_with, operated_row, binary_row};

use crate::calculate::{calculate, calculate_truths, with_sign};
use crate::format::format_with;
use crate::operand::{Case, Operand, case_of, operand_at};
use crate::operator::{Operator, Sign, operator_of, sign_of};
use crate::sequence::{join_items, join_texts, repeat_items, repeat_text, times};
use obj_nest::number_of;
use py_data::exception::{TYPE_ERROR, raise};
use py_data::{Addr, Got, Stop, Value, View};
use std::alloc::Global;

/// A sign before a value. TypeError for what is no number.
#[tactic(auto, unfolding(crate::specs::Binary::signed_value))]
fn sign_value(alloc: Global, sign: Sign, n: Option<i64>) -> Result<Got<Value>, Stop>
    ensures { MatchResult result (λ g. g ≡ signed_value sign n) (λ e. e ≡ OutOfMemory) }
{
    match n {
        Some(i) => with_sign(alloc, sign, i),
        None => raise(alloc, TYPE_ERROR, b"unsupported operand"),
    }
}

/// An operator of one operand, by its number: `+x`, `-x` and `~x`. TypeError for what is no number, OverflowError where
/// 64 bits don't hold the answer.
#[tactic(auto, using(py_data::proofs::Rows::row_steps), unfolding(crate::specs::Binary::unary_row))]
pub fn unary<S, V: View<S>>(alloc: Global, v: &mut V, op: u8, x: Value) -> Result<Got<Value>, Stop>
    requires number { op < length unary_signs }
    requires live { IsLive V.sense v.old }
    requires safe { Safe V.sense.partial (unary_row {S = S} op x) (V.sense.heap v.old) }
    ensures { Meets V.sense (unary_row op x) v.old v.new result }
{
    sign_value(alloc, sign_of(op), number_of(x))
}

/// An operator on two numbers or two truth values, if both operands are.
#[tactic(auto, unfolding(crate::specs::Binary::calculated_case))]
fn calculate_case(alloc: Global, op: Operator, case: Case) -> Result<Got<Value>, Stop>
    ensures { MatchResult result (λ g. g ≡ calculated_case op case) (λ e. e ≡ OutOfMemory) }
{
    match case {
        Case::Numbers(i, j) => calculate(alloc, op, i, j),
        Case::Truths(b, c) => calculate_truths(alloc, op, b, c),
        _ => raise(alloc, TYPE_ERROR, b"unsupported operand"),
    }
}

/// Does one case.
#[tactic(auto, using(py_data::proofs::Rows::row_steps), unfolding(crate::specs::Binary::case_row))]
fn do_case<S, V: View<S>>(
    alloc: Global,
    v: &mut V,
    roots: Addr,
    op: Operator,
    y: Value,
    case: Case,
) -> Result<Got<Value>, Stop>
    requires live { IsLive V.sense v.old }
    requires safe { Safe V.sense.partial (case_row {S = S} roots.0 op y case) (V.sense.heap v.old) }
    ensures { Meets V.sense (case_row roots.0 op y case) v.old v.new result }
{
    match case {
        Case::Join(k, a, b) => join_items(alloc, v, k, a, b),
        Case::JoinTexts(a, b) => join_texts(alloc, v, a, b),
        Case::Repeat(k, a, n) => repeat_items(alloc, v, k, a, times(n)),
        Case::RepeatText(a, n) => repeat_text(alloc, v, a, times(n)),
        Case::Format(a, tuple) => format_with(alloc, v, roots, a, tuple, y),
        _ => calculate_case(alloc, op, case),
    }
}

/// An operator whose left operand is known.
#[tactic(auto, using(py_data::proofs::Rows::row_steps, py_data::proofs::Steps::call_steps), unfolding(crate::specs::Binary::operand_with))]
pub fn operate_with<S, V: View<S>>(
    alloc: Global,
    v: &mut V,
    roots: Addr,
    op: Operator,
    p: Operand,
    y: Value,
) -> Result<Got<Value>, Stop>
    requires live { IsLive V.sense v.old }
    requires safe { Safe V.sense.partial (operand_with {S = S} roots.0 op p y) (V.sense.heap v.old) }
    ensures { Meets V.sense (operand_with roots.0 op p y) v.old v.new result }
{
    let q = operand_at(v, y)?;
    do_case(alloc, v, roots, op, y, case_of(op, p, q))
}

/// An operator of two operands.
#[tactic(auto, using(py_data::proofs::Rows::row_steps, py_data::proofs::Steps::call_steps), unfolding(crate::specs::Binary::operated_row))]
fn operate<S, V: View<S>>(
    alloc: Global,
    v: &mut V,
    roots: Addr,
    op: Operator,
    x: Value,
    y: Value,
) -> Result<Got<Value>, Stop>
    requires live { IsLive V.sense v.old }
    requires safe { Safe V.sense.partial (operated_row {S = S} roots.0 op x y) (V.sense.heap v.old) }
    ensures { Meets V.sense (operated_row roots.0 op x y) v.old v.new result }
{
    let p = operand_at(v, x)?;
    operate_with(alloc, v, roots, op, p, y)
}

/// An operator of two operands, by its number. `roots` is for the text of a value, which `%` writes.
///
/// TypeError for operands of types that the operator isn't for, before anything else; then ZeroDivisionError or
/// ValueError for a divisor 0, a negative shift count or exponent; then OverflowError where 64 bits don't hold the
/// number, MemoryError where a sequence or string would have more than `LENGTH_LIMIT` items or bytes. `%` with a string
/// on the left is `format_with`.
#[tactic(auto, using(py_data::proofs::Rows::row_steps), unfolding(crate::specs::Binary::binary_row))]
pub fn binary<S, V: View<S>>(
    alloc: Global,
    v: &mut V,
    roots: Addr,
    op: u8,
    x: Value,
    y: Value,
) -> Result<Got<Value>, Stop>
    requires number { op < length binary_signs }
    requires live { IsLive V.sense v.old }
    requires safe { Safe V.sense.partial (binary_row {S = S} roots.0 op x y) (V.sense.heap v.old) }
    ensures { Meets V.sense (binary_row roots.0 op x y) v.old v.new result }
{
    operate(alloc, v, roots, operator_of(op), x, y)
}
