//! The operators over a view whose heap is in order, and the words of a program for them.
ghost use Rattle.std.specs.Prelude.{◌<◌, length, IfOk, IfSome};
ghost use Rattle.py_base.specs.Numbers.{unary_signs};
ghost use Rattle.py_data.specs.Answers.{IsAnswer};
ghost use Rattle.obj_bench.specs.Bench.{Good, GoodWith, IsOperator};

use crate::state::{Bench, Halt, answered};
use py_base::operator::unary::{INVERT, MINUS, PLUS};
use py_base::{binary_number, compare_number, operator};
use py_data::{Addr, Got, Stop, Value, Values, View};
use std::alloc::Global;

/// An operator of two operands, by its number.
#[derive(Clone, Copy, Debug, Drop)]
pub enum Operator {
    /// One that makes a value.
    Binary(u8),
    /// One in place, which may change its first operand.
    InPlace(u8),
    /// One that compares.
    Compare(u8),
}

/// What an operator answers of two values of the stack.
fn call_two<S, V: View<S>>(
    alloc: Global,
    v: &mut V,
    roots: Addr,
    stack: &Values,
    operator: Operator,
    place: usize,
    other: usize,
) -> Result<Got<Value>, Stop>
    requires good { Good V.sense roots.0 stack.now v.old }
    requires number { IsOperator operator }
    requires place { place < length stack.now }
    requires other { other < length stack.now }
    ensures { IfOk result (λ g. GoodWith V.sense roots.0 IsAnswer stack.now g v.new) }
{
    let x = stack.at(place);
    let y = stack.at(other);
    match operator {
        Operator::Binary(op) => {
            let got = obj_ops::binary(alloc, v, roots, op, x, y)?;
            Ok(got)
        }
        Operator::InPlace(op) => {
            let got = obj_ops::in_place(alloc, v, roots, op, x, y)?;
            Ok(got)
        }
        Operator::Compare(op) => {
            let got = obj_ops::compare(alloc, v, op, x, y)?;
            Ok(got)
        }
    }
}

/// An operator of one value of the stack.
fn call_unary<S, V: View<S>>(
    alloc: Global,
    v: &mut V,
    roots: Addr,
    stack: &Values,
    op: u8,
    place: usize,
) -> Result<Got<Value>, Stop>
    requires good { Good V.sense roots.0 stack.now v.old }
    requires number { op < length unary_signs }
    requires place { place < length stack.now }
    ensures { IfOk result (λ g. GoodWith V.sense roots.0 IsAnswer stack.now g v.new) }
{
    let got = obj_ops::unary(alloc, v, op, stack.at(place))?;
    Ok(got)
}

/// `x y +`, `x y +=`, `x y <` and the like.
fn two<V: View<u8> + Drop>(bench: Bench<V>, operator: Operator) -> Result<Bench<V>, Halt>
    requires good { Good V.sense bench.roots.0 bench.stack bench.view }
    requires number { IsOperator operator }
    ensures { IfOk result (λ b. Good V.sense b.roots.0 b.stack b.view) }
{
    let Bench {
        alloc,
        mut view,
        roots,
        stack,
    } = bench;
    let n = stack.len();
    if n < 2 {
        return Err(Halt::Bad);
    }
    let got = call_two(alloc, &mut view, roots, &stack, operator, n - 2, n - 1)?;
    answered(alloc, view, roots, stack, n - 2, got)
}

/// `x neg` and the like.
fn unary<V: View<u8> + Drop>(bench: Bench<V>, op: u8) -> Result<Bench<V>, Halt>
    requires good { Good V.sense bench.roots.0 bench.stack bench.view }
    requires number { op < length unary_signs }
    ensures { IfOk result (λ b. Good V.sense b.roots.0 b.stack b.view) }
{
    let Bench {
        alloc,
        mut view,
        roots,
        stack,
    } = bench;
    let n = stack.len();
    if n < 1 {
        return Err(Halt::Bad);
    }
    let got = call_unary(alloc, &mut view, roots, &stack, op, n - 1)?;
    answered(alloc, view, roots, stack, n - 1, got)
}

/// The number of a comparing operator, by its word.
fn compare_word(word: &[u8]) -> Option<u8> {
    match word {
        b"not_in" => compare_number(b"not in"),
        b"is_not" => compare_number(b"is not"),
        _ => compare_number(word),
    }
}

/// The number of an operator in place, by its word.
fn in_place_word(word: &[u8]) -> Option<u8> {
    if word.ends_with(b"=") {
        binary_number(&word[..word.len() - 1])
    } else {
        None
    }
}

/// The operator in place, by its word.
fn changing(word: &[u8]) -> Option<Operator>
    ensures { IfSome result IsOperator }
{
    match in_place_word(word) {
        Some(op) if op < operator::binary::COUNT => Some(Operator::InPlace(op)),
        _ => None,
    }
}

/// The operator that calculates, also in place, by its word.
fn calculating(word: &[u8]) -> Option<Operator>
    ensures { IfSome result IsOperator }
{
    match binary_number(word) {
        Some(op) if op < operator::binary::COUNT => Some(Operator::Binary(op)),
        _ => changing(word),
    }
}

/// The operator of two operands, by its word.
fn operator_of(word: &[u8]) -> Option<Operator>
    ensures { IfSome result IsOperator }
{
    match compare_word(word) {
        Some(op) if op < operator::compare::COUNT => Some(Operator::Compare(op)),
        _ => calculating(word),
    }
}

/// The word of an operator.
pub fn operated<V: View<u8> + Drop>(bench: Bench<V>, word: &[u8]) -> Result<Bench<V>, Halt>
    requires { Good V.sense bench.roots.0 bench.stack bench.view }
    ensures { IfOk result (λ b. Good V.sense b.roots.0 b.stack b.view) }
{
    match word {
        b"pos" => unary(bench, PLUS),
        b"neg" => unary(bench, MINUS),
        b"~" => unary(bench, INVERT),
        _ => match operator_of(word) {
            Some(operator) => two(bench, operator),
            None => Err(Halt::Bad),
        },
    }
}
