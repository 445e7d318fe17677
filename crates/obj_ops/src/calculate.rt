//! Operators on numbers.
ghost use Rattle.std.specs.Prelude.{◌≡◌, ◌≤◌, MatchResult, pos, unsigned_abs};
ghost use Rattle.std.specs.Int.{int_pow};
ghost use Rattle.py_data.specs.declared.stop.Stop.TheVariants.{OutOfMemory};
ghost use Rattle.py_data.specs.Arithmetic.{floor_quotient, floor_remainder};
ghost use Rattle.obj_ops.specs.Numbers.{narrowed, divided, raised, calculated, calculated_truths, signed};

use crate::operator::{Operator, Sign};
use crate::shift::{shift_left, shift_right};
use py_data::arithmetic::{floor_divide, floor_modulo};
use py_data::exception::{OVERFLOW_ERROR, VALUE_ERROR, ZERO_DIVISION_ERROR, raise};
use py_data::{Got, Stop, Value};
use std::alloc::Global;

/// A number as a value. OverflowError where 64 bits don't hold it.
#[tactic(auto, unfolding(crate::specs::Numbers::narrowed))]
pub fn narrow(alloc: Global, n: i128) -> Result<Got<Value>, Stop>
    ensures { MatchResult result (λ g. g ≡ narrowed n) (λ e. e ≡ OutOfMemory) }
{
    if n < -9_223_372_036_854_775_808 || n > 9_223_372_036_854_775_807 {
        raise(alloc, OVERFLOW_ERROR, b"integer overflow")
    } else {
        Ok(Got::Is(Value::Int(n as i64)))
    }
}

/// A quotient rounded down. ZeroDivisionError for the divisor 0, OverflowError for the least number by -1.
#[tactic(auto, unfolding(crate::specs::Numbers::divided, crate::specs::Numbers::narrowed))]
fn divide(alloc: Global, i: i64, j: i64) -> Result<Got<Value>, Stop>
    ensures { MatchResult result (λ g. g ≡ divided floor_quotient i j) (λ e. e ≡ OutOfMemory) }
{
    if j == 0 {
        raise(
            alloc,
            ZERO_DIVISION_ERROR,
            b"integer division or modulo by zero",
        )
    } else if i == i64::MIN && j == -1 {
        raise(alloc, OVERFLOW_ERROR, b"integer overflow")
    } else {
        narrow(alloc, floor_divide(i, j) as i128)
    }
}

/// What a division rounded down leaves. ZeroDivisionError for the divisor 0.
#[tactic(auto, unfolding(crate::specs::Numbers::divided))]
fn remain(alloc: Global, i: i64, j: i64) -> Result<Got<Value>, Stop>
    ensures { MatchResult result (λ g. g ≡ divided floor_remainder i j) (λ e. e ≡ OutOfMemory) }
{
    if j == 0 {
        raise(
            alloc,
            ZERO_DIVISION_ERROR,
            b"integer division or modulo by zero",
        )
    } else {
        narrow(alloc, floor_modulo(i, j) as i128)
    }
}

/// A power of a base that is neither 0 nor 1 nor -1. OverflowError for each exponent above 63, before anything is
/// worked out.
#[tactic(auto, using(crate::proofs::Powers::power_wide, crate::proofs::Powers::unfit_wide), unfolding(crate::specs::Numbers::raised))]
fn power_of(alloc: Global, i: i64, n: u64) -> Result<Got<Value>, Stop>
    requires { 2 ≤ unsigned_abs i }
    ensures { MatchResult result (λ g. g ≡ raised i (pos n)) (λ e. e ≡ OutOfMemory) }
{
    if n >= 64 {
        return raise(alloc, OVERFLOW_ERROR, b"integer overflow");
    }
    match i.checked_pow(n as u32) {
        Some(z) => narrow(alloc, z as i128),
        None => raise(alloc, OVERFLOW_ERROR, b"integer overflow"),
    }
}

/// A power of 0, 1 or -1, whatever the exponent.
#[tactic(auto, using(crate::proofs::Powers::power_none, crate::proofs::Powers::power_even, crate::proofs::Powers::power_odd))]
fn power_of_unit(i: i64, n: u64) -> i64
    requires { unsigned_abs i ≤ 1 }
    ensures { result ≡ int_pow i n }
{
    if n == 0 {
        1
    } else if n % 2 == 0 {
        i.abs()
    } else {
        i
    }
}

/// A power. ValueError for a negative exponent, OverflowError where 64 bits don't hold it. `0 ** 0` is 1.
#[tactic(auto, unfolding(crate::specs::Numbers::raised))]
fn power(alloc: Global, i: i64, n: i64) -> Result<Got<Value>, Stop>
    ensures { MatchResult result (λ g. g ≡ raised i n) (λ e. e ≡ OutOfMemory) }
{
    if n < 0 {
        raise(alloc, VALUE_ERROR, b"negative exponent")
    } else if i.unsigned_abs() <= 1 {
        narrow(alloc, power_of_unit(i, n as u64) as i128)
    } else {
        power_of(alloc, i, n as u64)
    }
}

/// An operator on two whole numbers.
#[tactic(auto, unfolding(crate::specs::Numbers::calculated))]
pub fn calculate(alloc: Global, op: Operator, i: i64, j: i64) -> Result<Got<Value>, Stop>
    ensures { MatchResult result (λ g. g ≡ calculated op i j) (λ e. e ≡ OutOfMemory) }
{
    match op {
        Operator::Or => Ok(Got::Is(Value::Int(i | j))),
        Operator::Xor => Ok(Got::Is(Value::Int(i ^ j))),
        Operator::And => Ok(Got::Is(Value::Int(i & j))),
        Operator::ShiftLeft => shift_left(alloc, i, j),
        Operator::ShiftRight => shift_right(alloc, i, j),
        Operator::Add => narrow(alloc, i as i128 + j as i128),
        Operator::Subtract => narrow(alloc, i as i128 - j as i128),
        Operator::Multiply => narrow(alloc, i as i128 * j as i128),
        Operator::Divide => divide(alloc, i, j),
        Operator::FloorDivide => divide(alloc, i, j),
        Operator::Remainder => remain(alloc, i, j),
        Operator::Power => power(alloc, i, j),
    }
}

/// An operator on two truth values. `& | ^` give a truth value; all others take them as 1 and 0.
#[tactic(auto, unfolding(crate::specs::Numbers::calculated_truths))]
pub fn calculate_truths(alloc: Global, op: Operator, b: bool, c: bool) -> Result<Got<Value>, Stop>
    ensures { MatchResult result (λ g. g ≡ calculated_truths op b c) (λ e. e ≡ OutOfMemory) }
{
    match op {
        Operator::Or => Ok(Got::Is(Value::Bool(b || c))),
        Operator::Xor => Ok(Got::Is(Value::Bool((b || c) && !(b && c)))),
        Operator::And => Ok(Got::Is(Value::Bool(b && c))),
        _ => calculate(alloc, op, b as i64, c as i64),
    }
}

/// A number with a sign before it. OverflowError for the least number with a minus.
#[tactic(auto, unfolding(crate::specs::Numbers::signed))]
pub fn with_sign(alloc: Global, sign: Sign, i: i64) -> Result<Got<Value>, Stop>
    ensures { MatchResult result (λ g. g ≡ signed sign i) (λ e. e ≡ OutOfMemory) }
{
    match sign {
        Sign::Plus => Ok(Got::Is(Value::Int(i))),
        Sign::Minus => narrow(alloc, -(i as i128)),
        Sign::Invert => Ok(Got::Is(Value::Int(!i))),
    }
}
