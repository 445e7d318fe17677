//! Shifts of numbers.
ghost use Rattle.std.specs.Prelude.{◌≡◌, ◌<◌, ◌^◌, MatchResult, pos};
ghost use Rattle.py_data.specs.declared.stop.Stop.TheVariants.{OutOfMemory};
ghost use Rattle.obj_ops.specs.Numbers.{shifted_left, shifted_right};

use crate::calculate::narrow;
use py_data::exception::{OVERFLOW_ERROR, VALUE_ERROR, raise};
use py_data::{Got, Stop, Value};
use std::alloc::Global;

/// Two to the power of `n`.
#[tactic(auto, using(crate::proofs::Powers::two_power))]
fn power_of_two(n: u64) -> u64
    requires { n < 64 }
    ensures { result ≡ 2 ^ n }
{
    1 << n
}

/// A number doubled so often. OverflowError where 64 bits don't hold it; 0 stays 0, however often.
#[tactic(auto, using(crate::proofs::Powers::shift_none, crate::proofs::Powers::shift_wide), unfolding(crate::specs::Numbers::shifted_left))]
fn doubled(alloc: Global, i: i64, n: u64) -> Result<Got<Value>, Stop>
    ensures { MatchResult result (λ g. g ≡ shifted_left i (pos n)) (λ e. e ≡ OutOfMemory) }
{
    if i == 0 {
        Ok(Got::Is(Value::Int(0)))
    } else if n >= 64 {
        raise(alloc, OVERFLOW_ERROR, b"integer overflow")
    } else {
        narrow(alloc, i as i128 * power_of_two(n) as i128)
    }
}

/// `i << n`. ValueError for a negative count, OverflowError where 64 bits don't hold it.
#[tactic(auto, unfolding(crate::specs::Numbers::shifted_left))]
pub fn shift_left(alloc: Global, i: i64, n: i64) -> Result<Got<Value>, Stop>
    ensures { MatchResult result (λ g. g ≡ shifted_left i n) (λ e. e ≡ OutOfMemory) }
{
    if n < 0 {
        raise(alloc, VALUE_ERROR, b"negative shift count")
    } else {
        doubled(alloc, i, n as u64)
    }
}

/// A number halved so often, and rounded down.
#[tactic(auto, using(crate::proofs::Powers::shift_out, crate::proofs::Powers::shift_out_below), unfolding(crate::specs::Numbers::shifted_right))]
fn halved(i: i64, n: u64) -> Got<Value>
    ensures { result ≡ shifted_right i (pos n) }
{
    if n < 64 {
        Got::Is(Value::Int(i >> n))
    } else if i < 0 {
        Got::Is(Value::Int(-1))
    } else {
        Got::Is(Value::Int(0))
    }
}

/// `i >> n`. ValueError for a negative count.
#[tactic(auto, unfolding(crate::specs::Numbers::shifted_right))]
pub fn shift_right(alloc: Global, i: i64, n: i64) -> Result<Got<Value>, Stop>
    ensures { MatchResult result (λ g. g ≡ shifted_right i n) (λ e. e ≡ OutOfMemory) }
{
    if n < 0 {
        raise(alloc, VALUE_ERROR, b"negative shift count")
    } else {
        Ok(halved(i, n as u64))
    }
}
