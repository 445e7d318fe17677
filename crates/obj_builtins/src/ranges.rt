//! `range` and `xrange`.
ghost use Rattle.std.specs.Prelude.{◌≡◌, ◌≢◌, ◌≤◌, pos, IfOk};
ghost use Rattle.obj_builtins.specs.Ranges as ranges;
ghost use Rattle.obj_seq.specs.Gather as gather;
ghost use Rattle.py_data.specs.Sense.{Meets, Safe, IsLive};

use crate::lengths::is_counted;
use obj_nest::number_of;
use obj_ops::make_items;
use obj_seq::{range_item, range_length};
use obj_str::{too_long, wrong_arguments};
use py_data::exception::{OVERFLOW_ERROR, VALUE_ERROR, raise};
use py_data::{Got, Kind, LENGTH_LIMIT, NoMemory, Stop, Value, Values, View};
use std::alloc::Global;

/// The start, the stop and the step of a range.
#[derive(Clone, Copy, Debug, Drop, PartialEq, Eq)]
pub struct Bounds {
    pub start: i64,
    pub stop: i64,
    pub step: i64,
}

/// Three numbers as bounds.
fn bounds_in(start: Option<i64>, stop: Option<i64>, step: Option<i64>) -> Option<Bounds>
    ensures { result ≡ ranges.bounds_in start stop step }
{
    match (start, stop, step) {
        (Some(start), Some(stop), Some(step)) => Some(Bounds { start, stop, step }),
        _ => None,
    }
}

/// The bounds that arguments say: the stop; the start and the stop; or these and the step.
pub fn bounds_of(args: &[Value]) -> Option<Bounds>
    ensures { result ≡ ranges.bounds_of args.now }
{
    match args {
        [stop] => bounds_in(Some(0), number_of(*stop), Some(1)),
        [start, stop] => bounds_in(number_of(*start), number_of(*stop), Some(1)),
        [start, stop, step] => bounds_in(number_of(*start), number_of(*stop), number_of(*step)),
        _ => None,
    }
}

/// How many numbers there are.
fn count_in(b: Bounds) -> u64
    requires { b.step ≢ pos 0 }
    ensures { result ≡ ranges.count_in b }
{
    range_length(b.start, b.stop, b.step)
}

/// The first `n` numbers.
fn numbers(alloc: Global, b: Bounds, n: usize) -> Result<Values, NoMemory>
    requires some { b.step ≢ pos 0 }
    requires within { n ≤ ranges.count_in b }
    ensures { IfOk result (λ vs. vs ≡ gather.numbers b.start b.step n) }
{
    let mut numbers = Values::new(alloc);
    'turns: for k in 0..n {
        let x = range_item(b.start, b.stop, b.step, k as u64);
        numbers.push(Value::Int(x))?;
    }
    Ok(numbers)
}

/// A new list of the numbers. MemoryError where they are more than `LENGTH_LIMIT`.
#[tactic(auto, using(py_data::proofs::Rows::row_steps), unfolding(crate::specs::Ranges::numbers_made, obj_ops::specs::Sequences::new_items))]
fn make_numbers<S, V: View<S>>(alloc: Global, v: &mut V, b: Bounds) -> Result<Got<Value>, Stop>
    requires live { IsLive V.sense v.old }
    requires some { b.step ≢ pos 0 }
    requires safe { Safe V.sense.partial (ranges.numbers_made {S = S} b) (V.sense.heap v.old) }
    ensures { Meets V.sense (ranges.numbers_made b) v.old v.new result }
{
    let n = count_in(b);
    if n <= LENGTH_LIMIT as u64 {
        let values = numbers(alloc, b, n as usize)?;
        make_items(alloc, v, Kind::List, values)
    } else {
        Ok(too_long())
    }
}

/// The same, where the step isn't 0. ValueError where it is.
#[tactic(auto, using(py_data::proofs::Rows::row_steps), unfolding(crate::specs::Ranges::numbers_within))]
fn list_numbers<S, V: View<S>>(alloc: Global, v: &mut V, b: Bounds) -> Result<Got<Value>, Stop>
    requires live { IsLive V.sense v.old }
    requires safe { Safe V.sense.partial (ranges.numbers_within {S = S} b) (V.sense.heap v.old) }
    ensures { Meets V.sense (ranges.numbers_within b) v.old v.new result }
{
    if b.step == 0 {
        raise(alloc, VALUE_ERROR, b"step is zero")
    } else {
        make_numbers(alloc, v, b)
    }
}

/// `range`: a new list of numbers.
#[tactic(auto, using(py_data::proofs::Rows::row_steps), unfolding(crate::specs::Ranges::range_row))]
pub fn range<S, V: View<S>>(
    alloc: Global,
    v: &mut V,
    bounds: Option<Bounds>,
) -> Result<Got<Value>, Stop>
    requires live { IsLive V.sense v.old }
    requires safe { Safe V.sense.partial (ranges.range_row {S = S} bounds) (V.sense.heap v.old) }
    ensures { Meets V.sense (ranges.range_row bounds) v.old v.new result }
{
    match bounds {
        Some(b) => list_numbers(alloc, v, b),
        None => wrong_arguments(alloc),
    }
}

/// The three values of a range.
fn range_values(alloc: Global, b: Bounds) -> Result<Values, NoMemory>
    ensures { IfOk result (λ vs. vs ≡ ranges.range_values b) }
{
    Values::from_slice(
        alloc,
        &[Value::Int(b.start), Value::Int(b.stop), Value::Int(b.step)],
    )
}

/// A new range. OverflowError where 63 bits don't count its numbers.
#[tactic(auto, using(py_data::proofs::Rows::row_steps), unfolding(crate::specs::Ranges::range_made))]
fn make_range<S, V: View<S>>(alloc: Global, v: &mut V, b: Bounds) -> Result<Got<Value>, Stop>
    requires live { IsLive V.sense v.old }
    requires some { b.step ≢ pos 0 }
    requires safe { Safe V.sense.partial (ranges.range_made {S = S} b) (V.sense.heap v.old) }
    ensures { Meets V.sense (ranges.range_made b) v.old v.new result }
{
    if is_counted(count_in(b)) {
        let values = range_values(alloc, b)?;
        make_items(alloc, v, Kind::Range, values)
    } else {
        raise(alloc, OVERFLOW_ERROR, b"integer overflow")
    }
}

/// The same, where the step isn't 0. ValueError where it is.
#[tactic(auto, using(py_data::proofs::Rows::row_steps), unfolding(crate::specs::Ranges::range_within))]
fn stepped_range<S, V: View<S>>(alloc: Global, v: &mut V, b: Bounds) -> Result<Got<Value>, Stop>
    requires live { IsLive V.sense v.old }
    requires safe { Safe V.sense.partial (ranges.range_within {S = S} b) (V.sense.heap v.old) }
    ensures { Meets V.sense (ranges.range_within b) v.old v.new result }
{
    if b.step == 0 {
        raise(alloc, VALUE_ERROR, b"step is zero")
    } else {
        make_range(alloc, v, b)
    }
}

/// `xrange`: a new range.
#[tactic(auto, using(py_data::proofs::Rows::row_steps), unfolding(crate::specs::Ranges::xrange_row))]
pub fn xrange<S, V: View<S>>(
    alloc: Global,
    v: &mut V,
    bounds: Option<Bounds>,
) -> Result<Got<Value>, Stop>
    requires live { IsLive V.sense v.old }
    requires safe { Safe V.sense.partial (ranges.xrange_row {S = S} bounds) (V.sense.heap v.old) }
    ensures { Meets V.sense (ranges.xrange_row bounds) v.old v.new result }
{
    match bounds {
        Some(b) => stepped_range(alloc, v, b),
        None => wrong_arguments(alloc),
    }
}
