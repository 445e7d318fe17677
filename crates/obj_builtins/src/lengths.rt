//! How long a value is.
ghost use Rattle.std.specs.Prelude.{◌≡◌, ◌≤◌, IfOk, MatchResult};
ghost use Rattle.obj_builtins.specs.Lengths as lengths;
ghost use Rattle.py_data.specs.Sense.{Meets, Safe, IsLive};
ghost use Rattle.py_data.specs.declared.record.TheConstants.{LENGTH_LIMIT};
ghost use Rattle.py_data.specs.declared.stop.Stop.TheVariants.{OutOfMemory};

use obj_seq::range_length;
use obj_str::wrong_arguments;
use py_data::{Addr, Got, Kind, Stop, Value, View, kind, look, size};
use std::alloc::Global;

/// Whether 63 bits hold a count.
pub fn is_counted(n: u64) -> bool
    ensures { result ≡ lengths.is_counted n }
{
    n <= 9_223_372_036_854_775_807
}

/// How many numbers a range has; none, where its step is 0 or they are more than 63 bits count.
fn number_count(start: i64, stop: i64, step: i64) -> Option<i64>
    ensures { result ≡ lengths.number_count start stop step }
{
    if step == 0 {
        return None;
    }
    let n = range_length(start, stop, step);
    if is_counted(n) { Some(n as i64) } else { None }
}

/// How many numbers the range of these three values has.
fn range_count(start: Value, stop: Value, step: Value) -> Option<i64>
    ensures { result ≡ lengths.range_count start stop step }
{
    match (start, stop, step) {
        (Value::Int(i), Value::Int(j), Value::Int(k)) => number_count(i, j, k),
        _ => None,
    }
}

/// A count as a value.
fn counted(alloc: Global, n: Option<i64>) -> Result<Got<Value>, Stop>
    ensures { MatchResult result (λ g. g ≡ lengths.counted n) (λ e. e ≡ OutOfMemory) }
{
    match n {
        Some(n) => Ok(Got::Is(Value::Int(n))),
        None => wrong_arguments(alloc),
    }
}

/// How many numbers the range of these three values has, as a value.
fn counted_range(alloc: Global, start: Value, stop: Value, step: Value) -> Result<Got<Value>, Stop>
    ensures { MatchResult result (λ g. g ≡ lengths.counted (lengths.range_count start stop step))
        (λ e. e ≡ OutOfMemory) }
{
    counted(alloc, range_count(start, stop, step))
}

/// How many numbers a range of this start and stop has.
#[tactic(auto, using(py_data::proofs::Rows::row_steps, py_data::proofs::Steps::call_steps), unfolding(crate::specs::Lengths::step_count))]
fn step_count<S, V: View<S>>(
    alloc: Global,
    v: &mut V,
    a: Addr,
    start: Value,
    stop: Value,
) -> Result<Got<Value>, Stop>
    requires live { IsLive V.sense v.old }
    requires safe { Safe V.sense.partial (lengths.step_count {S = S} a.0 start stop) (V.sense.heap v.old) }
    ensures { Meets V.sense (lengths.step_count a.0 start stop) v.old v.new result }
{
    let step = look(v, a, 2)?;
    counted_range(alloc, start, stop, step)
}

/// How many numbers a range of this start has.
#[tactic(auto, using(py_data::proofs::Rows::row_steps, py_data::proofs::Steps::call_steps), unfolding(crate::specs::Lengths::stop_count))]
fn stop_count<S, V: View<S>>(
    alloc: Global,
    v: &mut V,
    a: Addr,
    start: Value,
) -> Result<Got<Value>, Stop>
    requires live { IsLive V.sense v.old }
    requires safe { Safe V.sense.partial (lengths.stop_count {S = S} a.0 start) (V.sense.heap v.old) }
    ensures { Meets V.sense (lengths.stop_count a.0 start) v.old v.new result }
{
    let stop = look(v, a, 1)?;
    step_count(alloc, v, a, start, stop)
}

/// How many numbers a range has.
#[tactic(auto, using(py_data::proofs::Rows::row_steps, py_data::proofs::Steps::call_steps), unfolding(crate::specs::Lengths::numbers_length))]
fn numbers_length<S, V: View<S>>(alloc: Global, v: &mut V, a: Addr) -> Result<Got<Value>, Stop>
    requires live { IsLive V.sense v.old }
    requires safe { Safe V.sense.partial (lengths.numbers_length {S = S} a.0) (V.sense.heap v.old) }
    ensures { Meets V.sense (lengths.numbers_length a.0) v.old v.new result }
{
    let start = look(v, a, 0)?;
    stop_count(alloc, v, a, start)
}

/// How many bytes a record has.
#[tactic(auto, using(py_data::proofs::Rows::row_steps), unfolding(crate::specs::Lengths::byte_count))]
fn byte_count<S, V: View<S>>(v: &mut V, a: Addr) -> Result<usize, Stop>
    requires live { IsLive V.sense v.old }
    requires safe { Safe V.sense.partial (lengths.byte_count {S = S} a.0) (V.sense.heap v.old) }
    ensures met { Meets V.sense (lengths.byte_count a.0) v.old v.new result }
    ensures fits { IfOk result (λ n. n ≤ LENGTH_LIMIT) }
{
    v.byte_len(a)
}

/// How many bytes a string has.
#[tactic(auto, using(py_data::proofs::Rows::row_steps, py_data::proofs::Steps::call_steps), unfolding(crate::specs::Lengths::bytes_length))]
fn bytes_length<S, V: View<S>>(v: &mut V, a: Addr) -> Result<Got<Value>, Stop>
    requires live { IsLive V.sense v.old }
    requires safe { Safe V.sense.partial (lengths.bytes_length {S = S} a.0) (V.sense.heap v.old) }
    ensures { Meets V.sense (lengths.bytes_length a.0) v.old v.new result }
{
    let n = byte_count(v, a)?;
    Ok(Got::Is(Value::Int(n as i64)))
}

/// How many items a tuple or a list has.
#[tactic(auto, using(py_data::proofs::Rows::row_steps, py_data::proofs::Steps::call_steps), unfolding(crate::specs::Lengths::items_length))]
fn items_length<S, V: View<S>>(v: &mut V, a: Addr) -> Result<Got<Value>, Stop>
    requires live { IsLive V.sense v.old }
    requires safe { Safe V.sense.partial (lengths.items_length {S = S} a.0) (V.sense.heap v.old) }
    ensures { Meets V.sense (lengths.items_length a.0) v.old v.new result }
{
    let n = size(v, a)?;
    Ok(Got::Is(Value::Int(n as i64)))
}

/// How many pairs a dictionary has.
#[tactic(auto, using(py_data::proofs::Rows::row_steps, py_data::proofs::Steps::call_steps), unfolding(crate::specs::Lengths::pairs_length))]
fn pairs_length<S, V: View<S>>(v: &mut V, a: Addr) -> Result<Got<Value>, Stop>
    requires live { IsLive V.sense v.old }
    requires safe { Safe V.sense.partial (lengths.pairs_length {S = S} a.0) (V.sense.heap v.old) }
    ensures { Meets V.sense (lengths.pairs_length a.0) v.old v.new result }
{
    let n = size(v, a)?;
    Ok(Got::Is(Value::Int((n / 2) as i64)))
}

/// How long a record of this kind is.
#[tactic(auto, using(py_data::proofs::Rows::row_steps, py_data::proofs::Steps::call_steps), unfolding(crate::specs::Lengths::length_by))]
fn length_by<S, V: View<S>>(alloc: Global, v: &mut V, a: Addr, k: Kind) -> Result<Got<Value>, Stop>
    requires live { IsLive V.sense v.old }
    requires safe { Safe V.sense.partial (lengths.length_by {S = S} a.0 k) (V.sense.heap v.old) }
    ensures { Meets V.sense (lengths.length_by a.0 k) v.old v.new result }
{
    match k {
        Kind::Str => bytes_length(v, a),
        Kind::Tuple | Kind::List => items_length(v, a),
        Kind::Dict => pairs_length(v, a),
        Kind::Range => numbers_length(alloc, v, a),
        _ => wrong_arguments(alloc),
    }
}

/// How long a record is.
#[tactic(auto, using(py_data::proofs::Rows::row_steps, py_data::proofs::Steps::call_steps), unfolding(crate::specs::Lengths::length_at))]
fn length_at<S, V: View<S>>(alloc: Global, v: &mut V, a: Addr) -> Result<Got<Value>, Stop>
    requires live { IsLive V.sense v.old }
    requires safe { Safe V.sense.partial (lengths.length_at {S = S} a.0) (V.sense.heap v.old) }
    ensures { Meets V.sense (lengths.length_at a.0) v.old v.new result }
{
    let k = kind(v, a)?;
    length_by(alloc, v, a, k)
}

/// How long a value is.
#[tactic(auto, using(py_data::proofs::Rows::row_steps), unfolding(crate::specs::Lengths::length_row))]
fn length<S, V: View<S>>(alloc: Global, v: &mut V, x: Value) -> Result<Got<Value>, Stop>
    requires live { IsLive V.sense v.old }
    requires safe { Safe V.sense.partial (lengths.length_row {S = S} x) (V.sense.heap v.old) }
    ensures { Meets V.sense (lengths.length_row x) v.old v.new result }
{
    match x {
        Value::Ref(a) => length_at(alloc, v, a),
        _ => wrong_arguments(alloc),
    }
}

/// `len`: the bytes of a string, the items of a tuple or list, the pairs of a dictionary, the numbers of a range.
#[tactic(auto, using(py_data::proofs::Rows::row_steps), unfolding(crate::specs::Lengths::len_row))]
pub fn len<S, V: View<S>>(alloc: Global, v: &mut V, x: Option<Value>) -> Result<Got<Value>, Stop>
    requires live { IsLive V.sense v.old }
    requires safe { Safe V.sense.partial (lengths.len_row {S = S} x) (V.sense.heap v.old) }
    ensures { Meets V.sense (lengths.len_row x) v.old v.new result }
{
    match x {
        Some(x) => length(alloc, v, x),
        None => wrong_arguments(alloc),
    }
}
