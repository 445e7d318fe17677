//! Whether a value is true.
ghost use Rattle.std.specs.Prelude.{◌≡◌, [], ◌∷◌, nat_lt};
ghost use Rattle.py_data.specs.Range.{range_length};
ghost use Rattle.py_data.specs.Sense.{Meets, Safe, IsLive};
ghost use Rattle.py_data.specs.Truth.{has_item};
ghost use Rattle.obj_nest.specs.Truth.{bytes_filled, filled_by, filled_row, plain_truth, range_filled, step_with, stop_with, truth_row, values_filled};

use py_data::{Addr, Kind, Stop, Value, View, kind, look};

/// Whether a value that isn't a reference is true.
fn is_true(x: Value) -> bool
    ensures { result ≡ plain_truth x }
{
    match x {
        Value::Bool(b) => b,
        Value::Int(i) => i != 0,
        Value::Builtin(_) => true,
        _ => false,
    }
}

/// Whether a range has an item.
#[tactic(auto)]
fn goes_on(start: i64, stop: i64, step: i64) -> bool
    ensures { result ≡ nat_lt 0 (range_length start stop step) }
{
    if step < 0 { stop < start } else { start < stop }
}

/// Whether a range of these three values has an item.
fn has_item(start: Value, stop: Value, step: Value) -> bool
    ensures { result ≡ has_item (start ∷ stop ∷ step ∷ []) }
{
    match (start, stop, step) {
        (Value::Int(i), Value::Int(j), Value::Int(k)) => goes_on(i, j, k),
        _ => false,
    }
}

/// Whether a string has a byte.
#[tactic(auto, using(py_data::proofs::Rows::row_steps, py_data::proofs::Steps::call_steps), unfolding(crate::specs::Truth::bytes_filled))]
fn bytes_filled<S, V: View<S>>(v: &mut V, a: Addr) -> Result<bool, Stop>
    requires live { IsLive V.sense v.old }
    requires safe { Safe V.sense.partial (bytes_filled {S = S} a.0) (V.sense.heap v.old) }
    ensures { Meets V.sense (bytes_filled a.0) v.old v.new result }
{
    let n = v.byte_len(a)?;
    Ok(n > 0)
}

/// Whether a container has a part.
#[tactic(auto, using(py_data::proofs::Rows::row_steps, py_data::proofs::Steps::call_steps), unfolding(crate::specs::Truth::values_filled))]
fn values_filled<S, V: View<S>>(v: &mut V, a: Addr) -> Result<bool, Stop>
    requires live { IsLive V.sense v.old }
    requires safe { Safe V.sense.partial (values_filled {S = S} a.0) (V.sense.heap v.old) }
    ensures { Meets V.sense (values_filled a.0) v.old v.new result }
{
    let n = v.len(a)?;
    Ok(n > 0)
}

/// Whether a range of this start and stop has an item.
#[tactic(auto, using(py_data::proofs::Rows::row_steps, py_data::proofs::Steps::call_steps), unfolding(crate::specs::Truth::step_with))]
fn step_with<S, V: View<S>>(v: &mut V, a: Addr, start: Value, stop: Value) -> Result<bool, Stop>
    requires live { IsLive V.sense v.old }
    requires safe { Safe V.sense.partial (step_with {S = S} a.0 start stop) (V.sense.heap v.old) }
    ensures { Meets V.sense (step_with a.0 start stop) v.old v.new result }
{
    let step = look(v, a, 2)?;
    Ok(has_item(start, stop, step))
}

/// Whether a range of this start has an item.
#[tactic(auto, using(py_data::proofs::Rows::row_steps, py_data::proofs::Steps::call_steps), unfolding(crate::specs::Truth::stop_with))]
fn stop_with<S, V: View<S>>(v: &mut V, a: Addr, start: Value) -> Result<bool, Stop>
    requires live { IsLive V.sense v.old }
    requires safe { Safe V.sense.partial (stop_with {S = S} a.0 start) (V.sense.heap v.old) }
    ensures { Meets V.sense (stop_with a.0 start) v.old v.new result }
{
    let stop = look(v, a, 1)?;
    step_with(v, a, start, stop)
}

/// Whether a range has an item.
#[tactic(auto, using(py_data::proofs::Rows::row_steps, py_data::proofs::Steps::call_steps), unfolding(crate::specs::Truth::range_filled))]
fn range_filled<S, V: View<S>>(v: &mut V, a: Addr) -> Result<bool, Stop>
    requires live { IsLive V.sense v.old }
    requires safe { Safe V.sense.partial (range_filled {S = S} a.0) (V.sense.heap v.old) }
    ensures { Meets V.sense (range_filled a.0) v.old v.new result }
{
    let start = look(v, a, 0)?;
    stop_with(v, a, start)
}

/// Whether a record of this kind is true.
#[tactic(auto, using(py_data::proofs::Rows::row_steps, py_data::proofs::Steps::call_steps), unfolding(crate::specs::Truth::filled_by))]
fn filled_by<S, V: View<S>>(v: &mut V, a: Addr, k: Kind) -> Result<bool, Stop>
    requires live { IsLive V.sense v.old }
    requires safe { Safe V.sense.partial (filled_by {S = S} a.0 k) (V.sense.heap v.old) }
    ensures { Meets V.sense (filled_by a.0 k) v.old v.new result }
{
    match k {
        Kind::Str => bytes_filled(v, a),
        Kind::Tuple | Kind::List | Kind::Dict => values_filled(v, a),
        Kind::Range => range_filled(v, a),
        _ => Ok(true),
    }
}

/// Whether a record is true.
#[tactic(auto, using(py_data::proofs::Rows::row_steps, py_data::proofs::Steps::call_steps), unfolding(crate::specs::Truth::filled_row))]
fn filled<S, V: View<S>>(v: &mut V, a: Addr) -> Result<bool, Stop>
    requires live { IsLive V.sense v.old }
    requires safe { Safe V.sense.partial (filled_row {S = S} a.0) (V.sense.heap v.old) }
    ensures { Meets V.sense (filled_row a.0) v.old v.new result }
{
    let k = kind(v, a)?;
    filled_by(v, a, k)
}

/// Whether a value is true. None, False, 0, and strings, tuples, lists, dictionaries and ranges that are empty are
/// false; all else is true. Python 2.7 lets a class decide by `__nonzero__` and `__len__`.
#[tactic(auto, using(py_data::proofs::Rows::row_steps, py_data::proofs::Steps::call_steps), unfolding(crate::specs::Truth::truth_row))]
pub fn truth<S, V: View<S>>(v: &mut V, x: Value) -> Result<bool, Stop>
    requires live { IsLive V.sense v.old }
    requires safe { Safe V.sense.partial (truth_row {S = S} x) (V.sense.heap v.old) }
    ensures { Meets V.sense (truth_row x) v.old v.new result }
{
    match x {
        Value::Ref(a) => filled(v, a),
        _ => Ok(is_true(x)),
    }
}
