//! The pair of a key.
ghost use Rattle.std.specs.Prelude.{◌≡◌};
ghost use Rattle.py_data.specs.Sense.{Meets, Safe, IsLive};
ghost use Rattle.py_data.specs.Shape.{is_key_kind};
ghost use Rattle.py_data.specs.Row.{Do, Find, Read};
ghost use Rattle.obj_dict.specs.Dict.{key_row, get_row, set_row, del_row, value_of_pair, push_at, set_pair, drop_found};

use py_data::exception::{KEY_ERROR, MEMORY_ERROR, TYPE_ERROR, raise};
use py_data::{Addr, Fault, Got, Kind, LENGTH_LIMIT, Stop, Value, View, With};
use std::alloc::Global;

/// Whether a record of that kind can be a key.
fn is_key_kind(kind: Kind) -> bool
    ensures { result ≡ is_key_kind kind }
{
    matches!(
        kind,
        Kind::Str | Kind::Function | Kind::Class | Kind::Instance
    )
}

/// Whether a value can be a key.
#[tactic(auto, using(py_data::proofs::Rows::row_steps), unfolding(crate::specs::Dict::key_row))]
fn is_key<S, V: View<S>>(v: &mut V, key: Value) -> Result<bool, Stop>
    requires live { IsLive V.sense v.old }
    requires safe { Safe V.sense.partial (key_row {S = S} key) (V.sense.heap v.old) }
    ensures { Meets V.sense (key_row key) v.old v.new result }
{
    match key {
        Value::Ref(a) => Ok(is_key_kind(v.kind(a)?)),
        Value::Unset => Ok(false),
        _ => Ok(true),
    }
}

/// The value of the pair that has a key, if there is one.
#[tactic(auto, using(py_data::proofs::Rows::row_steps), unfolding(crate::specs::Dict::value_of_pair))]
fn found_value<S, V: View<S>>(v: &mut V, d: Addr, key: Value) -> Result<Got<Option<Value>>, Stop>
    requires live { IsLive V.sense v.old }
    requires safe { Safe V.sense.partial (Do (Find d.0 key) (value_of_pair {S = S} d.0)) (V.sense.heap v.old) }
    ensures { Meets V.sense (Do (Find d.0 key) (value_of_pair d.0)) v.old v.new result }
{
    match v.find_key(d, key)? {
        Some(i) => Ok(Got::Is(Some(v.val(d, 2 * i + 1)?))),
        None => Ok(Got::Is(None)),
    }
}

/// The value that a dictionary has for a key, or none. TypeError for a value that can't be a key.
#[tactic(auto, using(py_data::proofs::Rows::row_steps, py_data::proofs::Steps::call_steps), unfolding(crate::specs::Dict::get_row, crate::specs::Dict::if_key))]
pub fn get<S, V: View<S>>(
    alloc: Global,
    v: &mut V,
    d: Addr,
    key: Value,
) -> Result<Got<Option<Value>>, Stop>
    requires live { IsLive V.sense v.old }
    requires safe { Safe V.sense.partial (get_row {S = S} d.0 key) (V.sense.heap v.old) }
    ensures { Meets V.sense (get_row d.0 key) v.old v.new result }
{
    if is_key(v, key)? {
        found_value(v, d, key)
    } else {
        raise(alloc, TYPE_ERROR, b"unhashable")
    }
}

/// Adds a pair with a key that isn't there.
#[tactic(auto, using(py_data::proofs::Rows::change_steps))]
fn push_new<S, V: View<S>>(v: &mut V, d: Addr, key: Value, x: Value) -> Result<Got<()>, Stop>
    requires live { IsLive V.sense v.old }
    requires safe { Safe V.sense.partial (Do (Read d.0) (push_at {S = S} d.0 key x)) (V.sense.heap v.old) }
    ensures { Meets V.sense (Do (Read d.0) (push_at d.0 key x)) v.old v.new result }
{
    let n = v.len(d)?;
    if n + 1 < LENGTH_LIMIT {
        v.push_pair(d, key, x)?;
        Ok(Got::Is(()))
    } else {
        Ok(Got::Raise(Fault {
            exc: MEMORY_ERROR,
            with: With::Nothing,
        }))
    }
}

/// Sets the value of the pair that has a key, or adds one at the end.
#[tactic(auto, using(py_data::proofs::Rows::change_steps), unfolding(crate::specs::Dict::set_pair))]
fn set_found<S, V: View<S>>(v: &mut V, d: Addr, key: Value, x: Value) -> Result<Got<()>, Stop>
    requires live { IsLive V.sense v.old }
    requires safe { Safe V.sense.partial (Do (Find d.0 key) (set_pair {S = S} d.0 key x)) (V.sense.heap v.old) }
    ensures { Meets V.sense (Do (Find d.0 key) (set_pair d.0 key x)) v.old v.new result }
{
    match v.find_key(d, key)? {
        Some(i) => {
            v.set_val(d, 2 * i + 1, x)?;
            Ok(Got::Is(()))
        }
        None => push_new(v, d, key, x),
    }
}

/// Sets the value of a key. A key that is there keeps its place and stays as it was first written; another goes to the
/// end. TypeError for a value that can't be a key, MemoryError for a dictionary of 524,288 pairs.
#[tactic(auto, using(py_data::proofs::Rows::row_steps, py_data::proofs::Steps::call_steps), unfolding(crate::specs::Dict::set_row, crate::specs::Dict::if_key))]
pub fn set<S, V: View<S>>(
    alloc: Global,
    v: &mut V,
    d: Addr,
    key: Value,
    x: Value,
) -> Result<Got<()>, Stop>
    requires live { IsLive V.sense v.old }
    requires safe { Safe V.sense.partial (set_row {S = S} d.0 key x) (V.sense.heap v.old) }
    ensures { Meets V.sense (set_row d.0 key x) v.old v.new result }
{
    if is_key(v, key)? {
        set_found(v, d, key, x)
    } else {
        raise(alloc, TYPE_ERROR, b"unhashable")
    }
}

/// Takes out the pair that has a key.
#[tactic(auto, using(py_data::proofs::Rows::change_steps), unfolding(crate::specs::Dict::drop_found))]
fn drop_found<S, V: View<S>>(v: &mut V, d: Addr, key: Value) -> Result<Got<Value>, Stop>
    requires live { IsLive V.sense v.old }
    requires safe { Safe V.sense.partial (Do (Find d.0 key) (drop_found {S = S} d.0 key)) (V.sense.heap v.old) }
    ensures { Meets V.sense (Do (Find d.0 key) (drop_found d.0 key)) v.old v.new result }
{
    match v.find_key(d, key)? {
        Some(i) => {
            let x = v.val(d, 2 * i + 1)?;
            v.drop_pair(d, i)?;
            Ok(Got::Is(x))
        }
        None => Ok(Got::Raise(Fault {
            exc: KEY_ERROR,
            with: With::Held(key),
        })),
    }
}

/// Takes out the pair of a key, and answers its value; the pairs behind it close the gap. KeyError with the key where
/// it isn't there, TypeError for a value that can't be a key.
#[tactic(auto, using(py_data::proofs::Rows::row_steps, py_data::proofs::Steps::call_steps), unfolding(crate::specs::Dict::del_row, crate::specs::Dict::if_key))]
pub fn del<S, V: View<S>>(alloc: Global, v: &mut V, d: Addr, key: Value) -> Result<Got<Value>, Stop>
    requires live { IsLive V.sense v.old }
    requires safe { Safe V.sense.partial (del_row {S = S} d.0 key) (V.sense.heap v.old) }
    ensures { Meets V.sense (del_row d.0 key) v.old v.new result }
{
    if is_key(v, key)? {
        drop_found(v, d, key)
    } else {
        raise(alloc, TYPE_ERROR, b"unhashable")
    }
}
