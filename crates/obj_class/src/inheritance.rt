//! What the dictionaries of classes have for a key.
ghost use Rattle.py_data.specs.Sense.{Meets, Safe, IsLive};
ghost use Rattle.obj_class.specs.AttrRows.{class_step, heir_step, held_row, inherited_row, kept_row, next_class, own_row};

use crate::bases::MOST_BASES;
use py_data::{Addr, Stop, Value, View, look};

/// What a dictionary has for a key that is a string.
#[tactic(auto, using(py_data::proofs::Rows::row_steps), unfolding(crate::specs::AttrRows::held_row, crate::specs::AttrRows::pair_row))]
pub fn held<S, V: View<S>>(v: &mut V, d: Addr, key: Value) -> Result<Option<Value>, Stop>
    requires live { IsLive V.sense v.old }
    requires safe { Safe V.sense.partial (held_row {S = S} d.0 key) (V.sense.heap v.old) }
    ensures { Meets V.sense (held_row d.0 key) v.old v.new result }
{
    match v.find_key(d, key)? {
        Some(i) => Ok(Some(v.val(d, 2 * i + 1)?)),
        None => Ok(None),
    }
}

/// The same of the dictionary that a value is the address of.
#[tactic(auto, using(py_data::proofs::Rows::row_steps), unfolding(crate::specs::AttrRows::kept_row))]
fn kept<S, V: View<S>>(v: &mut V, dict: Value, key: Value) -> Result<Option<Value>, Stop>
    requires live { IsLive V.sense v.old }
    requires safe { Safe V.sense.partial (kept_row {S = S} dict key) (V.sense.heap v.old) }
    ensures { Meets V.sense (kept_row dict key) v.old v.new result }
{
    match dict {
        Value::Ref(d) => held(v, d, key),
        _ => Ok(None),
    }
}

/// What the dictionary at a place of a record has for a key.
#[tactic(auto, using(py_data::proofs::Rows::row_steps, py_data::proofs::Steps::call_steps), unfolding(crate::specs::AttrRows::own_row))]
pub fn own<S, V: View<S>>(v: &mut V, a: Addr, i: usize, key: Value) -> Result<Option<Value>, Stop>
    requires live { IsLive V.sense v.old }
    requires safe { Safe V.sense.partial (own_row {S = S} a.0 i key) (V.sense.heap v.old) }
    ensures { Meets V.sense (own_row a.0 i key) v.old v.new result }
{
    let dict = look(v, a, i)?;
    kept(v, dict, key)
}

/// What a class has, or else its base.
#[tactic(auto, using(py_data::proofs::Rows::row_steps, py_data::proofs::Steps::call_steps), unfolding(crate::specs::AttrRows::next_class))]
fn next_class<S, V: View<S>>(
    v: &mut V,
    c: Addr,
    found: Option<Value>,
) -> Result<Result<Value, Option<Value>>, Stop>
    requires live { IsLive V.sense v.old }
    requires safe { Safe V.sense.partial (next_class {S = S} c.0 found) (V.sense.heap v.old) }
    ensures { Meets V.sense (next_class c.0 found) v.old v.new result }
{
    match found {
        Some(x) => Ok(Err(Some(x))),
        None => {
            let base = look(v, c, 1)?;
            Ok(Ok(base))
        }
    }
}

/// One turn at a class: what it has for a key, or else its base.
#[tactic(auto, using(py_data::proofs::Rows::row_steps, py_data::proofs::Steps::call_steps), unfolding(crate::specs::AttrRows::class_step))]
fn class_step<S, V: View<S>>(
    v: &mut V,
    key: Value,
    c: Addr,
) -> Result<Result<Value, Option<Value>>, Stop>
    requires live { IsLive V.sense v.old }
    requires safe { Safe V.sense.partial (class_step {S = S} key c.0) (V.sense.heap v.old) }
    ensures { Meets V.sense (class_step key c.0) v.old v.new result }
{
    let found = own(v, c, 2, key)?;
    next_class(v, c, found)
}

/// One turn: where to go on, or the answer.
#[tactic(auto, using(py_data::proofs::Rows::row_steps), unfolding(crate::specs::AttrRows::heir_step))]
fn heir_step<S, V: View<S>>(
    v: &mut V,
    key: Value,
    at: Value,
) -> Result<Result<Value, Option<Value>>, Stop>
    requires live { IsLive V.sense v.old }
    requires safe { Safe V.sense.partial (heir_step {S = S} key at) (V.sense.heap v.old) }
    ensures { Meets V.sense (heir_step key at) v.old v.new result }
{
    match at {
        Value::Ref(c) => class_step(v, key, c),
        _ => Ok(Err(None)),
    }
}

/// What the nearest of a class and its bases has for a key, if one has it.
pub fn inherited<S, V: View<S>>(v: &mut V, key: Value, class: Value) -> Result<Option<Value>, Stop>
    requires live { IsLive V.sense v.old }
    requires safe { Safe V.sense.partial (inherited_row {S = S} key class) (V.sense.heap v.old) }
    ensures { Meets V.sense (inherited_row key class) v.old v.new result }
{
    let mut at = class;
    'turns: for _ in 0..MOST_BASES {
        let turn = heir_step(v, key, at)?;
        match turn {
            Ok(base) => at = base,
            Err(found) => return Ok(found),
        }
    }
    Ok(None)
}
