//! Changes of the attributes that an instance or a class has itself.
ghost use Rattle.std.specs.Prelude.{◌≡◌};
ghost use Rattle.py_data.specs.declared.value.Value.TheVariants.{Ref};
ghost use Rattle.py_data.specs.Sense.{Meets, Safe, IsLive};
ghost use Rattle.obj_class.specs.Attributes.{address_in};
ghost use Rattle.obj_class.specs.AttrRows.{del_attr_row, del_in, dict_at, dict_by, dict_row, gone_row, set_attr_row, set_in, taken_row};

use crate::attributes::missing;
use py_data::{Addr, Got, Kind, Stop, Value, View, kind, look};
use std::alloc::Global;

/// The address in a value, if it is one.
fn address_in(x: Value) -> Option<Addr>
    ensures { result ≡ address_in x }
{
    match x {
        Value::Ref(a) => Some(a),
        _ => None,
    }
}

/// The dictionary at a place of a record.
#[tactic(auto, using(py_data::proofs::Rows::row_steps, py_data::proofs::Steps::call_steps), unfolding(crate::specs::AttrRows::dict_at))]
fn dict_at<S, V: View<S>>(v: &mut V, a: Addr, i: usize) -> Result<Option<Addr>, Stop>
    requires live { IsLive V.sense v.old }
    requires safe { Safe V.sense.partial (dict_at {S = S} a.0 i) (V.sense.heap v.old) }
    ensures { Meets V.sense (dict_at a.0 i) v.old v.new result }
{
    let d = look(v, a, i)?;
    Ok(address_in(d))
}

/// The dictionary of the attributes that a record of a kind has itself.
#[tactic(auto, using(py_data::proofs::Rows::row_steps), unfolding(crate::specs::AttrRows::dict_by))]
fn dict_by<S, V: View<S>>(v: &mut V, a: Addr, kind: Kind) -> Result<Option<Addr>, Stop>
    requires live { IsLive V.sense v.old }
    requires safe { Safe V.sense.partial (dict_by {S = S} a.0 kind) (V.sense.heap v.old) }
    ensures { Meets V.sense (dict_by a.0 kind) v.old v.new result }
{
    match kind {
        Kind::Instance => dict_at(v, a, 1),
        Kind::Class => dict_at(v, a, 2),
        _ => Ok(None),
    }
}

/// The dictionary of the attributes that a record has itself.
#[tactic(auto, using(py_data::proofs::Rows::row_steps, py_data::proofs::Steps::call_steps), unfolding(crate::specs::AttrRows::dict_row))]
fn dict_of_record<S, V: View<S>>(v: &mut V, a: Addr) -> Result<Option<Addr>, Stop>
    requires live { IsLive V.sense v.old }
    requires safe { Safe V.sense.partial (dict_row {S = S} (Ref a)) (V.sense.heap v.old) }
    ensures { Meets V.sense (dict_row (Ref a)) v.old v.new result }
{
    let kind = kind(v, a)?;
    dict_by(v, a, kind)
}

/// The dictionary of the attributes that a value has itself, if it is an instance or a class.
#[tactic(auto, using(py_data::proofs::Rows::row_steps), unfolding(crate::specs::AttrRows::dict_row))]
fn dict_of<S, V: View<S>>(v: &mut V, x: Value) -> Result<Option<Addr>, Stop>
    requires live { IsLive V.sense v.old }
    requires safe { Safe V.sense.partial (dict_row {S = S} x) (V.sense.heap v.old) }
    ensures { Meets V.sense (dict_row x) v.old v.new result }
{
    match x {
        Value::Ref(a) => dict_of_record(v, a),
        _ => Ok(None),
    }
}

/// Sets an attribute in a dictionary, if there is one.
#[tactic(auto, using(py_data::proofs::Rows::row_steps), unfolding(crate::specs::AttrRows::set_in))]
fn set_in<S, V: View<S>>(
    alloc: Global,
    v: &mut V,
    name: Addr,
    y: Value,
    dict: Option<Addr>,
) -> Result<Got<()>, Stop>
    requires live { IsLive V.sense v.old }
    requires safe { Safe V.sense.partial (set_in {S = S} name.0 y dict) (V.sense.heap v.old) }
    ensures { Meets V.sense (set_in name.0 y dict) v.old v.new result }
{
    match dict {
        Some(d) => obj_dict::set(alloc, v, d, Value::Ref(name), y),
        None => missing(alloc, v, name),
    }
}

/// Sets an attribute of an instance or a class, among those that it has itself. AttributeError for any other value;
/// MemoryError where it has 524,288 of them. Python 2.7 has further objects that take attributes, as functions and
/// modules.
#[tactic(auto, using(py_data::proofs::Rows::row_steps, py_data::proofs::Steps::call_steps), unfolding(crate::specs::AttrRows::set_attr_row))]
pub fn set_attr<S, V: View<S>>(
    alloc: Global,
    v: &mut V,
    x: Value,
    name: Addr,
    y: Value,
) -> Result<Got<()>, Stop>
    requires live { IsLive V.sense v.old }
    requires safe { Safe V.sense.partial (set_attr_row {S = S} x name.0 y) (V.sense.heap v.old) }
    ensures { Meets V.sense (set_attr_row x name.0 y) v.old v.new result }
{
    let dict = dict_of(v, x)?;
    set_in(alloc, v, name, y, dict)
}

/// The answer once a name was taken out, or wasn't there.
#[tactic(auto, using(py_data::proofs::Rows::row_steps), unfolding(crate::specs::AttrRows::gone_row))]
fn gone<S, V: View<S>>(
    alloc: Global,
    v: &mut V,
    name: Addr,
    taken: Got<Value>,
) -> Result<Got<()>, Stop>
    requires live { IsLive V.sense v.old }
    requires safe { Safe V.sense.partial (gone_row {S = S} name.0 taken) (V.sense.heap v.old) }
    ensures { Meets V.sense (gone_row name.0 taken) v.old v.new result }
{
    match taken {
        Got::Is(_) => Ok(Got::Is(())),
        Got::Raise(_) => missing(alloc, v, name),
    }
}

/// Takes an attribute out of a dictionary.
#[tactic(auto, using(py_data::proofs::Rows::row_steps, py_data::proofs::Steps::call_steps), unfolding(crate::specs::AttrRows::taken_row))]
fn taken<S, V: View<S>>(alloc: Global, v: &mut V, name: Addr, d: Addr) -> Result<Got<()>, Stop>
    requires live { IsLive V.sense v.old }
    requires safe { Safe V.sense.partial (taken_row {S = S} name.0 d.0) (V.sense.heap v.old) }
    ensures { Meets V.sense (taken_row name.0 d.0) v.old v.new result }
{
    let taken = obj_dict::del(alloc, v, d, Value::Ref(name))?;
    gone(alloc, v, name, taken)
}

/// Takes an attribute out of a dictionary, if there is one.
#[tactic(auto, using(py_data::proofs::Rows::row_steps), unfolding(crate::specs::AttrRows::del_in))]
fn del_in<S, V: View<S>>(
    alloc: Global,
    v: &mut V,
    name: Addr,
    dict: Option<Addr>,
) -> Result<Got<()>, Stop>
    requires live { IsLive V.sense v.old }
    requires safe { Safe V.sense.partial (del_in {S = S} name.0 dict) (V.sense.heap v.old) }
    ensures { Meets V.sense (del_in name.0 dict) v.old v.new result }
{
    match dict {
        Some(d) => taken(alloc, v, name, d),
        None => missing(alloc, v, name),
    }
}

/// Takes out an attribute of an instance or a class, of those that it has itself. AttributeError where it has none of
/// that name, also where its class or a base has one, and for any other value.
#[tactic(auto, using(py_data::proofs::Rows::row_steps, py_data::proofs::Steps::call_steps), unfolding(crate::specs::AttrRows::del_attr_row))]
pub fn del_attr<S, V: View<S>>(
    alloc: Global,
    v: &mut V,
    x: Value,
    name: Addr,
) -> Result<Got<()>, Stop>
    requires live { IsLive V.sense v.old }
    requires safe { Safe V.sense.partial (del_attr_row {S = S} x name.0) (V.sense.heap v.old) }
    ensures { Meets V.sense (del_attr_row x name.0) v.old v.new result }
{
    let dict = dict_of(v, x)?;
    del_in(alloc, v, name, dict)
}
