//! Attributes.
ghost use Rattle.py_data.specs.Sense.{Meets, Safe, IsLive};
ghost use Rattle.py_frames.specs.AttrInstrs.{del_attr_instr, dropped_attr, attr_or_method, found_method, load_attr_row, load_method_row, loaded_attr, loaded_method, method_or_attr, missing_method, store_attr_row, stored_attr};
ghost use Rattle.py_data.specs.declared.value.Value.TheVariants.{Ref};

use obj_class::{Found, attr, del_attr, find_attr, method_of, missing, set_attr};
use py_data::{Addr, Stop, Value, View, kind, look};
use py_frames::Next;
use py_parts::{done, give, place_in, push_two};
use std::alloc::Global;

/// Pushes an attribute of a value, by the address of its name.
#[tactic(auto, using(py_data::proofs::Rows::row_steps, py_data::proofs::Steps::call_steps), unfolding(py_frames::specs::AttrInstrs::loaded_attr))]
fn loaded_attr<S, V: View<S>>(
    alloc: Global,
    v: &mut V,
    roots: Addr,
    o: Value,
    name: Addr,
) -> Result<Next, Stop>
    requires live { IsLive V.sense v.old }
    requires safe { Safe V.sense.partial (loaded_attr {S = S} roots.0 o name.0) (V.sense.heap v.old) }
    ensures { Meets V.sense (loaded_attr roots.0 o name.0) v.old v.new result }
{
    let got = attr(alloc, v, roots, o, name)?;
    give(alloc, v, roots, got)
}

/// LOAD_ATTR, of the name that is the root of number `n`.
#[tactic(auto, using(py_data::proofs::Rows::row_steps, py_data::proofs::Steps::call_steps), unfolding(py_frames::specs::AttrInstrs::load_attr_row))]
pub fn load_attr_row<S, V: View<S>>(
    alloc: Global,
    v: &mut V,
    roots: Addr,
    n: u32,
    o: Value,
) -> Result<Next, Stop>
    requires live { IsLive V.sense v.old }
    requires safe { Safe V.sense.partial (load_attr_row {S = S} roots.0 n o) (V.sense.heap v.old) }
    ensures { Meets V.sense (load_attr_row roots.0 n o) v.old v.new result }
{
    let name = look(v, roots, n as usize)?;
    loaded_attr(alloc, v, roots, o, place_in(name))
}

/// Sets an attribute of a value, by the address of its name.
#[tactic(auto, using(py_data::proofs::Rows::row_steps, py_data::proofs::Steps::call_steps), unfolding(py_frames::specs::AttrInstrs::stored_attr))]
fn stored_attr<S, V: View<S>>(
    alloc: Global,
    v: &mut V,
    roots: Addr,
    x: Value,
    o: Value,
    name: Addr,
) -> Result<Next, Stop>
    requires live { IsLive V.sense v.old }
    requires safe { Safe V.sense.partial (stored_attr {S = S} roots.0 x o name.0) (V.sense.heap v.old) }
    ensures { Meets V.sense (stored_attr roots.0 x o name.0) v.old v.new result }
{
    let got = set_attr(alloc, v, o, name, x)?;
    done(alloc, v, roots, got)
}

/// STORE_ATTR, of the name that is the root of number `n`.
#[tactic(auto, using(py_data::proofs::Rows::row_steps, py_data::proofs::Steps::call_steps), unfolding(py_frames::specs::AttrInstrs::store_attr_row))]
pub fn store_attr_row<S, V: View<S>>(
    alloc: Global,
    v: &mut V,
    roots: Addr,
    n: u32,
    x: Value,
    o: Value,
) -> Result<Next, Stop>
    requires live { IsLive V.sense v.old }
    requires safe { Safe V.sense.partial (store_attr_row {S = S} roots.0 n x o) (V.sense.heap v.old) }
    ensures { Meets V.sense (store_attr_row roots.0 n x o) v.old v.new result }
{
    let name = look(v, roots, n as usize)?;
    stored_attr(alloc, v, roots, x, o, place_in(name))
}

/// Takes out an attribute of a value, by the address of its name.
#[tactic(auto, using(py_data::proofs::Rows::row_steps, py_data::proofs::Steps::call_steps), unfolding(py_frames::specs::AttrInstrs::dropped_attr))]
fn dropped_attr<S, V: View<S>>(
    alloc: Global,
    v: &mut V,
    roots: Addr,
    o: Value,
    name: Addr,
) -> Result<Next, Stop>
    requires live { IsLive V.sense v.old }
    requires safe { Safe V.sense.partial (dropped_attr {S = S} roots.0 o name.0) (V.sense.heap v.old) }
    ensures { Meets V.sense (dropped_attr roots.0 o name.0) v.old v.new result }
{
    let got = del_attr(alloc, v, o, name)?;
    done(alloc, v, roots, got)
}

/// DEL_ATTR, of the name that is the root of number `n`.
#[tactic(auto, using(py_data::proofs::Rows::row_steps, py_data::proofs::Steps::call_steps), unfolding(py_frames::specs::AttrInstrs::del_attr_instr))]
pub fn del_attr_instr<S, V: View<S>>(
    alloc: Global,
    v: &mut V,
    roots: Addr,
    n: u32,
    o: Value,
) -> Result<Next, Stop>
    requires live { IsLive V.sense v.old }
    requires safe { Safe V.sense.partial (del_attr_instr {S = S} roots.0 n o) (V.sense.heap v.old) }
    ensures { Meets V.sense (del_attr_instr roots.0 n o) v.old v.new result }
{
    let name = look(v, roots, n as usize)?;
    dropped_attr(alloc, v, roots, o, place_in(name))
}

/// Raises the exception of an attribute that is not there.
#[tactic(auto, using(py_data::proofs::Rows::row_steps, py_data::proofs::Steps::call_steps), unfolding(py_frames::specs::AttrInstrs::missing_method))]
fn missing_method<S, V: View<S>>(
    alloc: Global,
    v: &mut V,
    roots: Addr,
    name: Addr,
) -> Result<Next, Stop>
    requires live { IsLive V.sense v.old }
    requires safe { Safe V.sense.partial (missing_method {S = S} roots.0 name.0) (V.sense.heap v.old) }
    ensures { Meets V.sense (missing_method roots.0 name.0) v.old v.new result }
{
    let got = missing(alloc, v, name)?;
    give(alloc, v, roots, got)
}

/// Pushes what was found: a function and the object that it is bound to, or any other attribute and nothing.
#[tactic(auto, using(py_data::proofs::Rows::row_steps), unfolding(py_frames::specs::AttrInstrs::found_method))]
pub fn found_method<S, V: View<S>>(
    alloc: Global,
    v: &mut V,
    roots: Addr,
    o: Value,
    name: Addr,
    found: Option<Found>,
) -> Result<Next, Stop>
    requires live { IsLive V.sense v.old }
    requires safe { Safe V.sense.partial (found_method {S = S} roots.0 o name.0 found) (V.sense.heap v.old) }
    ensures { Meets V.sense (found_method roots.0 o name.0 found) v.old v.new result }
{
    match found {
        Some(Found::Plain(x)) => Ok(push_two(x, Value::Unset)),
        Some(Found::Bound(f)) => Ok(push_two(f, o)),
        None => missing_method(alloc, v, roots, name),
    }
}

/// The same of a value, by the address of the name.
#[tactic(auto, using(py_data::proofs::Rows::row_steps, py_data::proofs::Steps::call_steps), unfolding(py_frames::specs::AttrInstrs::loaded_method))]
fn loaded_method<S, V: View<S>>(
    alloc: Global,
    v: &mut V,
    roots: Addr,
    o: Value,
    name: Addr,
) -> Result<Next, Stop>
    requires live { IsLive V.sense v.old }
    requires safe { Safe V.sense.partial (loaded_method {S = S} roots.0 o name.0) (V.sense.heap v.old) }
    ensures { Meets V.sense (loaded_method roots.0 o name.0) v.old v.new result }
{
    let found = find_attr(alloc, v, roots, o, name)?;
    found_method(alloc, v, roots, o, name, found)
}

/// LOAD_METHOD, of the name that is the root of number `n`, by its string.
#[tactic(auto, using(py_data::proofs::Rows::row_steps, py_data::proofs::Steps::call_steps), unfolding(py_frames::specs::AttrInstrs::attr_or_method))]
fn attr_or_method<S, V: View<S>>(
    alloc: Global,
    v: &mut V,
    roots: Addr,
    n: u32,
    o: Value,
) -> Result<Next, Stop>
    requires live { IsLive V.sense v.old }
    requires safe { Safe V.sense.partial (attr_or_method {S = S} roots.0 n o) (V.sense.heap v.old) }
    ensures { Meets V.sense (attr_or_method roots.0 n o) v.old v.new result }
{
    let name = look(v, roots, n as usize)?;
    loaded_method(alloc, v, roots, o, place_in(name))
}

/// LOAD_METHOD of a name that is the builtin method of this number, or none of the object's kind.
#[tactic(auto, using(py_data::proofs::Rows::row_steps), unfolding(py_frames::specs::AttrInstrs::method_or_attr))]
fn method_or_attr<S, V: View<S>>(
    alloc: Global,
    v: &mut V,
    roots: Addr,
    n: u32,
    o: Value,
    method: Option<u8>,
) -> Result<Next, Stop>
    requires live { IsLive V.sense v.old }
    requires safe { Safe V.sense.partial (method_or_attr {S = S} roots.0 n o method) (V.sense.heap v.old) }
    ensures { Meets V.sense (method_or_attr roots.0 n o method) v.old v.new result }
{
    match method {
        Some(b) => Ok(push_two(Value::Builtin(b), o)),
        None => attr_or_method(alloc, v, roots, n, o),
    }
}

/// LOAD_METHOD of a record.
#[tactic(auto, using(py_data::proofs::Rows::row_steps, py_data::proofs::Steps::call_steps), unfolding(py_frames::specs::AttrInstrs::load_method_row))]
fn record_method<S, V: View<S>>(
    alloc: Global,
    v: &mut V,
    roots: Addr,
    n: u32,
    text: &[u8],
    a: Addr,
) -> Result<Next, Stop>
    requires live { IsLive V.sense v.old }
    requires safe { Safe V.sense.partial (load_method_row {S = S} roots.0 n text.now (Ref a)) (V.sense.heap v.old) }
    ensures { Meets V.sense (load_method_row roots.0 n text.now (Ref a)) v.old v.new result }
{
    let kind = kind(v, a)?;
    method_or_attr(alloc, v, roots, n, Value::Ref(a), method_of(kind, text))
}

/// LOAD_METHOD, of the name that is the root of number `n` and has this text.
#[tactic(auto, using(py_data::proofs::Rows::row_steps), unfolding(py_frames::specs::AttrInstrs::load_method_row))]
pub fn load_method_row<S, V: View<S>>(
    alloc: Global,
    v: &mut V,
    roots: Addr,
    n: u32,
    text: &[u8],
    o: Value,
) -> Result<Next, Stop>
    requires live { IsLive V.sense v.old }
    requires safe { Safe V.sense.partial (load_method_row {S = S} roots.0 n text.now o) (V.sense.heap v.old) }
    ensures { Meets V.sense (load_method_row roots.0 n text.now o) v.old v.new result }
{
    match o {
        Value::Ref(a) => record_method(alloc, v, roots, n, text, a),
        _ => attr_or_method(alloc, v, roots, n, o),
    }
}
