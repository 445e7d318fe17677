//! Where an attribute is found.
ghost use Rattle.std.specs.Prelude.{◌≡◌, option_map};
ghost use Rattle.py_data.specs.declared.value.Value.TheVariants.{Builtin, Ref};
ghost use Rattle.py_data.specs.Sense.{Meets, Safe, IsLive};
ghost use Rattle.obj_class.specs.declared.lookup.Found.TheVariants.{Plain};
ghost use Rattle.obj_class.specs.Attributes.{bound_of, of_methods};
ghost use Rattle.obj_class.specs.AttrRows.{bound_row, builtin_row, class_row, error_row, find_attr_row, found_by, from_class, if_found, instance_row, member_row, methods_row, own_or_class};
ghost use Rattle.obj_class.specs.Named.{member_of};

use crate::inheritance::{inherited, own};
use crate::named::{is_error, member_of, method_of};
use obj_str::bytes_of;
use py_data::exception::THREAD_ERROR;
use py_data::{Addr, Kind, Stop, Value, View, kind, look};
use std::alloc::Global;

/// What an attribute is: a value as it is, or a function or builtin that is to be called with the object in front.
#[derive(Clone, Copy, Debug, Drop, PartialEq, Eq)]
pub enum Found {
    Plain(Value),
    Bound(Value),
}

/// What a class has for an instance, of a record of this kind.
fn bound_of(f: Value, kind: Kind) -> Found
    ensures { result ≡ bound_of f kind }
{
    match kind {
        Kind::Function => Found::Bound(f),
        _ => Found::Plain(f),
    }
}

/// The same of a record.
#[tactic(auto, using(py_data::proofs::Rows::row_steps, py_data::proofs::Steps::call_steps), unfolding(crate::specs::AttrRows::bound_row))]
fn bound_at<S, V: View<S>>(v: &mut V, f: Addr) -> Result<Option<Found>, Stop>
    requires live { IsLive V.sense v.old }
    requires safe { Safe V.sense.partial (bound_row {S = S} (Ref f)) (V.sense.heap v.old) }
    ensures { Meets V.sense (bound_row (Ref f)) v.old v.new result }
{
    let kind = kind(v, f)?;
    Ok(Some(bound_of(Value::Ref(f), kind)))
}

/// The same of a value.
#[tactic(auto, using(py_data::proofs::Rows::row_steps), unfolding(crate::specs::AttrRows::bound_row))]
fn bound<S, V: View<S>>(v: &mut V, x: Value) -> Result<Option<Found>, Stop>
    requires live { IsLive V.sense v.old }
    requires safe { Safe V.sense.partial (bound_row {S = S} x) (V.sense.heap v.old) }
    ensures { Meets V.sense (bound_row x) v.old v.new result }
{
    match x {
        Value::Ref(f) => bound_at(v, f),
        _ => Ok(Some(Found::Plain(x))),
    }
}

/// The same of what was found, if something was.
#[tactic(auto, using(py_data::proofs::Rows::row_steps), unfolding(crate::specs::AttrRows::if_found))]
fn if_found<S, V: View<S>>(v: &mut V, x: Option<Value>) -> Result<Option<Found>, Stop>
    requires live { IsLive V.sense v.old }
    requires safe { Safe V.sense.partial (if_found {S = S} x) (V.sense.heap v.old) }
    ensures { Meets V.sense (if_found x) v.old v.new result }
{
    match x {
        Some(x) => bound(v, x),
        None => Ok(None),
    }
}

/// What an instance has of its class.
#[tactic(auto, using(py_data::proofs::Rows::row_steps, py_data::proofs::Steps::call_steps), unfolding(crate::specs::AttrRows::from_class))]
fn from_class<S, V: View<S>>(v: &mut V, key: Value, class: Value) -> Result<Option<Found>, Stop>
    requires live { IsLive V.sense v.old }
    requires safe { Safe V.sense.partial (from_class {S = S} key class) (V.sense.heap v.old) }
    ensures { Meets V.sense (from_class key class) v.old v.new result }
{
    let x = inherited(v, key, class)?;
    if_found(v, x)
}

/// An instance's own attribute, or else its class's.
#[tactic(auto, using(py_data::proofs::Rows::row_steps, py_data::proofs::Steps::call_steps), unfolding(crate::specs::AttrRows::own_or_class))]
fn own_or_class<S, V: View<S>>(
    v: &mut V,
    a: Addr,
    key: Value,
    x: Option<Value>,
) -> Result<Option<Found>, Stop>
    requires live { IsLive V.sense v.old }
    requires safe { Safe V.sense.partial (own_or_class {S = S} a.0 key x) (V.sense.heap v.old) }
    ensures { Meets V.sense (own_or_class a.0 key x) v.old v.new result }
{
    match x {
        Some(x) => Ok(Some(Found::Plain(x))),
        None => {
            let class = look(v, a, 0)?;
            from_class(v, key, class)
        }
    }
}

/// The attribute of an instance.
#[tactic(auto, using(py_data::proofs::Rows::row_steps, py_data::proofs::Steps::call_steps), unfolding(crate::specs::AttrRows::instance_row))]
fn of_instance<S, V: View<S>>(v: &mut V, a: Addr, key: Value) -> Result<Option<Found>, Stop>
    requires live { IsLive V.sense v.old }
    requires safe { Safe V.sense.partial (instance_row {S = S} a.0 key) (V.sense.heap v.old) }
    ensures { Meets V.sense (instance_row a.0 key) v.old v.new result }
{
    let x = own(v, a, 1, key)?;
    own_or_class(v, a, key, x)
}

/// What was found, as it is.
fn plain(x: Option<Value>) -> Option<Found>
    ensures { result ≡ option_map Plain x }
{
    match x {
        Some(x) => Some(Found::Plain(x)),
        None => None,
    }
}

/// The attribute of a class.
#[tactic(auto, using(py_data::proofs::Rows::row_steps, py_data::proofs::Steps::call_steps), unfolding(crate::specs::AttrRows::class_row))]
fn of_class<S, V: View<S>>(v: &mut V, class: Value, key: Value) -> Result<Option<Found>, Stop>
    requires live { IsLive V.sense v.old }
    requires safe { Safe V.sense.partial (class_row {S = S} class key) (V.sense.heap v.old) }
    ensures { Meets V.sense (class_row class key) v.old v.new result }
{
    let x = inherited(v, key, class)?;
    Ok(plain(x))
}

/// The builtin method of that name, of values of a kind.
fn of_methods(kind: Kind, name: &[u8]) -> Option<Found>
    ensures { result ≡ of_methods kind name.now }
{
    match method_of(kind, name) {
        Some(b) => Some(Found::Bound(Value::Builtin(b))),
        None => None,
    }
}

/// The attribute of a value of a kind that has builtin methods, or none.
#[tactic(auto, using(py_data::proofs::Rows::row_steps, py_data::proofs::Steps::call_steps), unfolding(crate::specs::AttrRows::methods_row))]
fn method<S, V: View<S>>(
    alloc: Global,
    v: &mut V,
    kind: Kind,
    name: Addr,
) -> Result<Option<Found>, Stop>
    requires live { IsLive V.sense v.old }
    requires safe { Safe V.sense.partial (methods_row {S = S} kind name.0) (V.sense.heap v.old) }
    ensures { Meets V.sense (methods_row kind name.0) v.old v.new result }
{
    let text = bytes_of(alloc, v, name)?;
    Ok(of_methods(kind, text.as_slice()))
}

/// The class `thread.error`.
#[tactic(auto, using(py_data::proofs::Rows::row_steps, py_data::proofs::Steps::call_steps), unfolding(crate::specs::AttrRows::error_row))]
fn error<S, V: View<S>>(v: &mut V, roots: Addr) -> Result<Option<Found>, Stop>
    requires live { IsLive V.sense v.old }
    requires safe { Safe V.sense.partial (error_row {S = S} roots.0) (V.sense.heap v.old) }
    ensures { Meets V.sense (error_row roots.0) v.old v.new result }
{
    let class = look(v, roots, 1 + THREAD_ERROR as usize)?;
    Ok(Some(Found::Plain(class)))
}

/// The builtin of that name in a module.
fn of_module(b: u8, name: &[u8]) -> Option<Found>
    ensures { result ≡ option_map (λ n. Plain (Builtin n)) (member_of b name.now) }
{
    match member_of(b, name) {
        Some(n) => Some(Found::Plain(Value::Builtin(n))),
        None => None,
    }
}

/// What a module has by that name.
#[tactic(auto, using(py_data::proofs::Rows::row_steps), unfolding(crate::specs::AttrRows::member_row))]
fn member<S, V: View<S>>(v: &mut V, roots: Addr, b: u8, name: &[u8]) -> Result<Option<Found>, Stop>
    requires live { IsLive V.sense v.old }
    requires safe { Safe V.sense.partial (member_row {S = S} roots.0 b name.now) (V.sense.heap v.old) }
    ensures { Meets V.sense (member_row roots.0 b name.now) v.old v.new result }
{
    if is_error(b, name) {
        error(v, roots)
    } else {
        Ok(of_module(b, name))
    }
}

/// The attribute of a builtin.
#[tactic(auto, using(py_data::proofs::Rows::row_steps, py_data::proofs::Steps::call_steps), unfolding(crate::specs::AttrRows::builtin_row))]
fn of_builtin<S, V: View<S>>(
    alloc: Global,
    v: &mut V,
    roots: Addr,
    b: u8,
    name: Addr,
) -> Result<Option<Found>, Stop>
    requires live { IsLive V.sense v.old }
    requires safe { Safe V.sense.partial (builtin_row {S = S} roots.0 b name.0) (V.sense.heap v.old) }
    ensures { Meets V.sense (builtin_row roots.0 b name.0) v.old v.new result }
{
    let text = bytes_of(alloc, v, name)?;
    member(v, roots, b, text.as_slice())
}

/// The attribute of a record of a kind.
#[tactic(auto, using(py_data::proofs::Rows::row_steps), unfolding(crate::specs::AttrRows::found_by))]
fn found_by<S, V: View<S>>(
    alloc: Global,
    v: &mut V,
    a: Addr,
    name: Addr,
    kind: Kind,
) -> Result<Option<Found>, Stop>
    requires live { IsLive V.sense v.old }
    requires safe { Safe V.sense.partial (found_by {S = S} a name.0 kind) (V.sense.heap v.old) }
    ensures { Meets V.sense (found_by a name.0 kind) v.old v.new result }
{
    match kind {
        Kind::Instance => of_instance(v, a, Value::Ref(name)),
        Kind::Class => of_class(v, Value::Ref(a), Value::Ref(name)),
        _ => method(alloc, v, kind, name),
    }
}

/// The attribute of a record.
#[tactic(auto, using(py_data::proofs::Rows::row_steps, py_data::proofs::Steps::call_steps), unfolding(crate::specs::AttrRows::find_attr_row))]
fn of_record<S, V: View<S>>(
    alloc: Global,
    v: &mut V,
    roots: Addr,
    a: Addr,
    name: Addr,
) -> Result<Option<Found>, Stop>
    requires live { IsLive V.sense v.old }
    requires safe { Safe V.sense.partial (find_attr_row {S = S} roots.0 (Ref a) name.0) (V.sense.heap v.old) }
    ensures { Meets V.sense (find_attr_row roots.0 (Ref a) name.0) v.old v.new result }
{
    let kind = kind(v, a)?;
    found_by(alloc, v, a, name, kind)
}

/// The attribute of a value, or none. `roots` is the address of the program's list of roots, `name` that of a string.
/// An instance's own attribute comes before its class's and those of the bases, of which the nearest counts. A function
/// that an instance has of a class is bound, and so is a builtin method of a string, a list, a dictionary, a lock or a
/// thread. This call only looks: for a call of a method no record is made. Python 2.7 has attributes like `__class__`
/// besides.
#[tactic(auto, using(py_data::proofs::Rows::row_steps), unfolding(crate::specs::AttrRows::find_attr_row))]
pub fn find_attr<S, V: View<S>>(
    alloc: Global,
    v: &mut V,
    roots: Addr,
    x: Value,
    name: Addr,
) -> Result<Option<Found>, Stop>
    requires live { IsLive V.sense v.old }
    requires safe { Safe V.sense.partial (find_attr_row {S = S} roots.0 x name.0) (V.sense.heap v.old) }
    ensures { Meets V.sense (find_attr_row roots.0 x name.0) v.old v.new result }
{
    match x {
        Value::Ref(a) => of_record(alloc, v, roots, a, name),
        Value::Builtin(b) => of_builtin(alloc, v, roots, b, name),
        _ => Ok(None),
    }
}
