//! Attributes as values.
ghost use Rattle.std.specs.Prelude.{◌≡◌, IfOk, [], ◌∷◌};
ghost use Rattle.py_base.specs.declared.kind.Kind.TheVariants.{Method};
ghost use Rattle.py_data.specs.Heap.{new_rec};
ghost use Rattle.py_data.specs.Made.{rec_of};
ghost use Rattle.py_data.specs.Sense.{Meets, Safe, IsLive};
ghost use Rattle.obj_class.specs.Attributes.{attribute_fault};
ghost use Rattle.obj_class.specs.AttrRows.{attr_row, given_row, method_row, missing_row};

use crate::lookup::{Found, find_attr};
use obj_str::bytes_of;
use py_data::exception::ATTRIBUTE_ERROR;
use py_data::{Addr, Bytes, Fault, Got, Kind, NoMemory, Record, Stop, Value, Values, View, With};
use std::alloc::Global;

/// AttributeError with a name.
fn fault(alloc: Global, name: &[u8]) -> Result<Fault, NoMemory>
    ensures { IfOk result (λ e. e ≡ attribute_fault name.now) }
{
    let mut text = Vec::new(alloc);
    text.extend_from_slice(b"no attribute '")?;
    text.extend_from_slice(name)?;
    text.push(b'\'')?;
    let text = Bytes::from_slice(alloc, text.as_slice())?;
    Ok(Fault {
        exc: ATTRIBUTE_ERROR,
        with: With::Text(text),
    })
}

/// The answer where there is no attribute of that name: AttributeError, `no attribute 'x'`.
#[tactic(auto, using(py_data::proofs::Rows::row_steps, py_data::proofs::Steps::call_steps), unfolding(crate::specs::AttrRows::missing_row))]
pub fn missing<S, T, V: View<S>>(alloc: Global, v: &mut V, name: Addr) -> Result<Got<T>, Stop>
    requires live { IsLive V.sense v.old }
    requires safe { Safe V.sense.partial (missing_row {S = S} {A = T} name.0) (V.sense.heap v.old) }
    ensures { Meets V.sense (missing_row name.0) v.old v.new result }
{
    let text = bytes_of(alloc, v, name)?;
    let fault = fault(alloc, text.as_slice())?;
    Ok(Got::Raise(fault))
}

/// A method that is to be made.
fn method_of(alloc: Global, f: Value, x: Value) -> Result<Record, NoMemory>
    ensures { IfOk result (λ r. rec_of r ≡ new_rec Method (f ∷ x ∷ []) []) }
{
    let mut values = Values::new(alloc);
    values.push(f)?;
    values.push(x)?;
    Ok(Record {
        kind: Kind::Method,
        values,
        bytes: Bytes::new(alloc),
    })
}

/// Makes a method of a function or a builtin, and its object.
#[tactic(auto, using(py_data::proofs::Rows::row_steps), unfolding(crate::specs::AttrRows::method_row))]
fn make_method<S, V: View<S>>(
    alloc: Global,
    v: &mut V,
    f: Value,
    x: Value,
) -> Result<Got<Value>, Stop>
    requires live { IsLive V.sense v.old }
    requires safe { Safe V.sense.partial (method_row {S = S} f x) (V.sense.heap v.old) }
    ensures { Meets V.sense (method_row f x) v.old v.new result }
{
    let made = method_of(alloc, f, x)?;
    Ok(Got::Is(Value::Ref(v.make(&made)?)))
}

/// What was found, as a value.
#[tactic(auto, using(py_data::proofs::Rows::row_steps), unfolding(crate::specs::AttrRows::given_row))]
fn given<S, V: View<S>>(
    alloc: Global,
    v: &mut V,
    x: Value,
    name: Addr,
    found: Option<Found>,
) -> Result<Got<Value>, Stop>
    requires live { IsLive V.sense v.old }
    requires safe { Safe V.sense.partial (given_row {S = S} x name.0 found) (V.sense.heap v.old) }
    ensures { Meets V.sense (given_row x name.0 found) v.old v.new result }
{
    match found {
        Some(Found::Plain(y)) => Ok(Got::Is(y)),
        Some(Found::Bound(f)) => make_method(alloc, v, f, x),
        None => missing(alloc, v, name),
    }
}

/// The attribute of a value, as `find_attr` finds it. What is bound is a new method with the value as its object.
/// AttributeError, `no attribute 'x'`, where there is none.
#[tactic(auto, using(py_data::proofs::Rows::row_steps, py_data::proofs::Steps::call_steps), unfolding(crate::specs::AttrRows::attr_row))]
pub fn attr<S, V: View<S>>(
    alloc: Global,
    v: &mut V,
    roots: Addr,
    x: Value,
    name: Addr,
) -> Result<Got<Value>, Stop>
    requires live { IsLive V.sense v.old }
    requires safe { Safe V.sense.partial (attr_row {S = S} roots.0 x name.0) (V.sense.heap v.old) }
    ensures { Meets V.sense (attr_row roots.0 x name.0) v.old v.new result }
{
    let found = find_attr(alloc, v, roots, x, name)?;
    given(alloc, v, x, name, found)
}
