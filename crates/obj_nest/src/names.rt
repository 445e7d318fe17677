//! The texts of records that have no parts.
ghost use Rattle.std.specs.Prelude.{◌≡◌, ◌++◌, codes};
ghost use Rattle.py_data.specs.Sense.{Meets, Safe, IsLive};
ghost use Rattle.obj_nest.specs.Text.{between_row, name_by, name_row, named_row, other_text, quoted_row, string_row};

use crate::pieces::{builtin_text, enclosed, extended, with_plain};
use obj_str::{Text, bytes_of};
use py_data::{Addr, Bytes, Got, Kind, Stop, Value, View, look};
use py_text::repr_bytes;
use std::alloc::Global;

/// Writes a string in quotes.
#[tactic(auto, using(py_data::proofs::Rows::row_steps, py_data::proofs::Steps::call_steps), unfolding(crate::specs::Text::quoted_row))]
pub fn quoted<S, V: View<S>>(
    alloc: Global,
    v: &mut V,
    a: Addr,
    out: Bytes,
) -> Result<Got<Bytes>, Stop>
    requires live { IsLive V.sense v.old }
    requires safe { Safe V.sense.partial (quoted_row {S = S} a.0 out) (V.sense.heap v.old) }
    ensures { Meets V.sense (quoted_row a.0 out) v.old v.new result }
{
    let bytes = bytes_of(alloc, v, a)?;
    let literal = repr_bytes(alloc, bytes.as_slice())?;
    let text = extended(out, literal.as_slice())?;
    Ok(Got::Is(text))
}

/// The bytes of the string that a value is the address of.
#[tactic(auto, using(py_data::proofs::Rows::row_steps, py_data::proofs::Steps::call_steps), unfolding(crate::specs::Text::string_row))]
fn string<S, V: View<S>>(alloc: Global, v: &mut V, x: Value) -> Result<Text, Stop>
    requires live { IsLive V.sense v.old }
    requires safe { Safe V.sense.partial (string_row {S = S} x) (V.sense.heap v.old) }
    ensures { Meets V.sense (string_row x) v.old v.new result }
{
    match x {
        Value::Ref(a) => bytes_of(alloc, v, a),
        _ => Ok(Text::from_slice(alloc, &[])?),
    }
}

/// The name of the function or class at an address.
#[tactic(auto, using(py_data::proofs::Rows::row_steps, py_data::proofs::Steps::call_steps), unfolding(crate::specs::Text::name_row))]
fn name<S, V: View<S>>(alloc: Global, v: &mut V, a: Addr) -> Result<Text, Stop>
    requires live { IsLive V.sense v.old }
    requires safe { Safe V.sense.partial (name_row {S = S} a.0) (V.sense.heap v.old) }
    ensures { Meets V.sense (name_row a.0) v.old v.new result }
{
    let x = look(v, a, 0)?;
    string(alloc, v, x)
}

/// The name of a function, a class or a builtin.
#[tactic(auto, using(py_data::proofs::Rows::row_steps, py_data::proofs::Steps::call_steps), unfolding(crate::specs::Text::name_by))]
fn name_by<S, V: View<S>>(alloc: Global, v: &mut V, x: Value) -> Result<Text, Stop>
    requires live { IsLive V.sense v.old }
    requires safe { Safe V.sense.partial (name_by {S = S} x) (V.sense.heap v.old) }
    ensures { Meets V.sense (name_by x) v.old v.new result }
{
    match x {
        Value::Ref(a) => name(alloc, v, a),
        Value::Builtin(b) => Ok(Text::from_slice(alloc, builtin_text(b))?),
        _ => Ok(Text::from_slice(alloc, &[])?),
    }
}

/// The name of an instance's class, and of a method's function or builtin.
#[tactic(auto, using(py_data::proofs::Rows::row_steps, py_data::proofs::Steps::call_steps), unfolding(crate::specs::Text::named_row))]
fn named<S, V: View<S>>(alloc: Global, v: &mut V, a: Addr) -> Result<Text, Stop>
    requires live { IsLive V.sense v.old }
    requires safe { Safe V.sense.partial (named_row {S = S} a.0) (V.sense.heap v.old) }
    ensures { Meets V.sense (named_row a.0) v.old v.new result }
{
    let x = look(v, a, 0)?;
    name_by(alloc, v, x)
}

/// Writes the name of a function or class between two texts.
#[tactic(auto, using(py_data::proofs::Rows::row_steps, py_data::proofs::Steps::call_steps), unfolding(crate::specs::Text::between_row))]
fn with_name<S, V: View<S>>(
    alloc: Global,
    v: &mut V,
    a: Addr,
    front: &[u8],
    close: &[u8],
    out: Bytes,
) -> Result<Got<Bytes>, Stop>
    requires live { IsLive V.sense v.old }
    requires safe { Safe V.sense.partial (between_row {S = S} front.now close.now (name_row a.0) out)
        (V.sense.heap v.old) }
    ensures { Meets V.sense (between_row front.now close.now (name_row a.0) out) v.old v.new result }
{
    let name = name(alloc, v, a)?;
    let text = enclosed(out, front, name.as_slice(), close)?;
    Ok(Got::Is(text))
}

/// Writes such a name between two texts.
#[tactic(auto, using(py_data::proofs::Rows::row_steps, py_data::proofs::Steps::call_steps), unfolding(crate::specs::Text::between_row))]
fn with_named<S, V: View<S>>(
    alloc: Global,
    v: &mut V,
    a: Addr,
    front: &[u8],
    close: &[u8],
    out: Bytes,
) -> Result<Got<Bytes>, Stop>
    requires live { IsLive V.sense v.old }
    requires safe { Safe V.sense.partial (between_row {S = S} front.now close.now (named_row a.0) out)
        (V.sense.heap v.old) }
    ensures { Meets V.sense (between_row front.now close.now (named_row a.0) out) v.old v.new result }
{
    let name = named(alloc, v, a)?;
    let text = enclosed(out, front, name.as_slice(), close)?;
    Ok(Got::Is(text))
}

/// Writes a record of a kind that has no parts to be written.
#[tactic(auto, using(py_data::proofs::Rows::row_steps, py_data::proofs::Steps::call_steps), unfolding(crate::specs::Text::other_text))]
pub fn other<S, V: View<S>>(
    alloc: Global,
    v: &mut V,
    a: Addr,
    out: Bytes,
    k: Kind,
) -> Result<Got<Bytes>, Stop>
    requires live { IsLive V.sense v.old }
    requires safe { Safe V.sense.partial (other_text {S = S} a.0 out k) (V.sense.heap v.old) }
    ensures { Meets V.sense (other_text a.0 out k) v.old v.new result }
{
    match k {
        Kind::Function => with_name(alloc, v, a, b"<function ", b">", out),
        Kind::Class => with_name(alloc, v, a, b"<class ", b">", out),
        Kind::Instance => with_named(alloc, v, a, b"<", b" instance>", out),
        Kind::Method => with_named(alloc, v, a, b"<method ", b">", out),
        _ => {
            let text = with_plain(out, k)?;
            Ok(Got::Is(text))
        }
    }
}
