//! Pieces of texts: each is put behind a text.
ghost use Rattle.std.specs.Prelude.{◌≡◌, ◌++◌, codes, IfOk};
ghost use Rattle.py_base.specs.Numbers.{truth_text};
ghost use Rattle.obj_nest.specs.Text.{builtin_text, leaf_text, plain_text, spaced, tuple_close};

use py_base::builtin_name;
use py_data::{Bytes, Kind, NoMemory, Value};
use py_text::print_int;
use std::alloc::Global;

/// A text, and these bytes behind it.
pub fn extended(out: Bytes, more: &[u8]) -> Result<Bytes, NoMemory>
    ensures { IfOk result (λ t. t ≡ out ++ more.now) }
{
    let mut text = out;
    text.extend_from_slice(more)?;
    Ok(text)
}

/// A text, and three others behind it.
pub fn enclosed(out: Bytes, front: &[u8], name: &[u8], close: &[u8]) -> Result<Bytes, NoMemory>
    ensures { IfOk result (λ t. t ≡ out ++ front.now ++ name.now ++ close.now) }
{
    let mut text = out;
    text.extend_from_slice(front)?;
    text.extend_from_slice(name)?;
    text.extend_from_slice(close)?;
    Ok(text)
}

/// A text, and a comma and a space behind it unless no part came before.
pub fn separated(out: Bytes, i: usize) -> Result<Bytes, NoMemory>
    ensures { IfOk result (λ t. t ≡ spaced i out) }
{
    if i == 0 {
        Ok(out)
    } else {
        extended(out, b", ")
    }
}

/// What closes a tuple of so many items.
pub fn tuple_close(n: usize) -> &'static [u8]
    ensures { result.now ≡ tuple_close n }
{
    if n == 1 { b",)" } else { b")" }
}

/// The name of a builtin.
pub fn builtin_text(b: u8) -> &'static [u8]
    ensures { result.now ≡ builtin_text b }
{
    match builtin_name(b) {
        Some(name) => name,
        None => b"",
    }
}

/// A text, and behind it that of a value that isn't a reference.
pub fn with_leaf(alloc: Global, out: Bytes, x: Value) -> Result<Bytes, NoMemory>
    ensures { IfOk result (λ t. t ≡ out ++ leaf_text x) }
{
    match x {
        Value::None => extended(out, b"None"),
        Value::Bool(true) => extended(out, b"True"),
        Value::Bool(false) => extended(out, b"False"),
        Value::Int(i) => extended(out, print_int(alloc, i)?.as_slice()),
        Value::Builtin(b) => enclosed(out, b"<built-in ", builtin_text(b), b">"),
        _ => Ok(out),
    }
}

/// A text, and behind it that of a record of a kind whose records are all written alike.
pub fn with_plain(out: Bytes, k: Kind) -> Result<Bytes, NoMemory>
    ensures { IfOk result (λ t. t ≡ out ++ plain_text k) }
{
    match k {
        Kind::Iter => extended(out, b"<iterator>"),
        Kind::Range => extended(out, b"<xrange>"),
        Kind::Lock => extended(out, b"<lock>"),
        Kind::Thread => extended(out, b"<thread>"),
        _ => Ok(out),
    }
}
