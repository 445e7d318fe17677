//! What a listing calls kinds, roots and codes.
ghost use Rattle.std.specs.Prelude.{◌≡◌, IfOk, option_map, slice_get, unwrap_or};
ghost use Rattle.std.specs.Fmt.{decimal};
ghost use Rattle.py_code.specs.Listing.{code_name, code_text, name_or, named, root_name, root_text};
ghost use Rattle.py_base.specs.Numbers.{class_names};
ghost use Rattle.py_code.specs.Operands.{kind_name};

use crate::program::{Code, Root};
use py_base::{Bytes, Kind, NoMemory, class_name};
use py_text::repr_bytes;
use std::alloc::Global;

/// The name of a kind of record.
pub fn kind_name(kind: Kind) -> &'static [u8]
    ensures { result.now ≡ kind_name kind }
{
    match kind {
        Kind::Str => b"Str",
        Kind::Tuple => b"Tuple",
        Kind::List => b"List",
        Kind::Dict => b"Dict",
        Kind::Cell => b"Cell",
        Kind::Function => b"Function",
        Kind::Class => b"Class",
        Kind::Instance => b"Instance",
        Kind::Method => b"Method",
        Kind::Iter => b"Iter",
        Kind::Range => b"Range",
        Kind::Lock => b"Lock",
        Kind::Thread => b"Thread",
    }
}

/// The name, or what is written where it is empty.
pub fn name_or<'a>(other: &'a [u8], name: &'a [u8]) -> &'a [u8]
    ensures { result.now ≡ name_or other.now name.now }
{
    match name {
        [] => other,
        _ => name,
    }
}

/// A number in decimal digits.
pub fn digits(alloc: Global, n: u64) -> Result<Bytes, NoMemory>
    ensures { IfOk result (λ t. t ≡ decimal n) }
{
    let text = format!(in alloc; "{n}")?;
    Bytes::from_slice(alloc, text.as_bytes())
}

/// A number, and in parentheses what it names.
#[tactic(auto, unfolding(crate::specs::Listing::named))]
pub fn named(alloc: Global, n: u64, name: Option<&[u8]>) -> Result<Bytes, NoMemory>
    ensures { IfOk result (λ t. t ≡ named n (option_map (λ x. x.now) name.entry)) }
{
    let mut text = digits(alloc, n)?;
    if let Some(name) = name {
        text.extend_from_slice(b" (")?;
        text.extend_from_slice(name)?;
        text.extend_from_slice(b")")?;
    }
    Ok(text)
}

/// The name of the class of that number.
fn class_text(alloc: Global, n: u8) -> Result<Bytes, NoMemory>
    ensures { IfOk result (λ t. t ≡ unwrap_or (slice_get class_names n) (decimal n)) }
{
    match class_name(n) {
        Some(name) => Bytes::from_slice(alloc, name),
        None => digits(alloc, n as u64),
    }
}

/// What a root is called: a string's `repr`, the name of a class or that of a global.
#[tactic(auto, unfolding(crate::specs::Listing::root_name))]
pub fn root_name(alloc: Global, root: &Root) -> Result<Bytes, NoMemory>
    ensures { IfOk result (λ t. t ≡ root_name root.now) }
{
    match root.kind {
        Kind::Str => repr_bytes(alloc, root.bytes.as_slice()),
        Kind::Class => class_text(alloc, root.number),
        _ => Bytes::from_slice(alloc, name_or(b"<threads>", root.bytes.as_slice())),
    }
}

/// The number of a root, and what it is called.
pub fn root_text(alloc: Global, roots: &[Root], n: u32) -> Result<Bytes, NoMemory>
    ensures { IfOk result (λ t. t ≡ root_text roots.now n) }
{
    match roots.get(n as usize) {
        Some(root) => {
            let name = root_name(alloc, root)?;
            named(alloc, n as u64, Some(name.as_slice()))
        }
        None => named(alloc, n as u64, None),
    }
}

/// The name of a code.
pub fn code_name(code: &Code) -> &[u8]
    ensures { result.now ≡ code_name code.now }
{
    name_or(b"<module>", code.name.as_slice())
}

/// The number of a code, and its name.
pub fn code_text(alloc: Global, all: &[Code], n: u32) -> Result<Bytes, NoMemory>
    ensures { IfOk result (λ t. t ≡ code_text all.now n) }
{
    match all.get(n as usize) {
        Some(code) => named(alloc, n as u64, Some(code_name(code))),
        None => named(alloc, n as u64, None),
    }
}
