//! Parts of a text replaced by another.
ghost use Rattle.std.specs.Prelude.{◌≡◌, ◌<◌, length, IfOk};
ghost use Rattle.obj_str.specs.Cutting.{fitting};
ghost use Rattle.obj_str.specs.Pieces as pieces;

use crate::cutting::cut_at;
use crate::growing::{grown, grown_by};
use memchr::memmem::Finder;
use py_base::{first, split};
use py_data::{Bytes, NoMemory};
use std::alloc::Global;

/// The pieces of a text between the old parts, with the new one between each two. None where that is too long.
fn replace_parts(
    alloc: Global,
    bytes: &[u8],
    old: &Finder<'_>,
    new: &[u8],
) -> Result<Option<Bytes>, NoMemory>
    requires some { 0 < length old.now }
    ensures { IfOk result (λ o. o ≡ fitting (pieces.joined new.now (pieces.split old.now bytes.now))) }
{
    let mut text = Bytes::new(alloc);
    let mut rest = bytes;
    'turns: while let Some((piece, more)) = cut_at(old, rest) {
        match grown_by(text, piece, new)? {
            Some(longer) => text = longer,
            None => return Ok(None),
        }
        rest = more;
    }
    grown(text, rest)
}

/// The new part before each byte of a text, and at its end. None where that is too long.
fn between_all(alloc: Global, bytes: &[u8], new: &[u8]) -> Result<Option<Bytes>, NoMemory>
    ensures { IfOk result (λ o. o ≡ fitting (pieces.between_all new.now bytes.now)) }
{
    let mut text = Bytes::new(alloc);
    let mut rest = bytes;
    'turns: while let Some((_, more)) = split(rest) {
        match grown_by(text, new, first(rest, 1))? {
            Some(longer) => text = longer,
            None => return Ok(None),
        }
        rest = more;
    }
    grown(text, new)
}

/// A text with each old part, from the left, replaced by the new one; an empty old part stands before each byte and at
/// the end. None where the text would be longer than a string may be: it is made no further than that.
#[tactic(auto, using(crate::proofs::Fitting::replaced_empty, crate::proofs::Fitting::replaced_some))]
pub fn replaced(
    alloc: Global,
    bytes: &[u8],
    old: &[u8],
    new: &[u8],
) -> Result<Option<Bytes>, NoMemory>
    ensures { IfOk result (λ o. o ≡ fitting (pieces.replaced old.now new.now bytes.now)) }
{
    if old.is_empty() {
        between_all(alloc, bytes, new)
    } else {
        replace_parts(alloc, bytes, &Finder::new(old), new)
    }
}
