//! A text that grows, and may become longer than a string may be.
ghost use Rattle.std.specs.Prelude.{◌≡◌, ◌++◌, IfOk};
ghost use Rattle.obj_str.specs.Cutting.{fitting};

use py_data::{Bytes, LENGTH_LIMIT, NoMemory};

/// A text with more bytes at its end. None where it would be longer than a string may be; then nothing is added.
#[tactic(auto, using(crate::proofs::Fitting::fits_both, crate::proofs::Fitting::fits_not))]
pub fn grown(text: Bytes, more: &[u8]) -> Result<Option<Bytes>, NoMemory>
    ensures { IfOk result (λ o. o ≡ fitting (text ++ more.now)) }
{
    if text.len() > LENGTH_LIMIT || more.len() > LENGTH_LIMIT - text.len() {
        return Ok(None);
    }
    let mut longer = text;
    longer.extend_from_slice(more)?;
    Ok(Some(longer))
}

/// The same with two parts.
pub fn grown_by(text: Bytes, part: &[u8], other: &[u8]) -> Result<Option<Bytes>, NoMemory>
    ensures { IfOk result (λ o. o ≡ fitting (text ++ (part.now ++ other.now))) }
{
    match grown(text, part)? {
        Some(longer) => grown(longer, other),
        None => Ok(None),
    }
}
