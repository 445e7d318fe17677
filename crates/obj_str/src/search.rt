//! Where a part stands in a text.
ghost use Rattle.std.specs.Prelude.{◌≡◌};
ghost use Rattle.obj_str.specs.Pieces as pieces;

use memchr::memmem;

/// The least place, from 0, where a part stands in a text; 0 for an empty part. It takes time linear in both.
#[tactic(auto, using(crate::proofs::PiecesLemmas::found))]
pub fn find(bytes: &[u8], part: &[u8]) -> Option<usize>
    ensures { result ≡ pieces.find bytes.now part.now }
{
    memmem::find(bytes, part)
}

/// The text begins with the part.
#[tactic(auto, using(crate::proofs::PiecesLemmas::begins_is))]
pub fn begins(bytes: &[u8], part: &[u8]) -> bool
    ensures { result ≡ pieces.begins part.now bytes.now }
{
    bytes.starts_with(part)
}

/// The text ends with the part.
pub fn ends(bytes: &[u8], part: &[u8]) -> bool
    ensures { result ≡ pieces.ends part.now bytes.now }
{
    bytes.ends_with(part)
}
