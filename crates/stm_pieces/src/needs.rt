//! What a change of a loaned record needs besides its terms.
ghost use Rattle.std.specs.Prelude.{◌≡◌, true, false};
ghost use Rattle.py_data.specs.Changes.{Suits, Outgrows};
ghost use Rattle.stm_pieces.specs.PieceState.{growth};

use crate::known::knows;
use py_data::{Change, Entry, Records};

/// How many values a change adds to a record.
pub fn growth(c: &Change) -> usize
    ensures { result ≡ growth c.now }
{
    match c {
        Change::Push(_) => 1,
        Change::Pair(_, _) => 2,
        _ => 0,
    }
}

/// A record has room for what a change adds.
pub fn has_room(r: &Entry, c: &Change) -> bool
    ensures yes { result ≡ true → Outgrows c.now r.now → ⊥ }
    ensures not { result ≡ false → Outgrows c.now r.now }
{
    let (room, _) = r.rooms();
    let full = r.values().len() == room;
    match c {
        Change::Push(_) => !full,
        Change::Pair(_, _) => !full,
        _ => true,
    }
}

/// The key of a new pair can be looked for in its dictionary: its record and those of all keys are here.
pub fn keys_known<R: Records>(heap: &R, r: &Entry, c: &Change) -> bool
    ensures yes { result ≡ true → Suits true (R.records heap.now) c.now r.now
        → Suits false (R.records heap.now) c.now r.now }
    ensures not { result ≡ false → Suits false (R.records heap.now) c.now r.now → ⊥ }
{
    match c {
        Change::Pair(key, _) => knows(heap, r.values(), *key),
        _ => true,
    }
}
