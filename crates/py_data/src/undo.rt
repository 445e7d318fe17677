//! What takes a change of a record back, and the journal of that.
ghost use Rattle.std.specs.Prelude.{◌≡◌, ◌<◌, [], ◌∷◌, ◌++◌, vec_len, vec_capacity};

use crate::value::{Value, Values};

/// What takes one change of a record back. It has what the change took away, and no more.
#[derive(Debug, Drop)]
pub enum Undo {
    /// The value that stood in a place.
    Put(usize, Value),
    /// So many values, and that room.
    Shorten(usize, usize),
    /// The values that stood at the end.
    Extend(Values),
    /// The pair that had that number, as a key and its value.
    Insert(usize, Value, Value),
}

/// Adds an entry to a journal of changes that has room for it: at an address what takes the change back, or nothing where
/// the record was made.
pub fn note(journal: &mut Vec<(u32, Option<Undo>)>, a: u32, undo: Option<Undo>)
    requires { vec_len journal.old < vec_capacity journal.old }
    ensures { journal.new.items ≡ journal.old.items ++ (a, undo) ∷ [] }
{
    match journal.push((a, undo)) {
        Ok(()) => (),
        Err(_) => unreachable!(),
    }
}
