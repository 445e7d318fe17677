//! The changes that a piece has made, and how many of them before its open step.
ghost use Rattle.std.specs.Prelude.{◌≡◌, ◌<◌, ◌≤◌, vec_len, vec_capacity, [], ◌∷◌, ◌++◌, OnOk};

use py_data::{Addr, Change, NoMemory};
use std::alloc::Global;

/// Changes in the order in which they were made, each with the address of its record. Noting one and taking back those
/// of a step is quick.
#[derive(Drop)]
pub struct Noted {
    all: Vec<(Addr, Change)>,
    kept: usize,
    ghost within: { kept ≤ vec_len all },
}

impl Noted {
    ghost use Rattle.stm_pieces.specs.LentOf.{all_edits, kept_edits};

    /// No changes.
    pub fn new(alloc: Global) -> Noted
        ensures all { all_edits result ≡ [] }
        ensures kept { kept_edits result ≡ [] }
    {
        Noted {
            all: Vec::new(alloc),
            kept: 0,
        }
    }

    /// The changes.
    pub fn as_slice(&self) -> &[(Addr, Change)]
        ensures { result.now ≡ all_edits self.now }
    {
        self.all.as_slice()
    }

    /// Makes room for one more.
    pub fn reserve(&mut self) -> Result<(), NoMemory>
        ensures room { OnOk result (vec_len self.new.all < vec_capacity self.new.all) }
        ensures all { all_edits self.new ≡ all_edits self.old }
        ensures kept { kept_edits self.new ≡ kept_edits self.old }
    {
        self.all.reserve(1)?;
        Ok(())
    }

    /// Notes one, for which there is room.
    pub fn note(&mut self, a: Addr, c: Change)
        requires { vec_len self.old.all < vec_capacity self.old.all }
        ensures all { all_edits self.new ≡ all_edits self.old ++ (a, c) ∷ [] }
        ensures kept { kept_edits self.new ≡ kept_edits self.old }
    {
        match self.all.push((a, c)) {
            Ok(()) => (),
            Err(_) => unreachable!(),
        }
    }

    /// Opens a step: those that were made so far stay when it is taken back.
    pub fn open(&mut self)
        ensures all { all_edits self.new ≡ all_edits self.old }
        ensures kept { kept_edits self.new ≡ all_edits self.old }
    {
        self.kept = self.all.len();
    }

    /// Takes back those of the step.
    pub fn undo(&mut self)
        ensures all { all_edits self.new ≡ kept_edits self.old }
        ensures kept { kept_edits self.new ≡ kept_edits self.old }
    {
        self.all.truncate(self.kept);
    }
}
