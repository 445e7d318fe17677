//! The records that one segment of a store of maps holds, with a journal by which a step is taken back.
ghost use Rattle.std.specs.Prelude.{◌≡◌, ◌<◌, Some, None, length, slice_get, true, IfOk, IfSome, IfNone, OnOk, OnErr, is_some, [], ◌∷◌, ◌++◌, option_copied, vec_len, vec_capacity};
ghost use Rattle.std.specs.Prelude.{false};
ghost use Rattle.py_data.specs.Changes.{Allows};
ghost use Rattle.py_data.specs.Heap.{put_at, no_records};
ghost use Rattle.py_data.specs.Sense.{IfThere};
ghost use Rattle.seg_store.specs.Meaning.{overlay};
ghost use Rattle.py_data.specs.Journal.{IsUndoable, undoable_prop};
ghost use Rattle.seg_store.specs.inner.Table.{table_heap};
ghost use Rattle.seg_store.specs.inner.Images.{image_in, Reaches};

use crate::table::Table;
use py_data::{Change, Entry, NoMemory, Undo, note};
use std::alloc::Global;

/// Records, and a journal of what the open step did to them, the last one last: at each address what takes the change
/// back, or nothing where the step made the record. A look takes two indexes, a change besides only what it changes,
/// and taking a step back goes through its journal.
#[derive(Drop)]
pub struct Space {
    records: Table,
    journal: Vec<(u32, Option<Undo>)>,
    ghost undoable: { IsUndoable journal.items (table_heap records) } by { undoable_prop journal.items (table_heap records) },
}

impl Space {
    ghost use Rattle.seg_store.specs.inner.Space.{space_heap, space_base};
    ghost use Rattle.py_data.specs.Changes.{after, Replaced};

    /// No records.
    pub fn new(alloc: Global) -> Self
        ensures heap { space_heap result ≡ no_records }
        ensures base { space_base result ≡ no_records }
    {
        Space {
            records: Table::new(alloc),
            journal: Vec::new(alloc),
        }
    }

    /// The record at an address, if one is there.
    pub fn look(&self, a: u32) -> Option<&Entry>
        ensures { option_copied result ≡ space_heap self.now a }
    {
        self.records.get(a)
    }

    /// Whether a record is there.
    pub fn has(&self, a: u32) -> bool
        ensures { result ≡ is_some (space_heap self.now a) }
    {
        self.records.has(a)
    }

    /// Puts a record at an address that is free, where it stays when the step is taken back. At want of memory the
    /// records are as before.
    pub fn hold(&mut self, a: u32, r: Entry) -> Result<(), NoMemory>
        requires { space_heap self.old a ≡ None }
        ensures heap { OnOk result (space_heap self.new ≡ put_at (space_heap self.old) a r) }
        ensures base { OnOk result (space_base self.new ≡ put_at (space_base self.old) a r) }
        ensures err { OnErr result (space_heap self.new ≡ space_heap self.old) }
        ensures err_base { OnErr result (space_base self.new ≡ space_base self.old) }
    {
        self.records.put(a, r)?;
        Ok(())
    }

    /// Puts a record that the step makes at an address that is free. At want of memory the records are as before.
    pub fn add(&mut self, a: u32, r: Entry) -> Result<(), NoMemory>
        requires { space_heap self.old a ≡ None }
        ensures heap { OnOk result (space_heap self.new ≡ put_at (space_heap self.old) a r) }
        ensures base { space_base self.new ≡ space_base self.old }
        ensures err { OnErr result (space_heap self.new ≡ space_heap self.old) }
    {
        self.journal.reserve(1)?;
        self.records.put(a, r)?;
        note(&mut self.journal, a, None);
        Ok(())
    }

    /// Makes a change of the record at an address. At want of memory the records are as before.
    pub fn replace(&mut self, alloc: Global, a: u32, c: Change) -> Result<(), NoMemory>
        requires { IfThere false (space_heap self.old a) (λ r. Allows c r) }
        ensures heap { OnOk result (Replaced a (after c) (space_heap self.old) (space_heap self.new)) }
        ensures base { space_base self.new ≡ space_base self.old }
        ensures err { OnErr result (space_heap self.new ≡ space_heap self.old) }
    {
        self.journal.reserve(1)?;
        let undo = self.records.change(alloc, a, c)?;
        note(&mut self.journal, a, Some(undo));
        Ok(())
    }

    /// Opens a step: what stands now is what `undo` gives back.
    pub fn open(&mut self)
        ensures heap { space_heap self.new ≡ space_heap self.old }
        ensures base { space_base self.new ≡ space_heap self.old }
        ensures journal { self.new.journal.items ≡ [] }
    {
        self.journal.clear();
    }

    /// Takes the step back, its last change first. It takes no memory.
    pub fn undo(&mut self)
        ensures heap { space_heap self.new ≡ space_base self.old }
        ensures base { space_base self.new ≡ space_base self.old }
    {
        'entries: while let Some((a, undo)) = self.journal.pop() {
            self.records.restore(a, undo);
        }
    }

    /// Moves all records into an image, at their addresses. It takes no memory.
    pub fn give(&mut self, image: &mut Vec<Option<Entry>>)
        requires { Reaches (space_heap self.old) (length image.old.items) }
        ensures image { image_in (slice_get image.new.items) ≡ overlay (image_in (slice_get image.old.items))
            (space_heap self.old) }
        ensures length { length image.new.items ≡ length image.old.items }
        ensures heap { space_heap self.new ≡ no_records }
        ensures base { space_base self.new ≡ no_records }
    {
        self.open();
        self.records.give(image);
    }

    /// Lets all records go.
    pub fn clear(&mut self)
        ensures heap { space_heap self.new ≡ no_records }
        ensures base { space_base self.new ≡ no_records }
    {
        self.open();
        self.records.clear();
    }
}
