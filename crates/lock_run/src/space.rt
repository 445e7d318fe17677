//! The records, with a journal by which a step is taken back.
ghost use Rattle.std.specs.Prelude.{◌≡◌, ◌<◌, Option, Some, None, IfOk, OnOk, OnErr, is_some, [], ◌∷◌, ◌++◌, option_copied, vec_len, vec_capacity};
ghost use Rattle.std.specs.Prelude.{false};
ghost use Rattle.std.specs.Ordering.{nat_cmp};
ghost use Rattle.std.specs.BTreeMap as tree;
ghost use Rattle.py_data.specs.Changes.{Allows};
ghost use Rattle.py_data.specs.Heap.{put_at};
ghost use Rattle.py_data.specs.Sense.{IfThere};
ghost use Rattle.py_data.specs.Journal.{CanRestore, IsChanged, IsUndoable, restore_at, undoable_prop};

use py_data::{Change, Entry, NoMemory, Records, Undo, note};
use std::alloc::Global;
use std::collections::BTreeMap;

/// Puts a record at an address.
fn place(records: &mut BTreeMap<u32, Entry>, a: u32, r: Entry) -> Result<(), NoMemory>
    ensures ok { OnOk result (tree.get nat_cmp records.new ≡ put_at (tree.get nat_cmp records.old) a r) }
    ensures err { OnErr result (tree.get nat_cmp records.new ≡ tree.get nat_cmp records.old) }
{
    records.insert(a, r)?;
    Ok(())
}

/// Changes the record at an address in place.
fn change(
    records: &mut BTreeMap<u32, Entry>,
    alloc: Global,
    a: u32,
    c: Change,
) -> Result<Undo, NoMemory>
    requires { IfThere false (tree.get nat_cmp records.old a) (λ r. Allows c r) }
    ensures ok { IfOk result (λ u. IsChanged a c u (tree.get nat_cmp records.old) (tree.get nat_cmp records.new)) }
    ensures err { OnErr result (tree.get nat_cmp records.new ≡ tree.get nat_cmp records.old) }
{
    match records.get_mut(&a) {
        Some(r) => r.apply(alloc, c),
        None => unreachable!(),
    }
}

/// Takes back what was done at an address: a change of a record, or its making. It takes no memory.
fn restore(records: &mut BTreeMap<u32, Entry>, a: u32, undo: Option<Undo>)
    requires { CanRestore undo (tree.get nat_cmp records.old a) }
    ensures { tree.get nat_cmp records.new ≡ restore_at (tree.get nat_cmp records.old) a undo }
{
    match undo {
        Some(u) => match records.get_mut(&a) {
            Some(r) => r.take_back(u),
            None => unreachable!(),
        },
        None => {
            let _ = records.remove(&a);
        }
    }
}

/// The records of a heap, and a journal of what the open step did to them, the last one last: at each address what
/// takes the change back, or nothing where the record was made. A look takes time of the logarithm of how many
/// records there are, a change besides only that of what it changes, and taking a step back goes through its journal.
#[derive(Drop)]
pub struct Space {
    records: BTreeMap<u32, Entry>,
    journal: Vec<(u32, Option<Undo>)>,
    ghost undoable: { IsUndoable journal.items (tree.get nat_cmp records) } by { undoable_prop journal.items (tree.get nat_cmp records) },
}

impl Space {
    ghost use Rattle.lock_run.specs.Space.{space_heap, space_base};
    ghost use Rattle.py_data.specs.Changes.{after, Replaced};

    /// No records.
    pub fn new(alloc: Global) -> Self
        ensures heap { space_heap result ≡ (λ _. None) }
        ensures base { space_base result ≡ (λ _. None) }
    {
        Space {
            records: BTreeMap::new(alloc),
            journal: Vec::new(alloc),
        }
    }

    /// The record at an address, if one is there.
    pub fn look(&self, a: u32) -> Option<&Entry>
        ensures { option_copied result ≡ space_heap self.now a }
    {
        self.records.get(&a)
    }

    /// Whether a record is there.
    pub fn has(&self, a: u32) -> bool
        ensures { result ≡ is_some (space_heap self.now a) }
    {
        self.records.contains_key(&a)
    }

    /// Puts a new record at an address that is free. At want of memory the records are as before.
    pub fn add(&mut self, a: u32, r: Entry) -> Result<(), NoMemory>
        requires { space_heap self.old a ≡ None }
        ensures heap { OnOk result (space_heap self.new ≡ put_at (space_heap self.old) a r) }
        ensures base { space_base self.new ≡ space_base self.old }
        ensures err { OnErr result (space_heap self.new ≡ space_heap self.old) }
    {
        self.journal.reserve(1)?;
        place(&mut self.records, a, r)?;
        note(&mut self.journal, a, None);
        Ok(())
    }

    /// Makes a change of the record at an address. At want of memory the records are as before.
    pub fn replace(&mut self, alloc: Global, a: u32, c: Change) -> Result<(), NoMemory>
        requires { IfThere false (space_heap self.old a) (λ r. Allows c r) }
        ensures heap { OnOk result (Replaced a (after c) (space_heap self.old) (space_heap self.new)) }
        ensures base { space_base self.new ≡ space_base self.old }
        ensures err { OnErr result (space_heap self.new ≡ space_heap self.old) }
    {
        self.journal.reserve(1)?;
        let undo = change(&mut self.records, alloc, a, c)?;
        note(&mut self.journal, a, Some(undo));
        Ok(())
    }

    /// Opens a step: what stands now is what `undo` gives back.
    pub fn open(&mut self)
        ensures heap { space_heap self.new ≡ space_heap self.old }
        ensures base { space_base self.new ≡ space_heap self.old }
    {
        self.journal.clear();
    }

    /// Takes the step back, its last change first. It takes no memory.
    pub fn undo(&mut self)
        ensures heap { space_heap self.new ≡ space_base self.old }
        ensures base { space_base self.new ≡ space_base self.old }
    {
        while let Some((a, undo)) = self.journal.pop() {
            restore(&mut self.records, a, undo);
        }
    }
}

impl Records for Space {
    ghost use Rattle.lock_run.specs.Space.{space_heap};

    ghost records = { space_heap };

    fn record(&self, a: u32) -> Option<&Entry> {
        self.look(a)
    }
}
