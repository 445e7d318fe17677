//! Records by address, for one segment of a store of maps.
ghost use Rattle.std.specs.Prelude.{◌≡◌, ◌<◌, ◌++◌, Some, None, length, slice_get, IfOk, IfSome, IfNone, OnOk, OnErr, is_some, option_copied, true, false};
ghost use Rattle.py_data.specs.Changes.{Allows};
ghost use Rattle.py_data.specs.Heap.{put_at, no_records};
ghost use Rattle.py_data.specs.Sense.{IfThere};
ghost use Rattle.seg_store.specs.Meaning.{overlay};
ghost use Rattle.seg_store.specs.inner.Images.{image_in, Reaches};
ghost use Rattle.py_data.specs.Journal.{CanRestore, IsChanged, restore_at, restored};
ghost use Rattle.seg_store.specs.inner.Placed.{IsPlaced, IsSlotChanged};

use py_data::{Change, Entry, NoMemory, Undo};
use std::alloc::Global;

/// Changes the record of a slot in place.
fn change_in(slot: &mut (u32, Option<Entry>), alloc: Global, c: Change) -> Result<Undo, NoMemory>
    requires { IfThere false slot.old.1 (λ r. Allows c r) }
    ensures address { slot.new.0 ≡ slot.old.0 }
    ensures ok { IfOk result (λ u. IsSlotChanged c u slot.old.1 slot.new.1) }
    ensures err { OnErr result (slot.new.1 ≡ slot.old.1) }
{
    match &mut slot.1 {
        Some(r) => r.apply(alloc, c),
        None => unreachable!(),
    }
}

/// Takes back what was done to the record of a slot: a change, or its making. It takes no memory.
fn restore_in(slot: &mut (u32, Option<Entry>), undo: Option<Undo>)
    requires { CanRestore undo slot.old.1 }
    ensures address { slot.new.0 ≡ slot.old.0 }
    ensures record { slot.new.1 ≡ restored undo slot.old.1 }
{
    match undo {
        Some(u) => match &mut slot.1 {
            Some(r) => r.take_back(u),
            None => unreachable!(),
        },
        None => slot.1 = None,
    }
}

/// A list of addresses with their records, and for each address from 0 on a place in the list, at which its record
/// stands if it has one. A look takes two indexes, and emptying the table takes the time of the list. An address whose
/// record was taken out stays in the list until the table is emptied. The places reach as far as the highest address
/// that had a record.
#[derive(Drop)]
pub struct Table {
    places: Vec<usize>,
    list: Vec<(u32, Option<Entry>)>,
    ghost placed: { IsPlaced (slice_get places.items) (slice_get list.items) },
}

#[tactic(auto, unfolding(crate::specs::inner::Table::table_heap))]
impl Table {
    ghost use Rattle.seg_store.specs.inner.Table.{table_heap};

    /// No records.
    pub fn new(alloc: Global) -> Table
        ensures { table_heap result ≡ no_records }
    {
        Table {
            places: Vec::new(alloc),
            list: Vec::new(alloc),
        }
    }

    /// The place at which the record of an address would stand.
    fn place(&self, a: u32) -> Option<usize>
        ensures { result ≡ slice_get self.now.places.items a }
    {
        self.places.get(a as usize).copied()
    }

    /// What stands at a place of the list.
    fn at(&self, p: usize) -> Option<&(u32, Option<Entry>)>
        ensures { option_copied result ≡ slice_get self.now.list.items p }
    {
        self.list.get(p)
    }

    /// The record at an address, if one is there.
    pub fn get(&self, a: u32) -> Option<&Entry>
        ensures { option_copied result ≡ table_heap self.now a }
    {
        match self.place(a) {
            Some(p) => match self.at(p) {
                Some(e) => { if e.0 == a { e.1.as_ref() } else { None } }
                None => None,
            },
            None => None,
        }
    }

    /// Whether a record is at an address.
    pub fn has(&self, a: u32) -> bool
        ensures { result ≡ is_some (table_heap self.now a) }
    {
        self.get(a).is_some()
    }

    /// Lets the places reach an address.
    fn reach(&mut self, a: u32) -> Result<(), NoMemory>
        ensures same { table_heap self.new ≡ table_heap self.old }
        ensures list { self.new.list.items ≡ self.old.list.items }
        ensures ok { OnOk result (a < length self.new.places.items) }
    {
        let count = a as usize + 1;
        if self.places.len() < count {
            self.places.resize(count, 0)?;
        }
        Ok(())
    }

    /// Puts a record at an address that is free. At want of memory the records are as before.
    pub fn put(&mut self, a: u32, r: Entry) -> Result<(), NoMemory>
        requires { table_heap self.old a ≡ None }
        ensures ok { OnOk result (table_heap self.new ≡ put_at (table_heap self.old) a r) }
        ensures err { OnErr result (table_heap self.new ≡ table_heap self.old) }
    {
        self.reach(a)?;
        self.list.reserve(1)?;
        self.places[a as usize] = self.list.len();
        match self.list.push((a, Some(r))) {
            Ok(()) => Ok(()),
            Err(_) => unreachable!(),
        }
    }

    /// The place in the list of a record that is there.
    fn found(&self, a: u32) -> usize
        requires { is_some (table_heap self.now a) ≡ true }
        ensures { slice_get self.now.list.items result ≡ Some (a, table_heap self.now a) }
    {
        match self.place(a) {
            Some(p) => p,
            None => unreachable!(),
        }
    }

    /// Changes the record at an address in place, and answers what takes the change back. At want of memory the
    /// records are as before.
    pub fn change(&mut self, alloc: Global, a: u32, c: Change) -> Result<Undo, NoMemory>
        requires { IfThere false (table_heap self.old a) (λ r. Allows c r) }
        ensures ok { IfOk result (λ u. IsChanged a c u (table_heap self.old) (table_heap self.new)) }
        ensures err { OnErr result (table_heap self.new ≡ table_heap self.old) }
    {
        let p = self.found(a);
        change_in(&mut self.list[p], alloc, c)
    }

    /// Takes back what was done at an address. It takes no memory.
    pub fn restore(&mut self, a: u32, undo: Option<Undo>)
        requires { CanRestore undo (table_heap self.old a) }
        ensures { table_heap self.new ≡ restore_at (table_heap self.old) a undo }
    {
        let p = self.found(a);
        restore_in(&mut self.list[p], undo);
    }

    /// Moves all records to their addresses in an image, in the place of those that stand there. It takes no memory.
    pub fn give(&mut self, image: &mut Vec<Option<Entry>>)
        requires { Reaches (table_heap self.old) (length image.old.items) }
        ensures image { image_in (slice_get image.new.items) ≡ overlay (image_in (slice_get image.old.items))
            (table_heap self.old) }
        ensures length { length image.new.items ≡ length image.old.items }
        ensures records { table_heap self.new ≡ no_records }
    {
        'records: while let Some((a, o)) = self.list.pop() {
            if let Some(r) = o {
                image[a as usize] = Some(r);
            }
        }
    }

    /// Lets all records go.
    pub fn clear(&mut self)
        ensures { table_heap self.new ≡ no_records }
    {
        self.list.clear();
    }
}
