//! What one segment of a store of maps has in hand.
ghost use Rattle.std.specs.Prelude.{◌≡◌, ◌<◌, false, length, slice_get, Some, IfSome, OnOk, OnErr, option_copied};
ghost use Rattle.py_data.specs.Changes.{Allows};
ghost use Rattle.py_data.specs.Sense.{IfThere};
ghost use Rattle.seg_store.specs.inner.Images.{image_in, Reaches};
ghost use Rattle.seg_store.specs.Meaning.{no_part, holds, overlay};
ghost use Rattle.seg_store.specs.Calls.{begun, marked, first_locked, made, opened, undone, ended};
ghost use Rattle.seg_store.specs.inner.Holding.{IsGood, IsHeld, Changes};
ghost use Rattle.seg_store.specs.inner.Space.{space_heap, space_base};

use crate::looks::Looks;
use crate::space::Space;
use py_data::{Addr, Change, Entry, Names, NoMemory};
use std::alloc::Global;

/// The records that a segment has locked or made, as it sees them; which of them it has locked and which made, in
/// order; how many it had made when its step began; and what it has looked at.
#[derive(Drop)]
pub struct Hand {
    held: Space,
    changed: Names,
    made: Names,
    kept: usize,
    looked: Looks,
    ghost sound: { IsHeld (space_heap held) (space_base held) changed made kept },
}

impl Hand {
    ghost use Rattle.seg_store.specs.inner.Hands.{part_of};

    /// Nothing.
    pub fn new(alloc: Global) -> Hand
        ensures { part_of result ≡ no_part }
    {
        Hand {
            held: Space::new(alloc),
            changed: Names::new(alloc),
            made: Names::new(alloc),
            kept: 0,
            looked: Looks::new(alloc),
        }
    }

    /// The record at an address, if the segment holds it.
    pub fn look(&self, a: u32) -> Option<&Entry>
        ensures entry { option_copied result ≡ (part_of self.now).changes a }
        ensures good { IfSome result (λ r. IsGood r.now) }
    {
        self.held.look(a)
    }

    /// Whether it holds a record.
    pub fn holds(&self, a: Addr) -> bool
        ensures { result ≡ holds (part_of self.now) a.0 }
    {
        self.held.has(a.0)
    }

    /// Whether it has looked at a record.
    pub fn has_looked(&self, a: Addr) -> bool
        ensures { result ≡ (part_of self.now).looked a.0 }
    {
        self.looked.has(a.0)
    }

    /// How many records it has locked.
    pub fn changed_len(&self) -> usize
        ensures { result ≡ length (part_of self.now).changed }
    {
        self.changed.len()
    }

    /// The locked record of that number, from 0, in the order of the locks.
    pub fn changed_at(&self, i: usize) -> Addr
        requires { i < length (part_of self.now).changed }
        ensures { slice_get (part_of self.now).changed i ≡ Some result.0 }
    {
        self.changed.at(i)
    }

    /// It looks at a record.
    pub fn mark(&mut self, a: Addr) -> Result<(), NoMemory>
        ensures ok { OnOk result (part_of self.new ≡ marked a.0 (part_of self.old)) }
        ensures err { OnErr result (part_of self.new ≡ part_of self.old) }
    {
        self.looked.mark(a.0)?;
        Ok(())
    }

    /// It looks at no record any more.
    pub fn forget(&mut self)
        ensures { part_of self.new ≡ begun (part_of self.old) }
    {
        self.looked.clear();
    }

    /// It locks a record, which is that one now, and which counts as looked at.
    pub fn lock(&mut self, a: Addr, now: Entry) -> Result<(), NoMemory>
        requires free { holds (part_of self.old) a.0 ≡ false }
        requires good { IsGood now }
        ensures ok { OnOk result (part_of self.new ≡ first_locked a.0 now (part_of self.old)) }
        ensures err { OnErr result (part_of self.new ≡ part_of self.old) }
    {
        self.looked.prepare(a.0)?;
        let count = self.changed.len();
        self.changed.push(a)?;
        match self.held.hold(a.0, now) {
            Ok(()) => {
                self.looked.flag(a.0);
                Ok(())
            }
            Err(e) => {
                self.changed.truncate(count);
                Err(e)
            }
        }
    }

    /// It changes a record that it holds, in place.
    pub fn change(&mut self, alloc: Global, a: Addr, c: Change) -> Result<(), NoMemory>
        requires { IfThere false ((part_of self.old).changes a.0) (λ r. Allows c r) }
        ensures ok { OnOk result (Changes a.0 c (part_of self.old) (part_of self.new)) }
        ensures err { OnErr result (part_of self.new ≡ part_of self.old) }
    {
        self.held.replace(alloc, a.0, c)?;
        Ok(())
    }

    /// It makes a record of that name.
    pub fn make(&mut self, n: Addr, r: Entry) -> Result<(), NoMemory>
        requires free { holds (part_of self.old) n.0 ≡ false }
        requires good { IsGood r }
        ensures ok { OnOk result (part_of self.new ≡ made n.0 r (part_of self.old)) }
        ensures err { OnErr result (part_of self.new ≡ part_of self.old) }
    {
        let count = self.made.len();
        self.made.push(n)?;
        match self.held.add(n.0, r) {
            Ok(()) => Ok(()),
            Err(e) => {
                self.made.truncate(count);
                Err(e)
            }
        }
    }

    /// Its step begins.
    pub fn open(&mut self)
        ensures { part_of self.new ≡ opened (part_of self.old) }
    {
        self.held.open();
        self.kept = self.made.len();
    }

    /// Its step is taken back.
    pub fn undo(&mut self)
        ensures { part_of self.new ≡ undone (part_of self.old) }
    {
        self.held.undo();
        self.made.truncate(self.kept);
    }

    /// What it holds is moved into an image.
    pub fn publish(&mut self, image: &mut Vec<Option<Entry>>)
        requires { Reaches (part_of self.old).changes (length image.old.items) }
        ensures part { part_of self.new ≡ ended (part_of self.old) }
        ensures image { image_in (slice_get image.new.items) ≡ overlay (image_in (slice_get image.old.items))
            (part_of self.old).changes }
        ensures length { length image.new.items ≡ length image.old.items }
    {
        self.held.give(image);
        self.changed.truncate(0);
        self.made.truncate(0);
        self.kept = 0;
    }

    /// What it holds is let go.
    pub fn let_go(&mut self)
        ensures { part_of self.new ≡ ended (part_of self.old) }
    {
        self.held.clear();
        self.changed.truncate(0);
        self.made.truncate(0);
        self.kept = 0;
    }
}
