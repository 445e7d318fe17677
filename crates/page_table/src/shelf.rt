//! The extents of one class that were given back.
ghost use Rattle.std.specs.Prelude.{◌≡◌, ◌≢◌, ◌+◌, ◌-◌, ◌<◌, ◌^◌, ◌↔◌, [], ◌∷◌, ◌++◌, length, is_ok, if◌then◌else◌, IsTrue};
ghost use Rattle.page_table.specs.Pages.{no_shelf};

use py_data::NoMemory;
use std::alloc::Global;
use std::marker::Model;

/// The places of extents that were given back and not taken again, and how many were ever new. It has room for each
/// extent that was ever new, so that giving one back takes no memory.
#[derive(Drop)]
pub struct Shelf {
    places: Vec<u32>,
    total: usize,
}

impl Model for Shelf {
    ghost use Rattle.std.specs.Prelude.{ℕ, ◌≤◌, ◌<◌, ◌^◌, length, vec_capacity};
    ghost use Rattle.page_table.specs.Pages.{Shelf as Extents};

    ghost Value = { Extents };

    ghost view = { λ s. record { spare = s.places.items; total = s.total } };

    ghost invariant = { λ s. (length s.places.items ≤ s.total) × (s.total ≤ vec_capacity s.places)
        × (s.total < 2 ^ 40) };
}

impl Shelf {
    /// No extents. It takes no memory.
    pub fn new(alloc: Global) -> Shelf
        ensures { result ≡ no_shelf }
    {
        Shelf {
            places: Vec::new(alloc),
            total: 0,
        }
    }

    /// Whether no extent can be taken again.
    pub fn is_empty(&self) -> bool
        ensures { IsTrue result ↔ self.now.spare ≡ [] }
    {
        self.places.is_empty()
    }

    /// How many extents were taken and not given back since.
    pub fn in_use(&self) -> usize
        ensures { result ≡ self.now.total - length self.now.spare }
    {
        self.total - self.places.len()
    }

    /// Takes the extent that was given back last.
    pub fn take(&mut self) -> u32
        requires { self.old.spare ≢ [] }
        ensures total { self.new.total ≡ self.old.total }
        ensures spare { self.old.spare ≡ self.new.spare ++ result ∷ [] }
    {
        match self.places.pop() {
            Some(place) => place,
            None => unreachable!(),
        }
    }

    /// One extent more is new: makes the room in which it may be given back.
    pub fn grow(&mut self) -> Result<(), NoMemory>
        requires { self.old.total < 2 ^ 33 }
        ensures { self.new
            ≡ (if is_ok result then record { spare = self.old.spare; total = self.old.total + 1 } else self.old) }
    {
        if self.total == self.places.capacity() {
            self.places.reserve(self.total - self.places.len() + 1)?;
        }
        self.total += 1;
        Ok(())
    }

    /// Counts an extent more as new, where none can be taken again, and makes the room in which it may be given back.
    /// Or nothing changes.
    pub fn count(&mut self) -> bool
        requires { self.old.total < 2 ^ 33 }
        ensures none { IsTrue result → self.old.spare ≡ [] }
        ensures count { self.new
            ≡ (if result then record { spare = self.old.spare; total = self.old.total + 1 } else self.old) }
    {
        self.is_empty() && self.grow().is_ok()
    }

    /// Takes back that an extent was counted.
    pub fn uncount(&mut self)
        requires { length self.old.spare < self.old.total }
        ensures { self.new ≡ record { spare = self.old.spare; total = self.old.total - 1 } }
    {
        self.total -= 1;
    }

    /// Gives an extent back. It takes no memory.
    pub fn put(&mut self, place: u32)
        requires { length self.old.spare < self.old.total }
        ensures { self.new ≡ record { spare = self.old.spare ++ place ∷ []; total = self.old.total } }
    {
        if self.places.push(place).is_err() {
            unreachable!();
        }
    }
}
