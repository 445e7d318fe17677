//! Lists of names without repetition.
ghost use Rattle.std.specs.Prelude.{◌≡◌, ◌<◌, [], length, map, position, IfSome, OnOk, OnErr};
ghost use Rattle.std.specs.Str.{bytes_eq};
ghost use Rattle.py_base.specs.NameLists.{has, with_name};

use crate::NoMemory;
use indexmap::IndexSet;
use std::alloc::Global;
use std::marker::Model;

/// Names in the order in which they were noted, which contracts see as that list. A name is found in constant time, but
/// for collisions of the hash.
#[derive(Drop)]
pub struct NameSet<'a> {
    set: IndexSet<&'a [u8]>,
}

impl<'a> Model for NameSet<'a> {
    ghost use Rattle.std.specs.Prelude.{List, ℕ, map};

    ghost Value = { List (List ℕ) };

    ghost view = { λ a. map (λ x. x.now) a.set.keys };
}

impl<'a> NameSet<'a> {
    /// No names.
    pub fn new(alloc: Global) -> NameSet<'a>
        ensures { result ≡ [] }
    {
        NameSet {
            set: IndexSet::new(alloc),
        }
    }

    /// How many names there are.
    pub fn len(&self) -> usize
        ensures { result ≡ length self.now }
    {
        self.set.len()
    }

    /// Whether the name is there.
    pub fn has(&self, name: &[u8]) -> bool
        ensures { result ≡ has name.now self.now }
    {
        self.set.contains(name)
    }

    /// The place of a name, from 0, if it is there.
    pub fn find(&self, name: &[u8]) -> Option<usize>
        ensures place { result ≡ position (bytes_eq name.now) self.now }
        ensures within { IfSome result (λ i. i < length self.now) }
    {
        self.set.get_index_of(name)
    }

    /// Adds a name, if it isn't there.
    pub fn note(&mut self, name: &'a [u8]) -> Result<(), NoMemory>
        ensures names { OnOk result (self.new ≡ with_name self.old name.now) }
        ensures err { OnErr result (self.new ≡ self.old) }
    {
        let _ = self.set.insert_full(name)?;
        Ok(())
    }

    /// The names, in their order.
    pub fn as_slice(&self) -> &[&'a [u8]]
        ensures { map (λ x. x.now) result.now ≡ self.now }
    {
        self.set.as_slice()
    }
}
