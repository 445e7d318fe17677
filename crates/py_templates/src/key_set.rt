//! Keyword lists without repetition.
ghost use Rattle.std.specs.Prelude.{◌≡◌, ◌≤◌, [], fold, length, OnOk};
ghost use Rattle.std.specs.List.{flat_map};
ghost use Rattle.std.specs.Cmp.{partial_equiv_from_equiv, unsigned_Decides};
ghost use Rattle.std.specs.Cmp.Lexicographic.{lists_equiv, nat_list_eq_equiv};
ghost use Rattle.std.specs.Hash as fed;
ghost use Rattle.std.specs.Hash.{items_Alike, same_Alike};
ghost use Rattle.py_templates.specs.Expressions.{key_names};
ghost use Rattle.py_templates.specs.Names.{list_number, same_names};
ghost use Rattle.py_templates.specs.Uses.{with_keys};

use indexmap::IndexSet;
use py_base::{NoMemory, split};
use py_tree::Named;
use std::alloc::Global;
use std::hash::{Hash, Hasher};
use std::marker::Model;

/// The keyword arguments of a call, which contracts see as the list of their names. Two are equal where these are the
/// same names in the same order, whatever the values.
#[derive(Drop)]
pub struct KeyNames<'a> {
    named: &'a [Named],
}

impl<'a> Model for KeyNames<'a> {
    ghost use Rattle.std.specs.Prelude.{List, ℕ};
    ghost use Rattle.py_templates.specs.Expressions.{key_names};

    ghost Value = { List (List ℕ) };

    ghost view = { λ k. key_names k.named.now };
}

impl<'a> KeyNames<'a> {
    /// The keyword arguments.
    pub fn named(&self) -> &'a [Named]
        ensures { key_names result.now ≡ self.now }
    {
        self.named
    }
}

impl<'a> PartialEq for KeyNames<'a> {
    ghost eq = { same_names };

    ghost laws = { partial_equiv_from_equiv (lists_equiv nat_list_eq_equiv) };

    fn eq(&self, other: &KeyNames<'a>) -> bool {
        same_names(self.named, other.named)
    }
}

impl<'a> Eq for KeyNames<'a> {
    ghost laws = { lists_equiv nat_list_eq_equiv };
}

impl<'a> Hash for KeyNames<'a> {
    ghost hash_input = { fed.slice (fed.slice fed.u8) };

    ghost respects_eq = { (items_Alike (items_Alike (same_Alike fed.u8 unsigned_Decides))).fed };

    fn hash<H: Hasher>(&self, state: &mut H) {
        state.write_usize(self.named.len());
        hash_names(self.named, state);
    }
}

/// Hashes the names of these keyword arguments, one after another.
fn hash_names<H: Hasher>(named: &[Named], state: &mut H)
    ensures { state.new ≡ fold H.write state.old (flat_map (fed.slice fed.u8) (key_names named.now)) }
{
    let mut rest = named;
    'names: while let Some((x, more)) = split(rest) {
        x.name.as_slice().hash(state);
        rest = more;
    }
}

/// Whether these keyword arguments have the same names, in the same order.
fn same_names(named: &[Named], other: &[Named]) -> bool
    ensures { result ≡ same_names (key_names named.now) (key_names other.now) }
{
    let mut left = named;
    let mut right = other;
    'names: while let Some((x, more)) = split(left) {
        match split(right) {
            None => return false,
            Some((y, others)) => {
                if x.name.as_slice() != y.name.as_slice() {
                    return false;
                }
                left = more;
                right = others;
            }
        }
    }
    match split(right) {
        None => true,
        Some(_) => false,
    }
}

/// Keyword lists in the order in which they were noted, which contracts see as that list. The number of one is found in
/// constant time, but for its own length and collisions of the hash.
#[derive(Drop)]
pub struct KeySet<'a> {
    set: IndexSet<KeyNames<'a>>,
}

impl<'a> Model for KeySet<'a> {
    ghost use Rattle.std.specs.Prelude.{List, ℕ};

    ghost Value = { List (List (List ℕ)) };

    ghost view = { λ k. k.set.keys };
}

impl<'a> KeySet<'a> {
    /// No lists.
    pub fn new(alloc: Global) -> KeySet<'a>
        ensures { result ≡ [] }
    {
        KeySet {
            set: IndexSet::new(alloc),
        }
    }

    /// How many lists there are.
    pub fn len(&self) -> usize
        ensures { result ≡ length self.now }
    {
        self.set.len()
    }

    /// The number of the keyword list of a call with these keyword arguments, from 0; 0 where it isn't there.
    pub fn number(&self, named: &[Named]) -> usize
        ensures number { result ≡ list_number 0 (key_names named.now) self.now }
        ensures fits { result ≤ length self.now }
    {
        match self.set.get_index_of(&KeyNames { named }) {
            Some(i) => i,
            None => 0,
        }
    }

    /// Adds the keyword list of a call with these keyword arguments, if it isn't there.
    pub fn note(&mut self, named: &'a [Named]) -> Result<(), NoMemory>
        ensures { OnOk result (self.new ≡ with_keys self.old (key_names named.now)) }
    {
        let _ = self.set.insert_full(KeyNames { named })?;
        Ok(())
    }

    /// The lists, in their order.
    pub fn as_slice(&self) -> &[KeyNames<'a>]
        ensures { result.now ≡ self.now }
    {
        self.set.as_slice()
    }
}
