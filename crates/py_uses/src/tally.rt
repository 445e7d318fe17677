//! What a module uses of strings, global names and keyword lists, as it is gathered.
ghost use Rattle.std.specs.Prelude.{◌≡◌, ◌<◌, ◌∷◌, [], get_or, length, replicate, IfOk, OnOk};
ghost use Rattle.py_templates.specs.Expressions.{key_names};
ghost use Rattle.py_base.specs.NameLists.{has};
ghost use Rattle.py_uses.specs.inner.Tallies.{bump, inside, tally};
ghost use Rattle.py_templates.specs.Uses.{Keys, Text, name_bound, name_read};

use py_base::{NameSet, NoMemory};
use py_templates::{KeySet, is_none};
use py_tree::Named;
use std::alloc::{AllocError, Global};
use std::marker::Model;

/// What was used so far: the strings, the global names, and by their numbers the keyword lists of the bodies; and the
/// number of the next body.
#[derive(Drop)]
pub struct Tally<'a> {
    pub texts: NameSet<'a>,
    pub cells: NameSet<'a>,
    keys: Vec<KeySet<'a>>,
    next: usize,
}

impl<'a> Model for Tally<'a> {
    ghost use Rattle.py_uses.specs.inner.Tallies.{Tally};

    ghost Value = { Tally };

    ghost view = { λ t. record { texts = t.texts; cells = t.cells; keys = t.keys.items; next = t.next } };
}

/// A body: its number, and whether it is a class's.
#[derive(Clone, Copy, Debug, Drop)]
pub struct Place {
    pub number: usize,
    pub is_class: bool,
}

/// Whether a body binds a name, where the bodies bind these names.
fn is_own(all: &[NameSet], b: Place, name: &[u8]) -> bool
    ensures { result ≡ has name.now (get_or all.now b.number []) }
{
    match all.get(b.number) {
        Some(locals) => locals.has(name),
        None => false,
    }
}

/// As many bodies with the empty keyword list.
fn empty_lists<'a>(alloc: Global, count: usize) -> Result<Vec<KeySet<'a>>, NoMemory>
    ensures { IfOk result (λ keys. keys.items ≡ replicate count ([] ∷ [])) }
{
    let mut keys = Vec::new(alloc);
    for _ in 0..count {
        let mut lists = KeySet::new(alloc);
        lists.note(&[])?;
        keys.push(lists)?;
    }
    Ok(keys)
}

impl<'a> Tally<'a> {
    /// Nothing yet, of so many bodies. Keyword list 0 of each is empty.
    pub fn new(alloc: Global, count: usize) -> Result<Tally<'a>, NoMemory>
        ensures { IfOk result (λ t. t ≡ record { texts = []; cells = []; keys = replicate count ([] ∷ []); next = 0 }) }
    {
        let keys = empty_lists(alloc, count)?;
        Ok(Tally {
            texts: NameSet::new(alloc),
            cells: NameSet::new(alloc),
            keys,
            next: 0,
        })
    }

    /// The keyword lists of the body with that number.
    pub fn lists(&self, number: usize) -> &KeySet<'a>
        requires { number < length self.now.keys }
        ensures { result.now ≡ get_or self.now.keys number [] }
    {
        &self.keys[number]
    }

    /// A string is used.
    pub fn text(&mut self, bytes: &'a [u8]) -> Result<(), NoMemory>
        ensures { OnOk result (self.new ≡ tally self.old (Text bytes.now ∷ [])) }
    {
        self.texts.note(bytes)?;
        Ok(())
    }

    /// A name is read.
    pub fn read_name(&mut self, all: &[NameSet], b: Place, name: &'a [u8]) -> Result<(), NoMemory>
        ensures { OnOk result (self.new ≡ tally self.old (name_read (inside all.now b) name.now)) }
    {
        if is_none(name) {
            return Ok(());
        }
        if !is_own(all, b, name) {
            self.cells.note(name)?;
            return Ok(());
        }
        if b.is_class {
            self.texts.note(name)?;
            self.cells.note(name)?;
        }
        Ok(())
    }

    /// A name is bound or deleted.
    pub fn bind_name(&mut self, all: &[NameSet], b: Place, name: &'a [u8]) -> Result<(), NoMemory>
        ensures { OnOk result (self.new ≡ tally self.old (name_bound (inside all.now b) name.now)) }
    {
        if !is_own(all, b, name) {
            self.cells.note(name)?;
            return Ok(());
        }
        if b.is_class {
            self.texts.note(name)?;
        }
        Ok(())
    }

    /// The keyword list of a call.
    pub fn note_keys(&mut self, b: Place, named: &'a [Named]) -> Result<(), NoMemory>
        ensures { OnOk result (self.new ≡ tally self.old (Keys b.number (key_names named.now) ∷ [])) }
    {
        if b.number >= self.keys.len() {
            return Ok(());
        }
        self.keys[b.number].note(named)
    }

    /// A body begins: its place. Its number is the next one.
    pub fn enter(&mut self, is_class: bool) -> Result<Place, NoMemory>
        ensures place { IfOk result (λ p. p ≡ record { number = self.old.next; is_class = is_class }) }
        ensures next { OnOk result (self.new ≡ bump self.old 1) }
    {
        let number = self.next;
        match number.checked_add(1) {
            Some(next) => self.next = next,
            None => return Err(AllocError),
        }
        Ok(Place { number, is_class })
    }
}
