//! The records of a loan, and copies of those that were changed.
ghost use Rattle.std.specs.Prelude.{◌≡◌, ◌<◌, ◌++◌, ◌∷◌, [], Some, None, length, false, IsSome, IfOk, OnOk, OnErr, option_copied, vec_len, vec_capacity};
ghost use Rattle.std.specs.Ordering.{nat_cmp};
ghost use Rattle.std.specs.BTreeMap as tree;
ghost use Rattle.lock_run.specs.Space.{space_heap, space_base};
ghost use Rattle.py_data.specs.Changes.{Allows};
ghost use Rattle.py_data.specs.Sense.{IfThere};
ghost use Rattle.stm_pieces.specs.PieceState.{but_at};
ghost use Rattle.stm_pieces.specs.Terms.{AreNames, loaned_in, laid_over};

use lock_run::Space;
use py_data::{Addr, Change, Entry, NoMemory};
use std::alloc::Global;
use std::collections::BTreeMap;

/// A record as it was loaned, and on which terms.
#[derive(Debug, Drop)]
pub struct OnTerms {
    /// The record.
    pub entry: Entry,
    /// How many values it may have.
    pub most: usize,
    /// Whether it may be changed.
    pub locked: bool,
}

/// Puts a record on its terms at an address.
fn put(loaned: &mut BTreeMap<u32, OnTerms>, a: u32, t: OnTerms) -> Result<(), NoMemory>
    ensures ok { OnOk result (tree.get nat_cmp loaned.new ≡ but_at (tree.get nat_cmp loaned.old) a (Some t)) }
    ensures err { OnErr result (tree.get nat_cmp loaned.new ≡ tree.get nat_cmp loaned.old) }
{
    loaned.insert(a, t)?;
    Ok(())
}

/// Adds a name to a list that has room for it.
fn name(names: &mut Vec<Addr>, a: Addr)
    requires { vec_len names.old < vec_capacity names.old }
    ensures { names.new.items ≡ names.old.items ++ a ∷ [] }
{
    match names.push(a) {
        Ok(()) => (),
        Err(_) => unreachable!(),
    }
}

/// Copies a record to those that may be changed, if it isn't among them. At want of memory, too, no record that is
/// shown is another.
fn own(
    changed: &mut Space,
    loaned: &BTreeMap<u32, OnTerms>,
    alloc: Global,
    a: u32,
) -> Result<(), NoMemory>
    requires { IsSome (laid_over (space_heap changed.old) (λ b. loaned_in (tree.get nat_cmp loaned.now b)) a) }
    ensures own { OnOk result (space_heap changed.new a ≡ laid_over (space_heap changed.old)
        (λ b. loaned_in (tree.get nat_cmp loaned.now b)) a) }
    ensures heap { laid_over (space_heap changed.new) (λ b. loaned_in (tree.get nat_cmp loaned.now b)) ≡ laid_over
        (space_heap changed.old) (λ b. loaned_in (tree.get nat_cmp loaned.now b)) }
    ensures base { space_base changed.new ≡ space_base changed.old }
{
    if changed.has(a) {
        return Ok(());
    }
    match loaned.get(&a) {
        Some(t) => {
            let copied = t.entry.copy(alloc)?;
            match changed.add(a, copied) {
                Ok(()) => Ok(()),
                Err(want) => Err(want),
            }
        }
        None => unreachable!(),
    }
}

/// Records on terms, which stay as they were loaned, and copies of those that were changed, with a journal by which a
/// step is taken back. A record is copied at its first change. A look takes two indexes.
#[derive(Drop)]
pub struct Lent {
    loaned: BTreeMap<u32, OnTerms>,
    names: Vec<Addr>,
    changed: Space,
    ghost named: { AreNames names.items (tree.get nat_cmp loaned) },
}

impl Lent {
    ghost use Rattle.std.specs.Prelude.{◌≤◌, ◌⊎◌, true};
    ghost use Rattle.py_data.specs.Changes.{after, Replaced};
    ghost use Rattle.py_data.specs.Heap.{no_records};
    ghost use Rattle.stm_pieces.specs.LentOf.{terms_of, lent_loaned, lent_heap, lent_base, lent_most, lent_locked};
    ghost use Rattle.stm_pieces.specs.inner.Lending.{SameLent, LentMore};

    /// No records.
    pub fn new(alloc: Global) -> Lent
        ensures terms { terms_of result ≡ (λ _. None) }
        ensures names { result.names.items ≡ [] }
        ensures heap { lent_heap result ≡ no_records }
        ensures base { lent_base result ≡ no_records }
    {
        Lent {
            loaned: BTreeMap::new(alloc),
            names: Vec::new(alloc),
            changed: Space::new(alloc),
        }
    }

    /// The addresses of the records, in the order of the loan.
    pub fn names(&self) -> &[Addr]
        ensures { result.now ≡ self.now.names.items }
    {
        self.names.as_slice()
    }

    /// The record at an address as it was loaned, if one is loaned there.
    pub fn loaned(&self, a: u32) -> Option<&Entry>
        ensures { option_copied result ≡ lent_loaned self.now a }
    {
        match self.loaned.get(&a) {
            Some(t) => Some(&t.entry),
            None => None,
        }
    }

    /// The record at an address as it stands, if one is loaned there.
    pub fn look(&self, a: u32) -> Option<&Entry>
        ensures { option_copied result ≡ lent_heap self.now a }
    {
        match self.changed.look(a) {
            Some(r) => Some(r),
            None => self.loaned(a),
        }
    }

    /// Whether the record at an address may be changed.
    pub fn is_locked(&self, a: u32) -> bool
        ensures { result ≡ lent_locked self.now a }
    {
        match self.loaned.get(&a) {
            Some(t) => t.locked,
            None => false,
        }
    }

    /// Whether the record at an address may be changed and have so many values.
    pub fn allows(&self, a: u32, n: usize) -> bool
        ensures yes { result ≡ true → (lent_locked self.now a ≡ true) × (n ≤ lent_most self.now a) }
        ensures not { result ≡ false → (lent_locked self.now a ≡ false) ⊎ (lent_most self.now a < n) }
    {
        match self.loaned.get(&a) {
            Some(t) => t.locked && n <= t.most,
            None => false,
        }
    }

    /// Adds a record at an address that is free, which may have as many values as it has. At want of memory there is no
    /// record more.
    pub fn lend(&mut self, a: Addr, r: Entry, locked: bool) -> Result<(), NoMemory>
        requires heap { lent_heap self.old a.0 ≡ None }
        requires base { lent_base self.old a.0 ≡ None }
        ensures ok { OnOk result (LentMore a r locked self.old self.new) }
        ensures err { OnErr result (SameLent self.old self.new) }
    {
        let most = r.values().len();
        self.names.reserve(1)?;
        let t = OnTerms {
            entry: r,
            most,
            locked,
        };
        match put(&mut self.loaned, a.0, t) {
            Ok(()) => {
                name(&mut self.names, a);
                Ok(())
            }
            Err(want) => Err(want),
        }
    }

    /// Makes a change of a record. At want of memory no record is another.
    pub fn replace(&mut self, alloc: Global, a: u32, c: Change) -> Result<(), NoMemory>
        requires { IfThere false (lent_heap self.old a) (λ r. Allows c r) }
        ensures heap { OnOk result (Replaced a (after c) (lent_heap self.old) (lent_heap self.new)) }
        ensures err { OnErr result (lent_heap self.new ≡ lent_heap self.old) }
        ensures base { lent_base self.new ≡ lent_base self.old }
        ensures terms { terms_of self.new ≡ terms_of self.old }
        ensures names { self.new.names.items ≡ self.old.names.items }
    {
        match own(&mut self.changed, &self.loaned, alloc, a) {
            Ok(()) => match self.changed.replace(alloc, a, c) {
                Ok(()) => Ok(()),
                Err(want) => Err(want),
            },
            Err(want) => Err(want),
        }
    }

    /// Opens a step: what stands now is what `undo` gives back.
    pub fn open(&mut self)
        ensures heap { lent_heap self.new ≡ lent_heap self.old }
        ensures base { lent_base self.new ≡ lent_heap self.old }
        ensures terms { terms_of self.new ≡ terms_of self.old }
        ensures names { self.new.names.items ≡ self.old.names.items }
    {
        self.changed.open();
    }

    /// Takes the step back.
    pub fn undo(&mut self)
        ensures heap { lent_heap self.new ≡ lent_base self.old }
        ensures base { lent_base self.new ≡ lent_base self.old }
        ensures terms { terms_of self.new ≡ terms_of self.old }
        ensures names { self.new.names.items ≡ self.old.names.items }
    {
        self.changed.undo();
    }
}
