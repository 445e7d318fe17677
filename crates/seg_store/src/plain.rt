//! A store of maps.
ghost use Rattle.std.specs.Prelude.{◌≡◌, ◌≤◌, ◌<◌, ◌+◌, ℕ, length, slice_get, IfOk};
ghost use Rattle.seg_store.specs.Meaning.{no_part};
ghost use Rattle.seg_store.specs.inner.Tables.{IsSound, meaning_in, part_in};

use crate::hand::Hand;
use crate::store::{SegStore, StoreFault};
use py_data::{
    Addr, Change, Entry, Head, Kind, LENGTH_LIMIT, NoMemory, Peek, Record, Records, Value,
    find_pair, value_or_unset,
};
use std::alloc::Global;

/// A store that keeps the image as a list of records by address, and for each segment a table of the records that it
/// holds, a journal of its step, and flags of the addresses that it has looked at. It has no limit of words, and is
/// never full. A name that was given isn't given again.
///
/// A look at a record takes a few indexes, and the holder of a record those of each segment. Whether a segment has
/// looked at a record, and a mark, take one. A change is made in place, and takes besides what it changes. A lock of a
/// record that isn't held yet copies the record, so once in a transaction. Opening a step takes the time of letting
/// the last step's journal go, and taking it back that of its journal; publishing and dropping take that of what the
/// segment holds, and publishing moves the records; a transaction's begin takes that of what the last one looked at.
/// These calls take no memory. A segment has a place for each address up to the highest that it held, and a flag up to
/// the highest that it marked.
#[derive(Drop)]
pub struct PlainStore {
    alloc: Global,
    image: Vec<Option<Entry>>,
    hands: Vec<Hand>,
    ghost sound: { IsSound (meaning_in (slice_get image.items) (slice_get hands.items) (length hands.items))
        (length image.items) },
}

impl PlainStore {
    ghost use Rattle.std.specs.Prelude.{ℕ, Some, None, IfSome, ◌∷◌, ◌++◌, OnOk, OnErr, option_copied, true, false};
    ghost use Rattle.py_data.specs.Changes.{after};
    ghost use Rattle.py_data.specs.Heap.{Has};
    ghost use Rattle.seg_store.specs.Store.{CanChange, IsEmpty};
    ghost use Rattle.seg_store.specs.Meaning.{sees, holds};
    ghost use Rattle.seg_store.specs.Calls.{after_mark, after_lock, after_change, after_make};
    ghost use Rattle.seg_store.specs.inner.Holding.{IsGood};
    ghost use Rattle.seg_store.specs.Plain.{plain_meaning, empty_meaning};

    /// What the image has at an address, if it has the address.
    fn slot(&self, a: u32) -> Option<&Option<Entry>>
        ensures { option_copied result ≡ slice_get self.now.image.items a }
    {
        self.image.get(a as usize)
    }

    /// The record of the image at an address, if one stands there.
    pub fn committed(&self, a: u32) -> Option<&Entry>
        ensures entry { option_copied result ≡ (plain_meaning self.now).image a }
        ensures good { IfSome result (λ r. IsGood r.now) }
    {
        match self.slot(a) {
            Some(o) => o.as_ref(),
            None => None,
        }
    }

    /// The record at an address as a segment holds it, if it does.
    fn changed(&self, k: u8, a: u32) -> Option<&Entry>
        ensures entry { option_copied result ≡ ((plain_meaning self.now).part k).changes a }
        ensures good { IfSome result (λ r. IsGood r.now) }
    {
        match self.hands.get(k as usize) {
            Some(h) => h.look(a),
            None => None,
        }
    }

    /// The record that a segment sees at an address, if one stands there.
    pub fn seen(&self, k: u8, a: u32) -> Option<&Entry>
        ensures entry { option_copied result ≡ sees (plain_meaning self.now) k a }
        ensures good { IfSome result (λ r. IsGood r.now) }
    {
        match self.changed(k, a) {
            Some(r) => Some(r),
            None => self.committed(a),
        }
    }

    /// A new store of so many segments, with no record.
    pub fn new(alloc: Global, segments: u8) -> Result<PlainStore, NoMemory>
        requires some { 1 ≤ segments }
        requires few { segments ≤ 8 }
        ensures meaning { IfOk result (λ s. plain_meaning s ≡ empty_meaning segments) }
        ensures empty { IfOk result (λ s. IsEmpty (plain_meaning s) None) }
    {
        Ok(PlainStore {
            alloc,
            image: Vec::new(alloc),
            hands: new_hands(alloc, segments)?,
        })
    }

    /// A segment looks at a record.
    fn note(&mut self, k: u8, a: Addr) -> Result<(), NoMemory>
        requires { k < (plain_meaning self.old).segments }
        ensures ok { OnOk result (plain_meaning self.new ≡ after_mark k a.0 (plain_meaning self.old)) }
        ensures err { OnErr result (plain_meaning self.new ≡ plain_meaning self.old) }
    {
        self.hands[k as usize].mark(a)?;
        Ok(())
    }

    /// A segment locks a record of the image that none holds. It copies the record.
    fn lock_first(&mut self, k: u8, a: Addr) -> Result<(), NoMemory>
        requires segment { k < (plain_meaning self.old).segments }
        requires there { Has (plain_meaning self.old).image a.0 }
        requires free { (j : ℕ) → holds ((plain_meaning self.old).part j) a.0 ≡ false }
        ensures ok { OnOk result (plain_meaning self.new ≡ after_lock k a.0 (plain_meaning self.old)) }
        ensures err { OnErr result (plain_meaning self.new ≡ plain_meaning self.old) }
    {
        let now = match self.committed(a.0) {
            Some(r) => r.copy(self.alloc)?,
            None => unreachable!(),
        };
        self.hands[k as usize].lock(a, now)?;
        Ok(())
    }

    /// A segment changes a record that it holds, in place.
    fn change(&mut self, k: u8, a: Addr, c: Change) -> Result<(), NoMemory>
        requires segment { k < (plain_meaning self.old).segments }
        requires held { holds ((plain_meaning self.old).part k) a.0 ≡ true }
        requires there { CanChange (sees (plain_meaning self.old) k) a.0 c }
        ensures ok { OnOk result (plain_meaning self.new ≡ after_change k a.0 (after c) (plain_meaning self.old)) }
        ensures err { OnErr result (plain_meaning self.new ≡ plain_meaning self.old) }
    {
        self.hands[k as usize].change(self.alloc, a, c)?;
        Ok(())
    }

    /// One address more, at which no record stands.
    fn add_blank(&mut self) -> Result<(), NoMemory>
        ensures same { plain_meaning self.new ≡ plain_meaning self.old }
        ensures ok { OnOk result (length self.new.image.items ≡ length self.old.image.items + 1) }
    {
        self.image.push(None)?;
        Ok(())
    }

    /// A segment makes a record at an address where none stands.
    fn place(&mut self, k: u8, n: Addr, r: Entry) -> Result<(), NoMemory>
        requires segment { k < (plain_meaning self.old).segments }
        requires good { IsGood r }
        requires within { n.0 < length self.old.image.items }
        requires blank { (plain_meaning self.old).image n.0 ≡ None }
        requires free { (j : ℕ) → holds ((plain_meaning self.old).part j) n.0 ≡ false }
        ensures ok { OnOk result (plain_meaning self.new ≡ after_make k n.0 r (plain_meaning self.old)) }
        ensures err { OnErr result (plain_meaning self.new ≡ plain_meaning self.old) }
    {
        self.hands[k as usize].make(n, r)?;
        Ok(())
    }
}

/// The hands of so many segments, with nothing in them.
fn new_hands(alloc: Global, segments: u8) -> Result<Vec<Hand>, NoMemory>
    ensures length { IfOk result (λ v. length v.items ≡ segments) }
    ensures empty { IfOk result (λ v. (k : ℕ) → part_in (slice_get v.items k) ≡ no_part) }
{
    let mut hands = Vec::new(alloc);
    'segments: for _ in 0..segments {
        hands.push(Hand::new(alloc))?;
    }
    Ok(hands)
}

impl Peek for PlainStore {
    ghost use Rattle.seg_store.specs.Plain.{plain_meaning};

    ghost image = { λ s. (plain_meaning s).image };

    #[tactic(auto, unfolding(py_data::specs::Heap::at))]
    fn peek_kind(&self, a: Addr) -> Kind {
        match self.committed(a.0) {
            Some(r) => r.kind(),
            None => unreachable!(),
        }
    }

    #[tactic(auto, unfolding(py_data::specs::Heap::at))]
    fn peek_len(&self, a: Addr) -> usize {
        match self.committed(a.0) {
            Some(r) => match r.kind() {
                Kind::Str => r.bytes().len(),
                _ => r.values().len(),
            },
            None => unreachable!(),
        }
    }

    #[tactic(auto, unfolding(py_data::specs::Heap::at))]
    fn peek_val(&self, a: Addr, i: usize) -> Value {
        match self.committed(a.0) {
            Some(r) => r.values()[i],
            None => unreachable!(),
        }
    }

    #[tactic(auto, unfolding(py_data::specs::Heap::at))]
    fn peek_byte(&self, a: Addr, i: usize) -> u8 {
        match self.committed(a.0) {
            Some(r) => r.bytes()[i],
            None => unreachable!(),
        }
    }
}

/// The records that a segment sees.
#[derive(Drop)]
struct Sight<'a> {
    store: &'a PlainStore,
    segment: u8,
}

impl<'a> Records for Sight<'a> {
    ghost use Rattle.seg_store.specs.Meaning.{sees};
    ghost use Rattle.seg_store.specs.Plain.{plain_meaning};

    ghost records = { λ s. sees (plain_meaning s.store.now) s.segment };

    fn record(&self, a: u32) -> Option<&Entry> {
        self.store.seen(self.segment, a)
    }
}

impl SegStore for PlainStore {
    ghost use Rattle.std.specs.Prelude.{None, refl};
    ghost use Rattle.seg_store.specs.Plain.{plain_meaning};

    ghost meaning = { plain_meaning };

    ghost reserved = { λ s. 0 };

    ghost fills = { λ s r n. ⊥ };

    ghost peaks = { λ s. None };

    ghost same_image = { λ s. refl };

    fn segments(&self) -> u8 {
        self.hands.len() as u8
    }

    fn reserved(&self) -> u64 {
        0
    }

    fn limit(&self) -> u64 {
        u64::MAX
    }

    fn known(&self) {}

    fn begin(&mut self, k: u8) {
        self.hands[k as usize].forget();
    }

    #[tactic(auto, unfolding(py_data::specs::Heap::at))]
    fn kind(&self, k: u8, a: Addr) -> Kind {
        match self.seen(k, a.0) {
            Some(r) => r.kind(),
            None => unreachable!(),
        }
    }

    #[tactic(auto, unfolding(py_data::specs::Heap::at))]
    fn len(&self, k: u8, a: Addr) -> usize {
        match self.seen(k, a.0) {
            Some(r) => match r.kind() {
                Kind::Str => r.bytes().len(),
                _ => r.values().len(),
            },
            None => unreachable!(),
        }
    }

    #[tactic(auto, unfolding(py_data::specs::Heap::at))]
    fn val(&self, k: u8, a: Addr, i: usize) -> Value {
        match self.seen(k, a.0) {
            Some(r) => r.values()[i],
            None => unreachable!(),
        }
    }

    #[tactic(auto, unfolding(py_data::specs::Heap::at))]
    fn find_val(&self, k: u8, a: Addr, i: usize) -> (Kind, Value) {
        match self.seen(k, a.0) {
            Some(r) => (r.kind(), value_or_unset(r.values(), i)),
            None => unreachable!(),
        }
    }

    #[tactic(auto, unfolding(py_data::specs::Heap::at))]
    fn head(&self, k: u8, a: Addr) -> Head {
        match self.seen(k, a.0) {
            Some(r) => r.head(),
            None => unreachable!(),
        }
    }

    #[tactic(auto, unfolding(py_data::specs::Heap::at))]
    fn rooms(&self, k: u8, a: Addr) -> (usize, usize) {
        match self.seen(k, a.0) {
            Some(r) => r.rooms(),
            None => unreachable!(),
        }
    }

    #[tactic(auto, unfolding(py_data::specs::Heap::at))]
    fn copy_bytes(&self, k: u8, a: Addr, from: usize, out: &mut [u8]) {
        match self.seen(k, a.0) {
            Some(r) => {
                let bytes = r.bytes();
                out.copy_from_slice(&bytes[from..from + out.len()]);
            }
            None => unreachable!(),
        }
    }

    #[tactic(auto, unfolding(py_data::specs::Heap::at))]
    fn find_key(&self, k: u8, d: Addr, key: Value) -> Option<usize> {
        let sight = Sight {
            store: self,
            segment: k,
        };
        match self.seen(k, d.0) {
            Some(r) => find_pair(&sight, r.values(), key),
            None => unreachable!(),
        }
    }

    fn mark(&mut self, k: u8, a: Addr) -> Result<(), NoMemory> {
        self.note(k, a)
    }

    fn lock(&mut self, k: u8, a: Addr) -> Result<(), NoMemory> {
        if self.holder(a).is_some() {
            self.note(k, a)
        } else {
            self.lock_first(k, a)
        }
    }

    fn set_val(&mut self, k: u8, a: Addr, i: usize, v: Value) -> Result<(), StoreFault> {
        self.change(k, a, Change::Set(i, v))?;
        Ok(())
    }

    fn push_val(&mut self, k: u8, a: Addr, v: Value) -> Result<(), StoreFault> {
        self.change(k, a, Change::Push(v))?;
        Ok(())
    }

    fn truncate(&mut self, k: u8, a: Addr, n: usize) -> Result<(), StoreFault> {
        self.change(k, a, Change::Cut(n))?;
        Ok(())
    }

    fn push_pair(&mut self, k: u8, d: Addr, key: Value, v: Value) -> Result<(), StoreFault> {
        self.change(k, d, Change::Pair(key, v))?;
        Ok(())
    }

    fn drop_pair(&mut self, k: u8, d: Addr, place: usize) -> Result<(), StoreFault> {
        self.change(k, d, Change::Unpair(place))?;
        Ok(())
    }

    fn make(&mut self, k: u8, r: &Record) -> Result<Addr, StoreFault> {
        let Ok(n) = u32::try_from(self.image.len()) else {
            return Err(StoreFault::OutOfMemory);
        };
        let entry = Entry::of(self.alloc, r)?;
        self.add_blank()?;
        self.place(k, Addr(n), entry)?;
        Ok(Addr(n))
    }

    fn open_step(&mut self, k: u8) {
        self.hands[k as usize].open();
    }

    fn undo_step(&mut self, k: u8) {
        self.hands[k as usize].undo();
    }

    fn stands(&self, a: Addr) -> bool {
        self.committed(a.0).is_some()
    }

    fn holder(&self, a: Addr) -> Option<u8> {
        'segments: for k in 0..self.hands.len() {
            if self.hands[k].holds(a) {
                return Some(k as u8);
            }
        }
        None
    }

    fn has_looked(&self, k: u8, a: Addr) -> bool {
        self.hands[k as usize].has_looked(a)
    }

    fn changed_len(&self, k: u8) -> usize {
        self.hands[k as usize].changed_len()
    }

    fn changed_at(&self, k: u8, i: usize) -> Addr {
        self.hands[k as usize].changed_at(i)
    }

    fn publish(&mut self, k: u8) {
        self.hands[k as usize].publish(&mut self.image);
    }

    fn drop_changes(&mut self, k: u8) {
        self.hands[k as usize].let_go();
    }
}
