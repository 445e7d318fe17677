//! A store under test: it knows which records are there, so each call can be made where its contract allows it.
ghost use Rattle.std.specs.Prelude.{◌≡◌, ◌≤◌, ◌<◌, true, length, IfOk};
ghost use Rattle.py_data.specs.declared.record.TheConstants.{LENGTH_LIMIT};
ghost use Rattle.py_data.specs.Heap.{Has, has_bytes, at, length_of, value_at};
ghost use Rattle.seg_store.specs.Meaning.{sees, holds};
ghost use Rattle.seg_store.specs.inner.Looks.{marks_of};
ghost use Rattle.seg_store.specs.Store.{NoOther};
ghost use Rattle.store_bench.specs.Known.{Knows};

mod changes;
mod image;
mod keys;
mod shapes;
mod sight;

use crate::insists::Insists;
use crate::kinds::has_bytes;
use py_data::{Addr, Head, Kind, Value};
use seg_store::{Looks, SegStore};
use std::alloc::{AllocError, Global};

/// A store, the addresses that were made in it, and a mark at each address at which the image has a record.
#[derive(Drop)]
pub struct Bench<S: SegStore> {
    store: S,
    names: Vec<Addr>,
    image: Looks,
    ghost known: { Knows (S.meaning store).image (marks_of image) },
}

impl<S: SegStore> Bench<S> {
    pub fn new(alloc: Global, store: S) -> Bench<S> {
        Bench {
            store,
            names: Vec::new(alloc),
            image: Looks::new(alloc),
        }
    }

    pub fn segments(&self) -> u8
        ensures { result ≡ (S.meaning self.now.store).segments }
    {
        self.store.segments()
    }

    pub fn reserved(&self) -> u64 {
        self.store.reserved()
    }

    pub fn limit(&self) -> u64 {
        self.store.limit()
    }

    /// The segment holds the record.
    pub fn holds(&self, k: u8, a: Addr) -> bool
        ensures { result ≡ true → holds ((S.meaning self.now.store).part k) a.0 ≡ true }
    {
        match self.store.holder(a) {
            Some(j) => j == k,
            None => false,
        }
    }

    /// The segment that holds the record.
    pub fn holder(&self, a: Addr) -> Option<u8> {
        self.store.holder(a)
    }

    /// No other segment holds the record.
    fn is_free(&self, k: u8, a: Addr) -> bool
        ensures { result ≡ true → NoOther (S.meaning self.now.store) k a.0 }
    {
        self.store.known();
        match self.store.holder(a) {
            Some(j) => j == k,
            None => true,
        }
    }

    /// The image has a record there.
    pub fn in_image(&self, a: Addr) -> bool
        ensures { result ≡ true → Has (S.meaning self.now.store).image a.0 }
    {
        self.image.has(a.0)
    }

    /// The segment sees a record there.
    pub fn there(&self, k: u8, a: Addr) -> bool
        ensures { result ≡ true → Has (sees (S.meaning self.now.store) k) a.0 }
    {
        self.store.known();
        self.holds(k, a) || self.in_image(a)
    }

    pub fn kind(&self, rt: &impl Insists, k: u8, a: Addr) -> Kind
        ensures kind { result ≡ (at (sees (S.meaning self.now.store) k) a.0).kind }
        ensures there { Has (sees (S.meaning self.now.store) k) a.0 }
        ensures segment { k < (S.meaning self.now.store).segments }
    {
        rt.insist(k < self.store.segments(), "the segment is there");
        rt.insist(self.there(k, a), "the record is there");
        self.store.kind(k, a)
    }

    /// The length of a record, and whether its kind has bytes.
    fn size(&self, rt: &impl Insists, k: u8, a: Addr) -> (usize, bool)
        ensures length { result.0 ≡ length_of (at (sees (S.meaning self.now.store) k) a.0) }
        ensures bytes { result.1 ≡ has_bytes (at (sees (S.meaning self.now.store) k) a.0).kind }
        ensures fits { result.0 ≤ LENGTH_LIMIT }
        ensures there { Has (sees (S.meaning self.now.store) k) a.0 }
        ensures segment { k < (S.meaning self.now.store).segments }
    {
        let kind = self.kind(rt, k, a);
        (self.store.len(k, a), has_bytes(kind))
    }

    pub fn len(&self, rt: &impl Insists, k: u8, a: Addr) -> usize
        ensures { result ≤ LENGTH_LIMIT }
    {
        let (n, _) = self.size(rt, k, a);
        n
    }

    pub fn rooms(&self, rt: &impl Insists, k: u8, a: Addr) -> (usize, usize) {
        let _kind = self.kind(rt, k, a);
        self.store.rooms(k, a)
    }

    /// How many values a record has that is no Str.
    pub fn count(&self, rt: &impl Insists, k: u8, a: Addr) -> usize
        ensures count { result ≡ length (at (sees (S.meaning self.now.store) k) a.0).values }
        ensures fits { result ≤ LENGTH_LIMIT }
        ensures there { Has (sees (S.meaning self.now.store) k) a.0 }
        ensures segment { k < (S.meaning self.now.store).segments }
    {
        let (n, text) = self.size(rt, k, a);
        rt.insist(!text, "the record has values");
        n
    }

    #[tactic(auto, using(crate::proofs::There::place_there))]
    pub fn val(&self, rt: &impl Insists, k: u8, a: Addr, i: usize) -> Value
        ensures { result ≡ value_at (at (sees (S.meaning self.now.store) k) a.0).values i }
    {
        let n = self.count(rt, k, a);
        rt.insist(i < n, "the place is there");
        self.store.val(k, a, i)
    }

    pub fn find_val(&self, rt: &impl Insists, k: u8, a: Addr, i: usize) -> (Kind, Value) {
        let _kind = self.kind(rt, k, a);
        self.store.find_val(k, a, i)
    }

    pub fn head(&self, rt: &impl Insists, k: u8, a: Addr) -> Head {
        let _kind = self.kind(rt, k, a);
        self.store.head(k, a)
    }

    #[tactic(auto, using(crate::proofs::There::bytes_there))]
    pub fn copy_bytes(&self, rt: &impl Insists, k: u8, a: Addr, from: usize, out: &mut [u8]) {
        let (n, text) = self.size(rt, k, a);
        rt.insist(text, "the record has bytes");
        rt.insist(from <= n && out.len() <= n - from, "the bytes are there");
        self.store.copy_bytes(k, a, from, out);
    }

    pub fn mark(&mut self, rt: &impl Insists, k: u8, a: Addr) {
        let _kind = self.kind(rt, k, a);
        rt.insist(self.store.mark(k, a).is_ok(), "the look is noted");
    }

    /// Locks a record that no other segment holds.
    pub fn lock(&mut self, rt: &impl Insists, k: u8, a: Addr) {
        let _kind = self.kind(rt, k, a);
        rt.insist(self.is_free(k, a), "no other segment holds the record");
        rt.insist(self.store.lock(k, a).is_ok(), "the record is locked");
    }

    /// Marks at the addresses at which a segment sees records.
    fn seen(&self, alloc: Global, k: u8) -> Result<Looks, AllocError>
        ensures { IfOk result (λ l. Knows (sees (S.meaning self.now.store) k) (marks_of l)) }
    {
        let mut marks = Looks::new(alloc);
        'names: for a in &self.names {
            if self.there(k, *a) {
                marks.mark(a.0)?;
            }
        }
        Ok(marks)
    }

    pub fn publish(&mut self, rt: &impl Insists, alloc: Global, k: u8) -> Result<(), AllocError> {
        rt.insist(k < self.store.segments(), "the segment is there");
        let marks = self.seen(alloc, k)?;
        self.store.publish(k);
        self.image = marks;
        Ok(())
    }

    pub fn open_step(&mut self, rt: &impl Insists, k: u8) {
        rt.insist(k < self.store.segments(), "the segment is there");
        self.store.open_step(k);
    }

    pub fn undo_step(&mut self, rt: &impl Insists, k: u8) {
        rt.insist(k < self.store.segments(), "the segment is there");
        self.store.undo_step(k);
    }

    pub fn drop_changes(&mut self, rt: &impl Insists, k: u8) {
        rt.insist(k < self.store.segments(), "the segment is there");
        self.store.drop_changes(k);
    }

    /// Drops what the segment has in hand, and begins a transaction on it.
    pub fn begin(&mut self, rt: &impl Insists, k: u8) {
        rt.insist(k < self.store.segments(), "the segment is there");
        self.store.drop_changes(k);
        self.store.begin(k);
    }

    pub fn has_looked(&self, rt: &impl Insists, k: u8, a: Addr) -> bool {
        rt.insist(k < self.store.segments(), "the segment is there");
        self.store.has_looked(k, a)
    }

    pub fn changed_len(&self, rt: &impl Insists, k: u8) -> usize {
        rt.insist(k < self.store.segments(), "the segment is there");
        self.store.changed_len(k)
    }

    pub fn changed_at(&self, rt: &impl Insists, k: u8, i: usize) -> Addr {
        rt.insist(k < self.store.segments(), "the segment is there");
        rt.insist(i < self.store.changed_len(k), "so many records are locked");
        self.store.changed_at(k, i)
    }
}
