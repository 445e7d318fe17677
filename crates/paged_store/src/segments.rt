//! The store as the transactional core uses it.
use crate::changes::has_room;
use crate::find::find_key;
use crate::sight::{Seen, copy_bytes, find_val, head, kind, len, rooms, val};
use crate::store::PagedStore;
use py_data::{Addr, Head, Kind, NoMemory, Record, Value};
use seg_store::{SegStore, StoreFault};

impl SegStore for PagedStore {
    ghost use Rattle.std.specs.Prelude.{Some, refl};
    ghost use Rattle.paged_store.specs.Stores.{paged_meaning, reserved_of, peaks_of, Fills};

    ghost meaning = { paged_meaning };

    ghost reserved = { reserved_of };

    ghost fills = { Fills };

    ghost peaks = { λ s. Some (peaks_of s) };

    ghost same_image = { λ s. refl };

    fn segments(&self) -> u8 {
        self.segment_count()
    }

    fn reserved(&self) -> u64 {
        self.reserved_words()
    }

    fn limit(&self) -> u64 {
        self.word_limit()
    }

    fn known(&self) {
        self.is_known();
    }

    fn begin(&mut self, k: u8) {
        self.forget_looks(k);
    }

    fn kind(&self, k: u8, a: Addr) -> Kind {
        kind(&self.pages, Seen::Segment(k), a.0)
    }

    fn len(&self, k: u8, a: Addr) -> usize {
        len(&self.pages, Seen::Segment(k), a.0)
    }

    fn val(&self, k: u8, a: Addr, i: usize) -> Value {
        val(&self.pages, Seen::Segment(k), a.0, i)
    }

    fn find_val(&self, k: u8, a: Addr, i: usize) -> (Kind, Value) {
        find_val(&self.pages, Seen::Segment(k), a.0, i)
    }

    fn head(&self, k: u8, a: Addr) -> Head {
        head(&self.pages, Seen::Segment(k), a.0)
    }

    fn rooms(&self, k: u8, a: Addr) -> (usize, usize) {
        rooms(&self.pages, Seen::Segment(k), a.0)
    }

    fn copy_bytes(&self, k: u8, a: Addr, from: usize, out: &mut [u8]) {
        copy_bytes(&self.pages, Seen::Segment(k), a.0, from, out);
    }

    fn find_key(&self, k: u8, d: Addr, key: Value) -> Option<usize> {
        find_key(&self.pages, Seen::Segment(k), d.0, key)
    }

    fn mark(&mut self, k: u8, a: Addr) -> Result<(), NoMemory> {
        self.note_look(k, a)
    }

    fn lock(&mut self, k: u8, a: Addr) -> Result<(), NoMemory> {
        self.take_lock(k, a)
    }

    fn set_val(&mut self, k: u8, a: Addr, i: usize, v: Value) -> Result<(), StoreFault> {
        self.put_value(k, a, i, v)?;
        Ok(())
    }

    fn push_val(&mut self, k: u8, a: Addr, v: Value) -> Result<(), StoreFault> {
        self.is_known();
        if has_room(&self.pages, k, a.0, 1) {
            self.add_value(k, a, v)?;
            Ok(())
        } else {
            self.grow_value(k, a, v)
        }
    }

    fn truncate(&mut self, k: u8, a: Addr, n: usize) -> Result<(), StoreFault> {
        self.cut_to(k, a, n)?;
        Ok(())
    }

    fn push_pair(&mut self, k: u8, d: Addr, key: Value, v: Value) -> Result<(), StoreFault> {
        self.is_known();
        if has_room(&self.pages, k, d.0, 2) {
            self.add_pair(k, d, key, v)?;
            Ok(())
        } else {
            self.grow_pair(k, d, key, v)
        }
    }

    fn drop_pair(&mut self, k: u8, d: Addr, place: usize) -> Result<(), StoreFault> {
        self.remove_pair(k, d, place)?;
        Ok(())
    }

    fn make(&mut self, k: u8, r: &Record) -> Result<Addr, StoreFault> {
        self.make_record(k, r)
    }

    fn open_step(&mut self, k: u8) {
        self.begin_step(k);
    }

    fn undo_step(&mut self, k: u8) {
        self.take_step_back(k);
    }

    fn stands(&self, a: Addr) -> bool {
        self.stands_at(a)
    }

    fn holder(&self, a: Addr) -> Option<u8> {
        self.held_by(a)
    }

    fn has_looked(&self, k: u8, a: Addr) -> bool {
        self.looked_at(k, a)
    }

    fn changed_len(&self, k: u8) -> usize {
        self.locked_count(k)
    }

    fn changed_at(&self, k: u8, i: usize) -> Addr {
        self.locked_at(k, i)
    }

    fn publish(&mut self, k: u8) {
        self.publish_all(k);
    }

    fn drop_changes(&mut self, k: u8) {
        self.drop_all(k);
    }
}
