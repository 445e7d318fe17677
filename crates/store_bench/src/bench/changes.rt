//! Records of a store under test are made and changed, each where the contract allows it.
use super::Bench;
use crate::insists::Insists;
use crate::kinds::is_value_place;
use py_data::{Addr, Kind, LENGTH_LIMIT, Record, Value};
use seg_store::{SegStore, StoreFault};
use std::alloc::AllocError;

impl<S: SegStore> Bench<S> {
    pub fn try_make(
        &mut self,
        rt: &impl Insists,
        k: u8,
        r: &Record,
    ) -> Result<Result<Addr, StoreFault>, AllocError> {
        rt.insist(k < self.store.segments(), "the segment is there");
        rt.insist(self.is_shaped(rt, k, r), "the record has its kind's shape");
        let made = self.store.make(k, r);
        if let Ok(a) = made {
            self.names.push(a)?;
        }
        Ok(made)
    }

    pub fn make(&mut self, rt: &impl Insists, k: u8, r: &Record) -> Result<Addr, StoreFault> {
        let made = self.try_make(rt, k, r)?;
        made
    }

    #[tactic(auto, using(crate::proofs::There::set_there))]
    pub fn set(&mut self, rt: &impl Insists, k: u8, a: Addr, i: usize, v: Value) {
        let kind = self.kind(rt, k, a);
        let n = self.count(rt, k, a);
        rt.insist(self.holds(k, a), "the segment holds the record");
        rt.insist(i < n, "the place is there");
        rt.insist(is_value_place(kind, i), "a value may be set there");
        rt.insist(self.store.set_val(k, a, i, v).is_ok(), "the value is set");
    }

    #[tactic(auto, using(crate::proofs::There::push_there))]
    pub fn try_push(
        &mut self,
        rt: &impl Insists,
        k: u8,
        a: Addr,
        v: Value,
    ) -> Result<(), StoreFault> {
        let kind = self.kind(rt, k, a);
        let n = self.count(rt, k, a);
        rt.insist(self.holds(k, a), "the segment holds the record");
        rt.insist(kind == Kind::List, "the record is a list");
        rt.insist(n < LENGTH_LIMIT, "there is room for one more");
        self.store.push_val(k, a, v)
    }

    pub fn push(&mut self, rt: &impl Insists, k: u8, a: Addr, v: Value) {
        let done = self.try_push(rt, k, a, v).is_ok();
        rt.insist(done, "the heap is not full");
    }

    #[tactic(auto, using(crate::proofs::There::cut_there))]
    pub fn cut(&mut self, rt: &impl Insists, k: u8, a: Addr, n: usize) {
        let kind = self.kind(rt, k, a);
        rt.insist(self.holds(k, a), "the segment holds the record");
        rt.insist(kind == Kind::List, "the record is a list");
        rt.insist(self.store.truncate(k, a, n).is_ok(), "the list is cut");
    }

    /// Adds a pair, whose key isn't there.
    #[tactic(auto, using(crate::proofs::There::pair_there))]
    pub fn try_pair(
        &mut self,
        rt: &impl Insists,
        k: u8,
        d: Addr,
        key: Value,
        v: Value,
    ) -> Result<(), StoreFault> {
        let n = self.count(rt, k, d);
        rt.insist(self.holds(k, d), "the segment holds the record");
        rt.insist(self.can_find(rt, k, d, key), "the key can be looked for");
        rt.insist(self.store.find_key(k, d, key).is_none(), "the key is new");
        rt.insist(n + 1 < LENGTH_LIMIT, "there is room for one more");
        self.store.push_pair(k, d, key, v)
    }

    pub fn pair(&mut self, rt: &impl Insists, k: u8, d: Addr, key: Value, v: Value) {
        let done = self.try_pair(rt, k, d, key, v).is_ok();
        rt.insist(done, "the heap is not full");
    }

    #[tactic(auto, using(crate::proofs::There::unpair_there))]
    pub fn unpair(&mut self, rt: &impl Insists, k: u8, d: Addr, place: usize) {
        let kind = self.kind(rt, k, d);
        let n = self.count(rt, k, d);
        rt.insist(self.holds(k, d), "the segment holds the record");
        rt.insist(kind == Kind::Dict, "the record is a dictionary");
        rt.insist(place < n / 2, "the pair is there");
        rt.insist(
            self.store.drop_pair(k, d, place).is_ok(),
            "the pair is dropped",
        );
    }
}
