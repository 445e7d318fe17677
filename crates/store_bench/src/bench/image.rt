//! The image of a store under test, as it is looked at.
ghost use Rattle.std.specs.Prelude.{◌≡◌};
ghost use Rattle.py_data.specs.Heap.{Has, has_bytes, at, length_of};

use super::Bench;
use crate::insists::Insists;
use crate::kinds::has_bytes;
use py_data::{Addr, Bytes, Kind, Record, Value, Values};
use seg_store::SegStore;
use std::alloc::{AllocError, Global};

impl<S: SegStore> Bench<S> {
    /// The length of a record of the image, and whether its kind has bytes.
    fn peek_size(&self, rt: &impl Insists, a: Addr) -> (usize, bool)
        ensures length { result.0 ≡ length_of (at (S.meaning self.now.store).image a.0) }
        ensures bytes { result.1 ≡ has_bytes (at (S.meaning self.now.store).image a.0).kind }
        ensures there { Has (S.meaning self.now.store).image a.0 }
    {
        rt.insist(self.in_image(a), "the image has the record");
        (self.store.peek_len(a), has_bytes(self.store.peek_kind(a)))
    }

    pub fn peek_kind(&self, rt: &impl Insists, a: Addr) -> Kind {
        rt.insist(self.in_image(a), "the image has the record");
        self.store.peek_kind(a)
    }

    pub fn peek_len(&self, rt: &impl Insists, a: Addr) -> usize {
        let (n, _) = self.peek_size(rt, a);
        n
    }

    #[tactic(auto, using(crate::proofs::There::place_there))]
    pub fn peek_val(&self, rt: &impl Insists, a: Addr, i: usize) -> Value {
        let (n, text) = self.peek_size(rt, a);
        rt.insist(!text, "the record has values");
        rt.insist(i < n, "the place is there");
        self.store.peek_val(a, i)
    }

    #[tactic(auto, using(crate::proofs::There::byte_within))]
    pub fn peek_byte(&self, rt: &impl Insists, a: Addr, i: usize) -> u8 {
        let (n, text) = self.peek_size(rt, a);
        rt.insist(text, "the record has bytes");
        rt.insist(i < n, "the place is there");
        self.store.peek_byte(a, i)
    }

    fn peek_values(&self, rt: &impl Insists, alloc: Global, a: Addr) -> Result<Values, AllocError> {
        let mut values = Values::new(alloc);
        'values: for i in 0..self.peek_len(rt, a) {
            let v = self.peek_val(rt, a, i);
            values.push(v)?;
        }
        Ok(values)
    }

    fn peek_bytes(&self, rt: &impl Insists, alloc: Global, a: Addr) -> Result<Bytes, AllocError> {
        let mut bytes = Bytes::new(alloc);
        'bytes: for i in 0..self.peek_len(rt, a) {
            let byte = self.peek_byte(rt, a, i);
            bytes.push(byte)?;
        }
        Ok(bytes)
    }

    /// The record that the image has there.
    pub fn peek(&self, rt: &impl Insists, alloc: Global, a: Addr) -> Result<Record, AllocError> {
        let kind = self.peek_kind(rt, a);
        let (values, bytes) = match kind {
            Kind::Str => (Values::new(alloc), self.peek_bytes(rt, alloc, a)?),
            _ => (self.peek_values(rt, alloc, a)?, Bytes::new(alloc)),
        };
        Ok(Record {
            kind,
            values,
            bytes,
        })
    }
}
