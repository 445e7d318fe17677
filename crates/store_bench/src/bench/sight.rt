//! Records of a store under test, as a segment sees them.
use super::Bench;
use crate::insists::Insists;
use py_data::{Addr, Bytes, Kind, Record, Values};
use seg_store::SegStore;
use std::alloc::{AllocError, Global};

impl<S: SegStore> Bench<S> {
    fn shown_values(
        &self,
        rt: &impl Insists,
        alloc: Global,
        k: u8,
        a: Addr,
    ) -> Result<Values, AllocError> {
        let mut values = Values::new(alloc);
        'values: for i in 0..self.count(rt, k, a) {
            let v = self.val(rt, k, a, i);
            values.push(v)?;
        }
        Ok(values)
    }

    /// The bytes of a string. They are copied over others, which are all alike.
    fn shown_bytes(
        &self,
        rt: &impl Insists,
        alloc: Global,
        k: u8,
        a: Addr,
        other: u8,
    ) -> Result<Bytes, AllocError> {
        let mut bytes = vec![in alloc; other; self.len(rt, k, a)]?;
        self.copy_bytes(rt, k, a, 0, &mut bytes);
        Ok(Bytes::from_slice(alloc, &bytes)?)
    }

    /// The record that the segment sees there. The bytes of a string are copied over others, which are all alike.
    pub fn shown(
        &self,
        rt: &impl Insists,
        alloc: Global,
        k: u8,
        a: Addr,
        other: u8,
    ) -> Result<Record, AllocError> {
        let kind = self.kind(rt, k, a);
        let (values, bytes) = match kind {
            Kind::Str => (
                Values::new(alloc),
                self.shown_bytes(rt, alloc, k, a, other)?,
            ),
            _ => (self.shown_values(rt, alloc, k, a)?, Bytes::new(alloc)),
        };
        Ok(Record {
            kind,
            values,
            bytes,
        })
    }
}
