//! The committed records of a store, as they are looked at.
use crate::sight::{Seen, byte, kind, len, val};
use crate::store::PagedStore;
use py_data::{Addr, Kind, Peek, Value};

impl Peek for PagedStore {
    ghost use Rattle.paged_store.specs.Stores.{paged_meaning};

    ghost image = { λ s. (paged_meaning s).image };

    fn peek_kind(&self, a: Addr) -> Kind {
        kind(&self.pages, Seen::Image, a.0)
    }

    fn peek_len(&self, a: Addr) -> usize {
        len(&self.pages, Seen::Image, a.0)
    }

    fn peek_val(&self, a: Addr, i: usize) -> Value {
        val(&self.pages, Seen::Image, a.0, i)
    }

    fn peek_byte(&self, a: Addr, i: usize) -> u8 {
        byte(&self.pages, Seen::Image, a.0, i)
    }
}
