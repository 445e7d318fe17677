//! The records that a transaction's steps looked at last.
use py_data::{Addr, NoMemory};
use std::alloc::Global;
use std::cell::Cell;

/// The most records that are kept: four in each of sixteen sets.
pub const RECENT_LIMIT: usize = SET_LIMIT * 16;

/// The most records of a set.
const SET_LIMIT: usize = 4;

/// What spreads addresses over sets: a set is told by the upper four bits of the product.
const SPREAD: u32 = 2_654_435_769;

/// How many products one set has.
const SET_SHARE: u32 = 0x1000_0000;

/// The addresses of different records that were looked at last: of each set of addresses the last ones, the very last
/// one first. They are kept in cells, of whose contents no clause says anything: a note changes nothing that a contract
/// sees.
#[derive(Drop)]
pub struct Recent {
    places: Vec<Cell<Option<Addr>>>,
}

/// Cells for the most records.
fn empty_places(alloc: Global) -> Result<Vec<Cell<Option<Addr>>>, NoMemory> {
    let mut places = Vec::with_capacity(alloc, RECENT_LIMIT)?;
    'places: for _ in 0..RECENT_LIMIT {
        places.push(Cell::new(None))?;
    }
    Ok(places)
}

impl Recent {
    /// No records yet, of a transaction on a store with so many segments. Where there is only one nothing is ever lent,
    /// and none is kept; nor at want of memory.
    pub fn new(alloc: Global, segments: u8) -> Recent {
        if segments <= 1 {
            return Recent {
                places: Vec::new(alloc),
            };
        }
        match empty_places(alloc) {
            Ok(places) => Recent { places },
            Err(_) => Recent {
                places: Vec::new(alloc),
            },
        }
    }

    /// A record was looked at, and is noted where records are kept. It takes no memory.
    pub fn note(&self, a: Addr) {
        if !self.places.is_empty() {
            self.put_first(a);
        }
    }

    /// An address is the first of its set from now on, and the last one of the set is let go where there are too many.
    /// It is never inlined, so that a look on one segment, which keeps none, is short.
    #[inline(never)]
    fn put_first(&self, a: Addr) {
        let first = (a.0.wrapping_mul(SPREAD) / SET_SHARE) as usize * SET_LIMIT;
        let mut next = a;
        'places: for i in first..first + SET_LIMIT {
            let Some(place) = self.places.get(i) else {
                return;
            };
            match place.replace(Some(next)) {
                Some(here) if here.0 != a.0 => next = here,
                _ => return,
            }
        }
    }

    /// The address of that number, from 0, if there are so many.
    pub fn at(&self, i: usize) -> Option<Addr> {
        match self.places.get(i) {
            Some(place) => place.get(),
            None => None,
        }
    }
}
