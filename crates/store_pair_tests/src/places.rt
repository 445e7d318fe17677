//! The places of records that two stores have, the looks at them, and what is the same in both.
use crate::handle::TestHandle;
use py_data::{Addr, Kind, Record, Value, Values};
use seg_store::SegStore;
use std::alloc::Global;
use std::process::Abort;
use std::test::Fail;
use store_bench::Bench;

/// The addresses of a record in the first store and in the second.
pub type Place = (Addr, Addr);

/// A look of a segment at a record.
pub type Look = (u8, Place);

/// The value as the second store has it.
pub fn moved(rt: &TestHandle<impl Abort>, places: &[Place], v: Value) -> Value {
    let Value::Ref(a) = v else {
        return v;
    };
    'places: for place in places {
        if place.0 == a {
            return Value::Ref(place.1);
        }
    }
    panic!(&rt.0; "an address of no record")
}

/// The record as the second store has it.
pub fn moved_record(
    rt: &TestHandle<impl Abort>,
    alloc: Global,
    places: &[Place],
    r: &Record,
) -> Result<Record, Fail> {
    let mut values = Values::new(alloc);
    'values: for v in r.values.as_slice() {
        let w = moved(rt, places, *v);
        values.push(w)?;
    }
    Ok(Record {
        kind: r.kind,
        values,
        bytes: r.bytes.copy(alloc)?,
    })
}

/// The second record is the first one as the second store has it.
pub fn same_shown(
    rt: &TestHandle<impl Abort>,
    alloc: Global,
    places: &[Place],
    one: &Record,
    other: &Record,
) -> Result<(), Fail> {
    let want = moved_record(rt, alloc, places, one)?;
    assert!(&rt.0; want.kind == other.kind);
    assert!(&rt.0; want.values.as_slice() == other.values.as_slice());
    assert!(&rt.0; want.bytes.as_slice() == other.bytes.as_slice());
    Ok(())
}

/// No record stands at an address of the second store.
pub fn is_fresh(places: &[Place], b: Addr) -> bool {
    'places: for place in places {
        if place.1 == b {
            return false;
        }
    }
    true
}

/// The segment looked at the record since its transaction began, as each store counts addresses.
pub fn looks_at(looks: &[Look], k: u8, place: Place) -> (bool, bool) {
    let mut first = false;
    let mut second = false;
    'looks: for look in looks {
        let (j, (a, b)) = *look;
        first = first || (j == k && a == place.0);
        second = second || (j == k && b == place.1);
    }
    (first, second)
}

/// The looks of the other segments.
pub fn looks_without(alloc: Global, looks: &[Look], k: u8) -> Result<Vec<Look>, Fail> {
    let mut left = Vec::new(alloc);
    'looks: for look in looks {
        if look.0 != k {
            left.push(*look)?;
        }
    }
    Ok(left)
}

/// The first place, from one of that number on, of a record of the kind, or of any kind, that the segment sees in the
/// first store.
pub fn seen_from<S: SegStore>(
    rt: &TestHandle<impl Abort>,
    store: &Bench<S>,
    places: &[Place],
    from: usize,
    k: u8,
    kind: Option<Kind>,
) -> Option<Place> {
    let n = places.len();
    'places: for i in 0..n {
        let place = places[from.wrapping_add(i) % n];
        if store.there(k, place.0) {
            let found = store.kind(rt, k, place.0);
            if kind.is_none() || kind == Some(found) {
                return Some(place);
            }
        }
    }
    None
}
