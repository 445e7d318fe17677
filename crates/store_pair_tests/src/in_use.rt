//! The extents that are in use for the records of a store under test, by class, and those that a change of it takes.
use crate::extents::{Counts, body_class, class_holding, extents};
use crate::handle::TestHandle;
use crate::places::Place;
use py_data::{Addr, Kind, Record};
use seg_store::SegStore;
use std::process::Abort;
use store_bench::Bench;

/// Adds counts to others.
fn add_counts(counts: &mut Counts, more: &Counts) {
    'classes: for c in 0..24 {
        counts[c] = counts[c].saturating_add(more[c]);
    }
}

/// Adds to counts what others have beyond a third.
fn add_beyond(counts: &mut Counts, more: &Counts, base: &Counts) {
    'classes: for c in 0..24 {
        counts[c] = counts[c].saturating_add(more[c].saturating_sub(base[c]));
    }
}

/// The extents of a record as a segment sees it.
fn extents_of<S: SegStore>(
    rt: &TestHandle<impl Abort>,
    store: &Bench<S>,
    k: u8,
    a: Addr,
) -> Counts {
    let kind = store.kind(rt, k, a);
    extents(kind, store.len(rt, k, a), store.rooms(rt, k, a))
}

/// The extents of a record of the image. Where the only segment holds it, those are counted that it has there.
fn extents_in_image<S: SegStore>(rt: &TestHandle<impl Abort>, store: &Bench<S>, a: Addr) -> Counts {
    if !store.in_image(a) {
        return [0; 24];
    }
    'segments: for k in 0..store.segments() {
        if !store.holds(k, a) {
            return extents_of(rt, store, k, a);
        }
    }
    extents_of(rt, store, 0, a)
}

/// Adds the extents of a record.
fn add_used<S: SegStore>(
    rt: &TestHandle<impl Abort>,
    store: &Bench<S>,
    a: Addr,
    counts: &mut Counts,
) {
    let image = extents_in_image(rt, store, a);
    add_counts(counts, &image);
    'segments: for k in 0..store.segments() {
        if store.holds(k, a) {
            add_beyond(counts, &extents_of(rt, store, k, a), &image);
        }
    }
}

/// How many extents of each class are in use for the records.
pub fn used<S: SegStore>(
    rt: &TestHandle<impl Abort>,
    store: &Bench<S>,
    places: &[Place],
) -> Counts {
    let mut counts = [0; 24];
    'places: for place in places {
        add_used(rt, store, place.0, &mut counts);
    }
    counts
}

/// The classes of the extents that a new record takes.
pub fn wanted_new(r: &Record) -> (usize, usize, usize) {
    let n = r.values.len();
    let body = match r.kind {
        Kind::Str => class_holding(r.bytes.len().div_ceil(8)),
        Kind::Dict => body_class(n.max(2)),
        _ => body_class(n),
    };
    let index = match r.kind {
        Kind::Dict => body.saturating_sub(1),
        _ => 0,
    };
    (2, body, index)
}

/// The classes of the extents that a record takes to have room for more, if it has none.
pub fn wanted_more<S: SegStore>(
    rt: &TestHandle<impl Abort>,
    store: &Bench<S>,
    k: u8,
    a: Addr,
    more: usize,
) -> Option<(usize, usize, usize)> {
    let (room, _) = store.rooms(rt, k, a);
    if store.len(rt, k, a).saturating_add(more) <= room {
        return None;
    }
    let body = body_class(room) + 1;
    let index = match store.kind(rt, k, a) {
        Kind::Dict => body - 1,
        _ => 0,
    };
    Some((body, index, 0))
}
