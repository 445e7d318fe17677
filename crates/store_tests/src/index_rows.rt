//! Rows of what finds keys and of what notes looks: a long dictionary, keys that are equal, and more transactions than
//! a byte has numbers. Each row is tried on a store of maps and on a store of pages.
use crate::acts::{make_cell, maps, paged};
use crate::handle::TestHandle;
use py_data::{Addr, Kind, Value};
use seg_store::SegStore;
use std::alloc::Global;
use std::process::Abort;
use std::test::Fail;
use store_bench::Bench;
use store_bench::acts::{make, put_numbers};

type Tested = Result<(), Fail>;

/// The keys of the long dictionary are the numbers below this one.
const KEYS: u32 = 500;

/// The place of a key after the odd ones were dropped.
fn place_of(n: u32) -> Option<usize> {
    if n % 2 == 0 {
        Some(n as usize / 2)
    } else {
        None
    }
}

/// The segment finds each even key of the long dictionary at its place, and no odd one.
fn finds_even_keys<S: SegStore>(
    rt: &TestHandle<impl Abort>,
    store: &Bench<S>,
    k: u8,
    d: Addr,
) -> bool {
    'keys: for n in 0..KEYS {
        if store.find_key(rt, k, d, Value::Int(i64::from(n))) != place_of(n) {
            return false;
        }
    }
    true
}

/// Of so many keys every second one is dropped, from the last one down, by a segment that didn't make them.
fn every_second<S: SegStore>(
    rt: &TestHandle<impl Abort>,
    alloc: Global,
    mut store: Bench<S>,
) -> Tested {
    let d = make(rt, alloc, &mut store, 0, Kind::Dict, &[])?;
    put_numbers(rt, &mut store, 0, d, (0, KEYS), 0);
    store.publish(rt, alloc, 0)?;
    store.lock(rt, 1, d);
    'drops: for i in 0..250 {
        store.unpair(rt, 1, d, 499 - 2 * i);
    }
    store.publish(rt, alloc, 1)?;
    assert!(&rt.0; finds_even_keys(rt, &store, 0, d) && finds_even_keys(rt, &store, 1, d));
    Ok(())
}

#[test]
fn every_second_maps(rt: HostRuntime) -> Tested {
    every_second(&TestHandle(&rt), rt.alloc(), maps(rt.alloc(), 2)?)
}

#[test]
fn every_second_pages(rt: HostRuntime) -> Tested {
    every_second(&TestHandle(&rt), rt.alloc(), paged(rt.alloc(), 2, 32)?)
}

/// A truth value is the key of its number, and a number the key of its truth value.
fn truth_values<S: SegStore>(
    rt: &TestHandle<impl Abort>,
    alloc: Global,
    mut store: Bench<S>,
) -> Tested {
    let d = make(rt, alloc, &mut store, 0, Kind::Dict, &[])?;
    store.pair(rt, 0, d, Value::Int(1), Value::None);
    assert!(&rt.0; store.find_key(rt, 0, d, Value::Bool(true)) == Some(0));
    assert!(&rt.0; store.find_key(rt, 0, d, Value::Bool(false)).is_none());
    store.pair(rt, 0, d, Value::Bool(false), Value::None);
    assert!(&rt.0; store.find_key(rt, 0, d, Value::Int(0)) == Some(1));
    assert!(&rt.0; store.find_key(rt, 0, d, Value::Int(1)) == Some(0));
    assert!(&rt.0; store.find_key(rt, 0, d, Value::None).is_none());
    Ok(())
}

#[test]
fn truth_values_maps(rt: HostRuntime) -> Tested {
    truth_values(&TestHandle(&rt), rt.alloc(), maps(rt.alloc(), 1)?)
}

#[test]
fn truth_values_pages(rt: HostRuntime) -> Tested {
    truth_values(&TestHandle(&rt), rt.alloc(), paged(rt.alloc(), 1, 1)?)
}

/// A segment looks at one cell and commits, and then looks at another in each of 254 commits more. In the transaction
/// behind them it has looked at neither.
fn old_looks<S: SegStore>(
    rt: &TestHandle<impl Abort>,
    alloc: Global,
    mut store: Bench<S>,
) -> Tested {
    let a = make_cell(rt, alloc, &mut store, 0, 5)?;
    let b = make_cell(rt, alloc, &mut store, 0, 6)?;
    store.publish(rt, alloc, 0)?;
    store.begin(rt, 0);
    store.mark(rt, 0, a);
    assert!(&rt.0; store.has_looked(rt, 0, a) && !store.has_looked(rt, 0, b));
    store.publish(rt, alloc, 0)?;
    'commits: for i in 0..254 {
        store.begin(rt, 0);
        store.mark(rt, 0, b);
        assert!(&rt.0;
            store.has_looked(rt, 0, b) && !store.has_looked(rt, 0, a),
            "{i}"
        );
        store.publish(rt, alloc, 0)?;
    }
    store.begin(rt, 0);
    assert!(&rt.0; !store.has_looked(rt, 0, a) && !store.has_looked(rt, 0, b));
    Ok(())
}

#[test]
fn old_looks_maps(rt: HostRuntime) -> Tested {
    old_looks(&TestHandle(&rt), rt.alloc(), maps(rt.alloc(), 2)?)
}

#[test]
fn old_looks_pages(rt: HostRuntime) -> Tested {
    old_looks(&TestHandle(&rt), rt.alloc(), paged(rt.alloc(), 2, 1)?)
}
