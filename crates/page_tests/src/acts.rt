//! A store of pages under test, what its calls are refused with where the heap is full, and what a segment sees.
use crate::handle::TestHandle;
use paged_store::PagedStore;
use py_data::{Addr, Kind, Value};
use seg_store::{SegStore, StoreFault};
use std::alloc::Global;
use std::process::Abort;
use std::test::Fail;
use store_bench::Bench;
use store_bench::acts::{number, record};

/// A store of pages.
pub fn paged(alloc: Global, segments: u8, pages: u32) -> Result<Bench<PagedStore>, Fail> {
    if segments < 1 || segments > 8 || pages < 1 || pages > 65_536 {
        return Err("no such segments, or pages".into());
    }
    Ok(Bench::new(alloc, PagedStore::new(alloc, segments, pages)?))
}

/// What a make is refused with, as reserved, need and limit.
pub fn refused<S: SegStore>(
    rt: &TestHandle<impl Abort>,
    alloc: Global,
    store: &mut Bench<S>,
    k: u8,
    kind: Kind,
    values: &[Value],
) -> Result<(u64, u64, u64), Fail> {
    let r = record(alloc, kind, values)?;
    match store.try_make(rt, k, &r)? {
        Err(
            StoreFault::Full {
                reserved,
                need,
                limit,
            },
        ) => Ok((reserved, need, limit)),
        _ => panic!(&rt.0; "not full"),
    }
}

/// What a push is refused with.
pub fn refused_push<S: SegStore>(
    rt: &TestHandle<impl Abort>,
    store: &mut Bench<S>,
    k: u8,
    a: Addr,
) -> (u64, u64, u64) {
    match store.try_push(rt, k, a, Value::None) {
        Err(
            StoreFault::Full {
                reserved,
                need,
                limit,
            },
        ) => (reserved, need, limit),
        _ => panic!(&rt.0; "not full"),
    }
}

/// What a pair is refused with.
pub fn refused_pair<S: SegStore>(
    rt: &TestHandle<impl Abort>,
    store: &mut Bench<S>,
    k: u8,
    d: Addr,
    key: i64,
) -> (u64, u64, u64) {
    match store.try_pair(rt, k, d, Value::Int(key), Value::None) {
        Err(
            StoreFault::Full {
                reserved,
                need,
                limit,
            },
        ) => (reserved, need, limit),
        _ => panic!(&rt.0; "not full"),
    }
}

/// A list has the numbers from one on, and as many as are below another.
pub fn has_numbers<S: SegStore>(
    rt: &TestHandle<impl Abort>,
    store: &Bench<S>,
    k: u8,
    a: Addr,
    numbers: (u32, u32),
) -> bool {
    let (from, below) = numbers;
    if from > below || store.len(rt, k, a) != (below - from) as usize {
        return false;
    }
    'places: for n in from..below {
        if number(rt, store, k, a, (n - from) as usize) != i64::from(n) {
            return false;
        }
    }
    true
}

/// The segment sees the string.
pub fn has_text<S: SegStore>(
    rt: &TestHandle<impl Abort>,
    alloc: Global,
    store: &Bench<S>,
    k: u8,
    a: Addr,
    text: &[u8],
) -> Result<bool, Fail> {
    if store.len(rt, k, a) != text.len() {
        return Ok(false);
    }
    let mut out = vec![in alloc; 0u8; text.len()]?;
    store.copy_bytes(rt, k, a, 0, &mut out);
    Ok(out.as_slice() == text)
}
