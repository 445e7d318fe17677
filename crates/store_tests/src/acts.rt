//! Stores under test, and a cell that holds a number.
use crate::handle::TestHandle;
use paged_store::PagedStore;
use py_data::{Addr, Kind, Value};
use seg_store::{PlainStore, SegStore};
use std::alloc::Global;
use std::process::Abort;
use std::test::Fail;
use store_bench::Bench;
use store_bench::acts::make;

/// A store of maps.
pub fn maps(alloc: Global, segments: u8) -> Result<Bench<PlainStore>, Fail> {
    if segments < 1 || segments > 8 {
        return Err("no such segments".into());
    }
    Ok(Bench::new(alloc, PlainStore::new(alloc, segments)?))
}

/// A store of pages.
pub fn paged(alloc: Global, segments: u8, pages: u32) -> Result<Bench<PagedStore>, Fail> {
    if segments < 1 || segments > 8 || pages < 1 || pages > 65_536 {
        return Err("no such segments, or pages".into());
    }
    Ok(Bench::new(alloc, PagedStore::new(alloc, segments, pages)?))
}

/// A cell that holds a number.
pub fn make_cell<S: SegStore>(
    rt: &TestHandle<impl Abort>,
    alloc: Global,
    store: &mut Bench<S>,
    k: u8,
    n: i64,
) -> Result<Addr, Fail> {
    make(rt, alloc, store, k, Kind::Cell, &[Value::Int(n)])
}
