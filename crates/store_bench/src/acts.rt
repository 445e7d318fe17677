//! Acts on a store under test: records of few values, strings, and numbers that are pushed, put as pairs and looked at.
use crate::bench::Bench;
use crate::insists::Insists;
use py_data::{Addr, Bytes, Kind, Record, Value, Values};
use seg_store::SegStore;
use std::alloc::Global;
use std::test::Fail;

/// A record of a kind, with a few values.
pub fn record(alloc: Global, kind: Kind, values: &[Value]) -> Result<Record, Fail> {
    Ok(Record {
        kind,
        values: Values::from_slice(alloc, values)?,
        bytes: Bytes::new(alloc),
    })
}

/// Makes a record with a few values.
pub fn make<S: SegStore>(
    rt: &impl Insists,
    alloc: Global,
    store: &mut Bench<S>,
    k: u8,
    kind: Kind,
    values: &[Value],
) -> Result<Addr, Fail> {
    let r = record(alloc, kind, values)?;
    Ok(store.make(rt, k, &r)?)
}

/// Makes a string.
pub fn make_text<S: SegStore>(
    rt: &impl Insists,
    alloc: Global,
    store: &mut Bench<S>,
    k: u8,
    text: &[u8],
) -> Result<Addr, Fail> {
    let r = Record {
        kind: Kind::Str,
        values: Values::new(alloc),
        bytes: Bytes::from_slice(alloc, text)?,
    };
    Ok(store.make(rt, k, &r)?)
}

/// The number that a segment sees in a place.
pub fn number<S: SegStore>(rt: &impl Insists, store: &Bench<S>, k: u8, a: Addr, i: usize) -> i64 {
    match store.val(rt, k, a, i) {
        Value::Int(n) => n,
        _ => {
            rt.insist(false, "the value is a number");
            0
        }
    }
}

/// The length, the room and the first room of a record.
pub fn size<S: SegStore>(
    rt: &impl Insists,
    store: &Bench<S>,
    k: u8,
    a: Addr,
) -> (usize, usize, usize) {
    let (room, first) = store.rooms(rt, k, a);
    (store.len(rt, k, a), room, first)
}

/// Pushes the numbers from one below another.
pub fn push_numbers<S: SegStore>(
    rt: &impl Insists,
    store: &mut Bench<S>,
    k: u8,
    a: Addr,
    from: i64,
    below: i64,
) {
    'numbers: for n in from..below {
        store.push(rt, k, a, Value::Int(n));
    }
}

/// Puts pairs, whose keys are the numbers from one below another, and whose values are `base` behind them.
pub fn put_numbers<S: SegStore>(
    rt: &impl Insists,
    store: &mut Bench<S>,
    k: u8,
    d: Addr,
    keys: (u32, u32),
    base: u32,
) {
    'numbers: for n in keys.0..keys.1 {
        let v = Value::Int(i64::from(base) + i64::from(n));
        store.pair(rt, k, d, Value::Int(i64::from(n)), v);
    }
}
