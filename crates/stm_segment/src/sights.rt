//! Records that a segment of a store sees: which are there, how long they are, copies of them, and whether one is as
//! another.
ghost use Rattle.std.specs.Prelude.{◌≡◌, ◌↔◌, ◌<◌, ◌≤◌, IsTrue, true, false, length, take, drop, Some, IfOk, IfSome};
ghost use Rattle.py_data.specs.Heap.{Has, at, has_rooms, is_tracked};
ghost use Rattle.seg_store.specs.Meaning.{sees, holds};

use py_data::{Addr, Bytes, Entry, Kind, LENGTH_LIMIT, NoMemory, Value};
use seg_store::SegStore;
use std::alloc::Global;

/// The most values, or bytes, of a record that is copied, and its greatest room.
const COPY_LIMIT: usize = 1_024;

/// A record of this kind changes, and a look at it is noted.
#[tactic(auto, unfolding(py_data::specs::Heap::is_tracked))]
pub fn is_tracked_kind(kind: Kind) -> bool
    ensures { result ≡ is_tracked kind }
{
    matches!(
        kind,
        Kind::List | Kind::Dict | Kind::Cell | Kind::Iter | Kind::Lock | Kind::Thread
    )
}

/// Whether the segment holds a record.
pub fn is_held<S: SegStore>(store: &S, k: u8, a: Addr) -> bool
    ensures { result ≡ holds ((S.meaning store.now).part k) a.0 }
{
    store.known();
    match store.holder(a) {
        Some(j) => j == k,
        None => false,
    }
}

/// Whether the segment sees a record at an address.
pub fn is_there<S: SegStore>(store: &S, k: u8, a: Addr) -> bool
    ensures { IsTrue result ↔ Has (sees (S.meaning store.now) k) a.0 }
{
    store.known();
    store.stands(a) || is_held(store, k, a)
}

/// The count of a record's values.
pub fn value_count<S: SegStore>(store: &S, k: u8, a: Addr) -> usize
    requires segment { k < (S.meaning store.now).segments }
    requires there { Has (sees (S.meaning store.now) k) a.0 }
    ensures count { result ≡ length (at (sees (S.meaning store.now) k) a.0).values }
    ensures fits { result ≤ LENGTH_LIMIT }
{
    store.known();
    match store.kind(k, a) {
        Kind::Str => 0,
        _ => store.len(k, a),
    }
}

/// The count of a record's bytes.
pub fn byte_count<S: SegStore>(store: &S, k: u8, a: Addr) -> usize
    requires segment { k < (S.meaning store.now).segments }
    requires there { Has (sees (S.meaning store.now) k) a.0 }
    ensures count { result ≡ length (at (sees (S.meaning store.now) k) a.0).bytes }
    ensures fits { result ≤ LENGTH_LIMIT }
{
    store.known();
    match store.kind(k, a) {
        Kind::Str => store.len(k, a),
        _ => 0,
    }
}

/// Copies of a record's values.
fn values_of<S: SegStore>(alloc: Global, store: &S, k: u8, a: Addr) -> Result<Vec<Value>, NoMemory>
    requires segment { k < (S.meaning store.now).segments }
    requires there { Has (sees (S.meaning store.now) k) a.0 }
    ensures { IfOk result (λ v. v.items ≡ (at (sees (S.meaning store.now) k) a.0).values) }
{
    let count = value_count(store, k, a);
    let mut values = Vec::with_capacity(alloc, count)?;
    'values: for i in 0..count {
        values.push(store.val(k, a, i))?;
    }
    Ok(values)
}

/// A copy of a record's bytes.
fn bytes_of<S: SegStore>(alloc: Global, store: &S, k: u8, a: Addr) -> Result<Bytes, NoMemory>
    requires segment { k < (S.meaning store.now).segments }
    requires there { Has (sees (S.meaning store.now) k) a.0 }
    ensures { IfOk result (λ b. b ≡ (at (sees (S.meaning store.now) k) a.0).bytes) }
{
    let mut room = vec![in alloc; 0; byte_count(store, k, a)]?;
    store.copy_bytes(k, a, 0, room.as_mut_slice());
    Ok(Bytes::from_slice(alloc, room.as_slice())?)
}

/// A record of so many values or bytes, and of this room, is copied. One of a kind that has rooms has no more values
/// than its room.
fn is_small(kind: Kind, count: usize, room: usize) -> bool
    ensures { result ≡ true → has_rooms kind ≡ true → count ≤ room }
{
    match kind {
        Kind::List | Kind::Dict => count <= room && room <= COPY_LIMIT,
        _ => count <= COPY_LIMIT && room <= COPY_LIMIT,
    }
}

/// A copy of a record that the segment sees, with its rooms, if the record is small.
pub fn copy_of<S: SegStore>(
    alloc: Global,
    store: &S,
    k: u8,
    a: Addr,
) -> Result<Option<Entry>, NoMemory>
    requires segment { k < (S.meaning store.now).segments }
    requires there { Has (sees (S.meaning store.now) k) a.0 }
    ensures { IfOk result (λ o. IfSome o (λ r. r ≡ at (sees (S.meaning store.now) k) a.0)) }
{
    store.known();
    let kind = store.kind(k, a);
    let (room, first) = store.rooms(k, a);
    if !is_small(kind, store.len(k, a), room) {
        return Ok(None);
    }
    let values = values_of(alloc, store, k, a)?;
    let bytes = bytes_of(alloc, store, k, a)?;
    Ok(Some(Entry::standing(kind, values, bytes, room, first)?))
}
