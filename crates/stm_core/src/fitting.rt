//! Whether a piece fits a segment.
ghost use Rattle.std.specs.Prelude.{◌≡◌, ◌↔◌, ◌≤◌, ◌+◌, ◌<◌, IsTrue, true, length, take, drop, Some};
ghost use Rattle.py_data.specs.Heap.{Has, at, is_tracked};
ghost use Rattle.seg_store.specs.Meaning.{sees, holds};
ghost use Rattle.stm_pieces.specs.PieceOf.{piece_state};
ghost use Rattle.stm_core.specs.inner.Lent.{IsLentAt, AreLent};

use crate::transactions::Core;
use lock_run::Client;
use py_base::split;
use py_data::{Addr, Entry, Kind, Value};
use seg_store::SegStore;
use stm_io::{Sink, Source};
use stm_pieces::{Piece, PieceView};
use stm_segment::{Hand, Work, byte_count, is_held, is_there, is_tracked_kind, value_count};

/// How many bytes are compared at a time.
const PART: usize = 64;

/// Whether a record's values are these.
fn has_values<S: SegStore>(store: &S, k: u8, a: Addr, values: &[Value]) -> bool
    requires segment { k < (S.meaning store.now).segments }
    requires there { Has (sees (S.meaning store.now) k) a.0 }
    ensures { IsTrue result ↔ (at (sees (S.meaning store.now) k) a.0).values ≡ values.now }
{
    if value_count(store, k, a) != values.len() {
        return false;
    }
    'values: for i in 0..values.len() {
        if store.val(k, a, i) != values[i] {
            return false;
        }
    }
    true
}

/// Whether a record's bytes from a place on are these. They are copied into a room of as many.
fn has_part<S: SegStore>(
    store: &S,
    k: u8,
    a: Addr,
    from: usize,
    room: &mut [u8],
    part: &[u8],
) -> bool
    requires segment { k < (S.meaning store.now).segments }
    requires there { Has (sees (S.meaning store.now) k) a.0 }
    requires within { from + length part.now ≤ length (at (sees (S.meaning store.now) k) a.0).bytes }
    requires room { length room.old ≡ length part.now }
    ensures { IsTrue result ↔ take (length part.now) (drop from (at (sees (S.meaning store.now) k) a.0).bytes)
        ≡ part.now }
{
    store.copy_bytes(k, a, from, room);
    *room == *part
}

/// Whether a record's bytes are these. They are copied into a room, part by part.
fn has_bytes_by<S: SegStore>(store: &S, k: u8, a: Addr, room: &mut [u8], bytes: &[u8]) -> bool
    requires segment { k < (S.meaning store.now).segments }
    requires there { Has (sees (S.meaning store.now) k) a.0 }
    requires room { 0 < length room.old }
    requires count { length (at (sees (S.meaning store.now) k) a.0).bytes ≡ length bytes.now }
    ensures { IsTrue result ↔ (at (sees (S.meaning store.now) k) a.0).bytes ≡ bytes.now }
{
    let mut done = 0;
    'parts: while done < bytes.len() {
        let n = (bytes.len() - done).min(room.len());
        if !has_part(store, k, a, done, &mut room[..n], &bytes[done..done + n]) {
            return false;
        }
        done += n;
    }
    true
}

/// Whether a record's bytes are these.
fn has_bytes<S: SegStore>(store: &S, k: u8, a: Addr, bytes: &[u8]) -> bool
    requires segment { k < (S.meaning store.now).segments }
    requires there { Has (sees (S.meaning store.now) k) a.0 }
    ensures { IsTrue result ↔ (at (sees (S.meaning store.now) k) a.0).bytes ≡ bytes.now }
{
    if byte_count(store, k, a) != bytes.len() {
        return false;
    }
    has_bytes_by(store, k, a, &mut [0; PART], bytes)
}

/// Whether the segment sees this record at an address, with these rooms.
fn sees_record<S: SegStore>(store: &S, k: u8, a: Addr, r: &Entry) -> bool
    requires segment { k < (S.meaning store.now).segments }
    ensures { IsTrue result ↔ sees (S.meaning store.now) k a.0 ≡ Some r.now }
{
    is_there(store, k, a) && is_same(store, k, a, r)
}

/// Whether a record that the segment sees is as this one.
fn is_same<S: SegStore>(store: &S, k: u8, a: Addr, r: &Entry) -> bool
    requires segment { k < (S.meaning store.now).segments }
    requires there { Has (sees (S.meaning store.now) k) a.0 }
    ensures { IsTrue result ↔ at (sees (S.meaning store.now) k) a.0 ≡ r.now }
{
    if store.kind(k, a) != r.kind() || store.rooms(k, a) != r.rooms() {
        return false;
    }
    let values = has_values(store, k, a, r.values());
    let bytes = has_bytes(store, k, a, r.bytes());
    values && bytes
}

/// Whether a look at a record of this kind isn't noted, or the segment has looked at the record.
fn is_known<S: SegStore>(store: &S, k: u8, a: Addr, kind: Kind) -> bool
    requires { k < (S.meaning store.now).segments }
    ensures { IsTrue result ↔ (is_tracked kind ≡ true → ((S.meaning store.now).part k).looked a.0 ≡ true) }
{
    if is_tracked_kind(kind) {
        store.has_looked(k, a)
    } else {
        true
    }
}

/// Whether a record that is loaned is one that the segment sees and has looked at, if looks at it are noted.
fn is_shown<S: SegStore>(store: &S, k: u8, a: Addr, r: &Entry) -> bool
    requires { k < (S.meaning store.now).segments }
    ensures { IsTrue result ↔ (sees (S.meaning store.now) k a.0 ≡ Some r.now
        × (is_tracked r.now.kind ≡ true → ((S.meaning store.now).part k).looked a.0 ≡ true)) }
{
    is_known(store, k, a, r.kind()) && sees_record(store, k, a, r)
}

/// Whether a record that may be changed is held by the segment.
fn is_owned<S: SegStore>(store: &S, k: u8, a: Addr, locked: bool) -> bool
    ensures { IsTrue result ↔ (locked ≡ true → holds ((S.meaning store.now).part k) a.0 ≡ true) }
{
    if locked { is_held(store, k, a) } else { true }
}

/// Whether what is loaned at an address is as the segment sees it.
fn is_lent<S: SegStore>(store: &S, k: u8, view: &PieceView, a: Addr) -> bool
    requires { k < (S.meaning store.now).segments }
    ensures { IsTrue result ↔ IsLentAt (S.meaning store.now) k (piece_state view.now).loaned
        (piece_state view.now).locked a.0 }
{
    if !is_owned(store, k, a, view.is_locked(a.0)) {
        return false;
    }
    match view.loaned(a.0) {
        Some(r) => is_shown(store, k, a, r),
        None => true,
    }
}

/// Whether all that is loaned is as the segment sees it.
fn are_lent<S: SegStore>(store: &S, k: u8, view: &PieceView) -> bool
    requires { k < (S.meaning store.now).segments }
    ensures { IsTrue result ↔ AreLent (S.meaning store.now) k (piece_state view.now).loaned
        (piece_state view.now).locked }
{
    view.known();
    let mut rest = view.names();
    'names: while let Some((a, more)) = split(rest) {
        if !is_lent(store, k, view, *a) {
            return false;
        }
        rest = more;
    }
    true
}

impl<'p, C: Client, S: SegStore, I: Source, O: Sink, E: Sink> Core<'p, C, S, I, O, E> {
    ghost use Rattle.std.specs.Prelude.{◌≡◌, ◌↔◌, ◌<◌, IsTrue};
    ghost use Rattle.stm_pieces.specs.PieceOf.{piece_state};
    ghost use Rattle.stm_core.specs.CoreHeld.{core_client, core_limits, Says, IsGoodCore};
    ghost use Rattle.stm_core.specs.Pieces.{FitsSegment};
    ghost use Rattle.stm_core.specs.inner.Lent.{FitsWork};

    /// Whether a piece fits this work.
    fn fits_work(&self, k: u8, work: &Work<C::State>, p: &Piece<C::State>) -> bool
        requires { k < (S.meaning self.now.store).segments }
        ensures { IsTrue result ↔ FitsWork (S.meaning self.now.store) k self.now.length work.now p.now.start
            (piece_state p.now.view).loaned (piece_state p.now.view).locked p.now.steps }
    {
        if p.steps > self.length || work.steps > self.length - p.steps {
            return false;
        }
        if !self.client.same(&work.state, &p.start) {
            return false;
        }
        are_lent(&self.store, k, &p.view)
    }

    /// Whether a piece fits the transaction that segment `k` has in hand: it begins with the transaction's state,
    /// what was loaned to it is as the segment sees it, was looked at where looks are noted, and is held where the
    /// piece may change it, and its steps are within the length. It takes time of what was loaned.
    pub fn fits(&self, k: u8, p: &Piece<C::State>) -> bool
        requires segment { k < (core_limits S.meaning self.now).segments }
        requires good { IsGoodCore I.state O.state E.state C.prog C.sound S.reserved S.meaning self.now }
        ensures { Says I.state O.state E.state C.prog S.meaning self.now
            (λ o. IsTrue result ↔ FitsSegment (core_limits S.meaning self.now).length o.core.image
            (o.core.segments k) p.now.start (piece_state p.now.view).loaned (piece_state p.now.view).locked
            p.now.steps) }
    {
        match &self.books.hands[k as usize] {
            Hand::Runs(work) => self.fits_work(k, work, p),
            _ => false,
        }
    }
}
