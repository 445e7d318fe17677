//! What the transactional core asks of a store.
ghost use Rattle.std.specs.Prelude.{◌≡◌, ℕ, ◌≤◌, Option, Some, None, [], is_some, length, take, drop, slice_get, IfOk, IfErr, IfSome, OnOk, OnErr, true, ◌<◌, ◌*◌, ◌+◌};
ghost use Rattle.py_data.specs.declared.record.TheConstants.{LENGTH_LIMIT};
ghost use Rattle.py_data.specs.declared.change.Change.TheVariants.{Set, Push, Cut, Pair, Unpair};
ghost use Rattle.py_data.specs.Changes.{after};
ghost use Rattle.py_data.specs.Heap.{Has, at, value_at, length_of};
ghost use Rattle.py_data.specs.Looking.{head_of};
ghost use Rattle.py_data.specs.Shape.{IsShaped, find};
ghost use Rattle.py_data.specs.Made.{rec_of};
ghost use Rattle.seg_store.specs.declared.store.StoreFault.TheVariants.{OutOfMemory};
ghost use Rattle.seg_store.specs.Asking.{AsksFor};
ghost use Rattle.seg_store.specs.Meaning.{Meaning, sees, holds};
ghost use Rattle.seg_store.specs.Telling.{in_use, use_with, Rises, RisesTo, Fits, IsOver, IsTelling};
ghost use Rattle.seg_store.specs.Calls.{after_begin, after_mark, after_lock, after_change, after_make, after_open, after_undo, after_publish, after_drop};
ghost use Rattle.seg_store.specs.Store.{HasPlace, HasBytes, CanFind, CanChange, IsFull, NoOther, IsHolder, IsFree, Refuses, IsStore};

use py_data::{Addr, Head, Kind, LENGTH_LIMIT, NoMemory, Peek, Record, Value};
use std::alloc::AllocError;
use thiserror::Error;

/// Why a store refuses a change of a record.
#[derive(Clone, Copy, Debug, Drop, Error, PartialEq, Eq)]
pub enum StoreFault {
    /// The heap has no room: `reserved + need > limit`, in words of 8 bytes. What is needed is one extent, so `need`
    /// is a power of two.
    #[error("the heap is full: {reserved} words reserved, {need} needed, limit {limit}")]
    Full {
        reserved: u64,
        need: u64,
        limit: u64,
    },
    /// There was no memory.
    #[error("out of memory")]
    OutOfMemory,
}

impl From<AllocError> for StoreFault {
    ghost from_gives = { λ _ e. e ≡ OutOfMemory };

    fn from(_e: AllocError) -> StoreFault {
        StoreFault::OutOfMemory
    }
}

/// A heap of records that segments share: a committed image, which `Peek` reads, and for each segment what its
/// transaction has in hand.
///
/// A segment sees the image with its own changes laid over it. It holds the records that it has locked or made, and
/// changes those alone; no record is held by two segments.
///
/// Contracts see a store as its meaning (`specs/Meaning.antt`). Each call that changes a store makes of the meaning
/// what `specs/Calls.antt` says, which touches no other segment's part, and a call that is refused leaves the meaning
/// as it was. Want of memory may come without a cause; the calls that answer no Result take no memory.
pub trait SegStore: Peek + Drop {
    /// The image, and what each segment has in hand.
    ghost meaning: { Self → Meaning };

    /// The end of the words taken so far.
    ghost reserved: { Self → ℕ };

    /// From a store, a call may come to want so many words, the second number, that can't be had while the first
    /// number is reserved.
    ghost fills: { Self → ℕ → ℕ → Type 0 };

    /// Where a store tells its extents: of each class, the most that were in use at once.
    ghost peaks: { Self → Option (ℕ → ℕ) };

    /// How many segments there are, from 1 to 8.
    fn segments(&self) -> u8
        ensures { result ≡ (meaning self.now).segments };

    /// How many words of 8 bytes are taken, those given back among them. It never falls.
    fn reserved(&self) -> u64
        ensures { result ≡ reserved self.now };

    /// The most words that can be taken.
    fn limit(&self) -> u64
        ensures { result ≡ (meaning self.now).limit };

    /// What always holds of a store, for a caller's proof. It does nothing.
    fn known(&self)
        ensures store { IsStore (reserved self.now) (meaning self.now) }
        ensures told { IfSome (peaks self.now) (IsTelling (reserved self.now) (meaning self.now)) };

    /// A transaction begins on a segment that holds nothing: it has looked at nothing yet.
    fn begin(&mut self, k: u8)
        requires segment { k < (meaning self.old).segments }
        requires changed { ((meaning self.old).part k).changed ≡ [] }
        requires made { ((meaning self.old).part k).made ≡ [] }
        ensures meaning { meaning self.new ≡ after_begin k (meaning self.old) }
        ensures reserved { reserved self.new ≡ reserved self.old }
        ensures peaks { peaks self.new ≡ peaks self.old };

    /// The kind of a record that the segment sees.
    fn kind(&self, k: u8, a: Addr) -> Kind
        requires segment { k < (meaning self.now).segments }
        requires there { Has (sees (meaning self.now) k) a.0 }
        ensures { result ≡ (at (sees (meaning self.now) k) a.0).kind };

    /// The count of a record's values; of a Str that of its bytes. It is at most `LENGTH_LIMIT`.
    fn len(&self, k: u8, a: Addr) -> usize
        requires segment { k < (meaning self.now).segments }
        requires there { Has (sees (meaning self.now) k) a.0 }
        ensures length { result ≡ length_of (at (sees (meaning self.now) k) a.0) }
        ensures fits { result ≤ LENGTH_LIMIT };

    /// The value at a place of a record, from 0.
    fn val(&self, k: u8, a: Addr, i: usize) -> Value
        requires segment { k < (meaning self.now).segments }
        requires there { HasPlace (sees (meaning self.now) k) a.0 i }
        ensures { result ≡ value_at (at (sees (meaning self.now) k) a.0).values i };

    /// The kind of a record, and its value at a place, from 0; Unset where it has none there.
    fn find_val(&self, k: u8, a: Addr, i: usize) -> (Kind, Value)
        requires segment { k < (meaning self.now).segments }
        requires there { Has (sees (meaning self.now) k) a.0 }
        ensures kind { result.0 ≡ (at (sees (meaning self.now) k) a.0).kind }
        ensures value { result.1 ≡ value_at (at (sees (meaning self.now) k) a.0).values i };

    /// The kind of a record, the count of its values and the first three.
    fn head(&self, k: u8, a: Addr) -> Head
        requires segment { k < (meaning self.now).segments }
        requires there { Has (sees (meaning self.now) k) a.0 }
        ensures shows { result ≡ head_of (at (sees (meaning self.now) k) a.0) }
        ensures fits { result.count ≤ LENGTH_LIMIT };

    /// The room of a record that the segment sees, and the room that it had when it was made, in values: 0 and 0 for
    /// a record that is no List and no Dict. No script can tell them. A copy of the record that is to run on as the
    /// record would needs them.
    fn rooms(&self, k: u8, a: Addr) -> (usize, usize)
        requires segment { k < (meaning self.now).segments }
        requires there { Has (sees (meaning self.now) k) a.0 }
        ensures { result ≡ ((at (sees (meaning self.now) k) a.0).room, (at (sees (meaning self.now) k) a.0).first) };

    /// Copies as many bytes as `out` holds, from place `from` on.
    fn copy_bytes(&self, k: u8, a: Addr, from: usize, out: &mut [u8])
        requires segment { k < (meaning self.now).segments }
        requires there { HasBytes (sees (meaning self.now) k) a.0 from (length out.old) }
        ensures { out.new ≡ take (length out.old) (drop from (at (sees (meaning self.now) k) a.0).bytes) };

    /// The least number of a pair, from 0, whose key equals `key`.
    fn find_key(&self, k: u8, d: Addr, key: Value) -> Option<usize>
        requires segment { k < (meaning self.now).segments }
        requires there { CanFind (sees (meaning self.now) k) d.0 key }
        ensures found { result ≡ find (sees (meaning self.now) k) (at (sees (meaning self.now) k) d.0).values key }
        ensures fits { IfSome result (λ i. 2 * i + 1 < LENGTH_LIMIT) };

    /// The segment looks at a record.
    fn mark(&mut self, k: u8, a: Addr) -> Result<(), NoMemory>
        requires segment { k < (meaning self.old).segments }
        requires there { Has (sees (meaning self.old) k) a.0 }
        ensures ok { OnOk result (meaning self.new ≡ after_mark k a.0 (meaning self.old)) }
        ensures err { OnErr result (meaning self.new ≡ meaning self.old) }
        ensures reserved { reserved self.new ≡ reserved self.old }
        ensures peaks { peaks self.new ≡ peaks self.old };

    /// The segment takes the write lock of a record, which counts as a look at it.
    fn lock(&mut self, k: u8, a: Addr) -> Result<(), NoMemory>
        requires segment { k < (meaning self.old).segments }
        requires there { Has (sees (meaning self.old) k) a.0 }
        requires free { NoOther (meaning self.old) k a.0 }
        ensures ok { OnOk result (meaning self.new ≡ after_lock k a.0 (meaning self.old)) }
        ensures err { OnErr result (meaning self.new ≡ meaning self.old) }
        ensures reserved { reserved self.new ≡ reserved self.old }
        ensures peaks { peaks self.new ≡ peaks self.old };

    /// Puts another value in a place; of a Dict in the place of a value. It never meets a full heap.
    fn set_val(&mut self, k: u8, a: Addr, i: usize, v: Value) -> Result<(), StoreFault>
        requires segment { k < (meaning self.old).segments }
        requires held { holds ((meaning self.old).part k) a.0 ≡ true }
        requires there { CanChange (sees (meaning self.old) k) a.0 (Set i v) }
        ensures ok { OnOk result (meaning self.new ≡ after_change k a.0 (after (Set i v)) (meaning self.old)) }
        ensures err { OnErr result (meaning self.new ≡ meaning self.old) }
        ensures cause { IfErr result (λ e. e ≡ OutOfMemory) }
        ensures reserved { reserved self.new ≡ reserved self.old }
        ensures peaks { peaks self.new ≡ peaks self.old };

    /// Adds a value at the end of a List. It meets a full heap only where the List's room is full, and only there
    /// peaks may rise.
    fn push_val(&mut self, k: u8, a: Addr, v: Value) -> Result<(), StoreFault>
        requires segment { k < (meaning self.old).segments }
        requires held { holds ((meaning self.old).part k) a.0 ≡ true }
        requires there { CanChange (sees (meaning self.old) k) a.0 (Push v) }
        ensures ok { OnOk result (meaning self.new ≡ after_change k a.0 (after (Push v)) (meaning self.old)) }
        ensures err { OnErr result (meaning self.new ≡ meaning self.old) }
        ensures cause { IfErr result (Refuses (IsFull (sees (meaning self.old) k) a.0 (Push v)) (fills self.old)
            (reserved self.new) (meaning self.old).limit) }
        ensures fits { OnOk result (Fits (peaks self.old) (use_with (meaning self.old) (sees (meaning self.old) k a.0)
            (after (Push v) (at (sees (meaning self.old) k) a.0))) (meaning self.old).limit) }
        ensures asked { IfErr result (AsksFor (sees (meaning self.old) k a.0)
            (after (Push v) (at (sees (meaning self.old) k) a.0))) }
        ensures over { IfErr result (IsOver (peaks self.old)
            (use_with (meaning self.old) (sees (meaning self.old) k a.0)
            (after (Push v) (at (sees (meaning self.old) k) a.0)))) }
        ensures reserved { reserved self.old ≤ reserved self.new }
        ensures peaks { OnOk result (Rises (peaks self.old) (peaks self.new) (in_use (meaning self.new))) }
        ensures peaks_err { OnErr result
            (RisesTo (peaks self.old) (peaks self.new)
            (use_with (meaning self.old) (sees (meaning self.old) k a.0)
            (after (Push v) (at (sees (meaning self.old) k) a.0)))) }
        ensures roomy { (IsFull (sees (meaning self.old) k) a.0 (Push v) → ⊥) → peaks self.new ≡ peaks self.old };

    /// Leaves the first `n` values of a List. It never meets a full heap.
    fn truncate(&mut self, k: u8, a: Addr, n: usize) -> Result<(), StoreFault>
        requires segment { k < (meaning self.old).segments }
        requires held { holds ((meaning self.old).part k) a.0 ≡ true }
        requires there { CanChange (sees (meaning self.old) k) a.0 (Cut n) }
        ensures ok { OnOk result (meaning self.new ≡ after_change k a.0 (after (Cut n)) (meaning self.old)) }
        ensures err { OnErr result (meaning self.new ≡ meaning self.old) }
        ensures cause { IfErr result (λ e. e ≡ OutOfMemory) }
        ensures reserved { reserved self.new ≡ reserved self.old }
        ensures peaks { peaks self.new ≡ peaks self.old };

    /// Adds a key that isn't there, and its value, at the end of a Dict. It meets a full heap only where the Dict's
    /// room is full, and only there peaks may rise.
    fn push_pair(&mut self, k: u8, d: Addr, key: Value, v: Value) -> Result<(), StoreFault>
        requires segment { k < (meaning self.old).segments }
        requires held { holds ((meaning self.old).part k) d.0 ≡ true }
        requires there { CanChange (sees (meaning self.old) k) d.0 (Pair key v) }
        ensures ok { OnOk result (meaning self.new ≡ after_change k d.0 (after (Pair key v)) (meaning self.old)) }
        ensures err { OnErr result (meaning self.new ≡ meaning self.old) }
        ensures cause { IfErr result (Refuses (IsFull (sees (meaning self.old) k) d.0 (Pair key v)) (fills self.old)
            (reserved self.new) (meaning self.old).limit) }
        ensures fits { OnOk result (Fits (peaks self.old) (use_with (meaning self.old) (sees (meaning self.old) k d.0)
            (after (Pair key v) (at (sees (meaning self.old) k) d.0))) (meaning self.old).limit) }
        ensures asked { IfErr result (AsksFor (sees (meaning self.old) k d.0)
            (after (Pair key v) (at (sees (meaning self.old) k) d.0))) }
        ensures over { IfErr result (IsOver (peaks self.old)
            (use_with (meaning self.old) (sees (meaning self.old) k d.0)
            (after (Pair key v) (at (sees (meaning self.old) k) d.0)))) }
        ensures reserved { reserved self.old ≤ reserved self.new }
        ensures peaks { OnOk result (Rises (peaks self.old) (peaks self.new) (in_use (meaning self.new))) }
        ensures peaks_err { OnErr result
            (RisesTo (peaks self.old) (peaks self.new)
            (use_with (meaning self.old) (sees (meaning self.old) k d.0)
            (after (Pair key v) (at (sees (meaning self.old) k) d.0)))) }
        ensures roomy { (IsFull (sees (meaning self.old) k) d.0 (Pair key v) → ⊥) → peaks self.new ≡ peaks self.old };

    /// Drops the pair of that number; those behind close the gap. It never meets a full heap.
    fn drop_pair(&mut self, k: u8, d: Addr, place: usize) -> Result<(), StoreFault>
        requires segment { k < (meaning self.old).segments }
        requires held { holds ((meaning self.old).part k) d.0 ≡ true }
        requires there { CanChange (sees (meaning self.old) k) d.0 (Unpair place) }
        ensures ok { OnOk result (meaning self.new ≡ after_change k d.0 (after (Unpair place)) (meaning self.old)) }
        ensures err { OnErr result (meaning self.new ≡ meaning self.old) }
        ensures cause { IfErr result (λ e. e ≡ OutOfMemory) }
        ensures reserved { reserved self.new ≡ reserved self.old }
        ensures peaks { peaks self.new ≡ peaks self.old };

    /// Makes a record that the segment holds, and answers its address, at which none stood and which no segment held.
    fn make(&mut self, k: u8, r: &Record) -> Result<Addr, StoreFault>
        requires segment { k < (meaning self.old).segments }
        requires shape { IsShaped (sees (meaning self.old) k) (rec_of r.now) }
        requires values { length r.now.values ≤ LENGTH_LIMIT }
        requires bytes { length r.now.bytes ≤ LENGTH_LIMIT }
        ensures fresh { IfOk result (λ n. IsFree (meaning self.old) n.0) }
        ensures ok { IfOk result (λ n. meaning self.new ≡ after_make k n.0 (rec_of r.now) (meaning self.old)) }
        ensures err { OnErr result (meaning self.new ≡ meaning self.old) }
        ensures cause { IfErr result (Refuses (Unit {0}) (fills self.old) (reserved self.new)
            (meaning self.old).limit) }
        ensures asked { IfErr result (AsksFor None (rec_of r.now)) }
        ensures fits { OnOk result (Fits (peaks self.old) (use_with (meaning self.old) None (rec_of r.now))
            (meaning self.old).limit) }
        ensures over { IfErr result (IsOver (peaks self.old) (use_with (meaning self.old) None (rec_of r.now))) }
        ensures reserved { reserved self.old ≤ reserved self.new }
        ensures peaks { OnOk result (Rises (peaks self.old) (peaks self.new) (in_use (meaning self.new))) }
        ensures peaks_err { OnErr result
            (RisesTo (peaks self.old) (peaks self.new) (use_with (meaning self.old) None (rec_of r.now))) };

    /// A step begins: what stands now is what `undo_step` gives back.
    fn open_step(&mut self, k: u8)
        requires { k < (meaning self.old).segments }
        ensures meaning { meaning self.new ≡ after_open k (meaning self.old) }
        ensures reserved { reserved self.new ≡ reserved self.old }
        ensures peaks { peaks self.new ≡ peaks self.old };

    /// Takes back the changes of the step and the records that it made. Looks and locks stay.
    fn undo_step(&mut self, k: u8)
        requires { k < (meaning self.old).segments }
        ensures meaning { meaning self.new ≡ after_undo k (meaning self.old) }
        ensures reserved { reserved self.new ≡ reserved self.old }
        ensures peaks { peaks self.new ≡ peaks self.old };

    /// Whether a record of the image stands at an address.
    fn stands(&self, a: Addr) -> bool
        ensures { result ≡ is_some ((meaning self.now).image a.0) };

    /// The segment that holds a record.
    fn holder(&self, a: Addr) -> Option<u8>
        ensures { IsHolder (meaning self.now) a.0 result };

    /// Whether the segment has looked at a record since its transaction began.
    fn has_looked(&self, k: u8, a: Addr) -> bool
        requires { k < (meaning self.now).segments }
        ensures { result ≡ ((meaning self.now).part k).looked a.0 };

    /// How many records of the image the segment has locked.
    fn changed_len(&self, k: u8) -> usize
        requires { k < (meaning self.now).segments }
        ensures { result ≡ length ((meaning self.now).part k).changed };

    /// The locked record of that number, from 0, in the order of the locks.
    fn changed_at(&self, k: u8, i: usize) -> Addr
        requires segment { k < (meaning self.now).segments }
        requires within { i < length ((meaning self.now).part k).changed }
        ensures { slice_get ((meaning self.now).part k).changed i ≡ Some result.0 };

    /// Makes the image what the segment sees. The segment then holds nothing; its looks stay.
    fn publish(&mut self, k: u8)
        requires { k < (meaning self.old).segments }
        ensures meaning { meaning self.new ≡ after_publish k (meaning self.old) }
        ensures reserved { reserved self.new ≡ reserved self.old }
        ensures peaks { peaks self.new ≡ peaks self.old };

    /// Drops what the segment changed and made: it sees the image again, and holds nothing; its looks stay.
    fn drop_changes(&mut self, k: u8)
        requires { k < (meaning self.old).segments }
        ensures meaning { meaning self.new ≡ after_drop k (meaning self.old) }
        ensures reserved { reserved self.new ≡ reserved self.old }
        ensures peaks { peaks self.new ≡ peaks self.old };

    /// `Peek` reads the image.
    ghost same_image: { (s : Self) → Self.image s ≡ (meaning s).image };
}
