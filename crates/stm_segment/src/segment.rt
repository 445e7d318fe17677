//! A segment's view: the sight of a transaction that shares the heap with others. Here is how it looks at records and
//! comes to hold them; its calls stand in `view`.
ghost use Rattle.std.specs.Prelude.{◌≡◌, ◌≢◌, ◌<◌, ◌≤◌, ◌+◌, ◌*◌, ◌++◌, [], ◌∷◌, true, false, length, take, drop, slice_set, Some, None, OnOk, OnErr, IfOk, IfErr, IfSome};
ghost use Rattle.py_data.specs.Heap.{Has, at, value_at, is_tracked};
ghost use Rattle.py_data.specs.Changes.{after};
ghost use Rattle.py_data.specs.Looking.{head_of};
ghost use Rattle.py_data.specs.Shape.{IsShaped, find};
ghost use Rattle.py_data.specs.Sense.{IfThere};
ghost use Rattle.py_data.specs.Made.{rec_of};
ghost use Rattle.seg_store.specs.Meaning.{sees, holds};
ghost use Rattle.seg_store.specs.Calls.{after_drop, after_change, after_make};
ghost use Rattle.seg_store.specs.Store.{CanFind, CanChange, NoOther, IsFree};
ghost use Rattle.seg_store.specs.Extents.{Wants};
ghost use Rattle.stm_segment.specs.Asking.{ChangeWants};
ghost use Rattle.stm_segment.specs.Conflict.{wins};
ghost use Rattle.stm_segment.specs.Books.{Fit, runs_at};
ghost use Rattle.py_data.specs.Row.{Call, Read, Edit};
ghost use Rattle.seg_store.specs.Extents.{extents};
ghost use Rattle.seg_store.specs.Telling.{in_use};
ghost use Rattle.stm_segment.specs.InUse.{wants_more, RisesUpTo, IfTold};
ghost use Rattle.stm_segment.specs.inner.SegSense.{Seen, RisesThere};
ghost use Rattle.stm_segment.specs.declared.halt.Halt.TheVariants.{OutOfMemory};
ghost use Rattle.stm_segment.specs.inner.Halts.{stop_of, gave, gave_none};
ghost use Rattle.stm_segment.specs.inner.Hold.{hold_of, halt_of, SegDoes, SegWhy, SegRefuses, FaultWhy, HoldsOrFails, is_noted, Looks};

use crate::books::{Books, Hand, Progress};
use crate::devices::Devices;
use crate::halt::{Halt, LastStop};
use crate::sights::{byte_count, is_tracked_kind, value_count};
use py_data::{Addr, Change, Conflict, Head, Kind, LENGTH_LIMIT, Record, Side, Stop, Value};
use seg_store::{SegStore, StoreFault};

/// Of two sides of a conflict the first one wins: the solo one does, and otherwise the one that began earlier.
pub fn wins(x: Side, y: Side) -> bool
    ensures { result ≡ wins x y }
{
    x.solo || (!y.solo && x.begun < y.begun)
}

/// The sight of a transaction on one segment of a store, and the devices of the core. A call of one that isn't solo
/// is refused where it would print or read; and where it asks whether the output is in the middle of a line, it may
/// be told what doesn't hold in its world: a client's step writes next then, and is refused.
#[derive(Drop)]
pub struct SegView<'a, T, S: SegStore, I, O, E> {
    /// The store, which all segments share.
    pub store: &'a mut S,
    /// The books of the core.
    pub books: &'a mut Books<T>,
    /// The names that the transaction gave, the threads that it started, and what it looked at last.
    pub progress: &'a mut Progress<T>,
    /// The devices of the core.
    pub devices: &'a mut Devices<I, O, E>,
    /// The number of the segment, from 0.
    pub segment: u8,
    /// The transaction, as a side of conflicts.
    pub side: Side,
    /// What it gave last.
    pub last: LastStop,
    ghost fits: { Fit segment (S.meaning store.now) books.now progress.now },
}

impl<'a, T: Drop, S: SegStore, I, O, E> SegView<'a, T, S, I, O, E> {
    /// The view of a segment whose transaction was taken out of its hand, and acts for this side.
    pub fn new(
        store: &'a mut S,
        books: &'a mut Books<T>,
        progress: &'a mut Progress<T>,
        devices: &'a mut Devices<I, O, E>,
        segment: u8,
        side: Side,
    ) -> SegView<'a, T, S, I, O, E>
        requires { Fit segment (S.meaning store.old) books.old progress.old }
        ensures holds { hold_of S.meaning S.reserved result.store.now result.books.now result.progress.now result.last
            ≡ hold_of S.meaning S.reserved store.old books.old progress.old gave_none }
        ensures peaks { S.peaks result.store.now ≡ S.peaks store.old }
        ensures tells { result.devices.now ≡ devices.old }
        ensures stays { (result.segment ≡ segment) × (result.side ≡ side) }
        ensures refs { (result.store.ghost_name ≡ store.entry.ghost_name)
            × (result.books.ghost_name ≡ books.entry.ghost_name)
            × (result.progress.ghost_name ≡ progress.entry.ghost_name)
            × (result.devices.ghost_name ≡ devices.entry.ghost_name) }
    {
        SegView {
            store,
            books,
            progress,
            devices,
            segment,
            side,
            last: LastStop {
                stopped: None,
                halt: Halt::OutOfMemory,
            },
        }
    }

    /// Keeps why a call is refused, and says it in a word. A call for which it has a cause is refused so.
    #[cold]
    #[inline(never)]
    pub fn fail(&mut self, halt: Halt) -> Stop
        ensures same { result ≡ stop_of halt }
        ensures word { result ≡ stop_of self.new.last.halt }
        ensures last { self.new.last ≡ gave halt }
        ensures stays { (self.new.segment ≡ self.old.segment) × (self.new.side ≡ self.old.side)
            × (self.new.devices ≡ self.old.devices) }
        ensures refs { (self.new.store.ghost_name ≡ self.old.store.ghost_name)
            × (self.new.books.ghost_name ≡ self.old.books.ghost_name)
            × (self.new.progress.ghost_name ≡ self.old.progress.ghost_name) }
        ensures store { self.new.store.now ≡ self.old.store.now }
        ensures books { self.new.books.now ≡ self.old.books.now }
        ensures progress { self.new.progress.now ≡ self.old.progress.now }
        ensures refuses { (c : Call T)
            → SegWhy self.old.segment self.old.side halt c (sees (S.meaning self.old.store.now) self.old.segment)
            (hold_of S.meaning S.reserved self.new.store.now self.new.books.now self.new.progress.now self.new.last)
            → SegRefuses self.old.segment self.old.side c
            (hold_of S.meaning S.reserved self.old.store.now self.old.books.now self.old.progress.now self.old.last)
            self.new.last.halt
            (hold_of S.meaning S.reserved self.new.store.now self.new.books.now self.new.progress.now self.new.last) }
    {
        let stop = halt.stop();
        self.last = LastStop {
            stopped: Some(stop),
            halt,
        };
        stop
    }

    /// Keeps why the store refused a change, and says it in a word.
    pub fn refuse(&mut self, fault: StoreFault) -> Stop
        ensures word { result ≡ stop_of self.new.last.halt }
        ensures last { self.new.last ≡ gave (halt_of fault) }
        ensures stays { (self.new.segment ≡ self.old.segment) × (self.new.side ≡ self.old.side)
            × (self.new.devices ≡ self.old.devices) }
        ensures refs { (self.new.store.ghost_name ≡ self.old.store.ghost_name)
            × (self.new.books.ghost_name ≡ self.old.books.ghost_name)
            × (self.new.progress.ghost_name ≡ self.old.progress.ghost_name) }
        ensures store { self.new.store.now ≡ self.old.store.now }
        ensures books { self.new.books.now ≡ self.old.books.now }
        ensures progress { self.new.progress.now ≡ self.old.progress.now }
    {
        match fault {
            StoreFault::Full {
                reserved,
                need,
                limit,
            } => self.fail(Halt::Full {
                reserved,
                need,
                limit,
            }),
            StoreFault::OutOfMemory => self.fail(Halt::OutOfMemory),
        }
    }

    /// A record is the one that was looked at last.
    fn note(&self, a: Addr) {
        self.progress.recent.note(a);
    }

    /// The record was seen already, or a look at it isn't noted.
    pub fn is_seen(&self, a: Addr) -> bool
        requires there { Has (sees (S.meaning self.now.store.now) self.now.segment) a.0 }
        ensures { result ≡ is_noted (sees (S.meaning self.now.store.now) self.now.segment a.0)
            (((S.meaning self.now.store.now).part self.now.segment).looked a.0) }
    {
        if self.store.has_looked(self.segment, a) {
            true
        } else {
            !is_tracked_kind(self.store.kind(self.segment, a))
        }
    }

    /// The same of a record of this kind, which needn't be read once more.
    pub fn is_seen_as(&self, a: Addr, kind: Kind) -> bool
        requires there { Has (sees (S.meaning self.now.store.now) self.now.segment) a.0 }
        requires kind { kind ≡ (at (sees (S.meaning self.now.store.now) self.now.segment) a.0).kind }
        ensures { result ≡ is_noted (sees (S.meaning self.now.store.now) self.now.segment a.0)
            (((S.meaning self.now.store.now).part self.now.segment).looked a.0) }
    {
        if is_tracked_kind(kind) {
            self.store.has_looked(self.segment, a)
        } else {
            true
        }
    }

    /// Notes a look at a record, unless it was seen.
    fn look(&mut self, a: Addr, seen: bool) -> Result<(), Stop>
        requires there { Has (sees (S.meaning self.old.store.now) self.old.segment) a.0 }
        requires seen { seen ≡ is_noted (sees (S.meaning self.old.store.now) self.old.segment a.0)
            (((S.meaning self.old.store.now).part self.old.segment).looked a.0) }
        ensures done { OnOk result (Looks a.0 self.old.segment (S.meaning self.old.store.now)
            (S.meaning self.new.store.now)) }
        ensures last { OnOk result (self.new.last ≡ self.old.last) }
        ensures quiet { is_noted (sees (S.meaning self.old.store.now) self.old.segment a.0)
            (((S.meaning self.old.store.now).part self.old.segment).looked a.0) ≡ true → self.new ≡ self.old }
        ensures word { IfErr result (λ e. e ≡ stop_of self.new.last.halt) }
        ensures err { OnErr result ((self.new.last ≡ gave OutOfMemory)
            × (S.meaning self.new.store.now ≡ S.meaning self.old.store.now)) }
        ensures unsure { IfErr result (λ e. is_noted (sees (S.meaning self.old.store.now) self.old.segment a.0)
            (((S.meaning self.old.store.now).part self.old.segment).looked a.0) ≡ false) }
        ensures stays { (self.new.segment ≡ self.old.segment) × (self.new.side ≡ self.old.side)
            × (self.new.devices ≡ self.old.devices) }
        ensures refs { (self.new.store.ghost_name ≡ self.old.store.ghost_name)
            × (self.new.books.ghost_name ≡ self.old.books.ghost_name)
            × (self.new.progress.ghost_name ≡ self.old.progress.ghost_name) }
        ensures books { self.new.books.now ≡ self.old.books.now }
        ensures progress { self.new.progress.now ≡ self.old.progress.now }
        ensures reserved { S.reserved self.new.store.now ≡ S.reserved self.old.store.now }
        ensures peaks { S.peaks self.new.store.now ≡ S.peaks self.old.store.now }
    {
        if seen {
            return Ok(());
        }
        match self.store.mark(self.segment, a) {
            Ok(()) => Ok(()),
            Err(_) => Err(self.fail(Halt::OutOfMemory)),
        }
    }

    /// The transaction of segment j loses: the segment is doomed with this conflict, and holds nothing any more.
    fn doom(&mut self, j: u8, f: Conflict)
        requires other { j ≢ self.old.segment }
        requires runs { runs_at self.old.books.now.hands.items j ≡ true }
        ensures store { S.meaning self.new.store.now ≡ after_drop j (S.meaning self.old.store.now) }
        ensures reserved { S.reserved self.new.store.now ≡ S.reserved self.old.store.now }
        ensures peaks { S.peaks self.new.store.now ≡ S.peaks self.old.store.now }
        ensures books { self.new.books.now ≡ record self.old.books.now {
          hands = self.new.books.now.hands;
          pending = self.new.books.now.pending;
          conflicts = self.new.books.now.conflicts;
        } }
        ensures hands { self.new.books.now.hands.items ≡ slice_set self.old.books.now.hands.items j (Hand.Doomed f) }
        ensures conflicts { self.new.books.now.conflicts.entries ≡ self.old.books.now.conflicts.entries ++ f ∷ [] }
        ensures progress { self.new.progress.now ≡ self.old.progress.now }
        ensures last { self.new.last ≡ self.old.last }
        ensures stays { (self.new.segment ≡ self.old.segment) × (self.new.side ≡ self.old.side)
            × (self.new.devices ≡ self.old.devices) }
        ensures refs { (self.new.store.ghost_name ≡ self.old.store.ghost_name)
            × (self.new.books.ghost_name ≡ self.old.books.ghost_name)
            × (self.new.progress.ghost_name ≡ self.old.progress.ghost_name) }
    {
        self.books.doom(j, f);
        self.store.drop_changes(j);
    }

    /// Looks at a record that the segment holds.
    fn look_held(&mut self, a: Addr) -> Result<(), Stop>
        requires there { Has (sees (S.meaning self.old.store.now) self.old.segment) a.0 }
        requires tracked { is_tracked (at (sees (S.meaning self.old.store.now) self.old.segment) a.0).kind ≡ true }
        requires held { holds ((S.meaning self.old.store.now).part self.old.segment) a.0 ≡ true }
        ensures held { HoldsOrFails self.old.segment self.old.side a.0 result
            (hold_of S.meaning S.reserved self.old.store.now self.old.books.now self.old.progress.now self.old.last)
            (hold_of S.meaning S.reserved self.new.store.now self.new.books.now self.new.progress.now self.new.last) }
        ensures stays { (self.new.segment ≡ self.old.segment) × (self.new.side ≡ self.old.side)
            × (self.new.devices ≡ self.old.devices) }
        ensures refs { (self.new.store.ghost_name ≡ self.old.store.ghost_name)
            × (self.new.books.ghost_name ≡ self.old.books.ghost_name)
            × (self.new.progress.ghost_name ≡ self.old.progress.ghost_name) }
        ensures peaks { S.peaks self.new.store.now ≡ S.peaks self.old.store.now }
    {
        let seen = self.is_seen(a);
        self.look(a, seen)
    }

    /// Takes the write lock of a record that no other segment holds.
    fn lock(&mut self, a: Addr) -> Result<(), Stop>
        requires there { Has (sees (S.meaning self.old.store.now) self.old.segment) a.0 }
        requires tracked { is_tracked (at (sees (S.meaning self.old.store.now) self.old.segment) a.0).kind ≡ true }
        requires free { NoOther (S.meaning self.old.store.now) self.old.segment a.0 }
        ensures held { HoldsOrFails self.old.segment self.old.side a.0 result
            (hold_of S.meaning S.reserved self.old.store.now self.old.books.now self.old.progress.now self.old.last)
            (hold_of S.meaning S.reserved self.new.store.now self.new.books.now self.new.progress.now self.new.last) }
        ensures stays { (self.new.segment ≡ self.old.segment) × (self.new.side ≡ self.old.side)
            × (self.new.devices ≡ self.old.devices) }
        ensures refs { (self.new.store.ghost_name ≡ self.old.store.ghost_name)
            × (self.new.books.ghost_name ≡ self.old.books.ghost_name)
            × (self.new.progress.ghost_name ≡ self.old.progress.ghost_name) }
        ensures peaks { S.peaks self.new.store.now ≡ S.peaks self.old.store.now }
    {
        self.store.known();
        match self.store.lock(self.segment, a) {
            Ok(()) => Ok(()),
            Err(_) => Err(self.fail(Halt::OutOfMemory)),
        }
    }

    /// Takes the write lock of a record that segment j has locked: one of the two loses.
    fn meet(&mut self, j: u8, a: Addr) -> Result<(), Stop>
        requires other { j ≢ self.old.segment }
        requires runs { runs_at self.old.books.now.hands.items j ≡ true }
        requires there { Has (sees (S.meaning self.old.store.now) self.old.segment) a.0 }
        requires tracked { is_tracked (at (sees (S.meaning self.old.store.now) self.old.segment) a.0).kind ≡ true }
        requires held { holds ((S.meaning self.old.store.now).part j) a.0 ≡ true }
        ensures held { HoldsOrFails self.old.segment self.old.side a.0 result
            (hold_of S.meaning S.reserved self.old.store.now self.old.books.now self.old.progress.now self.old.last)
            (hold_of S.meaning S.reserved self.new.store.now self.new.books.now self.new.progress.now self.new.last) }
        ensures stays { (self.new.segment ≡ self.old.segment) × (self.new.side ≡ self.old.side)
            × (self.new.devices ≡ self.old.devices) }
        ensures refs { (self.new.store.ghost_name ≡ self.old.store.ghost_name)
            × (self.new.books.ghost_name ≡ self.old.books.ghost_name)
            × (self.new.progress.ghost_name ≡ self.old.progress.ghost_name) }
        ensures peaks { S.peaks self.new.store.now ≡ S.peaks self.old.store.now }
    {
        self.store.known();
        let writer = self.books.side(j);
        if !wins(self.side, writer) {
            let lost = Conflict {
                at: a,
                writer,
                other: self.side,
                asks: true,
                lost: 1,
            };
            return Err(self.fail(Halt::Lost(lost)));
        }
        let won = Conflict {
            at: a,
            writer,
            other: self.side,
            asks: true,
            lost: 0,
        };
        self.doom(j, won);
        self.lock(a)
    }

    /// Takes the write lock of a record, which counts as a look at it.
    fn hold(&mut self, a: Addr) -> Result<(), Stop>
        requires there { Has (sees (S.meaning self.old.store.now) self.old.segment) a.0 }
        requires tracked { is_tracked (at (sees (S.meaning self.old.store.now) self.old.segment) a.0).kind ≡ true }
        ensures held { HoldsOrFails self.old.segment self.old.side a.0 result
            (hold_of S.meaning S.reserved self.old.store.now self.old.books.now self.old.progress.now self.old.last)
            (hold_of S.meaning S.reserved self.new.store.now self.new.books.now self.new.progress.now self.new.last) }
        ensures stays { (self.new.segment ≡ self.old.segment) × (self.new.side ≡ self.old.side)
            × (self.new.devices ≡ self.old.devices) }
        ensures refs { (self.new.store.ghost_name ≡ self.old.store.ghost_name)
            × (self.new.books.ghost_name ≡ self.old.books.ghost_name)
            × (self.new.progress.ghost_name ≡ self.old.progress.ghost_name) }
        ensures peaks { S.peaks self.new.store.now ≡ S.peaks self.old.store.now }
    {
        self.note(a);
        match self.store.holder(a) {
            None => self.lock(a),
            Some(j) => {
                if j == self.segment {
                    self.look_held(a)
                } else {
                    self.meet(j, a)
                }
            }
        }
    }

    /// Changes a record that the segment holds.
    fn change_held(&mut self, a: Addr, change: Change) -> Result<(), StoreFault>
        requires held { holds ((S.meaning self.old.store.now).part self.old.segment) a.0 ≡ true }
        requires can { CanChange (sees (S.meaning self.old.store.now) self.old.segment) a.0 change }
        ensures ok { OnOk result (S.meaning self.new.store.now ≡ after_change self.old.segment a.0 (after change)
            (S.meaning self.old.store.now)) }
        ensures err { OnErr result (S.meaning self.new.store.now ≡ S.meaning self.old.store.now) }
        ensures cause { IfErr result (FaultWhy
            (ChangeWants change (sees (S.meaning self.old.store.now) self.old.segment) a.0)
            (S.reserved self.new.store.now) (S.meaning self.old.store.now).limit) }
        ensures reserved { S.reserved self.old.store.now ≤ S.reserved self.new.store.now }
        ensures books { self.new.books.now ≡ self.old.books.now }
        ensures progress { self.new.progress.now ≡ self.old.progress.now }
        ensures last { self.new.last ≡ self.old.last }
        ensures stays { (self.new.segment ≡ self.old.segment) × (self.new.side ≡ self.old.side)
            × (self.new.devices ≡ self.old.devices) }
        ensures refs { (self.new.store.ghost_name ≡ self.old.store.ghost_name)
            × (self.new.books.ghost_name ≡ self.old.books.ghost_name)
            × (self.new.progress.ghost_name ≡ self.old.progress.ghost_name) }
        ensures peaks { OnOk result (IfTold (S.peaks self.old.store.now) (S.peaks self.new.store.now)
            (λ f g. RisesUpTo f g (in_use (S.meaning self.new.store.now)))) }
        ensures peaks_err { OnErr result
            (IfTold (S.peaks self.old.store.now) (S.peaks self.new.store.now)
            (λ f g. RisesUpTo f g (λ c. in_use (S.meaning self.old.store.now) c + wants_more {S = T} (Edit a.0 change)
            (sees (S.meaning self.old.store.now) self.old.segment) c))) }
    {
        match change {
            Change::Set(i, v) => self.store.set_val(self.segment, a, i, v),
            Change::Push(v) => self.store.push_val(self.segment, a, v),
            Change::Cut(n) => self.store.truncate(self.segment, a, n),
            Change::Pair(key, v) => self.store.push_pair(self.segment, a, key, v),
            Change::Unpair(n) => self.store.drop_pair(self.segment, a, n),
        }
    }

    /// Takes the write lock of a record, and changes it.
    pub fn change(&mut self, a: Addr, change: Change) -> Result<(), Stop>
        requires live { self.old.last.stopped ≡ None }
        requires can { CanChange (sees (S.meaning self.old.store.now) self.old.segment) a.0 change }
        ensures ok { OnOk result (SegDoes self.old.segment self.old.side (Edit a.0 change)
            (hold_of S.meaning S.reserved self.old.store.now self.old.books.now self.old.progress.now self.old.last) tt
            (hold_of S.meaning S.reserved self.new.store.now self.new.books.now self.new.progress.now self.new.last)) }
        ensures word { IfErr result (λ e. e ≡ stop_of self.new.last.halt) }
        ensures err { OnErr result (SegRefuses self.old.segment self.old.side (Edit a.0 change)
            (hold_of S.meaning S.reserved self.old.store.now self.old.books.now self.old.progress.now self.old.last)
            self.new.last.halt
            (hold_of S.meaning S.reserved self.new.store.now self.new.books.now self.new.progress.now self.new.last)) }
        ensures stays { (self.new.segment ≡ self.old.segment) × (self.new.side ≡ self.old.side)
            × (self.new.devices ≡ self.old.devices) }
        ensures refs { (self.new.store.ghost_name ≡ self.old.store.ghost_name)
            × (self.new.books.ghost_name ≡ self.old.books.ghost_name)
            × (self.new.progress.ghost_name ≡ self.old.progress.ghost_name) }
        ensures tells { OnOk result (RisesThere self.new.segment (S.meaning self.new.store.now) self.new.books.now
            (λ c. 0) (S.peaks self.old.store.now) (S.peaks self.new.store.now)) }
        ensures tells_err { OnErr result
            (RisesThere self.old.segment (S.meaning self.old.store.now) self.old.books.now
            (wants_more {S = T} (Edit a.0 change) (sees (S.meaning self.old.store.now) self.old.segment))
            (S.peaks self.old.store.now) (S.peaks self.new.store.now)) }
    {
        match self.hold(a) {
            Ok(()) => match self.change_held(a, change) {
                Ok(()) => {
                    self.store.known();
                    Ok(())
                }
                Err(fault) => {
                    self.store.known();
                    Err(self.refuse(fault))
                }
            },
            Err(stop) => Err(stop),
        }
    }

    /// Makes a record, for whose name a place was made.
    pub fn name_made(&mut self, r: &Record) -> Result<Addr, StoreFault>
        requires shape { IsShaped (sees (S.meaning self.old.store.now) self.old.segment) (rec_of r.now) }
        requires values { length r.now.values ≤ LENGTH_LIMIT }
        requires bytes { length r.now.bytes ≤ LENGTH_LIMIT }
        ensures fresh { IfOk result (λ n. IsFree (S.meaning self.old.store.now) n.0) }
        ensures ok { IfOk result (λ n. S.meaning self.new.store.now ≡ after_make self.old.segment n.0 (rec_of r.now)
            (S.meaning self.old.store.now)) }
        ensures names { IfOk result (λ n. self.new.progress.now ≡ record self.old.progress.now
            { names = self.old.progress.now.names ++ n ∷ [] }) }
        ensures err { OnErr result (S.meaning self.new.store.now ≡ S.meaning self.old.store.now) }
        ensures same { OnErr result (self.new.progress.now ≡ self.old.progress.now) }
        ensures cause { IfErr result (FaultWhy (Wants None (rec_of r.now)) (S.reserved self.new.store.now)
            (S.meaning self.old.store.now).limit) }
        ensures reserved { S.reserved self.old.store.now ≤ S.reserved self.new.store.now }
        ensures books { self.new.books.now ≡ self.old.books.now }
        ensures last { self.new.last ≡ self.old.last }
        ensures stays { (self.new.segment ≡ self.old.segment) × (self.new.side ≡ self.old.side)
            × (self.new.devices ≡ self.old.devices) }
        ensures refs { (self.new.store.ghost_name ≡ self.old.store.ghost_name)
            × (self.new.books.ghost_name ≡ self.old.books.ghost_name)
            × (self.new.progress.ghost_name ≡ self.old.progress.ghost_name) }
        ensures peaks { OnOk result (IfTold (S.peaks self.old.store.now) (S.peaks self.new.store.now)
            (λ f g. RisesUpTo f g (in_use (S.meaning self.new.store.now)))) }
        ensures peaks_err { OnErr result
            (IfTold (S.peaks self.old.store.now) (S.peaks self.new.store.now)
            (λ f g. RisesUpTo f g (λ c. in_use (S.meaning self.old.store.now) c + extents (rec_of r.now) c))) }
    {
        let last = self.progress.names.len();
        self.progress.names.push(Addr(0))?;
        match self.store.make(self.segment, r) {
            Ok(n) => {
                self.progress.names.set(last, n);
                Ok(n)
            }
            Err(fault) => {
                self.progress.names.truncate(last);
                Err(fault)
            }
        }
    }

    /// The kind of a record. No look is noted.
    pub fn kind_of(&self, a: Addr) -> Kind
        requires { IfThere false ((sees (S.meaning self.now.store.now) self.now.segment) a.0) (λ r. Unit {0}) }
        ensures { result ≡ (at (sees (S.meaning self.now.store.now) self.now.segment) a.0).kind }
    {
        self.store.kind(self.segment, a)
    }

    /// The count of a record's values. No look is noted.
    pub fn count_of(&self, a: Addr) -> usize
        requires { IfThere false ((sees (S.meaning self.now.store.now) self.now.segment) a.0) (λ r. Unit {0}) }
        ensures count { result ≡ length (at (sees (S.meaning self.now.store.now) self.now.segment) a.0).values }
        ensures fits { result ≤ LENGTH_LIMIT }
    {
        value_count(self.store, self.segment, a)
    }

    /// The count of a record's bytes. No look is noted.
    pub fn byte_count_of(&self, a: Addr) -> usize
        requires { IfThere false ((sees (S.meaning self.now.store.now) self.now.segment) a.0) (λ r. Unit {0}) }
        ensures count { result ≡ length (at (sees (S.meaning self.now.store.now) self.now.segment) a.0).bytes }
        ensures fits { result ≤ LENGTH_LIMIT }
    {
        byte_count(self.store, self.segment, a)
    }

    /// A value of a record. No look is noted.
    pub fn value_of(&self, a: Addr, i: usize) -> Value
        requires { IfThere false ((sees (S.meaning self.now.store.now) self.now.segment) a.0)
            (λ r. i < length r.values) }
        ensures { result ≡ value_at (at (sees (S.meaning self.now.store.now) self.now.segment) a.0).values i }
    {
        self.store.val(self.segment, a, i)
    }

    /// A record's kind, the count of its values, and the first three. No look is noted.
    pub fn head_of(&self, a: Addr) -> Head
        requires { IfThere false ((sees (S.meaning self.now.store.now) self.now.segment) a.0) (λ r. Unit {0}) }
        ensures shows { result ≡ head_of (at (sees (S.meaning self.now.store.now) self.now.segment) a.0) }
        ensures fits { result.count ≤ LENGTH_LIMIT }
    {
        self.store.head(self.segment, a)
    }

    /// The kind of a record, and its value at a place; Unset where it has none there. No look is noted.
    pub fn value_if_any(&self, a: Addr, i: usize) -> (Kind, Value)
        requires { IfThere false ((sees (S.meaning self.now.store.now) self.now.segment) a.0) (λ r. Unit {0}) }
        ensures kind { result.0 ≡ (at (sees (S.meaning self.now.store.now) self.now.segment) a.0).kind }
        ensures value { result.1 ≡ value_at (at (sees (S.meaning self.now.store.now) self.now.segment) a.0).values i }
    {
        self.store.find_val(self.segment, a, i)
    }

    /// Copies bytes of a record. No look is noted.
    pub fn bytes_of(&self, a: Addr, from: usize, out: &mut [u8])
        requires { IfThere false ((sees (S.meaning self.now.store.now) self.now.segment) a.0)
            (λ r. from + length out.old ≤ length r.bytes) }
        ensures { out.new ≡ take (length out.old)
            (drop from (at (sees (S.meaning self.now.store.now) self.now.segment) a.0).bytes) }
    {
        self.store.copy_bytes(self.segment, a, from, out);
    }

    /// The number of the pair of a dictionary with an equal key. No look is noted.
    pub fn place_of(&self, d: Addr, key: Value) -> Option<usize>
        requires { CanFind (sees (S.meaning self.now.store.now) self.now.segment) d.0 key }
        ensures found { result ≡ find (sees (S.meaning self.now.store.now) self.now.segment)
            (at (sees (S.meaning self.now.store.now) self.now.segment) d.0).values key }
        ensures fits { IfSome result (λ i. 2 * i + 1 < LENGTH_LIMIT) }
    {
        self.store.find_key(self.segment, d, key)
    }

    /// Looks at a record, which was seen or wasn't.
    pub fn see(&mut self, a: Addr, seen: bool) -> Result<(), Stop>
        requires live { self.old.last.stopped ≡ None }
        requires there { Has (sees (S.meaning self.old.store.now) self.old.segment) a.0 }
        requires seen { seen ≡ is_noted (sees (S.meaning self.old.store.now) self.old.segment a.0)
            (((S.meaning self.old.store.now).part self.old.segment).looked a.0) }
        ensures ok { OnOk result (SegDoes self.old.segment self.old.side (Read a.0)
            (hold_of S.meaning S.reserved self.old.store.now self.old.books.now self.old.progress.now self.old.last)
            (at (sees (S.meaning self.old.store.now) self.old.segment) a.0)
            (hold_of S.meaning S.reserved self.new.store.now self.new.books.now self.new.progress.now self.new.last)) }
        ensures same { OnOk result (sees (S.meaning self.new.store.now) self.new.segment ≡ sees
            (S.meaning self.old.store.now) self.old.segment) }
        ensures quiet { Seen a.0 self.old.segment
            (hold_of S.meaning S.reserved self.old.store.now self.old.books.now self.old.progress.now self.old.last)
            → self.new ≡ self.old }
        ensures word { IfErr result (λ e. e ≡ stop_of self.new.last.halt) }
        ensures err { OnErr result (SegRefuses self.old.segment self.old.side (Read a.0)
            (hold_of S.meaning S.reserved self.old.store.now self.old.books.now self.old.progress.now self.old.last)
            self.new.last.halt
            (hold_of S.meaning S.reserved self.new.store.now self.new.books.now self.new.progress.now self.new.last)) }
        ensures unsure { IfErr result (λ e. Seen a.0 self.old.segment
            (hold_of S.meaning S.reserved self.old.store.now self.old.books.now self.old.progress.now self.old.last)
            → ⊥) }
        ensures stays { (self.new.segment ≡ self.old.segment) × (self.new.side ≡ self.old.side)
            × (self.new.devices ≡ self.old.devices) }
        ensures refs { (self.new.store.ghost_name ≡ self.old.store.ghost_name)
            × (self.new.books.ghost_name ≡ self.old.books.ghost_name)
            × (self.new.progress.ghost_name ≡ self.old.progress.ghost_name) }
        ensures peaks { S.peaks self.new.store.now ≡ S.peaks self.old.store.now }
    {
        self.note(a);
        self.look(a, seen)
    }
}
