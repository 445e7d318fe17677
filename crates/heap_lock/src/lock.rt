// A lock and its calls.
ghost use Rattle.std.specs.Prelude.{◌≡◌, ◌++◌, ◌∷◌, [], None, Some, ◌+◌, ◌<◌, ◌≤◌, true, false, All, length, IfOk, IfErr, IfSome, IfNone};
ghost use Rattle.heap_lock.specs.Views.{LockView};
ghost use Rattle.heap_lock.specs.Parts.{all_parts, HasAllParts, highest_part, lower_parts, merged};

use crate::job::Job;
use crate::rule::{Give, LockRule, Parts, Take};
use crate::seat::Seat;
use crate::view::{Key, View};
use atomic_table::{Refused, Table};
use std::alloc::{AllocError, Global};
use std::marker::Model;
use std::snapshot::Snapshot;
use std::sync::Wait;

/// Want of memory, the one error of this crate.
pub type NoMemory = AllocError;

/// A lock round one value of type `T`, which threads share by reference. Whenever no seat holds the
/// value, the lock has a good value of the job that it was made with, which has grown from each that
/// a seat has seen.
///
/// A lock can't be dropped. `close` ends it.
pub struct HeapLock<T: Job> {
    table: Table<Option<T>, View<T, T::Description>, Key<T>, LockRule<T>, Global>,
}

impl<T: Job> Model for HeapLock<T> {
    ghost Value = { LockView };

    ghost view = { λ s. record { id = s.table.shared.table_id; parts = s.table.shared.key.parts } };

    ghost invariant = { λ s. (s.table.shared.table_id.words ≡ 1) × (s.table.shared.table_id.slots ≡ 1) };
}

impl<T: Job> HeapLock<T> {
    /// Makes a lock round the value, with its first seat, which has all the parts, holds nothing and
    /// has seen the value.
    ///
    /// `parts` is a count, from 1 to 255: at most so many seats can there be at once. The parts themselves are the
    /// numbers 0 to `parts - 1`.
    ///
    /// At want of memory, the only error, the value comes back. No other call takes memory.
    pub fn new(alloc: Global, value: T, parts: u8) -> Result<(HeapLock<T>, Seat<T>), (NoMemory, T)>
        requires good { T.good value }
        requires parts { 1 ≤ parts }
        ensures lock { IfOk result (λ r. r.0.parts ≡ parts) }
        ensures seat { IfOk result (λ r. r.1 ≡ record {
          lock = r.0.id;
          parts = all_parts parts;
          holds = false;
          job = Some (T.job value);
          seen = value ∷ [];
          taken = None;
        }) }
        ensures count { IfOk result (λ r. length r.1.parts ≡ parts) }
        ensures all { IfOk result (λ r. HasAllParts r.0.parts r.1.parts) }
        ensures back { IfErr result (λ r. r.1 ≡ value) }
    {
        let mut slots = match Vec::with_capacity(alloc, 1) {
            Ok(slots) => slots,
            Err(failed) => return Err((failed, value)),
        };
        let key = Key {
            parts,
            opening: Snapshot::of(&value),
        };
        slots.push_reserved(Some(value));
        let made = Table::new(alloc, &[0], slots, &key);
        let Key {
            parts: _,
            opening: _,
        } = key;
        match made {
            Ok((table, inner)) => Ok((HeapLock { table }, Seat { inner })),
            Err(Refused { mut slots }) => {
                let Some(Some(value)) = slots.pop() else {
                    unreachable!()
                };
                slots.destroy_empty();
                Err((AllocError, value))
            }
        }
    }

    // Takes the value out if the lock is free.
    fn try_take(&self, seat: &mut Seat<T>) -> Option<T>
        requires lock { seat.old.lock ≡ self.now.id }
        requires free { seat.old.holds ≡ false }
        ensures seat { IfSome result (λ x. seat.new ≡ record seat.old { holds = true; taken = Some x }) }
        ensures good { IfSome result (λ x. T.good x) }
        ensures job { IfSome result (λ x. seat.old.job ≡ Some (T.job x)) }
        ensures later { IfSome result (λ x. All (λ y. T.grows y x) seat.old.seen) }
        ensures none { IfNone result (seat.new ≡ seat.old) }
    {
        let shared = &self.table.shared;
        let found = shared.compare_exchange::<Take<T>>(&mut seat.inner, 0, 0, 1);
        if found != 0 {
            return None;
        }
        shared.exchange(&mut seat.inner, 0, None)
    }

    /// Takes the value out of the lock, for the seat to hold until it gives a value back.
    ///
    /// It tries until it finds the lock free, and lets other threads run in between. In any schedule
    /// the value is good and of the seat's job, and has grown from each that the seat has seen: from
    /// the one that it gave last or, before it gave one, from the one that the lock was made with.
    /// What others gave since isn't told. That the call returns is not claimed, and neither is any order among threads
    /// that wait. It takes no memory.
    pub fn take<Rt: Wait>(&self, rt: &Rt, seat: &mut Seat<T>) -> T
        requires lock { seat.old.lock ≡ self.now.id }
        requires free { seat.old.holds ≡ false }
        ensures seat { seat.new ≡ record seat.old { holds = true; taken = Some result } }
        ensures good { T.good result }
        ensures job { seat.old.job ≡ Some (T.job result) }
        ensures later { All (λ y. T.grows y result) seat.old.seen }
    {
        for _ in rt.forever() {
            if let Some(value) = self.try_take(seat) {
                return value;
            }
            std::thread::yield_now();
        }
        unreachable!()
    }

    /// Puts a value back, which need not be the one that was taken but has grown from it, and frees
    /// the lock. Of all values the seat has then seen this one alone, from which each that it takes
    /// later has grown. It neither waits nor takes memory.
    pub fn give(&self, seat: &mut Seat<T>, value: T)
        requires lock { seat.old.lock ≡ self.now.id }
        requires holds { seat.old.holds ≡ true }
        requires good { T.good value }
        requires job { seat.old.job ≡ Some (T.job value) }
        requires grown { IfSome seat.old.taken (λ x. T.grows x value) }
        ensures seat { seat.new ≡ record seat.old { holds = false; seen = value ∷ []; taken = None } }
    {
        let shared = &self.table.shared;
        let before = shared.exchange(&mut seat.inner, 0, Some(value));
        let None = before else { unreachable!() };
        shared.store::<Give>(&mut seat.inner, 0, 0);
    }

    /// Makes a new seat, for another thread. It takes over the highest part of the seat, has the same
    /// job, has seen the same values and holds nothing. Each seat keeps at least one part. It neither
    /// waits nor takes memory.
    pub fn split(&self, seat: &mut Seat<T>) -> Seat<T>
        requires lock { seat.old.lock ≡ self.now.id }
        requires free { seat.old.holds ≡ false }
        requires parts { 2 ≤ length seat.old.parts }
        ensures seat { seat.new ≡ record seat.old { parts = lower_parts seat.old.parts } }
        ensures new { result ≡ record seat.old { parts = highest_part seat.old.parts } }
        ensures count { length seat.new.parts + 1 ≡ length seat.old.parts }
        // No part that stays is above the one that goes.
        ensures highest { All (λ part. All (λ other. other ≤ part) seat.new.parts) result.parts }
        // Joined again, the two have the parts that the one had.
        ensures again { merged result.parts seat.new.parts ≡ seat.old.parts }
    {
        let inner = self.table.shared.split_seat::<Parts>(&mut seat.inner);
        Seat { inner }
    }

    /// Ends the other seat. The seat then has the parts of both, with the highest first, and has seen
    /// what either has. It neither waits nor takes memory.
    pub fn join(&self, seat: &mut Seat<T>, other: Seat<T>)
        requires lock { (seat.old.lock ≡ self.now.id) × (other.lock ≡ self.now.id) }
        requires free { (seat.old.holds ≡ false) × (other.holds ≡ false) }
        ensures seat { seat.new ≡ record seat.old {
          parts = merged other.parts seat.old.parts;
          seen = seat.old.seen ++ other.seen;
        } }
        ensures count { length seat.new.parts ≡ length seat.old.parts + length other.parts }
    {
        self.table
            .shared
            .join_seat::<Parts>(&mut seat.inner, other.into_inner());
    }

    // Ends the table, and gives what its slot has.
    fn into_slot(self, seat: Seat<T>) -> Option<T>
        requires lock { seat.lock ≡ self.id }
        requires free { seat.holds ≡ false }
        requires all { HasAllParts self.parts seat.parts }
        ensures { (x : T) × (result ≡ Some x) × T.good x × (seat.job ≡ Some (T.job x)) ×
            All (λ y. T.grows y x) seat.seen }
    {
        let HeapLock { table } = self;
        let mut closed = table.close_with(seat.into_inner());
        let value = closed.take(0);
        closed.free();
        value
    }

    /// Ends the lock and the seat, and gives the value for good. It neither waits nor takes memory.
    ///
    /// A seat with all the parts is the only one, so where it holds nothing the lock is free. As for
    /// `take`, the value has grown from each that the seat has seen.
    pub fn close(self, seat: Seat<T>) -> T
        requires lock { seat.lock ≡ self.id }
        requires free { seat.holds ≡ false }
        requires all { HasAllParts self.parts seat.parts }
        ensures good { T.good result }
        ensures job { seat.job ≡ Some (T.job result) }
        ensures later { All (λ y. T.grows y result) seat.seen }
    {
        self.into_slot(seat).unwrap()
    }
}
