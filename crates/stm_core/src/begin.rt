//! How a transaction begins.
ghost use Rattle.std.specs.Prelude.{◌≡◌};

use crate::transactions::Core;
use lock_run::Client;
use py_data::{Items, NoMemory};
use seg_store::SegStore;
use stm_io::{Sink, Source};
use stm_segment::{Cause, Hand, Progress, Recent, Started, Work};
use thiserror::Error;

/// Why no transaction begins. The first of these that holds is told.
#[derive(Clone, Copy, Debug, Drop, Error, PartialEq, Eq)]
pub enum BeginError {
    /// The core goes on no more, for this cause.
    #[error("the core goes on no more")]
    Over(Cause),
    /// That segment, from 0, has a transaction in hand, or is doomed.
    #[error("segment {0} has something in hand")]
    Busy(u8),
    /// No thread has that number; or it has ended, a segment runs it, or it waits.
    #[error("thread {0} is not ready")]
    NotReady(u32),
    /// The history has as many steps as the budget, or 2^64 - 1 transactions were begun.
    #[error("the budget is used up")]
    AtBudget,
    /// There was no memory.
    #[error("out of memory")]
    OutOfMemory,
}

impl<'p, C: Client, S: SegStore, I: Source, O: Sink, E: Sink> Core<'p, C, S, I, O, E> {
    ghost use Rattle.std.specs.Prelude.{◌≡◌, ◌<◌, ◌≤◌, ◌-◌, ◌^◌, false, length, slice_get, Some, IfOk};
    ghost use Rattle.std.specs.List.{sum_by};
    ghost use Rattle.stm_core.specs.Moves.{begun_at};
    ghost use Rattle.stm_core.specs.Outside.{InCore};
    ghost use Rattle.stm_segment.specs.Books.{one_running, Worlds, core_of};
    ghost use Rattle.stm_core.specs.inner.Whole.{Whole, SameShape};
    ghost use Rattle.stm_core.specs.CoreHeld.{core_client, core_devices, core_limits, core_store, Leads, IsGoodCore, SameJob};
    ghost use Rattle.stm_core.specs.Begun.{Begun, IsFresh};

    /// A transaction of the thread, as it begins, and room for its turn and a conflict.
    fn make_work(&mut self, t: u32) -> Result<Work<C::State>, NoMemory>
        requires there { t < length self.old.books.threads.entries }
        requires few { length self.old.books.hands.items ≤ 8 }
        ensures rest { self.new ≡ record self.old {
          books = record self.old.books {
            history = self.new.books.history;
            conflicts = self.new.books.conflicts;
          };
        } }
        ensures turns { self.new.books.history.entries ≡ self.old.books.history.entries }
        ensures turns_kept { self.old.books.history.room ≤ self.new.books.history.room }
        ensures losses { self.new.books.conflicts.entries ≡ self.old.books.conflicts.entries }
        ensures losses_kept { self.old.books.conflicts.room ≤ self.new.books.conflicts.room }
        ensures turn_room { IfOk result
            (λ x. sum_by one_running self.old.books.hands.items < self.new.books.history.room) }
        ensures loss_room { IfOk result
            (λ x. sum_by one_running self.old.books.hands.items < self.new.books.conflicts.room) }
        ensures fresh { IfOk result (IsFresh t self.old.books) }
    {
        let state = self.client.copy(self.alloc, self.books.threads.at(t))?;
        let count = self.books.running() + 1;
        self.books.history.reserve(count)?;
        self.books.conflicts.reserve(count)?;
        Ok(Work {
            thread: t,
            begun: self.books.begun,
            steps: 0,
            solo: false,
            state,
            progress: Progress {
                names: Items::new(self.alloc),
                kept_names: 0,
                started: Started::new(self.alloc),
                kept_started: 0,
                recent: Recent::new(self.alloc, self.store.segments()),
            },
        })
    }

    /// Begins a transaction on segment k, which is idle. There is room for its turn and a conflict.
    fn start(&mut self, k: u8, work: Work<C::State>)
        requires whole { Whole (S.meaning self.old.store) self.old.books }
        requires idle { slice_get self.old.books.hands.items k ≡ Some Hand.Idle }
        requires fresh { IsFresh work.thread self.old.books work }
        requires few { self.old.books.begun < 2 ^ 64 - 1 }
        requires turn { sum_by one_running self.old.books.hands.items < self.old.books.history.room }
        requires loss { sum_by one_running self.old.books.hands.items < self.old.books.conflicts.room }
        ensures whole { Whole (S.meaning self.new.store) self.new.books }
        ensures rest { self.new ≡ record self.old { store = self.new.store; books = self.new.books } }
        ensures shape { SameShape (S.meaning self.old.store) (S.meaning self.new.store) }
        ensures reserved { S.reserved self.new.store ≡ S.reserved self.old.store }
        ensures peaks { S.peaks self.new.store ≡ S.peaks self.old.store }
        ensures broken { self.new.books.broken ≡ self.old.books.broken }
        ensures core { (w : Worlds) → core_of w (S.meaning self.new.store) self.new.books ≡ begun_at k work.thread
            work.state (core_of w (S.meaning self.old.store) self.old.books) }
    {
        self.store.known();
        self.store.begin(k);
        self.books.begun += 1;
        self.books.last = Some(work.thread);
        self.books.put(k, work);
    }

    /// Begins a transaction of thread `t` on segment `k`. It copies the thread's state, and makes room for a turn and a
    /// conflict. At want of memory the cause `OutOfMemory` is kept. At any other error all stays as it was.
    pub fn begin(&mut self, k: u8, t: u32) -> Result<(), BeginError>
        requires segment { k < (core_limits S.meaning self.old).segments }
        requires good { IsGoodCore I.state O.state E.state C.prog C.sound S.reserved S.meaning self.old }
        ensures good { IsGoodCore I.state O.state E.state C.prog C.sound S.reserved S.meaning self.new }
        ensures job { SameJob S.meaning self.old self.new }
        ensures begun { Leads I.state O.state E.state C.prog S.meaning self.old self.new
            (InCore (Begun (C.prog (core_client self.old)) k t (core_limits S.meaning self.old).budget result)) }
        ensures peaks { S.peaks (core_store self.new) ≡ S.peaks (core_store self.old) }
        ensures devices { core_devices I.state O.state E.state self.new
            ≡ core_devices I.state O.state E.state self.old }
    {
        self.store.known();
        if let Some(cause) = self.books.cause {
            return Err(BeginError::Over(cause));
        }
        if !self.books.is_idle(k) {
            return Err(BeginError::Busy(k));
        }
        if !self.is_ready(t) {
            return Err(BeginError::NotReady(t));
        }
        if self.is_spent() || self.books.begun == u64::MAX {
            return Err(BeginError::AtBudget);
        }
        match self.make_work(t) {
            Ok(work) => {
                self.start(k, work);
                self.store.known();
                Ok(())
            }
            Err(_) => {
                self.books.cause = Some(Cause::OutOfMemory);
                Err(BeginError::OutOfMemory)
            }
        }
    }
}
