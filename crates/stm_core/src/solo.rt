//! How a transaction becomes solo: from then on it prints and reads, and can't be aborted.
use crate::transactions::Core;
use lock_run::Client;
use py_data::Conflict;
use seg_store::SegStore;
use stm_io::{Sink, Source};
use stm_segment::{Cause, Hand, Work};
use thiserror::Error;

/// Why a transaction doesn't become solo. The first of these that holds is told.
#[derive(Clone, Copy, Debug, Drop, Error, PartialEq, Eq)]
pub enum SoloError {
    /// The core goes on no more, for this cause. Nothing changes.
    #[error("the core goes on no more")]
    Over(Cause),
    /// The transaction had lost this conflict. Its segment has nothing in hand then.
    #[error("the transaction lost a conflict")]
    Lost(Conflict),
    /// The transaction of that segment, from 0, is solo. Nothing changes.
    #[error("the transaction of segment {by} is solo")]
    Taken { by: u8 },
}

impl<'p, C: Client, S: SegStore, I: Source, O: Sink, E: Sink> Core<'p, C, S, I, O, E> {
    ghost use Rattle.std.specs.Prelude.{◌≡◌, ◌≤◌, ℕ, true, length, slice_get, slice_set, Some, OnOk, OnErr, IfErr};
    ghost use Rattle.stm_core.specs.Solo.{Soloed};
    ghost use Rattle.stm_segment.specs.Books.{Fit, NoneSolo, IsSoloAt};
    ghost use Rattle.stm_core.specs.inner.Whole.{Whole};
    ghost use Rattle.stm_core.specs.Events.{may_make};
    ghost use Rattle.stm_core.specs.declared.events.Event.{Event};
    ghost use Rattle.stm_core.specs.declared.solo.SoloError.TheVariants.{Taken};
    ghost use Rattle.stm_core.specs.CoreHeld.{core_client, core_devices, core_limits, core_store, Says, Leads, IsGoodCore, SameJob};

    /// The transaction of segment k, which was taken out of its hand, becomes solo, unless another one is, and is put
    /// back.
    fn solo_out(&mut self, k: u8, work: Work<C::State>) -> Result<(), SoloError>
        requires fit { Fit k (S.meaning self.old.store) self.old.books work.progress }
        requires idle { slice_get self.old.books.hands.items k ≡ Some Hand.Idle }
        requires few { length self.old.books.hands.items ≤ 8 }
        ensures rest { self.new ≡ record self.old { books = record self.old.books { hands = self.new.books.hands } } }
        ensures whole { Whole (S.meaning self.new.store) self.new.books }
        ensures ok { OnOk result (NoneSolo self.old.books.hands.items
            × (self.new.books.hands.items ≡ slice_set self.old.books.hands.items k
            (Hand.Runs (record work { solo = true })))) }
        ensures back { OnErr result (self.new.books.hands.items ≡ slice_set self.old.books.hands.items k
            (Hand.Runs work)) }
        ensures taken { IfErr result (λ e. (by : ℕ) × (e ≡ Taken by) × IsSoloAt self.old.books.hands.items (Some by)) }
    {
        match self.books.solo_segment() {
            Some(by) => {
                self.books.put(k, work);
                Err(SoloError::Taken { by })
            }
            None => {
                let mut work = work;
                work.solo = true;
                self.books.put(k, work);
                Ok(())
            }
        }
    }

    /// The transaction that segment `k` has in hand becomes solo. From then on its steps print and read, it wins each
    /// conflict, and its commit always goes. One transaction at most is solo. One that is solo stays so.
    pub fn solo(&mut self, k: u8) -> Result<(), SoloError>
        requires may { Says I.state O.state E.state C.prog S.meaning self.old
            (λ o. may_make (core_limits S.meaning self.old) o.core (Event.Solo k) ≡ true) }
        requires good { IsGoodCore I.state O.state E.state C.prog C.sound S.reserved S.meaning self.old }
        ensures good { IsGoodCore I.state O.state E.state C.prog C.sound S.reserved S.meaning self.new }
        ensures job { SameJob S.meaning self.old self.new }
        ensures soloed { Leads I.state O.state E.state C.prog S.meaning self.old self.new (Soloed k result) }
        ensures peaks { S.peaks (core_store self.new) ≡ S.peaks (core_store self.old) }
        ensures devices { core_devices I.state O.state E.state self.new
            ≡ core_devices I.state O.state E.state self.old }
    {
        self.store.known();
        if let Some(cause) = self.books.cause {
            return Err(SoloError::Over(cause));
        }
        match self.books.take(k) {
            Hand::Idle => unreachable!(),
            Hand::Doomed(f) => Err(SoloError::Lost(f)),
            Hand::Runs(work) => self.solo_out(k, work),
        }
    }
}
