//! How a transaction goes on: at most so many steps of it, and what comes of them.
use crate::answers::{Advance, AdvanceError};
use crate::steps::Pause;
use crate::transactions::Core;
use lock_run::{Client, Life};
use seg_store::SegStore;
use stm_io::{Sink, Source};
use stm_segment::{Cause, Halt, Hand, Work};

impl<'p, C: Client, S: SegStore, I: Source, O: Sink, E: Sink> Core<'p, C, S, I, O, E> {
    ghost use Rattle.std.specs.Prelude.{◌≡◌, ◌<◌, ◌≤◌, ◌+◌, ◌/◌, ℕ, true, false, length, slice_get, Some, List, Option};
    ghost use Rattle.lock_run.specs.declared.client.Life.TheVariants.{Lives};
    ghost use Rattle.stm_segment.specs.CoreState.{IsShort, Running};
    ghost use Rattle.stm_core.specs.Outside.{Outer};
    ghost use Rattle.stm_segment.specs.Devices.{DeviceState, StopRose, device_state};
    ghost use Rattle.stm_segment.specs.Books.{Fit, Worlds, transaction};
    ghost use Rattle.stm_core.specs.inner.Ending.{HasEnded, MayEnd};
    ghost use Rattle.stm_core.specs.inner.Going.{MayGoOn, GoneOn};
    ghost use Rattle.stm_segment.specs.InUse.{IfTold};
    ghost use Rattle.stm_core.specs.PeakRises.{RisesWithin};
    ghost use Rattle.stm_core.specs.Begun.{CountsSteps};
    ghost use Rattle.stm_core.specs.Events.{may_make};
    ghost use Rattle.stm_core.specs.declared.events.Event.{Event};
    ghost use Rattle.stm_core.specs.Counted.{FaultRose, HasCounted};
    ghost use Rattle.stm_core.specs.CoreHeld.{core_client, core_devices, core_limits, core_store, Says, Leads, IsGoodCore, SameJob};
    ghost use Rattle.stm_core.specs.inner.Pauses.{tried_by, PauseCount};
    ghost use Rattle.stm_core.specs.inner.Pausing.{PauseWhy, PauseRose};
    ghost use Rattle.stm_core.specs.Advanced.{CountsDone, tried_after, Ends, StepsTaken, AdvancedFrom, Advanced};
    ghost use Rattle.stm_core.specs.inner.Settled.{IsOut, IsTakenOut, SettledTo, KeepsOrRose};

    /// What comes of a transaction of segment k, which was taken out of its hand, once its next step was cut.
    fn settle_stop(
        &mut self,
        k: u8,
        work: Work<C::State>,
        done: u64,
        halt: Halt,
    ) -> Result<Advance, AdvanceError>
        requires out { MayEnd S.meaning k work self.old }
        requires why { (w : Worlds) × PauseWhy (C.prog self.old.client.now) w k (Pause.Stopped halt)
            (S.meaning self.old.store) (S.reserved self.old.store) self.old.books work }
        ensures ended { HasEnded S.meaning S.reserved S.peaks self.old self.new }
        ensures counted { (most : ℕ) → done < most → CountsDone most done result }
        ensures tried { tried_after result ≡ 1 }
        ensures rose { (d d1 : DeviceState) → PauseRose (Pause.Stopped halt) d d1
            → KeepsOrRose self.old.books.cause self.new.books.cause d d1 }
        ensures fault { (d d1 : DeviceState) → StopRose halt d d1 → FaultRose result d d1 }
        ensures settled { (t e : Option (List ℕ)) (w : Worlds) (o : Outer C.State)
            → IsOut (C.prog self.old.client.now) t e (device_state I.state O.state E.state self.old.devices) w k
            (Pause.Stopped halt) (S.meaning self.old.store) (S.reserved self.old.store) self.old.books work o
            → SettledTo t e (device_state I.state O.state E.state self.new.devices) (S.meaning self.new.store)
            self.new.books
            (Ends (C.prog self.old.client.now) k (S.meaning self.old.store).segments (S.reserved self.new.store)
            (S.meaning self.new.store).limit o (transaction w.own ((S.meaning self.old.store).part k) work)
            result) }
    {
        match halt {
            Halt::NeedSolo => {
                self.put_back(k, work);
                Ok(Advance::NeedSolo(done))
            }
            Halt::Lost(f) => {
                self.lose_out(k, work, f);
                Err(AdvanceError::Lost(f))
            }
            Halt::Full {
                reserved,
                need,
                limit,
            } => Err(self.fail_out(
                k,
                work,
                Cause::Full {
                    reserved,
                    need,
                    limit,
                },
            )),
            Halt::ReadFault => Err(self.fail_out(k, work, Cause::ReadFault)),
            Halt::WriteFault => Err(self.fail_out(k, work, Cause::WriteFault)),
            Halt::ErrFault => Err(self.fail_out(k, work, Cause::ErrFault)),
            Halt::OutOfMemory => Err(self.fail_out(k, work, Cause::OutOfMemory)),
        }
    }

    /// What comes of a transaction of segment k, which was taken out of its hand, once its steps came to an end.
    fn settle(
        &mut self,
        k: u8,
        work: Work<C::State>,
        done: u64,
        pause: Pause,
    ) -> Result<Advance, AdvanceError>
        requires out { MayEnd S.meaning k work self.old }
        requires why { (w : Worlds) × PauseWhy (C.prog self.old.client.now) w k pause (S.meaning self.old.store)
            (S.reserved self.old.store) self.old.books work }
        ensures ended { HasEnded S.meaning S.reserved S.peaks self.old self.new }
        ensures counted { (most : ℕ) → PauseCount most done pause → CountsDone most done result }
        ensures tried { tried_after result ≡ tried_by pause }
        ensures rose { (d d1 : DeviceState) → PauseRose pause d d1
            → KeepsOrRose self.old.books.cause self.new.books.cause d d1 }
        ensures fault { (d d1 : DeviceState) → PauseRose pause d d1 → FaultRose result d d1 }
        ensures settled { (t e : Option (List ℕ)) (w : Worlds) (o : Outer C.State)
            → IsOut (C.prog self.old.client.now) t e (device_state I.state O.state E.state self.old.devices) w k pause
            (S.meaning self.old.store) (S.reserved self.old.store) self.old.books work o
            → SettledTo t e (device_state I.state O.state E.state self.new.devices) (S.meaning self.new.store)
            self.new.books
            (Ends (C.prog self.old.client.now) k (S.meaning self.old.store).segments (S.reserved self.new.store)
            (S.meaning self.new.store).limit o (transaction w.own ((S.meaning self.old.store).part k) work)
            result) }
    {
        match pause {
            Pause::Whole => {
                self.put_back(k, work);
                Ok(Advance::Ran(done))
            }
            Pause::Waits => {
                self.put_back(k, work);
                Ok(Advance::Waits(done))
            }
            Pause::Ended => {
                self.put_back(k, work);
                Ok(Advance::Ended(done))
            }
            Pause::Stopped(halt) => self.settle_stop(k, work, done, halt),
        }
    }

    /// At most so many steps of the transaction of segment k, which was taken out of its hand and whose thread lives,
    /// and what comes of them.
    fn take_steps(
        &mut self,
        k: u8,
        work: Work<C::State>,
        most: u64,
        length: u64,
    ) -> Result<Advance, AdvanceError>
        requires out { MayGoOn I.state O.state E.state C.prog S.meaning S.reserved C.sound length k work self.old }
        requires lives { (C.prog self.old.client.now).life work.state ≡ Lives }
        requires short { IsShort length (work.steps + most) }
        ensures gone { GoneOn I.state O.state E.state C.prog S.meaning S.reserved S.peaks length k work result self.old
            self.new }
        ensures taken { (t e : Option (List ℕ)) (w : Worlds) (o : Outer C.State)
            → IsTakenOut t e (device_state I.state O.state E.state self.old.devices) w k (S.meaning self.old.store)
            self.old.books work o
            → SettledTo t e (device_state I.state O.state E.state self.new.devices) (S.meaning self.new.store)
            self.new.books
            (StepsTaken (C.prog self.old.client.now) length k (S.meaning self.old.store).segments most
            (S.reserved self.new.store) (S.meaning self.new.store).limit o result) }
    {
        let mut going = work;
        let (done, pause) = self.run_out(k, &mut going, length, most);
        self.settle(k, going, done, pause)
    }

    /// The transaction of segment k, which was taken out of its hand, goes on, unless its thread has ended in it.
    fn advance_out(
        &mut self,
        k: u8,
        work: Work<C::State>,
        most: u64,
        length: u64,
    ) -> Result<Advance, AdvanceError>
        requires out { MayGoOn I.state O.state E.state C.prog S.meaning S.reserved C.sound length k work self.old }
        requires short { IsShort length (work.steps + most) }
        ensures gone { GoneOn I.state O.state E.state C.prog S.meaning S.reserved S.peaks length k work result self.old
            self.new }
        ensures advanced { (t e : Option (List ℕ)) (w : Worlds) (o : Outer C.State)
            → IsTakenOut t e (device_state I.state O.state E.state self.old.devices) w k (S.meaning self.old.store)
            self.old.books work o
            → SettledTo t e (device_state I.state O.state E.state self.new.devices) (S.meaning self.new.store)
            self.new.books
            (AdvancedFrom (Running (transaction w.own ((S.meaning self.old.store).part k) work))
            (C.prog self.old.client.now) length k (S.meaning self.old.store).segments most
            (S.reserved self.new.store) (S.meaning self.new.store).limit o result) }
    {
        match self.client.life(&work.state) {
            Life::Lives => self.take_steps(k, work, most, length),
            _ => {
                self.put_back(k, work);
                Ok(Advance::Ended(0))
            }
        }
    }

    /// At most `most` steps of the transaction that segment `k` has in hand, which is told if it is doomed. It copies
    /// no state; its steps take memory as they need. Where a step of a solo transaction is cut, by a fault of a
    /// device, a full heap or want of memory, the transaction is committed up to its last whole step, and what the
    /// step has told the devices stays.
    pub fn advance(&mut self, k: u8, most: u64) -> Result<Advance, AdvanceError>
        requires may { Says I.state O.state E.state C.prog S.meaning self.old
            (λ o. may_make (core_limits S.meaning self.old) o.core (Event.Advance k most) ≡ true) }
        requires good { IsGoodCore I.state O.state E.state C.prog C.sound S.reserved S.meaning self.old }
        ensures good { IsGoodCore I.state O.state E.state C.prog C.sound S.reserved S.meaning self.new }
        ensures job { SameJob S.meaning self.old self.new }
        ensures advanced { Leads I.state O.state E.state C.prog S.meaning self.old self.new
            (λ o o1. Advanced (C.prog (core_client self.old)) (core_limits S.meaning self.old).length k
            (core_limits S.meaning self.old).segments most (S.reserved self.new.store)
            (core_limits S.meaning self.old).words o result o1) }
        ensures counted { HasCounted result (core_devices I.state O.state E.state self.old)
            (core_devices I.state O.state E.state self.new) }
        ensures peaks { Says I.state O.state E.state C.prog S.meaning self.old
            (λ o. IfTold (S.peaks (core_store self.old)) (S.peaks (core_store self.new))
            (RisesWithin (C.prog (core_client self.old)) (core_limits S.meaning self.old).length
            ((core_limits S.meaning self.old).words / 2) (core_limits S.meaning self.old).segments k o.core)) }
    {
        self.store.known();
        match self.books.take(k) {
            Hand::Idle => unreachable!(),
            Hand::Doomed(f) => Err(AdvanceError::Lost(f)),
            Hand::Runs(work) => {
                let result = self.advance_out(k, work, most, self.length);
                self.store.known();
                result
            }
        }
    }
}
