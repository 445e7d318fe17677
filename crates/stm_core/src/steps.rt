//! The steps of a transaction that was taken out of its hand, and where it goes then.
ghost use Rattle.std.specs.Prelude.{◌≡◌, ◌<◌, ◌≤◌, ◌+◌, ℕ, List, Option, IfOk, OnErr, true, false, slice_get, Some};
ghost use Rattle.py_data.specs.World.{World};
ghost use Rattle.lock_run.specs.Client.{Standing, LifeAfter};
ghost use Rattle.lock_run.specs.declared.client.Life.TheVariants.{Lives};
ghost use Rattle.seg_store.specs.Meaning.{sees};
ghost use Rattle.seg_store.specs.Store.{IsStore};
ghost use Rattle.stm_segment.specs.CoreState.{CoreState, IsShort};
ghost use Rattle.stm_segment.specs.Conflict.{side};
ghost use Rattle.stm_segment.specs.Books.{Fit, Worlds, transaction};
ghost use Rattle.stm_segment.specs.Devices.{device_state, ShowsWorld, Shown, IsLeftAlone, CountsGrow, StopRose};
ghost use Rattle.stm_segment.specs.InUse.{IfTold};
ghost use Rattle.stm_core.specs.Advance.{Tried};
ghost use Rattle.stm_core.specs.inner.Whole.{SameShape, StepDone, StepCut, StepBroke};
ghost use Rattle.stm_core.specs.inner.Trying.{SaneShown, core_with, work_of};
ghost use Rattle.stm_core.specs.inner.Rising.{RisesInStep, RisesOut};
ghost use Rattle.stm_core.specs.inner.Pauses.{pause_of, done_by, PauseCount};
ghost use Rattle.stm_core.specs.inner.Pausing.{DevicesGrow, Paused, SaneAfter};

use crate::answers::AdvanceError;
use crate::transactions::Core;
use lock_run::{Client, Outcome};
use py_data::{Conflict, Stop};
use seg_store::SegStore;
use std::alloc::Global;
use stm_io::{Sink, Source};
use stm_segment::{Cause, Cut, Halt, Hand, SegView, Work};

/// Why steps of a transaction come to an end.
#[derive(Clone, Copy, Debug, Drop)]
pub enum Pause {
    /// All of them were done.
    Whole,
    /// The next one waits.
    Waits,
    /// The last one was the thread's last.
    Ended,
    /// The next one was cut, and taken back.
    Stopped(Halt),
}

/// How one step went.
#[derive(Clone, Copy, Debug, Drop)]
pub enum Went {
    /// It was done.
    Whole,
    /// It waits.
    Waits,
    /// It was done, and was the thread's last.
    Ended,
    /// It was cut, and taken back.
    Cut,
}

/// One step of the transaction of the view's segment, which was taken out of its hand. A solo one prints and reads;
/// what a step of it told the devices stays told where the step is cut. `halt` tells then why it was cut.
fn step_out<C: Client, S: SegStore, I: Source, O: Sink, E: Sink>(
    client: &C,
    alloc: Global,
    view: &mut SegView<'_, C::State, S, I, O, E>,
    state: &mut C::State,
    halt: &mut Halt,
) -> Result<Outcome, Stop>
    requires side { view.old.side.segment ≡ view.old.segment }
    requires stands { Standing (C.sound client.now (sees (S.meaning view.old.store.now) view.old.segment)) state.old }
    requires lives { (C.prog client.now).life state.old ≡ Lives }
    ensures fit { Fit view.old.segment (S.meaning view.new.store.now) view.new.books.now view.new.progress.now }
    ensures store { IsStore (S.reserved view.new.store.now) (S.meaning view.new.store.now) }
    ensures stays { (view.new.segment ≡ view.old.segment) × (view.new.side ≡ view.old.side) }
    ensures refs { (view.new.store.ghost_name ≡ view.old.store.ghost_name)
        × (view.new.books.ghost_name ≡ view.old.books.ghost_name)
        × (view.new.progress.ghost_name ≡ view.old.progress.ghost_name)
        × (view.new.devices.ghost_name ≡ view.old.devices.ghost_name) }
    ensures reserved { S.reserved view.old.store.now ≤ S.reserved view.new.store.now }
    ensures peaks { (n : ℕ) (t e : Option (List ℕ)) (w : Worlds)
        → Shown view.old.side.solo t e (device_state I.state O.state E.state view.old.devices.now) w.own
        → IfTold (S.peaks view.old.store.now) (S.peaks view.new.store.now)
        (RisesInStep (C.prog client.now) w view.old.segment (S.meaning view.old.store.now) view.old.books.now
        (work_of view.old.side n state.old view.old.progress.now)) }
    ensures image { (S.meaning view.new.store.now).image ≡ (S.meaning view.old.store.now).image }
    ensures shape { SameShape (S.meaning view.old.store.now) (S.meaning view.new.store.now) }
    ensures hand { slice_get view.old.books.now.hands.items view.old.segment ≡ Some Hand.Idle
        → slice_get view.new.books.now.hands.items view.old.segment ≡ Some Hand.Idle }
    ensures broken { view.new.books.now.broken ≡ view.old.books.now.broken }
    ensures counts { CountsGrow (device_state I.state O.state E.state view.old.devices.now)
        (device_state I.state O.state E.state view.new.devices.now) }
    ensures alone { view.old.side.solo ≡ false
        → IsLeftAlone (device_state I.state O.state E.state view.old.devices.now)
        (device_state I.state O.state E.state view.new.devices.now) }
    ensures flag { OnErr result (view.new.devices.now.mid ≡ view.old.devices.now.mid) }
    ensures life { IfOk result (λ o. LifeAfter o ((C.prog client.now).life state.new)) }
    ensures state { OnErr result (state.new ≡ state.old) }
    ensures rose { OnErr result (StopRose halt.new (device_state I.state O.state E.state view.old.devices.now)
        (device_state I.state O.state E.state view.new.devices.now)) }
    ensures done { IfOk result (λ o. (n : ℕ) (t e : Option (List ℕ)) (w : Worlds)
        → Shown view.old.side.solo t e (device_state I.state O.state E.state view.old.devices.now) w.own
        → (own : World)
        × Shown view.old.side.solo t e (device_state I.state O.state E.state view.new.devices.now) own
        × StepDone (C.prog client.now) w own view.old.segment
        (side view.old.segment (transaction w.own ((S.meaning view.old.store.now).part view.old.segment)
        (work_of view.old.side n state.old view.old.progress.now))) o (S.meaning view.old.store.now)
        view.old.books.now (work_of view.old.side n state.old view.old.progress.now)
        (S.meaning view.new.store.now) view.new.books.now
        (work_of view.old.side n state.new view.new.progress.now)) }
    ensures cut { OnErr result ((n : ℕ) (t e : Option (List ℕ)) (w : Worlds)
        → Shown view.old.side.solo t e (device_state I.state O.state E.state view.old.devices.now) w.own
        → StepCut (C.prog client.now) w view.old.segment
        (side view.old.segment (transaction w.own ((S.meaning view.old.store.now).part view.old.segment)
        (work_of view.old.side n state.old view.old.progress.now))) halt.new (S.meaning view.old.store.now)
        view.old.books.now (work_of view.old.side n state.old view.old.progress.now)
        (S.meaning view.new.store.now) (S.reserved view.new.store.now) view.new.books.now
        (work_of view.old.side n state.new view.new.progress.now)) }
    ensures broke { OnErr result (view.old.side.solo ≡ true → (n : ℕ) (t e : Option (List ℕ)) (w : Worlds)
        → ShowsWorld t e (device_state I.state O.state E.state view.old.devices.now) w.own
        → StepBroke (C.prog client.now) t e (S.meaning view.old.store.now).image w.committed
        (transaction w.own ((S.meaning view.old.store.now).part view.old.segment)
        (work_of view.old.side n state.old view.old.progress.now)) halt.new
        (device_state I.state O.state E.state view.new.devices.now)) }
{
    let answer = client.step(alloc, state, view);
    view.last.tell(answer, halt);
    view.store.known();
    answer
}

/// One step more of the transaction of the view's segment, which was taken out of its hand and has done fewer steps
/// than the length. A step whose row asks nothing makes no call of the view. Why a step was cut is written down in
/// `halt`, so that one that is done makes no large value.
fn step_on<C: Client, S: SegStore, I: Source, O: Sink, E: Sink>(
    client: &C,
    alloc: Global,
    view: &mut SegView<'_, C::State, S, I, O, E>,
    state: &mut C::State,
    steps: &mut u64,
    length: u64,
    halt: &mut Halt,
) -> Went
    requires side { view.old.side.segment ≡ view.old.segment }
    requires idle { slice_get view.old.books.now.hands.items view.old.segment ≡ Some Hand.Idle }
    requires sane { SaneShown (C.prog client.now) (C.sound client.now) length view.old.segment
        (device_state I.state O.state E.state view.old.devices.now) (S.meaning view.old.store.now)
        view.old.books.now (work_of view.old.side steps.old state.old view.old.progress.now) }
    requires lives { (C.prog client.now).life state.old ≡ Lives }
    requires short { IsShort length (steps.old + 1) }
    ensures fit { Fit view.old.segment (S.meaning view.new.store.now) view.new.books.now view.new.progress.now }
    ensures store { IsStore (S.reserved view.new.store.now) (S.meaning view.new.store.now) }
    ensures idle { slice_get view.new.books.now.hands.items view.old.segment ≡ Some Hand.Idle }
    ensures stays { (view.new.segment ≡ view.old.segment) × (view.new.side ≡ view.old.side) }
    ensures refs { (view.new.store.ghost_name ≡ view.old.store.ghost_name)
        × (view.new.books.ghost_name ≡ view.old.books.ghost_name)
        × (view.new.progress.ghost_name ≡ view.old.progress.ghost_name)
        × (view.new.devices.ghost_name ≡ view.old.devices.ghost_name) }
    ensures sane { SaneAfter (C.prog client.now) (C.sound client.now) length view.old.segment
        (pause_of result halt.new) (device_state I.state O.state E.state view.new.devices.now)
        (S.meaning view.new.store.now) view.new.books.now
        (work_of view.old.side steps.new state.new view.new.progress.now) }
    ensures paused { (t e : Option (List ℕ)) (w : Worlds) (n : ℕ) (c : CoreState C.State)
        → Shown view.old.side.solo t e (device_state I.state O.state E.state view.old.devices.now) w.own
        → Tried (C.prog client.now) length view.old.segment true n c
        (core_with w view.old.segment (S.meaning view.old.store.now) view.old.books.now
        (work_of view.old.side steps.old state.old view.old.progress.now))
        → Paused (C.prog client.now) length view.old.segment t e w c (n + done_by (pause_of result halt.new))
        (pause_of result halt.new) (S.meaning view.new.store.now) (S.reserved view.new.store.now)
        view.new.books.now (work_of view.old.side steps.new state.new view.new.progress.now)
        (device_state I.state O.state E.state view.new.devices.now) }
    ensures steps { steps.new ≡ steps.old + done_by (pause_of result halt.new) }
    ensures shape { SameShape (S.meaning view.old.store.now) (S.meaning view.new.store.now) }
    ensures reserved { S.reserved view.old.store.now ≤ S.reserved view.new.store.now }
    ensures peaks { (t e : Option (List ℕ)) (w : Worlds)
        → Shown view.old.side.solo t e (device_state I.state O.state E.state view.old.devices.now) w.own
        → IfTold (S.peaks view.old.store.now) (S.peaks view.new.store.now)
        (RisesOut (C.prog client.now) length view.old.segment (S.meaning view.old.store.now)
        (core_with w view.old.segment (S.meaning view.old.store.now) view.old.books.now
        (work_of view.old.side steps.old state.old view.old.progress.now))) }
    ensures broken { view.new.books.now.broken ≡ view.old.books.now.broken }
    ensures devices { DevicesGrow view.old.side.solo (pause_of result halt.new)
        (device_state I.state O.state E.state view.old.devices.now)
        (device_state I.state O.state E.state view.new.devices.now) }
{
    if client.step_pure(state) {
        view.store.known();
        *steps += 1;
        return Went::Whole;
    }
    match step_out(client, alloc, view, state, halt) {
        Ok(Outcome::Waits) => Went::Waits,
        Ok(Outcome::Done) => {
            *steps += 1;
            Went::Whole
        }
        Ok(Outcome::Ended) => {
            *steps += 1;
            Went::Ended
        }
        Err(_) => Went::Cut,
    }
}

/// At most so many steps of the transaction of the view's segment, which was taken out of its hand: how many were done,
/// and why they came to an end.
fn steps_over<C: Client, S: SegStore, I: Source, O: Sink, E: Sink>(
    client: &C,
    alloc: Global,
    view: &mut SegView<'_, C::State, S, I, O, E>,
    state: &mut C::State,
    steps: &mut u64,
    length: u64,
    most: u64,
) -> (u64, Pause)
    requires side { view.old.side.segment ≡ view.old.segment }
    requires store { IsStore (S.reserved view.old.store.now) (S.meaning view.old.store.now) }
    requires idle { slice_get view.old.books.now.hands.items view.old.segment ≡ Some Hand.Idle }
    requires sane { SaneShown (C.prog client.now) (C.sound client.now) length view.old.segment
        (device_state I.state O.state E.state view.old.devices.now) (S.meaning view.old.store.now)
        view.old.books.now (work_of view.old.side steps.old state.old view.old.progress.now) }
    requires lives { (C.prog client.now).life state.old ≡ Lives }
    requires short { IsShort length (steps.old + most) }
    ensures fit { Fit view.old.segment (S.meaning view.new.store.now) view.new.books.now view.new.progress.now }
    ensures store { IsStore (S.reserved view.new.store.now) (S.meaning view.new.store.now) }
    ensures idle { slice_get view.new.books.now.hands.items view.old.segment ≡ Some Hand.Idle }
    ensures refs { (view.new.store.ghost_name ≡ view.old.store.ghost_name)
        × (view.new.books.ghost_name ≡ view.old.books.ghost_name)
        × (view.new.progress.ghost_name ≡ view.old.progress.ghost_name)
        × (view.new.devices.ghost_name ≡ view.old.devices.ghost_name) }
    ensures sane { SaneAfter (C.prog client.now) (C.sound client.now) length view.old.segment result.1
        (device_state I.state O.state E.state view.new.devices.now) (S.meaning view.new.store.now)
        view.new.books.now (work_of view.old.side steps.new state.new view.new.progress.now) }
    ensures paused { (t e : Option (List ℕ)) (w : Worlds) (c : CoreState C.State)
        → Shown view.old.side.solo t e (device_state I.state O.state E.state view.old.devices.now) w.own
        → c ≡ core_with w view.old.segment (S.meaning view.old.store.now) view.old.books.now
        (work_of view.old.side steps.old state.old view.old.progress.now)
        → Paused (C.prog client.now) length view.old.segment t e w c result.0 result.1
        (S.meaning view.new.store.now) (S.reserved view.new.store.now) view.new.books.now
        (work_of view.old.side steps.new state.new view.new.progress.now)
        (device_state I.state O.state E.state view.new.devices.now) }
    ensures steps { steps.new ≡ steps.old + result.0 }
    ensures count { PauseCount most result.0 result.1 }
    ensures shape { SameShape (S.meaning view.old.store.now) (S.meaning view.new.store.now) }
    ensures reserved { S.reserved view.old.store.now ≤ S.reserved view.new.store.now }
    ensures peaks { (t e : Option (List ℕ)) (w : Worlds)
        → Shown view.old.side.solo t e (device_state I.state O.state E.state view.old.devices.now) w.own
        → IfTold (S.peaks view.old.store.now) (S.peaks view.new.store.now)
        (RisesOut (C.prog client.now) length view.old.segment (S.meaning view.old.store.now)
        (core_with w view.old.segment (S.meaning view.old.store.now) view.old.books.now
        (work_of view.old.side steps.old state.old view.old.progress.now))) }
    ensures broken { view.new.books.now.broken ≡ view.old.books.now.broken }
    ensures devices { DevicesGrow view.old.side.solo result.1
        (device_state I.state O.state E.state view.old.devices.now)
        (device_state I.state O.state E.state view.new.devices.now) }
{
    let mut halt = Halt::OutOfMemory;
    'turns: for done in 0..most {
        match step_on(client, alloc, view, state, steps, length, &mut halt) {
            Went::Whole => (),
            Went::Waits => return (done, Pause::Waits),
            Went::Ended => return (done + 1, Pause::Ended),
            Went::Cut => return (done, Pause::Stopped(halt)),
        }
    }
    (most, Pause::Whole)
}

impl<'p, C: Client, S: SegStore, I: Source, O: Sink, E: Sink> Core<'p, C, S, I, O, E> {
    ghost use Rattle.std.specs.Prelude.{◌-◌, length};
    ghost use Rattle.stm_segment.specs.CoreState.{with_conflict, with_segment, Running};
    ghost use Rattle.stm_segment.specs.Books.{core_of};
    ghost use Rattle.stm_core.specs.inner.Whole.{Whole};
    ghost use Rattle.stm_core.specs.inner.Ending.{HasEnded, MayEnd, StepsLeave};
    ghost use Rattle.stm_core.specs.Advanced.{with_cause};
    ghost use Rattle.stm_segment.specs.CoreState.{first_cause};
    ghost use Rattle.stm_core.specs.Solo.{up_to_whole};
    ghost use Rattle.seg_store.specs.Calls.{after_drop};

    /// At most so many steps of the transaction of segment k, which was taken out of its hand: how many were done,
    /// and why they came to an end.
    pub fn run_out(
        &mut self,
        k: u8,
        work: &mut Work<C::State>,
        length: u64,
        most: u64,
    ) -> (u64, Pause)
        requires fit { Fit k (S.meaning self.old.store) self.old.books work.old.progress }
        requires store { IsStore (S.reserved self.old.store) (S.meaning self.old.store) }
        requires idle { slice_get self.old.books.hands.items k ≡ Some Hand.Idle }
        requires sane { SaneShown (C.prog self.old.client.now) (C.sound self.old.client.now) length k
            (device_state I.state O.state E.state self.old.devices) (S.meaning self.old.store) self.old.books
            work.old }
        requires lives { (C.prog self.old.client.now).life work.old.state ≡ Lives }
        requires short { IsShort length (work.old.steps + most) }
        ensures fit { Fit k (S.meaning self.new.store) self.new.books work.new.progress }
        ensures store { IsStore (S.reserved self.new.store) (S.meaning self.new.store) }
        ensures idle { slice_get self.new.books.hands.items k ≡ Some Hand.Idle }
        ensures rest { StepsLeave self.old self.new }
        ensures sane { SaneAfter (C.prog self.old.client.now) (C.sound self.old.client.now) length k result.1
            (device_state I.state O.state E.state self.new.devices) (S.meaning self.new.store) self.new.books
            work.new }
        ensures paused { (t e : Option (List ℕ)) (w : Worlds) (c : CoreState C.State)
            → Shown work.old.solo t e (device_state I.state O.state E.state self.old.devices) w.own
            → c ≡ core_with w k (S.meaning self.old.store) self.old.books work.old
            → Paused (C.prog self.old.client.now) length k t e w c result.0 result.1 (S.meaning self.new.store)
            (S.reserved self.new.store) self.new.books work.new
            (device_state I.state O.state E.state self.new.devices) }
        ensures steps { work.new.steps ≡ work.old.steps + result.0 }
        ensures solo { work.new.solo ≡ work.old.solo }
        ensures count { PauseCount most result.0 result.1 }
        ensures shape { SameShape (S.meaning self.old.store) (S.meaning self.new.store) }
        ensures reserved { S.reserved self.old.store ≤ S.reserved self.new.store }
        ensures peaks { (t e : Option (List ℕ)) (w : Worlds)
            → Shown work.old.solo t e (device_state I.state O.state E.state self.old.devices) w.own
            → IfTold (S.peaks self.old.store) (S.peaks self.new.store)
            (RisesOut (C.prog self.old.client.now) length k (S.meaning self.old.store)
            (core_with w k (S.meaning self.old.store) self.old.books work.old)) }
        ensures broken { self.new.books.broken ≡ self.old.books.broken }
        ensures devices { DevicesGrow work.old.solo result.1 (device_state I.state O.state E.state self.old.devices)
            (device_state I.state O.state E.state self.new.devices) }
    {
        let side = work.side(k);
        let mut view = SegView::new(
            &mut self.store,
            &mut self.books,
            &mut work.progress,
            &mut self.devices,
            k,
            side,
        );
        steps_over(
            self.client,
            self.alloc,
            &mut view,
            &mut work.state,
            &mut work.steps,
            length,
            most,
        )
    }

    /// Drops the transaction of segment k, which was taken out of its hand.
    pub fn drop_out(&mut self, k: u8, work: Work<C::State>)
        requires fit { Fit k (S.meaning self.old.store) self.old.books work.progress }
        requires idle { slice_get self.old.books.hands.items k ≡ Some Hand.Idle }
        ensures rest { self.new ≡ record self.old { store = self.new.store; books = self.new.books } }
        ensures whole { Whole (S.meaning self.new.store) self.new.books }
        ensures core { (world : Worlds) → core_of world (S.meaning self.new.store) self.new.books ≡ core_of world
            (S.meaning self.old.store) self.old.books }
        ensures room { self.new.books ≡ record self.old.books { pending = self.new.books.pending } }
        ensures store { S.meaning self.new.store ≡ after_drop k (S.meaning self.old.store) }
        ensures reserved { S.reserved self.new.store ≡ S.reserved self.old.store }
        ensures peaks { S.peaks self.new.store ≡ S.peaks self.old.store }
    {
        self.books.forget(work.progress.started.len());
        self.store.drop_changes(k);
    }

    /// The transaction of segment k, which was taken out of its hand, lost a conflict to another.
    pub fn lose_out(&mut self, k: u8, work: Work<C::State>, f: Conflict)
        requires fit { Fit k (S.meaning self.old.store) self.old.books work.progress }
        requires idle { slice_get self.old.books.hands.items k ≡ Some Hand.Idle }
        ensures rest { self.new ≡ record self.old { store = self.new.store; books = self.new.books } }
        ensures whole { Whole (S.meaning self.new.store) self.new.books }
        ensures broken { self.new.books.broken ≡ self.old.books.broken }
        ensures cause { self.new.books.cause ≡ self.old.books.cause }
        ensures core { (world : Worlds) → core_of world (S.meaning self.new.store) self.new.books ≡ with_conflict f
            (core_of world (S.meaning self.old.store) self.old.books) }
        ensures store { S.meaning self.new.store ≡ after_drop k (S.meaning self.old.store) }
        ensures reserved { S.reserved self.new.store ≡ S.reserved self.old.store }
        ensures peaks { S.peaks self.new.store ≡ S.peaks self.old.store }
    {
        self.drop_out(k, work);
        self.books.note(f);
    }

    /// The solo transaction of segment k, which was taken out of its hand, is committed up to its last whole step,
    /// and dropped where it has done none.
    fn commit_whole(&mut self, k: u8, work: Work<C::State>)
        requires out { MayEnd S.meaning k work self.old }
        ensures ended { HasEnded S.meaning S.reserved S.peaks self.old self.new }
        ensures core { (w : Worlds) → (w1 : Worlds)
            × (core_of w1 (S.meaning self.new.store) self.new.books ≡ up_to_whole k
            (S.meaning self.old.store).segments (transaction w.own ((S.meaning self.old.store).part k) work)
            work.steps (core_with w k (S.meaning self.old.store) self.old.books work)) }
    {
        if work.steps == 0 {
            self.drop_out(k, work);
        } else {
            self.doom_readers(k, &work);
            self.publish(k, work);
        }
    }

    /// The next step of the solo transaction of segment k, which was taken out of its hand, was cut for good, for
    /// this cause, which is kept.
    fn break_off(&mut self, k: u8, work: Work<C::State>, cause: Cause)
        requires out { MayEnd S.meaning k work self.old }
        ensures ended { HasEnded S.meaning S.reserved S.peaks self.old self.new }
        ensures broken { self.new.books.broken ≡ Some
            (record { thread = work.thread; turns = length self.new.books.history.entries }) }
        ensures cause { self.new.books.cause ≡ first_cause self.old.books.cause cause }
        ensures core { (w : Worlds) → (w1 : Worlds)
            × (core_of w1 (S.meaning self.new.store) self.new.books ≡ with_cause cause
            (up_to_whole k (S.meaning self.old.store).segments
            (transaction w.own ((S.meaning self.old.store).part k) work) work.steps
            (core_with w k (S.meaning self.old.store) self.old.books work))) }
    {
        let thread = work.thread;
        self.commit_whole(k, work);
        let turns = self.books.history.len() as u64;
        self.books.broken = Some(Cut { thread, turns });
        self.books.keep(cause);
    }

    /// The transaction of segment k, which was taken out of its hand, is dropped for this cause, which is kept.
    fn give_up(&mut self, k: u8, work: Work<C::State>, cause: Cause)
        requires fit { Fit k (S.meaning self.old.store) self.old.books work.progress }
        requires idle { slice_get self.old.books.hands.items k ≡ Some Hand.Idle }
        ensures rest { self.new ≡ record self.old { store = self.new.store; books = self.new.books } }
        ensures whole { Whole (S.meaning self.new.store) self.new.books }
        ensures broken { self.new.books.broken ≡ self.old.books.broken }
        ensures core { (world : Worlds) → core_of world (S.meaning self.new.store) self.new.books ≡ with_cause cause
            (core_of world (S.meaning self.old.store) self.old.books) }
        ensures store { S.meaning self.new.store ≡ after_drop k (S.meaning self.old.store) }
        ensures reserved { S.reserved self.new.store ≡ S.reserved self.old.store }
        ensures peaks { S.peaks self.new.store ≡ S.peaks self.old.store }
    {
        self.drop_out(k, work);
        self.books.keep(cause);
    }

    /// A step of the transaction of segment k, which was taken out of its hand, was cut for this cause, which is
    /// kept: a solo one is committed up to its last whole step, and another one is dropped.
    pub fn fail_out(&mut self, k: u8, work: Work<C::State>, cause: Cause) -> AdvanceError
        requires out { MayEnd S.meaning k work self.old }
        ensures same { result ≡ AdvanceError.Failed cause }
        ensures ended { HasEnded S.meaning S.reserved S.peaks self.old self.new }
        ensures cause { self.new.books.cause ≡ first_cause self.old.books.cause cause }
        ensures mortal { work.solo ≡ false → (self.new.books.broken ≡ self.old.books.broken)
            × ((w : Worlds) → core_of w (S.meaning self.new.store) self.new.books ≡ with_cause cause
            (core_of w (S.meaning self.old.store) self.old.books)) }
        ensures solo { work.solo ≡ true
            → (self.new.books.broken ≡ Some
            (record { thread = work.thread; turns = length self.new.books.history.entries }))
            × ((w : Worlds) → (w1 : Worlds)
            × (core_of w1 (S.meaning self.new.store) self.new.books ≡ with_cause cause
            (up_to_whole k (S.meaning self.old.store).segments
            (transaction w.own ((S.meaning self.old.store).part k) work) work.steps
            (core_with w k (S.meaning self.old.store) self.old.books work)))) }
    {
        if work.solo {
            self.break_off(k, work, cause);
        } else {
            self.give_up(k, work, cause);
        }
        AdvanceError::Failed(cause)
    }

    /// Puts the transaction of segment k back into its hand.
    pub fn put_back(&mut self, k: u8, work: Work<C::State>)
        requires fit { Fit k (S.meaning self.old.store) self.old.books work.progress }
        requires idle { slice_get self.old.books.hands.items k ≡ Some Hand.Idle }
        ensures rest { self.new ≡ record self.old { books = self.new.books } }
        ensures whole { Whole (S.meaning self.new.store) self.new.books }
        ensures broken { self.new.books.broken ≡ self.old.books.broken }
        ensures core { (world : Worlds) → core_of world (S.meaning self.new.store) self.new.books ≡ with_segment k
            (Running (transaction world.own ((S.meaning self.old.store).part k) work))
            (core_of world (S.meaning self.old.store) self.old.books) }
    {
        self.books.put(k, work);
    }
}
