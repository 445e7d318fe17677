//! How a core begins, and what it hands out at its end.
ghost use Rattle.std.specs.Prelude.{◌≡◌, length, IfOk};
ghost use Rattle.stm_segment.specs.Books.{AllIdle, IsFirst};

use crate::standing::RunState;
use crate::transactions::{BUDGET_LIMIT, Core, LENGTH_LIMIT};
use lock_run::{Client, History, Life};
use py_data::{Conflicts, Log, NoMemory};
use seg_store::SegStore;
use std::alloc::Global;
use std::snapshot::Snapshot;
use stm_io::{Sink, Source};
use stm_segment::{Books, Devices, Hand, Threads};

/// What a core hands out at its end.
#[derive(Drop)]
pub struct Finished<S, I, O, E> {
    /// How the run stands.
    pub state: RunState,
    /// Thread 0 ended by an exception.
    pub failed: bool,
    /// The committed turns, in the order of their commits.
    pub history: History,
    /// The conflicts that transactions lost.
    pub conflicts: Conflicts,
    pub store: S,
    pub input: I,
    pub out: O,
    pub err: E,
}

/// Empty hands for so many segments.
fn empty_hands<T: Drop>(alloc: Global, count: u8) -> Result<Vec<Hand<T>>, NoMemory>
    ensures length { IfOk result (λ v. length v.items ≡ count) }
    ensures idle { IfOk result (λ v. AllIdle v.items) }
{
    let mut hands = Vec::new(alloc);
    'hands: for _j in 0..count {
        hands.push(Hand::Idle)?;
    }
    Ok(hands)
}

/// The books of a core as it is made, for so many segments.
fn first_books<C: Client>(alloc: Global, client: &C, count: u8) -> Result<Books<C::State>, NoMemory>
    ensures { IfOk result (λ b. IsFirst (C.prog client.now) count b) }
{
    let first = client.first(alloc)?;
    let threads = Threads::new(alloc, first)?;
    let hands = empty_hands(alloc, count)?;
    Ok(Books {
        threads,
        pending: 0,
        hands,
        history: Log::new(alloc),
        conflicts: Log::new(alloc),
        begun: 0,
        last: None,
        cause: None,
        broken: None,
    })
}

impl<'p, C: Client, S: SegStore, I: Source, O: Sink, E: Sink> Core<'p, C, S, I, O, E> {
    ghost use Rattle.std.specs.Prelude.{◌≡◌, ◌≢◌, ℕ, ◌<◌, ◌≤◌, true, false, length, IfOk, IfErr};
    ghost use Rattle.lock_run.specs.Client.{IsSoundFirst};
    ghost use Rattle.seg_store.specs.Store.{IsEmpty};
    ghost use Rattle.stm_segment.specs.CoreState.{Idle, core_new, with_segment};
    ghost use Rattle.lock_run.specs.RunState.{first_world};
    ghost use Rattle.stm_core.specs.Outside.{Outer, outer_new};
    ghost use Rattle.stm_segment.specs.Devices.{device_state};
    ghost use Rattle.stm_segment.specs.Books.{Worlds, NoneSolo, core_of};
    ghost use Rattle.stm_core.specs.inner.Whole.{Whole, SameShape};
    ghost use Rattle.stm_core.specs.Standing.{IsOutcome};
    ghost use Rattle.stm_core.specs.Finishing.{idle_core, IsUnused, HasFailed, SettlesSolo, HandedOut};
    ghost use Rattle.stm_core.specs.CoreHeld.{core_client, core_devices, core_limits, core_store, first_devices, CoreStands, HasDevices, IsFullKept, IsGoodCore, Leads, SameJob, Says};

    /// A core over an empty store, whose only thread is the client's first, which may stand over no records. At want
    /// of memory the devices come back.
    ///
    /// `length` is the most steps of a transaction, from 1 to `LENGTH_LIMIT`; with `budget` steps in the history,
    /// from 1 to `BUDGET_LIMIT`, no transaction begins. What is told to the devices from now on is told of as a world
    /// whose outputs are empty and whose input is what the source tells now.
    pub fn new(
        alloc: Global,
        client: &'p C,
        store: S,
        length: u64,
        budget: u64,
        input: I,
        out: O,
        err: E,
    ) -> Result<Core<'p, C, S, I, O, E>, (NoMemory, I, O, E)>
        requires first { IsSoundFirst (C.prog client.now) (C.sound client.now) }
        requires store { IsEmpty (S.meaning store) (S.peaks store) }
        requires length { (1 ≤ length) × (length ≤ LENGTH_LIMIT) }
        requires budget { (1 ≤ budget) × (budget ≤ BUDGET_LIMIT) }
        ensures good { IfOk result (IsGoodCore I.state O.state E.state C.prog C.sound S.reserved S.meaning) }
        ensures client { IfOk result (λ x. core_client x ≡ client.now) }
        ensures limits { IfOk result (λ x. core_limits S.meaning x ≡ record {
          length = length;
          budget = budget;
          segments = (S.meaning store).segments;
          words = (S.meaning store).limit;
        }) }
        ensures devices { IfOk result (HasDevices input out err) }
        ensures state { IfOk result (λ x. CoreStands I.state O.state E.state C.prog S.meaning x
            (outer_new (core_new (C.prog client.now) (first_world (I.state input).told (I.state input).ends)))) }
        ensures peaks { IfOk result (λ x. S.peaks (core_store x) ≡ S.peaks store) }
        ensures back { IfErr result (λ e. (e.1 ≡ input) × (e.2 ≡ out) × (e.3 ≡ err)) }
    {
        store.known();
        match first_books(alloc, client, store.segments()) {
            Ok(books) => {
                let devices = Devices {
                    input,
                    out,
                    err,
                    mid: false,
                    was_mid: false,
                };
                let made_with = Snapshot::of(&devices);
                Ok(Core {
                    alloc,
                    client,
                    store,
                    books,
                    spent: 0,
                    length,
                    budget,
                    devices,
                    made_with,
                })
            }
            Err(failed) => Err((failed, input, out, err)),
        }
    }

    /// Commits the transaction that is solo, if there is one.
    fn settle_solo(&mut self)
        requires good { IsGoodCore I.state O.state E.state C.prog C.sound S.reserved S.meaning self.old }
        ensures good { IsGoodCore I.state O.state E.state C.prog C.sound S.reserved S.meaning self.new }
        ensures job { SameJob S.meaning self.old self.new }
        ensures settles { Leads I.state O.state E.state C.prog S.meaning self.old self.new
            (SettlesSolo (C.prog (core_client self.old)) (core_limits S.meaning self.old).segments) }
        ensures peaks { S.peaks (core_store self.new) ≡ S.peaks (core_store self.old) }
        ensures none { NoneSolo self.new.books.hands.items }
    {
        self.store.known();
        match self.books.solo_segment() {
            Some(k) => {
                let _ = self.commit(k);
            }
            None => (),
        }
    }

    /// Drops what segment k has in hand.
    fn drop_slot(&mut self, k: u8)
        requires segment { k < (S.meaning self.old.store).segments }
        requires whole { Whole (S.meaning self.old.store) self.old.books }
        ensures whole { Whole (S.meaning self.new.store) self.new.books }
        ensures rest { self.new ≡ record self.old { store = self.new.store; books = self.new.books } }
        ensures broken { self.new.books.broken ≡ self.old.books.broken }
        ensures cause { self.new.books.cause ≡ self.old.books.cause }
        ensures shape { SameShape (S.meaning self.old.store) (S.meaning self.new.store) }
        ensures reserved { S.reserved self.new.store ≡ S.reserved self.old.store }
        ensures peaks { S.peaks self.new.store ≡ S.peaks self.old.store }
        ensures core { (w : Worlds) → core_of w (S.meaning self.new.store) self.new.books ≡ with_segment k Idle
            (core_of w (S.meaning self.old.store) self.old.books) }
    {
        match self.books.take(k) {
            Hand::Runs(work) => self.drop_out(k, work),
            Hand::Doomed(_) => (),
            Hand::Idle => (),
        }
    }

    /// Drops what all segments have in hand.
    fn drop_all(&mut self)
        requires whole { Whole (S.meaning self.old.store) self.old.books }
        ensures whole { Whole (S.meaning self.new.store) self.new.books }
        ensures rest { self.new ≡ record self.old { store = self.new.store; books = self.new.books } }
        ensures broken { self.new.books.broken ≡ self.old.books.broken }
        ensures cause { self.new.books.cause ≡ self.old.books.cause }
        ensures shape { SameShape (S.meaning self.old.store) (S.meaning self.new.store) }
        ensures reserved { S.reserved self.new.store ≡ S.reserved self.old.store }
        ensures peaks { S.peaks self.new.store ≡ S.peaks self.old.store }
        ensures unused { (j : ℕ) → IsUnused ((S.meaning self.new.store).part j) }
        ensures core { (w : Worlds) → core_of w (S.meaning self.new.store) self.new.books ≡ idle_core
            (core_of w (S.meaning self.old.store) self.old.books) }
    {
        let count = self.store.segments();
        'slots: for k in 0..count {
            self.drop_slot(k);
        }
    }

    /// Drops what runs, where no transaction is solo.
    fn come_to_rest(&mut self)
        requires good { IsGoodCore I.state O.state E.state C.prog C.sound S.reserved S.meaning self.old }
        requires none { NoneSolo self.old.books.hands.items }
        ensures good { IsGoodCore I.state O.state E.state C.prog C.sound S.reserved S.meaning self.new }
        ensures job { SameJob S.meaning self.old self.new }
        ensures peaks { S.peaks (core_store self.new) ≡ S.peaks (core_store self.old) }
        ensures unused { (j : ℕ) → IsUnused ((S.meaning self.new.store).part j) }
        ensures idle { Leads I.state O.state E.state C.prog S.meaning self.old self.new
            (λ o o1. o1 ≡ record o { core = idle_core o.core }) }
    {
        self.drop_all();
        self.store.known();
    }

    /// Whether thread 0 ended by an exception.
    fn has_failed(&self) -> bool
        ensures yes { result ≡ true → (w : Worlds)
            → HasFailed (C.prog self.now.client.now) (core_of w (S.meaning self.now.store) self.now.books) }
        ensures not { result ≡ false → (w : Worlds)
            → HasFailed (C.prog self.now.client.now) (core_of w (S.meaning self.now.store) self.now.books) → ⊥ }
    {
        if self.books.threads.len() == 0 {
            return false;
        }
        match self.client.life(self.books.threads.at(0)) {
            Life::Failed => true,
            _ => false,
        }
    }

    /// Commits the transaction that is solo, drops what else runs, and hands out the rest. The image of the store is
    /// the committed one, and no segment has changes in it.
    pub fn finish(mut self) -> Finished<S, I, O, E>
        requires good { IsGoodCore I.state O.state E.state C.prog C.sound S.reserved S.meaning self }
        ensures finished { (o : Outer C.State) → CoreStands I.state O.state E.state C.prog S.meaning self.entry o
            → (o1 : Outer C.State)
            × HandedOut (C.prog (core_client self.entry)) (core_limits S.meaning self.entry).length
            (core_limits S.meaning self.entry).budget (core_limits S.meaning self.entry).segments
            (first_devices I.state O.state E.state self.entry)
            (device_state I.state O.state E.state
            (record { input = result.input; out = result.out; err = result.err; mid = false; was_mid = false }))
            result.state result.failed result.history.entries result.conflicts.entries (S.meaning result.store).image o
            o1
            × IsFullKept (S.reserved result.store) (S.meaning result.store).limit o1.core.cause }
        ensures over { (o : Outer C.State) (s : RunState) →
            CoreStands I.state O.state E.state C.prog S.meaning self.entry o
            → IsOutcome (C.prog (core_client self.entry)) (core_limits S.meaning self.entry).budget o.core s
            → s ≢ RunState.Running → result.state ≢ RunState.Running }
        ensures shape { ((S.meaning result.store).segments ≡ (core_limits S.meaning self.entry).segments)
            × ((S.meaning result.store).limit ≡ (core_limits S.meaning self.entry).words) }
        ensures peaks { S.peaks result.store ≡ S.peaks (core_store self.entry) }
        ensures unused { (j : ℕ) → IsUnused ((S.meaning result.store).part j) }
    {
        self.settle_solo();
        self.come_to_rest();
        let state = self.outcome();
        let failed = self.has_failed();
        let Core {
            store,
            books,
            devices,
            ..
        } = self;
        let Books {
            history,
            conflicts,
            ..
        } = books;
        let Devices {
            input,
            out,
            err,
            ..
        } = devices;
        Finished {
            state,
            failed,
            history,
            conflicts,
            store,
            input,
            out,
            err,
        }
    }
}
