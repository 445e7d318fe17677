//! The transactional core, as its callers have it.
use crate::events::{
    Event, Reply, advance_reply, begin_reply, commit_reply, is_busy, loan_reply, may_go_on,
    piece_reply, solo_reply, split,
};
use lock_run::{Client, History};
use py_data::{Conflicts, NoMemory};
use seg_store::SegStore;
use std::alloc::Global;
use std::snapshot::Snapshot;
use stm_io::{Sink, Source};
use stm_pieces::run_piece;
use stm_segment::{Books, Devices};

/// The greatest length.
pub const LENGTH_LIMIT: u64 = 1_000_000;

/// The greatest budget.
pub const BUDGET_LIMIT: u64 = 1_000_000_000_000_000;

/// Several transactions of a client's threads on the segments of a store, each of which is aborted or becomes a turn
/// of the history.
///
/// A segment's number is below the store's count of segments. A call that doesn't say otherwise takes no memory.
/// Contracts speak of the states for which a core stands (`Outer`): its transactions and history, and what its
/// devices were told.
#[derive(Drop)]
pub struct Core<'p, C: Client, S, I, O, E> {
    pub(crate) alloc: Global,
    pub(crate) client: &'p C,
    pub(crate) store: S,
    pub(crate) books: Books<C::State>,
    /// How many steps the turns of the history have, all together; where they have more than there are numbers, the
    /// last number.
    pub(crate) spent: u64,
    /// The most steps of a transaction.
    pub(crate) length: u64,
    /// With so many steps in the history no transaction begins.
    pub(crate) budget: u64,
    pub(crate) devices: Devices<I, O, E>,
    /// The devices as they were when the core was made.
    pub(crate) made_with: Snapshot<Devices<I, O, E>>,
}

impl<'p, C: Client, S: SegStore, I: Source, O: Sink, E: Sink> Core<'p, C, S, I, O, E> {
    ghost use Rattle.std.specs.Prelude.{◌≡◌, true, IfOk, OnErr};
    ghost use Rattle.stm_core.specs.CoreHeld.{core_client, core_devices, core_limits, core_store, Says, Leads, IsGoodCore, SameJob};
    ghost use Rattle.stm_core.specs.declared.events.Event.{Event};
    ghost use Rattle.stm_core.specs.Events.{may_make, Made, EventMade, EventsMade};
    ghost use Rattle.stm_core.specs.History.{AllLeave, IsGrown};
    ghost use Rattle.stm_segment.specs.Devices.{CountsGrow};

    /// The length that it was made with: the most steps of a transaction.
    pub fn length(&self) -> u64
        ensures { result ≡ (core_limits S.meaning self.now).length }
    {
        self.length
    }

    /// The store: what it means is the core's image, and what each segment sees.
    pub fn store(&self) -> &S
        ensures { core_store self.now ≡ result.now }
    {
        &self.store
    }

    /// The committed turns, in the order of their commits.
    pub fn history(&self) -> &History
        ensures { Says I.state O.state E.state C.prog S.meaning self.now (λ o. o.core.history ≡ result.now.entries) }
    {
        &self.books.history
    }

    /// The conflicts that transactions lost, each once, in the order in which they did.
    pub fn conflicts(&self) -> &Conflicts
        ensures { Says I.state O.state E.state C.prog S.meaning self.now (λ o. o.core.conflicts ≡ result.now.entries) }
    {
        &self.books.conflicts
    }

    /// The condition of an event holds.
    fn can_make(&self, event: Event) -> bool
        requires good { IsGoodCore I.state O.state E.state C.prog C.sound S.reserved S.meaning self.now }
        ensures { Says I.state O.state E.state C.prog S.meaning self.now
            (λ o. result ≡ may_make (core_limits S.meaning self.now) o.core event) }
    {
        match event {
            Event::Begin(k, _) => k < self.store.segments(),
            Event::Advance(k, most) => {
                k < self.store.segments() && may_go_on(self.slot(k), most, most, self.length)
            }
            Event::Solo(k) | Event::Commit(k) => {
                k < self.store.segments() && is_busy(self.slot(k))
            }
            Event::Piece(k, most) => {
                k < self.store.segments() && may_go_on(self.slot(k), most, 1, self.length)
            }
        }
    }

    /// Makes a piece: a loan is lowered to at most so many steps and run, and what it leaves is installed at once.
    fn make_piece(&mut self, k: u8, most: u64) -> Reply
        requires good { IsGoodCore I.state O.state E.state C.prog C.sound S.reserved S.meaning self.old }
        requires may { Says I.state O.state E.state C.prog S.meaning self.old
            (λ o. may_make (core_limits S.meaning self.old) o.core (Event.Piece k most) ≡ true) }
        ensures good { IsGoodCore I.state O.state E.state C.prog C.sound S.reserved S.meaning self.new }
        ensures job { SameJob S.meaning self.old self.new }
        ensures made { Leads I.state O.state E.state C.prog S.meaning self.old self.new
            (Made (C.prog (core_client self.old)) (core_limits S.meaning self.old) (Event.Piece k most) result) }
        ensures counts { CountsGrow (core_devices I.state O.state E.state self.old)
            (core_devices I.state O.state E.state self.new) }
    {
        if !self.may_loan(k) {
            return Reply::Skipped;
        }
        match self.loan(k) {
            Ok(loan) => {
                let piece = run_piece(self.alloc, self.client, loan.at_most(most));
                if !self.fits(k, &piece) {
                    return Reply::Unfit;
                }
                piece_reply(self.install(k, piece))
            }
            Err(reason) => loan_reply(reason),
        }
    }

    /// Makes an event, if its condition holds.
    fn make(&mut self, event: Event) -> Reply
        requires good { IsGoodCore I.state O.state E.state C.prog C.sound S.reserved S.meaning self.old }
        ensures good { IsGoodCore I.state O.state E.state C.prog C.sound S.reserved S.meaning self.new }
        ensures job { SameJob S.meaning self.old self.new }
        ensures made { Leads I.state O.state E.state C.prog S.meaning self.old self.new
            (EventMade (C.prog (core_client self.old)) (core_limits S.meaning self.old) event result) }
        ensures counts { CountsGrow (core_devices I.state O.state E.state self.old)
            (core_devices I.state O.state E.state self.new) }
    {
        if !self.can_make(event) {
            return Reply::Skipped;
        }
        match event {
            Event::Begin(k, t) => begin_reply(self.begin(k, t)),
            Event::Advance(k, most) => advance_reply(self.advance(k, most)),
            Event::Solo(k) => solo_reply(self.solo(k)),
            Event::Commit(k) => commit_reply(self.commit(k)),
            Event::Piece(k, most) => self.make_piece(k, most),
        }
    }

    /// Makes the events of a list, one after another, and gives the reply of each. An event whose condition doesn't
    /// hold is skipped. Room for all replies is made first; where there is no memory for it, no event is made.
    pub fn run_events(&mut self, list: &[Event]) -> Result<Vec<Reply>, NoMemory>
        requires good { IsGoodCore I.state O.state E.state C.prog C.sound S.reserved S.meaning self.old }
        ensures good { IsGoodCore I.state O.state E.state C.prog C.sound S.reserved S.meaning self.new }
        ensures job { SameJob S.meaning self.old self.new }
        ensures made { IfOk result (λ replies. Leads I.state O.state E.state C.prog S.meaning self.old self.new (λ o o1.
            EventsMade (C.prog (core_client self.old)) (core_limits S.meaning self.old) list.now replies.items o o1
            × AllLeave (C.prog (core_client self.old)) (core_limits S.meaning self.old) list.now replies.items o.core
            o1.core
            × IsGrown replies.items o.core o1.core)) }
        ensures none { OnErr result (self.new ≡ self.old) }
        ensures counts { CountsGrow (core_devices I.state O.state E.state self.old)
            (core_devices I.state O.state E.state self.new) }
    {
        let mut replies = Vec::new(self.alloc);
        replies.reserve(list.len())?;
        let mut rest = list;
        'events: while let Some((event, more)) = split(rest) {
            let reply = self.make(*event);
            match replies.push(reply) {
                Ok(()) => (),
                Err(_) => unreachable!(),
            }
            rest = more;
        }
        Ok(replies)
    }
}
