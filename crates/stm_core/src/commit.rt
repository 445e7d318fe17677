//! How a transaction is committed, in two passes over the others.
ghost use Rattle.std.specs.Prelude.{◌≡◌, ◌<◌};
ghost use Rattle.stm_core.specs.Passes.{met};
ghost use Rattle.stm_core.specs.inner.Readers.{place_of};

use crate::transactions::Core;
use lock_run::Client;
use py_data::{Addr, Conflict, Side};
use seg_store::SegStore;
use stm_io::{Sink, Source};
use stm_segment::{Hand, Work, wins};

/// What a commit answers where no conflict was lost.
#[derive(Clone, Copy, Debug, Drop, PartialEq, Eq)]
pub enum Commit {
    /// The transaction is the turn of that number in the history, from 0.
    Committed(u64),
    /// It had run no step, and was dropped.
    Nothing,
}

/// The first record that segment k has locked, in the order of the locks, and that segment j has looked at.
fn first_read<S: SegStore>(store: &S, k: u8, j: u8) -> Option<Addr>
    requires writer { k < (S.meaning store.now).segments }
    requires reader { j < (S.meaning store.now).segments }
    ensures { met ((S.meaning store.now).part k).changed ((S.meaning store.now).part j).looked ≡ place_of result }
{
    let count = store.changed_len(k);
    for i in 0..count {
        let a = store.changed_at(k, i);
        if store.has_looked(j, a) {
            return Some(a);
        }
    }
    None
}

impl<'p, C: Client, S: SegStore, I: Source, O: Sink, E: Sink> Core<'p, C, S, I, O, E> {
    ghost use Rattle.std.specs.Prelude.{◌≡◌, ◌≢◌, ℕ, ◌<◌, ◌≤◌, true, false, [], length, slice_get, Some, cond, eqb};
    ghost use Rattle.std.specs.List.{range_with_len};
    ghost use Rattle.stm_segment.specs.declared.books.Work.{Work};
    ghost use Rattle.stm_segment.specs.declared.books.Hand.TheVariants.{Idle, Runs};
    ghost use Rattle.stm_core.specs.Moves.{published};
    ghost use Rattle.stm_core.specs.Passes.{doom_one, doom_readers};
    ghost use Rattle.stm_core.specs.Outside.{InCore};
    ghost use Rattle.stm_segment.specs.Books.{Fit, Worlds, worlds_after, transaction, core_of};
    ghost use Rattle.stm_core.specs.inner.Ending.{HasEnded, MayEnd};
    ghost use Rattle.stm_core.specs.inner.Whole.{Whole, SameShape};
    ghost use Rattle.stm_core.specs.inner.Trying.{core_with};
    ghost use Rattle.stm_core.specs.Events.{may_make};
    ghost use Rattle.stm_core.specs.declared.events.Event.{Event};
    ghost use Rattle.stm_core.specs.CoreHeld.{core_client, core_devices, core_limits, core_store, Says, Leads, IsGoodCore, SameJob};
    ghost use Rattle.stm_core.specs.Begun.{CountsSteps};
    ghost use Rattle.stm_core.specs.inner.Readers.{place_of, read_at, Beats, FirstBeats};
    ghost use Rattle.stm_core.specs.Committed.{CommitEnds, Committed};

    /// The first record that segment k has locked and that the transaction of segment j, another one, has looked at.
    fn read_by(&self, k: u8, j: u8) -> Option<Addr>
        requires writer { k < (S.meaning self.now.store).segments }
        requires reader { j < (S.meaning self.now.store).segments }
        requires hands { length self.now.books.hands.items ≡ (S.meaning self.now.store).segments }
        ensures { read_at self.now.books.hands.items (S.meaning self.now.store) k j ≡ place_of result }
    {
        if j != k && self.books.runs(j) {
            first_read(&self.store, k, j)
        } else {
            None
        }
    }

    /// The conflict by which the writer `me` of segment k loses to the transaction of segment j, if that is a reader
    /// that wins.
    fn beaten_by(&self, k: u8, me: Side, j: u8) -> Option<Conflict>
        requires writer { k < (S.meaning self.now.store).segments }
        requires reader { j < (S.meaning self.now.store).segments }
        requires hands { length self.now.books.hands.items ≡ (S.meaning self.now.store).segments }
        ensures { Beats self.now.books.hands.items (S.meaning self.now.store) k me j result }
    {
        match self.read_by(k, j) {
            None => None,
            Some(at) => {
                let other = self.books.side(j);
                if wins(other, me) {
                    Some(Conflict {
                        at,
                        writer: me,
                        other,
                        asks: false,
                        lost: 0,
                    })
                } else {
                    None
                }
            }
        }
    }

    /// The first pass of a commit: the first segment whose transaction is a reader that wins.
    fn beaten(&self, k: u8, me: Side) -> Option<Conflict>
        requires writer { k < (S.meaning self.now.store).segments }
        requires hands { length self.now.books.hands.items ≡ (S.meaning self.now.store).segments }
        ensures { FirstBeats self.now.books.hands.items (S.meaning self.now.store) k me
            (S.meaning self.now.store).segments result }
    {
        let count = self.store.segments();
        for j in 0..count {
            match self.beaten_by(k, me, j) {
                None => (),
                Some(f) => return Some(f),
            }
        }
        None
    }

    /// The transaction of segment j is doomed, where it has looked at what the transaction of segment k, which was
    /// taken out of its hand, changed.
    fn doom_reader(&mut self, k: u8, work: &Work<C::State>, j: u8)
        requires fit { Fit k (S.meaning self.old.store) self.old.books work.now.progress }
        requires reader { j < (S.meaning self.old.store).segments }
        ensures fit { Fit k (S.meaning self.new.store) self.new.books work.now.progress }
        ensures rest { self.new ≡ record self.old { store = self.new.store; books = self.new.books } }
        ensures idle { slice_get self.new.books.hands.items k ≡ slice_get self.old.books.hands.items k }
        ensures part { (S.meaning self.new.store).part k ≡ (S.meaning self.old.store).part k }
        ensures shape { SameShape (S.meaning self.old.store) (S.meaning self.new.store) }
        ensures reserved { S.reserved self.new.store ≡ S.reserved self.old.store }
        ensures peaks { S.peaks self.new.store ≡ S.peaks self.old.store }
        ensures broken { self.new.books.broken ≡ self.old.books.broken }
        ensures cause { self.new.books.cause ≡ self.old.books.cause }
        ensures core { (w : Worlds) → core_with w k (S.meaning self.new.store) self.new.books work.now
            ≡ cond (eqb j k) (core_with w k (S.meaning self.old.store) self.old.books work.now)
            (doom_one k (transaction w.own ((S.meaning self.old.store).part k) work.now) j
            (core_with w k (S.meaning self.old.store) self.old.books work.now)
            ((core_with w k (S.meaning self.old.store) self.old.books work.now).segments j)) }
    {
        match self.read_by(k, j) {
            None => (),
            Some(at) => {
                let writer = work.side(k);
                let other = self.books.side(j);
                let lost = Conflict {
                    at,
                    writer,
                    other,
                    asks: false,
                    lost: 1,
                };
                self.books.doom(j, lost);
                self.store.drop_changes(j);
            }
        }
    }

    /// The second pass of a commit: all readers are doomed.
    pub fn doom_readers(&mut self, k: u8, work: &Work<C::State>)
        requires fit { Fit k (S.meaning self.old.store) self.old.books work.now.progress }
        ensures fit { Fit k (S.meaning self.new.store) self.new.books work.now.progress }
        ensures rest { self.new ≡ record self.old { store = self.new.store; books = self.new.books } }
        ensures idle { slice_get self.new.books.hands.items k ≡ slice_get self.old.books.hands.items k }
        ensures part { (S.meaning self.new.store).part k ≡ (S.meaning self.old.store).part k }
        ensures shape { SameShape (S.meaning self.old.store) (S.meaning self.new.store) }
        ensures reserved { S.reserved self.new.store ≡ S.reserved self.old.store }
        ensures peaks { S.peaks self.new.store ≡ S.peaks self.old.store }
        ensures broken { self.new.books.broken ≡ self.old.books.broken }
        ensures cause { self.new.books.cause ≡ self.old.books.cause }
        ensures core { (w : Worlds) → core_with w k (S.meaning self.new.store) self.new.books work.now
            ≡ doom_readers k (transaction w.own ((S.meaning self.old.store).part k) work.now)
            (range_with_len 0 (S.meaning self.old.store).segments)
            (core_with w k (S.meaning self.old.store) self.old.books work.now) }
    {
        let count = self.store.segments();
        'segments: for j in 0..count {
            self.doom_reader(k, work, j);
        }
    }

    /// Commits the transaction of segment k, which was taken out of its hand, and answers the number of its turn.
    pub fn publish(&mut self, k: u8, work: Work<C::State>) -> u64
        requires fit { Fit k (S.meaning self.old.store) self.old.books work.progress }
        requires idle { slice_get self.old.books.hands.items k ≡ Some Hand.Idle }
        requires thread { work.thread < length self.old.books.threads.entries }
        requires count { CountsSteps self.old.spent self.old.books.history.entries }
        ensures whole { Whole (S.meaning self.new.store) self.new.books }
        ensures count { CountsSteps self.new.spent self.new.books.history.entries }
        ensures rest { self.new ≡ record self.old {
          store = self.new.store;
          books = self.new.books;
          spent = self.new.spent;
        } }
        ensures shape { SameShape (S.meaning self.old.store) (S.meaning self.new.store) }
        ensures reserved { S.reserved self.new.store ≡ S.reserved self.old.store }
        ensures peaks { S.peaks self.new.store ≡ S.peaks self.old.store }
        ensures place { result ≡ length self.old.books.history.entries }
        ensures core { (w : Worlds) → core_of (worlds_after w work) (S.meaning self.new.store)
            self.new.books ≡ published k (transaction w.own ((S.meaning self.old.store).part k) work)
            (core_with w k (S.meaning self.old.store) self.old.books work) }
        ensures broken { self.new.books.broken ≡ self.old.books.broken }
        ensures cause { self.new.books.cause ≡ self.old.books.cause }
    {
        self.store.known();
        let place = self.books.history.len() as u64;
        self.spent = self.spent.saturating_add(work.steps);
        self.books.add_turn(work);
        self.store.publish(k);
        place
    }

    /// Ends the transaction of segment k, which was taken out of its hand.
    fn commit_out(&mut self, k: u8, work: Work<C::State>) -> Result<Commit, Conflict>
        requires out { MayEnd S.meaning k work self.old }
        requires numbers { (j : ℕ) (y : Work C.State) → slice_get self.old.books.hands.items j ≡ Some (Hand.Runs y)
            → y.begun ≢ work.begun }
        ensures ended { HasEnded S.meaning S.reserved S.peaks self.old self.new }
        ensures broken { self.new.books.broken ≡ self.old.books.broken }
        ensures cause { self.new.books.cause ≡ self.old.books.cause }
        ensures ends { (w : Worlds) → (w1 : Worlds)
            × CommitEnds (C.prog self.old.client.now) k (S.meaning self.old.store).segments
            (transaction w.own ((S.meaning self.old.store).part k) work) result
            (core_with w k (S.meaning self.old.store) self.old.books work)
            (core_of w1 (S.meaning self.new.store) self.new.books) }
    {
        if work.steps == 0 {
            self.drop_out(k, work);
            return Ok(Commit::Nothing);
        }
        let me = work.side(k);
        match self.beaten(k, me) {
            None => {
                self.doom_readers(k, &work);
                Ok(Commit::Committed(self.publish(k, work)))
            }
            Some(f) => {
                self.lose_out(k, work, f);
                Err(f)
            }
        }
    }

    /// Ends what segment `k` has in hand, which becomes a turn, or loses. The slot is idle then.
    ///
    /// A doomed slot answers the conflict that it lost. A transaction that has run no step is dropped. Otherwise
    /// there are two passes. Where a running transaction that wins has looked at a record that this one changed, the
    /// answer is that conflict, and all other slots stay as they are. Where none wins, all that have looked at one
    /// are doomed, the changes become the image's, the state of the thread and the threads that it started become
    /// committed, and the turn is added to the history.
    pub fn commit(&mut self, k: u8) -> Result<Commit, Conflict>
        requires may { Says I.state O.state E.state C.prog S.meaning self.old
            (λ o. may_make (core_limits S.meaning self.old) o.core (Event.Commit k) ≡ true) }
        requires good { IsGoodCore I.state O.state E.state C.prog C.sound S.reserved S.meaning self.old }
        ensures good { IsGoodCore I.state O.state E.state C.prog C.sound S.reserved S.meaning self.new }
        ensures job { SameJob S.meaning self.old self.new }
        ensures committed { Leads I.state O.state E.state C.prog S.meaning self.old self.new
            (InCore (Committed (C.prog (core_client self.old)) k (core_limits S.meaning self.old).segments result)) }
        ensures peaks { S.peaks (core_store self.new) ≡ S.peaks (core_store self.old) }
        ensures devices { core_devices I.state O.state E.state self.new
            ≡ core_devices I.state O.state E.state self.old }
    {
        match self.books.take(k) {
            Hand::Runs(work) => {
                let result = self.commit_out(k, work);
                self.store.known();
                result
            }
            Hand::Doomed(f) => {
                self.store.known();
                Err(f)
            }
            Hand::Idle => unreachable!(),
        }
    }
}
