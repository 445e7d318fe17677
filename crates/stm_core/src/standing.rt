//! How a core stands: what its segments have in hand, which thread is next, and how the run stands.
use crate::transactions::Core;
use lock_run::{Client, Life};
use seg_store::SegStore;
use stm_io::{Sink, Source};
use stm_segment::{Cause, Hand};

/// What a segment has in hand.
#[derive(Clone, Copy, Debug, Drop, PartialEq, Eq)]
pub enum Slot {
    /// Nothing.
    Idle,
    /// A transaction that runs.
    Running {
        /// The number of its thread, from 0.
        thread: u32,
        /// How many steps it has run.
        steps: u64,
        /// It can't be aborted.
        solo: bool,
    },
    /// A conflict that its transaction lost to another.
    Doomed,
}

/// How a run stands.
#[derive(Clone, Copy, Debug, Drop, PartialEq, Eq)]
pub enum RunState {
    /// A transaction runs, or may begin.
    Running,
    /// All threads have ended.
    Done,
    /// Each thread that lives waits.
    Stuck,
    /// The history has the budget's steps.
    Spent,
    /// The core goes on no more, for this cause.
    Faulted(Cause),
}

impl<'p, C: Client, S: SegStore, I: Source, O: Sink, E: Sink> Core<'p, C, S, I, O, E> {
    ghost use Rattle.std.specs.Prelude.{◌≡◌, ℕ, ◌<◌, ◌≤◌, true, false};
    ghost use Rattle.stm_segment.specs.Books.{Worlds, core_of};
    ghost use Rattle.stm_core.specs.CoreHeld.{core_client, core_limits, Says, IsGoodCore};
    ghost use Rattle.lock_run.specs.RunState.{steps_done, SomeLives, IsDone};
    ghost use Rattle.stm_segment.specs.CoreState.{committed};
    ghost use Rattle.stm_core.specs.Begun.{IsReady, IsUnready, CountsSteps};
    ghost use Rattle.stm_core.specs.Standing.{slot_of, FirstReady, IsNext, IsOutcome};

    /// Whether the history has the budget's steps.
    pub fn is_spent(&self) -> bool
        requires { CountsSteps self.now.spent self.now.books.history.entries }
        ensures yes { result ≡ true → self.now.budget ≤ steps_done self.now.books.history.entries }
        ensures not { result ≡ false → steps_done self.now.books.history.entries < self.now.budget }
    {
        self.spent >= self.budget
    }

    /// What segment `k` has in hand.
    pub fn slot(&self, k: u8) -> Slot
        requires segment { k < (core_limits S.meaning self.now).segments }
        requires good { IsGoodCore I.state O.state E.state C.prog C.sound S.reserved S.meaning self.now }
        ensures { Says I.state O.state E.state C.prog S.meaning self.now (λ o. result ≡ slot_of (o.core.segments k)) }
    {
        match &self.books.hands[k as usize] {
            Hand::Idle => Slot::Idle,
            Hand::Doomed(_) => Slot::Doomed,
            Hand::Runs(work) => Slot::Running {
                thread: work.thread,
                steps: work.steps,
                solo: work.solo,
            },
        }
    }

    /// Whether a transaction of the thread may begin: the thread lives, no segment runs it, and over the image it
    /// doesn't wait.
    pub fn is_ready(&self, t: u32) -> bool
        requires { C.sound self.now.client.now (S.meaning self.now.store).image self.now.books.threads.entries }
        ensures yes { result ≡ true → (w : Worlds)
            → IsReady (C.prog self.now.client.now) (core_of w (S.meaning self.now.store) self.now.books) t }
        ensures not { result ≡ false → (w : Worlds)
            → IsUnready (C.prog self.now.client.now) (core_of w (S.meaning self.now.store) self.now.books) t }
    {
        if t >= self.books.threads.len() || self.books.runs_thread(t) {
            return false;
        }
        let state = self.books.threads.at(t);
        match self.client.life(state) {
            Life::Lives => !self.client.blocked(state, &self.store),
            _ => false,
        }
    }

    /// The first ready thread of those from one number on and below another.
    fn first_ready(&self, from: u32, to: u32) -> Option<u32>
        requires { C.sound self.now.client.now (S.meaning self.now.store).image self.now.books.threads.entries }
        ensures { (w : Worlds) → FirstReady (C.prog self.now.client.now)
            (core_of w (S.meaning self.now.store) self.now.books) from to result }
    {
        for t in from..to {
            if self.is_ready(t) {
                return Some(t);
            }
        }
        None
    }

    /// The thread whose transaction is to begin next: the least ready one above the thread that began last, else the
    /// least ready one. There is none exactly where no thread that lives, and that no segment runs, can go on.
    pub fn next_ready(&self) -> Option<u32>
        requires good { IsGoodCore I.state O.state E.state C.prog C.sound S.reserved S.meaning self.now }
        ensures { Says I.state O.state E.state C.prog S.meaning self.now
            (λ o. IsNext (C.prog (core_client self.now)) o.core result) }
    {
        let count = self.books.threads.len();
        let Some(last) = self.books.last else {
            return self.first_ready(0, count);
        };
        if last >= count {
            return self.first_ready(0, count);
        }
        match self.first_ready(last + 1, count) {
            Some(t) => Some(t),
            None => self.first_ready(0, last + 1),
        }
    }

    /// Whether a thread lives.
    fn some_lives(&self) -> bool
        ensures yes { result ≡ true → (w : Worlds)
            → SomeLives (C.prog self.now.client.now)
            (committed (core_of w (S.meaning self.now.store) self.now.books)) }
        ensures not { result ≡ false → (w : Worlds)
            → IsDone (C.prog self.now.client.now) (committed (core_of w (S.meaning self.now.store) self.now.books)) }
    {
        for t in 0..self.books.threads.len() {
            if let Life::Lives = self.client.life(self.books.threads.at(t)) {
                return true;
            }
        }
        false
    }

    /// How the run stands, by the first of these that holds: the cause that is kept; all threads have ended; a
    /// segment runs; each thread that lives waits; the history has the budget's steps; it goes on.
    pub fn outcome(&self) -> RunState
        requires good { IsGoodCore I.state O.state E.state C.prog C.sound S.reserved S.meaning self.now }
        ensures { Says I.state O.state E.state C.prog S.meaning self.now
            (λ o. IsOutcome (C.prog (core_client self.now)) (core_limits S.meaning self.now).budget o.core result) }
    {
        if let Some(cause) = self.books.cause {
            return RunState::Faulted(cause);
        }
        if !self.some_lives() {
            return RunState::Done;
        }
        if self.books.running() > 0 {
            return RunState::Running;
        }
        match self.next_ready() {
            None => RunState::Stuck,
            Some(_) => {
                if self.is_spent() {
                    RunState::Spent
                } else {
                    RunState::Running
                }
            }
        }
    }
}
