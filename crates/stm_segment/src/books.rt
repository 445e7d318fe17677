//! What a core keeps beside its store: the committed states of the threads, what each segment has in hand, the
//! history and the conflicts.
ghost use Rattle.std.specs.Prelude.{◌≡◌, ◌<◌, ◌≤◌, ◌+◌, ◌-◌, ◌^◌, ◌++◌, [], ◌∷◌, length, true, false, slice_set, slice_get, Some, take, OnOk, OnErr, suc};
ghost use Rattle.stm_segment.specs.Books.{runs_at, started_at, side_of};
ghost use Rattle.stm_segment.specs.CoreState.{first_cause};

use crate::cause::Cause;
use crate::recent::Recent;
use crate::threads::{Started, Threads};
use lock_run::History;
use py_data::{Conflict, Conflicts, Names, NoMemory, Side};
use std::alloc::AllocError;
use std::mem;

/// The names that a transaction gave and the threads that it started, and how many of them there were when its open
/// step began; and the records that its steps looked at last.
#[derive(Drop)]
pub struct Progress<T> {
    /// The names of the records that it made, in order.
    pub names: Names,
    /// How many names there were when its open step began.
    pub kept_names: usize,
    /// The states of the threads that it started, in order.
    pub started: Started<T>,
    /// How many threads there were when its open step began.
    pub kept_started: usize,
    /// The records that its steps looked at last.
    pub recent: Recent,
}

/// A transaction that runs, but for what the store keeps of it.
#[derive(Drop)]
pub struct Work<T> {
    /// The number of its thread, from 0.
    pub thread: u32,
    /// How many transactions were begun before it.
    pub begun: u64,
    /// How many steps it has done.
    pub steps: u64,
    /// It prints and reads, and can't be aborted.
    pub solo: bool,
    /// The state of its thread after these steps.
    pub state: T,
    /// What it made and started.
    pub progress: Progress<T>,
}

/// What a segment has in hand.
#[derive(Drop)]
pub enum Hand<T> {
    /// Nothing.
    Idle,
    /// Its transaction lost this conflict to another.
    Doomed(Conflict),
    /// A transaction that runs.
    Runs(Work<T>),
}

/// The step of a solo transaction that was cut: the next one of this thread, after so many turns.
#[derive(Clone, Copy, Drop)]
pub struct Cut {
    /// The number of the thread, from 0.
    pub thread: u32,
    /// How many turns the history had.
    pub turns: u64,
}

/// The books of a core.
#[derive(Drop)]
pub struct Books<T> {
    /// The committed states of the threads, with room for all that running transactions started.
    pub threads: Threads<T>,
    /// How many threads the running transactions started, all together.
    pub pending: usize,
    /// What each segment has in hand.
    pub hands: Vec<Hand<T>>,
    /// The turns that were committed, with room for one of each running transaction.
    pub history: History,
    /// The conflicts, with room for one of each running transaction.
    pub conflicts: Conflicts,
    /// How many transactions were begun.
    pub begun: u64,
    /// The thread whose transaction was begun last.
    pub last: Option<u32>,
    /// Why the core goes on no more.
    pub cause: Option<Cause>,
    /// The step that was cut for good.
    pub broken: Option<Cut>,
}

impl<T: Drop> Progress<T> {
    /// A step begins: what stands now is kept.
    pub fn open(&mut self)
        ensures { self.new ≡ record self.old {
          kept_names = length self.old.names;
          kept_started = length self.old.started;
        } }
    {
        self.kept_names = self.names.len();
        self.kept_started = self.started.len();
    }

    /// Takes back the names and the threads of the step, and tells how many threads these were.
    pub fn undo(&mut self) -> usize
        ensures back { self.new ≡ record self.old {
          names = take self.old.kept_names self.old.names;
          started = take self.old.kept_started self.old.started;
        } }
        ensures count { result + length self.new.started ≡ length self.old.started }
    {
        let before = self.started.len();
        self.names.truncate(self.kept_names);
        self.started.truncate(self.kept_started);
        before - self.started.len()
    }
}

impl<T: Drop> Work<T> {
    /// One step more was done.
    pub fn count_step(&mut self)
        requires { self.old.steps < 2 ^ 64 - 1 }
        ensures { self.new ≡ record self.old { steps = suc self.old.steps } }
    {
        self.steps += 1;
    }

    /// The transaction of a segment, as a side of a conflict.
    pub fn side(&self, segment: u8) -> Side
        ensures { result ≡ record {
          segment = segment;
          thread = self.now.thread;
          begun = self.now.begun;
          solo = self.now.solo;
        } }
    {
        Side {
            segment,
            thread: self.thread,
            begun: self.begun,
            solo: self.solo,
        }
    }
}

impl<T: Drop> Books<T> {
    /// A running transaction starts a thread, for whose commit there is room then.
    pub fn start(&mut self, progress: &mut Progress<T>, s: T) -> Result<(), NoMemory>
        ensures rest { self.new ≡ record self.old { threads = self.new.threads; pending = self.new.pending } }
        ensures threads { self.new.threads.entries ≡ self.old.threads.entries }
        ensures room { self.old.threads.room ≤ self.new.threads.room }
        ensures ok { OnOk result ((self.new.pending ≡ self.old.pending + 1)
            × (self.new.pending ≤ self.new.threads.room)
            × (progress.new ≡ record progress.old { started = progress.old.started ++ s ∷ [] })) }
        ensures err { OnErr result ((self.new.pending ≡ self.old.pending) × (progress.new ≡ progress.old)) }
    {
        let Some(pending) = self.pending.checked_add(1) else {
            return Err(AllocError);
        };
        self.threads.reserve(pending)?;
        progress.started.push(s)?;
        self.pending = pending;
        Ok(())
    }

    /// The transaction of a segment, as a side of a conflict.
    pub fn side(&self, j: u8) -> Side
        requires { runs_at self.now.hands.items j ≡ true }
        ensures { result ≡ side_of j result (slice_get self.now.hands.items j) }
    {
        match &self.hands[j as usize] {
            Hand::Runs(work) => work.side(j),
            _ => unreachable!(),
        }
    }

    /// Takes out what a segment has in hand; the hand is empty then.
    pub fn take(&mut self, k: u8) -> Hand<T>
        requires { k < length self.old.hands.items }
        ensures hand { slice_get self.old.hands.items k ≡ Some result }
        ensures hands { self.new.hands.items ≡ slice_set self.old.hands.items k Hand.Idle }
        ensures rest { self.new ≡ record self.old { hands = self.new.hands } }
    {
        mem::replace(&mut self.hands[k as usize], Hand::Idle)
    }

    /// Puts a transaction into a segment's hand.
    pub fn put(&mut self, k: u8, work: Work<T>)
        requires { k < length self.old.hands.items }
        ensures hands { self.new.hands.items ≡ slice_set self.old.hands.items k (Hand.Runs work) }
        ensures rest { self.new ≡ record self.old { hands = self.new.hands } }
    {
        self.hands[k as usize] = Hand::Runs(work);
    }

    /// What a transaction that ends started is pending no more.
    pub fn forget(&mut self, count: usize)
        requires { count ≤ self.old.pending }
        ensures rest { self.new ≡ record self.old { pending = self.new.pending } }
        ensures pending { self.new.pending + count ≡ self.old.pending }
    {
        self.pending -= count;
    }

    /// Keeps a cause for which the core goes on no more, unless one is kept already.
    pub fn keep(&mut self, cause: Cause)
        ensures rest { self.new ≡ record self.old { cause = self.new.cause } }
        ensures cause { self.new.cause ≡ first_cause self.old.cause cause }
    {
        match self.cause {
            None => self.cause = Some(cause),
            Some(_) => (),
        }
    }

    /// Notes a conflict.
    pub fn note(&mut self, f: Conflict)
        requires { 0 < self.old.conflicts.room }
        ensures rest { self.new ≡ record self.old { conflicts = self.new.conflicts } }
        ensures conflicts { self.new.conflicts.entries ≡ self.old.conflicts.entries ++ f ∷ [] }
        ensures room { self.old.conflicts.room ≤ self.new.conflicts.room + 1 }
    {
        match self.conflicts.push(f) {
            Ok(()) => (),
            Err(_) => unreachable!(),
        }
    }

    /// The transaction of a segment lost a conflict: the segment is doomed with it.
    pub fn doom(&mut self, j: u8, f: Conflict)
        requires runs { runs_at self.old.hands.items j ≡ true }
        requires pending { started_at self.old.hands.items j ≤ self.old.pending }
        requires room { 0 < self.old.conflicts.room }
        ensures rest { self.new ≡ record self.old {
          hands = self.new.hands;
          pending = self.new.pending;
          conflicts = self.new.conflicts;
        } }
        ensures hands { self.new.hands.items ≡ slice_set self.old.hands.items j (Hand.Doomed f) }
        ensures pending { self.new.pending + started_at self.old.hands.items j ≡ self.old.pending }
        ensures conflicts { self.new.conflicts.entries ≡ self.old.conflicts.entries ++ f ∷ [] }
        ensures room { self.old.conflicts.room ≤ self.new.conflicts.room + 1 }
    {
        match mem::replace(&mut self.hands[j as usize], Hand::Doomed(f)) {
            Hand::Runs(work) => self.pending -= work.progress.started.len(),
            _ => unreachable!(),
        }
        self.note(f);
    }
}
