//! What the segments have in hand: which of them run a transaction, of which thread, and which one is solo; and how a
//! transaction becomes a turn.
ghost use Rattle.std.specs.Prelude.{◌≡◌, ◌≢◌, ℕ, ◌+◌, ◌<◌, ◌≤◌, ◌++◌, [], ◌∷◌, true, false, length, slice_get, slice_set, Some};
ghost use Rattle.std.specs.List.{sum_by};
ghost use Rattle.stm_segment.specs.declared.books.Work.{Work};
ghost use Rattle.stm_segment.specs.declared.books.Hand.TheVariants.{Idle, Runs};
ghost use Rattle.stm_segment.specs.Books.{one_running, runs_at, IsSoloAt};

use crate::books::{Books, Hand, Progress, Work};
use lock_run::Turn;

impl<T: Drop> Books<T> {
    /// Whether a transaction runs on the segment.
    pub fn runs(&self, j: u8) -> bool
        requires { j < length self.now.hands.items }
        ensures { result ≡ runs_at self.now.hands.items j }
    {
        matches!(self.hands[j as usize], Hand::Runs(_))
    }

    /// Whether a segment has nothing in hand.
    pub fn is_idle(&self, k: u8) -> bool
        requires { k < length self.now.hands.items }
        ensures yes { result ≡ true → slice_get self.now.hands.items k ≡ Some Hand.Idle }
        ensures not { result ≡ false → slice_get self.now.hands.items k ≢ Some Hand.Idle }
    {
        matches!(self.hands[k as usize], Hand::Idle)
    }

    /// How many transactions run.
    pub fn running(&self) -> usize
        ensures count { result ≡ sum_by one_running self.now.hands.items }
        ensures few { result ≤ length self.now.hands.items }
    {
        let mut count = 0;
        for hand in &self.hands {
            if let Hand::Runs(_) = hand {
                count += 1;
            }
        }
        count
    }

    /// The segment whose transaction is solo.
    pub fn solo_segment(&self) -> Option<u8>
        requires { length self.now.hands.items ≤ 8 }
        ensures { IsSoloAt self.now.hands.items result }
    {
        for j in 0..self.hands.len() {
            if let Hand::Runs(work) = &self.hands[j] {
                if work.solo {
                    return Some(j as u8);
                }
            }
        }
        None
    }

    /// Whether a segment runs the thread.
    pub fn runs_thread(&self, t: u32) -> bool
        ensures yes { result ≡ true → (j : ℕ) × (y : Work T) × (slice_get self.now.hands.items j ≡ Some (Hand.Runs y))
            × (y.thread ≡ t) }
        ensures not { result ≡ false → (j : ℕ) (y : Work T) → slice_get self.now.hands.items j ≡ Some (Hand.Runs y)
            → t ≢ y.thread }
    {
        for hand in &self.hands {
            if let Hand::Runs(work) = hand {
                if work.thread == t {
                    return true;
                }
            }
        }
        false
    }

    /// Commits a transaction: its turn, the state of its thread, and the threads that it started. There is room for
    /// them.
    pub fn add_turn(&mut self, work: Work<T>)
        requires thread { work.thread < length self.old.threads.entries }
        requires turns { 0 < self.old.history.room }
        requires pending { length work.progress.started ≤ self.old.pending }
        requires threads { self.old.pending ≤ self.old.threads.room }
        ensures rest { self.new ≡ record self.old {
          threads = self.new.threads;
          pending = self.new.pending;
          history = self.new.history;
        } }
        ensures threads { self.new.threads.entries ≡ slice_set self.old.threads.entries work.thread
            work.state ++ work.progress.started }
        ensures thread_room { self.old.threads.room ≤ self.new.threads.room + length work.progress.started }
        ensures pending { self.new.pending + length work.progress.started ≡ self.old.pending }
        ensures history { self.new.history.entries ≡ self.old.history.entries ++ record {
          thread = work.thread;
          steps = work.steps;
          names = work.progress.names;
        } ∷ [] }
        ensures history_room { self.old.history.room ≤ self.new.history.room + 1 }
    {
        let Work {
            thread,
            steps,
            state,
            progress,
            ..
        } = work;
        let Progress { names, started, .. } = progress;
        self.pending -= started.len();
        self.threads.set(thread, state);
        self.threads.append(started);
        let turn = Turn {
            thread,
            steps,
            names,
        };
        match self.history.push(turn) {
            Ok(()) => (),
            Err(_) => unreachable!(),
        }
    }
}
