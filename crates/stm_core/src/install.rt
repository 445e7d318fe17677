//! How a piece is installed: its changes are made again in the store, and its steps count as those of the transaction.
ghost use Rattle.std.specs.Prelude.{◌≡◌, ◌<◌, ◌+◌, ◌^◌};
ghost use Rattle.stm_core.specs.inner.PutIn.{further};

use crate::replay::replay;
use crate::transactions::Core;
use lock_run::Client;
use py_data::{Addr, Change, NoMemory};
use seg_store::SegStore;
use stm_io::{Sink, Source};
use stm_pieces::Piece;
use stm_segment::{Cause, Hand, Work};

/// A transaction has done so many steps more, which led to this state, if it is told.
fn count_steps<T: Drop>(work: &mut Work<T>, steps: u64, last: Option<T>)
    requires { work.old.steps + steps < 2 ^ 64 }
    ensures { work.new ≡ further steps last work.old }
{
    work.steps += steps;
    if let Some(state) = last {
        work.state = state;
    }
}

impl<'p, C: Client, S: SegStore, I: Source, O: Sink, E: Sink> Core<'p, C, S, I, O, E> {
    ghost use Rattle.std.specs.Prelude.{◌≡◌, ◌<◌, ◌≤◌, ◌+◌, ◌^◌, length, slice_get, Some, IfOk, OnOk, OnErr};
    ghost use Rattle.seg_store.specs.Calls.{after_open};
    ghost use Rattle.stm_pieces.specs.Ends.{last_of};
    ghost use Rattle.stm_pieces.specs.PieceBy.{IsPieceBy};
    ghost use Rattle.stm_pieces.specs.PieceOf.{piece_state};
    ghost use Rattle.stm_segment.specs.CoreState.{IsShort};
    ghost use Rattle.stm_core.specs.Begun.{CountsSteps};
    ghost use Rattle.stm_segment.specs.Books.{Fit};
    ghost use Rattle.stm_core.specs.CoreHeld.{core_client, core_devices, core_limits, core_store, Says, Leads, IsGoodCore, SameJob};
    ghost use Rattle.stm_core.specs.Pieces.{FitsSegment, IsInstalled};
    ghost use Rattle.stm_core.specs.inner.PutIn.{HasPutIn, HasFailed};
    ghost use Rattle.stm_core.specs.inner.Replayed.{CanReplay};
    ghost use Rattle.stm_core.specs.inner.Whole.{Whole, SameShape};

    /// The transaction of segment k, which was taken out of its hand, makes these changes in one step of the store,
    /// and goes on by so many steps, to this last state if it is told. Then it is put back. At want of memory the
    /// changes are taken back, and that cause is kept: it is dropped, or, where it is solo, committed up to its last
    /// whole step.
    fn install_out(
        &mut self,
        k: u8,
        work: Work<C::State>,
        edits: &[(Addr, Change)],
        steps: u64,
        last: Option<C::State>,
        most: u64,
    ) -> Result<u64, NoMemory>
        requires fit { Fit k (S.meaning self.old.store) self.old.books work.progress }
        requires idle { slice_get self.old.books.hands.items k ≡ Some Hand.Idle }
        requires thread { work.thread < length self.old.books.threads.entries }
        requires count { CountsSteps self.old.spent self.old.books.history.entries }
        requires may { CanReplay k edits.now (after_open k (S.meaning self.old.store)) }
        requires short { IsShort most (work.steps + steps) }
        ensures rest { self.new ≡ record self.old {
          store = self.new.store;
          books = self.new.books;
          spent = self.new.spent;
        } }
        ensures whole { Whole (S.meaning self.new.store) self.new.books }
        ensures count { CountsSteps self.new.spent self.new.books.history.entries }
        ensures shape { SameShape (S.meaning self.old.store) (S.meaning self.new.store) }
        ensures reserved { S.reserved self.old.store ≤ S.reserved self.new.store }
        ensures peaks { S.peaks self.new.store ≡ S.peaks self.old.store }
        ensures steps { IfOk result (λ n. n ≡ steps) }
        ensures ok { OnOk result (HasPutIn k edits.now steps last (S.meaning self.old.store) self.old.books work
            (S.meaning self.new.store) self.new.books) }
        ensures err { OnErr result (HasFailed k (S.meaning self.old.store) self.old.books work
            (S.meaning self.new.store) self.new.books) }
    {
        let mut going = work;
        self.store.open_step(k);
        going.progress.open();
        match replay(&mut self.store, k, edits) {
            Ok(()) => {
                count_steps(&mut going, steps, last);
                self.put_back(k, going);
                Ok(steps)
            }
            Err(want) => {
                self.store.undo_step(k);
                self.fail_out(k, going, Cause::OutOfMemory);
                Err(want)
            }
        }
    }

    /// Installs a piece that fits the transaction of segment `k`: its changes are made again, and its steps count as
    /// the transaction's. It answers how many these are. It takes memory as the store needs it. At want of memory
    /// that cause is kept, and the transaction is dropped; a solo one is committed as it was before the piece, if it
    /// has done a step.
    pub fn install(&mut self, k: u8, p: Piece<C::State>) -> Result<u64, NoMemory>
        requires segment { k < (core_limits S.meaning self.old).segments }
        requires good { IsGoodCore I.state O.state E.state C.prog C.sound S.reserved S.meaning self.old }
        requires fits { Says I.state O.state E.state C.prog S.meaning self.old
            (λ o. FitsSegment (core_limits S.meaning self.old).length o.core.image (o.core.segments k) p.start
            (piece_state p.view).loaned (piece_state p.view).locked p.steps) }
        requires by { IsPieceBy (C.prog (core_client self.old)) p }
        ensures good { IsGoodCore I.state O.state E.state C.prog C.sound S.reserved S.meaning self.new }
        ensures job { SameJob S.meaning self.old self.new }
        ensures installed { Leads I.state O.state E.state C.prog S.meaning self.old self.new
            (λ o o1. IsInstalled (C.prog (core_client self.old)) (core_limits S.meaning self.old).length k
            (core_limits S.meaning self.old).segments (S.reserved self.new.store)
            (core_limits S.meaning self.old).words (piece_state p.view).loaned (piece_state p.view).heap p.steps
            (last_of p.start p.last) result o o1) }
        ensures peaks { S.peaks (core_store self.new) ≡ S.peaks (core_store self.old) }
        ensures devices { core_devices I.state O.state E.state self.new
            ≡ core_devices I.state O.state E.state self.old }
    {
        self.store.known();
        match self.books.take(k) {
            Hand::Runs(work) => {
                let Piece {
                    start: _,
                    last,
                    steps,
                    end: _,
                    view,
                } = p;
                let result = self.install_out(k, work, view.edits(), steps, last, self.length);
                self.store.known();
                result
            }
            _ => unreachable!(),
        }
    }
}
