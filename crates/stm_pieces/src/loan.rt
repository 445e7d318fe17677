//! Loans, and the pieces that are run over them.
ghost use Rattle.std.specs.Prelude.{◌≡◌, false};
ghost use Rattle.stm_pieces.specs.PieceOf.{piece_state};
ghost use Rattle.stm_pieces.specs.PieceState.{IsTight, IsFresh};

use crate::run::{PieceEnd, run_steps};
use crate::view::PieceView;
use lock_run::Client;
use py_data::{Addr, Entry, NoMemory};
use std::alloc::Global;

/// A thread's number and a copy of its state, copies of some records, and the most steps. No record may get more values
/// than it has at the loan.
#[derive(Drop)]
pub struct Loan<T> {
    /// The number of the thread.
    pub thread: u32,
    /// The state from which it goes on.
    pub state: T,
    /// How many steps it may do at most.
    pub most: u64,
    /// The records.
    pub view: PieceView,
    ghost tight: { IsTight (piece_state view) },
    ghost alone: { (piece_state view).solo ≡ false },
    ghost fresh: { IsFresh (piece_state view) },
}

impl<T> Loan<T> {
    ghost use Rattle.std.specs.Prelude.{◌≤◌, ◌↔◌, None, OnOk, OnErr, IsTrue, min, is_some};
    ghost use Rattle.stm_pieces.specs.PieceState.{nothing_loaned, with_loaned, with_base};

    /// A loan of no records.
    pub fn new(alloc: Global, thread: u32, state: T, most: u64) -> Loan<T>
        ensures thread { result.thread ≡ thread }
        ensures state { result.state ≡ state }
        ensures most { result.most ≡ most }
        ensures view { piece_state result.view ≡ nothing_loaned }
    {
        Loan {
            thread,
            state,
            most,
            view: PieceView::new(alloc),
        }
    }

    /// Adds a record at an address that is free. The piece may change it where it is locked. At want of memory there is
    /// no record more.
    pub fn add(&mut self, a: Addr, r: Entry, locked: bool) -> Result<(), NoMemory>
        requires fresh { (piece_state self.old.view).heap a.0 ≡ None }
        ensures ok { OnOk result (piece_state self.new.view ≡ with_loaned a.0 r locked (piece_state self.old.view)) }
        ensures err { OnErr result (piece_state self.new.view ≡ with_base (piece_state self.old.view)) }
        ensures thread { self.new.thread ≡ self.old.thread }
        ensures state { self.new.state ≡ self.old.state }
        ensures most { self.new.most ≡ self.old.most }
    {
        self.view.add(a, r, locked)
    }

    /// The same for fewer steps: so many at most, and no more than it allowed.
    pub fn at_most(self, m: u64) -> Loan<T>
        requires { 1 ≤ m }
        ensures thread { result.thread ≡ self.thread }
        ensures state { result.state ≡ self.state }
        ensures most { result.most ≡ min self.most m }
        ensures view { result.view ≡ self.view }
    {
        let Loan {
            thread,
            state,
            most,
            view,
        } = self;
        Loan {
            thread,
            state,
            most: most.min(m),
            view,
        }
    }

    /// Whether a record is loaned at an address.
    pub fn has(&self, a: Addr) -> bool
        ensures { result ≡ is_some ((piece_state self.now.view).loaned a.0) }
    {
        self.view.loaned(a.0).is_some()
    }
}

/// The state at a piece's start, the state at its end, and the records as it left them.
#[derive(Drop)]
pub struct Piece<T> {
    /// The state of the loan.
    pub start: T,
    /// The state after the last step. Nothing stands for the one at the start, where there was no memory for a second.
    pub last: Option<T>,
    /// How many steps were run.
    pub steps: u64,
    /// Why no more were run.
    pub end: PieceEnd,
    /// The records.
    pub view: PieceView,
}

ghost use Rattle.std.specs.Prelude.{◌≤◌, true};
ghost use Rattle.lock_run.specs.declared.client.Life.TheVariants.{Lives};
ghost use Rattle.lock_run.specs.Client.{StandsIn};
ghost use Rattle.stm_pieces.specs.Piece.{IsPiece};
ghost use Rattle.stm_pieces.specs.PieceState.{SameTerms};
ghost use Rattle.stm_pieces.specs.Ends.{EndsSo, last_of};
ghost use Rattle.stm_pieces.specs.PieceBy.{IsPieceBy};

/// Runs steps of the loaned thread on the loaned records, until the most were run, the thread has ended, or the next
/// step can't be done there. It touches nothing but the loan.
pub fn run_piece<C: Client>(alloc: Global, client: &C, loan: Loan<C::State>) -> Piece<C::State>
    requires lives { (C.prog client.now).life loan.state ≡ Lives }
    requires stands { StandsIn (C.sound client.now) true (piece_state loan.view).heap loan.state }
    ensures start { result.start ≡ loan.state }
    ensures few { result.steps ≤ loan.most }
    ensures piece { IsPiece (C.prog client.now) (piece_state loan.view).heap (piece_state loan.view).locked
        result.steps loan.state (last_of result.start result.last) (piece_state result.view).heap }
    ensures end { EndsSo (C.prog client.now) loan.most result.steps (last_of result.start result.last)
        (piece_state result.view) result.end }
    ensures terms { SameTerms (piece_state loan.view) (piece_state result.view) }
    ensures by { IsPieceBy (C.prog client.now) result }
    ensures loaned { (piece_state result.view).loaned ≡ (piece_state loan.view).loaned }
    ensures names { (piece_state result.view).names ≡ (piece_state loan.view).names }
{
    let Loan {
        thread: _,
        state,
        most,
        mut view,
    } = loan;
    match client.copy(alloc, &state) {
        Ok(copied) => {
            let mut last = copied;
            let (steps, end) = run_steps(alloc, client, &mut last, &mut view, most);
            Piece {
                start: state,
                last: Some(last),
                steps,
                end,
                view,
            }
        }
        Err(_) => Piece {
            start: state,
            last: None,
            steps: 0,
            end: PieceEnd::OutOfMemory,
            view,
        },
    }
}
