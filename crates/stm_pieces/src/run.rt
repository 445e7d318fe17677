//! Runs a piece: steps of any client over a piece view.
ghost use Rattle.std.specs.Prelude.{◌≡◌, ◌≤◌, true, false};
ghost use Rattle.lock_run.specs.declared.client.Life.TheVariants.{Lives};
ghost use Rattle.lock_run.specs.Client.{StandsIn};
ghost use Rattle.stm_pieces.specs.Piece.{IsPiece};
ghost use Rattle.stm_pieces.specs.PieceOf.{piece_state};
ghost use Rattle.stm_pieces.specs.PieceState.{IsTight, SameTerms, Replayed};
ghost use Rattle.stm_pieces.specs.Ends.{EndsSo};
ghost use Rattle.stm_pieces.specs.inner.Ending.{end_for};
ghost use Rattle.stm_pieces.specs.inner.Stepwise.{Turned};

use crate::view::PieceView;
use lock_run::{Client, Outcome};
use py_data::{Stop, View};
use std::alloc::Global;

/// Why a piece ended.
#[derive(Clone, Copy, Debug, Drop, PartialEq, Eq)]
pub enum PieceEnd {
    /// The most steps were run, and the thread lives.
    Most,
    /// The thread has ended. Its last step was the piece's last.
    Ended,
    /// The next step waits.
    Waits,
    /// The next step prints or reads.
    NeedSolo,
    /// The next step needs a record that isn't loaned, or makes one, or starts a thread, or changes a record that isn't
    /// locked, or would be longer than it may or than it has room for.
    NeedHeap,
    /// There was no memory for the next step. It can be tried again.
    OutOfMemory,
}

/// The end of a piece whose next step met a Stop.
fn end_for(stop: Stop) -> PieceEnd
    ensures { result ≡ end_for stop }
{
    match stop {
        Stop::NeedSolo => PieceEnd::NeedSolo,
        Stop::NeedHeap => PieceEnd::NeedHeap,
        _ => PieceEnd::OutOfMemory,
    }
}

/// The client's next step over the view, if it can be done, and whether the thread lives on. Otherwise state and
/// records are as before.
fn step_over<C: Client>(
    alloc: Global,
    client: &C,
    state: &mut C::State,
    view: &mut PieceView,
) -> Result<bool, PieceEnd>
    requires lives { (C.prog client.now).life state.old ≡ Lives }
    requires stands { StandsIn (C.sound client.now) true (piece_state view.old).heap state.old }
    ensures { Turned (C.prog client.now) (C.sound client.now) state.old (piece_state view.old) result state.new
        (piece_state view.new) }
{
    match client.step(alloc, state, view) {
        Ok(Outcome::Done) => Ok(true),
        Ok(Outcome::Ended) => Ok(false),
        Ok(Outcome::Waits) => {
            View::<C::State>::undo_step(view);
            Err(PieceEnd::Waits)
        }
        Err(stop) => Err(end_for(stop)),
    }
}

/// The same, without the view where the step asks nothing of it.
fn step_here<C: Client>(
    alloc: Global,
    client: &C,
    state: &mut C::State,
    view: &mut PieceView,
) -> Result<bool, PieceEnd>
    requires lives { (C.prog client.now).life state.old ≡ Lives }
    requires stands { StandsIn (C.sound client.now) true (piece_state view.old).heap state.old }
    ensures { Turned (C.prog client.now) (C.sound client.now) state.old (piece_state view.old) result state.new
        (piece_state view.new) }
{
    if client.step_pure(state) {
        return Ok(true);
    }
    step_over(alloc, client, state, view)
}

/// Runs steps of a living thread over a piece view, until so many were run, the thread has ended, or the next step
/// can't be done. It answers how many steps were run, and why no more: state and records are as the last of them left
/// them.
pub fn run_steps<C: Client>(
    alloc: Global,
    client: &C,
    state: &mut C::State,
    view: &mut PieceView,
    most: u64,
) -> (u64, PieceEnd)
    requires lives { (C.prog client.now).life state.old ≡ Lives }
    requires stands { StandsIn (C.sound client.now) true (piece_state view.old).heap state.old }
    requires tight { IsTight (piece_state view.old) }
    requires alone { (piece_state view.old).solo ≡ false }
    ensures piece { IsPiece (C.prog client.now) (piece_state view.old).heap (piece_state view.old).locked result.0
        state.old state.new (piece_state view.new).heap }
    ensures few { result.0 ≤ most }
    ensures end { EndsSo (C.prog client.now) most result.0 state.new (piece_state view.new) result.1 }
    ensures terms { SameTerms (piece_state view.old) (piece_state view.new) }
    ensures replayed { Replayed (piece_state view.old) (piece_state view.new) }
{
    for steps in 0..most {
        match step_here(alloc, client, state, view) {
            Ok(true) => (),
            Ok(false) => return (steps + 1, PieceEnd::Ended),
            Err(end) => return (steps, end),
        }
    }
    (most, PieceEnd::Most)
}
