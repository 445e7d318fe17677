//! Events: calls of a core as values, for lists of them.
ghost use Rattle.std.specs.Prelude.{◌≡◌, ◌&&◌, nat_lt, [], ◌∷◌, MatchOption};
ghost use Rattle.stm_core.specs.Events.{begin_reply, advance_reply, solo_reply, commit_reply, loan_reply, piece_reply, is_busy, is_within};

use crate::answers::{Advance, AdvanceError, LoanError};
use crate::begin::BeginError;
use crate::commit::Commit;
use crate::solo::SoloError;
use crate::standing::Slot;
use py_data::{Conflict, NoMemory};
use stm_segment::Cause;

/// A call of a core on the segment of the first number.
#[derive(Clone, Copy, Debug, Drop, PartialEq, Eq)]
pub enum Event {
    /// A transaction of the thread of this number begins.
    Begin(u8, u32),
    /// Its transaction does at most so many steps, at least 1.
    Advance(u8, u64),
    /// Its transaction becomes solo.
    Solo(u8),
    /// Its transaction is committed.
    Commit(u8),
    /// A piece of its transaction, of at most so many steps, at least 1: a loan is taken and run, and what it leaves is
    /// installed, if it fits.
    Piece(u8, u64),
}

/// What an event was answered.
#[derive(Clone, Copy, Debug, Drop, PartialEq, Eq)]
pub enum Reply {
    /// The condition of the call didn't hold, and it wasn't made: there is no such segment; nothing is in hand to
    /// advance or to commit; no step is asked for; or the steps would be more than the length. Of a piece it also
    /// says that the thread has ended in its transaction.
    Skipped,
    Begun,
    Refused(BeginError),
    Advanced(Advance),
    /// The transaction is solo.
    Solo,
    /// It didn't become solo.
    Unsolo(SoloError),
    /// The number of the turn in the history, from 0.
    Committed(u64),
    /// The transaction had done no step, and was dropped.
    Nothing,
    /// The transaction lost this conflict, and nothing of it is left.
    Lost(Conflict),
    /// The core goes on no more, for this cause.
    Failed(Cause),
    /// A piece of so many steps was installed.
    Installed(u64),
    /// The piece doesn't fit its segment any more. One that is installed at once always fits.
    Unfit,
    /// There was no memory for a loan, and nothing changed.
    OutOfMemory,
}

/// What a begin that answered this is replied as.
pub fn begin_reply(answer: Result<(), BeginError>) -> Reply
    ensures { result ≡ begin_reply answer }
{
    match answer {
        Ok(()) => Reply::Begun,
        Err(e) => Reply::Refused(e),
    }
}

/// What an advance that answered this is replied as.
pub fn advance_reply(answer: Result<Advance, AdvanceError>) -> Reply
    ensures { result ≡ advance_reply answer }
{
    match answer {
        Ok(advance) => Reply::Advanced(advance),
        Err(AdvanceError::Lost(f)) => Reply::Lost(f),
        Err(AdvanceError::Failed(cause)) => Reply::Failed(cause),
    }
}

/// What a call of `solo` that answered this is replied as.
pub fn solo_reply(answer: Result<(), SoloError>) -> Reply
    ensures { result ≡ solo_reply answer }
{
    match answer {
        Ok(()) => Reply::Solo,
        Err(e) => Reply::Unsolo(e),
    }
}

/// What a commit that answered this is replied as.
pub fn commit_reply(answer: Result<Commit, Conflict>) -> Reply
    ensures { result ≡ commit_reply answer }
{
    match answer {
        Ok(Commit::Committed(n)) => Reply::Committed(n),
        Ok(Commit::Nothing) => Reply::Nothing,
        Err(f) => Reply::Lost(f),
    }
}

/// What is replied where there is no loan, for this reason.
pub fn loan_reply(reason: LoanError) -> Reply
    ensures { result ≡ loan_reply reason }
{
    match reason {
        LoanError::Lost(f) => Reply::Lost(f),
        LoanError::OutOfMemory => Reply::OutOfMemory,
    }
}

/// What an install that answered this is replied as.
pub fn piece_reply(answer: Result<u64, NoMemory>) -> Reply
    ensures { result ≡ piece_reply answer }
{
    match answer {
        Ok(n) => Reply::Installed(n),
        Err(_) => Reply::Failed(Cause::OutOfMemory),
    }
}

/// Something is in hand.
pub fn is_busy(slot: Slot) -> bool
    ensures { result ≡ is_busy slot }
{
    match slot {
        Slot::Idle => false,
        _ => true,
    }
}

/// So many steps more are within the length.
fn is_within(slot: Slot, most: u64, length: u64) -> bool
    ensures { result ≡ is_within length most slot }
{
    match slot {
        Slot::Running { steps, .. } => match steps.checked_add(most) {
            Some(sum) => sum <= length,
            None => false,
        },
        _ => true,
    }
}

/// Something is in hand, some steps are asked for, and so many more are within the length.
pub fn may_go_on(slot: Slot, asked: u64, more: u64, length: u64) -> bool
    ensures { result ≡ (is_busy slot && (nat_lt 0 asked && is_within length more slot)) }
{
    is_busy(slot) && 0 < asked && is_within(slot, more, length)
}

/// The first event, and those after it.
pub fn split(list: &[Event]) -> Option<(&Event, &[Event])>
    ensures { MatchOption result (list.now ≡ []) (λ p. list.now ≡ p.0.now ∷ p.1.now) }
{
    list.split_first()
}
