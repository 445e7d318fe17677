//! What calls of a core answer.
ghost use Rattle.std.specs.Prelude.{◌≡◌};
ghost use Rattle.stm_core.specs.declared.answers.LoanError.TheVariants.{OutOfMemory};

use py_data::Conflict;
use std::alloc::AllocError;
use stm_segment::Cause;
use thiserror::Error;

/// How steps of a transaction that goes on came to an end, and how many of them this call did.
#[derive(Clone, Copy, Debug, Drop, PartialEq, Eq)]
pub enum Advance {
    /// All steps that were asked for were done, and the thread lives.
    Ran(u64),
    /// The next step waits, over what the transaction sees.
    Waits(u64),
    /// The last step was the thread's last. The number is 0 where the thread had ended in its transaction before the
    /// call.
    Ended(u64),
    /// The next step prints or reads, which only a solo transaction may.
    NeedSolo(u64),
}

/// Why a transaction went no further. Its segment has nothing in hand then, and what it did is dropped; of a solo
/// transaction whose step was cut, the whole steps are committed.
#[derive(Clone, Copy, Debug, Drop, Error, PartialEq, Eq)]
pub enum AdvanceError {
    /// The transaction lost this conflict: before the call, or to another transaction that has changed the record
    /// which the next step asks to change.
    #[error("the transaction lost a conflict")]
    Lost(Conflict),
    /// The heap is full, there was no memory, or, in a step of a solo transaction, a device failed. The core keeps the
    /// first cause that it met.
    #[error("the core goes on no more")]
    Failed(Cause),
}

/// Why nothing is loaned.
#[derive(Clone, Copy, Debug, Drop, Error, PartialEq, Eq)]
pub enum LoanError {
    /// The transaction lost this conflict, and its segment has nothing in hand then.
    #[error("the transaction lost a conflict")]
    Lost(Conflict),
    /// There was no memory, and nothing changed.
    #[error("out of memory")]
    OutOfMemory,
}

impl From<AllocError> for LoanError {
    ghost from_gives = { λ _ e. e ≡ OutOfMemory };

    fn from(_e: AllocError) -> LoanError {
        LoanError::OutOfMemory
    }
}
