//! The transactional core: several transactions of a client's threads over one store.
#![tactic(auto)]

mod advance;
mod answers;
mod begin;
mod commit;
mod events;
mod finish;
mod fitting;
mod install;
mod laws;
mod loans;
mod replay;
mod solo;
mod solo_laws;
mod standing;
mod steps;
mod transactions;

pub use answers::{Advance, AdvanceError, LoanError};
pub use begin::BeginError;
pub use commit::Commit;
pub use events::{Event, Reply};
pub use finish::Finished;
pub use laws::{advance_law, commit_law, events_law, good_law, stands_law};
pub use solo::SoloError;
pub use solo_laws::{inner_law, kept_law, solo_law};
pub use standing::{RunState, Slot};
pub use stm_segment::Cause;
pub use transactions::{BUDGET_LIMIT, Core, LENGTH_LIMIT};
