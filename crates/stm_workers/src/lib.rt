//! Workers, one for each segment, that run the transactions of one core, each in a thread of its own.
#![tactic(auto)]

mod crew;
mod held;
mod visits;
mod workers;

pub use held::{CoreJob, Held};
pub use visits::{Finding, visit};
pub use workers::run_workers;
