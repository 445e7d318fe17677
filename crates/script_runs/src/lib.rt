//! Runs of whole scripts by the top call, over devices in memory that never fail, and whether a run is what its history
//! says. For the programs that try scripts.
#![tactic(auto)]

mod again;
mod runs;
mod terminal;

pub use again::{Written, written_again};
pub use runs::{SureReport, is_same, is_serial, run};
pub use terminal::Terminal;
