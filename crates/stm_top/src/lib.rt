//! The top call: a script's text to its run.
#![tactic(auto)]

mod answer;
mod run;
mod script;
mod status;
mod top;

pub use script::SCRIPT_LIMIT;
pub use status::Status;
pub use top::{Report, run_words};
