//! Laws of what the top call answers: its causes exclude each other, and where nothing stands in its way a run is
//! finished.
#![tactic(auto)]

mod laws;

pub use laws::{answered_law, finished_law, left_law, stands_law};
