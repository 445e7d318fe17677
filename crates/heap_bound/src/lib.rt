//! The bound on a full heap: a heap is refused as full only where its limit is below what the run asked for, and a few
//! growths more.
#![tactic(auto)]

mod laws;

pub use laws::{call_law, cut_law, full_law, piece_law, use_law};
