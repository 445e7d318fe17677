//! The index of a dictionary: words that find a pair by a hash of its key.
#![tactic(auto)]

pub mod hash;
pub mod laws;
pub mod slots;
