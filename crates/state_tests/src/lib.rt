//! The state of a thread in memory, tried by hand. It has tests alone, so the crate that it tries is proved once and
//! waits for no test.
#![tactic(auto)]

#[cfg(test)]
mod state_rows;
