//! Histories of runs by the top call, tried by hand: each is run again on a machine of its own. It has tests alone.
#![tactic(auto)]

#[cfg(test)]
mod history_rows;
