//! The transactional core, tried by scripts whose transactions print nothing, and by drawn events. It has tests alone,
//! so the crates that it tries are proved once and wait for no test.
#![tactic(auto)]

#[cfg(test)]
mod core_rows;
#[cfg(test)]
mod history_rows;
