//! The top call, tried by hand: statuses, words and limits, full heaps, and workers that meet. It has tests alone, so
//! the crates that it tries are proved once and wait for no test.
#![tactic(auto)]

#[cfg(test)]
mod call_rows;
#[cfg(test)]
mod gate_rows;
#[cfg(test)]
mod page_rows;
