//! Pages, marks, and pieces of steps over copies, tried by hand. It has tests alone, so the crates that it tries are
//! proved once and wait for no test.
#![tactic(auto)]

#[cfg(test)]
mod mark_rows;
#[cfg(test)]
mod page_rows;
#[cfg(test)]
mod piece_rows;
