//! Threads of the tests' own that visit a core by its lock, and workers that run pieces. It has tests alone, so what
//! it tries is proved once and waits for no test.
#![tactic(auto)]

#[cfg(test)]
mod piece_rows;
#[cfg(test)]
mod watch_rows;
