//! Texts from their first byte to their program, tried by hand: scopes, canonical texts, listings, and refusals with
//! their lines. It has tests alone, but for a script that other tests run, so the crates that it tries are proved
//! once and wait for no test.
#![tactic(auto)]

#[cfg(test)]
mod canonical_rows;
#[cfg(test)]
mod code_rows;
#[cfg(test)]
mod names_rows;
#[cfg(test)]
mod program_rows;
pub mod scripts;
#[cfg(test)]
mod tables;
#[cfg(test)]
mod text_rows;
