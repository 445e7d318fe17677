//! Programs tried by hand: instructions as they are printed, listings, and programs that pass and that don't. It has
//! tests alone, so the crates that it tries are proved once and wait for no test.
#![tactic(auto)]

#[cfg(test)]
mod code_rows;
#[cfg(test)]
mod joined_texts;
#[cfg(test)]
mod listing_rows;
#[cfg(test)]
mod verified;
