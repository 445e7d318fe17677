//! What all stands on, tried by hand: lists, records, arithmetic, ranges, texts, and devices in memory. It has tests
//! alone, so the crates that it tries are proved once and wait for no test.
#![tactic(auto)]

#[cfg(test)]
mod arithmetic_rows;
#[cfg(test)]
mod device_rows;
#[cfg(test)]
mod list_rows;
#[cfg(test)]
mod range_rows;
#[cfg(test)]
mod record_rows;
#[cfg(test)]
mod text_rows;
