//! The stores of the segmented heap, tried by rows. It has tests alone.
#![tactic(auto)]

#[cfg(test)]
mod acts;
#[cfg(test)]
mod handle;
#[cfg(test)]
mod index_rows;
#[cfg(test)]
mod store_rows;
