//! The store of pages, tried by rows. It has tests alone.
#![tactic(auto)]

#[cfg(test)]
mod acts;
#[cfg(test)]
mod handle;
#[cfg(test)]
mod page_rows;
