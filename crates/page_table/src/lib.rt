//! Pages of words that segments share until one first writes to them, and the extents that lie in them.
#![tactic(auto)]

mod counts;
mod laws;
mod page;
mod pages;
mod sheet;
mod shelf;

pub use laws::{counting_law, laying_law};
pub use pages::Pages;
