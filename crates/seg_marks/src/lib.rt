//! Markers, by which each segment notes the granules that it looked at, and lock bytes, which say who holds a granule.
#![tactic(auto)]

mod laws;
mod marks;
mod row;

pub use laws::runs_law;
pub use marks::Marks;
