//! Stores of the segmented heap: a committed image, and what each segment changes, makes and looks at.
#![tactic(auto)]

mod hand;
mod laws;
mod looks;
mod plain;
mod space;
mod store;
mod table;

pub use laws::{fits_law, sees_law, wants_law};
pub use looks::Looks;
pub use plain::PlainStore;
pub use store::{SegStore, StoreFault};
