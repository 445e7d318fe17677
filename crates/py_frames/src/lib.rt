//! The states of the threads of a program, and the rows of their steps.
#![tactic(auto)]

mod entered;
mod laws;
mod next;
mod pushed;
mod state;

pub use entered::Entered;
pub use laws::{never_lacks_law, outcome_law, sound_law, steady_law, wait_law};
pub use next::Next;
pub use pushed::Pushed;
pub use state::{Block, Blocks, Dying, Frame};
