//! Laws of the front end's definitions, in the words of the language's document.
#![tactic(auto)]

mod laws;

pub use laws::{round_law, spelling_law, target_law, tree_law};
