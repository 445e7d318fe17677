//! The table of templates, as definitions with their laws: the program of a tree. It stands below the compiler, which
//! computes what they say, and below the law that it is right. The code that it has is what the compiler's crates share:
//! where a name lives, and keyword lists without repetition.
#![tactic(auto)]

mod count;
mod error;
mod home;
mod key_set;
mod names;
mod way;

pub use count::{sum, to_u32};
pub use error::{CompileError, too_large};
pub use home::Home;
pub use key_set::{KeyNames, KeySet};
pub use names::{Names, bound_name, is_none};
pub use way::Way;
