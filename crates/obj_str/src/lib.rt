//! Strings and their methods over any view.
#![tactic(auto)]

mod argument;
mod blanks;
mod cutting;
mod growing;
mod join;
mod laws;
mod method;
mod replace;
mod search;
mod short;
mod splitting;
mod text;

pub use argument::{both, only, wrong_arguments, wrong_operand};
pub use blanks::strip;
pub use laws::{
    ends_law, find_law, holds_law, letters_law, replace_law, split_law, strip_law, words_law,
};
pub use method::str_method;
pub use replace::replaced;
pub use search::find;
pub use short::Text;
pub use text::{bytes_of, make_str, too_long};
