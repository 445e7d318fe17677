//! The front end as one call: from a text to its verified program, or why it has none.
#![tactic(auto)]

mod text_code;

pub use text_code::{TextFault, compile_text, text_law};
