//! The words of a call: its options, and the text of the workload that one of them names.
#![tactic(auto)]

mod call;
mod demo;
mod error;
mod limits;
mod reader;
mod words;

pub use call::{Name, Options, Script};
pub use demo::demo_text;
pub use error::WordsError;
pub use reader::{read_words, words_law};

#[cfg(test)]
mod tests;
