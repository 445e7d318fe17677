//! The tokens of a script's text.
#![tactic(auto)]

mod character;
mod class;
mod error;
pub mod keyword;
mod layout;
mod lex;
mod literal;
mod number;
pub mod operator;
mod token;
mod word;

pub use error::TokenError;
pub use lex::tokens;
pub use token::{Other, Token, TokenKind};
