//! A bench for operations on objects: a view whose heap is in order, with a stack of values that stand in it, words that
//! work on them, and programs of words.
#![tactic(auto)]

pub mod calling;
pub mod calls;
mod classes;
pub mod kinds;
pub mod looking;
mod makers;
mod nested;
pub mod operators;
pub mod pairs;
pub mod reading;
pub mod stacking;
pub mod state;
pub mod words;
