//! The law of the table of templates: the program that it gives for a text's tree is right, so that a machine that runs
//! it lacks nothing. It has no code that runs, and stands beside the compiler, over what the compiler's answer is.
#![tactic(auto)]

mod laws;

pub use laws::right_law;
