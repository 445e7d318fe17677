//! The law of canonical texts: a tree's canonical text has that tree again. It has no code that runs, and stands beside
//! the parser, over the grammar's definitions, so that what compiles doesn't wait for its proof.
#![tactic(auto)]

mod laws;

pub use laws::canonical_law;
