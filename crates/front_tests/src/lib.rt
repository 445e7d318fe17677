//! The front end below scopes and code, tried by hand: literals, tokens and trees. It has tests alone, so the crates
//! that it tries are proved once and wait for no test.
#![tactic(auto)]

#[cfg(test)]
mod literal_rows;
#[cfg(test)]
mod token_rows;
#[cfg(test)]
mod tree_rows;
