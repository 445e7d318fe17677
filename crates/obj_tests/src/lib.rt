//! The operations on objects, tried over a plain view as rows of a bench. It has tests alone.
#![tactic(auto)]

#[cfg(test)]
mod growth;
#[cfg(test)]
mod input;
#[cfg(test)]
mod limits;
#[cfg(test)]
mod rows;
#[cfg(test)]
mod tables;
#[cfg(test)]
mod walks;
