//! A store of maps and a store of pages, tried by lists of events that both do alike. It has tests alone.
#![tactic(auto)]

#[cfg(test)]
mod both;
#[cfg(test)]
mod extents;
#[cfg(test)]
mod handle;
#[cfg(test)]
mod in_use;
#[cfg(test)]
mod lists;
#[cfg(test)]
mod numbers;
#[cfg(test)]
mod places;
