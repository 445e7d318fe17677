//! The transactional core, tried by pieces and by scripts whose transactions become solo. It has tests alone.
#![tactic(auto)]

#[cfg(test)]
mod piece_rows;
#[cfg(test)]
mod solo_rows;
