//! Runs of scripts by the top call, tried by hand: devices that fail, and several workers. It has tests alone.
#![tactic(auto)]

#[cfg(test)]
mod device_rows;
#[cfg(test)]
mod worker_rows;
