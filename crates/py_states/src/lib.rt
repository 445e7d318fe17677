//! The state of a thread in memory: three lists, whatever the depth of its calls.
#![tactic(auto)]

mod frames;
mod head;
mod moves;
mod pile;
mod same;
mod thread;
mod track;

pub use thread::ThreadState;
