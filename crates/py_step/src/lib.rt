//! One step of a thread of a program, over any view, and programs as clients of a machine.
#![tactic(auto)]

mod at_once;
mod blocked;
mod calls;
mod client;
mod ends;
mod fast;
mod guard;
mod instrs;
mod operands;
mod place;
mod prepared;
mod step;

pub use blocked::would_wait;
pub use client::PyClient;
pub use prepared::Prepared;
pub use step::step_row;
