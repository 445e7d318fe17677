//! The code of expressions, targets and statements without blocks, and the parts of others between their blocks.
#![tactic(auto)]

mod draft;
mod emitter;
mod expression;
mod fault;
mod parts;
mod simple;
mod target;
mod task;

pub use draft::{Draft, Far};
pub use emitter::Emitter;
pub use fault::Fault;
pub use parts::{
    arm_head, arm_tail, catch, for_head, handler_head, handler_tail, loop_tail, pop_try,
    raise_slot, return_head, return_tail, try_head, while_head,
};
pub use simple::{
    alone, assert, assign, change, class, def, delete, import, print, raise_made, take_from,
};
