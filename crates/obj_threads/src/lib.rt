//! The builtins of the modules `thread` and `threading`, and the methods of locks and threads, over any view.
#![tactic(auto)]

mod answer;
mod argument;
mod call;
mod keywords;
mod laws;
mod lock;
mod starting;
mod thread;

pub use answer::Answer;
pub use call::thread_call;
pub use laws::{holds_law, inside_law, lock_law, pending_law, quiet_law, thread_law};
