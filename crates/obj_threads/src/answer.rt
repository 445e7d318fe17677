//! What the call of a builtin answers.
use py_data::{Addr, Value};

/// What the call of a builtin answers, where it raises nothing.
#[derive(Clone, Copy, Debug, Drop)]
pub enum Answer {
    /// A value.
    Value(Value),
    /// The call waits. Nothing is changed.
    Waits,
    /// A thread is to be started, which the step that called does. Nothing is changed yet.
    Start {
        /// A function, or a method of one.
        target: Value,
        /// The address of the tuple of its arguments.
        args: Addr,
        /// The address of the Thread record of that thread, if it has one.
        thread: Option<Addr>,
    },
}
