//! What an instruction leads to.

use crate::entered::Entered;
use crate::pushed::Pushed;
use py_data::{Addr, Value};

/// What an instruction leads to. Its operands are taken from the stack, but where the exception is raised within the
/// frame, or the thread waits.
#[derive(Debug, Drop)]
pub enum Next {
    /// These values are pushed, and the next place follows.
    Goes(Pushed),
    /// These values are pushed, and that place follows.
    Jumps(u32, Pushed),
    /// The slot holds the value, and the next place follows.
    Stores(u32, Value),
    /// A block with that handler begins, and the next place follows.
    Opens(u32),
    /// The innermost block ends, and the next place follows.
    Closes,
    /// That frame is entered. What it leaves will be pushed, and the next place follows then.
    Enters(Entered),
    /// The frame is left with a value.
    Leaves(Value),
    /// The frame is left, and the exception is raised in the frame round it.
    Fails(Value),
    /// The program's roots stand there, and the next place follows.
    Begins(Addr),
    /// The exception is raised.
    Throws(Value),
    /// Nothing: the thread must wait.
    Waits,
}
