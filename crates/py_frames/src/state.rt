//! The parts of the state of a thread.

use py_data::{Addr, Items, Value, Values};

/// An open `try` block of a frame: the place of its handler, and how high the stack was where it began.
#[derive(Clone, Copy, Debug, Drop, PartialEq, Eq)]
pub struct Block {
    pub handler: u32,
    pub height: u32,
}

/// The open blocks of a frame, the innermost first.
pub type Blocks = Items<Block>;

/// A call that hasn't returned.
#[derive(Debug, Drop)]
pub struct Frame {
    /// The number of its code, and the place of its next instruction.
    pub code: u32,
    pub pc: u32,
    /// The values of its slots, Unset where a slot has none.
    pub slots: Values,
    /// The values of its stack, the top last.
    pub stack: Values,
    pub blocks: Blocks,
    /// The instance whose `__init__` it runs, or the base of a class body, or Unset.
    pub made: Value,
    /// The Dict of a class body.
    pub names: Option<Addr>,
}

/// An exception that no block took, and the line at which it was raised.
#[derive(Clone, Copy, Debug, Drop, PartialEq, Eq)]
pub struct Dying {
    pub exc: Value,
    pub line: u32,
}
