//! What is kept of a frame beside its values and its blocks.

use py_data::{Addr, Value};

/// A frame without its values and its blocks.
#[derive(Clone, Copy, Debug, Drop, PartialEq, Eq)]
pub struct Head {
    /// The number of its code, and the place of its next instruction.
    pub code: u32,
    pub pc: u32,
    /// The instance whose `__init__` it runs, or the base of a class body, or Unset.
    pub made: Value,
    /// The Dict of a class body.
    pub names: Option<Addr>,
    /// How many values lie below its own.
    pub base: usize,
    /// How many slots it has. The values above them are its stack.
    pub slots: usize,
    /// How many open blocks it has.
    pub blocks: usize,
}
