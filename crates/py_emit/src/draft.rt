//! Instructions whose jumps name labels, and the list of them that grows.

use py_code::Instr;

/// The kinds of instructions that name a place.
#[derive(Clone, Copy)]
pub enum Far {
    Always,
    IfFalse,
    KeepingFalse,
    KeepingTrue,
    Nexting,
    Trying,
}

/// An instruction, or one that names a label.
#[derive(Clone, Copy)]
pub enum Draft {
    Op(Instr),
    To(Far, usize),
}
