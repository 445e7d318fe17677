//! Codes and programs.

use crate::instr::Instr;
use py_base::{Bytes, Kind};
use sqlite_items::Items;

/// Names, or other texts.
pub type Texts = Items<Bytes>;

/// The instructions of a code.
pub type Instrs = Items<Instr>;

/// A line for each instruction, from 1.
pub type Lines = Items<u32>;

/// The numbers of the roots that are a call's keywords.
pub type Keys = Items<u32>;

/// The keyword lists of a code. The first is empty.
pub type KeyLists = Items<Keys>;

/// The codes of a program.
pub type Codes = Items<Code>;

/// The roots of a program.
pub type Roots = Items<Root>;

/// A record that a program's first step makes, and that its codes name by its number.
#[derive(Debug, Drop)]
pub struct Root {
    /// `Cell`, `Class` or `Str`.
    pub kind: Kind,
    /// The number of a class (`py_base::exception`); 0 for the other kinds.
    pub number: u8,
    /// A string's bytes, or the name of a global; none for the count of threads and for a class.
    pub bytes: Bytes,
}

/// The code of a module, a function or a class body.
#[derive(Debug, Drop)]
pub struct Code {
    /// The name of its `def` or `class`; none for a module.
    pub name: Bytes,
    pub instrs: Instrs,
    pub lines: Lines,
    /// The names of its slots, the parameters first. A hidden slot has an empty name.
    pub slots: Texts,
    /// How many parameters it has.
    pub params: u32,
    pub keys: KeyLists,
}

/// A program: the module's code, then those of each `def` and `class` in the order of the text, and the roots. These
/// are the cell of the count of threads, the classes, the strings and the cells of the global names.
#[derive(Debug, Drop)]
pub struct Program {
    pub codes: Codes,
    pub roots: Roots,
}
