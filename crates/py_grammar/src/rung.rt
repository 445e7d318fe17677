//! The levels of expressions.

use py_tree::Level;

/// What a level of expressions adds to the level below it.
#[derive(Clone, Copy, Debug, Drop, PartialEq, Eq)]
pub enum Rung {
    /// Trailers after an atom.
    Trailed,
    /// `**`.
    Powered,
    /// `+`, `-` and `~` before an operand.
    Signed,
    /// Operators between operands.
    Chained(Level),
    /// `not`.
    Negated,
    /// `if` and `else` between operands.
    Chosen,
    /// Commas between tests.
    Listed,
}
