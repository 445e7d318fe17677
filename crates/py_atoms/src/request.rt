//! What a reader of expressions is asked for.

use py_grammar::Tall;
use py_tree::Expr;

/// What a reader of expressions is asked for.
#[derive(Debug, Drop)]
pub enum Request {
    /// An expression of this level.
    Level(u8),
    /// What a comma after this test begins, or the test where none comes.
    After(Tall<Expr>),
}
