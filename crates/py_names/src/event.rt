//! What the text of a module says about names, in the order of the text.

use py_base::Bytes;

/// Whose statements a body has.
#[derive(Clone, Copy, Debug, Drop, PartialEq, Eq)]
pub enum BodyKind {
    Module,
    Function,
    Class,
}

/// What a place in the text says. Lines are those of the simple statement or the clause, counted from 1.
#[derive(Debug, Drop)]
pub enum Event {
    /// A body begins.
    Enter(BodyKind),
    /// The innermost body ends.
    Leave,
    /// A parameter of the innermost body, right after its beginning.
    Takes(Bytes),
    /// A variable is read.
    Uses(u32, Bytes),
    /// A variable is bound or deleted.
    Binds(u32, Bytes),
    /// A `global` names a variable.
    Declares(u32, Bytes),
    /// A statement, or the name `None`, that may not stand here.
    Misplaced(u32),
    /// A parameter or a keyword that stands once more in its list.
    Doubled(u32),
}
