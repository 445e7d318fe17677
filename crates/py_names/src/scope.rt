//! Scopes.

use py_base::Bytes;
use sqlite_items::Items;

/// Names, or other texts.
pub type Texts = Items<Bytes>;

/// The scopes of a module's bodies, in the order of the text: first the module's own, then that of each `def` and
/// `class`, an outer body before those inside it.
pub type Scopes = Items<Scope>;

/// The names of a body: of a module, a function or a class. Each name that the body mentions as a variable, but for
/// `None`, is in one of the two lists, once, in the order of first mention; parameters are mentioned first.
#[derive(Debug, Drop)]
pub struct Scope {
    /// The names that the body binds, but for those that a `global` in it names. A module has none.
    pub locals: Texts,
    /// All others: a function's or a class body's names that are found in the module or among the builtins.
    pub globals: Texts,
}
