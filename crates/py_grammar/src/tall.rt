//! Trees with their heights and forms, as reading builds them.

use py_tree::Form;

/// A tree, or a list of parts, with its height and what it is as a target. The height of a list is that of its highest
/// part, and 0 for none.
#[derive(Debug, Drop)]
pub struct Tall<T> {
    pub tree: T,
    pub tall: usize,
    pub form: Form,
}
