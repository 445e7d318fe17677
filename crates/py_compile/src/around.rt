//! The constructs round a statement.

use crate::plan::Plan;
use sqlite_items::Items;

/// The constructs round a statement, the innermost first: the first label and the hidden slot of each; of a part that a
/// finally body follows, the plan of that body.
#[derive(Clone, Copy)]
pub enum Around<'s, 'a> {
    Body,
    While(usize, &'s Around<'s, 'a>),
    For(usize, &'s Around<'s, 'a>),
    Try(usize, u32, &'s Around<'s, 'a>),
    Clause(usize, u32, &'s Around<'s, 'a>),
    Finally(usize, u32, &'s Items<Plan<'a>>, &'s Around<'s, 'a>),
}
