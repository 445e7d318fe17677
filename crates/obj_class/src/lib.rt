//! Classes, attributes and exceptions over any view.
#![tactic(auto)]

mod args;
mod attributes;
mod bases;
mod exceptions;
mod inheritance;
mod laws;
mod lookup;
mod making;
mod named;
mod own;
mod roots;
mod telling;

pub use attributes::{attr, missing};
pub use bases::is_sub;
pub use exceptions::{make_fault, with_args};
pub use inheritance::{held, inherited};
pub use laws::{attribute_law, below_law, holds_law, own_law, roots_law, telling_law};
pub use lookup::{Found, find_attr};
pub use making::{make_record, make_text, one, three, two};
pub use named::method_of;
pub use own::{del_attr, set_attr};
pub use roots::{make_roots, own_name, root_base};
pub use telling::text;
