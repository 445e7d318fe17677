//! The operators over any view: of one operand, of two, in place, and comparing ones.
#![tactic(auto)]

mod calculate;
mod comparing;
mod contain;
mod extending;
mod format;
mod laws;
mod operand;
mod operate;
mod operator;
mod sequence;
mod shift;

pub use comparing::compare;
pub use extending::{extend, in_place};
pub use format::number_in;
pub use laws::{division_law, holds_law, join_law, steady_law};
pub use obj_class::text;
pub use obj_nest::{equal, order, truth};
pub use operate::{binary, unary};
pub use sequence::{make_items, values_of};
