//! The code of instructions that call, over any view: each function meets the row of `py_frames` that has its name.
#![tactic(auto)]

mod binding;
mod calls;
mod class_calls;
mod instances;
mod named;
mod starts;

pub use binding::{count_in, defaulted_row, plain_slots};
pub use calls::{answered, record_call, value_call};
pub use class_calls::{MOST_FRAMES, class_call, entered_row, exception_class_row};
pub use named::push_unset;
