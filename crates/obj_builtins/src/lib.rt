//! The builtins over any view: the functions, the types that make values, `raw_input`, and the call of any builtin.
#![tactic(auto)]

mod arguments;
mod best;
mod call_laws;
mod calling;
mod functions;
mod gathering;
mod input;
mod kinds;
mod laws;
mod lengths;
mod literals;
mod numbers;
mod ranges;
mod sums;
mod texts;

pub use call_laws::{call_law, call_quiet_law, input_law};
pub use calling::call;
pub use functions::function;
pub use laws::{best_law, holds_law, instance_law, int_law, ranges_law, sum_law};
pub use obj_threads::Answer;
