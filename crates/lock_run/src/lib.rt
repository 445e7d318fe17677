//! The one-lock machine: threads of a client that take turns over one heap.
#![tactic(auto)]

mod client;
mod given;
mod laws;
mod machine;
mod plain;
mod script;
mod space;
mod threads;
mod turn;

pub use client::{Client, Life, Outcome};
pub use laws::{accept_law, run_law, steps_law, turn_law};
pub use machine::LockRun;
pub use plain::PlainView;
pub use script::{Act, Acts, Script, ScriptState};
pub use space::Space;
pub use turn::{History, Turn, TurnFault, TurnWhy};
