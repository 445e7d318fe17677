//! The outside of a program: what loads a script, gives input and takes output, as traits with contracts.
#![tactic(auto)]

mod device;
mod error;
mod fail;
mod memory;
mod piece;
mod sure;

pub use device::{Gate, Loader, Sink, Source};
pub use error::{LoadError, PutError, TakeError};
pub use fail::Fail;
pub use memory::{MemLoader, MemSink, MemSource};
pub use sure::{OpenGate, SureLoader, SureSink, SureSource};
