//! The exception classes by their numbers, and how an operation raises an exception.
ghost use Rattle.std.specs.Prelude.{◌≡◌, MatchResult};
ghost use Rattle.py_data.specs.declared.record.Got.TheVariants.{Raise};
ghost use Rattle.py_data.specs.declared.stop.Stop.TheVariants.{OutOfMemory};
ghost use Rattle.py_data.specs.Fault.{text_fault};

use crate::record::{Fault, Got, With};
use crate::stop::Stop;
use py_base::Bytes;
pub use py_base::exception::{
    ARITHMETIC_ERROR, ASSERTION_ERROR, ATTRIBUTE_ERROR, BASE_EXCEPTION, COUNT, EOF_ERROR,
    EXCEPTION, INDEX_ERROR, KEY_ERROR, LOOKUP_ERROR, MEMORY_ERROR, NAME_ERROR, OBJECT,
    OVERFLOW_ERROR, RUNTIME_ERROR, STANDARD_ERROR, THREAD_ERROR, TYPE_ERROR, UNBOUND_LOCAL_ERROR,
    VALUE_ERROR, ZERO_DIVISION_ERROR,
};
use std::alloc::Global;

/// The answer that raises an exception of that class with a text.
pub fn raise<T>(alloc: Global, exc: u8, text: &[u8]) -> Result<Got<T>, Stop>
    ensures { MatchResult result (λ g. g ≡ Raise (text_fault exc text.now)) (λ e. e ≡ OutOfMemory) }
{
    let text = Bytes::from_slice(alloc, text)?;
    Ok(Got::Raise(Fault {
        exc,
        with: With::Text(text),
    }))
}
