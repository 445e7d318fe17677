//! Counts as numbers of 32 bits.
ghost use Rattle.std.specs.Prelude.{◌≡◌, ◌+◌, IfOk};

use py_base::NoMemory;
use std::alloc::AllocError;

/// A count as a number of 32 bits. No list in memory is too long for it.
pub fn to_u32(n: usize) -> Result<u32, NoMemory>
    ensures same { IfOk result (λ c. c ≡ n) }
{
    match u32::try_from(n) {
        Ok(c) => Ok(c),
        Err(_) => Err(AllocError),
    }
}

/// The sum of two counts. No list in memory is so long that it would not fit.
pub fn sum(a: u32, b: u32) -> Result<u32, NoMemory>
    ensures { IfOk result (λ n. n ≡ a + b) }
{
    match a.checked_add(b) {
        Some(n) => Ok(n),
        None => Err(AllocError),
    }
}
