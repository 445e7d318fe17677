//! Integers as digits.
ghost use Rattle.std.specs.Prelude.{◌≡◌, ◌<◌, length, IfOk};
ghost use Rattle.std.specs.Fmt.{signed_decimal};
ghost use Rattle.std.specs.Str.Parse.{AllDigits};
ghost use Rattle.py_text.specs.Int.{ReadsInt, IsWrittenAs};

use crate::digit::digit_value;
use crate::error::TextError;
use py_base::{Bytes, NoMemory};
use std::alloc::Global;

const MOST: u128 = i64::MAX as u128;

/// The integer that the digits write in this base, most significant first, with the letters of either case as the
/// digits from 10 on. A literal has base 2, 8, 10 or 16. Its only error is `Wide`, and it takes no memory.
pub fn read_int(digits: &[u8], base: u8) -> Result<i64, TextError>
    requires some { 0 < length digits.now }
    requires of_base { AllDigits base digits.now }
    ensures { ReadsInt result base digits.now }
{
    let mut value: u128 = 0;
    for b in digits {
        let next = value * base as u128 + digit_value(*b) as u128;
        if next > MOST {
            return Err(TextError::Wide);
        }
        value = next;
    }
    Ok(value as i64)
}

/// The decimal digits of the integer, after a minus sign if it is below zero. `read_int` reads the digits back.
pub fn print_int(alloc: Global, n: i64) -> Result<Bytes, NoMemory>
    ensures text { IfOk result (λ t. t ≡ signed_decimal n) }
    ensures back { IfOk result (IsWrittenAs n) }
{
    let text = format!(in alloc; "{n}")?;
    Bytes::from_slice(alloc, text.as_bytes())
}
