//! Numbers.
ghost use Rattle.std.specs.Prelude.{◌≡◌, ◌<◌, length, map};
ghost use Rattle.std.specs.Str.Parse.{AllDigits, digits_value};
ghost use Rattle.py_tokens.specs.Characters.{byte_of};
ghost use Rattle.py_tokens.specs.Classes.{base_of, after};
ghost use Rattle.py_tokens.specs.Numbers.{int_of, suffixed, prefixed, after_point, exponent, after_exponent, float, whole, unprefixed, after_zero, number_at};
ghost use Rattle.py_tokens.specs.Words.{Reads};

use crate::character::{Character, bytes_of};
use crate::class::{Base, Class, next_is, run_len};
use crate::error::TokenError;
use crate::token::{Other, TokenKind};
use py_base::{Refusal, first, skip};
use py_text::read_int;
use std::alloc::Global;

/// A token's kind, and the characters after it.
pub type Found<'a> = Result<(TokenKind, &'a [Character]), TokenError>;

const TEN: Class = Class::Digit(Base::Ten);

fn after(class: Class, chars: &[Character]) -> &[Character]
    ensures { result.now ≡ after class chars.now }
{
    skip(chars, run_len(class, chars))
}

fn refused<'a>(line: u32) -> Found<'a>
    ensures { result ≡ Err (TokenError.Refused (Refusal.BadCharacter line)) }
{
    Err(TokenError::Refused(Refusal::BadCharacter { line }))
}

/// The integer that the digits write.
fn int_of<'a>(
    alloc: Global,
    line: u32,
    base: Base,
    digits: &[Character],
    rest: &'a [Character],
) -> Found<'a>
    requires some { 0 < length digits.now }
    requires of_base { AllDigits (base_of base) (map byte_of digits.now) }
    ensures { Reads (λ r. r.now) result (int_of line (digits_value (base_of base) (map byte_of digits.now)) rest.now) }
{
    let bytes = bytes_of(alloc, digits)?;
    match read_int(bytes.as_slice(), base.value()) {
        Ok(n) => Ok((TokenKind::Int(n), rest)),
        Err(_) => Err(TokenError::Refused(Refusal::NumberWide { line })),
    }
}

fn suffixed<'a>(
    alloc: Global,
    line: u32,
    base: Base,
    digits: &[Character],
    rest: &'a [Character],
) -> Found<'a>
    requires some { 0 < length digits.now }
    requires of_base { AllDigits (base_of base) (map byte_of digits.now) }
    ensures { Reads (λ r. r.now) result (suffixed line base digits.now rest.now) }
{
    if next_is(Class::Letter(b'l'), rest) {
        Ok((TokenKind::Other(Other::Long), skip(rest, 1)))
    } else {
        int_of(alloc, line, base, digits, rest)
    }
}

/// After a prefix such as `0x`.
fn prefixed<'a>(alloc: Global, line: u32, base: Base, chars: &'a [Character]) -> Found<'a>
    ensures { Reads (λ r. r.now) result (prefixed line base chars.now) }
{
    let digit = Class::Digit(base);
    if next_is(digit, chars) {
        let len = run_len(digit, chars);
        suffixed(alloc, line, base, first(chars, len), skip(chars, len))
    } else {
        refused(line)
    }
}

fn after_point(chars: &[Character]) -> &[Character]
    ensures { result.now ≡ after_point chars.now }
{
    if next_is(Class::Byte(b'.'), chars) {
        after(TEN, skip(chars, 1))
    } else {
        chars
    }
}

/// What follows an exponent whose letter is read; `all`, if it has no digits.
fn exponent<'a>(all: &'a [Character], chars: &'a [Character]) -> &'a [Character]
    ensures { result.now ≡ exponent all.now chars.now }
{
    if next_is(TEN, chars) {
        after(TEN, chars)
    } else if next_is(Class::Sign, chars) && next_is(TEN, skip(chars, 1)) {
        after(TEN, skip(chars, 1))
    } else {
        all
    }
}

fn after_exponent(chars: &[Character]) -> &[Character]
    ensures { result.now ≡ after_exponent chars.now }
{
    if next_is(Class::Letter(b'e'), chars) {
        exponent(chars, skip(chars, 1))
    } else {
        chars
    }
}

fn float<'a>(chars: &'a [Character]) -> Found<'a>
    ensures { Reads (λ r. r.now) result (float chars.now) }
{
    let rest = if next_is(Class::Letter(b'j'), chars) {
        skip(chars, 1)
    } else {
        chars
    };
    Ok((TokenKind::Other(Other::Float), rest))
}

/// An integer of these decimal digits.
fn whole<'a>(alloc: Global, line: u32, digits: &[Character], rest: &'a [Character]) -> Found<'a>
    requires { AllDigits 10 (map byte_of digits.now) }
    ensures { Reads (λ r. r.now) result (whole line digits.now rest.now) }
{
    if digits.is_empty() {
        refused(line)
    } else if next_is(Class::Byte(b'0'), digits) && 1 < digits.len() {
        if run_len(Class::Digit(Base::Eight), digits) == digits.len() {
            suffixed(alloc, line, Base::Eight, digits, rest)
        } else {
            refused(line)
        }
    } else {
        suffixed(alloc, line, Base::Ten, digits, rest)
    }
}

fn unprefixed<'a>(alloc: Global, line: u32, chars: &'a [Character]) -> Found<'a>
    ensures { Reads (λ r. r.now) result (unprefixed line chars.now) }
{
    let len = run_len(TEN, chars);
    let rest = skip(chars, len);
    let more = after_exponent(after_point(rest));
    if more.len() < rest.len() {
        float(more)
    } else if next_is(Class::Letter(b'j'), rest) {
        float(rest)
    } else {
        whole(alloc, line, first(chars, len), rest)
    }
}

/// After a first digit 0.
fn after_zero<'a>(
    alloc: Global,
    line: u32,
    all: &'a [Character],
    chars: &'a [Character],
) -> Found<'a>
    ensures { Reads (λ r. r.now) result (after_zero line all.now chars.now) }
{
    if next_is(Class::Letter(b'x'), chars) {
        prefixed(alloc, line, Base::Sixteen, skip(chars, 1))
    } else if next_is(Class::Letter(b'b'), chars) {
        prefixed(alloc, line, Base::Two, skip(chars, 1))
    } else if next_is(Class::Letter(b'o'), chars) {
        prefixed(alloc, line, Base::Eight, skip(chars, 1))
    } else {
        unprefixed(alloc, line, all)
    }
}

/// The number at the front, on this line.
#[tactic(auto, unfolding(crate::specs::Numbers::number_at))]
pub fn number_at<'a>(alloc: Global, line: u32, chars: &'a [Character]) -> Found<'a>
    ensures { Reads (λ r. r.now) result (number_at line chars.now) }
{
    if next_is(Class::Byte(b'0'), chars) {
        after_zero(alloc, line, chars, skip(chars, 1))
    } else {
        unprefixed(alloc, line, chars)
    }
}
