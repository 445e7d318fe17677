//! String literals.
ghost use Rattle.std.specs.Prelude.{◌≡◌, false};
ghost use Rattle.py_text.specs.Escape.{unescaped};
ghost use Rattle.py_tokens.specs.Characters.{byte_of};
ghost use Rattle.py_tokens.specs.Strings.{prefix, prefix_letter, prefix_pair, prefix_of, quotes, quotes_len, quotes_at, ends, body_len, two_hex, bad_line, escape_fault, text_of, closed, literal, quoted, string_at};
ghost use Rattle.py_tokens.specs.Words.{Reads};

use crate::character::{Character, bytes_of};
use crate::class::{Base, Class, holds, next_is};
use crate::error::TokenError;
use crate::number::Found;
use crate::token::{Other, TokenKind};
use py_base::{Refusal, first, skip, split};
use py_text::{TextError, unescape};
use std::alloc::Global;

/// The prefix of a string literal.
#[derive(Clone, Copy, Debug, Drop)]
pub struct Prefix {
    /// Backslashes stay.
    pub raw: bool,
    /// It has a `u`.
    pub unicode: bool,
}

/// The quotes of a string literal.
#[derive(Clone, Copy, Debug, Drop)]
pub struct Quoting {
    pub mark: u8,
    /// Three times.
    pub triple: bool,
}

pub fn prefix_with(raw: bool, unicode: bool) -> Prefix
    ensures { result ≡ prefix raw unicode }
{
    Prefix { raw, unicode }
}

fn prefix_letter(a: Character) -> Option<Prefix>
    ensures { result ≡ prefix_letter a }
{
    if holds(Class::Letter(b'r'), a.byte) {
        Some(prefix_with(true, false))
    } else if holds(Class::Letter(b'b'), a.byte) {
        Some(prefix_with(false, false))
    } else if holds(Class::Letter(b'u'), a.byte) {
        Some(prefix_with(false, true))
    } else {
        None
    }
}

fn prefix_pair(a: Character, b: Character) -> Option<Prefix>
    ensures { result ≡ prefix_pair a b }
{
    if !holds(Class::Letter(b'r'), b.byte) {
        None
    } else if holds(Class::Letter(b'b'), a.byte) {
        Some(prefix_with(true, false))
    } else if holds(Class::Letter(b'u'), a.byte) {
        Some(prefix_with(true, true))
    } else {
        None
    }
}

/// The prefix that a name before quotes is, if it is one.
pub fn prefix_of(name: &[Character]) -> Option<Prefix>
    ensures { result ≡ prefix_of name.now }
{
    let Some((a, after_a)) = split(name) else {
        return None;
    };
    let Some((b, after_b)) = split(after_a) else {
        return prefix_letter(*a);
    };
    match split(after_b) {
        None => prefix_pair(*a, *b),
        Some(_) => None,
    }
}

fn quotes(q: Quoting, chars: &[Character]) -> bool
    ensures { result ≡ quotes q chars.now }
{
    let mark = Class::Byte(q.mark);
    next_is(mark, chars)
        && (!q.triple || (next_is(mark, skip(chars, 1)) && next_is(mark, skip(chars, 2))))
}

fn quotes_len(q: Quoting) -> usize
    ensures { result ≡ quotes_len q }
{
    if q.triple { 3 } else { 1 }
}

fn quotes_at(chars: &[Character]) -> Quoting
    ensures { result ≡ quotes_at chars.now }
{
    match split(chars) {
        None => Quoting {
            mark: 0,
            triple: false,
        },
        Some((c, more)) => {
            let mark = Class::Byte(c.byte);
            Quoting {
                mark: c.byte,
                triple: next_is(mark, more) && next_is(mark, skip(more, 1)),
            }
        }
    }
}

fn ends(q: Quoting, chars: &[Character]) -> bool
    ensures { result ≡ ends q chars.now }
{
    quotes(q, chars) || (!q.triple && next_is(Class::Byte(b'\n'), chars))
}

/// How many characters the body has.
fn body_len(q: Quoting, inner: &[Character]) -> usize
    ensures { result ≡ body_len q false inner.now }
{
    let mut len = 0;
    let mut kept = false;
    let mut rest = inner;
    while let Some((c, more)) = split(rest) {
        if !kept && ends(q, rest) {
            return len;
        }
        kept = !kept && c.byte == b'\\';
        len += 1;
        rest = more;
    }
    len
}

fn two_hex(chars: &[Character]) -> bool
    ensures { result ≡ two_hex chars.now }
{
    let digit = Class::Digit(Base::Sixteen);
    next_is(digit, chars) && next_is(digit, skip(chars, 1))
}

/// The line of the first `\x` without two hexadecimal digits.
fn bad_line(body: &[Character]) -> Option<u32>
    ensures { result ≡ bad_line body.now }
{
    let mut rest = body;
    while let Some((c, more)) = split(rest) {
        let Some((d, after)) = split(more) else {
            return None;
        };
        if c.byte == b'\\' {
            if d.byte == b'x' && !two_hex(after) {
                return Some(c.line);
            }
            rest = after;
        } else {
            rest = more;
        }
    }
    None
}

fn escape_fault(p: Prefix, body: &[Character]) -> Option<u32>
    ensures { result ≡ escape_fault p body.now }
{
    if p.raw || p.unicode {
        None
    } else {
        bad_line(body)
    }
}

/// The token of a literal with this body, before the rest.
fn closed<'a>(
    alloc: Global,
    line: u32,
    p: Prefix,
    body: &[Character],
    rest: &'a [Character],
) -> Found<'a>
    ensures { Reads (λ r. r.now) result (closed line p body.now rest.now) }
{
    if p.unicode {
        return Ok((TokenKind::Other(Other::Unicode), rest));
    }
    let bytes = bytes_of(alloc, body)?;
    match unescape(alloc, bytes.as_slice(), p.raw) {
        Ok(text) => Ok((TokenKind::Str(text), rest)),
        Err(TextError::OutOfMemory) => Err(TokenError::OutOfMemory),
        Err(_) => Err(TokenError::Refused(Refusal::BadEscape { line })),
    }
}

fn quoted<'a>(alloc: Global, line: u32, p: Prefix, q: Quoting, inner: &'a [Character]) -> Found<'a>
    ensures { Reads (λ r. r.now) result (quoted line p q inner.now) }
{
    let len = body_len(q, inner);
    let body = first(inner, len);
    let rest = skip(inner, len);
    if let Some(line) = escape_fault(p, body) {
        Err(TokenError::Refused(Refusal::BadEscape { line }))
    } else if quotes(q, rest) {
        closed(alloc, line, p, body, skip(rest, quotes_len(q)))
    } else {
        Err(TokenError::Refused(Refusal::OpenString { line }))
    }
}

/// The string whose quotes are at the front, and that begins on this line.
#[tactic(auto, unfolding(crate::specs::Strings::string_at))]
pub fn string_at<'a>(alloc: Global, line: u32, p: Prefix, chars: &'a [Character]) -> Found<'a>
    ensures { Reads (λ r. r.now) result (string_at line p chars.now) }
{
    let q = quotes_at(chars);
    quoted(alloc, line, p, q, skip(chars, quotes_len(q)))
}
