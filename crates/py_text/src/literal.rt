//! What the body of a string literal stands for.
ghost use Rattle.std.specs.Prelude.{◌≡◌, ◌≤◌, ◌%◌, ◌<◌, length, IfOk, IfSome, OnOk, ◌++◌};
ghost use Rattle.std.specs.Str.Parse.{digits_value};
ghost use Rattle.py_text.specs.Escape.{line_ends, after_line_end, octal_digits, octal, hex, sign, signed, escape_at, written, spelled, unescaped, Unescapes};

use crate::digit::digit_value;
use crate::error::TextError;
use py_base::{Bytes, NoMemory, first, skip, split};
use std::alloc::Global;

/// What a backslash and what comes after it stand for.
#[derive(Clone, Copy, Debug, Drop)]
pub struct Escape {
    /// The byte, or none.
    pub byte: Option<u8>,
    /// How many of the bytes after the backslash belong to it.
    pub size: usize,
}

/// What follows a byte: a line feed after a carriage return belongs to the same line end.
fn after_line_end(b: u8, more: &[u8]) -> &[u8]
    ensures { result.now ≡ after_line_end b more.now }
{
    let Some((c, rest)) = split(more) else {
        return more;
    };
    if b == b'\r' && *c == b'\n' {
        rest
    } else {
        more
    }
}

/// The body with CR LF and CR as LF.
fn line_ends(alloc: Global, body: &[u8]) -> Result<Bytes, NoMemory>
    ensures { IfOk result (λ t. t ≡ line_ends body.now) }
{
    let mut text = Bytes::new(alloc);
    let mut rest = body;
    while let Some((b, more)) = split(rest) {
        let byte = if *b == b'\r' { b'\n' } else { *b };
        rest = after_line_end(*b, more);
        text.push(byte)?;
    }
    Ok(text)
}

/// The octal digits at the front, at most three.
fn octal_digits(bytes: &[u8]) -> &[u8]
    ensures { result.now ≡ octal_digits bytes.now }
{
    let most = first(bytes, 3);
    for (i, b) in most.iter().enumerate() {
        if digit_value(*b) >= 8 {
            return &most[..i];
        }
    }
    most
}

/// The low eight bits of what the octal digits write.
fn low_byte(digits: &[u8]) -> u8
    ensures { result ≡ digits_value 8 digits.now % 256 }
{
    let mut value: u32 = 0;
    for b in digits {
        value = (value * 8 + digit_value(*b) as u32) % 256;
    }
    value as u8
}

fn octal(bytes: &[u8]) -> Escape
    ensures { result ≡ octal bytes.now }
{
    let digits = octal_digits(bytes);
    Escape {
        byte: Some(low_byte(digits)),
        size: digits.len(),
    }
}

/// Two hexadecimal digits after `\x`.
fn hex(bytes: &[u8]) -> Option<Escape>
    ensures { result ≡ hex bytes.now }
{
    let (a, rest) = split(bytes)?;
    let (b, _) = split(rest)?;
    let high = digit_value(*a);
    let low = digit_value(*b);
    if high < 16 && low < 16 {
        let byte = Some(high * 16 + low);
        Some(Escape { byte, size: 3 })
    } else {
        None
    }
}

fn sign(b: u8) -> Option<u8>
    ensures { result ≡ sign b }
{
    match b {
        b'\\' | b'\'' | b'"' => Some(b),
        b'a' => Some(7),
        b'b' => Some(8),
        b'f' => Some(12),
        b'n' => Some(10),
        b'r' => Some(13),
        b't' => Some(9),
        b'v' => Some(11),
        _ => None,
    }
}

/// A sign after a backslash; where it has no meaning the backslash stands for itself.
fn signed(b: u8) -> Escape
    ensures { result ≡ signed (sign b) }
{
    match sign(b) {
        Some(c) => Escape {
            byte: Some(c),
            size: 1,
        },
        None => Escape {
            byte: Some(b'\\'),
            size: 0,
        },
    }
}

/// What a backslash stands for before these bytes.
fn escape_at(bytes: &[u8]) -> Option<Escape>
    ensures { result ≡ escape_at bytes.now }
{
    let (b, rest) = split(bytes)?;
    if *b == b'\n' {
        Some(Escape {
            byte: None,
            size: 1,
        })
    } else if *b == b'x' {
        hex(rest)
    } else if digit_value(*b) < 8 {
        Some(octal(bytes))
    } else {
        Some(signed(*b))
    }
}

fn push_written(text: &mut Bytes, byte: Option<u8>) -> Result<(), NoMemory>
    ensures { OnOk result (text.new ≡ text.old ++ written byte) }
{
    if let Some(b) = byte {
        text.push(b)?;
    }
    Ok(())
}

/// What the body stands for, where all line ends are line feeds.
fn spelled(alloc: Global, body: &[u8]) -> Result<Bytes, TextError>
    ensures { Unescapes result (spelled 0 body.now) }
{
    let mut text = Bytes::new(alloc);
    let mut rest = body;
    while let Some((b, more)) = split(rest) {
        if *b == b'\\' {
            let Some(found) = escape_at(more) else {
                return Err(TextError::BadEscape);
            };
            push_written(&mut text, found.byte)?;
            rest = skip(more, found.size);
        } else {
            text.push(*b)?;
            rest = more;
        }
    }
    Ok(text)
}

/// The bytes that the body of a string literal stands for, without its prefix and quotes. CR LF and CR count as LF. In
/// a raw string backslashes stay. Its only refusal is `BadEscape`, and a raw string has none.
pub fn unescape(alloc: Global, body: &[u8], raw: bool) -> Result<Bytes, TextError>
    ensures { Unescapes result (unescaped raw body.now) }
{
    let text = line_ends(alloc, body)?;
    if raw {
        Ok(text)
    } else {
        spelled(alloc, text.as_slice())
    }
}
