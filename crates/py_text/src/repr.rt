//! The text of a string in `repr`.
ghost use Rattle.std.specs.Prelude.{◌≡◌, ◌==◌, ◌<◌, ◌/◌, ◌%◌, ◌++◌, [], ◌∷◌, Some, false, IfOk, OnOk};
ghost use Rattle.std.specs.Char.{digit_char};
ghost use Rattle.std.specs.List.{list_any};
ghost use Rattle.py_text.specs.Escape.{unescaped};
ghost use Rattle.py_text.specs.Repr.{quote_of, shown, repr_of, between_quotes};

use py_base::{Bytes, NoMemory};
use std::alloc::Global;

fn has_byte(bytes: &[u8], b: u8) -> bool
    ensures { result ≡ list_any (λ x. x == b) bytes.now }
{
    for x in bytes {
        if *x == b {
            return true;
        }
    }
    false
}

fn quote_of(bytes: &[u8]) -> u8
    ensures { result ≡ quote_of bytes.now }
{
    if has_byte(bytes, b'\'') && !has_byte(bytes, b'"') {
        b'"'
    } else {
        b'\''
    }
}

fn digit_char(d: u8) -> u8
    requires { d < 16 }
    ensures { result ≡ digit_char d }
{
    if d < 10 { b'0' + d } else { b'a' - 10 + d }
}

/// A backslash and a sign.
fn push_sign(text: &mut Bytes, sign: u8) -> Result<(), NoMemory>
    ensures { OnOk result (text.new ≡ text.old ++ 92 ∷ sign ∷ []) }
{
    text.push(b'\\')?;
    text.push(sign)
}

/// A backslash, `x` and two digits.
fn push_hex(text: &mut Bytes, b: u8) -> Result<(), NoMemory>
    ensures { OnOk result (text.new ≡ text.old ++ 92 ∷ 120 ∷ digit_char (b / 16) ∷ digit_char (b % 16) ∷ []) }
{
    push_sign(text, b'x')?;
    text.push(digit_char(b / 16))?;
    text.push(digit_char(b % 16))
}

/// One byte as it stands between such quotes.
fn push_shown(text: &mut Bytes, quote: u8, b: u8) -> Result<(), NoMemory>
    ensures { OnOk result (text.new ≡ text.old ++ shown quote b) }
{
    if b == b'\\' || b == quote {
        push_sign(text, b)
    } else if b == b'\t' {
        push_sign(text, b't')
    } else if b == b'\n' {
        push_sign(text, b'n')
    } else if b == b'\r' {
        push_sign(text, b'r')
    } else if b < 32 || 126 < b {
        push_hex(text, b)
    } else {
        text.push(b)
    }
}

fn quoted(alloc: Global, b: &[u8]) -> Result<Bytes, NoMemory>
    ensures { IfOk result (λ t. t ≡ repr_of b.now) }
{
    let quote = quote_of(b);
    let mut text = Bytes::new(alloc);
    text.push(quote)?;
    for byte in b {
        push_shown(&mut text, quote, *byte)?;
    }
    text.push(quote)?;
    Ok(text)
}

/// The text of the bytes as a string literal. Between its quotes stands what `unescape` reads back as the bytes.
pub fn repr_bytes(alloc: Global, b: &[u8]) -> Result<Bytes, NoMemory>
    ensures text { IfOk result (λ t. t ≡ repr_of b.now) }
    ensures back { IfOk result (λ t. unescaped false (between_quotes t) ≡ Some b.now) }
{
    quoted(alloc, b)
}
