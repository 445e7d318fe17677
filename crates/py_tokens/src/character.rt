//! The characters of a text.
ghost use Rattle.std.specs.Prelude.{◌≡◌, ◌+◌, ◌<◌, ◌^◌, [], ◌∷◌, length, take, drop, map, MatchOption, IfOk};
ghost use Rattle.py_tokens.specs.Characters.{line_end, line_end_size, line_after, has_mark, characters, text_characters, byte_of};

use py_base::{Bytes, Items, NoMemory, skip, split};
use std::alloc::Global;

/// A byte of the text, or a line end.
#[derive(Clone, Copy, Debug, Drop)]
pub struct Character {
    /// The byte; a line feed for each line end.
    pub byte: u8,
    /// Its place in the text, from 0.
    pub from: u32,
    /// The place after it.
    pub to: u32,
    /// Its line, from 1.
    pub line: u32,
}

/// The characters' bytes.
pub fn bytes_of(alloc: Global, chars: &[Character]) -> Result<Bytes, NoMemory>
    ensures { IfOk result (λ bs. bs ≡ map byte_of chars.now) }
{
    let mut bytes = Bytes::new(alloc);
    for c in chars {
        bytes.push(c.byte)?;
    }
    Ok(bytes)
}

fn line_end(b: u8) -> u8
    ensures { result ≡ line_end b }
{
    if b == b'\r' { b'\n' } else { b }
}

fn line_end_size(b: u8, more: &[u8]) -> usize
    ensures { result ≡ line_end_size b more.now }
{
    let Some((c, _)) = split(more) else {
        return 1;
    };
    if b == b'\r' && *c == b'\n' { 2 } else { 1 }
}

fn line_after(byte: u8, line: u64) -> u64
    requires { line < 2 ^ 63 }
    ensures { result ≡ line_after byte line }
{
    if byte == b'\n' { line + 1 } else { line }
}

fn has_mark(text: &[u8]) -> bool
    ensures { result ≡ has_mark text.now }
{
    let Some((a, after_a)) = split(text) else {
        return false;
    };
    let Some((b, after_b)) = split(after_a) else {
        return false;
    };
    let Some((c, _)) = split(after_b) else {
        return false;
    };
    *a == 0xEF && *b == 0xBB && *c == 0xBF
}

/// The characters of these bytes, the first of which stands at the place `at` on line 1.
fn characters(alloc: Global, bytes: &[u8], at: u32) -> Result<Items<Character>, NoMemory>
    requires { at + length bytes.now < 2 ^ 32 }
    ensures { IfOk result (λ cs. cs ≡ characters at 1 bytes.now) }
{
    let mut found = Items::new(alloc);
    let mut rest = bytes;
    let mut from = at as u64;
    let mut line: u64 = 1;
    while let Some((b, more)) = split(rest) {
        let byte = line_end(*b);
        let size = line_end_size(*b, more);
        let to = from + size as u64;
        found.push(Character {
            byte,
            from: from as u32,
            to: to as u32,
            line: line as u32,
        })?;
        rest = skip(rest, size);
        line = line_after(byte, line);
        from = to;
    }
    Ok(found)
}

/// The characters of a text, after a byte order mark.
#[tactic(auto, unfolding(crate::specs::Characters::text_characters))]
pub fn text_characters(alloc: Global, text: &[u8]) -> Result<Items<Character>, NoMemory>
    requires { length text.now < 2 ^ 32 }
    ensures { IfOk result (λ cs. cs ≡ text_characters text.now) }
{
    if has_mark(text) {
        characters(alloc, skip(text, 3), 3)
    } else {
        characters(alloc, text, 0)
    }
}
