//! Tokens.
ghost use Rattle.std.specs.Prelude.{◌≡◌};
ghost use Rattle.py_tokens.specs.Place.{place_of, token_at};

use crate::character::Character;
use py_base::Bytes;

/// What the profile leaves out, and a token by itself shows.
#[derive(Clone, Copy, Debug, Drop, PartialEq, Eq)]
pub enum Other {
    /// A number with a point, an exponent or the suffix `j`.
    Float,
    /// A number with the suffix `l` or `L`.
    Long,
    /// A string whose prefix has a `u`.
    Unicode,
}

/// What a token is.
#[derive(Debug, Drop)]
pub enum TokenKind {
    Name(Bytes),
    /// A constant of `keyword`.
    Keyword(u8),
    /// At most 9,223,372,036,854,775,807.
    Int(i64),
    /// The bytes that the literal stands for.
    Str(Bytes),
    /// A constant of `operator`.
    Op(u8),
    /// The end of a logical line.
    Newline,
    Indent,
    Dedent,
    /// The end of the text.
    End,
    Other(Other),
}

/// A token with its place in the text.
#[derive(Debug, Drop)]
pub struct Token {
    pub kind: TokenKind,
    /// The place of its first byte, from 0. An Indent, a Dedent and End have no bytes.
    pub from: u32,
    /// The place after its last byte.
    pub to: u32,
    /// The line on which it begins, from 1.
    pub line: u32,
}

/// A part of the text: its first byte, the place after its last byte, and the line on which it begins.
#[derive(Clone, Copy, Debug, Drop)]
pub struct Place {
    pub from: u32,
    pub to: u32,
    pub line: u32,
}

pub fn token_at(kind: TokenKind, place: Place) -> Token
    ensures { result ≡ token_at kind place }
{
    Token {
        kind,
        from: place.from,
        to: place.to,
        line: place.line,
    }
}

/// The place of a character.
pub fn place_of(c: &Character) -> Place
    ensures { result ≡ place_of c.now }
{
    Place {
        from: c.from,
        to: c.to,
        line: c.line,
    }
}
