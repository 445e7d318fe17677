//! The words of a text: its tokens, and what stands between them.
ghost use Rattle.std.specs.Prelude.{◌≡◌, map};
ghost use Rattle.std.specs.Str.{bytes_eq};
ghost use Rattle.py_tokens.specs.Classes.{after};
ghost use Rattle.py_tokens.specs.Names.{word_number, name_kind, named, name_at, begins, operator_at};
ghost use Rattle.py_tokens.specs.Tables.{keywords, operators};
ghost use Rattle.py_tokens.specs.Numbers.{Read};
ghost use Rattle.py_tokens.specs.Words.{Reads, place_before, token_word, bracketed, operator_word, joint, token_front, word_at};

use crate::character::{Character, bytes_of};
use crate::class::{Base, Class, holds, next_is, run_len};
use crate::error::TokenError;
use crate::keyword::KEYWORDS;
use crate::literal::{prefix_of, prefix_with, string_at};
use crate::number::{Found, number_at};
use crate::operator;
use crate::operator::OPERATORS;
use crate::token::{Place, Token, TokenKind, place_of, token_at};
use py_base::{Bytes, Refusal, first, skip, split};
use std::alloc::Global;

/// A piece of a text.
#[derive(Debug, Drop)]
pub enum Word {
    /// Space, tab or form feed.
    Blank(u8),
    Comment,
    /// A backslash at this place, and the line end after it.
    Joint(Place),
    LineEnd(Place),
    /// An opening bracket.
    Opens(Token),
    /// A closing bracket.
    Closes(Token),
    /// Any other token.
    Plain(Token),
}

/// A word, and the characters after it.
pub type Piece<'a> = Result<(Word, &'a [Character]), TokenError>;

fn same(a: &[u8], b: &[u8]) -> bool
    ensures { result ≡ bytes_eq a.now b.now }
{
    a == b
}

/// The number of the word in the table.
fn word_number(mut table: &[(&[u8], u8)], name: &[u8]) -> Option<u8>
    ensures { result ≡ word_number (map (λ w. (w.0.now, w.1)) table.entry.now) name.now }
{
    while let [entry, rest @ ..] = table {
        if same(entry.0, name) {
            return Some(entry.1);
        }
        table = rest;
    }
    None
}

fn keyword_number(name: &[u8]) -> Option<u8>
    ensures { result ≡ word_number keywords name.now }
{
    word_number(&KEYWORDS, name)
}

fn name_kind(name: Bytes) -> TokenKind
    ensures { result ≡ name_kind (word_number keywords name) name }
{
    match keyword_number(name.as_slice()) {
        Some(n) => TokenKind::Keyword(n),
        None => TokenKind::Name(name),
    }
}

/// The name at the front, or the string whose prefix it is.
#[tactic(auto, unfolding(crate::specs::Names::name_at))]
fn name_at<'a>(alloc: Global, line: u32, chars: &'a [Character]) -> Found<'a>
    ensures { Reads (λ r. r.now) result (name_at line chars.now) }
{
    let len = run_len(Class::Name, chars);
    let name = first(chars, len);
    let rest = skip(chars, len);
    let found = if next_is(Class::Quote, rest) {
        prefix_of(name)
    } else {
        None
    };
    match found {
        Some(p) => string_at(alloc, line, p, rest),
        None => Ok((name_kind(bytes_of(alloc, name)?), rest)),
    }
}

/// The characters begin with these bytes.
fn begins(bytes: &[u8], chars: &[Character]) -> bool
    ensures { result ≡ begins bytes.now chars.now }
{
    let mut left = bytes;
    let mut rest = chars;
    while let Some((b, more)) = split(left) {
        if !next_is(Class::Byte(*b), rest) {
            return false;
        }
        rest = skip(rest, 1);
        left = more;
    }
    true
}

/// The number of the first operator of the table that is at the front, and how many characters it has.
fn first_operator(mut table: &[(&[u8], u8)], chars: &[Character]) -> Option<(u8, usize)>
    ensures { result ≡ operator_at (map (λ o. (o.0.now, o.1)) table.entry.now) chars.now }
{
    while let [entry, rest @ ..] = table {
        if begins(entry.0, chars) {
            return Some((entry.1, entry.0.len()));
        }
        table = rest;
    }
    None
}

fn operator_at(chars: &[Character]) -> Option<(u8, usize)>
    ensures { result ≡ operator_at operators chars.now }
{
    first_operator(&OPERATORS, chars)
}

/// The place that begins with `c` and ends before the rest.
fn place_before(size: u32, c: Character, rest: &[Character]) -> Place
    ensures { result ≡ place_before size c rest.now }
{
    let to = match split(rest) {
        Some((d, _)) => d.from,
        None => size,
    };
    Place {
        from: c.from,
        to,
        line: c.line,
    }
}

fn token_word<'a>(size: u32, c: Character, found: Found<'a>) -> Piece<'a>
    ensures { (r : Read) → Reads (λ x. x.now) found.entry r → Reads (λ x. x.now) result (token_word size c r) }
{
    match found {
        Ok((kind, rest)) => {
            let place = place_before(size, c, rest);
            Ok((Word::Plain(token_at(kind, place)), rest))
        }
        Err(e) => Err(e),
    }
}

fn bracketed(n: u8, t: Token) -> Word
    ensures { result ≡ bracketed n t }
{
    match n {
        operator::OPEN_ROUND | operator::OPEN_SQUARE | operator::OPEN_BRACE => Word::Opens(t),
        operator::CLOSE_ROUND | operator::CLOSE_SQUARE | operator::CLOSE_BRACE => Word::Closes(t),
        _ => Word::Plain(t),
    }
}

fn operator_word<'a>(size: u32, c: Character, all: &'a [Character]) -> Piece<'a>
    ensures { Reads (λ r. r.now) result (operator_word size c all.now (operator_at operators all.now)) }
{
    let Some((n, len)) = operator_at(all) else {
        return Err(TokenError::Refused(Refusal::BadCharacter { line: c.line }));
    };
    let rest = skip(all, len);
    let token = token_at(TokenKind::Op(n), place_before(size, c, rest));
    Ok((bracketed(n, token), rest))
}

fn joint<'a>(c: Character, more: &'a [Character]) -> Piece<'a>
    ensures { Reads (λ r. r.now) result (joint c more.now) }
{
    if next_is(Class::Byte(b'\n'), more) {
        Ok((Word::Joint(place_of(&c)), skip(more, 1)))
    } else {
        Err(TokenError::Refused(Refusal::BadCharacter { line: c.line }))
    }
}

/// The token at the front of `all`, whose first character is `c`, and whose others are `more`.
fn token_front<'a>(
    alloc: Global,
    size: u32,
    c: Character,
    more: &[Character],
    all: &'a [Character],
) -> Piece<'a>
    ensures { Reads (λ r. r.now) result (token_front size c more.now all.now) }
{
    let digit = Class::Digit(Base::Ten);
    if holds(Class::NameStart, c.byte) {
        token_word(size, c, name_at(alloc, c.line, all))
    } else if holds(Class::Quote, c.byte) {
        let none = prefix_with(false, false);
        token_word(size, c, string_at(alloc, c.line, none, all))
    } else if holds(digit, c.byte) || (c.byte == b'.' && next_is(digit, more)) {
        token_word(size, c, number_at(alloc, c.line, all))
    } else {
        operator_word(size, c, all)
    }
}

/// The word at the front, of a text of this size in bytes.
#[tactic(auto, unfolding(crate::specs::Words::word_at))]
pub fn word_at<'a>(alloc: Global, size: u32, chars: &'a [Character]) -> Piece<'a>
    ensures { Reads (λ r. r.now) result (word_at size chars.now) }
{
    let Some((c, more)) = split(chars) else {
        return Ok((Word::Comment, chars));
    };
    let c = *c;
    if c.byte == b'\n' {
        Ok((Word::LineEnd(place_of(&c)), more))
    } else if holds(Class::Blank, c.byte) {
        Ok((Word::Blank(c.byte), more))
    } else if c.byte == b'#' {
        Ok((Word::Comment, skip(more, run_len(Class::InLine, more))))
    } else if c.byte == b'\\' {
        joint(c, more)
    } else {
        token_front(alloc, size, c, more, chars)
    }
}
