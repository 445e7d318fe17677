//! The tokens from a place on.
ghost use Rattle.std.specs.Prelude.{◌≡◌, [], ◌∷◌, MatchOption, Err};
ghost use Rattle.py_atoms.specs.declared.error.ParseError.TheVariants as error;
ghost use Rattle.py_grammar.specs.inner.Lines.{is_newline, is_indent, is_dedent, is_end};
ghost use Rattle.py_atoms.specs.inner.Outcome.{Gives};
ghost use Rattle.py_grammar.specs.Refused.{refusal_of};
ghost use Rattle.py_grammar.specs.inner.Reading.{first, rest, is_op, is_keyword, op_at, keyword_at, name_at, starts, left_at, no_start, comes};
ghost use Rattle.py_grammar.specs.Words.{line_of};
ghost use Rattle.py_tokens.specs.declared.token.TokenKind.TheVariants as k;

use crate::error::ParseError;
use py_base::{Bytes, Construct, split};
use py_grammar::Fault;
use py_tokens::{Other, Token, TokenKind, keyword, operator};
use std::alloc::Global;

/// What was read, and the tokens after it.
pub type Read<'a, T> = Result<(T, &'a [Token]), ParseError>;

/// The tokens after the first.
pub fn rest(tokens: &[Token]) -> &[Token]
    ensures { result.now ≡ rest tokens.now }
{
    match split(tokens) {
        None => tokens,
        Some((_, more)) => more,
    }
}

/// The line of the first token.
pub fn line_of(tokens: &[Token]) -> u32
    ensures { result ≡ line_of tokens.now }
{
    match split(tokens) {
        None => 0,
        Some((token, _)) => token.line,
    }
}

/// The refusal of the first token.
pub fn refused<T>(tokens: &[Token], fault: Fault) -> Result<T, ParseError>
    ensures { result ≡ Err (error.Refused (refusal_of fault (line_of tokens.now))) }
{
    Err(ParseError::Refused(fault.at(line_of(tokens))))
}

fn is_op(kind: &TokenKind, n: u8) -> bool
    ensures { result ≡ is_op n kind.now }
{
    match kind {
        TokenKind::Op(m) => *m == n,
        _ => false,
    }
}

fn is_keyword(kind: &TokenKind, n: u8) -> bool
    ensures { result ≡ is_keyword n kind.now }
{
    match kind {
        TokenKind::Keyword(m) => *m == n,
        _ => false,
    }
}

/// Whether this operator comes next.
pub fn op_next(tokens: &[Token], n: u8) -> bool
    ensures { result ≡ is_op n (first tokens.now) }
{
    match split(tokens) {
        None => false,
        Some((token, _)) => is_op(&token.kind, n),
    }
}

/// Whether this keyword comes next.
pub fn keyword_next(tokens: &[Token], n: u8) -> bool
    ensures { result ≡ is_keyword n (first tokens.now) }
{
    match split(tokens) {
        None => false,
        Some((token, _)) => is_keyword(&token.kind, n),
    }
}

/// The tokens after this operator.
#[tactic(auto, unfolding(py_grammar::specs::inner::Reading::op_at))]
pub fn take_op(tokens: &[Token], n: u8) -> Result<&[Token], ParseError>
    ensures { Gives (λ r. (tt, r.now)) result (op_at n tokens.now) }
{
    if op_next(tokens, n) {
        Ok(rest(tokens))
    } else {
        refused(tokens, Fault::Unexpected)
    }
}

/// The tokens after this keyword.
#[tactic(auto, unfolding(py_grammar::specs::inner::Reading::keyword_at))]
pub fn take_keyword(tokens: &[Token], n: u8) -> Result<&[Token], ParseError>
    ensures { Gives (λ r. (tt, r.now)) result (keyword_at n tokens.now) }
{
    if keyword_next(tokens, n) {
        Ok(rest(tokens))
    } else {
        refused(tokens, Fault::Unexpected)
    }
}

/// The name that comes next.
#[tactic(auto, unfolding(py_grammar::specs::inner::Reading::name_at))]
pub fn take_name<'a>(alloc: Global, tokens: &'a [Token]) -> Read<'a, Bytes>
    ensures { Gives (λ x. (x.0, x.1.now)) result (name_at tokens.now) }
{
    match split(tokens) {
        None => refused(tokens, Fault::Unexpected),
        Some((token, more)) => match &token.kind {
            TokenKind::Name(name) => Ok((name.copy(alloc)?, more)),
            _ => refused(tokens, Fault::Unexpected),
        },
    }
}

fn op_starts(n: u8, op: u8) -> bool
    ensures { result ≡ starts n (k.Op op) }
{
    match op {
        operator::OPEN_ROUND | operator::OPEN_SQUARE | operator::OPEN_BRACE => true,
        operator::PLUS | operator::MINUS | operator::TILDE => 3 <= n,
        _ => false,
    }
}

fn kind_starts(n: u8, kind: &TokenKind) -> bool
    ensures { result ≡ starts n kind.now }
{
    match kind {
        TokenKind::Name(_) => true,
        TokenKind::Int(_) => true,
        TokenKind::Str(_) => true,
        TokenKind::Op(op) => op_starts(n, *op),
        TokenKind::Keyword(word) => 11 <= n && *word == keyword::NOT,
        _ => false,
    }
}

/// Whether an expression of level `n` may begin here.
pub fn starts(n: u8, tokens: &[Token]) -> bool
    ensures { result ≡ starts n (first tokens.now) }
{
    match split(tokens) {
        None => false,
        Some((token, _)) => kind_starts(n, &token.kind),
    }
}

fn kind_left_out(n: u8, kind: &TokenKind) -> Option<Construct>
    ensures { result ≡ left_at n kind.now }
{
    match kind {
        TokenKind::Other(Other::Float) => Some(Construct::Float),
        TokenKind::Other(Other::Long) => Some(Construct::Long),
        TokenKind::Other(Other::Unicode) => Some(Construct::Unicode),
        TokenKind::Op(op) => (*op == operator::BACKQUOTE).then_some(Construct::Backquote),
        TokenKind::Keyword(word) => {
            (14 <= n && *word == keyword::LAMBDA).then_some(Construct::Lambda)
        }
        _ => None,
    }
}

/// The construct, of those that are left out, that begins here, where an expression of level `n` may begin.
pub fn left_out(n: u8, tokens: &[Token]) -> Option<Construct>
    ensures { result ≡ left_at n (first tokens.now) }
{
    match split(tokens) {
        None => None,
        Some((token, _)) => kind_left_out(n, &token.kind),
    }
}

/// Why no expression of level `n` begins here.
pub fn no_start(n: u8, tokens: &[Token]) -> Fault
    ensures { result ≡ no_start (left_at n (first tokens.now)) }
{
    match left_out(n, tokens) {
        Some(construct) => Fault::LeftOut(construct),
        None => Fault::Unexpected,
    }
}

/// Whether an expression of level `n` comes next, or what is left out in its place.
pub fn comes(n: u8, tokens: &[Token]) -> bool
    ensures { result ≡ comes n (first tokens.now) }
{
    starts(n, tokens) || left_out(n, tokens).is_some()
}

fn is_newline(kind: &TokenKind) -> bool
    ensures { result ≡ is_newline kind.now }
{
    match kind {
        TokenKind::Newline => true,
        _ => false,
    }
}

/// Whether a logical line ends here.
pub fn newline_next(tokens: &[Token]) -> bool
    ensures { result ≡ is_newline (first tokens.now) }
{
    match split(tokens) {
        None => false,
        Some((token, _)) => is_newline(&token.kind),
    }
}

fn is_indent(kind: &TokenKind) -> bool
    ensures { result ≡ is_indent kind.now }
{
    match kind {
        TokenKind::Indent => true,
        _ => false,
    }
}

/// Whether a block's lines begin here.
pub fn indent_next(tokens: &[Token]) -> bool
    ensures { result ≡ is_indent (first tokens.now) }
{
    match split(tokens) {
        None => false,
        Some((token, _)) => is_indent(&token.kind),
    }
}

fn is_dedent(kind: &TokenKind) -> bool
    ensures { result ≡ is_dedent kind.now }
{
    match kind {
        TokenKind::Dedent => true,
        _ => false,
    }
}

/// Whether a block ends here.
pub fn dedent_next(tokens: &[Token]) -> bool
    ensures { result ≡ is_dedent (first tokens.now) }
{
    match split(tokens) {
        None => false,
        Some((token, _)) => is_dedent(&token.kind),
    }
}

fn is_end(kind: &TokenKind) -> bool
    ensures { result ≡ is_end kind.now }
{
    match kind {
        TokenKind::End => true,
        _ => false,
    }
}

/// Whether the text ends here, as it does where there are no tokens.
pub fn end_next(tokens: &[Token]) -> bool
    ensures { result ≡ is_end (first tokens.now) }
{
    match split(tokens) {
        None => true,
        Some((token, _)) => is_end(&token.kind),
    }
}
