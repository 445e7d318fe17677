//! Atoms.
ghost use Rattle.std.specs.Prelude.{◌≡◌, ◌+◌, ◌<◌, ◌≤◌, IfOk, MatchOption, [], None, Some};
ghost use Rattle.py_atoms.specs.inner.Asking.{Answers};
ghost use Rattle.py_atoms.specs.inner.Outcome.{Gives};
ghost use Rattle.py_grammar.specs.inner.Reading.{reads, first, string_of, is_unicode, strings_at, pairs_at, round_at, round_close, list_at, list_close, dict_at, dict_value, dict_close, atom_of, atom_at};
ghost use Rattle.py_grammar.specs.inner.Tall.{plain, push_pair};
ghost use Rattle.py_tokens.specs.declared.token.TokenKind.TheVariants as k;

use crate::cursor::{Read, comes, keyword_next, no_start, op_next, refused, rest, take_op};
use crate::error::ParseError;
use crate::node;
use crate::reader::{Reader, TEST};
use crate::request::Request;
use crate::tall::{HEIGHT_LIMIT, no_tests, plain, push_pair};
use py_base::{Bytes, Construct, split};
use py_grammar::{Fault, Tall};
use py_tokens::{Other, Token, TokenKind, keyword, operator};
use py_tree::{Expr, Pair};
use sqlite_items::Items;
use std::alloc::Global;

fn string_of(kind: &TokenKind) -> Option<&Bytes>
    ensures { MatchOption result (string_of kind.now ≡ None) (λ s. string_of kind.now ≡ Some s.now) }
{
    match kind {
        TokenKind::Str(bytes) => Some(bytes),
        _ => None,
    }
}

fn string_next(tokens: &[Token]) -> Option<&Bytes>
    ensures { MatchOption result (string_of (first tokens.now) ≡ None)
        (λ s. string_of (first tokens.now) ≡ Some s.now) }
{
    match split(tokens) {
        None => None,
        Some((token, _)) => string_of(&token.kind),
    }
}

fn is_unicode(kind: &TokenKind) -> bool
    ensures { result ≡ is_unicode kind.now }
{
    match kind {
        TokenKind::Other(Other::Unicode) => true,
        _ => false,
    }
}

fn unicode_next(tokens: &[Token]) -> bool
    ensures { result ≡ is_unicode (first tokens.now) }
{
    match split(tokens) {
        None => false,
        Some((token, _)) => is_unicode(&token.kind),
    }
}

/// Strings after one that was read, joined to it.
#[tactic(auto, unfolding(py_grammar::specs::inner::Reading::strings_at))]
fn strings<'a>(alloc: Global, turns: usize, first: &Bytes, tokens: &'a [Token]) -> Read<'a, Bytes>
    ensures { Gives (λ x. (x.0, x.1.now)) result (strings_at turns first.now tokens.now) }
{
    let mut found = first.copy(alloc)?;
    let mut more = tokens;
    'turns: for _turn in 0..turns {
        match string_next(more) {
            Some(bytes) => found.extend_from_slice(bytes.as_slice())?,
            None => {
                if unicode_next(more) {
                    return refused(more, Fault::LeftOut(Construct::Unicode));
                }
                return Ok((found, more));
            }
        }
        more = rest(more);
    }
    Ok((found, more))
}

impl<F: for<'b> Fn(Request, &'b [Token]) -> Result<(Tall<Expr>, &'b [Token]), ParseError>> Reader<
    F,
> {
    /// After `(` and a test.
    fn round_close<'a>(&self, test: Tall<Expr>, tokens: &'a [Token]) -> Read<'a, Tall<Expr>>
        requires calls { F.IsAlwaysCallable self.now.inner }
        requires answers { Answers (F.post self.now.inner) self.now.turns self.now.budget }
        requires small { self.now.budget < HEIGHT_LIMIT }
        requires low { test.tall ≤ self.now.budget }
        ensures value { Gives (λ x. (x.0, x.1.now)) result
            (round_close (reads self.now.turns self.now.budget) self.now.turns (test, tokens.now)) }
        ensures fits { IfOk result (λ x. x.0.tall ≤ self.now.budget + 1) }
    {
        if op_next(tokens, operator::CLOSE_ROUND) {
            return Ok((node::group(self.alloc, test)?, rest(tokens)));
        }
        if op_next(tokens, operator::COMMA) {
            let ((tests, _), more) = self.tests(test, tokens)?;
            let more = take_op(more, operator::CLOSE_ROUND)?;
            return Ok((node::tuple(tests), more));
        }
        if keyword_next(tokens, keyword::FOR) {
            return refused(tokens, Fault::LeftOut(Construct::Comprehension));
        }
        refused(tokens, Fault::Unexpected)
    }

    /// After `(`.
    #[tactic(auto, unfolding(py_grammar::specs::inner::Reading::round_at))]
    fn round<'a>(&self, tokens: &'a [Token]) -> Read<'a, Tall<Expr>>
        requires calls { F.IsAlwaysCallable self.now.inner }
        requires answers { Answers (F.post self.now.inner) self.now.turns self.now.budget }
        requires small { self.now.budget < HEIGHT_LIMIT }
        ensures value { Gives (λ x. (x.0, x.1.now)) result
            (round_at (reads self.now.turns self.now.budget) self.now.turns tokens.now) }
        ensures fits { IfOk result (λ x. x.0.tall ≤ self.now.budget + 1) }
    {
        if op_next(tokens, operator::CLOSE_ROUND) {
            return Ok((node::unit(self.alloc), rest(tokens)));
        }
        if keyword_next(tokens, keyword::YIELD) {
            return refused(tokens, Fault::LeftOut(Construct::Generator));
        }
        let (test, more) = self.read(TEST, tokens)?;
        self.round_close(test, more)
    }

    /// After `[` and a test.
    fn list_close<'a>(&self, test: Tall<Expr>, tokens: &'a [Token]) -> Read<'a, Tall<Expr>>
        requires calls { F.IsAlwaysCallable self.now.inner }
        requires answers { Answers (F.post self.now.inner) self.now.turns self.now.budget }
        requires small { self.now.budget < HEIGHT_LIMIT }
        requires low { test.tall ≤ self.now.budget }
        ensures value { Gives (λ x. (x.0, x.1.now)) result
            (list_close (reads self.now.turns self.now.budget) self.now.turns (test, tokens.now)) }
        ensures fits { IfOk result (λ x. x.0.tall ≤ self.now.budget + 1) }
    {
        if keyword_next(tokens, keyword::FOR) {
            return refused(tokens, Fault::LeftOut(Construct::Comprehension));
        }
        let ((tests, _), more) = self.tests(test, tokens)?;
        let more = take_op(more, operator::CLOSE_SQUARE)?;
        Ok((node::list(tests), more))
    }

    /// After `[`.
    #[tactic(auto, unfolding(py_grammar::specs::inner::Reading::list_at))]
    fn list<'a>(&self, tokens: &'a [Token]) -> Read<'a, Tall<Expr>>
        requires calls { F.IsAlwaysCallable self.now.inner }
        requires answers { Answers (F.post self.now.inner) self.now.turns self.now.budget }
        requires small { self.now.budget < HEIGHT_LIMIT }
        ensures value { Gives (λ x. (x.0, x.1.now)) result
            (list_at (reads self.now.turns self.now.budget) self.now.turns tokens.now) }
        ensures fits { IfOk result (λ x. x.0.tall ≤ self.now.budget + 1) }
    {
        if op_next(tokens, operator::CLOSE_SQUARE) {
            return Ok((node::list(no_tests(self.alloc)), rest(tokens)));
        }
        let (test, more) = self.read(TEST, tokens)?;
        self.list_close(test, more)
    }

    /// Further pairs, each after a comma, which may also trail.
    #[tactic(auto, unfolding(py_grammar::specs::inner::Reading::pairs_at))]
    fn pairs<'a>(
        &self,
        key: Tall<Expr>,
        value: Tall<Expr>,
        tokens: &'a [Token],
    ) -> Read<'a, Tall<Items<Pair>>>
        requires calls { F.IsAlwaysCallable self.now.inner }
        requires answers { Answers (F.post self.now.inner) self.now.turns self.now.budget }
        requires low_key { key.tall ≤ self.now.budget }
        requires low_value { value.tall ≤ self.now.budget }
        ensures value { Gives (λ x. (x.0, x.1.now)) result
            (pairs_at ((reads self.now.turns self.now.budget).read TEST)
            self.now.turns (push_pair (plain [] 0) key value) tokens.now) }
        ensures fits { IfOk result (λ x. x.0.tall ≤ self.now.budget) }
    {
        let mut found = plain(Items::new(self.alloc), 0);
        push_pair(&mut found, key, value)?;
        let mut more = tokens;
        'turns: for _turn in 0..self.turns {
            if !op_next(more, operator::COMMA) {
                return Ok((found, more));
            }
            more = rest(more);
            if !comes(TEST, more) {
                return Ok((found, more));
            }
            let (key, after) = self.read(TEST, more)?;
            let after = take_op(after, operator::COLON)?;
            let (value, after) = self.read(TEST, after)?;
            push_pair(&mut found, key, value)?;
            more = after;
        }
        Ok((found, more))
    }

    /// After `{` and the first pair.
    fn dict_close<'a>(
        &self,
        key: Tall<Expr>,
        value: Tall<Expr>,
        tokens: &'a [Token],
    ) -> Read<'a, Tall<Expr>>
        requires calls { F.IsAlwaysCallable self.now.inner }
        requires answers { Answers (F.post self.now.inner) self.now.turns self.now.budget }
        requires small { self.now.budget < HEIGHT_LIMIT }
        requires low_key { key.tall ≤ self.now.budget }
        requires low_value { value.tall ≤ self.now.budget }
        ensures value { Gives (λ x. (x.0, x.1.now)) result
            (dict_close (reads self.now.turns self.now.budget) self.now.turns key (value, tokens.now)) }
        ensures fits { IfOk result (λ x. x.0.tall ≤ self.now.budget + 1) }
    {
        if keyword_next(tokens, keyword::FOR) {
            return refused(tokens, Fault::LeftOut(Construct::Comprehension));
        }
        let (pairs, more) = self.pairs(key, value, tokens)?;
        let more = take_op(more, operator::CLOSE_BRACE)?;
        Ok((node::dict(pairs), more))
    }

    /// After `{` and a test.
    fn dict_value<'a>(&self, key: Tall<Expr>, tokens: &'a [Token]) -> Read<'a, Tall<Expr>>
        requires calls { F.IsAlwaysCallable self.now.inner }
        requires answers { Answers (F.post self.now.inner) self.now.turns self.now.budget }
        requires small { self.now.budget < HEIGHT_LIMIT }
        requires low { key.tall ≤ self.now.budget }
        ensures value { Gives (λ x. (x.0, x.1.now)) result
            (dict_value (reads self.now.turns self.now.budget) self.now.turns (key, tokens.now)) }
        ensures fits { IfOk result (λ x. x.0.tall ≤ self.now.budget + 1) }
    {
        if op_next(tokens, operator::COLON) {
            let (value, more) = self.read(TEST, rest(tokens))?;
            return self.dict_close(key, value, more);
        }
        if op_next(tokens, operator::COMMA) || op_next(tokens, operator::CLOSE_BRACE) {
            return refused(tokens, Fault::LeftOut(Construct::Set));
        }
        if keyword_next(tokens, keyword::FOR) {
            return refused(tokens, Fault::LeftOut(Construct::Comprehension));
        }
        refused(tokens, Fault::Unexpected)
    }

    /// After `{`.
    #[tactic(auto, unfolding(py_grammar::specs::inner::Reading::dict_at))]
    fn dict<'a>(&self, tokens: &'a [Token]) -> Read<'a, Tall<Expr>>
        requires calls { F.IsAlwaysCallable self.now.inner }
        requires answers { Answers (F.post self.now.inner) self.now.turns self.now.budget }
        requires small { self.now.budget < HEIGHT_LIMIT }
        ensures value { Gives (λ x. (x.0, x.1.now)) result
            (dict_at (reads self.now.turns self.now.budget) self.now.turns tokens.now) }
        ensures fits { IfOk result (λ x. x.0.tall ≤ self.now.budget + 1) }
    {
        if op_next(tokens, operator::CLOSE_BRACE) {
            let empty = plain(Items::new(self.alloc), 0);
            return Ok((node::dict(empty), rest(tokens)));
        }
        let (key, more) = self.read(TEST, tokens)?;
        self.dict_value(key, more)
    }

    /// An atom that begins with this operator.
    fn bracketed<'a>(&self, op: u8, tokens: &'a [Token]) -> Read<'a, Tall<Expr>>
        requires calls { F.IsAlwaysCallable self.now.inner }
        requires answers { Answers (F.post self.now.inner) self.now.turns self.now.budget }
        requires small { self.now.budget < HEIGHT_LIMIT }
        requires comes { first tokens.now ≡ k.Op op }
        ensures value { Gives (λ x. (x.0, x.1.now)) result
            (atom_of (reads self.now.turns self.now.budget) self.now.turns (k.Op op) tokens.now) }
        ensures fits { IfOk result (λ x. x.0.tall ≤ self.now.budget + 1) }
    {
        match op {
            operator::OPEN_ROUND => self.round(rest(tokens)),
            operator::OPEN_SQUARE => self.list(rest(tokens)),
            operator::OPEN_BRACE => self.dict(rest(tokens)),
            _ => refused(tokens, no_start(0, tokens)),
        }
    }

    /// An atom.
    #[tactic(auto, unfolding(py_grammar::specs::inner::Reading::atom_at))]
    pub fn atom<'a>(&self, tokens: &'a [Token]) -> Read<'a, Tall<Expr>>
        requires calls { F.IsAlwaysCallable self.now.inner }
        requires answers { Answers (F.post self.now.inner) self.now.turns self.now.budget }
        requires small { self.now.budget < HEIGHT_LIMIT }
        ensures value { Gives (λ x. (x.0, x.1.now)) result
            (atom_at (reads self.now.turns self.now.budget) self.now.turns tokens.now) }
        ensures fits { IfOk result (λ x. x.0.tall ≤ self.now.budget + 1) }
    {
        let Some((token, more)) = split(tokens) else {
            return refused(tokens, Fault::Unexpected);
        };
        match &token.kind {
            TokenKind::Name(name) => Ok((node::name(name.copy(self.alloc)?), more)),
            TokenKind::Int(n) => Ok((node::int(*n), more)),
            TokenKind::Str(bytes) => {
                let (bytes, more) = strings(self.alloc, self.turns, bytes, more)?;
                Ok((node::string(bytes), more))
            }
            TokenKind::Op(op) => self.bracketed(*op, tokens),
            _ => refused(tokens, no_start(0, tokens)),
        }
    }
}
