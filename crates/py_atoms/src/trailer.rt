//! What may stand after an atom.
ghost use Rattle.std.specs.Prelude.{◌≡◌, ◌+◌, ◌<◌, ◌≤◌, [], ◌||◌, max, IfOk, MatchOption, None, Some};
ghost use Rattle.py_tokens.specs.declared.operator.TheConstants as operator;
ghost use Rattle.py_tree.specs.declared.form.Form.TheVariants.{Plain};
ghost use Rattle.py_atoms.specs.inner.Asking.{Answers};
ghost use Rattle.py_atoms.specs.inner.Outcome.{Gives};
ghost use Rattle.py_grammar.specs.inner.Reading.{reads, first, is_op, is_none, name_of, keyed, named_at, args_at, slice_close, slice_at, index_close, subscript_at, call_at, trails, trailer_at, trailers_at, trail_at};
ghost use Rattle.py_grammar.specs.inner.Pieces.{keywords_at};
ghost use Rattle.py_grammar.specs.inner.Tall.{none, plain, push_named, tall_or};

use crate::cursor::{Read, comes, keyword_next, op_next, refused, rest, take_name, take_op};
use crate::error::ParseError;
use crate::node;
use crate::reader::{Reader, TEST};
use crate::request::Request;
use crate::tall::{HEIGHT_LIMIT, is_bare, no_tests, plain, push, push_named, push_trailer};
use py_base::{Bytes, Construct, NoMemory, split};
use py_grammar::{Fault, Tall};
use py_tokens::{Token, TokenKind, keyword, operator};
use py_tree::{Expr, Form, Named, Trailer};
use sqlite_items::Items;
use std::alloc::Global;

/// Whether `*` or `**` comes next.
pub fn star_next(tokens: &[Token]) -> bool
    ensures { result ≡ (is_op operator.STAR (first tokens.now) || is_op operator.POWER (first tokens.now)) }
{
    op_next(tokens, operator::STAR) || op_next(tokens, operator::POWER)
}

/// Whether a trailer comes next.
pub fn trailer_next(tokens: &[Token]) -> bool
    ensures { result ≡ trails (first tokens.now) }
{
    op_next(tokens, operator::DOT)
        || op_next(tokens, operator::OPEN_SQUARE)
        || op_next(tokens, operator::OPEN_ROUND)
}

fn name_of(kind: &TokenKind) -> Option<&Bytes>
    ensures { MatchOption result (name_of kind.now ≡ None) (λ n. name_of kind.now ≡ Some n.now) }
{
    match kind {
        TokenKind::Name(name) => Some(name),
        _ => None,
    }
}

fn name_next(tokens: &[Token]) -> Option<&Bytes>
    ensures { MatchOption result (name_of (first tokens.now) ≡ None) (λ n. name_of (first tokens.now) ≡ Some n.now) }
{
    match split(tokens) {
        None => None,
        Some((token, _)) => name_of(&token.kind),
    }
}

/// The name of an argument by keyword, where a test of this form was read from these tokens, and is followed by `=`.
fn keyed<'a>(form: Form, word: &'a [Token], next: &[Token]) -> Option<&'a Bytes>
    ensures { MatchOption result (keyed form (first word.now) (first next.now) ≡ None)
        (λ n. keyed form (first word.now) (first next.now) ≡ Some n.now) }
{
    if is_bare(form) && op_next(next, operator::ASSIGN) {
        name_next(word)
    } else {
        None
    }
}

/// The end of a slice.
fn slice_close<'a>(
    alloc: Global,
    from: Option<Tall<Expr>>,
    to: Option<Tall<Expr>>,
    tokens: &'a [Token],
) -> Read<'a, Tall<Trailer>>
    ensures value { Gives (λ x. (x.0, x.1.now)) result (slice_close from to tokens.now) }
    ensures fits { IfOk result (λ x. x.0.tall ≤ max (tall_or from) (tall_or to)) }
{
    if op_next(tokens, operator::COLON) || op_next(tokens, operator::COMMA) {
        return refused(tokens, Fault::LeftOut(Construct::SliceForm));
    }
    let more = take_op(tokens, operator::CLOSE_SQUARE)?;
    Ok((node::slice(alloc, from, to)?, more))
}

impl<F: for<'b> Fn(Request, &'b [Token]) -> Result<(Tall<Expr>, &'b [Token]), ParseError>> Reader<
    F,
> {
    /// Arguments by keyword after the first, each after a comma, which may also trail; at most so many.
    #[tactic(auto, unfolding(py_grammar::specs::inner::Reading::named_at))]
    fn named<'a>(
        &self,
        most: usize,
        name: Bytes,
        value: Tall<Expr>,
        tokens: &'a [Token],
    ) -> Read<'a, Tall<Items<Named>>>
        requires calls { F.IsAlwaysCallable self.now.inner }
        requires answers { Answers (F.post self.now.inner) self.now.turns self.now.budget }
        requires low { value.tall ≤ self.now.budget }
        ensures value { Gives (λ x. (x.0, x.1.now)) result
            (named_at ((reads self.now.turns self.now.budget).read TEST)
            most (push_named (plain [] 0) name value) tokens.now) }
        ensures fits { IfOk result (λ x. x.0.tall ≤ self.now.budget) }
    {
        let mut found = plain(Items::new(self.alloc), 0);
        push_named(&mut found, name, value)?;
        let mut more = tokens;
        'turns: for _turn in 0..most {
            if !op_next(more, operator::COMMA) {
                return Ok((found, more));
            }
            more = rest(more);
            if op_next(more, operator::CLOSE_ROUND) {
                return Ok((found, more));
            }
            if star_next(more) {
                return refused(more, Fault::LeftOut(Construct::StarArgument));
            }
            let (name, after) = take_name(self.alloc, more)?;
            let after = take_op(after, operator::ASSIGN)?;
            let (value, after) = self.read(TEST, after)?;
            push_named(&mut found, name, value)?;
            more = after;
        }
        Ok((found, more))
    }

    /// Arguments by keyword, behind those by their place, after the first of them and its `=`.
    fn keywords<'a>(
        &self,
        most: usize,
        found: Tall<Items<Expr>>,
        name: &Bytes,
        tokens: &'a [Token],
    ) -> Read<'a, Tall<Trailer>>
        requires calls { F.IsAlwaysCallable self.now.inner }
        requires answers { Answers (F.post self.now.inner) self.now.turns self.now.budget }
        requires low { found.tall ≤ self.now.budget }
        ensures value { Gives (λ x. (x.0, x.1.now)) result
            (keywords_at ((reads self.now.turns self.now.budget).read TEST) most found name.now tokens.now) }
        ensures fits { IfOk result (λ x. x.0.tall ≤ self.now.budget) }
    {
        let name = name.copy(self.alloc)?;
        let (value, more) = self.read(TEST, tokens)?;
        let (named, more) = self.named(most, name, value, more)?;
        Ok((node::call(found, named), more))
    }

    /// One argument or more.
    #[tactic(auto, unfolding(py_grammar::specs::inner::Reading::args_at))]
    fn arguments<'a>(&self, tokens: &'a [Token]) -> Read<'a, Tall<Trailer>>
        requires calls { F.IsAlwaysCallable self.now.inner }
        requires answers { Answers (F.post self.now.inner) self.now.turns self.now.budget }
        ensures value { Gives (λ x. (x.0, x.1.now)) result
            (args_at ((reads self.now.turns self.now.budget).read TEST) self.now.turns none tokens.now) }
        ensures fits { IfOk result (λ x. x.0.tall ≤ self.now.budget) }
    {
        let mut found = no_tests(self.alloc);
        let mut more = tokens;
        'turns: for turn in 0..self.turns {
            if star_next(more) {
                return refused(more, Fault::LeftOut(Construct::StarArgument));
            }
            let (test, after) = self.read(TEST, more)?;
            if let Some(name) = keyed(test.form, more, after) {
                return self.keywords(self.turns - turn - 1, found, name, rest(after));
            }
            if found.tree.is_empty() && keyword_next(after, keyword::FOR) {
                return refused(after, Fault::LeftOut(Construct::Comprehension));
            }
            push(&mut found, test)?;
            if !op_next(after, operator::COMMA) {
                return Ok((node::call(found, plain(Items::new(self.alloc), 0)), after));
            }
            more = rest(after);
            if op_next(more, operator::CLOSE_ROUND) {
                return Ok((node::call(found, plain(Items::new(self.alloc), 0)), more));
            }
        }
        Ok((node::call(found, plain(Items::new(self.alloc), 0)), more))
    }

    /// After the first colon of a slice.
    #[tactic(auto, unfolding(py_grammar::specs::inner::Reading::slice_at))]
    fn slice<'a>(&self, from: Option<Tall<Expr>>, tokens: &'a [Token]) -> Read<'a, Tall<Trailer>>
        requires calls { F.IsAlwaysCallable self.now.inner }
        requires answers { Answers (F.post self.now.inner) self.now.turns self.now.budget }
        requires low { tall_or from ≤ self.now.budget }
        ensures value { Gives (λ x. (x.0, x.1.now)) result
            (slice_at (reads self.now.turns self.now.budget) from tokens.now) }
        ensures fits { IfOk result (λ x. x.0.tall ≤ self.now.budget) }
    {
        if comes(TEST, tokens) {
            let (to, more) = self.read(TEST, tokens)?;
            return slice_close(self.alloc, from, Some(to), more);
        }
        slice_close(self.alloc, from, None, tokens)
    }

    /// After `[` and a test.
    fn index_close<'a>(&self, test: Tall<Expr>, tokens: &'a [Token]) -> Read<'a, Tall<Trailer>>
        requires calls { F.IsAlwaysCallable self.now.inner }
        requires answers { Answers (F.post self.now.inner) self.now.turns self.now.budget }
        requires low { test.tall ≤ self.now.budget }
        ensures value { Gives (λ x. (x.0, x.1.now)) result
            (index_close (reads self.now.turns self.now.budget) (test, tokens.now)) }
        ensures fits { IfOk result (λ x. x.0.tall ≤ self.now.budget) }
    {
        if op_next(tokens, operator::COLON) {
            return self.slice(Some(test), rest(tokens));
        }
        let (index, more) = self.read_on(test, tokens)?;
        let more = take_op(more, operator::CLOSE_SQUARE)?;
        Ok((node::index(self.alloc, index)?, more))
    }

    /// After `[`.
    #[tactic(auto, unfolding(py_grammar::specs::inner::Reading::subscript_at))]
    fn subscript<'a>(&self, tokens: &'a [Token]) -> Read<'a, Tall<Trailer>>
        requires calls { F.IsAlwaysCallable self.now.inner }
        requires answers { Answers (F.post self.now.inner) self.now.turns self.now.budget }
        ensures value { Gives (λ x. (x.0, x.1.now)) result
            (subscript_at (reads self.now.turns self.now.budget) tokens.now) }
        ensures fits { IfOk result (λ x. x.0.tall ≤ self.now.budget) }
    {
        if op_next(tokens, operator::COLON) {
            return self.slice(None, rest(tokens));
        }
        let (test, more) = self.read(TEST, tokens)?;
        self.index_close(test, more)
    }

    /// After `(`.
    #[tactic(auto, unfolding(py_grammar::specs::inner::Reading::call_at))]
    fn call<'a>(&self, tokens: &'a [Token]) -> Read<'a, Tall<Trailer>>
        requires calls { F.IsAlwaysCallable self.now.inner }
        requires answers { Answers (F.post self.now.inner) self.now.turns self.now.budget }
        ensures value { Gives (λ x. (x.0, x.1.now)) result
            (call_at (reads self.now.turns self.now.budget) self.now.turns tokens.now) }
        ensures fits { IfOk result (λ x. x.0.tall ≤ self.now.budget) }
    {
        if op_next(tokens, operator::CLOSE_ROUND) {
            let none = node::call(no_tests(self.alloc), plain(Items::new(self.alloc), 0));
            return Ok((none, rest(tokens)));
        }
        let (call, more) = self.arguments(tokens)?;
        let more = take_op(more, operator::CLOSE_ROUND)?;
        Ok((call, more))
    }

    /// A trailer.
    #[tactic(auto, unfolding(py_grammar::specs::inner::Reading::trailer_at))]
    fn trailer<'a>(&self, tokens: &'a [Token]) -> Read<'a, Tall<Trailer>>
        requires calls { F.IsAlwaysCallable self.now.inner }
        requires answers { Answers (F.post self.now.inner) self.now.turns self.now.budget }
        ensures value { Gives (λ x. (x.0, x.1.now)) result
            (trailer_at (reads self.now.turns self.now.budget) self.now.turns tokens.now) }
        ensures fits { IfOk result (λ x. x.0.tall ≤ self.now.budget) }
    {
        if op_next(tokens, operator::DOT) {
            let (name, more) = take_name(self.alloc, rest(tokens))?;
            return Ok((node::attribute(name), more));
        }
        if op_next(tokens, operator::OPEN_SQUARE) {
            return self.subscript(rest(tokens));
        }
        self.call(rest(tokens))
    }

    /// Trailers, as many as come.
    #[tactic(auto, unfolding(py_grammar::specs::inner::Reading::trailers_at))]
    fn trailers<'a>(&self, tokens: &'a [Token]) -> Read<'a, Tall<Items<Trailer>>>
        requires calls { F.IsAlwaysCallable self.now.inner }
        requires answers { Answers (F.post self.now.inner) self.now.turns self.now.budget }
        ensures value { Gives (λ x. (x.0, x.1.now)) result
            (trailers_at (reads self.now.turns self.now.budget) self.now.turns self.now.turns (plain [] 0) tokens.now) }
        ensures fits { IfOk result (λ x. x.0.tall ≤ self.now.budget) }
    {
        let mut found = plain(Items::new(self.alloc), 0);
        let mut more = tokens;
        'turns: for _turn in 0..self.turns {
            if !trailer_next(more) {
                return Ok((found, more));
            }
            let (trailer, after) = self.trailer(more)?;
            push_trailer(&mut found, trailer)?;
            more = after;
        }
        Ok((found, more))
    }

    /// After an atom.
    #[tactic(auto, unfolding(py_grammar::specs::inner::Reading::trail_at))]
    pub fn trail<'a>(&self, atom: Tall<Expr>, tokens: &'a [Token]) -> Read<'a, Tall<Expr>>
        requires calls { F.IsAlwaysCallable self.now.inner }
        requires answers { Answers (F.post self.now.inner) self.now.turns self.now.budget }
        requires small { self.now.budget < HEIGHT_LIMIT }
        requires low { atom.tall ≤ self.now.budget + 1 }
        ensures value { Gives (λ x. (x.0, x.1.now)) result
            (trail_at (reads self.now.turns self.now.budget) self.now.turns (self.now.budget + 1) (atom, tokens.now)) }
        ensures fits { IfOk result (λ x. x.0.tall ≤ self.now.budget + 1) }
    {
        if !trailer_next(tokens) {
            return Ok((atom, tokens));
        }
        if self.is_full(atom.tall) {
            return refused(tokens, Fault::Deep);
        }
        let (trailers, more) = self.trailers(tokens)?;
        Ok((node::trail(self.alloc, atom, trailers)?, more))
    }
}
