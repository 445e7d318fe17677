//! What is a target, or becomes one by a further trailer.
ghost use Rattle.std.specs.Prelude.{◌≡◌, ◌+◌, ◌-◌, ◌<◌, ◌≤◌, IfOk};
ghost use Rattle.py_atoms.specs.inner.Asking.{AnswersAim};
ghost use Rattle.py_grammar.specs.inner.Aiming.{fine, closing_at, element_at, next_at, elements_at, round_rest, aim_round, list_rest, aim_list, aim_atom, aim_at, aimed_at};
ghost use Rattle.py_atoms.specs.inner.Outcome.{Gives};
ghost use Rattle.py_grammar.specs.inner.Reading.{reads, first};
ghost use Rattle.py_grammar.specs.inner.Tall.{start};
ghost use Rattle.py_tokens.specs.declared.token.TokenKind.TheVariants as k;

use crate::expression::expression;
use crate::growth::{risen, trailed};
use py_atoms::cursor::{Read, comes, keyword_next, no_start, op_next, refused, rest, starts};
use py_atoms::tall::{HEIGHT_LIMIT, is_target, no_tests, push, start};
use py_atoms::{ParseError, Request, TARGET, TEST, node};
use py_base::{Construct, split};
use py_grammar::{Fault, Tall};
use py_tokens::{Token, TokenKind, keyword, operator};
use py_tree::Expr;
use sqlite_items::Items;
use std::alloc::Global;

/// The tokens after a closing bracket, where what is in the brackets fits.
fn closing(n: u8, fits: bool, tokens: &[Token]) -> Result<&[Token], ParseError>
    ensures { Gives (λ r. (tt, r.now)) result (closing_at n fits tokens.now) }
{
    if !op_next(tokens, n) {
        return refused(tokens, Fault::Unexpected);
    }
    if !fits {
        return refused(tokens, Fault::Deep);
    }
    Ok(rest(tokens))
}

/// Reads an atom that is a target of a height of at most `room + 1`, or becomes one by a trailer. In brackets all are
/// targets of a height of at most `room`, or all are lower. `inner` reads such expressions there.
#[derive(Drop)]
pub struct Aiming<F> {
    pub alloc: Global,
    /// Bounds the turns of each loop.
    pub turns: usize,
    pub room: usize,
    pub inner: F,
}

impl<F: for<'b> Fn(&'b [Token]) -> Result<(Tall<Expr>, &'b [Token]), ParseError>> Aiming<F> {
    /// What is a target in the brackets, or becomes one.
    fn read<'a>(&self, tokens: &'a [Token]) -> Read<'a, Tall<Expr>>
        requires calls { F.IsAlwaysCallable self.now.inner }
        requires answers { AnswersAim (F.post self.now.inner) self.now.turns self.now.room }
        ensures value { Gives (λ x. (x.0, x.1.now)) result (aim_at self.now.turns self.now.room tokens.now) }
        ensures fits { IfOk result (λ x. x.0.tall ≤ self.now.room) }
    {
        (self.inner)(tokens)
    }

    /// Whether these tests may stand in the brackets: all are targets, or all are low enough for a trailer.
    fn is_fine(&self, tests: &Tall<Items<Expr>>) -> bool
        ensures { result ≡ fine self.now.room tests.now }
    {
        is_target(false, tests.form) || tests.tall < self.room
    }

    /// Whether this test may stand alone in the brackets.
    fn is_fine_alone(&self, test: &Tall<Expr>) -> bool
        ensures { result ≡ fine self.now.room (start test.now) }
    {
        is_target(false, test.form) || test.tall < self.room
    }

    /// A test of a height of at most `budget`, or what is a target or becomes one.
    #[tactic(auto, unfolding(py_grammar::specs::inner::Aiming::element_at))]
    fn element<'a>(&self, budget: usize, tokens: &'a [Token]) -> Read<'a, Tall<Expr>>
        requires calls { F.IsAlwaysCallable self.now.inner }
        requires answers { AnswersAim (F.post self.now.inner) self.now.turns self.now.room }
        requires small { self.now.room < HEIGHT_LIMIT }
        requires low { budget ≤ self.now.room }
        ensures value { Gives (λ x. (x.0, x.1.now)) result
            (element_at (aim_at self.now.turns self.now.room) self.now.turns budget tokens.now) }
        ensures fits { IfOk result (λ x. x.0.tall ≤ self.now.room) }
    {
        if starts(TARGET, tokens) {
            let (found, more) = self.read(tokens)?;
            return risen(self.alloc, self.turns, budget, found, more);
        }
        expression(self.alloc, self.turns, budget, Request::Level(TEST), tokens)
    }

    /// The test after these.
    #[tactic(auto, unfolding(py_grammar::specs::inner::Aiming::next_at))]
    fn next<'a>(&self, found: &Tall<Items<Expr>>, tokens: &'a [Token]) -> Read<'a, Tall<Expr>>
        requires calls { F.IsAlwaysCallable self.now.inner }
        requires answers { AnswersAim (F.post self.now.inner) self.now.turns self.now.room }
        requires small { self.now.room < HEIGHT_LIMIT }
        ensures value { Gives (λ x. (x.0, x.1.now)) result
            (next_at (aim_at self.now.turns self.now.room) self.now.turns self.now.room found.now tokens.now) }
        ensures fits { IfOk result (λ x. x.0.tall ≤ self.now.room) }
    {
        let below = self.room.saturating_sub(1);
        if !is_target(false, found.form) {
            return expression(self.alloc, self.turns, below, Request::Level(TEST), tokens);
        }
        if found.tall < self.room {
            return self.element(below, tokens);
        }
        self.element(0, tokens)
    }

    /// Further tests after the first, each after a comma, which may also trail.
    #[tactic(auto, unfolding(py_grammar::specs::inner::Aiming::elements_at))]
    fn elements<'a>(&self, first: Tall<Expr>, tokens: &'a [Token]) -> Read<'a, Tall<Items<Expr>>>
        requires calls { F.IsAlwaysCallable self.now.inner }
        requires answers { AnswersAim (F.post self.now.inner) self.now.turns self.now.room }
        requires small { self.now.room < HEIGHT_LIMIT }
        requires low { first.tall ≤ self.now.room }
        ensures value { Gives (λ x. (x.0, x.1.now)) result
            (elements_at (aim_at self.now.turns self.now.room)
            self.now.turns self.now.room self.now.turns (start first) tokens.now) }
        ensures fits { IfOk result (λ x. x.0.tall ≤ self.now.room) }
    {
        let mut found = start(self.alloc, first)?;
        let mut more = tokens;
        'turns: for _turn in 0..self.turns {
            if !op_next(more, operator::COMMA) {
                return Ok((found, more));
            }
            if !self.is_fine(&found) {
                return refused(more, Fault::Deep);
            }
            more = rest(more);
            if !comes(TEST, more) {
                return Ok((found, more));
            }
            let (test, after) = self.next(&found, more)?;
            push(&mut found, test)?;
            more = after;
        }
        Ok((found, more))
    }

    /// After `(` and a test.
    #[tactic(auto, unfolding(py_grammar::specs::inner::Aiming::closed_at))]
    fn round_close<'a>(&self, test: Tall<Expr>, tokens: &'a [Token]) -> Read<'a, Tall<Expr>>
        requires calls { F.IsAlwaysCallable self.now.inner }
        requires answers { AnswersAim (F.post self.now.inner) self.now.turns self.now.room }
        requires small { self.now.room < HEIGHT_LIMIT }
        requires low { test.tall ≤ self.now.room }
        ensures value { Gives (λ x. (x.0, x.1.now)) result
            (round_rest (aim_at self.now.turns self.now.room) self.now.turns self.now.room (test, tokens.now)) }
        ensures fits { IfOk result (λ x. x.0.tall ≤ self.now.room + 1) }
    {
        if op_next(tokens, operator::CLOSE_ROUND) {
            let more = closing(operator::CLOSE_ROUND, self.is_fine_alone(&test), tokens)?;
            return Ok((node::group(self.alloc, test)?, more));
        }
        if op_next(tokens, operator::COMMA) {
            let (tests, more) = self.elements(test, tokens)?;
            let more = closing(operator::CLOSE_ROUND, self.is_fine(&tests), more)?;
            return Ok((node::tuple(tests), more));
        }
        if keyword_next(tokens, keyword::FOR) {
            return refused(tokens, Fault::LeftOut(Construct::Comprehension));
        }
        refused(tokens, Fault::Unexpected)
    }

    /// After `(`.
    #[tactic(auto, unfolding(py_grammar::specs::inner::Aiming::aim_round))]
    fn round<'a>(&self, tokens: &'a [Token]) -> Read<'a, Tall<Expr>>
        requires calls { F.IsAlwaysCallable self.now.inner }
        requires answers { AnswersAim (F.post self.now.inner) self.now.turns self.now.room }
        requires small { self.now.room < HEIGHT_LIMIT }
        ensures value { Gives (λ x. (x.0, x.1.now)) result
            (aim_round (aim_at self.now.turns self.now.room) self.now.turns self.now.room tokens.now) }
        ensures fits { IfOk result (λ x. x.0.tall ≤ self.now.room + 1) }
    {
        if op_next(tokens, operator::CLOSE_ROUND) {
            return Ok((node::unit(self.alloc), rest(tokens)));
        }
        if keyword_next(tokens, keyword::YIELD) {
            return refused(tokens, Fault::LeftOut(Construct::Generator));
        }
        let none = no_tests(self.alloc);
        let (test, more) = self.next(&none, tokens)?;
        self.round_close(test, more)
    }

    /// After `[` and a test.
    #[tactic(auto, unfolding(py_grammar::specs::inner::Aiming::closed_at))]
    fn list_close<'a>(&self, test: Tall<Expr>, tokens: &'a [Token]) -> Read<'a, Tall<Expr>>
        requires calls { F.IsAlwaysCallable self.now.inner }
        requires answers { AnswersAim (F.post self.now.inner) self.now.turns self.now.room }
        requires small { self.now.room < HEIGHT_LIMIT }
        requires low { test.tall ≤ self.now.room }
        ensures value { Gives (λ x. (x.0, x.1.now)) result
            (list_rest (aim_at self.now.turns self.now.room) self.now.turns self.now.room (test, tokens.now)) }
        ensures fits { IfOk result (λ x. x.0.tall ≤ self.now.room + 1) }
    {
        if keyword_next(tokens, keyword::FOR) {
            return refused(tokens, Fault::LeftOut(Construct::Comprehension));
        }
        let (tests, more) = self.elements(test, tokens)?;
        let more = closing(operator::CLOSE_SQUARE, self.is_fine(&tests), more)?;
        Ok((node::list(tests), more))
    }

    /// After `[`.
    #[tactic(auto, unfolding(py_grammar::specs::inner::Aiming::aim_list))]
    fn list<'a>(&self, tokens: &'a [Token]) -> Read<'a, Tall<Expr>>
        requires calls { F.IsAlwaysCallable self.now.inner }
        requires answers { AnswersAim (F.post self.now.inner) self.now.turns self.now.room }
        requires small { self.now.room < HEIGHT_LIMIT }
        ensures value { Gives (λ x. (x.0, x.1.now)) result
            (aim_list (aim_at self.now.turns self.now.room) self.now.turns self.now.room tokens.now) }
        ensures fits { IfOk result (λ x. x.0.tall ≤ self.now.room + 1) }
    {
        let none = no_tests(self.alloc);
        if op_next(tokens, operator::CLOSE_SQUARE) {
            return Ok((node::list(none), rest(tokens)));
        }
        let (test, more) = self.next(&none, tokens)?;
        self.list_close(test, more)
    }

    /// An atom that is no target, of a height of at most `room`.
    fn other<'a>(&self, tokens: &'a [Token]) -> Read<'a, Tall<Expr>>
        requires small { self.now.room < HEIGHT_LIMIT }
        ensures value { Gives (λ x. (x.0, x.1.now)) result ((reads self.now.turns self.now.room).read 0 tokens.now) }
        ensures fits { IfOk result (λ x. x.0.tall ≤ self.now.room + 1) }
    {
        expression(self.alloc, self.turns, self.room, Request::Level(0), tokens)
    }

    /// An atom that begins with this operator.
    fn bracketed<'a>(&self, op: u8, tokens: &'a [Token]) -> Read<'a, Tall<Expr>>
        requires calls { F.IsAlwaysCallable self.now.inner }
        requires answers { AnswersAim (F.post self.now.inner) self.now.turns self.now.room }
        requires small { self.now.room < HEIGHT_LIMIT }
        requires comes { first tokens.now ≡ k.Op op }
        ensures value { Gives (λ x. (x.0, x.1.now)) result
            (aim_atom (aim_at self.now.turns self.now.room) self.now.turns self.now.room (k.Op op) tokens.now) }
        ensures fits { IfOk result (λ x. x.0.tall ≤ self.now.room + 1) }
    {
        match op {
            operator::OPEN_ROUND => {
                if self.room == 0 {
                    return refused(tokens, Fault::Deep);
                }
                self.round(rest(tokens))
            }
            operator::OPEN_SQUARE => self.list(rest(tokens)),
            _ => self.other(tokens),
        }
    }

    /// An atom.
    fn atom<'a>(&self, tokens: &'a [Token]) -> Read<'a, Tall<Expr>>
        requires calls { F.IsAlwaysCallable self.now.inner }
        requires answers { AnswersAim (F.post self.now.inner) self.now.turns self.now.room }
        requires small { self.now.room < HEIGHT_LIMIT }
        ensures value { Gives (λ x. (x.0, x.1.now)) result
            (aim_atom (aim_at self.now.turns self.now.room)
            self.now.turns self.now.room (first tokens.now) tokens.now) }
        ensures fits { IfOk result (λ x. x.0.tall ≤ self.now.room + 1) }
    {
        let Some((token, more)) = split(tokens) else {
            return self.other(tokens);
        };
        match &token.kind {
            TokenKind::Name(name) => Ok((node::name(name.copy(self.alloc)?), more)),
            TokenKind::Op(op) => self.bracketed(*op, tokens),
            _ => self.other(tokens),
        }
    }

    /// An atom with its trailers.
    fn aimed<'a>(&self, tokens: &'a [Token]) -> Read<'a, Tall<Expr>>
        requires calls { F.IsAlwaysCallable self.now.inner }
        requires answers { AnswersAim (F.post self.now.inner) self.now.turns self.now.room }
        requires small { self.now.room < HEIGHT_LIMIT }
        ensures value { Gives (λ x. (x.0, x.1.now)) result (aimed_at self.now.turns self.now.room tokens.now) }
        ensures fits { IfOk result (λ x. x.0.tall ≤ self.now.room + 1) }
    {
        let (atom, more) = self.atom(tokens)?;
        trailed(self.alloc, self.turns, self.room, atom, more)
    }
}

/// What is a target of a height of at most `room + 1` or becomes one, where `inner` reads such expressions of `room`.
fn aim_by<'a, F: for<'b> Fn(&'b [Token]) -> Result<(Tall<Expr>, &'b [Token]), ParseError> + Drop>(
    alloc: Global,
    turns: usize,
    room: usize,
    inner: F,
    tokens: &'a [Token],
) -> Read<'a, Tall<Expr>>
    requires calls { F.IsAlwaysCallable inner }
    requires answers { AnswersAim (F.post inner) turns room }
    requires small { room < HEIGHT_LIMIT }
    ensures value { Gives (λ x. (x.0, x.1.now)) result (aim_at turns (room + 1) tokens.now) }
    ensures fits { IfOk result (λ x. x.0.tall ≤ room + 1) }
{
    let aiming = Aiming {
        alloc,
        turns,
        room,
        inner,
    };
    aiming.aimed(tokens)
}

/// An expression of the level of targets, of a height of at most `budget`, which is a target or becomes one of at most
/// this height by a further trailer. No loop takes more than so many turns.
pub fn aim<'a>(
    alloc: Global,
    turns: usize,
    budget: usize,
    tokens: &'a [Token],
) -> Read<'a, Tall<Expr>>
    requires { budget ≤ HEIGHT_LIMIT }
    ensures value { Gives (λ x. (x.0, x.1.now)) result (aim_at turns budget tokens.now) }
    ensures fits { IfOk result (λ x. x.0.tall ≤ budget) }
{
    if budget == 0 {
        if starts(TARGET, tokens) {
            return refused(tokens, Fault::Deep);
        }
        return refused(tokens, no_start(TARGET, tokens));
    }
    aim_by(
        alloc,
        turns,
        budget - 1,
        |tokens|
            requires above { 0 < budget }
            requires small { budget ≤ HEIGHT_LIMIT }
            ensures value { Gives (λ x. (x.0, x.1.now)) result (aim_at turns (budget - 1) tokens.now) }
            ensures fits { IfOk result (λ x. x.0.tall ≤ budget - 1) }
        { aim(alloc, turns, budget - 1, tokens) },
        tokens,
    )
}
