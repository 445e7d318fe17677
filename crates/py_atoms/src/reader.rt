//! Reading the parts of an expression.
ghost use Rattle.std.specs.Prelude.{◌≡◌, ◌+◌, ◌≤◌, IfOk, nat_lt};
ghost use Rattle.py_atoms.specs.inner.Asking.{Answers};
ghost use Rattle.py_atoms.specs.inner.Outcome.{Gives};
ghost use Rattle.py_grammar.specs.inner.Reading.{reads, tests_at};
ghost use Rattle.py_grammar.specs.inner.Tall.{start};

use crate::cursor::{Read, comes, op_next, rest};
use crate::error::ParseError;
use crate::request::Request;
use crate::tall::{push, start};
use py_grammar::Tall;
use py_tokens::{Token, operator};
use py_tree::Expr;
use sqlite_items::Items;
use std::alloc::Global;

/// The level of targets: atoms with what trails them.
pub const TARGET: u8 = 1;

/// The level of tests.
pub const TEST: u8 = 14;

/// The level of tests with commas between them.
pub const TESTS: u8 = 15;

/// Reads the parts of an expression. What stands inside them is read by `inner`, of a height of at most `budget`.
#[derive(Drop)]
pub struct Reader<F> {
    pub alloc: Global,
    /// Bounds the turns of each loop.
    pub turns: usize,
    pub budget: usize,
    pub inner: F,
}

impl<F: for<'b> Fn(Request, &'b [Token]) -> Result<(Tall<Expr>, &'b [Token]), ParseError>> Reader<
    F,
> {
    /// An expression of a level, inside of what is read.
    pub fn read<'a>(&self, level: u8, tokens: &'a [Token]) -> Read<'a, Tall<Expr>>
        requires calls { F.IsAlwaysCallable self.now.inner }
        requires answers { Answers (F.post self.now.inner) self.now.turns self.now.budget }
        ensures value { Gives (λ x. (x.0, x.1.now)) result
            ((reads self.now.turns self.now.budget).read level tokens.now) }
        ensures fits { IfOk result (λ x. x.0.tall ≤ self.now.budget) }
    {
        (self.inner)(Request::Level(level), tokens)
    }

    /// What a comma after a test begins, inside of what is read.
    pub fn read_on<'a>(&self, test: Tall<Expr>, tokens: &'a [Token]) -> Read<'a, Tall<Expr>>
        requires calls { F.IsAlwaysCallable self.now.inner }
        requires answers { Answers (F.post self.now.inner) self.now.turns self.now.budget }
        requires low { test.tall ≤ self.now.budget }
        ensures value { Gives (λ x. (x.0, x.1.now)) result
            ((reads self.now.turns self.now.budget).after test tokens.now) }
        ensures fits { IfOk result (λ x. x.0.tall ≤ self.now.budget) }
    {
        (self.inner)(Request::After(test), tokens)
    }

    /// Whether a node on top of a tree of this height would be too high.
    pub fn is_full(&self, tall: usize) -> bool
        ensures { result ≡ nat_lt (self.now.budget + 1) (tall + 1) }
    {
        self.budget < tall
    }

    /// Further tests, each after a comma; the truth value says that a comma trails.
    #[tactic(auto, unfolding(py_grammar::specs::inner::Reading::tests_at))]
    pub fn tests<'a>(
        &self,
        first: Tall<Expr>,
        tokens: &'a [Token],
    ) -> Read<'a, (Tall<Items<Expr>>, bool)>
        requires calls { F.IsAlwaysCallable self.now.inner }
        requires answers { Answers (F.post self.now.inner) self.now.turns self.now.budget }
        requires low { first.tall ≤ self.now.budget }
        ensures value { Gives (λ x. (x.0, x.1.now)) result
            (tests_at ((reads self.now.turns self.now.budget).read TEST) self.now.turns (start first) tokens.now) }
        ensures fits { IfOk result (λ x. x.0.0.tall ≤ self.now.budget) }
    {
        let mut found = start(self.alloc, first)?;
        let mut more = tokens;
        'turns: for _turn in 0..self.turns {
            if !op_next(more, operator::COMMA) {
                return Ok(((found, false), more));
            }
            more = rest(more);
            if !comes(TEST, more) {
                return Ok(((found, true), more));
            }
            let (test, after) = self.read(TEST, more)?;
            push(&mut found, test)?;
            more = after;
        }
        Ok(((found, false), more))
    }
}
