//! Compound statements and blocks.
ghost use Rattle.std.specs.Prelude.{◌≡◌, ◌+◌, ◌-◌, ◌<◌, ◌≤◌, [], ◌∷◌, IfOk};
ghost use Rattle.py_tokens.specs.declared.token.TokenKind.TheVariants as k;
ghost use Rattle.py_grammar.specs.inner.Lines.{line_at, body_at, arm_at, elifs_at, clause_at, handler_at, handlers_at, try_at, def_at, class_at, compound_at, is_compound, statement_by, statement_at, suite_at, line_of_at, statements_at};
ghost use Rattle.py_atoms.specs.inner.Outcome.{Gives};
ghost use Rattle.py_grammar.specs.inner.Aiming.{readers};
ghost use Rattle.py_parser.specs.inner.Suites.{AnswersStatements, inner_block, parts_of, if_at, while_at, for_at, tried_at, alone_at};
ghost use Rattle.py_grammar.specs.inner.Tall.{tree_or};

use crate::header::{base, caught, loop_target, parameters};
use py_atoms::cursor::{
    Read, dedent_next, indent_next, keyword_next, line_of, newline_next, op_next, refused, rest,
    take_keyword, take_name, take_op,
};
use py_atoms::tall::HEIGHT_LIMIT;
use py_atoms::{ParseError, Request, TEST, TESTS};
use py_base::{Construct, split};
use py_exprs::expression::expression;
use py_grammar::{Fault, Tall};
use py_lines::simple_line::line;
use py_lines::statement::tree_or;
use py_tokens::{Token, TokenKind, keyword, operator};
use py_tree::{Arm, Clause, Expr, Handler, Stmt};
use sqlite_items::Items;
use std::alloc::Global;

/// Whether this keyword begins a compound statement.
fn is_compound(word: u8) -> bool
    ensures { result ≡ is_compound word }
{
    match word {
        keyword::IF
        | keyword::WHILE
        | keyword::FOR
        | keyword::TRY
        | keyword::DEF
        | keyword::CLASS => true,
        _ => false,
    }
}

/// The simple statements of a line, of a height of at most `budget`.
fn line_within<'a>(
    alloc: Global,
    turns: usize,
    budget: usize,
    tokens: &'a [Token],
) -> Read<'a, Items<Stmt>>
    requires { budget ≤ HEIGHT_LIMIT }
    ensures { Gives (λ x. (x.0, x.1.now)) result (line_of_at turns budget tokens.now) }
{
    if budget == 0 {
        return refused(tokens, Fault::Deep);
    }
    line(alloc, turns, budget, tokens)
}

/// Reads compound statements of a height of at most `budget + 1`. Their expressions have a height of at most `budget`,
/// and `statement` reads the statements of their blocks, of a height of at most `budget - 1`.
#[derive(Drop)]
pub struct Compound<F> {
    pub alloc: Global,
    /// Bounds the turns of each loop.
    pub turns: usize,
    pub budget: usize,
    pub statement: F,
}

impl<F: for<'b> Fn(&'b [Token]) -> Result<(Items<Stmt>, &'b [Token]), ParseError>> Compound<F> {
    /// An expression of a level.
    fn read<'a>(&self, level: u8, tokens: &'a [Token]) -> Read<'a, Tall<Expr>>
        requires { self.now.budget < HEIGHT_LIMIT }
        ensures value { Gives (λ x. (x.0, x.1.now)) result
            ((readers self.now.turns self.now.budget).read level tokens.now) }
    {
        expression(
            self.alloc,
            self.turns,
            self.budget,
            Request::Level(level),
            tokens,
        )
    }

    /// The simple statements of a line, of a height of at most `budget + 1`.
    fn simple<'a>(&self, tokens: &'a [Token]) -> Read<'a, Items<Stmt>>
        requires { self.now.budget < HEIGHT_LIMIT }
        ensures { Gives (λ x. (x.0, x.1.now)) result
            (line_at (readers self.now.turns self.now.budget) self.now.turns (self.now.budget + 1) tokens.now) }
    {
        line(self.alloc, self.turns, self.budget + 1, tokens)
    }

    /// A statement of a block, or the simple ones of a line there.
    fn inner<'a>(&self, tokens: &'a [Token]) -> Read<'a, Items<Stmt>>
        requires calls { F.IsAlwaysCallable self.now.statement }
        requires answers { AnswersStatements (F.post self.now.statement) self.now.turns (self.now.budget - 1) }
        ensures { Gives (λ x. (x.0, x.1.now)) result (statements_at self.now.turns (self.now.budget - 1) tokens.now) }
    {
        (self.statement)(tokens)
    }

    /// The statements of a block, up to its end.
    #[tactic(auto, unfolding(py_grammar::specs::inner::Lines::suite_at))]
    fn suite<'a>(&self, tokens: &'a [Token]) -> Read<'a, Items<Stmt>>
        requires calls { F.IsAlwaysCallable self.now.statement }
        requires answers { AnswersStatements (F.post self.now.statement) self.now.turns (self.now.budget - 1) }
        requires small { self.now.budget < HEIGHT_LIMIT }
        ensures { Gives (λ x. (x.0, x.1.now)) result
            (suite_at (statements_at self.now.turns (self.now.budget - 1)) self.now.turns [] tokens.now) }
    {
        let mut found = Items::new(self.alloc);
        let mut more = tokens;
        'turns: for _turn in 0..self.turns {
            let (statements, after) = self.inner(more)?;
            found.append(statements)?;
            if dedent_next(after) {
                return Ok((found, rest(after)));
            }
            more = after;
        }
        Ok((found, more))
    }

    /// A block: a line of its own indentation and more, or what is left of a line.
    #[tactic(auto, unfolding(py_grammar::specs::inner::Lines::block_at, py_grammar::specs::inner::Lines::plain_at))]
    fn block<'a>(&self, tokens: &'a [Token]) -> Read<'a, Items<Stmt>>
        requires calls { F.IsAlwaysCallable self.now.statement }
        requires answers { AnswersStatements (F.post self.now.statement) self.now.turns (self.now.budget - 1) }
        requires small { self.now.budget < HEIGHT_LIMIT }
        ensures { Gives (λ x. (x.0, x.1.now)) result (inner_block self.now.turns self.now.budget tokens.now) }
    {
        if !newline_next(tokens) {
            return line_within(
                self.alloc,
                self.turns,
                self.budget.saturating_sub(1),
                tokens,
            );
        }
        let more = rest(tokens);
        if !indent_next(more) {
            return refused(more, Fault::Unexpected);
        }
        self.suite(rest(more))
    }

    /// A colon and a block.
    #[tactic(auto, unfolding(py_grammar::specs::inner::Lines::body_at))]
    fn body<'a>(&self, tokens: &'a [Token]) -> Read<'a, Items<Stmt>>
        requires calls { F.IsAlwaysCallable self.now.statement }
        requires answers { AnswersStatements (F.post self.now.statement) self.now.turns (self.now.budget - 1) }
        requires small { self.now.budget < HEIGHT_LIMIT }
        ensures { Gives (λ x. (x.0, x.1.now)) result (body_at (inner_block self.now.turns self.now.budget) tokens.now) }
    {
        let more = take_op(tokens, operator::COLON)?;
        self.block(more)
    }

    /// A test and its block, of a clause that begins on this line.
    #[tactic(auto, unfolding(py_grammar::specs::inner::Lines::arm_at))]
    fn arm<'a>(&self, line: u32, tokens: &'a [Token]) -> Read<'a, Arm>
        requires calls { F.IsAlwaysCallable self.now.statement }
        requires answers { AnswersStatements (F.post self.now.statement) self.now.turns (self.now.budget - 1) }
        requires small { self.now.budget < HEIGHT_LIMIT }
        ensures { Gives (λ x. (x.0, x.1.now)) result
            (arm_at (readers self.now.turns self.now.budget) (inner_block self.now.turns self.now.budget)
            line tokens.now) }
    {
        let (test, more) = self.read(TEST, tokens)?;
        let (body, more) = self.body(more)?;
        let test = test.tree;
        Ok((Arm { line, test, body }, more))
    }

    /// The arms of `elif` after the first arm.
    #[tactic(auto, unfolding(py_grammar::specs::inner::Lines::elifs_at))]
    fn elifs<'a>(&self, first: Arm, tokens: &'a [Token]) -> Read<'a, Items<Arm>>
        requires calls { F.IsAlwaysCallable self.now.statement }
        requires answers { AnswersStatements (F.post self.now.statement) self.now.turns (self.now.budget - 1) }
        requires small { self.now.budget < HEIGHT_LIMIT }
        ensures { Gives (λ x. (x.0, x.1.now)) result
            (elifs_at (readers self.now.turns self.now.budget) (inner_block self.now.turns self.now.budget)
            self.now.turns (first ∷ []) tokens.now) }
    {
        let mut found = Items::new(self.alloc);
        found.push(first)?;
        let mut more = tokens;
        'turns: for _turn in 0..self.turns {
            if !keyword_next(more, keyword::ELIF) {
                return Ok((found, more));
            }
            let (arm, after) = self.arm(line_of(more), rest(more))?;
            found.push(arm)?;
            more = after;
        }
        Ok((found, more))
    }

    /// A clause that this keyword begins, where it comes.
    #[tactic(auto, unfolding(py_grammar::specs::inner::Lines::clause_at))]
    fn clause<'a>(&self, word: u8, tokens: &'a [Token]) -> Read<'a, Option<Clause>>
        requires calls { F.IsAlwaysCallable self.now.statement }
        requires answers { AnswersStatements (F.post self.now.statement) self.now.turns (self.now.budget - 1) }
        requires small { self.now.budget < HEIGHT_LIMIT }
        ensures { Gives (λ x. (x.0, x.1.now)) result
            (clause_at word (inner_block self.now.turns self.now.budget) tokens.now) }
    {
        if !keyword_next(tokens, word) {
            return Ok((None, tokens));
        }
        let line = line_of(tokens);
        let (body, more) = self.body(rest(tokens))?;
        Ok((Some(Clause { line, body }), more))
    }

    /// After `except`, which stands on this line.
    #[tactic(auto, unfolding(py_grammar::specs::inner::Lines::handler_at))]
    fn handler<'a>(&self, line: u32, tokens: &'a [Token]) -> Read<'a, Handler>
        requires calls { F.IsAlwaysCallable self.now.statement }
        requires answers { AnswersStatements (F.post self.now.statement) self.now.turns (self.now.budget - 1) }
        requires small { self.now.budget < HEIGHT_LIMIT }
        ensures { Gives (λ x. (x.0, x.1.now)) result
            (handler_at (readers self.now.turns self.now.budget) (inner_block self.now.turns self.now.budget)
            line tokens.now) }
    {
        let ((test, target), more) = caught(self.alloc, self.turns, self.budget, tokens)?;
        let (body, more) = self.body(more)?;
        let handler = Handler {
            line,
            test,
            target,
            body,
        };
        Ok((handler, more))
    }

    /// `except` clauses, up to one without a test.
    #[tactic(auto, unfolding(py_grammar::specs::inner::Lines::handlers_at))]
    fn handlers<'a>(&self, tokens: &'a [Token]) -> Read<'a, Items<Handler>>
        requires calls { F.IsAlwaysCallable self.now.statement }
        requires answers { AnswersStatements (F.post self.now.statement) self.now.turns (self.now.budget - 1) }
        requires small { self.now.budget < HEIGHT_LIMIT }
        ensures { Gives (λ x. (x.0, x.1.now)) result
            (handlers_at (readers self.now.turns self.now.budget) (inner_block self.now.turns self.now.budget)
            self.now.turns [] tokens.now) }
    {
        let mut found = Items::new(self.alloc);
        let mut more = tokens;
        'turns: for _turn in 0..self.turns {
            if !keyword_next(more, keyword::EXCEPT) {
                return Ok((found, more));
            }
            let (handler, after) = self.handler(line_of(more), rest(more))?;
            let has_test = handler.test.is_some();
            found.push(handler)?;
            if !has_test {
                return Ok((found, after));
            }
            more = after;
        }
        Ok((found, more))
    }

    /// After `try` and its block.
    #[tactic(auto, unfolding(py_grammar::specs::inner::Lines::try_at))]
    fn try_more<'a>(&self, first: Clause, tokens: &'a [Token]) -> Read<'a, Stmt>
        requires calls { F.IsAlwaysCallable self.now.statement }
        requires answers { AnswersStatements (F.post self.now.statement) self.now.turns (self.now.budget - 1) }
        requires small { self.now.budget < HEIGHT_LIMIT }
        ensures { Gives (λ x. (x.0, x.1.now)) result
            (try_at (readers self.now.turns self.now.budget) (inner_block self.now.turns self.now.budget)
            self.now.turns first tokens.now) }
    {
        if keyword_next(tokens, keyword::EXCEPT) {
            let (handlers, more) = self.handlers(tokens)?;
            let (otherwise, more) = self.clause(keyword::ELSE, more)?;
            let (last, more) = self.clause(keyword::FINALLY, more)?;
            return Ok((Stmt::Try(first, handlers, otherwise, last), more));
        }
        if keyword_next(tokens, keyword::FINALLY) {
            let (last, more) = self.clause(keyword::FINALLY, tokens)?;
            let none = Items::new(self.alloc);
            return Ok((Stmt::Try(first, none, None, last), more));
        }
        refused(tokens, Fault::Unexpected)
    }

    /// A `try` statement.
    fn tried<'a>(&self, tokens: &'a [Token]) -> Read<'a, Stmt>
        requires calls { F.IsAlwaysCallable self.now.statement }
        requires answers { AnswersStatements (F.post self.now.statement) self.now.turns (self.now.budget - 1) }
        requires small { self.now.budget < HEIGHT_LIMIT }
        ensures { Gives (λ x. (x.0, x.1.now)) result
            (tried_at (readers self.now.turns self.now.budget) (inner_block self.now.turns self.now.budget)
            self.now.turns tokens.now) }
    {
        let line = line_of(tokens);
        let (body, more) = self.body(rest(tokens))?;
        self.try_more(Clause { line, body }, more)
    }

    /// After `def`, which stands on this line.
    #[tactic(auto, unfolding(py_grammar::specs::inner::Lines::def_at))]
    fn function<'a>(&self, line: u32, tokens: &'a [Token]) -> Read<'a, Stmt>
        requires calls { F.IsAlwaysCallable self.now.statement }
        requires answers { AnswersStatements (F.post self.now.statement) self.now.turns (self.now.budget - 1) }
        requires small { self.now.budget < HEIGHT_LIMIT }
        ensures { Gives (λ x. (x.0, x.1.now)) result
            (def_at (readers self.now.turns self.now.budget) (inner_block self.now.turns self.now.budget)
            self.now.turns line tokens.now) }
    {
        let (name, more) = take_name(self.alloc, tokens)?;
        let more = take_op(more, operator::OPEN_ROUND)?;
        let (params, more) = parameters(self.alloc, self.turns, self.budget, more)?;
        let more = take_op(more, operator::CLOSE_ROUND)?;
        let (body, more) = self.body(more)?;
        Ok((Stmt::Def(line, name, params, body), more))
    }

    /// After `class`, which stands on this line.
    #[tactic(auto, unfolding(py_grammar::specs::inner::Lines::class_at))]
    fn class<'a>(&self, line: u32, tokens: &'a [Token]) -> Read<'a, Stmt>
        requires calls { F.IsAlwaysCallable self.now.statement }
        requires answers { AnswersStatements (F.post self.now.statement) self.now.turns (self.now.budget - 1) }
        requires small { self.now.budget < HEIGHT_LIMIT }
        ensures { Gives (λ x. (x.0, x.1.now)) result
            (class_at (readers self.now.turns self.now.budget) (inner_block self.now.turns self.now.budget)
            line tokens.now) }
    {
        let (name, more) = take_name(self.alloc, tokens)?;
        let (base, more) = base(self.alloc, self.turns, self.budget, more)?;
        let (body, more) = self.body(more)?;
        Ok((Stmt::Class(line, name, tree_or(base), body), more))
    }

    /// An `if` statement.
    fn choose<'a>(&self, tokens: &'a [Token]) -> Read<'a, Stmt>
        requires calls { F.IsAlwaysCallable self.now.statement }
        requires answers { AnswersStatements (F.post self.now.statement) self.now.turns (self.now.budget - 1) }
        requires small { self.now.budget < HEIGHT_LIMIT }
        ensures { Gives (λ x. (x.0, x.1.now)) result
            (if_at (readers self.now.turns self.now.budget) (inner_block self.now.turns self.now.budget)
            self.now.turns tokens.now) }
    {
        let (first, more) = self.arm(line_of(tokens), rest(tokens))?;
        let (arms, more) = self.elifs(first, more)?;
        let (otherwise, more) = self.clause(keyword::ELSE, more)?;
        Ok((Stmt::If(arms, otherwise), more))
    }

    /// A `while` statement.
    fn repeat<'a>(&self, tokens: &'a [Token]) -> Read<'a, Stmt>
        requires calls { F.IsAlwaysCallable self.now.statement }
        requires answers { AnswersStatements (F.post self.now.statement) self.now.turns (self.now.budget - 1) }
        requires small { self.now.budget < HEIGHT_LIMIT }
        ensures { Gives (λ x. (x.0, x.1.now)) result
            (while_at (readers self.now.turns self.now.budget) (inner_block self.now.turns self.now.budget)
            tokens.now) }
    {
        let (arm, more) = self.arm(line_of(tokens), rest(tokens))?;
        let (otherwise, more) = self.clause(keyword::ELSE, more)?;
        Ok((Stmt::While(arm, otherwise), more))
    }

    /// A `for` statement.
    fn iterate<'a>(&self, tokens: &'a [Token]) -> Read<'a, Stmt>
        requires calls { F.IsAlwaysCallable self.now.statement }
        requires answers { AnswersStatements (F.post self.now.statement) self.now.turns (self.now.budget - 1) }
        requires small { self.now.budget < HEIGHT_LIMIT }
        ensures { Gives (λ x. (x.0, x.1.now)) result
            (for_at (parts_of self.now.turns self.now.budget) self.now.turns tokens.now) }
    {
        let (target, more) = loop_target(self.alloc, self.turns, self.budget, rest(tokens))?;
        let more = take_keyword(more, keyword::IN)?;
        let (over, more) = self.read(TESTS, more)?;
        let (body, more) = self.body(more)?;
        let (otherwise, more) = self.clause(keyword::ELSE, more)?;
        let line = line_of(tokens);
        Ok((
            Stmt::For(line, target.tree, over.tree, body, otherwise),
            more,
        ))
    }

    /// A compound statement that begins with this keyword.
    fn compound<'a>(&self, word: u8, tokens: &'a [Token]) -> Read<'a, Stmt>
        requires calls { F.IsAlwaysCallable self.now.statement }
        requires answers { AnswersStatements (F.post self.now.statement) self.now.turns (self.now.budget - 1) }
        requires small { self.now.budget < HEIGHT_LIMIT }
        ensures { Gives (λ x. (x.0, x.1.now)) result
            (compound_at (parts_of self.now.turns self.now.budget) self.now.turns word tokens.now) }
    {
        match word {
            keyword::IF => self.choose(tokens),
            keyword::WHILE => self.repeat(tokens),
            keyword::FOR => self.iterate(tokens),
            keyword::TRY => self.tried(tokens),
            keyword::DEF => self.function(line_of(tokens), rest(tokens)),
            _ => self.class(line_of(tokens), rest(tokens)),
        }
    }

    /// A compound statement that begins with this keyword, alone.
    fn alone<'a>(&self, word: u8, tokens: &'a [Token]) -> Read<'a, Items<Stmt>>
        requires calls { F.IsAlwaysCallable self.now.statement }
        requires answers { AnswersStatements (F.post self.now.statement) self.now.turns (self.now.budget - 1) }
        requires small { self.now.budget < HEIGHT_LIMIT }
        ensures { Gives (λ x. (x.0, x.1.now)) result
            (alone_at (parts_of self.now.turns self.now.budget) self.now.turns (self.now.budget + 1) word tokens.now) }
    {
        if self.budget < 2 {
            return refused(tokens, Fault::Deep);
        }
        let (statement, more) = self.compound(word, tokens)?;
        let mut found = Items::new(self.alloc);
        found.push(statement)?;
        Ok((found, more))
    }

    /// A statement, or the simple ones of a line, that begins with this keyword.
    fn worded<'a>(&self, word: u8, tokens: &'a [Token]) -> Read<'a, Items<Stmt>>
        requires calls { F.IsAlwaysCallable self.now.statement }
        requires answers { AnswersStatements (F.post self.now.statement) self.now.turns (self.now.budget - 1) }
        requires small { self.now.budget < HEIGHT_LIMIT }
        ensures { Gives (λ x. (x.0, x.1.now)) result
            (statement_by (parts_of self.now.turns self.now.budget)
            self.now.turns (self.now.budget + 1) (k.Keyword word) tokens.now) }
    {
        if word == keyword::WITH {
            return refused(tokens, Fault::LeftOut(Construct::With));
        }
        if is_compound(word) {
            return self.alone(word, tokens);
        }
        self.simple(tokens)
    }

    /// A statement, or the simple ones of a line, of a height of at most `budget + 1`.
    #[tactic(auto, unfolding(py_grammar::specs::inner::Lines::statement_at))]
    pub fn statement<'a>(&self, tokens: &'a [Token]) -> Read<'a, Items<Stmt>>
        requires calls { F.IsAlwaysCallable self.now.statement }
        requires answers { AnswersStatements (F.post self.now.statement) self.now.turns (self.now.budget - 1) }
        requires small { self.now.budget < HEIGHT_LIMIT }
        ensures { Gives (λ x. (x.0, x.1.now)) result
            (statement_at (parts_of self.now.turns self.now.budget) self.now.turns (self.now.budget + 1) tokens.now) }
    {
        let Some((token, _)) = split(tokens) else {
            return self.simple(tokens);
        };
        match &token.kind {
            TokenKind::Keyword(word) => self.worded(*word, tokens),
            TokenKind::Op(operator::AT) => refused(tokens, Fault::LeftOut(Construct::Decorator)),
            _ => self.simple(tokens),
        }
    }
}
