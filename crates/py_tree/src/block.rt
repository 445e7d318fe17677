//! Statements with their blocks, and the text of a module.
#![tactic(auto, using(crate::proofs::Sheets::sheet_laws))]

ghost use Rattle.std.specs.Prelude.{◌≡◌, ◌∷◌, ◌++◌, map, IfOk, OnOk};
ghost use Rattle.py_tokens.specs.declared.keyword.TheConstants as kw;
ghost use Rattle.py_tokens.specs.declared.operator.TheConstants as op;
ghost use Rattle.py_tokens.specs.declared.token.TokenKind.TheVariants as k;
ghost use Rattle.py_tree.specs.Canonical.{begins_on, in_order, block_lexemes, param_words, base_words, head, piece, pieces, module_text};
ghost use Rattle.py_tree.specs.Lexeme.{lexeme};
ghost use Rattle.py_tree.specs.Spelling.{commas, round};
ghost use Rattle.py_tree.specs.inner.Clauses.{lexemes_arm, lexemes_if, lexemes_clause, lexemes_clause_or, lexemes_handlers, simple_line, piece_lexemes, joint};
ghost use Rattle.py_tree.specs.inner.Page.{put_all};

use crate::expr::Expr;
use crate::simple;
use crate::spell::expression;
use crate::stmt::{Arm, Clause, Handler, Module, Param, Stmt};
use crate::writer::Writer;
use py_base::{Bytes, NoMemory};
use py_tokens::{keyword, operator};
use sqlite_items::Items;
use std::alloc::Global;

/// The line of a simple statement.
fn line_of(s: &Stmt) -> Option<u32>
    ensures { result ≡ simple_line (piece s.now) }
{
    match s {
        Stmt::Do(line, _) => Some(*line),
        Stmt::Assign(line, _, _) => Some(*line),
        Stmt::Augment(line, _, _, _) => Some(*line),
        Stmt::Print(line, _, _) => Some(*line),
        Stmt::Pass(line) => Some(*line),
        Stmt::Break(line) => Some(*line),
        Stmt::Continue(line) => Some(*line),
        Stmt::Return(line, _) => Some(*line),
        Stmt::Raise(line, _, _) => Some(*line),
        Stmt::Del(line, _) => Some(*line),
        Stmt::Global(line, _) => Some(*line),
        Stmt::Assert(line, _, _) => Some(*line),
        Stmt::Import(line, _) => Some(*line),
        Stmt::From(line, _, _) => Some(*line),
        Stmt::If(_, _) => None,
        Stmt::While(_, _) => None,
        Stmt::For(_, _, _, _, _) => None,
        Stmt::Try(_, _, _, _) => None,
        Stmt::Def(_, _, _, _) => None,
        Stmt::Class(_, _, _, _) => None,
    }
}

/// Whether the first statement is a simple one on this line.
fn begins_on(line: u32, body: &[Stmt]) -> bool
    ensures { result ≡ begins_on line (pieces body.now) }
{
    match body {
        [] => false,
        [first, ..] => match line_of(first) {
            Some(next) => line == next,
            None => false,
        },
    }
}

/// What ends the simple statement of a line, if one isn't ended, before one of the next line, if there is one.
fn join(w: &mut Writer, short: bool, before: Option<u32>, next: Option<u32>) -> Result<(), NoMemory>
    ensures { OnOk result (w.new ≡ put_all w.old (joint short before next)) }
{
    let Some(line) = before else {
        return Ok(());
    };
    let Some(next) = next else {
        return w.newline();
    };
    if short || line == next {
        w.operator(line, operator::SEMICOLON)
    } else {
        w.newline()
    }
}

/// A statement, without what ends a simple one.
#[cycle(writing)]
fn statement(w: &mut Writer, s: &Stmt) -> Result<(), NoMemory>
    ensures { OnOk result (w.new ≡ put_all w.old (piece_lexemes (piece s.now))) }
{
    match s {
        Stmt::Do(line, e) => expression(w, *line, e),
        Stmt::Assign(line, es, e) => simple::assign(w, *line, es.as_slice(), e),
        Stmt::Augment(line, e, operator, f) => simple::augment(w, *line, e, *operator, f),
        Stmt::Print(line, es, comma) => simple::print(w, *line, es.as_slice(), *comma),
        Stmt::Pass(line) => w.keyword(*line, keyword::PASS),
        Stmt::Break(line) => w.keyword(*line, keyword::BREAK),
        Stmt::Continue(line) => w.keyword(*line, keyword::CONTINUE),
        Stmt::Return(line, e) => simple::give_back(w, *line, e),
        Stmt::Raise(line, e, f) => simple::raise(w, *line, e, f),
        Stmt::Del(line, es) => simple::delete(w, *line, es.as_slice()),
        Stmt::Global(line, names) => simple::global(w, *line, names.as_slice()),
        Stmt::Assert(line, e, f) => simple::assert(w, *line, e, f),
        Stmt::Import(line, is) => simple::import(w, *line, is.as_slice()),
        Stmt::From(line, name, is) => simple::import_from(w, *line, name.as_slice(), is.as_slice()),
        Stmt::If(each, other) => {
            arms(w, each.as_slice())?;
            clause_or(w, keyword::ELSE, other)
        }
        Stmt::While(first, other) => {
            arm(w, keyword::WHILE, first)?;
            clause_or(w, keyword::ELSE, other)
        }
        Stmt::For(line, target, over, body, other) => {
            simple::for_head(w, *line, target, over)?;
            suite(w, *line, body.as_slice())?;
            clause_or(w, keyword::ELSE, other)
        }
        Stmt::Try(first, each, other, last) => {
            clause(w, keyword::TRY, first)?;
            handlers(w, each.as_slice())?;
            clause_or(w, keyword::ELSE, other)?;
            clause_or(w, keyword::FINALLY, last)
        }
        Stmt::Def(line, name, params, body) => def(w, *line, name, params, body),
        Stmt::Class(line, name, base, body) => class(w, *line, name, base, body),
    }
}

/// Statements one after another, each simple one ended. In a short block all stand on their clause's logical line.
#[cycle(writing)]
fn statements(w: &mut Writer, short: bool, ss: &[Stmt]) -> Result<(), NoMemory>
    ensures { OnOk result (w.new ≡ put_all w.old (in_order short (pieces ss.now))) }
{
    let mut before = None;
    for s in ss {
        let line = line_of(s);
        join(w, short, before, line)?;
        statement(w, s)?;
        before = line;
    }
    join(w, short, before, None)
}

/// The block of a clause of this line.
#[cycle(writing)]
fn block(w: &mut Writer, line: u32, body: &[Stmt]) -> Result<(), NoMemory>
    ensures { OnOk result (w.new ≡ put_all w.old (block_lexemes line (pieces body.now))) }
{
    if begins_on(line, body) {
        statements(w, true, body)
    } else {
        w.newline()?;
        w.indent()?;
        statements(w, false, body)?;
        w.dedent();
        Ok(())
    }
}

/// The colon of a clause of this line, and the clause's block.
#[cycle(writing)]
fn suite(w: &mut Writer, line: u32, body: &[Stmt]) -> Result<(), NoMemory>
    ensures { OnOk result (w.new
        ≡ put_all w.old (lexeme (k.Op op.COLON) line ∷ block_lexemes line (pieces body.now))) }
{
    w.operator(line, operator::COLON)?;
    block(w, line, body)
}

/// A function's definition.
#[cycle(writing)]
fn def(
    w: &mut Writer,
    line: u32,
    name: &Bytes,
    params: &Items<Param>,
    body: &Items<Stmt>,
) -> Result<(), NoMemory>
    ensures { OnOk result (w.new ≡ put_all w.old
        (head line (k.Keyword kw.DEF ∷ k.Name name.now ∷ round (commas (map param_words params.now)))
        ++ block_lexemes line (pieces body.now))) }
{
    simple::def_head(w, line, name.as_slice(), params.as_slice())?;
    suite(w, line, body.as_slice())
}

/// A class's definition.
#[cycle(writing)]
fn class(
    w: &mut Writer,
    line: u32,
    name: &Bytes,
    base: &Option<Expr>,
    body: &Items<Stmt>,
) -> Result<(), NoMemory>
    ensures { OnOk result (w.new ≡ put_all w.old
        (head line (k.Keyword kw.CLASS ∷ k.Name name.now ∷ base_words base.now)
        ++ block_lexemes line (pieces body.now))) }
{
    simple::class_head(w, line, name.as_slice(), base)?;
    suite(w, line, body.as_slice())
}

/// An arm after this keyword.
#[cycle(writing)]
fn arm(w: &mut Writer, word: u8, a: &Arm) -> Result<(), NoMemory>
    ensures { OnOk result (w.new ≡ put_all w.old (lexemes_arm (k.Keyword word) a.now)) }
{
    w.keyword(a.line, word)?;
    expression(w, a.line, &a.test)?;
    suite(w, a.line, a.body.as_slice())
}

/// `if`, and each `elif`.
#[cycle(writing)]
fn arms(w: &mut Writer, each: &[Arm]) -> Result<(), NoMemory>
    ensures { OnOk result (w.new ≡ put_all w.old (lexemes_if each.now)) }
{
    let mut word = keyword::IF;
    for a in each {
        arm(w, word, a)?;
        word = keyword::ELIF;
    }
    Ok(())
}

/// A clause after this keyword.
#[cycle(writing)]
fn clause(w: &mut Writer, word: u8, c: &Clause) -> Result<(), NoMemory>
    ensures { OnOk result (w.new ≡ put_all w.old (lexemes_clause (k.Keyword word) c.now)) }
{
    w.keyword(c.line, word)?;
    suite(w, c.line, c.body.as_slice())
}

/// A clause after this keyword, if there is one.
#[cycle(writing)]
fn clause_or(w: &mut Writer, word: u8, c: &Option<Clause>) -> Result<(), NoMemory>
    ensures { OnOk result (w.new ≡ put_all w.old (lexemes_clause_or (k.Keyword word) c.now)) }
{
    match c {
        None => Ok(()),
        Some(c) => clause(w, word, c),
    }
}

/// Each `except`.
#[cycle(writing)]
fn handlers(w: &mut Writer, each: &[Handler]) -> Result<(), NoMemory>
    ensures { OnOk result (w.new ≡ put_all w.old (lexemes_handlers each.now)) }
{
    for h in each {
        simple::except_head(w, h.line, &h.test, &h.target)?;
        suite(w, h.line, h.body.as_slice())?;
    }
    Ok(())
}

/// The canonical text of a module: each simple statement and each clause on the line that the tree has for it. Where
/// the tree is that of some text, its canonical text has this tree again.
pub fn module_text(alloc: Global, m: &Module) -> Result<Bytes, NoMemory>
    ensures { IfOk result (λ t. t ≡ module_text m.now) }
{
    let mut w = Writer::new(alloc);
    statements(&mut w, false, m.body.as_slice())?;
    Ok(w.into_text())
}
