//! Simple statements, word by word, without what ends them.
#![tactic(auto, using(crate::proofs::Pages::spelled))]

ghost use Rattle.std.specs.Prelude.{◌≡◌, ◌∷◌, ◌++◌, map, OnOk};
ghost use Rattle.py_tokens.specs.declared.keyword.TheConstants as kw;
ghost use Rattle.py_tokens.specs.declared.operator.TheConstants as op;
ghost use Rattle.py_tokens.specs.declared.token.TokenKind.TheVariants as k;
ghost use Rattle.py_tree.specs.Spelling.{commas, round, words};
ghost use Rattle.py_tree.specs.Canonical.{all, ended, expr_or, led_or, assigning, trailing, name_words, bound_words, imported_words, param_words, base_words};
ghost use Rattle.py_tree.specs.inner.Page.{spell};

use crate::expr::{Expr, Operator};
use crate::spell::{expression, listed, separate};
use crate::stmt::{Imported, Param};
use crate::writer::Writer;
use py_base::{Bytes, NoMemory};
use py_tokens::{keyword, operator};

/// Targets, each with `=` after it.
fn targets(w: &mut Writer, line: u32, es: &[Expr]) -> Result<(), NoMemory>
    ensures { OnOk result (w.new ≡ spell line w.old (ended (k.Op op.ASSIGN) (all es.now))) }
{
    for e in es {
        expression(w, line, e)?;
        w.operator(line, operator::ASSIGN)?;
    }
    Ok(())
}

pub fn assign(w: &mut Writer, line: u32, es: &[Expr], value: &Expr) -> Result<(), NoMemory>
    ensures { OnOk result (w.new ≡ spell line w.old (ended (k.Op op.ASSIGN) (all es.now) ++ words value.now)) }
{
    targets(w, line, es)?;
    expression(w, line, value)
}

/// The operator of an augmented assignment. Those that have none give no word.
fn assigning(w: &mut Writer, line: u32, operator: Operator) -> Result<(), NoMemory>
    ensures { OnOk result (w.new ≡ spell line w.old (assigning operator)) }
{
    match operator {
        Operator::Power => w.operator(line, operator::POWER_ASSIGN),
        Operator::Floor => w.operator(line, operator::FLOOR_ASSIGN),
        Operator::ShiftRight => w.operator(line, operator::SHIFT_RIGHT_ASSIGN),
        Operator::ShiftLeft => w.operator(line, operator::SHIFT_LEFT_ASSIGN),
        Operator::Plus => w.operator(line, operator::PLUS_ASSIGN),
        Operator::Minus => w.operator(line, operator::MINUS_ASSIGN),
        Operator::Times => w.operator(line, operator::STAR_ASSIGN),
        Operator::Divide => w.operator(line, operator::SLASH_ASSIGN),
        Operator::Remainder => w.operator(line, operator::PERCENT_ASSIGN),
        Operator::BitAnd => w.operator(line, operator::AMPERSAND_ASSIGN),
        Operator::BitOr => w.operator(line, operator::BAR_ASSIGN),
        Operator::BitXor => w.operator(line, operator::CARET_ASSIGN),
        _ => Ok(()),
    }
}

pub fn augment(
    w: &mut Writer,
    line: u32,
    target: &Expr,
    operator: Operator,
    value: &Expr,
) -> Result<(), NoMemory>
    ensures { OnOk result (w.new ≡ spell line w.old (words target.now ++ assigning operator ++ words value.now)) }
{
    expression(w, line, target)?;
    assigning(w, line, operator)?;
    expression(w, line, value)
}

pub fn print(w: &mut Writer, line: u32, es: &[Expr], comma: bool) -> Result<(), NoMemory>
    ensures { OnOk result (w.new ≡ spell line w.old (k.Keyword kw.PRINT ∷ commas (all es.now) ++ trailing comma)) }
{
    w.keyword(line, keyword::PRINT)?;
    listed(w, line, false, es)?;
    separate(w, line, comma)
}

/// An expression, if there is one.
pub fn value(w: &mut Writer, line: u32, e: &Option<Expr>) -> Result<(), NoMemory>
    ensures { OnOk result (w.new ≡ spell line w.old (expr_or e.now)) }
{
    match e {
        None => Ok(()),
        Some(e) => expression(w, line, e),
    }
}

/// An expression after a comma, if there is one.
fn after_comma(w: &mut Writer, line: u32, e: &Option<Expr>) -> Result<(), NoMemory>
    ensures { OnOk result (w.new ≡ spell line w.old (led_or (k.Op op.COMMA) e.now)) }
{
    match e {
        None => Ok(()),
        Some(e) => {
            w.operator(line, operator::COMMA)?;
            expression(w, line, e)
        }
    }
}

/// An expression after `as`, if there is one.
pub fn after_as(w: &mut Writer, line: u32, e: &Option<Expr>) -> Result<(), NoMemory>
    ensures { OnOk result (w.new ≡ spell line w.old (led_or (k.Keyword kw.AS) e.now)) }
{
    match e {
        None => Ok(()),
        Some(e) => {
            w.keyword(line, keyword::AS)?;
            expression(w, line, e)
        }
    }
}

pub fn give_back(w: &mut Writer, line: u32, e: &Option<Expr>) -> Result<(), NoMemory>
    ensures { OnOk result (w.new ≡ spell line w.old (k.Keyword kw.RETURN ∷ expr_or e.now)) }
{
    w.keyword(line, keyword::RETURN)?;
    value(w, line, e)
}

pub fn raise(
    w: &mut Writer,
    line: u32,
    e: &Option<Expr>,
    more: &Option<Expr>,
) -> Result<(), NoMemory>
    ensures { OnOk result (w.new
        ≡ spell line w.old (k.Keyword kw.RAISE ∷ expr_or e.now ++ led_or (k.Op op.COMMA) more.now)) }
{
    w.keyword(line, keyword::RAISE)?;
    value(w, line, e)?;
    after_comma(w, line, more)
}

pub fn delete(w: &mut Writer, line: u32, es: &[Expr]) -> Result<(), NoMemory>
    ensures { OnOk result (w.new ≡ spell line w.old (k.Keyword kw.DEL ∷ commas (all es.now))) }
{
    w.keyword(line, keyword::DEL)?;
    listed(w, line, false, es)
}

fn names(w: &mut Writer, line: u32, ns: &[Bytes]) -> Result<(), NoMemory>
    ensures { OnOk result (w.new ≡ spell line w.old (commas (map name_words ns.now))) }
{
    let mut comma = false;
    for n in ns {
        separate(w, line, comma)?;
        w.name(line, n.as_slice())?;
        comma = true;
    }
    Ok(())
}

pub fn global(w: &mut Writer, line: u32, ns: &[Bytes]) -> Result<(), NoMemory>
    ensures { OnOk result (w.new ≡ spell line w.old (k.Keyword kw.GLOBAL ∷ commas (map name_words ns.now))) }
{
    w.keyword(line, keyword::GLOBAL)?;
    names(w, line, ns)
}

pub fn assert(w: &mut Writer, line: u32, test: &Expr, more: &Option<Expr>) -> Result<(), NoMemory>
    ensures { OnOk result (w.new
        ≡ spell line w.old (k.Keyword kw.ASSERT ∷ words test.now ++ led_or (k.Op op.COMMA) more.now)) }
{
    w.keyword(line, keyword::ASSERT)?;
    expression(w, line, test)?;
    after_comma(w, line, more)
}

fn bound(w: &mut Writer, line: u32, name: &Option<Bytes>) -> Result<(), NoMemory>
    ensures { OnOk result (w.new ≡ spell line w.old (bound_words name.now)) }
{
    match name {
        None => Ok(()),
        Some(name) => {
            w.keyword(line, keyword::AS)?;
            w.name(line, name.as_slice())
        }
    }
}

fn imported(w: &mut Writer, line: u32, i: &Imported) -> Result<(), NoMemory>
    ensures { OnOk result (w.new ≡ spell line w.old (imported_words i.now)) }
{
    w.name(line, i.name.as_slice())?;
    bound(w, line, &i.bound)
}

fn all_imported(w: &mut Writer, line: u32, is: &[Imported]) -> Result<(), NoMemory>
    ensures { OnOk result (w.new ≡ spell line w.old (commas (map imported_words is.now))) }
{
    let mut comma = false;
    for i in is {
        separate(w, line, comma)?;
        imported(w, line, i)?;
        comma = true;
    }
    Ok(())
}

pub fn import(w: &mut Writer, line: u32, is: &[Imported]) -> Result<(), NoMemory>
    ensures { OnOk result (w.new ≡ spell line w.old (k.Keyword kw.IMPORT ∷ commas (map imported_words is.now))) }
{
    w.keyword(line, keyword::IMPORT)?;
    all_imported(w, line, is)
}

pub fn import_from(w: &mut Writer, line: u32, from: &[u8], is: &[Imported]) -> Result<(), NoMemory>
    ensures { OnOk result (w.new
        ≡ spell line w.old
        (k.Keyword kw.FROM ∷ k.Name from.now ∷ k.Keyword kw.IMPORT ∷ commas (map imported_words is.now))) }
{
    w.keyword(line, keyword::FROM)?;
    w.name(line, from)?;
    import(w, line, is)
}

// ---- heads of clauses, without the colon

fn param(w: &mut Writer, line: u32, p: &Param) -> Result<(), NoMemory>
    ensures { OnOk result (w.new ≡ spell line w.old (param_words p.now)) }
{
    w.name(line, p.name.as_slice())?;
    match &p.default {
        None => Ok(()),
        Some(e) => {
            w.operator(line, operator::ASSIGN)?;
            expression(w, line, e)
        }
    }
}

fn params(w: &mut Writer, line: u32, ps: &[Param]) -> Result<(), NoMemory>
    ensures { OnOk result (w.new ≡ spell line w.old (commas (map param_words ps.now))) }
{
    let mut comma = false;
    for p in ps {
        separate(w, line, comma)?;
        param(w, line, p)?;
        comma = true;
    }
    Ok(())
}

pub fn def_head(w: &mut Writer, line: u32, name: &[u8], ps: &[Param]) -> Result<(), NoMemory>
    ensures { OnOk result (w.new
        ≡ spell line w.old (k.Keyword kw.DEF ∷ k.Name name.now ∷ round (commas (map param_words ps.now)))) }
{
    w.keyword(line, keyword::DEF)?;
    w.name(line, name)?;
    w.operator(line, operator::OPEN_ROUND)?;
    params(w, line, ps)?;
    w.operator(line, operator::CLOSE_ROUND)
}

fn base(w: &mut Writer, line: u32, e: &Option<Expr>) -> Result<(), NoMemory>
    ensures { OnOk result (w.new ≡ spell line w.old (base_words e.now)) }
{
    match e {
        None => Ok(()),
        Some(e) => {
            w.operator(line, operator::OPEN_ROUND)?;
            expression(w, line, e)?;
            w.operator(line, operator::CLOSE_ROUND)
        }
    }
}

pub fn class_head(w: &mut Writer, line: u32, name: &[u8], e: &Option<Expr>) -> Result<(), NoMemory>
    ensures { OnOk result (w.new ≡ spell line w.old (k.Keyword kw.CLASS ∷ k.Name name.now ∷ base_words e.now)) }
{
    w.keyword(line, keyword::CLASS)?;
    w.name(line, name)?;
    base(w, line, e)
}

pub fn for_head(w: &mut Writer, line: u32, target: &Expr, over: &Expr) -> Result<(), NoMemory>
    ensures { OnOk result (w.new
        ≡ spell line w.old (k.Keyword kw.FOR ∷ words target.now ++ k.Keyword kw.IN ∷ words over.now)) }
{
    w.keyword(line, keyword::FOR)?;
    expression(w, line, target)?;
    w.keyword(line, keyword::IN)?;
    expression(w, line, over)
}

pub fn except_head(
    w: &mut Writer,
    line: u32,
    test: &Option<Expr>,
    target: &Option<Expr>,
) -> Result<(), NoMemory>
    ensures { OnOk result (w.new
        ≡ spell line w.old (k.Keyword kw.EXCEPT ∷ expr_or test.now ++ led_or (k.Keyword kw.AS) target.now)) }
{
    w.keyword(line, keyword::EXCEPT)?;
    value(w, line, test)?;
    after_as(w, line, target)
}
