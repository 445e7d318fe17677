//! Expressions, word by word.
#![tactic(auto, using(crate::proofs::Pages::spelled))]

ghost use Rattle.std.specs.Prelude.{◌≡◌, ◌==◌, ◌∷◌, ◌++◌, length, map, OnOk};
ghost use Rattle.py_tokens.specs.declared.keyword.TheConstants as kw;
ghost use Rattle.py_tokens.specs.declared.operator.TheConstants as op;
ghost use Rattle.py_tokens.specs.declared.token.TokenKind.TheVariants as k;
ghost use Rattle.py_tree.specs.Spelling.{operator_words, sign_words, commas, all_words, round, square, words, words_trailer, words_link, words_named, words_pair};
ghost use Rattle.py_tree.specs.Canonical.{expr_or};
ghost use Rattle.py_tree.specs.inner.Page.{spell, comma_if, listed};

use crate::expr::{Expr, Link, Named, Operator, Pair, Sign, Trailer};
use crate::writer::Writer;
use py_base::NoMemory;
use py_tokens::{keyword, operator};
use sqlite_items::Boxed;

fn operator(w: &mut Writer, line: u32, operator: Operator) -> Result<(), NoMemory>
    ensures { OnOk result (w.new ≡ spell line w.old (operator_words operator)) }
{
    match operator {
        Operator::Or => w.keyword(line, keyword::OR),
        Operator::And => w.keyword(line, keyword::AND),
        Operator::Less => w.operator(line, operator::LESS),
        Operator::Greater => w.operator(line, operator::GREATER),
        Operator::Equal => w.operator(line, operator::EQUAL),
        Operator::GreaterEqual => w.operator(line, operator::GREATER_EQUAL),
        Operator::LessEqual => w.operator(line, operator::LESS_EQUAL),
        Operator::NotEqual => w.operator(line, operator::NOT_EQUAL),
        Operator::In => w.keyword(line, keyword::IN),
        Operator::NotIn => {
            w.keyword(line, keyword::NOT)?;
            w.keyword(line, keyword::IN)
        }
        Operator::Is => w.keyword(line, keyword::IS),
        Operator::IsNot => {
            w.keyword(line, keyword::IS)?;
            w.keyword(line, keyword::NOT)
        }
        Operator::BitOr => w.operator(line, operator::BAR),
        Operator::BitXor => w.operator(line, operator::CARET),
        Operator::BitAnd => w.operator(line, operator::AMPERSAND),
        Operator::ShiftLeft => w.operator(line, operator::SHIFT_LEFT),
        Operator::ShiftRight => w.operator(line, operator::SHIFT_RIGHT),
        Operator::Plus => w.operator(line, operator::PLUS),
        Operator::Minus => w.operator(line, operator::MINUS),
        Operator::Times => w.operator(line, operator::STAR),
        Operator::Divide => w.operator(line, operator::SLASH),
        Operator::Floor => w.operator(line, operator::FLOOR),
        Operator::Remainder => w.operator(line, operator::PERCENT),
        Operator::Power => w.operator(line, operator::POWER),
    }
}

fn sign(w: &mut Writer, line: u32, sign: Sign) -> Result<(), NoMemory>
    ensures { OnOk result (w.new ≡ spell line w.old (sign_words sign)) }
{
    match sign {
        Sign::Plus => w.operator(line, operator::PLUS),
        Sign::Minus => w.operator(line, operator::MINUS),
        Sign::Invert => w.operator(line, operator::TILDE),
    }
}

/// A comma, if it is needed.
pub fn separate(w: &mut Writer, line: u32, needed: bool) -> Result<(), NoMemory>
    ensures { OnOk result (w.new ≡ spell line w.old (comma_if needed)) }
{
    if needed {
        w.operator(line, operator::COMMA)
    } else {
        Ok(())
    }
}

/// An expression on this line.
#[cycle(spelling)]
pub fn expression(w: &mut Writer, line: u32, e: &Expr) -> Result<(), NoMemory>
    ensures { OnOk result (w.new ≡ spell line w.old (words e.now)) }
{
    match e {
        Expr::Name(name) => w.name(line, name.as_slice()),
        Expr::Int(n) => w.int(line, *n),
        Expr::Str(bytes) => w.string(line, bytes.as_slice()),
        Expr::Group(inner) => group(w, line, inner.get()),
        Expr::Tuple(items) => tuple(w, line, items.as_slice()),
        Expr::List(items) => list(w, line, items.as_slice()),
        Expr::Dict(pairs) => {
            w.operator(line, operator::OPEN_BRACE)?;
            dictionary(w, line, pairs.as_slice())?;
            w.operator(line, operator::CLOSE_BRACE)
        }
        Expr::Trail(atom, more) => {
            expression(w, line, atom.get())?;
            trailers(w, line, more.as_slice())
        }
        Expr::Power(base, exponent) => {
            expression(w, line, base.get())?;
            w.operator(line, operator::POWER)?;
            expression(w, line, exponent.get())
        }
        Expr::Unary(before, operand) => {
            sign(w, line, *before)?;
            expression(w, line, operand.get())
        }
        Expr::Chain(_, first, more) => {
            expression(w, line, first.get())?;
            links(w, line, more.as_slice())
        }
        Expr::Not(operand) => negated(w, line, operand.get()),
        Expr::Choice(then, test, other) => {
            expression(w, line, then.get())?;
            w.keyword(line, keyword::IF)?;
            expression(w, line, test.get())?;
            w.keyword(line, keyword::ELSE)?;
            expression(w, line, other.get())
        }
    }
}

#[cycle(spelling)]
fn group(w: &mut Writer, line: u32, inner: &Expr) -> Result<(), NoMemory>
    ensures { OnOk result (w.new ≡ spell line w.old (round (words inner.now))) }
{
    w.operator(line, operator::OPEN_ROUND)?;
    expression(w, line, inner)?;
    w.operator(line, operator::CLOSE_ROUND)
}

/// A tuple, with a comma after its only item.
#[cycle(spelling)]
fn tuple(w: &mut Writer, line: u32, items: &[Expr]) -> Result<(), NoMemory>
    ensures { OnOk result (w.new
        ≡ spell line w.old (round (commas (map words items.now) ++ comma_if (length items.now == 1)))) }
{
    w.operator(line, operator::OPEN_ROUND)?;
    listed(w, line, false, items)?;
    separate(w, line, items.len() == 1)?;
    w.operator(line, operator::CLOSE_ROUND)
}

#[cycle(spelling)]
fn list(w: &mut Writer, line: u32, items: &[Expr]) -> Result<(), NoMemory>
    ensures { OnOk result (w.new ≡ spell line w.old (square (commas (map words items.now)))) }
{
    w.operator(line, operator::OPEN_SQUARE)?;
    listed(w, line, false, items)?;
    w.operator(line, operator::CLOSE_SQUARE)
}

#[cycle(spelling)]
fn negated(w: &mut Writer, line: u32, operand: &Expr) -> Result<(), NoMemory>
    ensures { OnOk result (w.new ≡ spell line w.old (k.Keyword kw.NOT ∷ words operand.now)) }
{
    w.keyword(line, keyword::NOT)?;
    expression(w, line, operand)
}

/// Expressions with commas between them, and one before the first if it is wanted there.
#[cycle(spelling)]
pub fn listed(w: &mut Writer, line: u32, comma: bool, es: &[Expr]) -> Result<(), NoMemory>
    ensures { OnOk result (w.new ≡ spell line w.old (listed comma (map words es.now))) }
{
    let mut comma = comma;
    for e in es {
        separate(w, line, comma)?;
        expression(w, line, e)?;
        comma = true;
    }
    Ok(())
}

/// Pairs with commas between them.
#[cycle(spelling)]
fn dictionary(w: &mut Writer, line: u32, pairs: &[Pair]) -> Result<(), NoMemory>
    ensures { OnOk result (w.new ≡ spell line w.old (commas (map words_pair pairs.now))) }
{
    let mut comma = false;
    for pair in pairs {
        separate(w, line, comma)?;
        expression(w, line, &pair.key)?;
        w.operator(line, operator::COLON)?;
        expression(w, line, &pair.value)?;
        comma = true;
    }
    Ok(())
}

/// Arguments by keyword, as `listed`.
#[cycle(spelling)]
fn named(w: &mut Writer, line: u32, comma: bool, ns: &[Named]) -> Result<(), NoMemory>
    ensures { OnOk result (w.new ≡ spell line w.old (listed comma (map words_named ns.now))) }
{
    let mut comma = comma;
    for n in ns {
        separate(w, line, comma)?;
        w.name(line, n.name.as_slice())?;
        w.operator(line, operator::ASSIGN)?;
        expression(w, line, &n.value)?;
        comma = true;
    }
    Ok(())
}

/// Operators with the operands after them.
#[cycle(spelling)]
fn links(w: &mut Writer, line: u32, links: &[Link]) -> Result<(), NoMemory>
    ensures { OnOk result (w.new ≡ spell line w.old (all_words (map words_link links.now))) }
{
    for link in links {
        operator(w, line, link.operator)?;
        expression(w, line, &link.operand)?;
    }
    Ok(())
}

/// An expression, if there is one.
#[cycle(spelling)]
fn optional(w: &mut Writer, line: u32, e: &Option<Boxed<Expr>>) -> Result<(), NoMemory>
    ensures { OnOk result (w.new ≡ spell line w.old (expr_or e.now)) }
{
    match e {
        None => Ok(()),
        Some(e) => expression(w, line, e.get()),
    }
}

#[cycle(spelling)]
fn trailer(w: &mut Writer, line: u32, trailer: &Trailer) -> Result<(), NoMemory>
    ensures { OnOk result (w.new ≡ spell line w.old (words_trailer trailer.now)) }
{
    match trailer {
        Trailer::Attribute(name) => {
            w.operator(line, operator::DOT)?;
            w.name(line, name.as_slice())
        }
        Trailer::Index(e) => {
            w.operator(line, operator::OPEN_SQUARE)?;
            expression(w, line, e.get())?;
            w.operator(line, operator::CLOSE_SQUARE)
        }
        Trailer::Slice(from, to) => {
            w.operator(line, operator::OPEN_SQUARE)?;
            optional(w, line, from)?;
            w.operator(line, operator::COLON)?;
            optional(w, line, to)?;
            w.operator(line, operator::CLOSE_SQUARE)
        }
        Trailer::Call(es, ns) => {
            w.operator(line, operator::OPEN_ROUND)?;
            listed(w, line, false, es.as_slice())?;
            named(w, line, es.len() != 0, ns.as_slice())?;
            w.operator(line, operator::CLOSE_ROUND)
        }
    }
}

#[cycle(spelling)]
fn trailers(w: &mut Writer, line: u32, trailers: &[Trailer]) -> Result<(), NoMemory>
    ensures { OnOk result (w.new ≡ spell line w.old (all_words (map words_trailer trailers.now))) }
{
    for each in trailers {
        trailer(w, line, each)?;
    }
    Ok(())
}
