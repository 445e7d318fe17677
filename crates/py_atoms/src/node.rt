//! Expressions and trailers of their parts.
ghost use Rattle.std.specs.Prelude.{◌≡◌, ◌<◌, IfOk};
ghost use Rattle.py_grammar.specs.inner.Tall.{of_name, of_int, of_string, of_group, unit, of_tuple, of_list, of_dict, of_trail, of_power, of_sign, of_chain, of_not, of_choice, of_attribute, of_index, of_slice, of_call, tall_or, tree_or};

use crate::tall::{HEIGHT_LIMIT, is_target, plain};
use py_base::{Bytes, NoMemory};
use py_grammar::Tall;
use py_tree::{Expr, Form, Level, Link, Named, Pair, Sign, Trailer};
use sqlite_items::{Boxed, Items};
use std::alloc::Global;

pub fn name(name: Bytes) -> Tall<Expr>
    ensures { result ≡ of_name name }
{
    Tall {
        tree: Expr::Name(name),
        tall: 1,
        form: Form::Bare,
    }
}

pub fn int(n: i64) -> Tall<Expr>
    ensures { result ≡ of_int n }
{
    plain(Expr::Int(n), 1)
}

pub fn string(bytes: Bytes) -> Tall<Expr>
    ensures { result ≡ of_string bytes }
{
    plain(Expr::Str(bytes), 1)
}

pub fn group(alloc: Global, test: Tall<Expr>) -> Result<Tall<Expr>, NoMemory>
    requires { test.tall < HEIGHT_LIMIT }
    ensures { IfOk result (λ x. x ≡ of_group test) }
{
    let form = Form::Many(is_target(false, test.form), is_target(true, test.form));
    Ok(Tall {
        tree: Expr::Group(Boxed::new(alloc, test.tree)?),
        tall: test.tall + 1,
        form,
    })
}

/// The empty parentheses.
pub fn unit(alloc: Global) -> Tall<Expr>
    ensures { result ≡ unit }
{
    plain(Expr::Tuple(Items::new(alloc)), 1)
}

pub fn tuple(tests: Tall<Items<Expr>>) -> Tall<Expr>
    requires { tests.tall < HEIGHT_LIMIT }
    ensures { result ≡ of_tuple tests }
{
    Tall {
        tree: Expr::Tuple(tests.tree),
        tall: tests.tall + 1,
        form: tests.form,
    }
}

pub fn list(tests: Tall<Items<Expr>>) -> Tall<Expr>
    requires { tests.tall < HEIGHT_LIMIT }
    ensures { result ≡ of_list tests }
{
    Tall {
        tree: Expr::List(tests.tree),
        tall: tests.tall + 1,
        form: tests.form,
    }
}

pub fn dict(pairs: Tall<Items<Pair>>) -> Tall<Expr>
    requires { pairs.tall < HEIGHT_LIMIT }
    ensures { result ≡ of_dict pairs }
{
    plain(Expr::Dict(pairs.tree), pairs.tall + 1)
}

pub fn trail(
    alloc: Global,
    atom: Tall<Expr>,
    trailers: Tall<Items<Trailer>>,
) -> Result<Tall<Expr>, NoMemory>
    requires atom { atom.tall < HEIGHT_LIMIT }
    requires trailers { trailers.tall < HEIGHT_LIMIT }
    ensures { IfOk result (λ x. x ≡ of_trail atom trailers) }
{
    Ok(Tall {
        tree: Expr::Trail(Boxed::new(alloc, atom.tree)?, trailers.tree),
        tall: atom.tall.max(trailers.tall) + 1,
        form: trailers.form,
    })
}

pub fn power(alloc: Global, base: Tall<Expr>, exponent: Tall<Expr>) -> Result<Tall<Expr>, NoMemory>
    requires base { base.tall < HEIGHT_LIMIT }
    requires exponent { exponent.tall < HEIGHT_LIMIT }
    ensures { IfOk result (λ x. x ≡ of_power base exponent) }
{
    let tall = base.tall.max(exponent.tall) + 1;
    let base = Boxed::new(alloc, base.tree)?;
    Ok(plain(Expr::Power(base, Boxed::new(alloc, exponent.tree)?), tall))
}

pub fn unary(alloc: Global, sign: Sign, operand: Tall<Expr>) -> Result<Tall<Expr>, NoMemory>
    requires { operand.tall < HEIGHT_LIMIT }
    ensures { IfOk result (λ x. x ≡ of_sign sign operand) }
{
    let tall = operand.tall + 1;
    Ok(plain(Expr::Unary(sign, Boxed::new(alloc, operand.tree)?), tall))
}

pub fn chain(
    alloc: Global,
    level: Level,
    first: Tall<Expr>,
    links: Tall<Items<Link>>,
) -> Result<Tall<Expr>, NoMemory>
    requires first { first.tall < HEIGHT_LIMIT }
    requires links { links.tall < HEIGHT_LIMIT }
    ensures { IfOk result (λ x. x ≡ of_chain level first links) }
{
    let tall = first.tall.max(links.tall) + 1;
    Ok(plain(
        Expr::Chain(level, Boxed::new(alloc, first.tree)?, links.tree),
        tall,
    ))
}

pub fn not(alloc: Global, operand: Tall<Expr>) -> Result<Tall<Expr>, NoMemory>
    requires { operand.tall < HEIGHT_LIMIT }
    ensures { IfOk result (λ x. x ≡ of_not operand) }
{
    let tall = operand.tall + 1;
    Ok(plain(Expr::Not(Boxed::new(alloc, operand.tree)?), tall))
}

/// `value if condition else other`.
pub fn choice(
    alloc: Global,
    value: Tall<Expr>,
    condition: Tall<Expr>,
    other: Tall<Expr>,
) -> Result<Tall<Expr>, NoMemory>
    requires value { value.tall < HEIGHT_LIMIT }
    requires condition { condition.tall < HEIGHT_LIMIT }
    requires other { other.tall < HEIGHT_LIMIT }
    ensures { IfOk result (λ x. x ≡ of_choice value condition other) }
{
    let tall = value.tall.max(condition.tall.max(other.tall)) + 1;
    let value = Boxed::new(alloc, value.tree)?;
    let condition = Boxed::new(alloc, condition.tree)?;
    Ok(plain(
        Expr::Choice(value, condition, Boxed::new(alloc, other.tree)?),
        tall,
    ))
}

pub fn attribute(name: Bytes) -> Tall<Trailer>
    ensures { result ≡ of_attribute name }
{
    Tall {
        tree: Trailer::Attribute(name),
        tall: 0,
        form: Form::Part,
    }
}

pub fn index(alloc: Global, index: Tall<Expr>) -> Result<Tall<Trailer>, NoMemory>
    ensures { IfOk result (λ x. x ≡ of_index index) }
{
    Ok(Tall {
        tree: Trailer::Index(Boxed::new(alloc, index.tree)?),
        tall: index.tall,
        form: Form::Part,
    })
}

/// The height of a tree that may be absent; 0 for none.
fn tall_or(tree: &Option<Tall<Expr>>) -> usize
    ensures { result ≡ tall_or tree.now }
{
    match tree {
        None => 0,
        Some(tree) => tree.tall,
    }
}

fn boxed(alloc: Global, tree: Option<Tall<Expr>>) -> Result<Option<Boxed<Expr>>, NoMemory>
    ensures { IfOk result (λ x. x ≡ tree_or tree) }
{
    match tree {
        None => Ok(None),
        Some(tree) => Ok(Some(Boxed::new(alloc, tree.tree)?)),
    }
}

pub fn slice(
    alloc: Global,
    from: Option<Tall<Expr>>,
    to: Option<Tall<Expr>>,
) -> Result<Tall<Trailer>, NoMemory>
    ensures { IfOk result (λ x. x ≡ of_slice from to) }
{
    let tall = tall_or(&from).max(tall_or(&to));
    let from = boxed(alloc, from)?;
    Ok(Tall {
        tree: Trailer::Slice(from, boxed(alloc, to)?),
        tall,
        form: Form::Cut,
    })
}

pub fn call(tests: Tall<Items<Expr>>, named: Tall<Items<Named>>) -> Tall<Trailer>
    ensures { result ≡ of_call tests named }
{
    plain(
        Trailer::Call(tests.tree, named.tree),
        tests.tall.max(named.tall),
    )
}
