//! Trees with their heights and forms, as reading builds them.
ghost use Rattle.std.specs.Prelude.{◌≡◌, IfOk, OnOk};
ghost use Rattle.py_tree.specs.declared.form.Form.TheVariants.{Plain};
ghost use Rattle.py_tree.specs.Form.{is_target, is_single};
ghost use Rattle.py_grammar.specs.inner.Reading.{is_bare};
ghost use Rattle.py_grammar.specs.inner.Tall.{joined, plain, none, start, push, push_link, push_pair, push_named, push_trailer};

use py_base::{Bytes, NoMemory};
use py_grammar::Tall;
use py_tree::{Expr, Form, Link, Named, Operator, Pair, Trailer};
use sqlite_items::Items;
use std::alloc::Global;

/// The greatest height of a module.
pub const HEIGHT_LIMIT: usize = 100;

/// Whether it is a target, where slices count as targets or where they don't.
pub fn is_target(slices: bool, form: Form) -> bool
    ensures { result ≡ is_target slices form }
{
    match form {
        Form::Bare => true,
        Form::Part => true,
        Form::Cut => slices,
        Form::Many(strict, wide) => if slices { wide } else { strict },
        Form::Plain => false,
    }
}

/// Whether it is an augmented target, where slices count as targets or where they don't.
pub fn is_single(slices: bool, form: Form) -> bool
    ensures { result ≡ is_single slices form }
{
    match form {
        Form::Bare => true,
        Form::Part => true,
        Form::Cut => slices,
        _ => false,
    }
}

/// Whether it is a name.
pub fn is_bare(form: Form) -> bool
    ensures { result ≡ is_bare form }
{
    match form {
        Form::Bare => true,
        _ => false,
    }
}

fn joined(forms: Form, form: Form) -> Form
    ensures { result ≡ joined forms form }
{
    match forms {
        Form::Many(strict, wide) => {
            Form::Many(
                strict && is_target(false, form),
                wide && is_target(true, form),
            )
        }
        _ => Form::Plain,
    }
}

/// A tree that is no target.
pub fn plain<T>(tree: T, tall: usize) -> Tall<T>
    ensures { result ≡ plain tree tall }
{
    Tall {
        tree,
        tall,
        form: Form::Plain,
    }
}

/// No expressions.
pub fn no_tests(alloc: Global) -> Tall<Items<Expr>>
    ensures { result ≡ none }
{
    Tall {
        tree: Items::new(alloc),
        tall: 0,
        form: Form::Many(true, true),
    }
}

/// One expression behind the others.
pub fn push(tests: &mut Tall<Items<Expr>>, test: Tall<Expr>) -> Result<(), NoMemory>
    ensures { OnOk result (tests.new ≡ push tests.old test) }
{
    let Tall { tree, tall, form } = test;
    tests.tree.push(tree)?;
    tests.tall = tests.tall.max(tall);
    tests.form = joined(tests.form, form);
    Ok(())
}

/// One expression alone.
pub fn start(alloc: Global, test: Tall<Expr>) -> Result<Tall<Items<Expr>>, NoMemory>
    ensures { IfOk result (λ x. x ≡ start test) }
{
    let mut tests = no_tests(alloc);
    push(&mut tests, test)?;
    Ok(tests)
}

/// One operator with its operand behind the others.
pub fn push_link(
    links: &mut Tall<Items<Link>>,
    operator: Operator,
    operand: Tall<Expr>,
) -> Result<(), NoMemory>
    requires { links.old.form ≡ Plain }
    ensures { OnOk result (links.new ≡ push_link links.old operator operand) }
{
    let Tall {
        tree,
        tall,
        form: _,
    } = operand;
    links.tree.push(Link {
        operator,
        operand: tree,
    })?;
    links.tall = links.tall.max(tall);
    Ok(())
}

/// One pair behind the others.
pub fn push_pair(
    pairs: &mut Tall<Items<Pair>>,
    key: Tall<Expr>,
    value: Tall<Expr>,
) -> Result<(), NoMemory>
    requires { pairs.old.form ≡ Plain }
    ensures { OnOk result (pairs.new ≡ push_pair pairs.old key value) }
{
    pairs.tree.push(Pair {
        key: key.tree,
        value: value.tree,
    })?;
    pairs.tall = pairs.tall.max(key.tall.max(value.tall));
    Ok(())
}

/// One keyword argument behind the others.
pub fn push_named(
    arguments: &mut Tall<Items<Named>>,
    name: Bytes,
    value: Tall<Expr>,
) -> Result<(), NoMemory>
    requires { arguments.old.form ≡ Plain }
    ensures { OnOk result (arguments.new ≡ push_named arguments.old name value) }
{
    arguments.tree.push(Named {
        name,
        value: value.tree,
    })?;
    arguments.tall = arguments.tall.max(value.tall);
    Ok(())
}

/// One trailer behind the others, whose form they then have.
pub fn push_trailer(
    trailers: &mut Tall<Items<Trailer>>,
    trailer: Tall<Trailer>,
) -> Result<(), NoMemory>
    ensures { OnOk result (trailers.new ≡ push_trailer trailers.old trailer) }
{
    trailers.tree.push(trailer.tree)?;
    trailers.tall = trailers.tall.max(trailer.tall);
    trailers.form = trailer.form;
    Ok(())
}
