//! What statements say about names.
ghost use Rattle.std.specs.Prelude.{◌≡◌, ◌++◌, ◌∷◌, [], map, OnOk};
ghost use Rattle.py_names.specs.declared.event.BodyKind.TheVariants as kind;
ghost use Rattle.py_names.specs.declared.event.Event.TheVariants.{Enter, Leave};
ghost use Rattle.py_names.specs.Outline.{bound_name, declared, imported, imported_name, inside_clause, inside_finally, inside_function, inside_loop, only_where, outside, parameters, raises, read, read_some, says, says_block, says_arm, says_arms, says_clause, says_handler, says_handlers, takes, target, target_all};
ghost use Rattle.py_names.specs.inner.Roles.{told_some};

use crate::event::{BodyKind, Event};
use crate::expression::{Role, expression, expressions};
use crate::outline::Outline;
use py_base::{Bytes, NameSet, NoMemory, split};
use py_tree::{Arm, Clause, Expr, Handler, Imported, Param, Stmt};

/// Where a statement stands.
#[derive(Clone, Copy, Debug, Drop)]
pub struct Where {
    /// In a function.
    pub function: bool,
    /// In a loop of its body.
    pub in_loop: bool,
    /// In a finally block inside that loop.
    pub in_finally: bool,
    /// In an except clause of its body.
    pub in_clause: bool,
}

/// Adds what an expression says, if there is one.
fn some(out: &mut Outline, line: u32, role: Role, x: &Option<Expr>) -> Result<(), NoMemory>
    ensures { OnOk result (out.new ≡ out.old ++ told_some role line x.now) }
{
    match x {
        Some(x) => expression(out, line, role, x),
        None => Ok(()),
    }
}

impl Where {
    /// In a module or a class, outside of all constructs.
    pub const OUTSIDE: Where = Where {
        function: false,
        in_loop: false,
        in_finally: false,
        in_clause: false,
    };

    /// In a function, outside of all constructs.
    pub const FUNCTION: Where = Where {
        function: true,
        in_loop: false,
        in_finally: false,
        in_clause: false,
    };

    fn inside_loop(self) -> Where
        ensures { result ≡ inside_loop self }
    {
        Where {
            in_loop: true,
            in_finally: false,
            ..self
        }
    }

    fn inside_finally(self) -> Where
        ensures { result ≡ inside_finally self }
    {
        Where {
            in_finally: true,
            ..self
        }
    }

    fn inside_clause(self) -> Where
        ensures { result ≡ inside_clause self }
    {
        Where {
            in_clause: true,
            ..self
        }
    }
}

/// Adds what an assignment says.
fn assign(out: &mut Outline, line: u32, targets: &[Expr], a: &Expr) -> Result<(), NoMemory>
    ensures { OnOk result (out.new ≡ out.old ++ (target_all line targets.now ++ read line a.now)) }
{
    expressions(out, line, Role::Target, targets)?;
    expression(out, line, Role::Read, a)?;
    Ok(())
}

/// Adds what an augmented assignment says.
fn augment(out: &mut Outline, line: u32, x: &Expr, a: &Expr) -> Result<(), NoMemory>
    ensures { OnOk result (out.new ≡ out.old ++ (target line x.now ++ read line a.now)) }
{
    expression(out, line, Role::Target, x)?;
    expression(out, line, Role::Read, a)?;
    Ok(())
}

/// Adds what a `return` says.
fn answer(out: &mut Outline, line: u32, place: Where, a: &Option<Expr>) -> Result<(), NoMemory>
    ensures { OnOk result (out.new ≡ out.old ++ (only_where place.function line ++ read_some line a.now)) }
{
    out.only_where(place.function, line)?;
    some(out, line, Role::Read, a)?;
    Ok(())
}

/// Adds what an `assert` says.
fn demand(out: &mut Outline, line: u32, a: &Expr, message: &Option<Expr>) -> Result<(), NoMemory>
    ensures { OnOk result (out.new ≡ out.old ++ (read line a.now ++ read_some line message.now)) }
{
    expression(out, line, Role::Read, a)?;
    some(out, line, Role::Read, message)?;
    Ok(())
}

/// Adds what a `raise` says.
fn raise(
    out: &mut Outline,
    line: u32,
    place: Where,
    x: &Option<Expr>,
    value: &Option<Expr>,
) -> Result<(), NoMemory>
    ensures { OnOk result (out.new ≡ out.old ++ raises line x.now value.now place) }
{
    match x {
        Some(x) => {
            expression(out, line, Role::Read, x)?;
            some(out, line, Role::Read, value)?;
            Ok(())
        }
        None => out.only_where(place.in_clause, line),
    }
}

/// Adds the names of a `global`.
fn declares(out: &mut Outline, line: u32, names: &[Bytes]) -> Result<(), NoMemory>
    ensures { OnOk result (out.new ≡ out.old ++ declared line names.now) }
{
    let mut rest = names;
    'names: while let Some((name, more)) = split(rest) {
        out.declared_name(line, name)?;
        rest = more;
    }
    Ok(())
}

/// The name that an import binds.
fn imported_name(x: &Imported) -> &Bytes
    ensures { result.now ≡ imported_name x.now }
{
    match &x.bound {
        Some(name) => name,
        None => &x.name,
    }
}

/// Adds the names that an import binds.
fn imports(out: &mut Outline, line: u32, items: &[Imported]) -> Result<(), NoMemory>
    ensures { OnOk result (out.new ≡ out.old ++ imported line items.now) }
{
    let mut rest = items;
    'items: while let Some((x, more)) = split(rest) {
        out.bound_name(line, imported_name(x))?;
        rest = more;
    }
    Ok(())
}

/// Adds what parameters and their defaults say round their `def`.
fn parameters_of(out: &mut Outline, line: u32, items: &[Param]) -> Result<(), NoMemory>
    ensures { OnOk result (out.new ≡ out.old ++ parameters line [] items.now) }
{
    let mut before = NameSet::new(out.alloc());
    let mut rest = items;
    'items: while let Some((x, more)) = split(rest) {
        out.label(line, &x.name)?;
        out.repeated(line, &before, &x.name)?;
        some(out, line, Role::Read, &x.default)?;
        before.note(x.name.as_slice())?;
        rest = more;
    }
    Ok(())
}

/// Adds the parameters of a function's body.
fn takes_of(out: &mut Outline, items: &[Param]) -> Result<(), NoMemory>
    ensures { OnOk result (out.new ≡ out.old ++ takes items.now) }
{
    let mut rest = items;
    'items: while let Some((x, more)) = split(rest) {
        let name = out.copy(&x.name)?;
        out.push(Event::Takes(name))?;
        rest = more;
    }
    Ok(())
}

/// Adds what a `def` says before the statements of its body.
fn def_head(out: &mut Outline, line: u32, name: &Bytes, items: &[Param]) -> Result<(), NoMemory>
    ensures { OnOk result (out.new ≡ out.old ++ (bound_name line name.now ++ parameters line [] items.now
        ++ Enter kind.Function ∷ takes items.now)) }
{
    out.bound_name(line, name)?;
    parameters_of(out, line, items)?;
    out.push(Event::Enter(BodyKind::Function))?;
    takes_of(out, items)?;
    Ok(())
}

/// Adds what a `class` says before the statements of its body.
fn class_head(
    out: &mut Outline,
    line: u32,
    name: &Bytes,
    base: &Option<Expr>,
) -> Result<(), NoMemory>
    ensures { OnOk result
        (out.new ≡ out.old ++ (bound_name line name.now ++ read_some line base.now ++ Enter kind.Class ∷ [])) }
{
    out.bound_name(line, name)?;
    some(out, line, Role::Read, base)?;
    out.push(Event::Enter(BodyKind::Class))?;
    Ok(())
}

/// Adds what a statement says.
#[cycle(statements)]
#[tactic(auto, using(crate::proofs::Says::says_rules))]
fn statement(out: &mut Outline, place: Where, x: &Stmt) -> Result<(), NoMemory>
    ensures { OnOk result (out.new ≡ out.old ++ says x.now place) }
{
    match x {
        Stmt::Do(line, a) => expression(out, *line, Role::Read, a),
        Stmt::Assign(line, targets, a) => assign(out, *line, targets.as_slice(), a),
        Stmt::Augment(line, target, _, a) => augment(out, *line, target, a),
        Stmt::Print(line, items, _) => expressions(out, *line, Role::Read, items.as_slice()),
        Stmt::Pass(_) => Ok(()),
        Stmt::Break(line) => out.only_where(place.in_loop, *line),
        Stmt::Continue(line) => out.only_where(place.in_loop && !place.in_finally, *line),
        Stmt::Return(line, a) => answer(out, *line, place, a),
        Stmt::Raise(line, a, value) => raise(out, *line, place, a, value),
        Stmt::Del(line, targets) => expressions(out, *line, Role::Target, targets.as_slice()),
        Stmt::Global(line, names) => declares(out, *line, names.as_slice()),
        Stmt::Assert(line, a, message) => demand(out, *line, a, message),
        Stmt::Import(line, items) => imports(out, *line, items.as_slice()),
        Stmt::From(line, _, items) => imports(out, *line, items.as_slice()),
        Stmt::If(items, otherwise) => branches(out, place, items.as_slice(), otherwise),
        Stmt::While(x, otherwise) => while_loop(out, place, x, otherwise),
        Stmt::For(line, target, a, body, otherwise) => {
            for_loop(out, *line, place, target, a, body.as_slice(), otherwise)
        }
        Stmt::Try(x, items, otherwise, last) => {
            guarded(out, place, x, items.as_slice(), otherwise, last)
        }
        Stmt::Def(line, name, items, body) => {
            function(out, *line, name, items.as_slice(), body.as_slice())
        }
        Stmt::Class(line, name, base, body) => class(out, *line, name, base, body.as_slice()),
    }
}

/// Adds what an `if` says.
#[cycle(statements)]
fn branches(
    out: &mut Outline,
    place: Where,
    items: &[Arm],
    otherwise: &Option<Clause>,
) -> Result<(), NoMemory>
    ensures { OnOk result (out.new ≡ out.old ++ (says_arms items.now place ++ says_clause otherwise.now place)) }
{
    arms(out, place, items)?;
    clause(out, place, otherwise)?;
    Ok(())
}

/// Adds what a `while` says.
#[cycle(statements)]
fn while_loop(
    out: &mut Outline,
    place: Where,
    x: &Arm,
    otherwise: &Option<Clause>,
) -> Result<(), NoMemory>
    ensures { OnOk result
        (out.new ≡ out.old ++ (says_arm x.now (inside_loop place) ++ says_clause otherwise.now place)) }
{
    arm(out, place.inside_loop(), x)?;
    clause(out, place, otherwise)?;
    Ok(())
}

/// Adds what a `for` says.
#[cycle(statements)]
fn for_loop(
    out: &mut Outline,
    line: u32,
    place: Where,
    each: &Expr,
    a: &Expr,
    body: &[Stmt],
    otherwise: &Option<Clause>,
) -> Result<(), NoMemory>
    ensures { OnOk result (out.new ≡ out.old ++ (target line each.now ++ read line a.now
        ++ says_block body.now (inside_loop place) ++ says_clause otherwise.now place)) }
{
    expression(out, line, Role::Target, each)?;
    expression(out, line, Role::Read, a)?;
    block(out, place.inside_loop(), body)?;
    clause(out, place, otherwise)?;
    Ok(())
}

/// Adds what a `try` says.
#[cycle(statements)]
fn guarded(
    out: &mut Outline,
    place: Where,
    x: &Clause,
    items: &[Handler],
    otherwise: &Option<Clause>,
    last: &Option<Clause>,
) -> Result<(), NoMemory>
    ensures { OnOk result (out.new ≡ out.old ++ (says_block x.now.body place
        ++ says_handlers items.now (inside_clause place) ++ says_clause otherwise.now place
        ++ says_clause last.now (inside_finally place))) }
{
    block(out, place, x.body.as_slice())?;
    handlers(out, place.inside_clause(), items)?;
    clause(out, place, otherwise)?;
    clause(out, place.inside_finally(), last)?;
    Ok(())
}

/// Adds what a `def` says.
#[cycle(statements)]
fn function(
    out: &mut Outline,
    line: u32,
    name: &Bytes,
    items: &[Param],
    body: &[Stmt],
) -> Result<(), NoMemory>
    ensures { OnOk result (out.new ≡ out.old ++ (bound_name line name.now ++ parameters line [] items.now
        ++ Enter kind.Function ∷ takes items.now ++ says_block body.now inside_function ++ Leave ∷ [])) }
{
    def_head(out, line, name, items)?;
    block(out, Where::FUNCTION, body)?;
    out.push(Event::Leave)?;
    Ok(())
}

/// Adds what a `class` says.
#[cycle(statements)]
fn class(
    out: &mut Outline,
    line: u32,
    name: &Bytes,
    base: &Option<Expr>,
    body: &[Stmt],
) -> Result<(), NoMemory>
    ensures { OnOk result (out.new ≡ out.old ++ (bound_name line name.now ++ read_some line base.now
        ++ (Enter kind.Class ∷ []) ++ says_block body.now outside ++ Leave ∷ [])) }
{
    class_head(out, line, name, base)?;
    block(out, Where::OUTSIDE, body)?;
    out.push(Event::Leave)?;
    Ok(())
}

/// Adds what the statements of a block say.
#[cycle(statements)]
pub fn block(out: &mut Outline, place: Where, items: &[Stmt]) -> Result<(), NoMemory>
    ensures { OnOk result (out.new ≡ out.old ++ says_block items.now place) }
{
    let mut rest = items;
    'items: while let Some((x, more)) = split(rest) {
        statement(out, place, x)?;
        rest = more;
    }
    Ok(())
}

/// Adds what an `if`, `elif` or `while` says.
#[cycle(statements)]
fn arm(out: &mut Outline, place: Where, x: &Arm) -> Result<(), NoMemory>
    ensures { OnOk result (out.new ≡ out.old ++ says_arm x.now place) }
{
    expression(out, x.line, Role::Read, &x.test)?;
    block(out, place, x.body.as_slice())?;
    Ok(())
}

/// Adds what the arms of an `if` say.
#[cycle(statements)]
fn arms(out: &mut Outline, place: Where, items: &[Arm]) -> Result<(), NoMemory>
    ensures { OnOk result (out.new ≡ out.old ++ says_arms items.now place) }
{
    let mut rest = items;
    'items: while let Some((x, more)) = split(rest) {
        arm(out, place, x)?;
        rest = more;
    }
    Ok(())
}

/// Adds what an `else` or `finally` says, if there is one.
#[cycle(statements)]
fn clause(out: &mut Outline, place: Where, x: &Option<Clause>) -> Result<(), NoMemory>
    ensures { OnOk result (out.new ≡ out.old ++ says_clause x.now place) }
{
    match x {
        Some(x) => block(out, place, x.body.as_slice()),
        None => Ok(()),
    }
}

/// Adds what `except` clauses say.
#[cycle(statements)]
fn handlers(out: &mut Outline, place: Where, items: &[Handler]) -> Result<(), NoMemory>
    ensures { OnOk result (out.new ≡ out.old ++ says_handlers items.now place) }
{
    let mut rest = items;
    'items: while let Some((x, more)) = split(rest) {
        some(out, x.line, Role::Read, &x.test)?;
        some(out, x.line, Role::Target, &x.target)?;
        block(out, place, x.body.as_slice())?;
        rest = more;
    }
    Ok(())
}
