//! The code of statements that hold no others.
ghost use Rattle.std.specs.Prelude.{◌≡◌, ◌<◌, ◌+◌, ◌∷◌, [], ℕ, List, Err, IfOk, length, map, true};
ghost use Rattle.py_code.specs.declared.instr.Constant.TheVariants.{Root};
ghost use Rattle.py_code.specs.declared.instr.Instr.TheVariants.{Const, JumpFalse, MakeRaised, Not, Raise};
ghost use Rattle.py_emit.specs.declared.draft.Draft.TheVariants.{Op as DraftOp};
ghost use Rattle.py_templates.specs.Template.{Alone, Frame, Op, To, row};
ghost use Rattle.py_emit.specs.inner.State.{Emitted, frame_there, no_frames, opened, put};
ghost use Rattle.py_emit.specs.inner.Partly.{Puts};
ghost use Rattle.py_templates.specs.Names.{home, library, member};
ghost use Rattle.py_templates.specs.Expressions.{add_at, all_deleted, coded, operator, stored, value, value_some, values};
ghost use Rattle.py_templates.specs.Table.{assert_alone, assert_with, class, def, expression};
ghost use Rattle.py_templates.specs.Statements.{asserted, assigned, base, defaults, deletion, imported, last_target, printed, raise_made, stores_before, taken_from};

use crate::draft::{Draft, Far};
use crate::emitter::Emitter;
use crate::expression::expression;
use crate::fault::Fault;
use crate::target::{augment, delete_one, store};
use py_base::{builtin, exception, split};
use py_code::{Constant, Instr};
use py_templates::{Names, bound_name, to_u32};
use py_tree::{Expr, Imported, Operator, Param};

/// The root that is the class `object`.
const OBJECT: u32 = 1;

/// The root that is the class AssertionError.
const ASSERTION_ERROR: u32 = 13;

/// The root that is the class `thread.error`.
const THREAD_ERROR: u32 = 1 + exception::THREAD_ERROR as u32;

/// A value, or None.
pub fn value_or_none(
    e: &mut Emitter,
    names: &Names,
    line: u32,
    x: &Option<Expr>,
) -> Result<(), Fault>
    ensures done { IfOk result (λ _. Emitted e.old e.new (value_some names.now line x.now) no_frames) }
    ensures large { result ≡ Err Fault.TooLarge → 65535 < length e.old.code + (value_some names.now line x.now).size }
{
    match x {
        Some(x) => expression(e, names, line, x),
        None => {
            e.put(line, Draft::Op(Instr::Const(Constant::None)))?;
            Ok(())
        }
    }
}

/// An expression as a statement.
pub fn alone(e: &mut Emitter, names: &Names, line: u32, x: &Expr) -> Result<(), Fault>
    ensures done { IfOk result (λ _. (env : List ℕ → List Frame)
        → Emitted e.old e.new (expression line (value names.now line x.now)) env) }
    ensures large { result ≡ Err Fault.TooLarge
        → 65535 < length e.old.code + (expression line (value names.now line x.now)).size }
{
    expression(e, names, line, x)?;
    e.put(line, Draft::Op(Instr::Pop))?;
    Ok(())
}

/// `t = u = e`.
pub fn assign(
    e: &mut Emitter,
    names: &Names,
    line: u32,
    targets: &[Expr],
    x: &Expr,
) -> Result<(), Fault>
    ensures done { IfOk result (λ _. (env : List ℕ → List Frame)
        → Emitted e.old e.new (assigned names.now line targets.now x.now) env) }
    ensures large { result ≡ Err Fault.TooLarge
        → 65535 < length e.old.code + (assigned names.now line targets.now x.now).size }
{
    match split(targets) {
        None => Ok(()),
        Some((first, more)) => {
            expression(e, names, line, x)?;
            store_in_turn(e, names, line, first, more)?;
            Ok(())
        }
    }
}

/// The stores of the top to this target and to these, of which all but the last keep it.
fn store_in_turn(
    e: &mut Emitter,
    names: &Names,
    line: u32,
    first: &Expr,
    more: &[Expr],
) -> Result<(), Fault>
    ensures done { IfOk result (λ _. Puts line 0 no_frames
        (Alone (row (stores_before names.now line first.now more.now))
        ∷ Alone (stored names.now line (last_target first.now more.now)) ∷ []) e.old e.new) }
    ensures large { result ≡ Err Fault.TooLarge
        → 65535 < length e.old.code + (row (stores_before names.now line first.now more.now)).size
        + (stored names.now line (last_target first.now more.now)).size }
{
    let mut last = first;
    let mut rest = more;
    'targets: while let Some((next, others)) = split(rest) {
        e.put(line, Draft::Op(Instr::Dup))?;
        store(e, names, line, last)?;
        last = next;
        rest = others;
    }
    store(e, names, line, last)?;
    Ok(())
}

/// `x += y` and the others.
pub fn change(
    e: &mut Emitter,
    names: &Names,
    line: u32,
    x: &Expr,
    o: Operator,
    y: &Expr,
) -> Result<(), Fault>
    ensures done { IfOk result (λ _. (env : List ℕ → List Frame) → Emitted e.old e.new
        (add_at line (coded names.now line x.now).place (operator o) (value names.now line y.now)) env) }
    ensures large { result ≡ Err Fault.TooLarge → 65535 < length e.old.code
        + (add_at line (coded names.now line x.now).place (operator o) (value names.now line y.now)).size }
{
    augment(e, names, line, x, o, y)
}

/// `del` of these targets, one by one.
pub fn delete(e: &mut Emitter, names: &Names, line: u32, items: &[&Expr]) -> Result<(), Fault>
    ensures done { IfOk result (λ _. (env : List ℕ → List Frame)
        → Emitted e.old e.new (deletion line (all_deleted names.now line (map (λ x. x.now) items.now))) env) }
    ensures large { result ≡ Err Fault.TooLarge
        → 65535 < length e.old.code + (deletion line (all_deleted names.now line (map (λ x. x.now) items.now))).size }
{
    for x in items {
        delete_one(e, names, line, *x)?;
    }
    Ok(())
}

/// `print`.
pub fn print(
    e: &mut Emitter,
    names: &Names,
    line: u32,
    items: &[Expr],
    comma: bool,
) -> Result<(), Fault>
    ensures done { IfOk result (λ _. (env : List ℕ → List Frame)
        → Emitted e.old e.new (printed names.now line items.now comma) env) }
    ensures large { result ≡ Err Fault.TooLarge
        → 65535 < length e.old.code + (printed names.now line items.now comma).size }
{
    print_items(e, names, line, items)?;
    if comma {
        return Ok(());
    }
    e.put(line, Draft::Op(Instr::PrintNewline))?;
    Ok(())
}

/// The items of a `print`.
fn print_items(e: &mut Emitter, names: &Names, line: u32, items: &[Expr]) -> Result<(), Fault>
    ensures done { IfOk result (λ _. (env : List ℕ → List Frame)
        → Emitted e.old e.new (printed names.now line items.now true) env) }
    ensures large { result ≡ Err Fault.TooLarge
        → 65535 < length e.old.code + (printed names.now line items.now true).size }
{
    let mut rest = items;
    'items: while let Some((x, more)) = split(rest) {
        expression(e, names, line, x)?;
        e.put(line, Draft::Op(Instr::PrintItem))?;
        rest = more;
    }
    Ok(())
}

/// `raise` of an exception that is made.
pub fn raise_made(
    e: &mut Emitter,
    names: &Names,
    line: u32,
    x: &Expr,
    v: &Option<Expr>,
) -> Result<(), Fault>
    ensures done { IfOk result (λ _. (env : List ℕ → List Frame)
        → Emitted e.old e.new (raise_made names.now line x.now v.now) env) }
    ensures large { result ≡ Err Fault.TooLarge
        → 65535 < length e.old.code + (raise_made names.now line x.now v.now).size }
{
    expression(e, names, line, x)?;
    match v {
        None => {
            raise_of(e, line, 0)?;
            Ok(())
        }
        Some(v) => {
            expression(e, names, line, v)?;
            raise_of(e, line, 1)?;
            Ok(())
        }
    }
}

/// The exception is made with so many values, and raised.
fn raise_of(e: &mut Emitter, line: u32, values: u8) -> Result<(), Fault>
    ensures done { IfOk result (λ _. e.new ≡ put (put e.old line (DraftOp (MakeRaised values))) line (DraftOp Raise)) }
    ensures longer { IfOk result (λ _. length e.new.code ≡ length e.old.code + 2) }
    ensures large { result ≡ Err Fault.TooLarge → 65535 < length e.old.code + 2 }
{
    e.put(line, Draft::Op(Instr::MakeRaised(values)))?;
    e.put(line, Draft::Op(Instr::Raise))?;
    Ok(())
}

/// `assert`.
pub fn assert(
    e: &mut Emitter,
    names: &Names,
    line: u32,
    x: &Expr,
    message: &Option<Expr>,
) -> Result<(), Fault>
    ensures done { IfOk result (λ _. (env : List ℕ → List Frame)
        → Emitted e.old e.new (asserted names.now line x.now message.now) env) }
    ensures large { result ≡ Err Fault.TooLarge
        → 65535 < length e.old.code + (asserted names.now line x.now message.now).size }
{
    match message {
        None => assert_alone(e, names, line, x),
        Some(m) => assert_with(e, names, line, x, m),
    }
}

/// `assert` without a message.
fn assert_alone(e: &mut Emitter, names: &Names, line: u32, x: &Expr) -> Result<(), Fault>
    ensures done { IfOk result (λ _. (env : List ℕ → List Frame)
        → Emitted e.old e.new (assert_alone line (value names.now line x.now)) env) }
    ensures large { result ≡ Err Fault.TooLarge
        → 65535 < length e.old.code + (assert_alone line (value names.now line x.now)).size }
{
    let base = assert_head(e, names, line, x)?;
    raise_of(e, line, 0)?;
    e.mark(base);
    Ok(())
}

/// `assert` with a message.
fn assert_with(e: &mut Emitter, names: &Names, line: u32, x: &Expr, m: &Expr) -> Result<(), Fault>
    ensures done { IfOk result (λ _. (env : List ℕ → List Frame)
        → Emitted e.old e.new (assert_with line (value names.now line x.now) (value names.now line m.now)) env) }
    ensures large { result ≡ Err Fault.TooLarge → 65535 < length e.old.code
        + (assert_with line (value names.now line x.now) (value names.now line m.now)).size }
{
    let base = assert_head(e, names, line, x)?;
    expression(e, names, line, m)?;
    e.put(line, Draft::Op(Instr::Call(1, 0)))?;
    e.put(line, Draft::Op(Instr::Raise))?;
    e.mark(base);
    Ok(())
}

/// The test of an `assert` and the class that it raises; the label of its end.
fn assert_head(e: &mut Emitter, names: &Names, line: u32, x: &Expr) -> Result<usize, Fault>
    ensures base { IfOk result (λ base. base ≡ length e.old.labels) }
    ensures done { IfOk result (λ base. (env : List ℕ → List Frame)
        → Puts line base (λ ls. frame_there base 1 0 ls ∷ env ls)
        (Alone (value names.now line x.now) ∷ Op Not ∷ To 0 JumpFalse 0 ∷ Op (Const (Root 13)) ∷ [])
        (opened e.old 1 0) e.new) }
    ensures longer { IfOk result (λ _. length e.new.code ≡ length e.old.code + (value names.now line x.now).size + 3) }
    ensures large { result ≡ Err Fault.TooLarge → 65535 < length e.old.code + (value names.now line x.now).size + 3 }
{
    let (base, _) = e.begin(1, 0)?;
    expression(e, names, line, x)?;
    e.put(line, Draft::Op(Instr::Not))?;
    e.put(line, Draft::To(Far::IfFalse, base))?;
    e.put(
        line,
        Draft::Op(Instr::Const(Constant::Root(ASSERTION_ERROR))),
    )?;
    Ok(base)
}

/// The module of that name.
fn library(name: &[u8]) -> Constant
    ensures { result ≡ library name.now }
{
    if name == b"thread".as_slice() {
        Constant::Builtin(builtin::THREAD_MODULE)
    } else {
        Constant::Builtin(builtin::THREADING_MODULE)
    }
}

/// What a module has under that name.
fn member(name: &[u8]) -> Constant
    ensures { result ≡ member name.now }
{
    if name == b"start_new_thread".as_slice() {
        return Constant::Builtin(builtin::START_NEW_THREAD);
    }
    if name == b"allocate_lock".as_slice() {
        return Constant::Builtin(builtin::ALLOCATE_LOCK);
    }
    if name == b"error".as_slice() {
        return Constant::Root(THREAD_ERROR);
    }
    if name == b"Thread".as_slice() {
        return Constant::Builtin(builtin::THREAD);
    }
    Constant::Builtin(builtin::LOCK)
}

/// `import`.
pub fn import(e: &mut Emitter, names: &Names, line: u32, items: &[Imported]) -> Result<(), Fault>
    ensures done { IfOk result (λ _. (env : List ℕ → List Frame)
        → Emitted e.old e.new (row (imported names.now line items.now)) env) }
    ensures large { result ≡ Err Fault.TooLarge
        → 65535 < length e.old.code + (row (imported names.now line items.now)).size }
{
    let mut rest = items;
    'items: while let Some((x, more)) = split(rest) {
        let c = library(x.name.as_slice());
        e.put(line, Draft::Op(Instr::Const(c)))?;
        e.put(line, Draft::Op(names.home(bound_name(x)).store()))?;
        rest = more;
    }
    Ok(())
}

/// `from`.
pub fn take_from(e: &mut Emitter, names: &Names, line: u32, items: &[Imported]) -> Result<(), Fault>
    ensures done { IfOk result (λ _. (env : List ℕ → List Frame)
        → Emitted e.old e.new (row (taken_from names.now line items.now)) env) }
    ensures large { result ≡ Err Fault.TooLarge
        → 65535 < length e.old.code + (row (taken_from names.now line items.now)).size }
{
    let mut rest = items;
    'items: while let Some((x, more)) = split(rest) {
        let c = member(x.name.as_slice());
        e.put(line, Draft::Op(Instr::Const(c)))?;
        e.put(line, Draft::Op(names.home(bound_name(x)).store()))?;
        rest = more;
    }
    Ok(())
}

/// The defaults of parameters, and how many there are.
fn defaults(e: &mut Emitter, names: &Names, line: u32, params: &[Param]) -> Result<usize, Fault>
    ensures done { IfOk result
        (λ _. Emitted e.old e.new (row (values names.now line (defaults params.now))) no_frames) }
    ensures count { IfOk result (λ k. k ≡ length (values names.now line (defaults params.now))) }
    ensures large { result ≡ Err Fault.TooLarge
        → 65535 < length e.old.code + (row (values names.now line (defaults params.now))).size }
{
    let mut count = 0;
    let mut rest = params;
    'params: while let Some((p, more)) = split(rest) {
        if let Some(x) = &p.default {
            expression(e, names, line, x)?;
            count += 1;
        }
        rest = more;
    }
    Ok(count)
}

/// A `def`, whose body has that number.
pub fn def(
    e: &mut Emitter,
    names: &Names,
    line: u32,
    name: &[u8],
    params: &[Param],
    number: u32,
) -> Result<(), Fault>
    ensures done { IfOk result (λ _. (env : List ℕ → List Frame) → Emitted e.old e.new
        (def line (values names.now line (defaults params.now)) number (home names.now name.now)) env) }
    ensures large { result ≡ Err Fault.TooLarge → 65535 < length e.old.code
        + (def line (values names.now line (defaults params.now)) number (home names.now name.now)).size }
{
    let count = defaults(e, names, line, params)?;
    let n = to_u32(count)?;
    e.put(line, Draft::Op(Instr::MakeFunction(number, n)))?;
    e.put(line, Draft::Op(names.home(name).store()))?;
    Ok(())
}

/// The base of a class, or `object`.
fn base(e: &mut Emitter, names: &Names, line: u32, x: &Option<Expr>) -> Result<(), Fault>
    ensures done { IfOk result (λ _. Emitted e.old e.new (base names.now line x.now) no_frames) }
    ensures large { result ≡ Err Fault.TooLarge → 65535 < length e.old.code + (base names.now line x.now).size }
{
    match x {
        Some(x) => expression(e, names, line, x),
        None => {
            e.put(line, Draft::Op(Instr::Const(Constant::Root(OBJECT))))?;
            Ok(())
        }
    }
}

/// A `class`, whose body has that number.
pub fn class(
    e: &mut Emitter,
    names: &Names,
    line: u32,
    name: &[u8],
    x: &Option<Expr>,
    number: u32,
) -> Result<(), Fault>
    ensures done { IfOk result (λ _. (env : List ℕ → List Frame)
        → Emitted e.old e.new (class line (base names.now line x.now) number (home names.now name.now)) env) }
    ensures large { result ≡ Err Fault.TooLarge
        → 65535 < length e.old.code + (class line (base names.now line x.now) number (home names.now name.now)).size }
{
    base(e, names, line, x)?;
    e.put(line, Draft::Op(Instr::ClassBody(number)))?;
    e.put(line, Draft::Op(names.home(name).store()))?;
    Ok(())
}
