//! The code of statements, from their plans. It is linear in what it emits: each plan has an instruction of its own.
ghost use Rattle.std.specs.Prelude.{◌≡◌, ◌<◌, ◌+◌, ◌^◌, ◌∷◌, Err, IfOk, length};
ghost use Rattle.py_code.specs.declared.instr.Instr.TheVariants.{Pop};
ghost use Rattle.py_emit.specs.declared.draft.Draft.TheVariants.{Op as DraftOp, To as DraftTo};
ghost use Rattle.py_emit.specs.declared.draft.Far.TheVariants.{Always};
ghost use Rattle.py_templates.specs.Expressions.{value_some};
ghost use Rattle.py_templates.specs.Names.{Known};
ghost use Rattle.py_compile.specs.inner.Plans.{for_plan, finally_plan, if_plan, planned, planned_all, planned_arms, planned_block, planned_handlers, simple_stmt, try_plan, while_plan};
ghost use Rattle.py_compile.specs.inner.Rounds.{around_of, env_of};
ghost use Rattle.py_emit.specs.inner.State.{Emitted, frame_there, put};
ghost use Rattle.py_templates.specs.Statements.{raised, stated};
ghost use Rattle.py_templates.specs.Table.{raise_again, return, way_out};
ghost use Rattle.py_templates.specs.Template.{row};

use crate::around::Around;
use crate::plan::{Plan, PlanArm, PlanHandler, Simple};
use py_code::Instr;
use py_emit::{
    Draft, Emitter, Far, Fault, alone, arm_head, arm_tail, assert, assign, catch, change, class,
    def, delete, for_head, handler_head, handler_tail, import, loop_tail, pop_try, print,
    raise_made, raise_slot, return_head, return_tail, take_from, try_head, while_head,
};
use py_templates::{Names, Way};
use py_tree::{Arm, Expr};
use sqlite_items::Items;

/// The exception of the innermost clause again. No resolved tree has a raise alone outside of one.
fn raise_again(e: &mut Emitter, line: u32, around: &Around) -> Result<(), Fault>
    ensures done { IfOk result (λ _. (n : Known)
        → Emitted e.old e.new (raise_again line (around_of n around.now)) (env_of around.now)) }
    ensures large { result ≡ Err Fault.TooLarge → (n : Known)
        → 65535 < length e.old.code + (raise_again line (around_of n around.now)).size }
{
    match around {
        Around::Body => Ok(()),
        Around::Clause(_, slot, _) => raise_slot(e, line, *slot),
        Around::While(_, outer) => raise_again(e, line, outer),
        Around::For(_, outer) => raise_again(e, line, outer),
        Around::Try(_, _, outer) => raise_again(e, line, outer),
        Around::Finally(_, _, _, outer) => raise_again(e, line, outer),
    }
}

/// `raise` in its forms.
fn raise(
    e: &mut Emitter,
    names: &Names,
    line: u32,
    x: &Option<Expr>,
    v: &Option<Expr>,
    around: &Around,
) -> Result<(), Fault>
    ensures done { IfOk result (λ _. Emitted e.old e.new
        (raised names.now line (around_of names.now around.now) x.now v.now) (env_of around.now)) }
    ensures large { result ≡ Err Fault.TooLarge
        → 65535 < length e.old.code + (raised names.now line (around_of names.now around.now) x.now v.now).size }
{
    match x {
        None => raise_again(e, line, around),
        Some(x) => raise_made(e, names, line, x, v),
    }
}

/// The jump out of a loop or to its next turn.
fn jump(e: &mut Emitter, line: u32, label: usize) -> Result<(), Fault>
    ensures done { IfOk result (λ _. e.new ≡ put e.old line (DraftTo Always label)) }
    ensures longer { IfOk result (λ _. length e.new.code ≡ length e.old.code + 1) }
    ensures large { result ≡ Err Fault.TooLarge → 65535 < length e.old.code + 1 }
{
    e.put(line, Draft::To(Far::Always, label))?;
    Ok(())
}

/// The label of a loop's next turn. No list in memory has so many labels that there would be none.
fn again(base: usize) -> Result<usize, Fault>
    ensures same { IfOk result (λ label. label ≡ base + 1) }
    ensures small { result ≡ Err Fault.TooLarge → ⊥ }
{
    match base.checked_add(1) {
        Some(label) => Ok(label),
        None => Err(Fault::OutOfMemory),
    }
}

/// The iterator of a `for` is dropped.
fn pop(e: &mut Emitter, line: u32) -> Result<(), Fault>
    ensures done { IfOk result (λ _. e.new ≡ put e.old line (DraftOp Pop)) }
    ensures longer { IfOk result (λ _. length e.new.code ≡ length e.old.code + 1) }
    ensures large { result ≡ Err Fault.TooLarge → 65535 < length e.old.code + 1 }
{
    e.put(line, Draft::Op(Instr::Pop))?;
    Ok(())
}

/// What is done on a way out, from the innermost construct on. No resolved tree has a break or a continue outside of a
/// loop.
#[cycle(statements)]
fn leave(e: &mut Emitter, names: &Names, line: u32, way: Way, around: &Around) -> Result<(), Fault>
    ensures done { IfOk result
        (λ _. Emitted e.old e.new (way_out line way (around_of names.now around.now)) (env_of around.now)) }
    ensures large { result ≡ Err Fault.TooLarge
        → 65535 < length e.old.code + (way_out line way (around_of names.now around.now)).size }
{
    match around {
        Around::Body => Ok(()),
        Around::While(base, outer) => match way {
            Way::Break => jump(e, line, *base),
            Way::Continue => {
                let label = again(*base)?;
                jump(e, line, label)
            }
            Way::Out => leave(e, names, line, way, outer),
        },
        Around::For(base, outer) => match way {
            Way::Break => {
                pop(e, line)?;
                jump(e, line, *base)
            }
            Way::Continue => {
                let label = again(*base)?;
                jump(e, line, label)
            }
            Way::Out => {
                pop(e, line)?;
                leave(e, names, line, way, outer)
            }
        },
        Around::Try(_, _, outer) => {
            pop_try(e, line)?;
            leave(e, names, line, way, outer)
        }
        Around::Clause(_, _, outer) => leave(e, names, line, way, outer),
        Around::Finally(_, _, last, outer) => {
            pop_try(e, line)?;
            block(e, names, last.as_slice(), outer)?;
            leave(e, names, line, way, outer)
        }
    }
}

/// One plan after another, inside these constructs.
#[cycle(statements)]
pub fn block<'a>(
    e: &mut Emitter,
    names: &Names,
    items: &[Plan<'a>],
    around: &Around<'_, 'a>,
) -> Result<(), Fault>
    ensures done { IfOk result (λ _. Emitted e.old e.new
        (planned_block items.now names.now (around_of names.now around.now)) (env_of around.now)) }
    ensures large { result ≡ Err Fault.TooLarge
        → 65535 < length e.old.code + (planned_block items.now names.now (around_of names.now around.now)).size }
{
    for x in items {
        statement(e, names, x, around)?;
    }
    Ok(())
}

/// An `if` with its other arms.
#[cycle(statements)]
fn if_else<'a>(
    e: &mut Emitter,
    names: &Names,
    items: &[PlanArm<'a>],
    other: &[Plan<'a>],
    around: &Around<'_, 'a>,
) -> Result<(), Fault>
    ensures done { IfOk result (λ _. Emitted e.old e.new
        (if_plan names.now (around_of names.now around.now) items.now other.now) (env_of around.now)) }
    ensures large { result ≡ Err Fault.TooLarge
        → 65535 < length e.old.code + (if_plan names.now (around_of names.now around.now) items.now other.now).size }
{
    let (end, _) = e.begin(1, 0)?;
    arms(e, names, items, end, around)?;
    block(e, names, other, around)?;
    e.mark(end);
    Ok(())
}

/// The arms of an `if`, whose end is that label.
#[cycle(statements)]
fn arms<'a>(
    e: &mut Emitter,
    names: &Names,
    items: &[PlanArm<'a>],
    end: usize,
    around: &Around<'_, 'a>,
) -> Result<(), Fault>
    ensures done { IfOk result (λ _. Emitted e.old e.new
        (row (planned_arms items.now names.now (around_of names.now around.now)))
        (λ ls. frame_there end 1 0 ls ∷ env_of around.now ls)) }
    ensures large { result ≡ Err Fault.TooLarge
        → 65535 < length e.old.code + (row (planned_arms items.now names.now (around_of names.now around.now))).size }
{
    for x in items {
        let next = arm_head(e, names, x.arm)?;
        block(e, names, x.body.as_slice(), around)?;
        arm_tail(e, x.arm.line, next, end)?;
    }
    Ok(())
}

/// A `while`.
#[cycle(statements)]
fn while_loop<'a>(
    e: &mut Emitter,
    names: &Names,
    arm: &Arm,
    body: &[Plan<'a>],
    other: &[Plan<'a>],
    around: &Around<'_, 'a>,
) -> Result<(), Fault>
    ensures done { IfOk result (λ _. Emitted e.old e.new
        (while_plan names.now (around_of names.now around.now) arm.now body.now other.now) (env_of around.now)) }
    ensures large { result ≡ Err Fault.TooLarge → 65535 < length e.old.code
        + (while_plan names.now (around_of names.now around.now) arm.now body.now other.now).size }
{
    let base = while_head(e, names, arm)?;
    block(e, names, body, &Around::While(base, &*around))?;
    loop_tail(e, arm.line, base)?;
    block(e, names, other, around)?;
    e.mark(base);
    Ok(())
}

/// A `for`.
#[cycle(statements)]
fn for_loop<'a>(
    e: &mut Emitter,
    names: &Names,
    line: u32,
    target: &Expr,
    x: &Expr,
    body: &[Plan<'a>],
    other: &[Plan<'a>],
    around: &Around<'_, 'a>,
) -> Result<(), Fault>
    ensures done { IfOk result (λ _. Emitted e.old e.new
        (for_plan names.now (around_of names.now around.now) line target.now x.now body.now other.now)
        (env_of around.now)) }
    ensures large { result ≡ Err Fault.TooLarge → 65535 < length e.old.code
        + (for_plan names.now (around_of names.now around.now) line target.now x.now body.now other.now).size }
{
    let base = for_head(e, names, line, target, x)?;
    block(e, names, body, &Around::For(base, &*around))?;
    loop_tail(e, line, base)?;
    block(e, names, other, around)?;
    e.mark(base);
    Ok(())
}

/// The except clauses of a `try` with that first label and that hidden slot.
#[cycle(statements)]
fn handlers<'a>(
    e: &mut Emitter,
    names: &Names,
    items: &[PlanHandler<'a>],
    base: usize,
    slot: u32,
    outer: &Around<'_, 'a>,
) -> Result<(), Fault>
    ensures done { IfOk result (λ _. Emitted e.old e.new
        (row (planned_handlers items.now names.now (around_of names.now outer.now)))
        (λ ls. frame_there base 2 slot ls ∷ env_of outer.now ls)) }
    ensures large { result ≡ Err Fault.TooLarge → 65535 < length e.old.code
        + (row (planned_handlers items.now names.now (around_of names.now outer.now))).size }
{
    for x in items {
        let next = handler_head(e, names, x.handler, slot)?;
        let body = x.body.as_slice();
        block(e, names, body, &Around::Clause(base, slot, &*outer))?;
        handler_tail(e, x.handler.line, next, base)?;
    }
    Ok(())
}

/// A `try` with except clauses.
#[cycle(statements)]
fn tried<'a>(
    e: &mut Emitter,
    names: &Names,
    line: u32,
    body: &[Plan<'a>],
    items: &[PlanHandler<'a>],
    other: &[Plan<'a>],
    around: &Around<'_, 'a>,
) -> Result<(), Fault>
    ensures done { IfOk result (λ _. Emitted e.old e.new
        (try_plan names.now (around_of names.now around.now) line body.now items.now other.now) (env_of around.now)) }
    ensures large { result ≡ Err Fault.TooLarge → 65535 < length e.old.code
        + (try_plan names.now (around_of names.now around.now) line body.now items.now other.now).size }
{
    let (base, slot) = try_head(e, line)?;
    block(e, names, body, &Around::Try(base, slot, &*around))?;
    pop_try(e, line)?;
    block(e, names, other, around)?;
    catch(e, line, base, slot)?;
    handlers(e, names, items, base, slot, around)?;
    raise_slot(e, line, slot)?;
    e.mark(base);
    Ok(())
}

/// What a finally body follows, and that body behind it.
#[cycle(statements)]
fn tried_finally<'a>(
    e: &mut Emitter,
    names: &Names,
    line: u32,
    inner: &[Plan<'a>],
    last: &Items<Plan<'a>>,
    around: &Around<'_, 'a>,
) -> Result<(), Fault>
    ensures done { IfOk result (λ _. Emitted e.old e.new
        (finally_plan names.now (around_of names.now around.now) line inner.now last.now) (env_of around.now)) }
    ensures large { result ≡ Err Fault.TooLarge → 65535 < length e.old.code
        + (finally_plan names.now (around_of names.now around.now) line inner.now last.now).size }
{
    let (base, slot) = try_head(e, line)?;
    block(
        e,
        names,
        inner,
        &Around::Finally(base, slot, last, &*around),
    )?;
    pop_try(e, line)?;
    block(e, names, last.as_slice(), around)?;
    catch(e, line, base, slot)?;
    block(e, names, last.as_slice(), around)?;
    raise_slot(e, line, slot)?;
    e.mark(base);
    Ok(())
}

/// `return`.
#[cycle(statements)]
fn returned(
    e: &mut Emitter,
    names: &Names,
    line: u32,
    x: &Option<Expr>,
    around: &Around,
) -> Result<(), Fault>
    ensures done { IfOk result (λ _. Emitted e.old e.new
        (return line (value_some names.now line x.now) (around_of names.now around.now)) (env_of around.now)) }
    ensures large { result ≡ Err Fault.TooLarge → 65535 < length e.old.code
        + (return line (value_some names.now line x.now) (around_of names.now around.now)).size }
{
    let slot = return_head(e, names, line, x)?;
    leave(e, names, line, Way::Out, around)?;
    return_tail(e, line, slot)?;
    Ok(())
}

/// A statement without blocks, but for `del`.
#[cycle(statements)]
fn simple(e: &mut Emitter, names: &Names, s: Simple, around: &Around) -> Result<(), Fault>
    ensures done { IfOk result (λ _. Emitted e.old e.new
        ((stated (simple_stmt s.entry)).code names.now (around_of names.now around.now) 0) (env_of around.now)) }
    ensures large { result ≡ Err Fault.TooLarge → 65535 < length e.old.code
        + ((stated (simple_stmt s.entry)).code names.now (around_of names.now around.now) 0).size }
{
    match s {
        Simple::Do(line, x) => alone(e, names, line, x),
        Simple::Assign(line, targets, x) => assign(e, names, line, targets.as_slice(), x),
        Simple::Augment(line, x, o, y) => change(e, names, line, x, o, y),
        Simple::Print(line, items, comma) => print(e, names, line, items.as_slice(), comma),
        Simple::Break(line) => leave(e, names, line, Way::Break, around),
        Simple::Continue(line) => leave(e, names, line, Way::Continue, around),
        Simple::Return(line, x) => returned(e, names, line, x, around),
        Simple::Raise(line, x, v) => raise(e, names, line, x, v, around),
        Simple::Assert(line, x, message) => assert(e, names, line, x, message),
        Simple::Import(line, items) => import(e, names, line, items.as_slice()),
        Simple::From(line, _, items) => take_from(e, names, line, items.as_slice()),
    }
}

/// The code of a plan.
#[cycle(statements)]
fn statement<'a>(
    e: &mut Emitter,
    names: &Names,
    p: &Plan<'a>,
    around: &Around<'_, 'a>,
) -> Result<(), Fault>
    ensures done { IfOk result
        (λ _. Emitted e.old e.new (planned p.now names.now (around_of names.now around.now)) (env_of around.now)) }
    ensures large { result ≡ Err Fault.TooLarge
        → 65535 < length e.old.code + (planned p.now names.now (around_of names.now around.now)).size }
{
    match p {
        Plan::Simple(s) => simple(e, names, *s, around),
        Plan::Delete(line, items) => delete(e, names, *line, items.as_slice()),
        Plan::Def(line, name, params, number) => {
            def(e, names, *line, name.as_slice(), *params, *number)
        }
        Plan::Class(line, name, x, number) => {
            class(e, names, *line, name.as_slice(), *x, *number)
        }
        Plan::If(items, other) => if_else(e, names, items.as_slice(), other.as_slice(), around),
        Plan::While(arm, body, other) => {
            while_loop(e, names, *arm, body.as_slice(), other.as_slice(), around)
        }
        Plan::For(line, target, x, body, other) => {
            let body = body.as_slice();
            for_loop(e, names, *line, *target, *x, body, other.as_slice(), around)
        }
        Plan::Try(line, body, items, other) => {
            let body = body.as_slice();
            tried(
                e,
                names,
                *line,
                body,
                items.as_slice(),
                other.as_slice(),
                around,
            )
        }
        Plan::Finally(line, inner, last) => {
            tried_finally(e, names, *line, inner.as_slice(), last, around)
        }
    }
}
