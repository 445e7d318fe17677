//! The parts of compound statements between their blocks.
ghost use Rattle.std.specs.Prelude.{◌≡◌, ◌<◌, ◌≤◌, ◌+◌, ◌^◌, ◌∷◌, [], ℕ, List, Err, IfOk, length};
ghost use Rattle.py_code.specs.declared.instr.Instr.TheVariants.{ExcMatch, Iter, Jump, JumpFalse, LoadLocal, Next, PopTry, Raise, Return, StoreLocal, Try};
ghost use Rattle.py_emit.specs.declared.draft.Draft.TheVariants.{Op as DraftOp, To as DraftTo};
ghost use Rattle.py_emit.specs.declared.draft.Far.TheVariants.{Always, Trying};
ghost use Rattle.py_templates.specs.Template.{Alone, Frame, Here, Hidden, Op, To};
ghost use Rattle.py_emit.specs.inner.State.{St, frame_there, marked, opened, put};
ghost use Rattle.py_emit.specs.inner.Partly.{Puts};
ghost use Rattle.py_templates.specs.Expressions.{stored, value, value_some};
ghost use Rattle.py_emit.specs.inner.Heads.{HandlerHead, handler_size, HandlerTail};

use crate::draft::{Draft, Far};
use crate::emitter::Emitter;
use crate::expression::expression;
use crate::fault::Fault;
use crate::simple::value_or_none;
use crate::target::store;
use py_code::Instr;
use py_templates::Names;
use py_tree::{Arm, Expr, Handler};

/// The test of an arm, and the label behind its block.
pub fn arm_head(e: &mut Emitter, names: &Names, x: &Arm) -> Result<usize, Fault>
    ensures base { IfOk result (λ next. next ≡ length e.old.labels) }
    ensures labels { IfOk result (λ next. next < length e.new.labels) }
    ensures done { IfOk result (λ next. (env : List ℕ → List Frame)
        → Puts x.now.line next (λ ls. frame_there next 1 0 ls ∷ env ls)
        (Alone (value names.now x.now.line x.now.test) ∷ To 0 JumpFalse 0 ∷ []) (opened e.old 1 0) e.new) }
    ensures longer { IfOk result
        (λ _. length e.new.code ≡ length e.old.code + (value names.now x.now.line x.now.test).size + 1) }
    ensures large { result ≡ Err Fault.TooLarge
        → 65535 < length e.old.code + (value names.now x.now.line x.now.test).size + 1 }
{
    let (next, _) = e.begin(1, 0)?;
    expression(e, names, x.line, &x.test)?;
    e.put(x.line, Draft::To(Far::IfFalse, next))?;
    Ok(next)
}

/// The jump behind a block to the end of the whole, and the label of what follows.
pub fn arm_tail(e: &mut Emitter, line: u32, next: usize, end: usize) -> Result<(), Fault>
    ensures done { IfOk result (λ _. e.new ≡ marked (put e.old line (DraftTo Always end)) next) }
    ensures longer { IfOk result (λ _. length e.new.code ≡ length e.old.code + 1) }
    ensures large { result ≡ Err Fault.TooLarge → 65535 < length e.old.code + 1 }
{
    e.put(line, Draft::To(Far::Always, end))?;
    e.mark(next);
    Ok(())
}

/// The test of a `while`; its first label.
pub fn while_head(e: &mut Emitter, names: &Names, x: &Arm) -> Result<usize, Fault>
    ensures base { IfOk result (λ base. base ≡ length e.old.labels) }
    ensures labels { IfOk result (λ base. base + 3 ≤ length e.new.labels) }
    ensures fits { IfOk result (λ base. base + 3 < 2 ^ 64) }
    ensures done { IfOk result (λ base. (env : List ℕ → List Frame)
        → Puts x.now.line base (λ ls. frame_there base 3 0 ls ∷ env ls)
        (Here 1 ∷ Alone (value names.now x.now.line x.now.test) ∷ To 0 JumpFalse 2 ∷ []) (opened e.old 3 0) e.new) }
    ensures longer { IfOk result
        (λ _. length e.new.code ≡ length e.old.code + (value names.now x.now.line x.now.test).size + 1) }
    ensures large { result ≡ Err Fault.TooLarge
        → 65535 < length e.old.code + (value names.now x.now.line x.now.test).size + 1 }
{
    let (base, _) = e.begin(3, 0)?;
    e.mark(base + 1);
    expression(e, names, x.line, &x.test)?;
    e.put(x.line, Draft::To(Far::IfFalse, base + 2))?;
    Ok(base)
}

/// What a `for` goes over, and the store of the next item; its first label.
pub fn for_head(
    e: &mut Emitter,
    names: &Names,
    line: u32,
    target: &Expr,
    x: &Expr,
) -> Result<usize, Fault>
    ensures base { IfOk result (λ base. base ≡ length e.old.labels) }
    ensures labels { IfOk result (λ base. base + 3 ≤ length e.new.labels) }
    ensures fits { IfOk result (λ base. base + 3 < 2 ^ 64) }
    ensures done { IfOk result (λ base. (env : List ℕ → List Frame)
        → Puts line base (λ ls. frame_there base 3 0 ls ∷ env ls)
        (Alone (value names.now line x.now) ∷ Op Iter ∷ Here 1 ∷ To 0 Next 2
        ∷ Alone (stored names.now line target.now) ∷ []) (opened e.old 3 0) e.new) }
    ensures longer { IfOk result (λ _. length e.new.code
        ≡ length e.old.code + (value names.now line x.now).size + 2 + (stored names.now line target.now).size) }
    ensures large { result ≡ Err Fault.TooLarge
        → 65535 < length e.old.code + (value names.now line x.now).size + 2 + (stored names.now line target.now).size }
{
    let (base, _) = e.begin(3, 0)?;
    expression(e, names, line, x)?;
    e.put(line, Draft::Op(Instr::Iter))?;
    e.mark(base + 1);
    e.put(line, Draft::To(Far::Nexting, base + 2))?;
    store(e, names, line, target)?;
    Ok(base)
}

/// The end of a loop's block: the jump to its next turn, and the label of its `else`.
pub fn loop_tail(e: &mut Emitter, line: u32, base: usize) -> Result<(), Fault>
    requires { base + 3 < 2 ^ 64 }
    ensures done { IfOk result (λ _. e.new ≡ marked (put e.old line (DraftTo Always (base + 1))) (base + 2)) }
    ensures longer { IfOk result (λ _. length e.new.code ≡ length e.old.code + 1) }
    ensures large { result ≡ Err Fault.TooLarge → 65535 < length e.old.code + 1 }
{
    e.put(line, Draft::To(Far::Always, base + 1))?;
    e.mark(base + 2);
    Ok(())
}

/// The begin of a `try` with except clauses or a finally; its first label and its hidden slot.
pub fn try_head(e: &mut Emitter, line: u32) -> Result<(usize, u32), Fault>
    ensures base { IfOk result (λ p. p.0 ≡ length e.old.labels) }
    ensures slot { IfOk result (λ p. p.1 ≡ e.old.slots) }
    ensures labels { IfOk result (λ p. p.0 + 2 ≤ length e.new.labels) }
    ensures fits { IfOk result (λ p. p.0 + 3 < 2 ^ 64) }
    ensures done { IfOk result (λ p. e.new ≡ put (opened e.old 2 1) line (DraftTo Trying (p.0 + 1))) }
    ensures longer { IfOk result (λ _. length e.new.code ≡ length e.old.code + 1) }
    ensures large { result ≡ Err Fault.TooLarge → 65535 < length e.old.code + 1 }
{
    let (base, slot) = e.begin(2, 1)?;
    e.put(line, Draft::To(Far::Trying, base + 1))?;
    Ok((base, slot))
}

/// The end of what is tried.
pub fn pop_try(e: &mut Emitter, line: u32) -> Result<(), Fault>
    ensures done { IfOk result (λ _. e.new ≡ put e.old line (DraftOp PopTry)) }
    ensures longer { IfOk result (λ _. length e.new.code ≡ length e.old.code + 1) }
    ensures large { result ≡ Err Fault.TooLarge → 65535 < length e.old.code + 1 }
{
    e.put(line, Draft::Op(Instr::PopTry))?;
    Ok(())
}

/// The jump to the end, and the place that an exception leads to.
pub fn catch(e: &mut Emitter, line: u32, base: usize, slot: u32) -> Result<(), Fault>
    requires { base + 3 < 2 ^ 64 }
    ensures done { IfOk result
        (λ _. e.new ≡ put (marked (put e.old line (DraftTo Always base)) (base + 1)) line (DraftOp (StoreLocal slot))) }
    ensures longer { IfOk result (λ _. length e.new.code ≡ length e.old.code + 2) }
    ensures large { result ≡ Err Fault.TooLarge → 65535 < length e.old.code + 2 }
{
    e.put(line, Draft::To(Far::Always, base))?;
    e.mark(base + 1);
    e.put(line, Draft::Op(Instr::StoreLocal(slot)))?;
    Ok(())
}

/// The exception in that slot again.
pub fn raise_slot(e: &mut Emitter, line: u32, slot: u32) -> Result<(), Fault>
    ensures done { IfOk result (λ _. e.new ≡ put (put e.old line (DraftOp (LoadLocal slot))) line (DraftOp Raise)) }
    ensures longer { IfOk result (λ _. length e.new.code ≡ length e.old.code + 2) }
    ensures large { result ≡ Err Fault.TooLarge → 65535 < length e.old.code + 2 }
{
    e.put(line, Draft::Op(Instr::LoadLocal(slot)))?;
    e.put(line, Draft::Op(Instr::Raise))?;
    Ok(())
}

/// The value that a `return` gives, and its hidden slot.
pub fn return_head(
    e: &mut Emitter,
    names: &Names,
    line: u32,
    x: &Option<Expr>,
) -> Result<u32, Fault>
    ensures slot { IfOk result (λ slot. slot ≡ e.old.slots) }
    ensures done { IfOk result (λ slot. (env : List ℕ → List Frame)
        → Puts line (length e.old.labels) (λ ls. frame_there (length e.old.labels) 0 slot ls ∷ env ls)
        (Alone (value_some names.now line x.now) ∷ Hidden 0 StoreLocal ∷ []) (opened e.old 0 1) e.new) }
    ensures longer { IfOk result
        (λ _. length e.new.code ≡ length e.old.code + (value_some names.now line x.now).size + 1) }
    ensures large { result ≡ Err Fault.TooLarge
        → 65535 < length e.old.code + (value_some names.now line x.now).size + 1 }
{
    let (_, slot) = e.begin(0, 1)?;
    value_or_none(e, names, line, x)?;
    e.put(line, Draft::Op(Instr::StoreLocal(slot)))?;
    Ok(slot)
}

/// The end of a `return`.
pub fn return_tail(e: &mut Emitter, line: u32, slot: u32) -> Result<(), Fault>
    ensures done { IfOk result (λ _. e.new ≡ put (put e.old line (DraftOp (LoadLocal slot))) line (DraftOp Return)) }
    ensures longer { IfOk result (λ _. length e.new.code ≡ length e.old.code + 2) }
    ensures large { result ≡ Err Fault.TooLarge → 65535 < length e.old.code + 2 }
{
    e.put(line, Draft::Op(Instr::LoadLocal(slot)))?;
    e.put(line, Draft::Op(Instr::Return))?;
    Ok(())
}

/// What an except clause catches, and where that is put; the label behind its block, if it catches not all.
pub fn handler_head(
    e: &mut Emitter,
    names: &Names,
    x: &Handler,
    slot: u32,
) -> Result<Option<usize>, Fault>
    ensures done { IfOk result
        (λ next. HandlerHead names.now x.now.line x.now.test x.now.target slot next e.old e.new) }
    ensures longer { IfOk result
        (λ _. length e.new.code ≡ length e.old.code + handler_size names.now x.now.line x.now.test x.now.target) }
    ensures large { result ≡ Err Fault.TooLarge
        → 65535 < length e.old.code + handler_size names.now x.now.line x.now.test x.now.target }
{
    match &x.test {
        None => Ok(None),
        Some(test) => match &x.target {
            None => {
                let next = handler_test(e, names, x.line, test, slot)?;
                Ok(Some(next))
            }
            Some(target) => {
                let next = handler_test(e, names, x.line, test, slot)?;
                e.put(x.line, Draft::Op(Instr::LoadLocal(slot)))?;
                store(e, names, x.line, target)?;
                Ok(Some(next))
            }
        },
    }
}

/// The test of an except clause, and the label behind its block.
fn handler_test(
    e: &mut Emitter,
    names: &Names,
    line: u32,
    test: &Expr,
    slot: u32,
) -> Result<usize, Fault>
    ensures base { IfOk result (λ next. next ≡ length e.old.labels) }
    ensures labels { IfOk result (λ next. next < length e.new.labels) }
    ensures done { IfOk result (λ next. (base : ℕ) (env : List ℕ → List Frame)
        → Puts line next (λ ls. frame_there next 1 0 ls ∷ frame_there base 2 slot ls ∷ env ls)
        (Hidden 1 LoadLocal ∷ Alone (value names.now line test.now) ∷ Op ExcMatch ∷ To 0 JumpFalse 0 ∷ [])
        (opened e.old 1 0) e.new) }
    ensures longer { IfOk result
        (λ _. length e.new.code ≡ length e.old.code + (value names.now line test.now).size + 3) }
    ensures large { result ≡ Err Fault.TooLarge → 65535 < length e.old.code + (value names.now line test.now).size + 3 }
{
    let (next, _) = e.begin(1, 0)?;
    e.put(line, Draft::Op(Instr::LoadLocal(slot)))?;
    expression(e, names, line, test)?;
    e.put(line, Draft::Op(Instr::ExcMatch))?;
    e.put(line, Draft::To(Far::IfFalse, next))?;
    Ok(next)
}

/// The end of an except clause.
pub fn handler_tail(
    e: &mut Emitter,
    line: u32,
    next: Option<usize>,
    base: usize,
) -> Result<(), Fault>
    ensures done { IfOk result (λ _. HandlerTail line next base e.old e.new) }
    ensures longer { IfOk result (λ _. length e.new.code ≡ length e.old.code + 1) }
    ensures large { result ≡ Err Fault.TooLarge → 65535 < length e.old.code + 1 }
{
    match next {
        None => {
            e.put(line, Draft::To(Far::Always, base))?;
            Ok(())
        }
        Some(next) => arm_tail(e, line, next, base),
    }
}
