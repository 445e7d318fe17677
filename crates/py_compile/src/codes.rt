//! The codes of a program.
ghost use Rattle.std.specs.Prelude.{◌≡◌, ◌<◌, ◌≤◌, ◌+◌, ◌^◌, ◌++◌, ◌∷◌, [], length, map, replicate, Err, IfOk, OnOk, None, Some};
ghost use Rattle.py_compile.specs.inner.Bodies.{CodesOf, known_by, known_in};
ghost use Rattle.py_templates.specs.Expressions.{key_names};
ghost use Rattle.py_uses.specs.inner.Gathered.{body_of, numbered};
ghost use Rattle.py_templates.specs.Names.{first_cell, text};
ghost use Rattle.py_emit.specs.inner.State.{Emitted, no_frames};
ghost use Rattle.py_templates.specs.Statements.{stated_block};
ghost use Rattle.py_templates.specs.Table.{body_code, module_code};
ghost use Rattle.py_templates.specs.Whole.{code_at, large_at, least, slots_named, whole};

use crate::around::Around;
use crate::planning;
use crate::statement::block;
use py_base::{Bytes, NameSet, NoMemory, Refusal, split};
use py_code::{Code, Codes, Constant, Instr, KeyLists, Keys, Texts};
use py_emit::{Draft, Emitter, Fault};
use py_templates::{CompileError, KeySet, Names, to_u32, too_large};
use py_tree::Named;
use py_uses::{Body, Tally};
use sqlite_items::Items;
use std::alloc::Global;

/// The instructions of a body that isn't the module's, whose own bodies are numbered from that number on.
fn emit_inner(e: &mut Emitter, names: &Names, body: &Body, first: u32) -> Result<(), Fault>
    ensures done { IfOk result (λ _. Emitted e.old e.new
        (body_code body.now.line ((stated_block body.now.block.now).code names.now [] first)) no_frames) }
    ensures large { result ≡ Err Fault.TooLarge → 65535 < length e.old.code
        + (body_code body.now.line ((stated_block body.now.block.now).code names.now [] first)).size }
{
    let (plans, _) = planning::block(e.alloc(), body.block, first)?;
    block(e, names, plans.as_slice(), &Around::Body)?;
    e.put(body.line, Draft::Op(Instr::Const(Constant::None)))?;
    e.put(body.line, Draft::Op(Instr::Return))?;
    Ok(())
}

/// The instructions of the module's body.
fn emit_module(e: &mut Emitter, names: &Names, body: &Body) -> Result<(), Fault>
    ensures done { IfOk result (λ _. Emitted e.old e.new
        (module_code body.now.line ((stated_block body.now.block.now).code names.now [] 1)) no_frames) }
    ensures large { result ≡ Err Fault.TooLarge → 65535 < length e.old.code
        + (module_code body.now.line ((stated_block body.now.block.now).code names.now [] 1)).size }
{
    e.put(body.line, Draft::Op(Instr::Setup))?;
    let (plans, _) = planning::block(e.alloc(), body.block, 1)?;
    block(e, names, plans.as_slice(), &Around::Body)?;
    e.put(body.line, Draft::Op(Instr::Const(Constant::None)))?;
    e.put(body.line, Draft::Op(Instr::Return))?;
    Ok(())
}

/// The instructions of the body with that number.
fn emit(e: &mut Emitter, names: &Names, number: usize, body: &Body) -> Result<(), Fault>
    requires { number < 65535 }
    ensures done { IfOk result (λ _. Emitted e.old e.new (whole number (body_of number body.now) names.now) no_frames) }
    ensures large { result ≡ Err Fault.TooLarge
        → 65535 < length e.old.code + (whole number (body_of number body.now) names.now).size }
{
    if number == 0 {
        return emit_module(e, names, body);
    }
    emit_inner(e, names, body, (number + 1) as u32)
}

/// The named slots, and so many hidden ones.
fn slots(alloc: Global, is_class: bool, locals: &NameSet, hidden: u32) -> Result<Texts, NoMemory>
    ensures { IfOk result (λ out. out ≡ slots_named is_class locals.now ++ replicate hidden []) }
{
    let mut out = Texts::new(alloc);
    if !is_class {
        push_names(alloc, &mut out, locals)?;
    }
    for _ in 0..hidden {
        out.push(Bytes::new(alloc))?;
    }
    Ok(out)
}

fn push_names(alloc: Global, out: &mut Texts, names: &NameSet) -> Result<(), NoMemory>
    ensures { OnOk result (out.new ≡ out.old ++ names.now) }
{
    for name in names.as_slice() {
        let bytes = Bytes::from_slice(alloc, *name)?;
        out.push(bytes)?;
    }
    Ok(())
}

/// The roots of the names of a keyword list.
fn keys(alloc: Global, names: &Names, named: &[Named]) -> Result<Keys, NoMemory>
    ensures { IfOk result (λ out. out ≡ map (text names.now) (key_names named.now)) }
{
    let mut out = Keys::new(alloc);
    let mut rest = named;
    'names: while let Some((x, more)) = split(rest) {
        out.push(names.text(x.name.as_slice()))?;
        rest = more;
    }
    Ok(out)
}

/// The keyword lists as roots.
fn key_lists(alloc: Global, names: &Names, lists: &KeySet) -> Result<KeyLists, NoMemory>
    ensures { IfOk result (λ out. out ≡ map (map (text names.now)) lists.now) }
{
    let mut out = KeyLists::new(alloc);
    for list in lists.as_slice() {
        let keys = keys(alloc, names, list.named())?;
        out.push(keys)?;
    }
    Ok(out)
}

/// How many slots have names.
fn named_slots(is_class: bool, locals: &NameSet) -> Result<u32, Fault>
    ensures count { IfOk result (λ n. n ≡ length (slots_named is_class locals.now)) }
    ensures fits { IfOk result (λ _. length locals.now < 2 ^ 32) }
    ensures small { result ≡ Err Fault.TooLarge → ⊥ }
{
    let count = to_u32(locals.len())?;
    if is_class { Ok(0) } else { Ok(count) }
}

/// The code of the body with that number.
fn code<'a>(
    alloc: Global,
    number: usize,
    body: &Body<'a>,
    locals: &NameSet<'a>,
    used: &Tally<'a>,
) -> Result<Code, Fault>
    requires place { number < length used.now.keys }
    requires few { number < 65535 }
    requires roots { first_cell used.now.texts used.now.cells + length used.now.cells < 2 ^ 32 }
    ensures done { IfOk result
        (λ c. c ≡ code_at number (body_of number body.now) (known_by locals.now used.now number body.now.is_class)) }
    ensures small { IfOk result (λ _. (whole number (body_of number body.now)
        (known_by locals.now used.now number body.now.is_class)).size ≤ 65535) }
    ensures large { result ≡ Err Fault.TooLarge → 65535 < (whole number (body_of number body.now)
        (known_by locals.now used.now number body.now.is_class)).size }
{
    let lists = used.lists(number);
    let named = named_slots(body.is_class, locals)?;
    let _ = to_u32(lists.len())?;
    let names = Names::new(body.is_class, locals, &used.texts, &used.cells, lists);
    let mut e = Emitter::new(alloc, named);
    emit(&mut e, &names, number, body)?;
    let hidden = e.slots() - named;
    let (instrs, lines) = e.finish()?;
    let slots = slots(alloc, body.is_class, locals, hidden)?;
    let keys = key_lists(alloc, &names, lists)?;
    let name = Bytes::from_slice(alloc, body.name)?;
    Ok(Code {
        name,
        instrs,
        lines,
        slots,
        params: body.params,
        keys,
    })
}

/// The lesser of a line and that line, if there is one.
fn lesser(found: Option<u32>, line: u32) -> Option<u32>
    ensures { result ≡ least found (Some line) }
{
    match found {
        Some(other) => Some(other.min(line)),
        None => Some(line),
    }
}

/// One more code, where none is too large; the least line so far of one that is.
fn one_more<'a>(
    alloc: Global,
    out: &mut Codes,
    found: Option<u32>,
    number: usize,
    body: &Body<'a>,
    locals: &NameSet<'a>,
    used: &Tally<'a>,
) -> Result<Option<u32>, CompileError>
    requires place { number < length used.now.keys }
    requires few { number < 65535 }
    requires roots { first_cell used.now.texts used.now.cells + length used.now.cells < 2 ^ 32 }
    ensures large { IfOk result (λ l. l ≡ least found (large_at number (body_of number body.now)
        (known_by locals.now used.now number body.now.is_class))) }
    ensures done { IfOk result (λ l. l ≡ None → out.new ≡ out.old
        ++ code_at number (body_of number body.now) (known_by locals.now used.now number body.now.is_class) ∷ []) }
    ensures free { (r : Refusal) → result ≡ Err (CompileError.Refused r) → ⊥ }
{
    match code(alloc, number, body, locals, used) {
        Ok(code) => {
            out.push(code)?;
            Ok(found)
        }
        Err(Fault::TooLarge) => Ok(lesser(found, body.line)),
        Err(Fault::OutOfMemory) => Err(CompileError::OutOfMemory),
    }
}

/// The codes of the bodies; where bodies are too large, the least line of one.
pub fn codes<'a>(
    alloc: Global,
    bodies: &[Body<'a>],
    locals: &[NameSet<'a>],
    used: &Tally<'a>,
) -> Result<Codes, CompileError>
    requires place { length used.now.keys ≡ length bodies.now }
    requires long { length bodies.now ≤ length locals.now }
    requires few { length bodies.now ≤ 65535 }
    requires roots { first_cell used.now.texts used.now.cells + length used.now.cells < 2 ^ 32 }
    ensures { CodesOf (known_in locals.now used.now) (numbered 0 bodies.now) result }
{
    let mut out = Codes::new(alloc);
    let mut found = None;
    let mut number = 0;
    for body in bodies {
        let own = &locals[number];
        found = one_more(alloc, &mut out, found, number, body, own, used)?;
        number += 1;
    }
    match found {
        Some(line) => Err(too_large(line)),
        None => Ok(out),
    }
}
