//! The code of targets: a store, a deletion, an augmented assignment.

ghost use Rattle.std.specs.Prelude.{◌≡◌, ◌<◌, ◌+◌, ◌∷◌, ◌++◌, [], Err, IfOk, MatchOption, length};
ghost use Rattle.py_code.specs.declared.instr.Instr.TheVariants.{Dup, Dup2, InPlace, LoadAttr, LoadItem, Rot2, Rot3, StoreAttr, StoreItem, Unpack};
ghost use Rattle.py_templates.specs.Expressions.{add_at, coded, deleted, operator, stored, value};
ghost use Rattle.py_templates.specs.Names.{Known};
ghost use Rattle.py_emit.specs.inner.State.{Emitted, no_frames};
ghost use Rattle.py_emit.specs.inner.Tasks.{Augment, Behind, Delete, Deletes, Op, Store, Stores, Value};
ghost use Rattle.py_emit.specs.inner.TaskWeights.{Splits};
ghost use Rattle.py_tree.specs.declared.expr.Expr.TheVariants.{Trail};

use crate::emitter::Emitter;
use crate::expression::{operator_number, run};
use crate::fault::Fault;
use crate::task::{Task, Tasks};
use py_base::split;
use py_code::Instr;
use py_templates::{Names, to_u32};
use py_tree::{Expr, Operator, Trailer};

/// The last of these and the others.
fn split_last<T>(items: &[T]) -> Option<(&T, &[T])>
    ensures { MatchOption result (items.now ≡ []) (λ p. items.now ≡ p.1.now ++ p.0.now ∷ []) }
{
    items.split_last()
}

/// The store of the top to a target.
pub fn store(e: &mut Emitter, names: &Names, line: u32, x: &Expr) -> Result<(), Fault>
    ensures done { IfOk result (λ _. Emitted e.old e.new (stored names.now line x.now) no_frames) }
    ensures large { result ≡ Err Fault.TooLarge → 65535 < length e.old.code + (stored names.now line x.now).size }
{
    run(e, names, line, Task::Store(x))
}

/// The deletion of a target.
pub fn delete_one(e: &mut Emitter, names: &Names, line: u32, x: &Expr) -> Result<(), Fault>
    ensures done { IfOk result (λ _. Emitted e.old e.new (deleted names.now line x.now) no_frames) }
    ensures large { result ≡ Err Fault.TooLarge → 65535 < length e.old.code + (deleted names.now line x.now).size }
{
    run(e, names, line, Task::Delete(x))
}

/// `x += y` and the others.
pub fn augment(
    e: &mut Emitter,
    names: &Names,
    line: u32,
    x: &Expr,
    o: Operator,
    y: &Expr,
) -> Result<(), Fault>
    ensures done { IfOk result (λ _. Emitted e.old e.new
        (add_at line (coded names.now line x.now).place (operator o) (value names.now line y.now)) no_frames) }
    ensures large { result ≡ Err Fault.TooLarge → 65535 < length e.old.code
        + (add_at line (coded names.now line x.now).place (operator o) (value names.now line y.now)).size }
{
    run(e, names, line, Task::Augment(x, o, y))
}

/// A store, by its parts.
pub fn store_step<'a>(names: &Names, tasks: &mut Tasks<'a>, x: &'a Expr) -> Result<(), Fault>
    ensures done { IfOk result (λ _. Splits names.now (Store x.now ∷ tasks.old) tasks.new) }
    ensures small { result ≡ Err Fault.TooLarge → ⊥ }
{
    match x {
        Expr::Name(name) => tasks.push(Task::Op(names.home(name.as_slice()).store())),
        Expr::Group(a) => tasks.push(Task::Store(a.get())),
        Expr::Tuple(items) => unpack(tasks, items.as_slice()),
        Expr::List(items) => unpack(tasks, items.as_slice()),
        Expr::Trail(a, items) => store_trail(names, tasks, a.get(), items.as_slice()),
        Expr::Int(_) => Ok(()),
        Expr::Str(_) => Ok(()),
        Expr::Dict(_) => Ok(()),
        Expr::Power(_, _) => Ok(()),
        Expr::Unary(_, _) => Ok(()),
        Expr::Chain(_, _, _) => Ok(()),
        Expr::Not(_) => Ok(()),
        Expr::Choice(_, _, _) => Ok(()),
    }
}

/// The stores of the items of a sequence to targets.
fn unpack<'a>(tasks: &mut Tasks<'a>, items: &'a [Expr]) -> Result<(), Fault>
    ensures done { IfOk result (λ _. tasks.new ≡ Op (Unpack (length items.now)) ∷ Stores items.now ∷ tasks.old) }
    ensures small { result ≡ Err Fault.TooLarge → ⊥ }
{
    let n = to_u32(items.len())?;
    tasks.push_two(Task::Op(Instr::Unpack(n)), Task::Stores(items))
}

/// The store to an attribute or a subscript.
fn store_trail<'a>(
    names: &Names,
    tasks: &mut Tasks<'a>,
    a: &'a Expr,
    items: &'a [Trailer],
) -> Result<(), Fault>
    ensures done { IfOk result (λ _. Splits names.now (Store (Trail a.now items.now) ∷ tasks.old) tasks.new) }
    ensures small { result ≡ Err Fault.TooLarge → ⊥ }
{
    match split_last(items) {
        None => Ok(()),
        Some((last, front)) => match last {
            Trailer::Attribute(m) => tasks.push_three(
                Task::Value(a),
                Task::Behind(front),
                Task::Op(Instr::StoreAttr(names.text(m.as_slice()))),
            ),
            Trailer::Index(i) => tasks.push_four(
                Task::Value(a),
                Task::Behind(front),
                Task::Value(i.get()),
                Task::Op(Instr::StoreItem),
            ),
            Trailer::Slice(_, _) => Ok(()),
            Trailer::Call(_, _) => Ok(()),
        },
    }
}

/// Stores to targets in turn.
pub fn stores<'a>(tasks: &mut Tasks<'a>, items: &'a [Expr]) -> Result<(), Fault>
    ensures done { IfOk result (λ _. (n : Known) → Splits n (Stores items.now ∷ tasks.old) tasks.new) }
    ensures small { result ≡ Err Fault.TooLarge → ⊥ }
{
    match split(items) {
        None => Ok(()),
        Some((x, more)) => tasks.push_two(Task::Store(x), Task::Stores(more)),
    }
}

/// A deletion, by its parts; of a tuple, a list or a group the deletion of its items in turn.
pub fn delete_step<'a>(names: &Names, tasks: &mut Tasks<'a>, x: &'a Expr) -> Result<(), Fault>
    ensures done { IfOk result (λ _. Splits names.now (Delete x.now ∷ tasks.old) tasks.new) }
    ensures small { result ≡ Err Fault.TooLarge → ⊥ }
{
    match x {
        Expr::Name(name) => tasks.push(Task::Op(names.home(name.as_slice()).del())),
        Expr::Group(a) => tasks.push(Task::Delete(a.get())),
        Expr::Tuple(items) => tasks.push(Task::Deletes(items.as_slice())),
        Expr::List(items) => tasks.push(Task::Deletes(items.as_slice())),
        Expr::Trail(a, items) => delete_trail(names, tasks, a.get(), items.as_slice()),
        Expr::Int(_) => Ok(()),
        Expr::Str(_) => Ok(()),
        Expr::Dict(_) => Ok(()),
        Expr::Power(_, _) => Ok(()),
        Expr::Unary(_, _) => Ok(()),
        Expr::Chain(_, _, _) => Ok(()),
        Expr::Not(_) => Ok(()),
        Expr::Choice(_, _, _) => Ok(()),
    }
}

/// The deletion of an attribute or a subscript.
fn delete_trail<'a>(
    names: &Names,
    tasks: &mut Tasks<'a>,
    a: &'a Expr,
    items: &'a [Trailer],
) -> Result<(), Fault>
    ensures done { IfOk result (λ _. Splits names.now (Delete (Trail a.now items.now) ∷ tasks.old) tasks.new) }
    ensures small { result ≡ Err Fault.TooLarge → ⊥ }
{
    match split_last(items) {
        None => Ok(()),
        Some((last, front)) => match last {
            Trailer::Attribute(m) => tasks.push_three(
                Task::Value(a),
                Task::Behind(front),
                Task::Op(Instr::DelAttr(names.text(m.as_slice()))),
            ),
            Trailer::Index(i) => tasks.push_four(
                Task::Value(a),
                Task::Behind(front),
                Task::Value(i.get()),
                Task::Op(Instr::DelItem),
            ),
            Trailer::Slice(_, _) => Ok(()),
            Trailer::Call(_, _) => Ok(()),
        },
    }
}

/// Deletions of targets in turn.
pub fn deletes<'a>(tasks: &mut Tasks<'a>, items: &'a [Expr]) -> Result<(), Fault>
    ensures done { IfOk result (λ _. (n : Known) → Splits n (Deletes items.now ∷ tasks.old) tasks.new) }
    ensures small { result ≡ Err Fault.TooLarge → ⊥ }
{
    match split(items) {
        None => Ok(()),
        Some((x, more)) => tasks.push_two(Task::Delete(x), Task::Deletes(more)),
    }
}

/// An augmented assignment, by its parts.
pub fn augment_step<'a>(
    names: &Names,
    tasks: &mut Tasks<'a>,
    x: &'a Expr,
    o: Operator,
    y: &'a Expr,
) -> Result<(), Fault>
    ensures done { IfOk result (λ _. Splits names.now (Augment x.now o y.now ∷ tasks.old) tasks.new) }
    ensures small { result ≡ Err Fault.TooLarge → ⊥ }
{
    let add = Task::Op(Instr::InPlace(operator_number(o)));
    match x {
        Expr::Name(name) => {
            let home = names.home(name.as_slice());
            tasks.push_four(
                Task::Op(home.load()),
                Task::Value(y),
                add,
                Task::Op(home.store()),
            )
        }
        Expr::Group(a) => tasks.push(Task::Augment(a.get(), o, y)),
        Expr::Trail(a, items) => augment_trail(names, tasks, a.get(), items.as_slice(), o, y),
        Expr::Tuple(_) => Ok(()),
        Expr::List(_) => Ok(()),
        Expr::Int(_) => Ok(()),
        Expr::Str(_) => Ok(()),
        Expr::Dict(_) => Ok(()),
        Expr::Power(_, _) => Ok(()),
        Expr::Unary(_, _) => Ok(()),
        Expr::Chain(_, _, _) => Ok(()),
        Expr::Not(_) => Ok(()),
        Expr::Choice(_, _, _) => Ok(()),
    }
}

/// The augmented assignment to an attribute or a subscript.
fn augment_trail<'a>(
    names: &Names,
    tasks: &mut Tasks<'a>,
    a: &'a Expr,
    items: &'a [Trailer],
    o: Operator,
    y: &'a Expr,
) -> Result<(), Fault>
    ensures done { IfOk result (λ _. Splits names.now (Augment (Trail a.now items.now) o y.now ∷ tasks.old) tasks.new) }
    ensures small { result ≡ Err Fault.TooLarge → ⊥ }
{
    match split_last(items) {
        None => Ok(()),
        Some((last, front)) => match last {
            Trailer::Attribute(m) => {
                let root = names.text(m.as_slice());
                add_to_attribute(tasks, a, front, root, operator_number(o), y)
            }
            Trailer::Index(i) => add_to_item(tasks, a, front, i.get(), operator_number(o), y),
            Trailer::Slice(_, _) => Ok(()),
            Trailer::Call(_, _) => Ok(()),
        },
    }
}

/// `a.n += y`, where the object is an atom with what stands behind it.
fn add_to_attribute<'a>(
    tasks: &mut Tasks<'a>,
    a: &'a Expr,
    front: &'a [Trailer],
    root: u32,
    o: u8,
    y: &'a Expr,
) -> Result<(), Fault>
    ensures done { IfOk result (λ _. tasks.new ≡ Value a.now ∷ Behind front.now ∷ Op Dup ∷ Op (LoadAttr root)
        ∷ Value y.now ∷ Op (InPlace o) ∷ Op Rot2 ∷ Op (StoreAttr root) ∷ tasks.old) }
    ensures small { result ≡ Err Fault.TooLarge → ⊥ }
{
    tasks.push_four(
        Task::Value(y),
        Task::Op(Instr::InPlace(o)),
        Task::Op(Instr::Rot2),
        Task::Op(Instr::StoreAttr(root)),
    )?;
    tasks.push_four(
        Task::Value(a),
        Task::Behind(front),
        Task::Op(Instr::Dup),
        Task::Op(Instr::LoadAttr(root)),
    )
}

/// `a[i] += y`, where the object is an atom with what stands behind it.
fn add_to_item<'a>(
    tasks: &mut Tasks<'a>,
    a: &'a Expr,
    front: &'a [Trailer],
    i: &'a Expr,
    o: u8,
    y: &'a Expr,
) -> Result<(), Fault>
    ensures done { IfOk result (λ _. tasks.new ≡ Value a.now ∷ Behind front.now ∷ Value i.now ∷ Op Dup2 ∷ Op LoadItem
        ∷ Value y.now ∷ Op (InPlace o) ∷ Op Rot3 ∷ Op StoreItem ∷ tasks.old) }
    ensures small { result ≡ Err Fault.TooLarge → ⊥ }
{
    tasks.push_four(
        Task::Value(y),
        Task::Op(Instr::InPlace(o)),
        Task::Op(Instr::Rot3),
        Task::Op(Instr::StoreItem),
    )?;
    tasks.push_four(
        Task::Behind(front),
        Task::Value(i),
        Task::Op(Instr::Dup2),
        Task::Op(Instr::LoadItem),
    )?;
    tasks.push(Task::Value(a))
}
