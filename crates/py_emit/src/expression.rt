//! The code of expressions.
//!
//! An expression's code is emitted with no recursion: a stack holds the tasks that are left, and each step does one of
//! them or puts its parts in its place.

ghost use Rattle.std.specs.Prelude.{◌≡◌, ◌<◌, ◌+◌, ◌∷◌, ℕ, Err, IfOk, length};
ghost use Rattle.py_code.specs.declared.instr.Constant.TheVariants.{Int as IntValue};
ghost use Rattle.py_code.specs.declared.instr.Instr.TheVariants.{BuildDict, BuildList, BuildTuple, Const, Pop, Rot2};
ghost use Rattle.py_emit.specs.declared.draft.Far.TheVariants.{Always};
ghost use Rattle.py_templates.specs.Expressions.{name_value, operator, sign_number, value, values};
ghost use Rattle.py_templates.specs.Names.{Known};
ghost use Rattle.py_emit.specs.inner.State.{Emitted, no_frames, opened};
ghost use Rattle.py_templates.specs.Table.{one};
ghost use Rattle.py_emit.specs.inner.Tasks.{Behind, Between, Keys, Kept, Links, Mark, Op, Pairs, Runs, To, Value, Values, bound_task, plain, size, sizes};
ghost use Rattle.py_emit.specs.inner.TaskWeights.{Advances, Splits};
ghost use Rattle.py_templates.specs.Template.{row};
ghost use Rattle.py_tree.specs.declared.expr.Expr.TheVariants.{Chain, Choice};
ghost use Rattle.py_tree.specs.declared.expr.Level.TheVariants.{Compare as CompareLevel};
ghost use Rattle.py_tree.specs.declared.expr.Trailer.TheVariants.{Attribute, Call};

use crate::draft::{Draft, Far};
use crate::emitter::Emitter;
use crate::fault::Fault;
use crate::target;
use crate::task::{Task, Tasks};
use py_base::{operator, split};
use py_code::{Constant, Instr};
use py_templates::{Names, is_none, to_u32};
use py_tree::{Expr, Level, Link, Named, Operator, Pair, Sign, Trailer};
use sqlite_items::Boxed;

/// The number of an operator (`py_base::operator`).
pub fn operator_number(o: Operator) -> u8
    ensures { result ≡ operator o }
{
    match o {
        Operator::Or => 0,
        Operator::And => 0,
        Operator::Less => operator::compare::LESS,
        Operator::Greater => operator::compare::GREATER,
        Operator::Equal => operator::compare::EQUAL,
        Operator::GreaterEqual => operator::compare::GREATER_EQUAL,
        Operator::LessEqual => operator::compare::LESS_EQUAL,
        Operator::NotEqual => operator::compare::NOT_EQUAL,
        Operator::In => operator::compare::IN,
        Operator::NotIn => operator::compare::NOT_IN,
        Operator::Is => operator::compare::IS,
        Operator::IsNot => operator::compare::IS_NOT,
        Operator::BitOr => operator::binary::OR,
        Operator::BitXor => operator::binary::XOR,
        Operator::BitAnd => operator::binary::AND,
        Operator::ShiftLeft => operator::binary::SHIFT_LEFT,
        Operator::ShiftRight => operator::binary::SHIFT_RIGHT,
        Operator::Plus => operator::binary::ADD,
        Operator::Minus => operator::binary::SUBTRACT,
        Operator::Times => operator::binary::MULTIPLY,
        Operator::Divide => operator::binary::DIVIDE,
        Operator::Floor => operator::binary::FLOOR_DIVIDE,
        Operator::Remainder => operator::binary::REMAINDER,
        Operator::Power => operator::binary::POWER,
    }
}

fn sign_number(s: Sign) -> u8
    ensures { result ≡ sign_number s }
{
    match s {
        Sign::Plus => operator::unary::PLUS,
        Sign::Minus => operator::unary::MINUS,
        Sign::Invert => operator::unary::INVERT,
    }
}

/// The code of an expression that is read, in a statement with this line.
pub fn expression(e: &mut Emitter, names: &Names, line: u32, x: &Expr) -> Result<(), Fault>
    ensures done { IfOk result (λ _. Emitted e.old e.new (value names.now line x.now) no_frames) }
    ensures large { result ≡ Err Fault.TooLarge → 65535 < length e.old.code + (value names.now line x.now).size }
{
    run(e, names, line, Task::Value(x))
}

/// One expression after another.
pub fn expressions(e: &mut Emitter, names: &Names, line: u32, items: &[Expr]) -> Result<(), Fault>
    ensures done { IfOk result (λ _. Emitted e.old e.new (row (values names.now line items.now)) no_frames) }
    ensures large { result ≡ Err Fault.TooLarge
        → 65535 < length e.old.code + (row (values names.now line items.now)).size }
{
    run(e, names, line, Task::Values(items))
}

/// Does a task, with all that it leads to.
pub fn run<'a>(e: &mut Emitter, names: &Names, line: u32, first: Task<'a>) -> Result<(), Fault>
    ensures done { IfOk result (λ _. Runs names.now line (plain first.entry) e.old e.new) }
    ensures large { result ≡ Err Fault.TooLarge → 65535 < length e.old.code + size names.now line (plain first.entry) }
{
    let mut tasks = Tasks::new(e.alloc());
    tasks.push(first)?;
    'tasks: while let Some(task) = tasks.pop() {
        step(e, names, line, &mut tasks, task)?;
    }
    Ok(())
}

/// Does the first part of a task, and leaves the others to be done.
fn step<'a>(
    e: &mut Emitter,
    names: &Names,
    line: u32,
    tasks: &mut Tasks<'a>,
    task: Task<'a>,
) -> Result<(), Fault>
    ensures done { IfOk result (λ _. Advances names.now line (plain task.entry ∷ tasks.old) e.old tasks.new e.new) }
    ensures large { result ≡ Err Fault.TooLarge
        → 65535 < length e.old.code + sizes names.now line (plain task.entry ∷ tasks.old) }
{
    match task {
        Task::Value(x) => value(e, names, tasks, x),
        Task::Values(items) => values(tasks, items),
        Task::Behind(items) => behind(names, tasks, items),
        Task::Pairs(items) => pairs(tasks, items),
        Task::Keys(items) => keys(tasks, items),
        Task::Links(items) => links(tasks, items),
        Task::Kept(far, label, a, more) => kept(tasks, far, label, a, more),
        Task::Between(label, link, more) => between(tasks, label, link, more),
        Task::Store(x) => target::store_step(names, tasks, x),
        Task::Stores(items) => target::stores(tasks, items),
        Task::Delete(x) => target::delete_step(names, tasks, x),
        Task::Deletes(items) => target::deletes(tasks, items),
        Task::Augment(x, o, y) => target::augment_step(names, tasks, x, o, y),
        Task::Op(i) => e.put(line, Draft::Op(i)),
        Task::To(far, label) => e.put(line, Draft::To(far, label)),
        Task::Mark(label) => {
            e.mark(label);
            Ok(())
        }
    }
}

/// The instruction that reads a name.
fn read(names: &Names, x: &[u8]) -> Instr
    ensures { (ln : ℕ) → name_value names.now ln x.now ≡ one ln result }
{
    if is_none(x) {
        Instr::Const(Constant::None)
    } else {
        names.home(x).load()
    }
}

/// The instruction that pushes a whole number.
fn integer(i: &i64) -> Instr
    ensures { result ≡ Const (IntValue i.now) }
{
    Instr::Const(Constant::Int(*i))
}

/// An expression that is read.
fn value<'a>(
    e: &mut Emitter,
    names: &Names,
    tasks: &mut Tasks<'a>,
    x: &'a Expr,
) -> Result<(), Fault>
    ensures done { IfOk result (λ _. (ln : ℕ) → Advances names.now ln (Value x.now ∷ tasks.old) e.old tasks.new e.new) }
    ensures small { result ≡ Err Fault.TooLarge → ⊥ }
{
    match x {
        Expr::Name(name) => tasks.push(Task::Op(read(names, name.as_slice()))),
        Expr::Int(i) => tasks.push(Task::Op(integer(i))),
        Expr::Str(s) => tasks.push(Task::Op(Instr::Const(Constant::Root(names.text(
            s.as_slice(),
        ))))),
        Expr::Group(a) => tasks.push(Task::Value(a.get())),
        Expr::Tuple(items) => tuple(tasks, items.as_slice()),
        Expr::List(items) => list(tasks, items.as_slice()),
        Expr::Dict(items) => dictionary(tasks, items.as_slice()),
        Expr::Trail(a, items) => {
            tasks.push_two(Task::Value(a.get()), Task::Behind(items.as_slice()))
        }
        Expr::Power(a, b) => tasks.push_three(
            Task::Value(a.get()),
            Task::Value(b.get()),
            Task::Op(Instr::Binary(operator::binary::POWER)),
        ),
        Expr::Unary(sign, a) => tasks.push_two(
            Task::Value(a.get()),
            Task::Op(Instr::Unary(sign_number(*sign))),
        ),
        Expr::Chain(level, a, more) => chain(e, tasks, *level, a.get(), more.as_slice()),
        Expr::Not(a) => tasks.push_two(Task::Value(a.get()), Task::Op(Instr::Not)),
        Expr::Choice(a, c, b) => choice(e, tasks, a.get(), c.get(), b.get()),
    }
}

/// The items of a tuple, and the instruction that builds it.
fn tuple<'a>(tasks: &mut Tasks<'a>, items: &'a [Expr]) -> Result<(), Fault>
    ensures done { IfOk result (λ _. tasks.new ≡ Values items.now ∷ Op (BuildTuple (length items.now)) ∷ tasks.old) }
    ensures small { result ≡ Err Fault.TooLarge → ⊥ }
{
    let n = to_u32(items.len())?;
    tasks.push_two(Task::Values(items), Task::Op(Instr::BuildTuple(n)))
}

/// The items of a list, and the instruction that builds it.
fn list<'a>(tasks: &mut Tasks<'a>, items: &'a [Expr]) -> Result<(), Fault>
    ensures done { IfOk result (λ _. tasks.new ≡ Values items.now ∷ Op (BuildList (length items.now)) ∷ tasks.old) }
    ensures small { result ≡ Err Fault.TooLarge → ⊥ }
{
    let n = to_u32(items.len())?;
    tasks.push_two(Task::Values(items), Task::Op(Instr::BuildList(n)))
}

/// The pairs of a dictionary, and the instruction that builds it.
fn dictionary<'a>(tasks: &mut Tasks<'a>, items: &'a [Pair]) -> Result<(), Fault>
    ensures done { IfOk result (λ _. tasks.new ≡ Pairs items.now ∷ Op (BuildDict (length items.now)) ∷ tasks.old) }
    ensures small { result ≡ Err Fault.TooLarge → ⊥ }
{
    let n = to_u32(items.len())?;
    tasks.push_two(Task::Pairs(items), Task::Op(Instr::BuildDict(n)))
}

/// `a if c else b`.
fn choice<'a>(
    e: &mut Emitter,
    tasks: &mut Tasks<'a>,
    a: &'a Expr,
    c: &'a Expr,
    b: &'a Expr,
) -> Result<(), Fault>
    ensures done { IfOk result (λ _. (n : Known) (ln : ℕ)
        → Advances n ln (Value (Choice a.now c.now b.now) ∷ tasks.old) e.old tasks.new e.new) }
    ensures small { result ≡ Err Fault.TooLarge → ⊥ }
{
    let (base, _) = e.begin(2, 0)?;
    tasks.push_three(Task::Mark(base + 1), Task::Value(b), Task::Mark(base))?;
    tasks.push_four(
        Task::Value(c),
        Task::To(Far::IfFalse, base + 1),
        Task::Value(a),
        Task::To(Far::Always, base),
    )
}

/// Operators of one level with their operands.
fn chain<'a>(
    e: &mut Emitter,
    tasks: &mut Tasks<'a>,
    level: Level,
    a: &'a Expr,
    more: &'a [Link],
) -> Result<(), Fault>
    ensures done { IfOk result (λ _. (n : Known) (ln : ℕ)
        → Advances n ln (Value (Chain level a.now more.now) ∷ tasks.old) e.old tasks.new e.new) }
    ensures small { result ≡ Err Fault.TooLarge → ⊥ }
{
    match level {
        Level::Or => logical(e, tasks, Far::KeepingTrue, a, more),
        Level::And => logical(e, tasks, Far::KeepingFalse, a, more),
        Level::Compare => comparison(e, tasks, a, more),
        Level::BitOr => tasks.push_two(Task::Value(a), Task::Links(more)),
        Level::BitXor => tasks.push_two(Task::Value(a), Task::Links(more)),
        Level::BitAnd => tasks.push_two(Task::Value(a), Task::Links(more)),
        Level::Shift => tasks.push_two(Task::Value(a), Task::Links(more)),
        Level::Sum => tasks.push_two(Task::Value(a), Task::Links(more)),
        Level::Term => tasks.push_two(Task::Value(a), Task::Links(more)),
    }
}

/// `a and b and c`, or `a or b or c`: each value but the last is kept where it decides.
fn logical<'a>(
    e: &mut Emitter,
    tasks: &mut Tasks<'a>,
    far: Far,
    a: &'a Expr,
    more: &'a [Link],
) -> Result<(), Fault>
    ensures done { IfOk result (λ _. (e.new ≡ opened e.old 1 0)
        × (tasks.new ≡ Kept far (length e.old.labels) a.now more.now ∷ Mark (length e.old.labels) ∷ tasks.old)) }
    ensures small { result ≡ Err Fault.TooLarge → ⊥ }
{
    let (base, _) = e.begin(1, 0)?;
    tasks.push_two(Task::Kept(far, base, a, more), Task::Mark(base))
}

/// `a < b`, and `a < b < c`, where each operand between is evaluated once.
fn comparison<'a>(
    e: &mut Emitter,
    tasks: &mut Tasks<'a>,
    a: &'a Expr,
    more: &'a [Link],
) -> Result<(), Fault>
    ensures done { IfOk result (λ _. (n : Known) (ln : ℕ)
        → Advances n ln (Value (Chain CompareLevel a.now more.now) ∷ tasks.old) e.old tasks.new e.new) }
    ensures small { result ≡ Err Fault.TooLarge → ⊥ }
{
    match split(more) {
        None => tasks.push(Task::Value(a)),
        Some((first, others)) => match split(others) {
            None => tasks.push_three(
                Task::Value(a),
                Task::Value(&first.operand),
                Task::Op(Instr::Compare(operator_number(first.operator))),
            ),
            Some(_) => chained(e, tasks, a, first, others),
        },
    }
}

/// A comparison of more than two operands.
fn chained<'a>(
    e: &mut Emitter,
    tasks: &mut Tasks<'a>,
    a: &'a Expr,
    first: &'a Link,
    others: &'a [Link],
) -> Result<(), Fault>
    ensures done { IfOk result (λ _. (e.new ≡ opened e.old 2 0)
        × (tasks.new ≡ Value a.now ∷ Between (length e.old.labels + 1) first.now others.now
        ∷ To Always (length e.old.labels) ∷ Mark (length e.old.labels + 1)
        ∷ Op Rot2 ∷ Op Pop ∷ Mark (length e.old.labels) ∷ tasks.old)) }
    ensures small { result ≡ Err Fault.TooLarge → ⊥ }
{
    let (base, _) = e.begin(2, 0)?;
    tasks.push_four(
        Task::Mark(base + 1),
        Task::Op(Instr::Rot2),
        Task::Op(Instr::Pop),
        Task::Mark(base),
    )?;
    tasks.push_three(
        Task::Value(a),
        Task::Between(base + 1, first, others),
        Task::To(Far::Always, base),
    )
}

/// Expressions in turn.
fn values<'a>(tasks: &mut Tasks<'a>, items: &'a [Expr]) -> Result<(), Fault>
    ensures done { IfOk result (λ _. (n : Known) → Splits n (Values items.now ∷ tasks.old) tasks.new) }
    ensures small { result ≡ Err Fault.TooLarge → ⊥ }
{
    match split(items) {
        None => Ok(()),
        Some((x, more)) => tasks.push_two(Task::Value(x), Task::Values(more)),
    }
}

/// The keys and values of a dictionary.
fn pairs<'a>(tasks: &mut Tasks<'a>, items: &'a [Pair]) -> Result<(), Fault>
    ensures done { IfOk result (λ _. (n : Known) → Splits n (Pairs items.now ∷ tasks.old) tasks.new) }
    ensures small { result ≡ Err Fault.TooLarge → ⊥ }
{
    match split(items) {
        None => Ok(()),
        Some((x, more)) => tasks.push_three(
            Task::Value(&x.key),
            Task::Value(&x.value),
            Task::Pairs(more),
        ),
    }
}

/// The values of a call's keyword arguments.
fn keys<'a>(tasks: &mut Tasks<'a>, items: &'a [Named]) -> Result<(), Fault>
    ensures done { IfOk result (λ _. (n : Known) → Splits n (Keys items.now ∷ tasks.old) tasks.new) }
    ensures small { result ≡ Err Fault.TooLarge → ⊥ }
{
    match split(items) {
        None => Ok(()),
        Some((x, more)) => tasks.push_two(Task::Value(&x.value), Task::Keys(more)),
    }
}

/// The operands behind the first, each with its BINARY.
fn links<'a>(tasks: &mut Tasks<'a>, items: &'a [Link]) -> Result<(), Fault>
    ensures done { IfOk result (λ _. (n : Known) → Splits n (Links items.now ∷ tasks.old) tasks.new) }
    ensures small { result ≡ Err Fault.TooLarge → ⊥ }
{
    match split(items) {
        None => Ok(()),
        Some((x, more)) => tasks.push_three(
            Task::Value(&x.operand),
            Task::Op(Instr::Binary(operator_number(x.operator))),
            Task::Links(more),
        ),
    }
}

/// The operands of `and` or `or`.
fn kept<'a>(
    tasks: &mut Tasks<'a>,
    far: Far,
    label: usize,
    a: &'a Expr,
    items: &'a [Link],
) -> Result<(), Fault>
    ensures done { IfOk result (λ _. (n : Known) → Splits n (Kept far label a.now items.now ∷ tasks.old) tasks.new) }
    ensures small { result ≡ Err Fault.TooLarge → ⊥ }
{
    match split(items) {
        None => tasks.push(Task::Value(a)),
        Some((x, more)) => tasks.push_three(
            Task::Value(a),
            Task::To(far, label),
            Task::Kept(far, label, &x.operand, more),
        ),
    }
}

/// The operands of a comparison of more than two, from the second on.
fn between<'a>(
    tasks: &mut Tasks<'a>,
    label: usize,
    link: &'a Link,
    items: &'a [Link],
) -> Result<(), Fault>
    ensures done { IfOk result (λ _. (n : Known) → Splits n (Between label link.now items.now ∷ tasks.old) tasks.new) }
    ensures small { result ≡ Err Fault.TooLarge → ⊥ }
{
    let compare = Instr::Compare(operator_number(link.operator));
    match split(items) {
        None => tasks.push_two(Task::Value(&link.operand), Task::Op(compare)),
        Some((x, more)) => {
            tasks.push_three(
                Task::Op(compare),
                Task::To(Far::KeepingFalse, label),
                Task::Between(label, x, more),
            )?;
            tasks.push_three(
                Task::Value(&link.operand),
                Task::Op(Instr::Dup),
                Task::Op(Instr::Rot3),
            )
        }
    }
}

/// What stands behind an atom.
fn behind<'a>(names: &Names, tasks: &mut Tasks<'a>, items: &'a [Trailer]) -> Result<(), Fault>
    ensures done { IfOk result (λ _. Splits names.now (Behind items.now ∷ tasks.old) tasks.new) }
    ensures small { result ≡ Err Fault.TooLarge → ⊥ }
{
    match split(items) {
        None => Ok(()),
        Some((x, more)) => trailer(names, tasks, x, more),
    }
}

/// The first that stands behind an atom, with the call behind it, if it is a method call, and then the others.
fn trailer<'a>(
    names: &Names,
    tasks: &mut Tasks<'a>,
    x: &'a Trailer,
    more: &'a [Trailer],
) -> Result<(), Fault>
    ensures done { IfOk result (λ _. Splits names.now (Behind (x.now ∷ more.now) ∷ tasks.old) tasks.new) }
    ensures small { result ≡ Err Fault.TooLarge → ⊥ }
{
    match x {
        Trailer::Attribute(m) => attribute(names, tasks, m.as_slice(), more),
        Trailer::Index(i) => tasks.push_three(
            Task::Value(i.get()),
            Task::Op(Instr::LoadItem),
            Task::Behind(more),
        ),
        Trailer::Slice(i, j) => tasks.push_four(
            bound(i),
            bound(j),
            Task::Op(Instr::Slice),
            Task::Behind(more),
        ),
        Trailer::Call(items, named) => {
            let n = to_u32(items.len())?;
            let list = names.key_list(named.as_slice());
            tasks.push_four(
                Task::Values(items.as_slice()),
                Task::Keys(named.as_slice()),
                Task::Op(Instr::Call(n, list)),
                Task::Behind(more),
            )
        }
    }
}

/// An attribute, or with the call right behind it a method call.
fn attribute<'a>(
    names: &Names,
    tasks: &mut Tasks<'a>,
    name: &[u8],
    more: &'a [Trailer],
) -> Result<(), Fault>
    ensures done { IfOk result (λ _. Splits names.now (Behind (Attribute name.now ∷ more.now) ∷ tasks.old) tasks.new) }
    ensures small { result ≡ Err Fault.TooLarge → ⊥ }
{
    let load = Task::Op(Instr::LoadAttr(names.text(name)));
    match split(more) {
        None => tasks.push_two(load, Task::Behind(more)),
        Some((next, others)) => match next {
            Trailer::Call(items, named) => {
                method(
                    names,
                    tasks,
                    name,
                    items.as_slice(),
                    named.as_slice(),
                    others,
                )
            }
            Trailer::Attribute(_) => tasks.push_two(load, Task::Behind(more)),
            Trailer::Index(_) => tasks.push_two(load, Task::Behind(more)),
            Trailer::Slice(_, _) => tasks.push_two(load, Task::Behind(more)),
        },
    }
}

/// A method call, and what stands behind it.
fn method<'a>(
    names: &Names,
    tasks: &mut Tasks<'a>,
    name: &[u8],
    items: &'a [Expr],
    named: &'a [Named],
    more: &'a [Trailer],
) -> Result<(), Fault>
    ensures done { IfOk result (λ _. Splits names.now
        (Behind (Attribute name.now ∷ Call items.now named.now ∷ more.now) ∷ tasks.old) tasks.new) }
    ensures small { result ≡ Err Fault.TooLarge → ⊥ }
{
    let n = to_u32(items.len())?;
    let list = names.key_list(named);
    tasks.push_two(Task::Op(Instr::CallMethod(n, list)), Task::Behind(more))?;
    tasks.push_three(
        Task::Op(Instr::LoadMethod(names.text(name))),
        Task::Values(items),
        Task::Keys(named),
    )
}

/// A bound of a slice, or None.
fn bound<'a>(x: &'a Option<Boxed<Expr>>) -> Task<'a>
    ensures { plain result ≡ bound_task x.now }
{
    match x {
        Some(a) => Task::Value(a.get()),
        None => Task::Op(Instr::Const(Constant::None)),
    }
}
