//! The bench: a view and a stack of values, how one begins, and how an operation's answer goes onto the stack.
ghost use Rattle.std.specs.Prelude.{IfOk, ◌≡◌, ℕ, []};
ghost use Rattle.py_data.specs.Answers.{IsAnswer, IsDone, IsGot, IfItem, IsFault};
ghost use Rattle.py_data.specs.Closed.{IsItem};
ghost use Rattle.py_data.specs.Heap.{Heap};
ghost use Rattle.obj_bench.specs.Bench.{Good, GoodWith, Ready};

use crate::nested;
use obj_class::make_roots;
use py_base::class_name;
use py_data::{Addr, Bytes, Fault, Got, NoMemory, Stop, Value, Values, View, With};
use std::alloc::Global;

/// A view whose heap is in order, the address of its list of roots, and a stack of values that stand in it.
#[derive(Drop)]
pub struct Bench<V: View<u8> + Drop> {
    pub alloc: Global,
    pub view: V,
    pub roots: Addr,
    pub stack: Values,
}

/// Makes the list of roots.
fn rooted<S, V: View<S>>(alloc: Global, v: &mut V) -> Result<Addr, Stop>
    requires { Ready V.sense v.old }
    ensures { IfOk result (λ a. Good V.sense a.0 [] v.new) }
{
    let roots = make_roots(alloc, v)?;
    Ok(roots)
}

/// A bench without values, whose heap has the list of roots.
pub fn fresh<V: View<u8> + Drop>(alloc: Global, view: V) -> Result<Bench<V>, Stop>
    requires { Ready V.sense view }
    ensures { IfOk result (λ b. Good V.sense b.roots.0 b.stack b.view) }
{
    let mut view = view;
    let roots = rooted(alloc, &mut view)?;
    Ok(Bench {
        alloc,
        view,
        roots,
        stack: Values::new(alloc),
    })
}

/// Why a program goes on no more.
#[derive(Debug, Drop)]
pub enum Halt {
    /// The view gave this Stop, or there was no memory.
    Stopped(Stop),
    /// What the program comes to.
    Told(Bytes),
    /// The word isn't for what stands on the stack, or isn't a word.
    Bad,
}

impl From<Stop> for Halt {
    fn from(stop: Stop) -> Halt {
        Halt::Stopped(stop)
    }
}

impl From<NoMemory> for Halt {
    fn from(_: NoMemory) -> Halt {
        Halt::Stopped(Stop::OutOfMemory)
    }
}

/// The program comes to this text.
pub fn told(alloc: Global, text: &[u8]) -> Halt {
    match Bytes::from_slice(alloc, text) {
        Ok(text) => Halt::Told(text),
        Err(_) => Halt::Stopped(Stop::OutOfMemory),
    }
}

/// A value goes onto the stack.
pub fn push<V: View<u8> + Drop>(
    alloc: Global,
    view: V,
    roots: Addr,
    mut stack: Values,
    x: Value,
) -> Result<Bench<V>, Halt>
    requires { GoodWith V.sense roots.0 (λ x h. IsItem h x) stack x view }
    ensures { IfOk result (λ b. Good V.sense b.roots.0 b.stack b.view) }
{
    stack.push(x)?;
    Ok(Bench {
        alloc,
        view,
        roots,
        stack,
    })
}

/// The name of a class, a colon and a text.
fn class_and(alloc: Global, exc: u8, text: &[u8]) -> Result<Bytes, NoMemory> {
    let mut out = Bytes::new(alloc);
    match class_name(exc) {
        Some(name) => out.extend_from_slice(name)?,
        None => out.extend_from_slice(b"?")?,
    }
    if !text.is_empty() {
        out.extend_from_slice(b": ")?;
        out.extend_from_slice(text)?;
    }
    Ok(out)
}

/// The text of the value that an exception holds.
fn held_text<V: View<u8> + Drop>(bench: Bench<V>) -> Result<Bytes, Halt>
    requires { Good V.sense bench.roots.0 bench.stack bench.view }
{
    let Bench {
        alloc,
        mut view,
        roots,
        stack,
    } = bench;
    let n = stack.len();
    if n == 0 {
        return Err(Halt::Bad);
    }
    match nested::text(alloc, &mut view, roots, &stack, n - 1, true)? {
        Got::Is(text) => Ok(text),
        Got::Raise(_) => Err(Halt::Bad),
    }
}

/// What an exception says.
fn fault_text<V: View<u8> + Drop>(
    alloc: Global,
    view: V,
    roots: Addr,
    stack: Values,
    e: Fault,
) -> Result<Bytes, Halt>
    requires { GoodWith V.sense roots.0 (λ e h. IsFault h e) stack e view }
{
    let Fault { exc, with } = e;
    match with {
        With::Nothing => Ok(class_and(alloc, exc, b"")?),
        With::Text(text) => Ok(class_and(alloc, exc, text.as_slice())?),
        With::Held(x) => {
            let bench = push(alloc, view, roots, stack, x)?;
            let text = held_text(bench)?;
            Ok(class_and(alloc, exc, text.as_slice())?)
        }
    }
}

/// The program comes to an exception that holds no value.
pub fn told_fault(alloc: Global, e: Fault) -> Halt {
    let Fault { exc, with } = e;
    let text = match with {
        With::Nothing => class_and(alloc, exc, b""),
        With::Text(text) => class_and(alloc, exc, text.as_slice()),
        With::Held(_) => return Halt::Bad,
    };
    match text {
        Ok(text) => Halt::Told(text),
        Err(_) => Halt::Stopped(Stop::OutOfMemory),
    }
}

/// The program comes to an exception.
pub fn raised<V: View<u8> + Drop>(
    alloc: Global,
    view: V,
    roots: Addr,
    stack: Values,
    e: Fault,
) -> Halt
    requires { GoodWith V.sense roots.0 (λ e h. IsFault h e) stack e view }
{
    match fault_text(alloc, view, roots, stack, e) {
        Ok(text) => Halt::Told(text),
        Err(halt) => halt,
    }
}

/// The answer takes the place of the operands, from place `n` on.
pub fn answered<V: View<u8> + Drop>(
    alloc: Global,
    view: V,
    roots: Addr,
    mut stack: Values,
    n: usize,
    got: Got<Value>,
) -> Result<Bench<V>, Halt>
    requires { GoodWith V.sense roots.0 IsAnswer stack got view }
    ensures { IfOk result (λ b. Good V.sense b.roots.0 b.stack b.view) }
{
    match got {
        Got::Is(x) => {
            stack.truncate(n);
            push(alloc, view, roots, stack, x)
        }
        Got::Raise(e) => Err(raised(alloc, view, roots, stack, e)),
    }
}

/// The operands go, from place `n` on.
pub fn done<V: View<u8> + Drop>(
    alloc: Global,
    view: V,
    roots: Addr,
    mut stack: Values,
    n: usize,
    got: Got<()>,
) -> Result<Bench<V>, Halt>
    requires { GoodWith V.sense roots.0 IsDone stack got view }
    ensures { IfOk result (λ b. Good V.sense b.roots.0 b.stack b.view) }
{
    match got {
        Got::Is(()) => {
            stack.truncate(n);
            Ok(Bench {
                alloc,
                view,
                roots,
                stack,
            })
        }
        Got::Raise(e) => Err(raised(alloc, view, roots, stack, e)),
    }
}

/// The answer takes the place of the operands; where there is none, the program comes to this text.
pub fn found<V: View<u8> + Drop>(
    alloc: Global,
    view: V,
    roots: Addr,
    mut stack: Values,
    n: usize,
    got: Got<Option<Value>>,
    none: &[u8],
) -> Result<Bench<V>, Halt>
    requires { GoodWith V.sense roots.0 (IsGot IfItem) stack got view }
    ensures { IfOk result (λ b. Good V.sense b.roots.0 b.stack b.view) }
{
    match got {
        Got::Is(Some(x)) => {
            stack.truncate(n);
            push(alloc, view, roots, stack, x)
        }
        Got::Is(None) => Err(told(alloc, none)),
        Got::Raise(e) => Err(raised(alloc, view, roots, stack, e)),
    }
}
