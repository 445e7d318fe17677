//! What is measured of operators, a method and a text, as words over a bench.
ghost use Rattle.std.specs.Prelude.{IfOk};
ghost use Rattle.obj_bench.specs.Bench.{Good, Ready};

use obj_bench::calling::method;
use obj_bench::calls::size_at;
use obj_bench::looking::shown;
use obj_bench::operators::operated;
use obj_bench::stacking::{Leaf, pick, push_leaf, text, times};
use obj_bench::state::{Bench, Halt, fresh};
use py_data::{Bytes, LENGTH_LIMIT, NoMemory, Stop, Value, View};
use std::alloc::Global;

/// An operation that is measured, over so many values or bytes.
#[derive(Clone, Copy, Debug, Drop)]
pub(crate) enum Operation {
    /// `+` of two lists of so many numbers.
    ListSum,
    /// `+` of two strings of so many bytes.
    TextSum,
    /// `join` of so many strings of one byte, with a string of one byte between them.
    Join,
    /// `repr` of a list of so many numbers.
    Text,
    /// `in` of a part that doesn't stand in so many bytes: half as many of the same byte, and then another one.
    Search,
}

/// So many times a byte.
fn letters(alloc: Global, letter: u8, n: u32) -> Result<Bytes, NoMemory> {
    let mut bytes = Bytes::new(alloc);
    for _ in 0..n {
        bytes.push(letter)?;
    }
    Ok(bytes)
}

/// The count of the values or the bytes of the top value, 1 for True, and 0 for all else.
fn size<V: View<u8> + Drop>(bench: Bench<V>) -> Result<i64, Halt>
    requires { Good V.sense bench.roots.0 bench.stack bench.view }
{
    let Bench {
        mut view,
        roots,
        stack,
        ..
    } = bench;
    let n = stack.len();
    if n < 1 {
        return Err(Halt::Bad);
    }
    if stack.at(n - 1) == Value::Bool(true) {
        return Ok(1);
    }
    match size_at(&mut view, roots, &stack, n - 1)? {
        Some(size) if size <= LENGTH_LIMIT => Ok(size as i64),
        _ => Ok(0),
    }
}

/// A list of so many numbers goes onto the stack.
fn numbers<V: View<u8> + Drop>(bench: Bench<V>, count: u32) -> Result<Bench<V>, Halt>
    requires { Good V.sense bench.roots.0 bench.stack bench.view }
    ensures { IfOk result (λ b. Good V.sense b.roots.0 b.stack b.view) }
{
    let bench = push_leaf(bench, Leaf::Int(7))?;
    times(bench, count as usize)
}

/// `x + x` of the top value.
fn doubled<V: View<u8> + Drop>(bench: Bench<V>) -> Result<i64, Halt>
    requires { Good V.sense bench.roots.0 bench.stack bench.view }
{
    let bench = pick(bench, 0)?;
    let bench = operated(bench, b"+")?;
    size(bench)
}

/// `join`, as `Operation::Join` says.
fn joined<V: View<u8> + Drop>(bench: Bench<V>, count: u32) -> Result<i64, Halt>
    requires { Good V.sense bench.roots.0 bench.stack bench.view }
{
    let bytes = letters(bench.alloc, b'a', 1)?;
    let bench = text(bench, bytes)?;
    let bench = pick(bench, 0)?;
    let bench = times(bench, count as usize)?;
    let bench = method(bench, b"join", 1)?;
    size(bench)
}

/// `in`, as `Operation::Search` says.
fn searched<V: View<u8> + Drop>(bench: Bench<V>, count: u32) -> Result<i64, Halt>
    requires { Good V.sense bench.roots.0 bench.stack bench.view }
{
    let mut part = letters(bench.alloc, b'a', count / 2)?;
    part.push(b'b')?;
    let all = letters(bench.alloc, b'a', count)?;
    let bench = text(bench, part)?;
    let bench = text(bench, all)?;
    let bench = operated(bench, b"in")?;
    size(bench)
}

/// Does an operation over so many values or bytes.
fn done<V: View<u8> + Drop>(bench: Bench<V>, operation: Operation, count: u32) -> Result<i64, Halt>
    requires { Good V.sense bench.roots.0 bench.stack bench.view }
{
    match operation {
        Operation::ListSum => {
            let bench = numbers(bench, count)?;
            doubled(bench)
        }
        Operation::TextSum => {
            let bytes = letters(bench.alloc, b'a', count)?;
            let bench = text(bench, bytes)?;
            doubled(bench)
        }
        Operation::Join => joined(bench, count),
        Operation::Text => {
            let bench = numbers(bench, count)?;
            let text = shown(bench)?;
            Ok(text.len() as i64)
        }
        Operation::Search => searched(bench, count),
    }
}

/// What an operation over so many values or bytes comes to, and 0 where it raises an exception.
pub(crate) fn done_over<V: View<u8> + Drop>(
    alloc: Global,
    view: V,
    operation: Operation,
    count: u32,
) -> Result<i64, Stop>
    requires { Ready V.sense view }
{
    let bench = fresh(alloc, view)?;
    match done(bench, operation, count) {
        Ok(sum) => Ok(sum),
        Err(Halt::Stopped(stop)) => Err(stop),
        Err(_) => Ok(0),
    }
}
