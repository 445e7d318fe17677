//! The words of a program that make values and move them about the stack.
ghost use Rattle.obj_bench.specs.Bench.{Good};
ghost use Rattle.std.specs.Prelude.{◌≡◌, length, IfOk};
ghost use Rattle.py_data.specs.Answers.{IsSequenceKind};
ghost use Rattle.py_data.specs.Closed.{IsItem};
ghost use Rattle.py_data.specs.Every.{Every};
ghost use Rattle.py_data.specs.Heap.{Heap};

use crate::kinds::dict_at;
use crate::state::{Bench, Halt, done, push};
use crate::{calls, makers};
use obj_seq::range_length;
use py_data::{Bytes, Kind, LENGTH_LIMIT, NoMemory, Value, Values, View, builtin};
use std::alloc::Global;

/// A value that refers to no record.
pub enum Leaf {
    None,
    Bool(bool),
    Int(i64),
    Builtin(u8),
}

/// The value.
fn leaf_value(leaf: Leaf) -> Value
    ensures { (h : Heap) → IsItem h result }
{
    match leaf {
        Leaf::None => Value::None,
        Leaf::Bool(b) => Value::Bool(b),
        Leaf::Int(n) => Value::Int(n),
        Leaf::Builtin(b) if b < builtin::COUNT => Value::Builtin(b),
        Leaf::Builtin(_) => Value::None,
    }
}

/// A value that refers to no record goes onto the stack.
pub fn push_leaf<V: View<u8> + Drop>(bench: Bench<V>, leaf: Leaf) -> Result<Bench<V>, Halt>
    requires { Good V.sense bench.roots.0 bench.stack bench.view }
    ensures { IfOk result (λ b. Good V.sense b.roots.0 b.stack b.view) }
{
    let Bench {
        alloc,
        view,
        roots,
        stack,
    } = bench;
    push(alloc, view, roots, stack, leaf_value(leaf))
}

/// A new string.
pub fn text<V: View<u8> + Drop>(bench: Bench<V>, bytes: Bytes) -> Result<Bench<V>, Halt>
    requires { Good V.sense bench.roots.0 bench.stack bench.view }
    ensures { IfOk result (λ b. Good V.sense b.roots.0 b.stack b.view) }
{
    let Bench {
        alloc,
        mut view,
        roots,
        stack,
    } = bench;
    if bytes.len() > LENGTH_LIMIT {
        return Err(Halt::Bad);
    }
    let x = makers::text(alloc, &mut view, roots, &stack, bytes)?;
    push(alloc, view, roots, stack, x)
}

/// `pickN`: a copy of the value `n` below the top.
pub fn pick<V: View<u8> + Drop>(bench: Bench<V>, n: usize) -> Result<Bench<V>, Halt>
    requires { Good V.sense bench.roots.0 bench.stack bench.view }
    ensures { IfOk result (λ b. Good V.sense b.roots.0 b.stack b.view) }
{
    let Bench {
        alloc,
        view,
        roots,
        stack,
    } = bench;
    let count = stack.len();
    if n >= count {
        return Err(Halt::Bad);
    }
    let x = stack.at(count - 1 - n);
    push(alloc, view, roots, stack, x)
}

/// `swap`.
pub fn swap<V: View<u8> + Drop>(bench: Bench<V>) -> Result<Bench<V>, Halt>
    requires { Good V.sense bench.roots.0 bench.stack bench.view }
    ensures { IfOk result (λ b. Good V.sense b.roots.0 b.stack b.view) }
{
    let Bench {
        alloc,
        view,
        roots,
        mut stack,
    } = bench;
    let n = stack.len();
    if n < 2 {
        return Err(Halt::Bad);
    }
    let x = stack.at(n - 2);
    stack.remove(n - 2);
    push(alloc, view, roots, stack, x)
}

/// The values above the first `n` go.
pub fn cut<V: View<u8> + Drop>(bench: Bench<V>, n: usize) -> Result<Bench<V>, Halt>
    requires { Good V.sense bench.roots.0 bench.stack bench.view }
    ensures { IfOk result (λ b. Good V.sense b.roots.0 b.stack b.view) }
{
    let Bench {
        alloc,
        view,
        roots,
        mut stack,
    } = bench;
    stack.truncate(n);
    Ok(Bench {
        alloc,
        view,
        roots,
        stack,
    })
}

/// `drop`.
pub fn drop_top<V: View<u8> + Drop>(bench: Bench<V>) -> Result<Bench<V>, Halt>
    requires { Good V.sense bench.roots.0 bench.stack bench.view }
    ensures { IfOk result (λ b. Good V.sense b.roots.0 b.stack b.view) }
{
    let n = bench.stack.len();
    if n < 1 {
        return Err(Halt::Bad);
    }
    cut(bench, n - 1)
}

/// The top value takes the place of those from place `n` on.
pub fn collapse<V: View<u8> + Drop>(bench: Bench<V>, n: usize) -> Result<Bench<V>, Halt>
    requires { Good V.sense bench.roots.0 bench.stack bench.view }
    ensures { IfOk result (λ b. Good V.sense b.roots.0 b.stack b.view) }
{
    let Bench {
        alloc,
        view,
        roots,
        mut stack,
    } = bench;
    let count = stack.len();
    if n >= count {
        return Err(Halt::Bad);
    }
    let x = stack.at(count - 1);
    stack.truncate(n);
    push(alloc, view, roots, stack, x)
}

/// `[n` and `(n`: a list or tuple of the `n` top values.
pub fn build<V: View<u8> + Drop>(bench: Bench<V>, kind: Kind, n: usize) -> Result<Bench<V>, Halt>
    requires kind { IsSequenceKind kind }
    requires good { Good V.sense bench.roots.0 bench.stack bench.view }
    ensures { IfOk result (λ b. Good V.sense b.roots.0 b.stack b.view) }
{
    let Bench {
        alloc,
        mut view,
        roots,
        mut stack,
    } = bench;
    let count = stack.len();
    if n > count || n > LENGTH_LIMIT {
        return Err(Halt::Bad);
    }
    let values = Values::from_slice(alloc, &stack.as_slice()[count - n..])?;
    let x = makers::sequence(alloc, &mut view, roots, &stack, kind, values)?;
    stack.truncate(count - n);
    push(alloc, view, roots, stack, x)
}

/// `rN` and `tN`: the top value in `n` lists or tuples round one another.
pub fn nest<V: View<u8> + Drop>(bench: Bench<V>, kind: Kind, n: usize) -> Result<Bench<V>, Halt>
    requires kind { IsSequenceKind kind }
    requires good { Good V.sense bench.roots.0 bench.stack bench.view }
    ensures { IfOk result (λ b. Good V.sense b.roots.0 b.stack b.view) }
{
    let mut bench = bench;
    for _ in 0..n {
        bench = build(bench, kind, 1)?;
    }
    Ok(bench)
}

/// So many times a value.
fn copies(alloc: Global, x: Value, n: usize) -> Result<Values, NoMemory>
    ensures count { IfOk result (λ vs. length vs ≡ n) }
    ensures items { IfOk result (λ vs. (h : Heap) → IsItem h x → Every (IsItem h) vs) }
{
    let mut values = Values::new(alloc);
    'turns: for _i in 0..n {
        values.push(x)?;
    }
    Ok(values)
}

/// `xN`: a list of `n` times the top value.
pub fn times<V: View<u8> + Drop>(bench: Bench<V>, n: usize) -> Result<Bench<V>, Halt>
    requires { Good V.sense bench.roots.0 bench.stack bench.view }
    ensures { IfOk result (λ b. Good V.sense b.roots.0 b.stack b.view) }
{
    let Bench {
        alloc,
        mut view,
        roots,
        mut stack,
    } = bench;
    let count = stack.len();
    if count < 1 || n > LENGTH_LIMIT {
        return Err(Halt::Bad);
    }
    let item = stack.at(count - 1);
    let values = copies(alloc, item, n)?;
    let x = makers::sequence(alloc, &mut view, roots, &stack, Kind::List, values)?;
    stack.truncate(count - 1);
    push(alloc, view, roots, stack, x)
}

/// Sets a pair of a value of the stack and the one above it in the dictionary at the top.
fn pair_in<V: View<u8> + Drop>(bench: Bench<V>, place: usize) -> Result<Bench<V>, Halt>
    requires { Good V.sense bench.roots.0 bench.stack bench.view }
    ensures { IfOk result (λ b. Good V.sense b.roots.0 b.stack b.view) }
{
    let Bench {
        alloc,
        mut view,
        roots,
        stack,
    } = bench;
    let n = stack.len();
    if n < 3 || place > n - 3 {
        return Err(Halt::Bad);
    }
    match dict_at(&mut view, roots, &stack, n - 1)? {
        Some(d) => {
            let got = calls::set(alloc, &mut view, roots, &stack, d, place, place + 1)?;
            done(alloc, view, roots, stack, n, got)
        }
        None => Err(Halt::Bad),
    }
}

/// A new dictionary without pairs.
fn new_dict<V: View<u8> + Drop>(bench: Bench<V>) -> Result<Bench<V>, Halt>
    requires { Good V.sense bench.roots.0 bench.stack bench.view }
    ensures { IfOk result (λ b. Good V.sense b.roots.0 b.stack b.view) }
{
    let Bench {
        alloc,
        mut view,
        roots,
        stack,
    } = bench;
    let x = makers::dict(alloc, &mut view, roots, &stack)?;
    push(alloc, view, roots, stack, x)
}

/// `{n`: a dictionary of the `2 n` top values.
pub fn build_dict<V: View<u8> + Drop>(bench: Bench<V>, n: usize) -> Result<Bench<V>, Halt>
    requires { Good V.sense bench.roots.0 bench.stack bench.view }
    ensures { IfOk result (λ b. Good V.sense b.roots.0 b.stack b.view) }
{
    let count = bench.stack.len();
    if n > count / 2 {
        return Err(Halt::Bad);
    }
    let first = count - 2 * n;
    let mut bench = new_dict(bench)?;
    for i in 0..n {
        bench = pair_in(bench, first + 2 * i)?;
    }
    collapse(bench, first)
}

/// `start stop step range`.
pub fn range<V: View<u8> + Drop>(bench: Bench<V>) -> Result<Bench<V>, Halt>
    requires { Good V.sense bench.roots.0 bench.stack bench.view }
    ensures { IfOk result (λ b. Good V.sense b.roots.0 b.stack b.view) }
{
    let Bench {
        alloc,
        mut view,
        roots,
        mut stack,
    } = bench;
    let n = stack.len();
    if n < 3 {
        return Err(Halt::Bad);
    }
    match (stack.at(n - 3), stack.at(n - 2), stack.at(n - 1)) {
        (Value::Int(start), Value::Int(stop), Value::Int(step)) => {
            if step == 0 || range_length(start, stop, step) > i64::MAX as u64 {
                return Err(Halt::Bad);
            }
            let x = makers::range(alloc, &mut view, roots, &stack, start, stop, step)?;
            stack.truncate(n - 3);
            push(alloc, view, roots, stack, x)
        }
        _ => Err(Halt::Bad),
    }
}

/// `x y is`: the same value by type and value, and the same record.
pub fn is<V: View<u8> + Drop>(bench: Bench<V>) -> Result<Bench<V>, Halt>
    requires { Good V.sense bench.roots.0 bench.stack bench.view }
    ensures { IfOk result (λ b. Good V.sense b.roots.0 b.stack b.view) }
{
    let n = bench.stack.len();
    if n < 2 {
        return Err(Halt::Bad);
    }
    let same = bench.stack.at(n - 2) == bench.stack.at(n - 1);
    let bench = cut(bench, n - 2)?;
    push_leaf(bench, Leaf::Bool(same))
}
