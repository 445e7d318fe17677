//! The words of a program that work on lists, tuples, dictionaries and iterators.
ghost use Rattle.std.specs.Prelude.{IfOk};
ghost use Rattle.obj_bench.specs.Bench.{Good};

use crate::calls::Putting;
use crate::kinds::{dict_at, iter_at, list_at, sequence_at};
use crate::state::{Bench, Halt, answered, done, found, push, raised};
use crate::{calls, makers};
use obj_dict::Part;
use py_data::{Got, Kind, Value, Values, View};

/// The number at a place of the stack.
fn number(stack: &Values, place: usize) -> Option<i64> {
    match stack.get(place) {
        Some(Value::Int(i)) => Some(*i),
        _ => None,
    }
}

/// The bound at a place of the stack: a number, or None where it is missing.
fn bound(stack: &Values, place: usize) -> Option<Option<i64>> {
    match stack.get(place) {
        Some(Value::Int(i)) => Some(Some(*i)),
        Some(Value::None) => Some(None),
        _ => None,
    }
}

/// `a i item`.
pub fn item<V: View<u8> + Drop>(bench: Bench<V>) -> Result<Bench<V>, Halt>
    requires { Good V.sense bench.roots.0 bench.stack bench.view }
    ensures { IfOk result (λ b. Good V.sense b.roots.0 b.stack b.view) }
{
    let Bench {
        alloc,
        mut view,
        roots,
        stack,
    } = bench;
    let n = stack.len();
    if n < 2 {
        return Err(Halt::Bad);
    }
    let place = sequence_at(&mut view, roots, &stack, n - 2)?;
    match (place, number(&stack, n - 1)) {
        (Some(a), Some(i)) => {
            let got = calls::item(alloc, &mut view, roots, &stack, a, i)?;
            answered(alloc, view, roots, stack, n - 2, got)
        }
        _ => Err(Halt::Bad),
    }
}

/// `a i x setitem` and `a i x insert`.
pub fn put<V: View<u8> + Drop>(bench: Bench<V>, how: Putting) -> Result<Bench<V>, Halt>
    requires { Good V.sense bench.roots.0 bench.stack bench.view }
    ensures { IfOk result (λ b. Good V.sense b.roots.0 b.stack b.view) }
{
    let Bench {
        alloc,
        mut view,
        roots,
        stack,
    } = bench;
    let n = stack.len();
    if n < 3 {
        return Err(Halt::Bad);
    }
    let place = list_at(&mut view, roots, &stack, n - 3)?;
    match (place, number(&stack, n - 2)) {
        (Some(a), Some(i)) => {
            let got = calls::put(alloc, &mut view, roots, &stack, how, a, i, n - 1)?;
            done(alloc, view, roots, stack, n - 3, got)
        }
        _ => Err(Halt::Bad),
    }
}

/// `a i delitem`.
pub fn del_item<V: View<u8> + Drop>(bench: Bench<V>) -> Result<Bench<V>, Halt>
    requires { Good V.sense bench.roots.0 bench.stack bench.view }
    ensures { IfOk result (λ b. Good V.sense b.roots.0 b.stack b.view) }
{
    let Bench {
        alloc,
        mut view,
        roots,
        stack,
    } = bench;
    let n = stack.len();
    if n < 2 {
        return Err(Halt::Bad);
    }
    let place = list_at(&mut view, roots, &stack, n - 2)?;
    match (place, number(&stack, n - 1)) {
        (Some(a), Some(i)) => {
            let got = calls::del_item(alloc, &mut view, roots, &stack, a, i)?;
            done(alloc, view, roots, stack, n - 2, got)
        }
        _ => Err(Halt::Bad),
    }
}

/// `a i pop`.
pub fn pop<V: View<u8> + Drop>(bench: Bench<V>) -> Result<Bench<V>, Halt>
    requires { Good V.sense bench.roots.0 bench.stack bench.view }
    ensures { IfOk result (λ b. Good V.sense b.roots.0 b.stack b.view) }
{
    let Bench {
        alloc,
        mut view,
        roots,
        stack,
    } = bench;
    let n = stack.len();
    if n < 2 {
        return Err(Halt::Bad);
    }
    let place = list_at(&mut view, roots, &stack, n - 2)?;
    match (place, number(&stack, n - 1)) {
        (Some(a), Some(i)) => {
            let got = calls::pop(alloc, &mut view, roots, &stack, a, i)?;
            answered(alloc, view, roots, stack, n - 2, got)
        }
        _ => Err(Halt::Bad),
    }
}

/// `a x append`.
pub fn append<V: View<u8> + Drop>(bench: Bench<V>) -> Result<Bench<V>, Halt>
    requires { Good V.sense bench.roots.0 bench.stack bench.view }
    ensures { IfOk result (λ b. Good V.sense b.roots.0 b.stack b.view) }
{
    let Bench {
        alloc,
        mut view,
        roots,
        stack,
    } = bench;
    let n = stack.len();
    if n < 2 {
        return Err(Halt::Bad);
    }
    match list_at(&mut view, roots, &stack, n - 2)? {
        Some(a) => {
            let got = calls::put(
                alloc,
                &mut view,
                roots,
                &stack,
                Putting::Before,
                a,
                i64::MAX,
                n - 1,
            )?;
            done(alloc, view, roots, stack, n - 2, got)
        }
        None => Err(Halt::Bad),
    }
}

/// `a reverse`.
pub fn reverse<V: View<u8> + Drop>(bench: Bench<V>) -> Result<Bench<V>, Halt>
    requires { Good V.sense bench.roots.0 bench.stack bench.view }
    ensures { IfOk result (λ b. Good V.sense b.roots.0 b.stack b.view) }
{
    let Bench {
        alloc,
        mut view,
        roots,
        mut stack,
    } = bench;
    let n = stack.len();
    if n < 1 {
        return Err(Halt::Bad);
    }
    match list_at(&mut view, roots, &stack, n - 1)? {
        Some(a) => {
            calls::reverse(alloc, &mut view, roots, &stack, a)?;
            stack.truncate(n - 1);
            Ok(Bench {
                alloc,
                view,
                roots,
                stack,
            })
        }
        None => Err(Halt::Bad),
    }
}

/// `a from to slice`.
pub fn slice<V: View<u8> + Drop>(bench: Bench<V>) -> Result<Bench<V>, Halt>
    requires { Good V.sense bench.roots.0 bench.stack bench.view }
    ensures { IfOk result (λ b. Good V.sense b.roots.0 b.stack b.view) }
{
    let Bench {
        alloc,
        mut view,
        roots,
        stack,
    } = bench;
    let n = stack.len();
    if n < 3 {
        return Err(Halt::Bad);
    }
    let place = sequence_at(&mut view, roots, &stack, n - 3)?;
    match (place, bound(&stack, n - 2), bound(&stack, n - 1)) {
        (Some(a), Some(from), Some(to)) => {
            let got = calls::slice(alloc, &mut view, roots, &stack, a, from, to)?;
            answered(alloc, view, roots, stack, n - 3, got)
        }
        _ => Err(Halt::Bad),
    }
}

/// `x iter`.
pub fn make_iter<V: View<u8> + Drop>(bench: Bench<V>) -> Result<Bench<V>, Halt>
    requires { Good V.sense bench.roots.0 bench.stack bench.view }
    ensures { IfOk result (λ b. Good V.sense b.roots.0 b.stack b.view) }
{
    let Bench {
        alloc,
        mut view,
        roots,
        stack,
    } = bench;
    let n = stack.len();
    if n < 1 {
        return Err(Halt::Bad);
    }
    let got = calls::make_iter(alloc, &mut view, roots, &stack, n - 1)?;
    answered(alloc, view, roots, stack, n - 1, got)
}

/// `it next`.
pub fn next<V: View<u8> + Drop>(bench: Bench<V>) -> Result<Bench<V>, Halt>
    requires { Good V.sense bench.roots.0 bench.stack bench.view }
    ensures { IfOk result (λ b. Good V.sense b.roots.0 b.stack b.view) }
{
    let Bench {
        alloc,
        mut view,
        roots,
        stack,
    } = bench;
    let n = stack.len();
    if n < 1 {
        return Err(Halt::Bad);
    }
    match iter_at(&mut view, roots, &stack, n - 1)? {
        Some(it) => {
            let got = calls::next(alloc, &mut view, roots, &stack, it)?;
            found(alloc, view, roots, stack, n - 1, got, b"end")
        }
        None => Err(Halt::Bad),
    }
}

/// `x gather`.
pub fn gather<V: View<u8> + Drop>(bench: Bench<V>) -> Result<Bench<V>, Halt>
    requires { Good V.sense bench.roots.0 bench.stack bench.view }
    ensures { IfOk result (λ b. Good V.sense b.roots.0 b.stack b.view) }
{
    let Bench {
        alloc,
        mut view,
        roots,
        mut stack,
    } = bench;
    let n = stack.len();
    if n < 1 {
        return Err(Halt::Bad);
    }
    match calls::gather(alloc, &mut view, roots, &stack, n - 1)? {
        Got::Is(items) => {
            let list = makers::sequence(alloc, &mut view, roots, &stack, Kind::List, items)?;
            stack.truncate(n - 1);
            push(alloc, view, roots, stack, list)
        }
        Got::Raise(e) => Err(raised(alloc, view, roots, stack, e)),
    }
}

/// `d k get`.
pub fn get<V: View<u8> + Drop>(bench: Bench<V>) -> Result<Bench<V>, Halt>
    requires { Good V.sense bench.roots.0 bench.stack bench.view }
    ensures { IfOk result (λ b. Good V.sense b.roots.0 b.stack b.view) }
{
    let Bench {
        alloc,
        mut view,
        roots,
        stack,
    } = bench;
    let n = stack.len();
    if n < 2 {
        return Err(Halt::Bad);
    }
    match dict_at(&mut view, roots, &stack, n - 2)? {
        Some(d) => {
            let got = calls::get(alloc, &mut view, roots, &stack, d, n - 1)?;
            found(alloc, view, roots, stack, n - 2, got, b"none")
        }
        None => Err(Halt::Bad),
    }
}

/// `d k x set`.
pub fn set<V: View<u8> + Drop>(bench: Bench<V>) -> Result<Bench<V>, Halt>
    requires { Good V.sense bench.roots.0 bench.stack bench.view }
    ensures { IfOk result (λ b. Good V.sense b.roots.0 b.stack b.view) }
{
    let Bench {
        alloc,
        mut view,
        roots,
        stack,
    } = bench;
    let n = stack.len();
    if n < 3 {
        return Err(Halt::Bad);
    }
    match dict_at(&mut view, roots, &stack, n - 3)? {
        Some(d) => {
            let got = calls::set(alloc, &mut view, roots, &stack, d, n - 2, n - 1)?;
            done(alloc, view, roots, stack, n - 3, got)
        }
        None => Err(Halt::Bad),
    }
}

/// `d k del`.
pub fn del<V: View<u8> + Drop>(bench: Bench<V>) -> Result<Bench<V>, Halt>
    requires { Good V.sense bench.roots.0 bench.stack bench.view }
    ensures { IfOk result (λ b. Good V.sense b.roots.0 b.stack b.view) }
{
    let Bench {
        alloc,
        mut view,
        roots,
        stack,
    } = bench;
    let n = stack.len();
    if n < 2 {
        return Err(Halt::Bad);
    }
    match dict_at(&mut view, roots, &stack, n - 2)? {
        Some(d) => {
            let got = calls::del(alloc, &mut view, roots, &stack, d, n - 1)?;
            answered(alloc, view, roots, stack, n - 2, got)
        }
        None => Err(Halt::Bad),
    }
}

/// `d keys`, `d values` and `d items`.
pub fn list_of<V: View<u8> + Drop>(bench: Bench<V>, part: Part) -> Result<Bench<V>, Halt>
    requires { Good V.sense bench.roots.0 bench.stack bench.view }
    ensures { IfOk result (λ b. Good V.sense b.roots.0 b.stack b.view) }
{
    let Bench {
        alloc,
        mut view,
        roots,
        stack,
    } = bench;
    let n = stack.len();
    if n < 1 {
        return Err(Halt::Bad);
    }
    match dict_at(&mut view, roots, &stack, n - 1)? {
        Some(d) => {
            let got = calls::list_of(alloc, &mut view, roots, &stack, d, part)?;
            answered(alloc, view, roots, stack, n - 1, got)
        }
        None => Err(Halt::Bad),
    }
}
