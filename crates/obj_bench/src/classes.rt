//! Classes, attributes and exceptions over a view whose heap is in order, and the words of a program for them.
ghost use Rattle.std.specs.Prelude.{◌<◌, length, IfOk};
ghost use Rattle.py_base.specs.Numbers.{class_count};
ghost use Rattle.py_data.specs.Answers.{IsAnswer, IsDone, IsFault};
ghost use Rattle.py_data.specs.Closed.{IsItem};
ghost use Rattle.obj_str.specs.HoldsLaws.{IsStrAt};
ghost use Rattle.obj_bench.specs.Bench.{Good, GoodWith, IsClassAt};

use crate::kinds::{base_at, class_at, dict_at, str_at, tuple_at};
use crate::stacking::{Leaf, build_dict, cut, push_leaf};
use crate::state::{Bench, Halt, answered, done, push};
use crate::{calls, makers};
use py_base::class_number;
use py_data::exception::{COUNT, OBJECT};
use py_data::{Addr, Fault, Got, Stop, Value, Values, View, With, look};
use std::alloc::Global;

// ---- calls

/// The class of a number, of the list of roots.
fn call_root<S, V: View<S>>(v: &mut V, roots: Addr, stack: &Values, n: u8) -> Result<Value, Stop>
    requires good { Good V.sense roots.0 stack.now v.old }
    requires number { n < class_count }
    ensures { IfOk result (λ x. GoodWith V.sense roots.0 (λ x h. IsItem h x) stack.now x v.new) }
{
    let x = look(v, roots, 1 + n as usize)?;
    Ok(x)
}

/// An attribute of a value of the stack.
fn call_attr<S, V: View<S>>(
    alloc: Global,
    v: &mut V,
    roots: Addr,
    stack: &Values,
    place: usize,
    name: Addr,
) -> Result<Got<Value>, Stop>
    requires good { Good V.sense roots.0 stack.now v.old }
    requires place { place < length stack.now }
    requires name { IsStrAt (V.sense.heap v.old) name.0 }
    ensures { IfOk result (λ g. GoodWith V.sense roots.0 IsAnswer stack.now g v.new) }
{
    let got = obj_class::attr(alloc, v, roots, stack.at(place), name)?;
    Ok(got)
}

/// Sets an attribute of a value of the stack to another one.
fn call_set_attr<S, V: View<S>>(
    alloc: Global,
    v: &mut V,
    roots: Addr,
    stack: &Values,
    place: usize,
    name: Addr,
    other: usize,
) -> Result<Got<()>, Stop>
    requires good { Good V.sense roots.0 stack.now v.old }
    requires place { place < length stack.now }
    requires other { other < length stack.now }
    requires name { IsStrAt (V.sense.heap v.old) name.0 }
    ensures { IfOk result (λ g. GoodWith V.sense roots.0 IsDone stack.now g v.new) }
{
    let got = obj_class::set_attr(alloc, v, stack.at(place), name, stack.at(other))?;
    Ok(got)
}

/// Deletes an attribute of a value of the stack.
fn call_del_attr<S, V: View<S>>(
    alloc: Global,
    v: &mut V,
    roots: Addr,
    stack: &Values,
    place: usize,
    name: Addr,
) -> Result<Got<()>, Stop>
    requires good { Good V.sense roots.0 stack.now v.old }
    requires place { place < length stack.now }
    requires name { IsStrAt (V.sense.heap v.old) name.0 }
    ensures { IfOk result (λ g. GoodWith V.sense roots.0 IsDone stack.now g v.new) }
{
    let got = obj_class::del_attr(alloc, v, stack.at(place), name)?;
    Ok(got)
}

/// Whether a class is below another one.
fn call_is_sub<S, V: View<S>>(
    v: &mut V,
    roots: Addr,
    stack: &Values,
    c: Addr,
    base: Addr,
) -> Result<bool, Stop>
    requires good { Good V.sense roots.0 stack.now v.old }
    requires class { IsClassAt (V.sense.heap v.old) c.0 }
    ensures { IfOk result (λ _. Good V.sense roots.0 stack.now v.new) }
{
    let yes = obj_class::is_sub(v, c, base)?;
    Ok(yes)
}

/// The instance that an exception makes.
fn call_fault<S, V: View<S>>(
    alloc: Global,
    v: &mut V,
    roots: Addr,
    stack: &Values,
    e: &Fault,
) -> Result<Value, Stop>
    requires good { Good V.sense roots.0 stack.now v.old }
    requires fault { IsFault (V.sense.heap v.old) e.now }
    ensures { IfOk result (λ x. GoodWith V.sense roots.0 (λ x h. IsItem h x) stack.now x v.new) }
{
    let x = obj_class::make_fault(alloc, v, roots, e)?;
    Ok(x)
}

// ---- words

/// `$NAME`: a class that every program has.
pub fn root<V: View<u8> + Drop>(bench: Bench<V>, name: &[u8]) -> Result<Bench<V>, Halt>
    requires { Good V.sense bench.roots.0 bench.stack bench.view }
    ensures { IfOk result (λ b. Good V.sense b.roots.0 b.stack b.view) }
{
    let Bench {
        alloc,
        mut view,
        roots,
        stack,
    } = bench;
    match class_number(name) {
        Some(n) if n < COUNT => {
            let x = call_root(&mut view, roots, &stack, n)?;
            push(alloc, view, roots, stack, x)
        }
        _ => Err(Halt::Bad),
    }
}

/// A class of the name and the base below the dictionary at the top.
fn class_of<V: View<u8> + Drop>(bench: Bench<V>) -> Result<Bench<V>, Halt>
    requires { Good V.sense bench.roots.0 bench.stack bench.view }
    ensures { IfOk result (λ b. Good V.sense b.roots.0 b.stack b.view) }
{
    let Bench {
        alloc,
        mut view,
        roots,
        mut stack,
    } = bench;
    let n = stack.len();
    if n < 3 {
        return Err(Halt::Bad);
    }
    let Some(name) = str_at(&mut view, roots, &stack, n - 3)? else {
        return Err(Halt::Bad);
    };
    let Some(base) = base_at(&mut view, roots, &stack, n - 2)? else {
        return Err(Halt::Bad);
    };
    let Some(dict) = dict_at(&mut view, roots, &stack, n - 1)? else {
        return Err(Halt::Bad);
    };
    let x = makers::class(alloc, &mut view, roots, &stack, name, base, dict)?;
    stack.truncate(n - 3);
    push(alloc, view, roots, stack, x)
}

/// `name base class`: a class without attributes; the base is a class or None.
pub fn class<V: View<u8> + Drop>(bench: Bench<V>) -> Result<Bench<V>, Halt>
    requires { Good V.sense bench.roots.0 bench.stack bench.view }
    ensures { IfOk result (λ b. Good V.sense b.roots.0 b.stack b.view) }
{
    let bench = build_dict(bench, 0)?;
    class_of(bench)
}

/// An instance of the class below the dictionary at the top.
fn instance_of<V: View<u8> + Drop>(bench: Bench<V>) -> Result<Bench<V>, Halt>
    requires { Good V.sense bench.roots.0 bench.stack bench.view }
    ensures { IfOk result (λ b. Good V.sense b.roots.0 b.stack b.view) }
{
    let Bench {
        alloc,
        mut view,
        roots,
        mut stack,
    } = bench;
    let n = stack.len();
    if n < 2 {
        return Err(Halt::Bad);
    }
    let Some(class) = class_at(&mut view, roots, &stack, n - 2)? else {
        return Err(Halt::Bad);
    };
    let Some(dict) = dict_at(&mut view, roots, &stack, n - 1)? else {
        return Err(Halt::Bad);
    };
    let x = makers::instance(alloc, &mut view, roots, &stack, class, dict)?;
    stack.truncate(n - 2);
    push(alloc, view, roots, stack, x)
}

/// `C instance`: an instance without attributes.
pub fn instance<V: View<u8> + Drop>(bench: Bench<V>) -> Result<Bench<V>, Halt>
    requires { Good V.sense bench.roots.0 bench.stack bench.view }
    ensures { IfOk result (λ b. Good V.sense b.roots.0 b.stack b.view) }
{
    let bench = build_dict(bench, 0)?;
    instance_of(bench)
}

/// `name def`: a function of this name.
pub fn function<V: View<u8> + Drop>(bench: Bench<V>) -> Result<Bench<V>, Halt>
    requires { Good V.sense bench.roots.0 bench.stack bench.view }
    ensures { IfOk result (λ b. Good V.sense b.roots.0 b.stack b.view) }
{
    let Bench {
        alloc,
        mut view,
        roots,
        mut stack,
    } = bench;
    let n = stack.len();
    if n < 2 {
        return Err(Halt::Bad);
    }
    let Some(name) = str_at(&mut view, roots, &stack, n - 2)? else {
        return Err(Halt::Bad);
    };
    let Some(defaults) = tuple_at(&mut view, roots, &stack, n - 1)? else {
        return Err(Halt::Bad);
    };
    let x = makers::function(alloc, &mut view, roots, &stack, name, defaults)?;
    stack.truncate(n - 2);
    push(alloc, view, roots, stack, x)
}

/// `x name attr`.
pub fn attr<V: View<u8> + Drop>(bench: Bench<V>) -> Result<Bench<V>, Halt>
    requires { Good V.sense bench.roots.0 bench.stack bench.view }
    ensures { IfOk result (λ b. Good V.sense b.roots.0 b.stack b.view) }
{
    let Bench {
        alloc,
        mut view,
        roots,
        stack,
    } = bench;
    let n = stack.len();
    if n < 2 {
        return Err(Halt::Bad);
    }
    match str_at(&mut view, roots, &stack, n - 1)? {
        Some(name) => {
            let got = call_attr(alloc, &mut view, roots, &stack, n - 2, name)?;
            answered(alloc, view, roots, stack, n - 2, got)
        }
        None => Err(Halt::Bad),
    }
}

/// `x name y setattr`.
pub fn set_attr<V: View<u8> + Drop>(bench: Bench<V>) -> Result<Bench<V>, Halt>
    requires { Good V.sense bench.roots.0 bench.stack bench.view }
    ensures { IfOk result (λ b. Good V.sense b.roots.0 b.stack b.view) }
{
    let Bench {
        alloc,
        mut view,
        roots,
        stack,
    } = bench;
    let n = stack.len();
    if n < 3 {
        return Err(Halt::Bad);
    }
    match str_at(&mut view, roots, &stack, n - 2)? {
        Some(name) => {
            let got = call_set_attr(alloc, &mut view, roots, &stack, n - 3, name, n - 1)?;
            done(alloc, view, roots, stack, n - 3, got)
        }
        None => Err(Halt::Bad),
    }
}

/// `x name delattr`.
pub fn del_attr<V: View<u8> + Drop>(bench: Bench<V>) -> Result<Bench<V>, Halt>
    requires { Good V.sense bench.roots.0 bench.stack bench.view }
    ensures { IfOk result (λ b. Good V.sense b.roots.0 b.stack b.view) }
{
    let Bench {
        alloc,
        mut view,
        roots,
        stack,
    } = bench;
    let n = stack.len();
    if n < 2 {
        return Err(Halt::Bad);
    }
    match str_at(&mut view, roots, &stack, n - 1)? {
        Some(name) => {
            let got = call_del_attr(alloc, &mut view, roots, &stack, n - 2, name)?;
            done(alloc, view, roots, stack, n - 2, got)
        }
        None => Err(Halt::Bad),
    }
}

/// `C D issub`.
pub fn is_sub<V: View<u8> + Drop>(bench: Bench<V>) -> Result<Bench<V>, Halt>
    requires { Good V.sense bench.roots.0 bench.stack bench.view }
    ensures { IfOk result (λ b. Good V.sense b.roots.0 b.stack b.view) }
{
    let Bench {
        alloc,
        mut view,
        roots,
        stack,
    } = bench;
    let n = stack.len();
    if n < 2 {
        return Err(Halt::Bad);
    }
    let Some(base) = class_at(&mut view, roots, &stack, n - 1)? else {
        return Err(Halt::Bad);
    };
    let Some(c) = class_at(&mut view, roots, &stack, n - 2)? else {
        return Err(Halt::Bad);
    };
    let yes = call_is_sub(&mut view, roots, &stack, c, base)?;
    let bench = cut(
        Bench {
            alloc,
            view,
            roots,
            stack,
        },
        n - 2,
    )?;
    push_leaf(bench, Leaf::Bool(yes))
}

/// The instance of an exception takes the place of the top value.
fn raised<V: View<u8> + Drop>(bench: Bench<V>, e: Fault) -> Result<Bench<V>, Halt>
    requires good { Good V.sense bench.roots.0 bench.stack bench.view }
    requires fault { IsFault (V.sense.heap bench.view) e }
    ensures { IfOk result (λ b. Good V.sense b.roots.0 b.stack b.view) }
{
    let Bench {
        alloc,
        mut view,
        roots,
        mut stack,
    } = bench;
    let x = call_fault(alloc, &mut view, roots, &stack, &e)?;
    let n = stack.len();
    if n > 0 {
        stack.truncate(n - 1);
    }
    push(alloc, view, roots, stack, x)
}

/// What an exception is told with: the bytes of the string at the top.
fn told_text<V: View<u8> + Drop>(bench: Bench<V>, exc: u8) -> Result<Bench<V>, Halt>
    requires good { Good V.sense bench.roots.0 bench.stack bench.view }
    requires above { 0 < exc }
    requires below { exc < class_count }
    ensures { IfOk result (λ b. Good V.sense b.roots.0 b.stack b.view) }
{
    let Bench {
        alloc,
        mut view,
        roots,
        stack,
    } = bench;
    let n = stack.len();
    if n < 1 {
        return Err(Halt::Bad);
    }
    let Some(a) = str_at(&mut view, roots, &stack, n - 1)? else {
        return Err(Halt::Bad);
    };
    let text = calls::bytes_in(alloc, &mut view, roots, &stack, a)?;
    let bench = Bench {
        alloc,
        view,
        roots,
        stack,
    };
    raised(
        bench,
        Fault {
            exc,
            with: With::Text(text),
        },
    )
}

/// What an exception is told with: the top value.
fn told_value<V: View<u8> + Drop>(bench: Bench<V>, exc: u8) -> Result<Bench<V>, Halt>
    requires good { Good V.sense bench.roots.0 bench.stack bench.view }
    requires above { 0 < exc }
    requires below { exc < class_count }
    ensures { IfOk result (λ b. Good V.sense b.roots.0 b.stack b.view) }
{
    let n = bench.stack.len();
    if n < 1 {
        return Err(Halt::Bad);
    }
    let x = bench.stack.at(n - 1);
    raised(
        bench,
        Fault {
            exc,
            with: With::Held(x),
        },
    )
}

/// The instance that an exception of a class makes, by how it is told.
fn told_as<V: View<u8> + Drop>(bench: Bench<V>, how: u8, exc: u8) -> Result<Bench<V>, Halt>
    requires good { Good V.sense bench.roots.0 bench.stack bench.view }
    requires above { 0 < exc }
    requires below { exc < class_count }
    ensures { IfOk result (λ b. Good V.sense b.roots.0 b.stack b.view) }
{
    match how {
        b'!' => told_text(bench, exc),
        b'?' => told_value(bench, exc),
        _ => raised(
            bench,
            Fault {
                exc,
                with: With::Nothing,
            },
        ),
    }
}

/// `text !NAME`, `x ?NAME` and `x ^NAME`: the instance that an exception of this class makes, told with the text of the
/// string at the top, with the top value, or with nothing.
pub fn fault<V: View<u8> + Drop>(bench: Bench<V>, how: u8, name: &[u8]) -> Result<Bench<V>, Halt>
    requires { Good V.sense bench.roots.0 bench.stack bench.view }
    ensures { IfOk result (λ b. Good V.sense b.roots.0 b.stack b.view) }
{
    match class_number(name) {
        Some(n) if n > OBJECT && n < COUNT => told_as(bench, how, n),
        _ => Err(Halt::Bad),
    }
}
