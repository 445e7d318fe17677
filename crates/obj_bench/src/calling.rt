//! Calls of builtins over a view whose heap is in order, and the words of a program for them.
ghost use Rattle.std.specs.Prelude.{◌<◌, length, IfOk};
ghost use Rattle.py_data.specs.Answers.{IsGot};
ghost use Rattle.py_data.specs.Closed.{Refers};
ghost use Rattle.obj_str.specs.HoldsLaws.{IsStrAt};
ghost use Rattle.obj_threads.specs.HoldsLaws.{IsCalled};
ghost use Rattle.obj_bench.specs.Bench.{any_state, free, Good, GoodWith};

use crate::kinds::str_at;
use crate::stacking::{cut, text};
use crate::state::{Bench, Halt, push, raised, told};
use obj_builtins::{Answer, call, call_law};
use obj_class::{Found, find_attr};
use py_base::{builtin_number, skip};
use py_data::{Addr, Bytes, Demands, Got, Stop, Value, Values, View};
use std::alloc::Global;

/// A client that asks nothing of a heap, nor of where its threads' states may stand.
struct Anyone;

impl<S> Demands<S> for Anyone {
    ghost rules = { free };

    ghost stands = { any_state };

    ghost lasting = { record { function = λ h h1 vs x f. tt } };

    ghost stay = { λ h h1 s order x i. tt };
}

/// What a builtin answers, called with the values of the stack from a place on.
fn call_builtin<S, V: View<S>>(
    alloc: Global,
    v: &mut V,
    roots: Addr,
    stack: &Values,
    b: u8,
    own: Value,
    place: usize,
) -> Result<Got<Answer>, Stop>
    requires good { Good V.sense roots.0 stack.now v.old }
    requires own { Refers (V.sense.heap v.old) own }
    ensures { IfOk result (λ g. GoodWith V.sense roots.0 (IsGot (IsCalled roots.0)) stack.now g v.new) }
{
    call_law::<S, Anyone>();
    let args = skip(stack.as_slice(), place);
    let got = call(alloc, v, roots, None, b, own, args, &[])?;
    Ok(got)
}

/// Where the attribute of a value of the stack is found.
fn look_attr<S, V: View<S>>(
    alloc: Global,
    v: &mut V,
    roots: Addr,
    stack: &Values,
    place: usize,
    name: Addr,
) -> Result<Option<Found>, Stop>
    requires good { Good V.sense roots.0 stack.now v.old }
    requires place { place < length stack.now }
    requires name { IsStrAt (V.sense.heap v.old) name.0 }
    ensures { IfOk result (λ _. Good V.sense roots.0 stack.now v.new) }
{
    let found = find_attr(alloc, v, roots, stack.at(place), name)?;
    Ok(found)
}

/// What a call answered takes the place of what it was called with, from place `n` on.
fn called<V: View<u8> + Drop>(
    alloc: Global,
    view: V,
    roots: Addr,
    mut stack: Values,
    n: usize,
    got: Got<Answer>,
) -> Result<Bench<V>, Halt>
    requires { GoodWith V.sense roots.0 (IsGot (IsCalled roots.0)) stack got view }
    ensures { IfOk result (λ b. Good V.sense b.roots.0 b.stack b.view) }
{
    match got {
        Got::Is(Answer::Value(x)) => {
            stack.truncate(n);
            push(alloc, view, roots, stack, x)
        }
        Got::Is(Answer::Waits) => Err(told(alloc, b"waits")),
        Got::Is(Answer::Start { .. }) => Err(told(alloc, b"starts")),
        Got::Raise(e) => Err(raised(alloc, view, roots, stack, e)),
    }
}

/// A builtin is called with the top `args` values.
fn of_number<V: View<u8> + Drop>(bench: Bench<V>, b: u8, args: usize) -> Result<Bench<V>, Halt>
    requires { Good V.sense bench.roots.0 bench.stack bench.view }
    ensures { IfOk result (λ b. Good V.sense b.roots.0 b.stack b.view) }
{
    let Bench {
        alloc,
        mut view,
        roots,
        stack,
    } = bench;
    let n = stack.len();
    if args > n {
        return Err(Halt::Bad);
    }
    let got = call_builtin(alloc, &mut view, roots, &stack, b, Value::Unset, n - args)?;
    called(alloc, view, roots, stack, n - args, got)
}

/// `args.. :NAMEn`: the builtin of that name is called with the top `n` values.
pub fn builtin<V: View<u8> + Drop>(
    bench: Bench<V>,
    name: &[u8],
    args: usize,
) -> Result<Bench<V>, Halt>
    requires { Good V.sense bench.roots.0 bench.stack bench.view }
    ensures { IfOk result (λ b. Good V.sense b.roots.0 b.stack b.view) }
{
    match builtin_number(name) {
        Some(b) => of_number(bench, b, args),
        None => Err(Halt::Bad),
    }
}

/// A builtin method is called with its object, which stands at a place of the stack, and the values above it.
fn of_object<V: View<u8> + Drop>(bench: Bench<V>, at: usize, b: u8) -> Result<Bench<V>, Halt>
    requires { Good V.sense bench.roots.0 bench.stack bench.view }
    ensures { IfOk result (λ b. Good V.sense b.roots.0 b.stack b.view) }
{
    let Bench {
        alloc,
        mut view,
        roots,
        stack,
    } = bench;
    if at >= stack.len() {
        return Err(Halt::Bad);
    }
    let own = stack.at(at);
    let got = call_builtin(alloc, &mut view, roots, &stack, b, own, at + 1)?;
    called(alloc, view, roots, stack, at, got)
}

/// The attribute that is named at the top is looked for in the value that stands below `args` others.
fn named<V: View<u8> + Drop>(bench: Bench<V>, args: usize) -> Result<Bench<V>, Halt>
    requires { Good V.sense bench.roots.0 bench.stack bench.view }
    ensures { IfOk result (λ b. Good V.sense b.roots.0 b.stack b.view) }
{
    let Bench {
        alloc,
        mut view,
        roots,
        stack,
    } = bench;
    let n = stack.len();
    if n < 2 || args > n - 2 {
        return Err(Halt::Bad);
    }
    let at = n - 2 - args;
    match str_at(&mut view, roots, &stack, n - 1)? {
        Some(name) => {
            let found = look_attr(alloc, &mut view, roots, &stack, at, name)?;
            let bench = Bench {
                alloc,
                view,
                roots,
                stack,
            };
            let bench = cut(bench, n - 1)?;
            match found {
                Some(Found::Bound(Value::Builtin(b))) => of_object(bench, at, b),
                _ => Err(Halt::Bad),
            }
        }
        None => Err(Halt::Bad),
    }
}

/// `x args.. .NAMEn`: the builtin method of that name of a value, called with the top `n` values, below which the value
/// stands.
pub fn method<V: View<u8> + Drop>(
    bench: Bench<V>,
    name: &[u8],
    args: usize,
) -> Result<Bench<V>, Halt>
    requires { Good V.sense bench.roots.0 bench.stack bench.view }
    ensures { IfOk result (λ b. Good V.sense b.roots.0 b.stack b.view) }
{
    let bytes = Bytes::from_slice(bench.alloc, name)?;
    let bench = text(bench, bytes)?;
    named(bench, args)
}
