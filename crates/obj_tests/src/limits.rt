//! Lists and dictionaries as long as they may be, and a dictionary of many keys.
//!
//! A row ends where an exception is raised. What is left of an object then is looked at here.
ghost use Rattle.std.specs.Prelude.{◌≡◌, IfOk};
ghost use Rattle.obj_bench.specs.Bench.{Good};

use crate::tables::{Tested, finished, plain, started, table};
use obj_bench::calls::Putting;
use obj_bench::kinds::{dict_at, list_at};
use obj_bench::pairs::numbered;
use obj_bench::stacking::{Leaf, drop_top, pick, push_leaf, times};
use obj_bench::state::{Bench, Halt};
use obj_bench::{calls, words};
use obj_dict::Part;
use py_data::exception::MEMORY_ERROR;
use py_data::{Fault, Got, Value, Values, View, With};
use std::alloc::{AllocError, Global};
use std::process::Abort;

const PAIRS: &[u8] = b"d0 => {}
d3 => {0: 0, 1: 0, 2: 0}
d3 dup 1 del (2 => ({0: 0, 2: 0}, 0)
d524287 len => 524287
d524288 -1 1 set => MemoryError
d524288 dup 524287 1 set 524287 get => 1
";

/// What a change of an object answered, and how many values or pairs the object has then.
type Counted = (Got<()>, Option<usize>);

/// Sets the second value of the stack, a key, to the third one in the dictionary that is the first.
fn set_in_first<V: View<u8> + Drop>(bench: Bench<V>) -> Result<Counted, Halt>
    requires { Good V.sense bench.roots.0 bench.stack bench.view }
{
    let Bench {
        alloc,
        mut view,
        roots,
        stack,
    } = bench;
    if stack.len() < 3 {
        return Err(Halt::Bad);
    }
    match dict_at(&mut view, roots, &stack, 0)? {
        Some(d) => {
            let got = calls::set(alloc, &mut view, roots, &stack, d, 1, 2)?;
            let count = calls::size_at(&mut view, roots, &stack, 0)?;
            Ok((got, count))
        }
        None => Err(Halt::Bad),
    }
}

/// Puts the second value of the stack at the end of the list that is the first.
fn insert_in_first<V: View<u8> + Drop>(bench: Bench<V>) -> Result<Counted, Halt>
    requires { Good V.sense bench.roots.0 bench.stack bench.view }
{
    let Bench {
        alloc,
        mut view,
        roots,
        stack,
    } = bench;
    if stack.len() < 2 {
        return Err(Halt::Bad);
    }
    match list_at(&mut view, roots, &stack, 0)? {
        Some(a) => {
            let got = calls::put(
                alloc,
                &mut view,
                roots,
                &stack,
                Putting::Before,
                a,
                i64::MAX,
                1,
            )?;
            let count = calls::size_at(&mut view, roots, &stack, 0)?;
            Ok((got, count))
        }
        None => Err(Halt::Bad),
    }
}

/// `set` of a key in a dictionary of the keys from 0 up to `n`.
fn set_in_pairs<V: View<u8> + Drop>(bench: Bench<V>, n: usize, key: i64) -> Result<Counted, Halt>
    requires { Good V.sense bench.roots.0 bench.stack bench.view }
{
    let bench = numbered(bench, n)?;
    let bench = push_leaf(bench, Leaf::Int(key))?;
    let bench = push_leaf(bench, Leaf::Int(1))?;
    set_in_first(bench)
}

/// `insert` at the end of a list of `n` zeros.
fn insert_in_zeros<V: View<u8> + Drop>(bench: Bench<V>, n: usize) -> Result<Counted, Halt>
    requires { Good V.sense bench.roots.0 bench.stack bench.view }
{
    let bench = push_leaf(bench, Leaf::Int(0))?;
    let bench = times(bench, n)?;
    let bench = push_leaf(bench, Leaf::Int(1))?;
    insert_in_first(bench)
}

/// An operation raised MemoryError.
fn is_memory_error<T>(got: &Got<T>) -> bool {
    matches!(
        got,
        Got::Raise(Fault {
            exc: MEMORY_ERROR,
            with: With::Nothing
        })
    )
}

/// Sets a key of the dictionary at the top to its negative, in a step of its own.
fn set_top<V: View<u8> + Drop>(bench: Bench<V>, key: i64) -> Result<Bench<V>, Halt>
    requires { Good V.sense bench.roots.0 bench.stack bench.view }
    ensures { IfOk result (λ b. Good V.sense b.roots.0 b.stack b.view) }
{
    let bench = stepped(bench);
    let bench = pick(bench, 0)?;
    let bench = push_leaf(bench, Leaf::Int(key))?;
    let bench = push_leaf(bench, Leaf::Int(key.wrapping_neg()))?;
    words::set(bench)
}

/// Drops a key of the dictionary at the top, in a step of its own.
fn del_top<V: View<u8> + Drop>(bench: Bench<V>, key: i64) -> Result<Bench<V>, Halt>
    requires { Good V.sense bench.roots.0 bench.stack bench.view }
    ensures { IfOk result (λ b. Good V.sense b.roots.0 b.stack b.view) }
{
    let bench = stepped(bench);
    let bench = pick(bench, 0)?;
    let bench = push_leaf(bench, Leaf::Int(key))?;
    let bench = words::del(bench)?;
    drop_top(bench)
}

/// A step is opened.
fn stepped<V: View<u8> + Drop>(bench: Bench<V>) -> Bench<V>
    requires { Good V.sense bench.roots.0 bench.stack bench.view }
    ensures { Good V.sense result.roots.0 result.stack result.view }
{
    let Bench {
        alloc,
        mut view,
        roots,
        stack,
    } = bench;
    view.open_step();
    Bench {
        alloc,
        view,
        roots,
        stack,
    }
}

/// Sets the keys from 0 up to 5,000 of the dictionary at the top.
fn filled<V: View<u8> + Drop>(bench: Bench<V>) -> Result<Bench<V>, Halt>
    requires { Good V.sense bench.roots.0 bench.stack bench.view }
    ensures { IfOk result (λ b. Good V.sense b.roots.0 b.stack b.view) }
{
    let mut bench = bench;
    for key in 0..5_000i64 {
        bench = set_top(bench, key)?;
    }
    Ok(bench)
}

/// Drops the odd keys up to 5,000 of the dictionary at the top.
fn thinned<V: View<u8> + Drop>(bench: Bench<V>) -> Result<Bench<V>, Halt>
    requires { Good V.sense bench.roots.0 bench.stack bench.view }
    ensures { IfOk result (λ b. Good V.sense b.roots.0 b.stack b.view) }
{
    let mut bench = bench;
    for k in 0..2_500u16 {
        bench = del_top(bench, 2 * i64::from(k) + 1)?;
    }
    Ok(bench)
}

/// A dictionary of 5,000 keys, of which every second one was dropped.
fn evens<V: View<u8> + Drop>(bench: Bench<V>) -> Result<Bench<V>, Halt>
    requires { Good V.sense bench.roots.0 bench.stack bench.view }
    ensures { IfOk result (λ b. Good V.sense b.roots.0 b.stack b.view) }
{
    let bench = numbered(bench, 0)?;
    let bench = filled(bench)?;
    thinned(bench)
}

/// The items of the top value.
fn items_of_top<V: View<u8> + Drop>(bench: Bench<V>) -> Result<Values, Halt>
    requires { Good V.sense bench.roots.0 bench.stack bench.view }
{
    let Bench {
        alloc,
        mut view,
        roots,
        stack,
    } = bench;
    let n = stack.len();
    if n < 1 {
        return Err(Halt::Bad);
    }
    match calls::gather(alloc, &mut view, roots, &stack, n - 1)? {
        Got::Is(values) => Ok(values),
        Got::Raise(_) => Err(Halt::Bad),
    }
}

/// What an iterator over that dictionary gives.
fn even_keys<V: View<u8> + Drop>(bench: Bench<V>) -> Result<Values, Halt>
    requires { Good V.sense bench.roots.0 bench.stack bench.view }
{
    let bench = evens(bench)?;
    let bench = words::make_iter(bench)?;
    items_of_top(bench)
}

/// The values that dictionary has.
fn even_values<V: View<u8> + Drop>(bench: Bench<V>) -> Result<Values, Halt>
    requires { Good V.sense bench.roots.0 bench.stack bench.view }
{
    let bench = evens(bench)?;
    let bench = words::list_of(bench, Part::Values)?;
    items_of_top(bench)
}

/// The values are 0, a number, twice that number, and so on.
fn are_multiples(values: &[Value], of: i64) -> bool {
    let mut wanted = 0i64;
    for x in values {
        if *x != Value::Int(wanted) {
            return false;
        }
        wanted = wanted.wrapping_add(of);
    }
    true
}

/// What `set` answers for a dictionary of the keys from 0 up to `n`, and how many pairs it has then.
fn set_answer(rt: &impl Abort, alloc: Global, n: usize, key: i64) -> Result<Counted, AllocError> {
    let bench = started(rt, alloc, plain(alloc))?;
    finished(rt, set_in_pairs(bench, n, key))
}

/// What `insert` at the end answers for a list of `n` zeros, and how many values it has then.
fn insert_answer(rt: &impl Abort, alloc: Global, n: usize) -> Result<Counted, AllocError> {
    let bench = started(rt, alloc, plain(alloc))?;
    finished(rt, insert_in_zeros(bench, n))
}

#[test]
fn pairs(rt: HostRuntime) -> Tested {
    table(&rt, rt.alloc(), PAIRS)?;
    Ok(())
}

#[test]
fn sets_up_to_the_limit(rt: HostRuntime) -> Tested {
    let (got, count) = set_answer(&rt, rt.alloc(), 524_287, -1)?;
    assert!(rt; matches!(got, Got::Is(())));
    assert_eq!(rt; count, Some(524_288));
    Ok(())
}

#[test]
fn sets_past_the_limit(rt: HostRuntime) -> Tested {
    let (got, count) = set_answer(&rt, rt.alloc(), 524_288, -1)?;
    assert!(rt; is_memory_error(&got));
    assert_eq!(rt; count, Some(524_288));
    Ok(())
}

#[test]
fn sets_an_old_key_at_the_limit(rt: HostRuntime) -> Tested {
    let (got, count) = set_answer(&rt, rt.alloc(), 524_288, 524_287)?;
    assert!(rt; matches!(got, Got::Is(())));
    assert_eq!(rt; count, Some(524_288));
    Ok(())
}

#[test]
fn inserts_up_to_the_limit(rt: HostRuntime) -> Tested {
    let (got, count) = insert_answer(&rt, rt.alloc(), 1_048_575)?;
    assert!(rt; matches!(got, Got::Is(())));
    assert_eq!(rt; count, Some(1_048_576));
    Ok(())
}

#[test]
fn inserts_past_the_limit(rt: HostRuntime) -> Tested {
    let (got, count) = insert_answer(&rt, rt.alloc(), 1_048_576)?;
    assert!(rt; is_memory_error(&got));
    assert_eq!(rt; count, Some(1_048_576));
    Ok(())
}

#[test]
fn every_second_key_dropped(rt: HostRuntime) -> Tested {
    let alloc = rt.alloc();
    let bench = started(&rt, alloc, plain(alloc))?;
    let keys = finished(&rt, even_keys(bench))?;
    assert_eq!(rt; keys.len(), 2_500);
    assert!(rt; are_multiples(keys.as_slice(), 2));
    let bench = started(&rt, alloc, plain(alloc))?;
    let values = finished(&rt, even_values(bench))?;
    assert_eq!(rt; values.len(), 2_500);
    assert!(rt; are_multiples(values.as_slice(), -2));
    Ok(())
}
