//! `insert` where no memory is left: a step that is taken back leaves the heap as it was.
ghost use Rattle.std.specs.Prelude.{◌≡◌, IfOk, IfSome, pos};
ghost use Rattle.py_data.specs.declared.value.Value.TheVariants.{Int};
ghost use Rattle.py_data.specs.Sense.{Meets, Stopped};
ghost use Rattle.obj_seq.specs.HoldsLaws.{IsListAt};
ghost use Rattle.obj_seq.specs.Seq.{insert_row};
ghost use Rattle.obj_bench.specs.Bench.{Good};

use crate::tables::{Tested, finished, plain, started};
use obj_bench::kinds::list_at;
use obj_bench::stacking::{Leaf, build, push_leaf};
use obj_bench::state::{Bench, Halt};
use obj_seq::insert;
use py_data::{Addr, Got, Kind, NoMemory, Peek, Stop, Value, Values, View};
use std::alloc::Global;

/// The items of a list, as an image shows them.
fn peeked<P: Peek>(alloc: Global, image: &P, a: Addr) -> Result<Values, NoMemory>
    requires { IsListAt (P.image image.now) a.0 }
{
    let n = image.peek_len(a);
    let mut values = Values::new(alloc);
    for i in 0..n {
        values.push(image.peek_val(a, i))?;
    }
    Ok(values)
}

/// `insert` at the front of a list.
fn insert_front<S, V: View<S>>(
    v: &mut V,
    roots: Addr,
    stack: &Values,
    a: Addr,
) -> Result<Got<()>, Stop>
    requires good { Good V.sense roots.0 stack.now v.old }
    requires at { IsListAt (V.sense.heap v.old) a.0 }
    ensures { Meets V.sense (insert_row a.0 (pos 0) (Int (pos 9))) v.old v.new result }
{
    insert(v, a, 0, Value::Int(9))
}

/// The Stop of `insert` at the front of a list, if there was one.
fn insert_stop<S, V: View<S>>(v: &mut V, roots: Addr, stack: &Values, a: Addr) -> Option<Stop>
    requires good { Good V.sense roots.0 stack.now v.old }
    requires at { IsListAt (V.sense.heap v.old) a.0 }
    ensures { IfSome result (λ e. Stopped V.sense (insert_row a.0 (pos 0) (Int (pos 9))) v.old e v.new) }
{
    insert_front(v, roots, stack, a).err()
}

/// `insert` at the front of a list, in a step that is taken back where it was stopped. The Stop, if there was one.
fn insert_or_back<S, V: View<S>>(v: &mut V, roots: Addr, stack: &Values, a: Addr) -> Option<Stop>
    requires good { Good V.sense roots.0 stack.now v.old }
    requires at { IsListAt (V.sense.heap v.old) a.0 }
    ensures { IfSome result (λ _. V.sense.heap v.new ≡ V.sense.heap v.old) }
{
    v.open_step();
    match insert_stop(v, roots, stack, a) {
        Some(e) => {
            v.undo_step();
            Some(e)
        }
        None => None,
    }
}

/// `insert` at the front of a list: it was done, or no memory was left, and then the list is as it was.
fn inserts_or_keeps<S, V: View<S> + Peek>(
    alloc: Global,
    v: &mut V,
    roots: Addr,
    stack: &Values,
    a: Addr,
) -> Result<bool, NoMemory>
    requires good { Good V.sense roots.0 stack.now v.old }
    requires at { IsListAt (V.sense.heap v.old) a.0 }
    requires same { (x : V) → V.image x ≡ V.sense.heap x }
{
    let before = peeked(alloc, v, a)?;
    match insert_or_back(v, roots, stack, a) {
        None => Ok(true),
        Some(Stop::OutOfMemory) => {
            let after = peeked(alloc, v, a)?;
            Ok(after.as_slice() == before.as_slice())
        }
        Some(_) => Ok(false),
    }
}

/// The list 1, 2, 3.
fn three<V: View<u8> + Drop>(bench: Bench<V>) -> Result<Bench<V>, Halt>
    requires { Good V.sense bench.roots.0 bench.stack bench.view }
    ensures { IfOk result (λ b. Good V.sense b.roots.0 b.stack b.view) }
{
    let bench = push_leaf(bench, Leaf::Int(1))?;
    let bench = push_leaf(bench, Leaf::Int(2))?;
    let bench = push_leaf(bench, Leaf::Int(3))?;
    build(bench, Kind::List, 3)
}

/// `insert` at the front of the list 1, 2, 3.
fn inserts_in_three<V: View<u8> + Peek + Drop>(bench: Bench<V>) -> Result<bool, Halt>
    requires good { Good V.sense bench.roots.0 bench.stack bench.view }
    requires same { (x : V) → V.image x ≡ V.sense.heap x }
{
    let Bench {
        alloc,
        mut view,
        roots,
        stack,
    } = three(bench)?;
    let n = stack.len();
    if n < 1 {
        return Err(Halt::Bad);
    }
    match list_at(&mut view, roots, &stack, n - 1)? {
        Some(a) => {
            let kept = inserts_or_keeps(alloc, &mut view, roots, &stack, a)?;
            Ok(kept)
        }
        None => Err(Halt::Bad),
    }
}

/// Whatever allocation fails, the list is as it was once the step was taken back. `rt try --test --fail-alloc` fails
/// each in turn.
#[test]
fn inserts_or_undoes(rt: HostRuntime) -> Tested {
    let alloc = rt.alloc();
    let bench = started(&rt, alloc, plain(alloc))?;
    assert!(rt; finished(&rt, inserts_in_three(bench))?);
    Ok(())
}
