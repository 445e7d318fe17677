//! Looks at nested values over a view whose heap is in order.
ghost use Rattle.std.specs.Prelude.{◌<◌, length, IfOk};
ghost use Rattle.obj_bench.specs.Bench.{Good};

use py_data::{Addr, Bytes, Got, Stop, Values, View};
use std::alloc::Global;
use std::cmp::Ordering;

/// The text of a value of the stack.
pub fn text<S, V: View<S>>(
    alloc: Global,
    v: &mut V,
    roots: Addr,
    stack: &Values,
    place: usize,
    quoted: bool,
) -> Result<Got<Bytes>, Stop>
    requires good { Good V.sense roots.0 stack.now v.old }
    requires place { place < length stack.now }
    ensures { IfOk result (λ _. Good V.sense roots.0 stack.now v.new) }
{
    let got = obj_class::text(alloc, v, roots, stack.at(place), quoted)?;
    Ok(got)
}

/// Whether two values of the stack are equal.
pub fn equal<S, V: View<S>>(
    alloc: Global,
    v: &mut V,
    roots: Addr,
    stack: &Values,
    place: usize,
    other: usize,
) -> Result<Got<bool>, Stop>
    requires good { Good V.sense roots.0 stack.now v.old }
    requires place { place < length stack.now }
    requires other { other < length stack.now }
    ensures { IfOk result (λ _. Good V.sense roots.0 stack.now v.new) }
{
    let got = obj_nest::equal(alloc, v, stack.at(place), stack.at(other))?;
    Ok(got)
}

/// Which of two values of the stack comes first.
pub fn order<S, V: View<S>>(
    alloc: Global,
    v: &mut V,
    roots: Addr,
    stack: &Values,
    place: usize,
    other: usize,
) -> Result<Got<Ordering>, Stop>
    requires good { Good V.sense roots.0 stack.now v.old }
    requires place { place < length stack.now }
    requires other { other < length stack.now }
    ensures { IfOk result (λ _. Good V.sense roots.0 stack.now v.new) }
{
    let got = obj_nest::order(alloc, v, stack.at(place), stack.at(other))?;
    Ok(got)
}

/// Whether a value of the stack counts as true.
pub fn truth<S, V: View<S>>(
    v: &mut V,
    roots: Addr,
    stack: &Values,
    place: usize,
) -> Result<bool, Stop>
    requires good { Good V.sense roots.0 stack.now v.old }
    requires place { place < length stack.now }
    ensures { IfOk result (λ _. Good V.sense roots.0 stack.now v.new) }
{
    let yes = obj_nest::truth(v, stack.at(place))?;
    Ok(yes)
}
