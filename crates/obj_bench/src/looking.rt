//! The words of a program that look at values.
ghost use Rattle.std.specs.Prelude.{IfOk};
ghost use Rattle.obj_bench.specs.Bench.{Good};

use crate::kinds::str_at;
use crate::stacking::{self, Leaf};
use crate::state::{Bench, Halt, told_fault};
use crate::{calls, nested};
use py_data::{Bytes, Got, Kind, LENGTH_LIMIT, NoMemory, View};
use std::alloc::Global;
use std::cmp::Ordering;

/// `x len`.
pub fn len<V: View<u8> + Drop>(bench: Bench<V>) -> Result<Bench<V>, Halt>
    requires { Good V.sense bench.roots.0 bench.stack bench.view }
    ensures { IfOk result (λ b. Good V.sense b.roots.0 b.stack b.view) }
{
    let Bench {
        alloc,
        mut view,
        roots,
        stack,
    } = bench;
    let n = stack.len();
    if n < 1 {
        return Err(Halt::Bad);
    }
    match calls::size_at(&mut view, roots, &stack, n - 1)? {
        Some(size) if size <= LENGTH_LIMIT => {
            let bench = stacking::cut(
                Bench {
                    alloc,
                    view,
                    roots,
                    stack,
                },
                n - 1,
            )?;
            stacking::push_leaf(bench, Leaf::Int(size as i64))
        }
        _ => Err(Halt::Bad),
    }
}

/// The name of a kind.
fn kind_name(kind: Kind) -> &'static [u8] {
    match kind {
        Kind::Str => b"Str",
        Kind::Tuple => b"Tuple",
        Kind::List => b"List",
        Kind::Dict => b"Dict",
        Kind::Iter => b"Iter",
        Kind::Range => b"Range",
        _ => b"other",
    }
}

/// `x kind`.
pub fn kind<V: View<u8> + Drop>(bench: Bench<V>) -> Result<Bench<V>, Halt>
    requires { Good V.sense bench.roots.0 bench.stack bench.view }
    ensures { IfOk result (λ b. Good V.sense b.roots.0 b.stack b.view) }
{
    let Bench {
        alloc,
        mut view,
        roots,
        stack,
    } = bench;
    let n = stack.len();
    if n < 1 {
        return Err(Halt::Bad);
    }
    match calls::record_at(&mut view, roots, &stack, n - 1)? {
        Some((_, kind)) => {
            let name = Bytes::from_slice(alloc, kind_name(kind))?;
            let bench = stacking::cut(
                Bench {
                    alloc,
                    view,
                    roots,
                    stack,
                },
                n - 1,
            )?;
            stacking::text(bench, name)
        }
        None => Err(Halt::Bad),
    }
}

/// The text of the top value.
pub fn shown<V: View<u8> + Drop>(bench: Bench<V>) -> Result<Bytes, Halt>
    requires { Good V.sense bench.roots.0 bench.stack bench.view }
{
    let Bench {
        alloc,
        mut view,
        roots,
        stack,
    } = bench;
    let n = stack.len();
    if n < 1 {
        return Err(Halt::Bad);
    }
    match nested::text(alloc, &mut view, roots, &stack, n - 1, true)? {
        Got::Is(text) => Ok(text),
        Got::Raise(e) => Err(told_fault(alloc, e)),
    }
}

/// `x repr` and `x str`.
pub fn text<V: View<u8> + Drop>(bench: Bench<V>, quoted: bool) -> Result<Bench<V>, Halt>
    requires { Good V.sense bench.roots.0 bench.stack bench.view }
    ensures { IfOk result (λ b. Good V.sense b.roots.0 b.stack b.view) }
{
    let Bench {
        alloc,
        mut view,
        roots,
        stack,
    } = bench;
    let n = stack.len();
    if n < 1 {
        return Err(Halt::Bad);
    }
    match nested::text(alloc, &mut view, roots, &stack, n - 1, quoted)? {
        Got::Is(text) => {
            let bench = stacking::cut(
                Bench {
                    alloc,
                    view,
                    roots,
                    stack,
                },
                n - 1,
            )?;
            stacking::text(bench, text)
        }
        Got::Raise(e) => Err(told_fault(alloc, e)),
    }
}

/// `x y equal`.
pub fn equal<V: View<u8> + Drop>(bench: Bench<V>) -> Result<Bench<V>, Halt>
    requires { Good V.sense bench.roots.0 bench.stack bench.view }
    ensures { IfOk result (λ b. Good V.sense b.roots.0 b.stack b.view) }
{
    let Bench {
        alloc,
        mut view,
        roots,
        stack,
    } = bench;
    let n = stack.len();
    if n < 2 {
        return Err(Halt::Bad);
    }
    match nested::equal(alloc, &mut view, roots, &stack, n - 2, n - 1)? {
        Got::Is(same) => {
            let bench = stacking::cut(
                Bench {
                    alloc,
                    view,
                    roots,
                    stack,
                },
                n - 2,
            )?;
            stacking::push_leaf(bench, Leaf::Bool(same))
        }
        Got::Raise(e) => Err(told_fault(alloc, e)),
    }
}

/// The name of an order.
fn order_name(order: Ordering) -> &'static [u8] {
    match order {
        Ordering::Less => b"Less",
        Ordering::Equal => b"Equal",
        Ordering::Greater => b"Greater",
    }
}

/// `x y order`.
pub fn order<V: View<u8> + Drop>(bench: Bench<V>) -> Result<Bench<V>, Halt>
    requires { Good V.sense bench.roots.0 bench.stack bench.view }
    ensures { IfOk result (λ b. Good V.sense b.roots.0 b.stack b.view) }
{
    let Bench {
        alloc,
        mut view,
        roots,
        stack,
    } = bench;
    let n = stack.len();
    if n < 2 {
        return Err(Halt::Bad);
    }
    match nested::order(alloc, &mut view, roots, &stack, n - 2, n - 1)? {
        Got::Is(order) => {
            let name = Bytes::from_slice(alloc, order_name(order))?;
            let bench = stacking::cut(
                Bench {
                    alloc,
                    view,
                    roots,
                    stack,
                },
                n - 2,
            )?;
            stacking::text(bench, name)
        }
        Got::Raise(e) => Err(told_fault(alloc, e)),
    }
}

/// `x truth` and `x not`: whether the truth of the top value is this one.
pub fn truth<V: View<u8> + Drop>(bench: Bench<V>, wanted: bool) -> Result<Bench<V>, Halt>
    requires { Good V.sense bench.roots.0 bench.stack bench.view }
    ensures { IfOk result (λ b. Good V.sense b.roots.0 b.stack b.view) }
{
    let Bench {
        alloc,
        mut view,
        roots,
        stack,
    } = bench;
    let n = stack.len();
    if n < 1 {
        return Err(Halt::Bad);
    }
    let yes = nested::truth(&mut view, roots, &stack, n - 1)?;
    let bench = stacking::cut(
        Bench {
            alloc,
            view,
            roots,
            stack,
        },
        n - 1,
    )?;
    stacking::push_leaf(bench, Leaf::Bool(yes == wanted))
}

/// So many times some bytes, or nothing where they are more than a string may have.
fn repeated(alloc: Global, bytes: &Bytes, n: usize) -> Result<Option<Bytes>, NoMemory> {
    let mut out = Bytes::new(alloc);
    for _ in 0..n {
        if out.len() > LENGTH_LIMIT {
            return Ok(None);
        }
        out.extend_from_slice(bytes.as_slice())?;
    }
    Ok(Some(out))
}

/// `sN`: a string of `n` times the bytes of the string at the top.
pub fn long_text<V: View<u8> + Drop>(bench: Bench<V>, times: usize) -> Result<Bench<V>, Halt>
    requires { Good V.sense bench.roots.0 bench.stack bench.view }
    ensures { IfOk result (λ b. Good V.sense b.roots.0 b.stack b.view) }
{
    let Bench {
        alloc,
        mut view,
        roots,
        stack,
    } = bench;
    let n = stack.len();
    if n < 1 {
        return Err(Halt::Bad);
    }
    match str_at(&mut view, roots, &stack, n - 1)? {
        Some(a) => {
            let bytes = calls::bytes_in(alloc, &mut view, roots, &stack, a)?;
            let bench = stacking::cut(
                Bench {
                    alloc,
                    view,
                    roots,
                    stack,
                },
                n - 1,
            )?;
            match repeated(alloc, &bytes, times)? {
                Some(all) => stacking::text(bench, all),
                None => Err(Halt::Bad),
            }
        }
        None => Err(Halt::Bad),
    }
}
