//! `dN`: dictionaries of many pairs, made at once.
ghost use Rattle.std.specs.Prelude.{◌≡◌, ◌≤◌, IfOk};
ghost use Rattle.py_data.specs.Closed.{IsItem};
ghost use Rattle.obj_bench.specs.Bench.{Good, GoodWith, pairs_from};

use crate::makers::made;
use crate::state::{Bench, Halt, push};
use py_data::{Addr, Bytes, Kind, LENGTH_LIMIT, NoMemory, Record, Stop, Value, Values, View};
use std::alloc::Global;

/// Pairs of the numbers from 0 up to `n`, each with 0.
pub fn zero_pairs(alloc: Global, n: u32) -> Result<Values, NoMemory>
    ensures { IfOk result (λ vs. vs ≡ pairs_from 0 n) }
{
    let mut values = Values::new(alloc);
    for k in 0..n {
        values.push(Value::Int(i64::from(k)))?;
        values.push(Value::Int(0))?;
    }
    Ok(values)
}

/// A new dictionary of the keys from 0 up to `n`, each with 0.
fn dict_of<S, V: View<S>>(
    alloc: Global,
    v: &mut V,
    roots: Addr,
    stack: &Values,
    n: u32,
) -> Result<Value, Stop>
    requires good { Good V.sense roots.0 stack.now v.old }
    requires limit { n ≤ 524_288 }
    ensures { IfOk result (λ x. GoodWith V.sense roots.0 (λ x h. IsItem h x) stack.now x v.new) }
{
    let r = Record {
        kind: Kind::Dict,
        values: zero_pairs(alloc, n)?,
        bytes: Bytes::new(alloc),
    };
    made(v, roots, stack, &r)
}

/// `dN`: a dictionary of the keys from 0 up to `n`, each with 0.
pub fn numbered<V: View<u8> + Drop>(bench: Bench<V>, n: usize) -> Result<Bench<V>, Halt>
    requires { Good V.sense bench.roots.0 bench.stack bench.view }
    ensures { IfOk result (λ b. Good V.sense b.roots.0 b.stack b.view) }
{
    let Bench {
        alloc,
        mut view,
        roots,
        stack,
    } = bench;
    if n > LENGTH_LIMIT / 2 {
        return Err(Halt::Bad);
    }
    let x = dict_of(alloc, &mut view, roots, &stack, n as u32)?;
    push(alloc, view, roots, stack, x)
}
