//! New records over a view whose heap is in order.
ghost use Rattle.std.specs.Prelude.{◌≡◌, ◌≢◌, ◌≤◌, ◌<◌, ◌^◌, length, pos, ℕ, IfOk, [], ◌∷◌};
ghost use Rattle.py_data.specs.declared.value.Value.TheVariants.{Int};
ghost use Rattle.py_data.specs.Range.{range_length};
ghost use Rattle.py_data.specs.declared.record.TheConstants.{LENGTH_LIMIT};
ghost use Rattle.py_data.specs.Answers.{IsSequenceKind};
ghost use Rattle.py_data.specs.Closed.{IsItem};
ghost use Rattle.py_data.specs.Every.{Every};
ghost use Rattle.py_data.specs.Made.{rec_of};
ghost use Rattle.py_data.specs.Order.{FitsAt};
ghost use Rattle.py_base.specs.declared.kind.Kind.TheVariants.{Class};
ghost use Rattle.py_data.specs.Shape.{NoneOr, RefTo};
ghost use Rattle.obj_dict.specs.HoldsLaws.{IsDictAt};
ghost use Rattle.obj_str.specs.HoldsLaws.{IsStrAt};
ghost use Rattle.obj_bench.specs.Bench.{free, Good, GoodWith, IsClassAt, IsTupleAt};

use py_data::{Addr, Bytes, Kind, NoMemory, Record, Stop, Value, Values, View};
use std::alloc::Global;

/// Makes a record that fits.
pub fn made<S, V: View<S>>(
    v: &mut V,
    roots: Addr,
    stack: &Values,
    r: &Record,
) -> Result<Value, Stop>
    requires good { Good V.sense roots.0 stack.now v.old }
    requires fits { (a : ℕ) → FitsAt free (V.sense.heap v.old) a (rec_of r.now) }
    ensures { IfOk result (λ x. GoodWith V.sense roots.0 (λ x h. IsItem h x) stack.now x v.new) }
{
    let a = v.make(r)?;
    Ok(Value::Ref(a))
}

/// A new list, or a new tuple, of values.
pub fn sequence<S, V: View<S>>(
    alloc: Global,
    v: &mut V,
    roots: Addr,
    stack: &Values,
    kind: Kind,
    values: Values,
) -> Result<Value, Stop>
    requires good { Good V.sense roots.0 stack.now v.old }
    requires kind { IsSequenceKind kind }
    requires items { Every (IsItem (V.sense.heap v.old)) values }
    requires limit { length values ≤ LENGTH_LIMIT }
    ensures { IfOk result (λ x. GoodWith V.sense roots.0 (λ x h. IsItem h x) stack.now x v.new) }
{
    let r = Record {
        kind,
        values,
        bytes: Bytes::new(alloc),
    };
    made(v, roots, stack, &r)
}

/// A new string.
pub fn text<S, V: View<S>>(
    alloc: Global,
    v: &mut V,
    roots: Addr,
    stack: &Values,
    bytes: Bytes,
) -> Result<Value, Stop>
    requires good { Good V.sense roots.0 stack.now v.old }
    requires limit { length bytes ≤ LENGTH_LIMIT }
    ensures { IfOk result (λ x. GoodWith V.sense roots.0 (λ x h. IsItem h x) stack.now x v.new) }
{
    let r = Record {
        kind: Kind::Str,
        values: Values::new(alloc),
        bytes,
    };
    made(v, roots, stack, &r)
}

/// A new dictionary without pairs.
pub fn dict<S, V: View<S>>(
    alloc: Global,
    v: &mut V,
    roots: Addr,
    stack: &Values,
) -> Result<Value, Stop>
    requires good { Good V.sense roots.0 stack.now v.old }
    ensures { IfOk result (λ x. GoodWith V.sense roots.0 (λ x h. IsItem h x) stack.now x v.new) }
{
    let r = Record {
        kind: Kind::Dict,
        values: Values::new(alloc),
        bytes: Bytes::new(alloc),
    };
    made(v, roots, stack, &r)
}

/// The values of a range.
fn range_values(alloc: Global, start: i64, stop: i64, step: i64) -> Result<Values, NoMemory>
    ensures { IfOk result (λ vs. vs ≡ Int start ∷ Int stop ∷ Int step ∷ []) }
{
    let mut values = Values::new(alloc);
    values.push(Value::Int(start))?;
    values.push(Value::Int(stop))?;
    values.push(Value::Int(step))?;
    Ok(values)
}

/// A new range.
pub fn range<S, V: View<S>>(
    alloc: Global,
    v: &mut V,
    roots: Addr,
    stack: &Values,
    start: i64,
    stop: i64,
    step: i64,
) -> Result<Value, Stop>
    requires good { Good V.sense roots.0 stack.now v.old }
    requires some { step ≢ pos 0 }
    requires fits { range_length start stop step < 2 ^ 63 }
    ensures { IfOk result (λ x. GoodWith V.sense roots.0 (λ x h. IsItem h x) stack.now x v.new) }
{
    let r = Record {
        kind: Kind::Range,
        values: range_values(alloc, start, stop, step)?,
        bytes: Bytes::new(alloc),
    };
    made(v, roots, stack, &r)
}

/// Two values.
fn two(alloc: Global, x: Value, y: Value) -> Result<Values, NoMemory>
    ensures { IfOk result (λ vs. vs ≡ x ∷ y ∷ []) }
{
    let mut values = Values::new(alloc);
    values.push(x)?;
    values.push(y)?;
    Ok(values)
}

/// Three values.
fn three(alloc: Global, x: Value, y: Value, z: Value) -> Result<Values, NoMemory>
    ensures { IfOk result (λ vs. vs ≡ x ∷ y ∷ z ∷ []) }
{
    let mut values = Values::new(alloc);
    values.push(x)?;
    values.push(y)?;
    values.push(z)?;
    Ok(values)
}

/// A new class of a name, with its base or None, and a dictionary of attributes.
pub fn class<S, V: View<S>>(
    alloc: Global,
    v: &mut V,
    roots: Addr,
    stack: &Values,
    name: Addr,
    base: Value,
    dict: Addr,
) -> Result<Value, Stop>
    requires good { Good V.sense roots.0 stack.now v.old }
    requires name { IsStrAt (V.sense.heap v.old) name.0 }
    requires base { NoneOr (RefTo (V.sense.heap v.old) Class) base }
    requires dict { IsDictAt (V.sense.heap v.old) dict.0 }
    ensures { IfOk result (λ x. GoodWith V.sense roots.0 (λ x h. IsItem h x) stack.now x v.new) }
{
    let values = three(alloc, Value::Ref(name), base, Value::Ref(dict))?;
    let r = Record {
        kind: Kind::Class,
        values,
        bytes: Bytes::new(alloc),
    };
    made(v, roots, stack, &r)
}

/// A new instance of a class, with a dictionary of attributes.
pub fn instance<S, V: View<S>>(
    alloc: Global,
    v: &mut V,
    roots: Addr,
    stack: &Values,
    class: Addr,
    dict: Addr,
) -> Result<Value, Stop>
    requires good { Good V.sense roots.0 stack.now v.old }
    requires class { IsClassAt (V.sense.heap v.old) class.0 }
    requires dict { IsDictAt (V.sense.heap v.old) dict.0 }
    ensures { IfOk result (λ x. GoodWith V.sense roots.0 (λ x h. IsItem h x) stack.now x v.new) }
{
    let values = two(alloc, Value::Ref(class), Value::Ref(dict))?;
    let r = Record {
        kind: Kind::Instance,
        values,
        bytes: Bytes::new(alloc),
    };
    made(v, roots, stack, &r)
}

/// A new function of a name, with the values of its last parameters.
pub fn function<S, V: View<S>>(
    alloc: Global,
    v: &mut V,
    roots: Addr,
    stack: &Values,
    name: Addr,
    defaults: Addr,
) -> Result<Value, Stop>
    requires good { Good V.sense roots.0 stack.now v.old }
    requires name { IsStrAt (V.sense.heap v.old) name.0 }
    requires defaults { IsTupleAt (V.sense.heap v.old) defaults.0 }
    ensures { IfOk result (λ x. GoodWith V.sense roots.0 (λ x h. IsItem h x) stack.now x v.new) }
{
    let values = three(alloc, Value::Ref(name), Value::Int(0), Value::Ref(defaults))?;
    let r = Record {
        kind: Kind::Function,
        values,
        bytes: Bytes::new(alloc),
    };
    made(v, roots, stack, &r)
}
