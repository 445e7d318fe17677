//! What kind of record a value of the stack refers to.
ghost use Rattle.std.specs.Prelude.{◌≡◌, ◌<◌, length, IfOk, IfSome, option_map};
ghost use Rattle.py_base.specs.declared.kind.Kind.TheVariants.{Class};
ghost use Rattle.py_data.specs.declared.value.Value.TheVariants.{Ref};
ghost use Rattle.py_data.specs.Shape.{NoneOr, RefTo};
ghost use Rattle.obj_seq.specs.HoldsLaws.{IsListAt, IsSequenceAt, IsIterAt};
ghost use Rattle.obj_dict.specs.HoldsLaws.{IsDictAt};
ghost use Rattle.obj_str.specs.HoldsLaws.{IsStrAt};
ghost use Rattle.obj_bench.specs.Bench.{Good, IsClassAt, IsTupleAt};

use crate::calls::record_at;
use py_data::{Addr, Kind, Stop, Value, Values, View};

/// The list at a place of the stack.
pub fn list_at<S, V: View<S>>(
    v: &mut V,
    roots: Addr,
    stack: &Values,
    place: usize,
) -> Result<Option<Addr>, Stop>
    requires good { Good V.sense roots.0 stack.now v.old }
    requires within { place < length stack.now }
    ensures good { IfOk result (λ _. Good V.sense roots.0 stack.now v.new) }
    ensures at { IfOk result (λ o. IfSome o (λ a. IsListAt (V.sense.heap v.new) a.0)) }
{
    match record_at(v, roots, stack, place)? {
        Some((a, Kind::List)) => Ok(Some(a)),
        _ => Ok(None),
    }
}

/// The list or tuple at a place of the stack.
pub fn sequence_at<S, V: View<S>>(
    v: &mut V,
    roots: Addr,
    stack: &Values,
    place: usize,
) -> Result<Option<Addr>, Stop>
    requires good { Good V.sense roots.0 stack.now v.old }
    requires within { place < length stack.now }
    ensures good { IfOk result (λ _. Good V.sense roots.0 stack.now v.new) }
    ensures at { IfOk result (λ o. IfSome o (λ a. IsSequenceAt (V.sense.heap v.new) a.0)) }
{
    match record_at(v, roots, stack, place)? {
        Some((a, Kind::List)) => Ok(Some(a)),
        Some((a, Kind::Tuple)) => Ok(Some(a)),
        _ => Ok(None),
    }
}

/// The dictionary at a place of the stack.
pub fn dict_at<S, V: View<S>>(
    v: &mut V,
    roots: Addr,
    stack: &Values,
    place: usize,
) -> Result<Option<Addr>, Stop>
    requires good { Good V.sense roots.0 stack.now v.old }
    requires within { place < length stack.now }
    ensures good { IfOk result (λ _. Good V.sense roots.0 stack.now v.new) }
    ensures at { IfOk result (λ o. IfSome o (λ d. IsDictAt (V.sense.heap v.new) d.0)) }
    ensures same { IfOk result (λ _. V.sense.heap v.new ≡ V.sense.heap v.old) }
{
    match record_at(v, roots, stack, place)? {
        Some((a, Kind::Dict)) => Ok(Some(a)),
        _ => Ok(None),
    }
}

/// The iterator at a place of the stack.
pub fn iter_at<S, V: View<S>>(
    v: &mut V,
    roots: Addr,
    stack: &Values,
    place: usize,
) -> Result<Option<Addr>, Stop>
    requires good { Good V.sense roots.0 stack.now v.old }
    requires within { place < length stack.now }
    ensures good { IfOk result (λ _. Good V.sense roots.0 stack.now v.new) }
    ensures at { IfOk result (λ o. IfSome o (λ it. IsIterAt (V.sense.heap v.new) it.0)) }
{
    match record_at(v, roots, stack, place)? {
        Some((a, Kind::Iter)) => Ok(Some(a)),
        _ => Ok(None),
    }
}

/// The string at a place of the stack.
pub fn str_at<S, V: View<S>>(
    v: &mut V,
    roots: Addr,
    stack: &Values,
    place: usize,
) -> Result<Option<Addr>, Stop>
    requires good { Good V.sense roots.0 stack.now v.old }
    requires within { place < length stack.now }
    ensures good { IfOk result (λ _. Good V.sense roots.0 stack.now v.new) }
    ensures at { IfOk result (λ o. IfSome o (λ a. IsStrAt (V.sense.heap v.new) a.0)) }
    ensures same { IfOk result (λ _. V.sense.heap v.new ≡ V.sense.heap v.old) }
{
    match record_at(v, roots, stack, place)? {
        Some((a, Kind::Str)) => Ok(Some(a)),
        _ => Ok(None),
    }
}

/// The tuple at a place of the stack.
pub fn tuple_at<S, V: View<S>>(
    v: &mut V,
    roots: Addr,
    stack: &Values,
    place: usize,
) -> Result<Option<Addr>, Stop>
    requires good { Good V.sense roots.0 stack.now v.old }
    requires within { place < length stack.now }
    ensures good { IfOk result (λ _. Good V.sense roots.0 stack.now v.new) }
    ensures at { IfOk result (λ o. IfSome o (λ a. IsTupleAt (V.sense.heap v.new) a.0)) }
    ensures same { IfOk result (λ _. V.sense.heap v.new ≡ V.sense.heap v.old) }
{
    match record_at(v, roots, stack, place)? {
        Some((a, Kind::Tuple)) => Ok(Some(a)),
        _ => Ok(None),
    }
}

/// The class at a place of the stack.
pub fn class_at<S, V: View<S>>(
    v: &mut V,
    roots: Addr,
    stack: &Values,
    place: usize,
) -> Result<Option<Addr>, Stop>
    requires good { Good V.sense roots.0 stack.now v.old }
    requires within { place < length stack.now }
    ensures good { IfOk result (λ _. Good V.sense roots.0 stack.now v.new) }
    ensures at { IfOk result (λ o. IfSome o (λ a. IsClassAt (V.sense.heap v.new) a.0)) }
    ensures same { IfOk result (λ _. V.sense.heap v.new ≡ V.sense.heap v.old) }
{
    match record_at(v, roots, stack, place)? {
        Some((a, Kind::Class)) => Ok(Some(a)),
        _ => Ok(None),
    }
}

/// A class as a base.
fn base_of(c: Option<Addr>) -> Option<Value>
    ensures { result ≡ option_map Ref c }
{
    match c {
        Some(a) => Some(Value::Ref(a)),
        None => None,
    }
}

/// The base at a place of the stack: a class, or None.
pub fn base_at<S, V: View<S>>(
    v: &mut V,
    roots: Addr,
    stack: &Values,
    place: usize,
) -> Result<Option<Value>, Stop>
    requires good { Good V.sense roots.0 stack.now v.old }
    requires within { place < length stack.now }
    ensures good { IfOk result (λ _. Good V.sense roots.0 stack.now v.new) }
    ensures at { IfOk result (λ o. IfSome o (NoneOr (RefTo (V.sense.heap v.new) Class))) }
    ensures same { IfOk result (λ _. V.sense.heap v.new ≡ V.sense.heap v.old) }
{
    match stack.at(place) {
        Value::None => Ok(Some(Value::None)),
        _ => {
            let c = class_at(v, roots, stack, place)?;
            Ok(base_of(c))
        }
    }
}
