//! The operations over a view whose heap is in order: each is called with values of a stack, and leaves the heap in
//! order and the values of the stack in it.
ghost use Rattle.std.specs.Prelude.{◌≡◌, ◌<◌, ◌≤◌, length, IfOk, IfSome, [], ◌∷◌};
ghost use Rattle.py_base.specs.declared.kind.Kind.TheVariants.{List as ListKind, Str};
ghost use Rattle.py_data.specs.declared.record.TheConstants.{LENGTH_LIMIT};
ghost use Rattle.py_data.specs.Answers.{IsAnswer, IsDone, IsGot, IfItem, IsSequenceKind};
ghost use Rattle.py_data.specs.Shape.{KindIn};
ghost use Rattle.obj_seq.specs.HoldsLaws.{AreItems, IsListAt, IsSequenceAt, IsIterAt, IsIterator};
ghost use Rattle.obj_dict.specs.HoldsLaws.{IsDictAt};
ghost use Rattle.obj_str.specs.HoldsLaws.{IsStrAt};
ghost use Rattle.obj_bench.specs.Bench.{Good, GoodWith};

use obj_dict::Part;
use obj_str::bytes_of;
use py_data::{Addr, Bytes, Got, Kind, Stop, Value, Values, View};
use std::alloc::Global;

/// The record that a value of the stack refers to, with its kind.
pub fn record_at<S, V: View<S>>(
    v: &mut V,
    roots: Addr,
    stack: &Values,
    place: usize,
) -> Result<Option<(Addr, Kind)>, Stop>
    requires good { Good V.sense roots.0 stack.now v.old }
    requires within { place < length stack.now }
    ensures good { IfOk result (λ _. Good V.sense roots.0 stack.now v.new) }
    ensures kind { IfOk result (λ o. IfSome o (λ p. KindIn (V.sense.heap v.new p.0.0) (λ k. k ≡ p.1))) }
    ensures same { IfOk result (λ _. V.sense.heap v.new ≡ V.sense.heap v.old) }
{
    match stack.at(place) {
        Value::Ref(a) => {
            let kind = v.kind(a)?;
            Ok(Some((a, kind)))
        }
        _ => Ok(None),
    }
}

/// An item of a list or tuple.
pub fn item<S, V: View<S>>(
    alloc: Global,
    v: &mut V,
    roots: Addr,
    stack: &Values,
    a: Addr,
    i: i64,
) -> Result<Got<Value>, Stop>
    requires good { Good V.sense roots.0 stack.now v.old }
    requires at { IsSequenceAt (V.sense.heap v.old) a.0 }
    ensures { IfOk result (λ g. GoodWith V.sense roots.0 IsAnswer stack.now g v.new) }
{
    let got = obj_seq::item(alloc, v, a, i)?;
    Ok(got)
}

/// How a value is put into a list.
#[derive(Clone, Copy, Debug, Drop)]
pub enum Putting {
    /// In the place of an item.
    Over,
    /// Before an item, or at the end.
    Before,
}

/// Puts a value of the stack into a list, at an index.
pub fn put<S, V: View<S>>(
    alloc: Global,
    v: &mut V,
    roots: Addr,
    stack: &Values,
    how: Putting,
    a: Addr,
    i: i64,
    place: usize,
) -> Result<Got<()>, Stop>
    requires good { Good V.sense roots.0 stack.now v.old }
    requires at { IsListAt (V.sense.heap v.old) a.0 }
    requires place { place < length stack.now }
    ensures { IfOk result (λ g. GoodWith V.sense roots.0 IsDone stack.now g v.new) }
{
    let x = stack.at(place);
    match how {
        Putting::Over => {
            let got = obj_seq::set_item(alloc, v, a, i, x)?;
            Ok(got)
        }
        Putting::Before => {
            let got = obj_seq::insert(v, a, i, x)?;
            Ok(got)
        }
    }
}

/// Takes an item out of a list.
pub fn del_item<S, V: View<S>>(
    alloc: Global,
    v: &mut V,
    roots: Addr,
    stack: &Values,
    a: Addr,
    i: i64,
) -> Result<Got<()>, Stop>
    requires good { Good V.sense roots.0 stack.now v.old }
    requires at { IsListAt (V.sense.heap v.old) a.0 }
    ensures { IfOk result (λ g. GoodWith V.sense roots.0 IsDone stack.now g v.new) }
{
    let got = obj_seq::del_item(alloc, v, a, i)?;
    Ok(got)
}

/// Takes an item out of a list, and answers it.
pub fn pop<S, V: View<S>>(
    alloc: Global,
    v: &mut V,
    roots: Addr,
    stack: &Values,
    a: Addr,
    i: i64,
) -> Result<Got<Value>, Stop>
    requires good { Good V.sense roots.0 stack.now v.old }
    requires at { IsListAt (V.sense.heap v.old) a.0 }
    ensures { IfOk result (λ g. GoodWith V.sense roots.0 IsAnswer stack.now g v.new) }
{
    let got = obj_seq::pop(alloc, v, a, i)?;
    Ok(got)
}

/// A slice of a list or tuple.
pub fn slice<S, V: View<S>>(
    alloc: Global,
    v: &mut V,
    roots: Addr,
    stack: &Values,
    a: Addr,
    from: Option<i64>,
    to: Option<i64>,
) -> Result<Got<Value>, Stop>
    requires good { Good V.sense roots.0 stack.now v.old }
    requires at { IsSequenceAt (V.sense.heap v.old) a.0 }
    ensures { IfOk result (λ g. GoodWith V.sense roots.0 IsAnswer stack.now g v.new) }
{
    let got = obj_seq::slice(alloc, v, a, from, to)?;
    Ok(got)
}

/// The next item of an iterator.
pub fn next<S, V: View<S>>(
    alloc: Global,
    v: &mut V,
    roots: Addr,
    stack: &Values,
    a: Addr,
) -> Result<Got<Option<Value>>, Stop>
    requires good { Good V.sense roots.0 stack.now v.old }
    requires at { IsIterAt (V.sense.heap v.old) a.0 }
    ensures { IfOk result (λ g. GoodWith V.sense roots.0 (IsGot IfItem) stack.now g v.new) }
{
    let got = obj_seq::next(alloc, v, a)?;
    Ok(got)
}

/// The value that a dictionary has for a key.
pub fn get<S, V: View<S>>(
    alloc: Global,
    v: &mut V,
    roots: Addr,
    stack: &Values,
    a: Addr,
    place: usize,
) -> Result<Got<Option<Value>>, Stop>
    requires good { Good V.sense roots.0 stack.now v.old }
    requires at { IsDictAt (V.sense.heap v.old) a.0 }
    requires place { place < length stack.now }
    ensures { IfOk result (λ g. GoodWith V.sense roots.0 (IsGot IfItem) stack.now g v.new) }
{
    let got = obj_dict::get(alloc, v, a, stack.at(place))?;
    Ok(got)
}

/// Sets the value of a key.
pub fn set<S, V: View<S>>(
    alloc: Global,
    v: &mut V,
    roots: Addr,
    stack: &Values,
    a: Addr,
    place: usize,
    value: usize,
) -> Result<Got<()>, Stop>
    requires good { Good V.sense roots.0 stack.now v.old }
    requires at { IsDictAt (V.sense.heap v.old) a.0 }
    requires place { place < length stack.now }
    requires value { value < length stack.now }
    ensures { IfOk result (λ g. GoodWith V.sense roots.0 IsDone stack.now g v.new) }
{
    let got = obj_dict::set(alloc, v, a, stack.at(place), stack.at(value))?;
    Ok(got)
}

/// Takes out the pair of a key.
pub fn del<S, V: View<S>>(
    alloc: Global,
    v: &mut V,
    roots: Addr,
    stack: &Values,
    a: Addr,
    place: usize,
) -> Result<Got<Value>, Stop>
    requires good { Good V.sense roots.0 stack.now v.old }
    requires at { IsDictAt (V.sense.heap v.old) a.0 }
    requires place { place < length stack.now }
    ensures { IfOk result (λ g. GoodWith V.sense roots.0 IsAnswer stack.now g v.new) }
{
    let got = obj_dict::del(alloc, v, a, stack.at(place))?;
    Ok(got)
}

/// A list of what a dictionary has.
pub fn list_of<S, V: View<S>>(
    alloc: Global,
    v: &mut V,
    roots: Addr,
    stack: &Values,
    a: Addr,
    part: Part,
) -> Result<Got<Value>, Stop>
    requires good { Good V.sense roots.0 stack.now v.old }
    requires at { IsDictAt (V.sense.heap v.old) a.0 }
    ensures { IfOk result (λ g. GoodWith V.sense roots.0 IsAnswer stack.now g v.new) }
{
    let got = obj_dict::list_of(alloc, v, a, part)?;
    Ok(got)
}

/// Turns a list round.
pub fn reverse<S, V: View<S>>(
    alloc: Global,
    v: &mut V,
    roots: Addr,
    stack: &Values,
    a: Addr,
) -> Result<(), Stop>
    requires good { Good V.sense roots.0 stack.now v.old }
    requires at { IsListAt (V.sense.heap v.old) a.0 }
    ensures { IfOk result (λ _. Good V.sense roots.0 stack.now v.new) }
{
    obj_seq::reverse(alloc, v, a)?;
    Ok(())
}

/// An iterator over a value of the stack.
pub fn make_iter<S, V: View<S>>(
    alloc: Global,
    v: &mut V,
    roots: Addr,
    stack: &Values,
    place: usize,
) -> Result<Got<Value>, Stop>
    requires good { Good V.sense roots.0 stack.now v.old }
    requires place { place < length stack.now }
    ensures { IfOk result (λ g. GoodWith V.sense roots.0 (IsGot IsIterator) stack.now g v.new) }
{
    let got = obj_seq::make_iter(alloc, v, stack.at(place))?;
    Ok(got)
}

/// All items of a value of the stack.
pub fn gather<S, V: View<S>>(
    alloc: Global,
    v: &mut V,
    roots: Addr,
    stack: &Values,
    place: usize,
) -> Result<Got<Values>, Stop>
    requires good { Good V.sense roots.0 stack.now v.old }
    requires place { place < length stack.now }
    ensures { IfOk result (λ g. GoodWith V.sense roots.0 (IsGot AreItems) stack.now g v.new) }
{
    let got = obj_seq::gather(alloc, v, stack.at(place))?;
    Ok(got)
}

/// The length of a string.
fn text_size<S, V: View<S>>(v: &mut V, roots: Addr, stack: &Values, a: Addr) -> Result<usize, Stop>
    requires good { Good V.sense roots.0 stack.now v.old }
    requires at { IsStrAt (V.sense.heap v.old) a.0 }
    ensures { IfOk result (λ _. Good V.sense roots.0 stack.now v.new) }
{
    let n = v.byte_len(a)?;
    Ok(n)
}

/// How many values a record of a kind has, or pairs.
fn record_size<S, V: View<S>>(
    v: &mut V,
    roots: Addr,
    stack: &Values,
    a: Addr,
    kind: Kind,
) -> Result<usize, Stop>
    requires good { Good V.sense roots.0 stack.now v.old }
    requires at { KindIn (V.sense.heap v.old a.0) (λ k. k ≡ kind) }
    ensures { IfOk result (λ _. Good V.sense roots.0 stack.now v.new) }
{
    let n = v.len(a)?;
    match kind {
        Kind::Dict => Ok(n / 2),
        _ => Ok(n),
    }
}

/// The length of a record of the stack: of its bytes, its pairs or its values.
pub fn size_at<S, V: View<S>>(
    v: &mut V,
    roots: Addr,
    stack: &Values,
    place: usize,
) -> Result<Option<usize>, Stop>
    requires good { Good V.sense roots.0 stack.now v.old }
    requires within { place < length stack.now }
    ensures { IfOk result (λ _. Good V.sense roots.0 stack.now v.new) }
{
    match record_at(v, roots, stack, place)? {
        Some((a, Kind::Str)) => {
            let n = text_size(v, roots, stack, a)?;
            Ok(Some(n))
        }
        Some((a, kind)) => {
            let n = record_size(v, roots, stack, a, kind)?;
            Ok(Some(n))
        }
        None => Ok(None),
    }
}

/// The bytes of a string.
pub fn bytes_in<S, V: View<S>>(
    alloc: Global,
    v: &mut V,
    roots: Addr,
    stack: &Values,
    a: Addr,
) -> Result<Bytes, Stop>
    requires good { Good V.sense roots.0 stack.now v.old }
    requires at { IsStrAt (V.sense.heap v.old) a.0 }
    ensures { IfOk result (λ _. Good V.sense roots.0 stack.now v.new) }
{
    let text = bytes_of(alloc, v, a)?;
    let bytes = text.to_bytes(alloc)?;
    Ok(bytes)
}
