//! Items and slices.
ghost use Rattle.std.specs.Prelude.{◌≡◌, length, MatchResult};
ghost use Rattle.py_data.specs.declared.record.Got.TheVariants.{Is};
ghost use Rattle.py_data.specs.declared.stop.Stop.TheVariants.{OutOfMemory};
ghost use Rattle.py_data.specs.declared.value.Value.TheVariants.{Ref};
ghost use Rattle.py_data.specs.Texts.{got_then};
ghost use Rattle.py_data.specs.Sense.{Meets, Safe, IsLive};
ghost use Rattle.obj_seq.specs.Seq as seq;
ghost use Rattle.py_frames.specs.ItemRows as rows;

use obj_nest::number_of;
use obj_seq::{del_item as del_place, item, set_item as set_place, slice};
use obj_str::{bytes_of, make_str};
use py_base::{first, skip};
use py_data::exception::{INDEX_ERROR, KEY_ERROR, TYPE_ERROR, raise};
use py_data::{Addr, Fault, Got, Kind, Stop, Value, View, With, kind};
use py_frames::Next;
use py_parts::{done, give};
use std::alloc::Global;

/// The place of an index among `n` items, if it has one. A negative index counts from the end.
fn place_of(i: i64, n: usize) -> Option<usize>
    ensures { result ≡ seq.place i n }
{
    if i >= 0 {
        let k = i as usize;
        if k < n { Some(k) } else { None }
    } else {
        let back = (-(i + 1)) as usize;
        if back < n { Some(n - back - 1) } else { None }
    }
}

/// Where a bound falls among `n` items: it is cut to what there is.
fn bound_of(i: i64, n: usize) -> usize
    ensures { result ≡ seq.bound i n }
{
    if i >= 0 {
        (i as usize).min(n)
    } else {
        n.saturating_sub((-(i + 1)) as usize + 1)
    }
}

/// The same of a bound that may be missing, and is then at `d`.
fn bound_or(i: Option<i64>, d: usize, n: usize) -> usize
    ensures { result ≡ seq.bound_or i d n }
{
    match i {
        Some(i) => bound_of(i, n),
        None => d,
    }
}

/// The bytes from one place up to another.
fn bytes_part(text: &[u8], i: usize, j: usize) -> &[u8]
    ensures { result.now ≡ rows.bytes_part text.now i j }
{
    first(skip(text, i), j.saturating_sub(i))
}

/// A new string of the byte at a place. IndexError where there is none.
#[tactic(auto, using(py_data::proofs::Rows::row_steps), unfolding(py_frames::specs::ItemRows::byte_row))]
fn byte_row<S, V: View<S>>(
    alloc: Global,
    v: &mut V,
    text: &[u8],
    place: Option<usize>,
) -> Result<Got<Value>, Stop>
    requires live { IsLive V.sense v.old }
    requires safe { Safe V.sense.partial (rows.byte_row {S = S} text.now place) (V.sense.heap v.old) }
    ensures { Meets V.sense (rows.byte_row text.now place) v.old v.new result }
{
    match place {
        Some(k) => make_str(alloc, v, first(skip(text, k), 1)),
        None => raise(alloc, INDEX_ERROR, b"index out of range"),
    }
}

/// The byte of a text at an index.
#[tactic(auto, using(py_data::proofs::Rows::row_steps))]
fn byte_in<S, V: View<S>>(alloc: Global, v: &mut V, text: &[u8], i: i64) -> Result<Got<Value>, Stop>
    requires live { IsLive V.sense v.old }
    requires safe { Safe V.sense.partial (rows.byte_row {S = S} text.now (seq.place i (length text.now)))
        (V.sense.heap v.old) }
    ensures { Meets V.sense (rows.byte_row text.now (seq.place i (length text.now))) v.old v.new result }
{
    byte_row(alloc, v, text, place_of(i, text.len()))
}

/// The byte of a string at an index.
#[tactic(auto, using(py_data::proofs::Rows::row_steps, py_data::proofs::Steps::call_steps), unfolding(py_frames::specs::ItemRows::byte_item_row))]
fn byte_item_row<S, V: View<S>>(
    alloc: Global,
    v: &mut V,
    a: Addr,
    i: i64,
) -> Result<Got<Value>, Stop>
    requires live { IsLive V.sense v.old }
    requires safe { Safe V.sense.partial (rows.byte_item_row {S = S} a.0 i) (V.sense.heap v.old) }
    ensures { Meets V.sense (rows.byte_item_row a.0 i) v.old v.new result }
{
    let text = bytes_of(alloc, v, a)?;
    byte_in(alloc, v, text.as_slice(), i)
}

/// The byte of a string, where the index is a number.
#[tactic(auto, using(py_data::proofs::Rows::row_steps), unfolding(py_frames::specs::ItemRows::text_item))]
fn text_item<S, V: View<S>>(
    alloc: Global,
    v: &mut V,
    a: Addr,
    i: Option<i64>,
) -> Result<Got<Value>, Stop>
    requires live { IsLive V.sense v.old }
    requires safe { Safe V.sense.partial (rows.text_item {S = S} a.0 i) (V.sense.heap v.old) }
    ensures { Meets V.sense (rows.text_item a.0 i) v.old v.new result }
{
    match i {
        Some(i) => byte_item_row(alloc, v, a, i),
        None => raise(alloc, TYPE_ERROR, b"unsupported operand"),
    }
}

/// The item of a list or a tuple, where the index is a number.
#[tactic(auto, using(py_data::proofs::Rows::row_steps), unfolding(py_frames::specs::ItemRows::list_item))]
fn list_item<S, V: View<S>>(
    alloc: Global,
    v: &mut V,
    a: Addr,
    i: Option<i64>,
) -> Result<Got<Value>, Stop>
    requires live { IsLive V.sense v.old }
    requires safe { Safe V.sense.partial (rows.list_item {S = S} a.0 i) (V.sense.heap v.old) }
    ensures { Meets V.sense (rows.list_item a.0 i) v.old v.new result }
{
    match i {
        Some(i) => item(alloc, v, a, i),
        None => raise(alloc, TYPE_ERROR, b"unsupported operand"),
    }
}

/// What a dictionary has for a key. KeyError where it has nothing.
#[tactic(auto, unfolding(py_frames::specs::ItemRows::value_or_key))]
fn value_or_key(key: Value, got: Got<Option<Value>>) -> Got<Value>
    ensures { result ≡ rows.value_or_key key got }
{
    match got {
        Got::Is(Some(x)) => Got::Is(x),
        Got::Is(None) => Got::Raise(Fault {
            exc: KEY_ERROR,
            with: With::Held(key),
        }),
        Got::Raise(e) => Got::Raise(e),
    }
}

/// The value of a dictionary by a key.
#[tactic(auto, using(py_data::proofs::Rows::row_steps, py_data::proofs::Steps::call_steps), unfolding(py_frames::specs::ItemRows::dict_item))]
fn dict_item<S, V: View<S>>(
    alloc: Global,
    v: &mut V,
    d: Addr,
    key: Value,
) -> Result<Got<Value>, Stop>
    requires live { IsLive V.sense v.old }
    requires safe { Safe V.sense.partial (rows.dict_item {S = S} d.0 key) (V.sense.heap v.old) }
    ensures { Meets V.sense (rows.dict_item d.0 key) v.old v.new result }
{
    let got = obj_dict::get(alloc, v, d, key)?;
    Ok(value_or_key(key, got))
}

/// What a record of a kind has by an index.
#[tactic(auto, using(py_data::proofs::Rows::row_steps), unfolding(py_frames::specs::ItemRows::item_by))]
fn item_by<S, V: View<S>>(
    alloc: Global,
    v: &mut V,
    a: Addr,
    i: Value,
    kind: Kind,
) -> Result<Got<Value>, Stop>
    requires live { IsLive V.sense v.old }
    requires safe { Safe V.sense.partial (rows.item_by {S = S} a.0 i kind) (V.sense.heap v.old) }
    ensures { Meets V.sense (rows.item_by a.0 i kind) v.old v.new result }
{
    match kind {
        Kind::Str => text_item(alloc, v, a, number_of(i)),
        Kind::Tuple => list_item(alloc, v, a, number_of(i)),
        Kind::List => list_item(alloc, v, a, number_of(i)),
        Kind::Dict => dict_item(alloc, v, a, i),
        _ => raise(alloc, TYPE_ERROR, b"unsupported operand"),
    }
}

/// What a record has by an index.
#[tactic(auto, using(py_data::proofs::Rows::row_steps, py_data::proofs::Steps::call_steps), unfolding(py_frames::specs::ItemRows::item_of))]
fn item_at<S, V: View<S>>(alloc: Global, v: &mut V, a: Addr, i: Value) -> Result<Got<Value>, Stop>
    requires live { IsLive V.sense v.old }
    requires safe { Safe V.sense.partial (rows.item_of {S = S} (Ref a) i) (V.sense.heap v.old) }
    ensures { Meets V.sense (rows.item_of (Ref a) i) v.old v.new result }
{
    let kind = kind(v, a)?;
    item_by(alloc, v, a, i, kind)
}

/// What a value has by an index.
#[tactic(auto, using(py_data::proofs::Rows::row_steps), unfolding(py_frames::specs::ItemRows::item_of))]
pub fn item_of<S, V: View<S>>(
    alloc: Global,
    v: &mut V,
    o: Value,
    i: Value,
) -> Result<Got<Value>, Stop>
    requires live { IsLive V.sense v.old }
    requires safe { Safe V.sense.partial (rows.item_of {S = S} o i) (V.sense.heap v.old) }
    ensures { Meets V.sense (rows.item_of o i) v.old v.new result }
{
    match o {
        Value::Ref(a) => item_at(alloc, v, a, i),
        _ => raise(alloc, TYPE_ERROR, b"unsupported operand"),
    }
}

/// LOAD_ITEM: an item of a list or a tuple and a byte of a string by an index, a value of a dictionary by a key.
#[tactic(auto, using(py_data::proofs::Rows::row_steps, py_data::proofs::Steps::call_steps), unfolding(py_frames::specs::ItemRows::load_item_row))]
pub fn load_item_row<S, V: View<S>>(
    alloc: Global,
    v: &mut V,
    roots: Addr,
    o: Value,
    i: Value,
) -> Result<Next, Stop>
    requires live { IsLive V.sense v.old }
    requires safe { Safe V.sense.partial (rows.load_item_row {S = S} roots.0 o i) (V.sense.heap v.old) }
    ensures { Meets V.sense (rows.load_item_row roots.0 o i) v.old v.new result }
{
    let got = item_of(alloc, v, o, i)?;
    give(alloc, v, roots, got)
}

/// Sets the item of a list, where the index is a number.
#[tactic(auto, using(py_data::proofs::Rows::row_steps), unfolding(py_frames::specs::ItemRows::set_list_item))]
fn set_list_item<S, V: View<S>>(
    alloc: Global,
    v: &mut V,
    a: Addr,
    x: Value,
    i: Option<i64>,
) -> Result<Got<()>, Stop>
    requires live { IsLive V.sense v.old }
    requires safe { Safe V.sense.partial (rows.set_list_item {S = S} a.0 x i) (V.sense.heap v.old) }
    ensures { Meets V.sense (rows.set_list_item a.0 x i) v.old v.new result }
{
    match i {
        Some(i) => set_place(alloc, v, a, i, x),
        None => raise(alloc, TYPE_ERROR, b"unsupported operand"),
    }
}

/// Sets what a record of a kind has by an index.
#[tactic(auto, using(py_data::proofs::Rows::row_steps), unfolding(py_frames::specs::ItemRows::set_by))]
fn set_by<S, V: View<S>>(
    alloc: Global,
    v: &mut V,
    a: Addr,
    i: Value,
    x: Value,
    kind: Kind,
) -> Result<Got<()>, Stop>
    requires live { IsLive V.sense v.old }
    requires safe { Safe V.sense.partial (rows.set_by {S = S} a.0 i x kind) (V.sense.heap v.old) }
    ensures { Meets V.sense (rows.set_by a.0 i x kind) v.old v.new result }
{
    match kind {
        Kind::List => set_list_item(alloc, v, a, x, number_of(i)),
        Kind::Dict => obj_dict::set(alloc, v, a, i, x),
        _ => raise(alloc, TYPE_ERROR, b"unsupported operand"),
    }
}

/// Sets what a record has by an index.
#[tactic(auto, using(py_data::proofs::Rows::row_steps, py_data::proofs::Steps::call_steps), unfolding(py_frames::specs::ItemRows::set_item))]
fn set_at<S, V: View<S>>(
    alloc: Global,
    v: &mut V,
    a: Addr,
    i: Value,
    x: Value,
) -> Result<Got<()>, Stop>
    requires live { IsLive V.sense v.old }
    requires safe { Safe V.sense.partial (rows.set_item {S = S} (Ref a) i x) (V.sense.heap v.old) }
    ensures { Meets V.sense (rows.set_item (Ref a) i x) v.old v.new result }
{
    let kind = kind(v, a)?;
    set_by(alloc, v, a, i, x, kind)
}

/// Sets what a value has by an index.
#[tactic(auto, using(py_data::proofs::Rows::row_steps), unfolding(py_frames::specs::ItemRows::set_item))]
pub fn set_item<S, V: View<S>>(
    alloc: Global,
    v: &mut V,
    o: Value,
    i: Value,
    x: Value,
) -> Result<Got<()>, Stop>
    requires live { IsLive V.sense v.old }
    requires safe { Safe V.sense.partial (rows.set_item {S = S} o i x) (V.sense.heap v.old) }
    ensures { Meets V.sense (rows.set_item o i x) v.old v.new result }
{
    match o {
        Value::Ref(a) => set_at(alloc, v, a, i, x),
        _ => raise(alloc, TYPE_ERROR, b"unsupported operand"),
    }
}

/// STORE_ITEM: the value `x` becomes that of `o` by the index `i`.
#[tactic(auto, using(py_data::proofs::Rows::row_steps, py_data::proofs::Steps::call_steps), unfolding(py_frames::specs::ItemRows::store_item_row))]
pub fn store_item_row<S, V: View<S>>(
    alloc: Global,
    v: &mut V,
    roots: Addr,
    x: Value,
    o: Value,
    i: Value,
) -> Result<Next, Stop>
    requires live { IsLive V.sense v.old }
    requires safe { Safe V.sense.partial (rows.store_item_row {S = S} roots.0 x o i) (V.sense.heap v.old) }
    ensures { Meets V.sense (rows.store_item_row roots.0 x o i) v.old v.new result }
{
    let got = set_item(alloc, v, o, i, x)?;
    done(alloc, v, roots, got)
}

/// Takes the item of a list out, where the index is a number.
#[tactic(auto, using(py_data::proofs::Rows::row_steps), unfolding(py_frames::specs::ItemRows::del_list_item))]
fn del_list_item<S, V: View<S>>(
    alloc: Global,
    v: &mut V,
    a: Addr,
    i: Option<i64>,
) -> Result<Got<()>, Stop>
    requires live { IsLive V.sense v.old }
    requires safe { Safe V.sense.partial (rows.del_list_item {S = S} a.0 i) (V.sense.heap v.old) }
    ensures { Meets V.sense (rows.del_list_item a.0 i) v.old v.new result }
{
    match i {
        Some(i) => del_place(alloc, v, a, i),
        None => raise(alloc, TYPE_ERROR, b"unsupported operand"),
    }
}

/// What was taken out isn't wanted.
fn forgotten(got: Got<Value>) -> Got<()>
    ensures { result ≡ got_then got (λ x. Is tt) }
{
    match got {
        Got::Is(_) => Got::Is(()),
        Got::Raise(e) => Got::Raise(e),
    }
}

/// Takes the pair of a key out of a dictionary.
#[tactic(auto, using(py_data::proofs::Rows::row_steps, py_data::proofs::Steps::call_steps), unfolding(py_frames::specs::ItemRows::del_key))]
fn del_key<S, V: View<S>>(alloc: Global, v: &mut V, d: Addr, key: Value) -> Result<Got<()>, Stop>
    requires live { IsLive V.sense v.old }
    requires safe { Safe V.sense.partial (rows.del_key {S = S} d.0 key) (V.sense.heap v.old) }
    ensures { Meets V.sense (rows.del_key d.0 key) v.old v.new result }
{
    let got = obj_dict::del(alloc, v, d, key)?;
    Ok(forgotten(got))
}

/// Takes out what a record of a kind has by an index.
#[tactic(auto, using(py_data::proofs::Rows::row_steps), unfolding(py_frames::specs::ItemRows::del_by))]
fn del_by<S, V: View<S>>(
    alloc: Global,
    v: &mut V,
    a: Addr,
    i: Value,
    kind: Kind,
) -> Result<Got<()>, Stop>
    requires live { IsLive V.sense v.old }
    requires safe { Safe V.sense.partial (rows.del_by {S = S} a.0 i kind) (V.sense.heap v.old) }
    ensures { Meets V.sense (rows.del_by a.0 i kind) v.old v.new result }
{
    match kind {
        Kind::List => del_list_item(alloc, v, a, number_of(i)),
        Kind::Dict => del_key(alloc, v, a, i),
        _ => raise(alloc, TYPE_ERROR, b"unsupported operand"),
    }
}

/// Takes out what a record has by an index.
#[tactic(auto, using(py_data::proofs::Rows::row_steps, py_data::proofs::Steps::call_steps), unfolding(py_frames::specs::ItemRows::del_item))]
fn del_at<S, V: View<S>>(alloc: Global, v: &mut V, a: Addr, i: Value) -> Result<Got<()>, Stop>
    requires live { IsLive V.sense v.old }
    requires safe { Safe V.sense.partial (rows.del_item {S = S} (Ref a) i) (V.sense.heap v.old) }
    ensures { Meets V.sense (rows.del_item (Ref a) i) v.old v.new result }
{
    let kind = kind(v, a)?;
    del_by(alloc, v, a, i, kind)
}

/// Takes out what a value has by an index.
#[tactic(auto, using(py_data::proofs::Rows::row_steps), unfolding(py_frames::specs::ItemRows::del_item))]
fn del_item<S, V: View<S>>(alloc: Global, v: &mut V, o: Value, i: Value) -> Result<Got<()>, Stop>
    requires live { IsLive V.sense v.old }
    requires safe { Safe V.sense.partial (rows.del_item {S = S} o i) (V.sense.heap v.old) }
    ensures { Meets V.sense (rows.del_item o i) v.old v.new result }
{
    match o {
        Value::Ref(a) => del_at(alloc, v, a, i),
        _ => raise(alloc, TYPE_ERROR, b"unsupported operand"),
    }
}

/// DEL_ITEM: what `o` has by the index `i` is taken out.
#[tactic(auto, using(py_data::proofs::Rows::row_steps, py_data::proofs::Steps::call_steps), unfolding(py_frames::specs::ItemRows::del_item_instr))]
pub fn del_item_instr<S, V: View<S>>(
    alloc: Global,
    v: &mut V,
    roots: Addr,
    o: Value,
    i: Value,
) -> Result<Next, Stop>
    requires live { IsLive V.sense v.old }
    requires safe { Safe V.sense.partial (rows.del_item_instr {S = S} roots.0 o i) (V.sense.heap v.old) }
    ensures { Meets V.sense (rows.del_item_instr roots.0 o i) v.old v.new result }
{
    let got = del_item(alloc, v, o, i)?;
    done(alloc, v, roots, got)
}

/// A bound that is a number. TypeError for another value.
fn bound_by(alloc: Global, i: Option<i64>) -> Result<Got<Option<i64>>, Stop>
    ensures { MatchResult result (λ g. g ≡ rows.bound_by i) (λ e. e ≡ OutOfMemory) }
{
    match i {
        Some(i) => Ok(Got::Is(Some(i))),
        None => raise(alloc, TYPE_ERROR, b"unsupported operand"),
    }
}

/// A bound: a number, or None for the front or the end.
fn bound_in(alloc: Global, x: Value) -> Result<Got<Option<i64>>, Stop>
    ensures { MatchResult result (λ g. g ≡ rows.bound_in x) (λ e. e ≡ OutOfMemory) }
{
    match x {
        Value::None => Ok(Got::Is(None)),
        _ => bound_by(alloc, number_of(x)),
    }
}

/// A slice's two bounds, where the second isn't looked at yet.
fn with_second(
    alloc: Global,
    i: Option<i64>,
    y: Value,
) -> Result<Got<(Option<i64>, Option<i64>)>, Stop>
    ensures { MatchResult result (λ g. g ≡ got_then (rows.bound_in y) (λ j. Is (i, j))) (λ e. e ≡ OutOfMemory) }
{
    match bound_in(alloc, y)? {
        Got::Is(j) => Ok(Got::Is((i, j))),
        Got::Raise(e) => Ok(Got::Raise(e)),
    }
}

/// A slice's two bounds.
fn bounds_in(alloc: Global, x: Value, y: Value) -> Result<Got<(Option<i64>, Option<i64>)>, Stop>
    ensures { MatchResult result (λ g. g ≡ rows.bounds_in x y) (λ e. e ≡ OutOfMemory) }
{
    match bound_in(alloc, x)? {
        Got::Is(i) => with_second(alloc, i, y),
        Got::Raise(e) => Ok(Got::Raise(e)),
    }
}

/// A new string of the bytes from one bound up to another.
#[tactic(auto, using(py_data::proofs::Rows::row_steps, py_data::proofs::Steps::call_steps), unfolding(py_frames::specs::ItemRows::text_slice))]
fn text_slice<S, V: View<S>>(
    alloc: Global,
    v: &mut V,
    a: Addr,
    i: Option<i64>,
    j: Option<i64>,
) -> Result<Got<Value>, Stop>
    requires live { IsLive V.sense v.old }
    requires safe { Safe V.sense.partial (rows.text_slice {S = S} a.0 i j) (V.sense.heap v.old) }
    ensures { Meets V.sense (rows.text_slice a.0 i j) v.old v.new result }
{
    let text = bytes_of(alloc, v, a)?;
    let text = text.as_slice();
    let n = text.len();
    make_str(
        alloc,
        v,
        bytes_part(text, bound_or(i, 0, n), bound_or(j, n, n)),
    )
}

/// A slice of a record of a kind.
#[tactic(auto, using(py_data::proofs::Rows::row_steps), unfolding(py_frames::specs::ItemRows::slice_by))]
fn slice_by<S, V: View<S>>(
    alloc: Global,
    v: &mut V,
    a: Addr,
    bounds: (Option<i64>, Option<i64>),
    kind: Kind,
) -> Result<Got<Value>, Stop>
    requires live { IsLive V.sense v.old }
    requires safe { Safe V.sense.partial (rows.slice_by {S = S} a.0 bounds kind) (V.sense.heap v.old) }
    ensures { Meets V.sense (rows.slice_by a.0 bounds kind) v.old v.new result }
{
    match kind {
        Kind::Str => text_slice(alloc, v, a, bounds.0, bounds.1),
        Kind::Tuple => slice(alloc, v, a, bounds.0, bounds.1),
        Kind::List => slice(alloc, v, a, bounds.0, bounds.1),
        _ => raise(alloc, TYPE_ERROR, b"unsupported operand"),
    }
}

/// A slice of a record, where the bounds can be used.
#[tactic(auto, using(py_data::proofs::Rows::row_steps, py_data::proofs::Steps::call_steps), unfolding(py_frames::specs::ItemRows::slice_at))]
fn slice_within<S, V: View<S>>(
    alloc: Global,
    v: &mut V,
    a: Addr,
    bounds: (Option<i64>, Option<i64>),
) -> Result<Got<Value>, Stop>
    requires live { IsLive V.sense v.old }
    requires safe { Safe V.sense.partial (rows.slice_at {S = S} a.0 (Is bounds)) (V.sense.heap v.old) }
    ensures { Meets V.sense (rows.slice_at a.0 (Is bounds)) v.old v.new result }
{
    let kind = kind(v, a)?;
    slice_by(alloc, v, a, bounds, kind)
}

/// A slice of a record.
#[tactic(auto, using(py_data::proofs::Rows::row_steps), unfolding(py_frames::specs::ItemRows::slice_at))]
fn slice_at<S, V: View<S>>(
    alloc: Global,
    v: &mut V,
    a: Addr,
    bounds: Got<(Option<i64>, Option<i64>)>,
) -> Result<Got<Value>, Stop>
    requires live { IsLive V.sense v.old }
    requires safe { Safe V.sense.partial (rows.slice_at {S = S} a.0 bounds) (V.sense.heap v.old) }
    ensures { Meets V.sense (rows.slice_at a.0 bounds) v.old v.new result }
{
    match bounds {
        Got::Is(b) => slice_within(alloc, v, a, b),
        Got::Raise(e) => Ok(Got::Raise(e)),
    }
}

/// A slice of a value.
#[tactic(auto, using(py_data::proofs::Rows::row_steps), unfolding(py_frames::specs::ItemRows::slice_of))]
fn slice_of<S, V: View<S>>(
    alloc: Global,
    v: &mut V,
    o: Value,
    bounds: Got<(Option<i64>, Option<i64>)>,
) -> Result<Got<Value>, Stop>
    requires live { IsLive V.sense v.old }
    requires safe { Safe V.sense.partial (rows.slice_of {S = S} o bounds) (V.sense.heap v.old) }
    ensures { Meets V.sense (rows.slice_of o bounds) v.old v.new result }
{
    match o {
        Value::Ref(a) => slice_at(alloc, v, a, bounds),
        _ => raise(alloc, TYPE_ERROR, b"unsupported operand"),
    }
}

/// SLICE: a new string, list or tuple of what `o` has from the bound `i` up to the bound `j`.
#[tactic(auto, using(py_data::proofs::Rows::row_steps, py_data::proofs::Steps::call_steps), unfolding(py_frames::specs::ItemRows::slice_instr))]
pub fn slice_instr<S, V: View<S>>(
    alloc: Global,
    v: &mut V,
    roots: Addr,
    o: Value,
    i: Value,
    j: Value,
) -> Result<Next, Stop>
    requires live { IsLive V.sense v.old }
    requires safe { Safe V.sense.partial (rows.slice_instr {S = S} roots.0 o i j) (V.sense.heap v.old) }
    ensures { Meets V.sense (rows.slice_instr roots.0 o i j) v.old v.new result }
{
    let bounds = bounds_in(alloc, i, j)?;
    let got = slice_of(alloc, v, o, bounds)?;
    give(alloc, v, roots, got)
}
