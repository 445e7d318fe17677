//! Whether the records of a part of a heap can tell where a key stands.
ghost use Rattle.std.specs.Prelude.{◌≡◌, ◌↔◌, IsTrue, true};
ghost use Rattle.py_data.specs.Shape.{is_key_kind, IsKey, ArePairs};

use py_data::{Kind, Records, Value};

/// Records of this kind can be keys.
fn can_be_key(kind: Kind) -> bool
    ensures { result ≡ is_key_kind kind }
{
    match kind {
        Kind::Str => true,
        Kind::Function => true,
        Kind::Class => true,
        Kind::Instance => true,
        _ => false,
    }
}

/// A value is a possible key, and if it is the address of a record, that record is here.
fn is_key<R: Records>(heap: &R, x: Value) -> bool
    ensures { IsTrue result ↔ IsKey (R.records heap.now) x }
{
    match x {
        Value::Ref(a) => match heap.record(a.0) {
            Some(r) => can_be_key(r.kind()),
            None => false,
        },
        Value::Unset => false,
        _ => true,
    }
}

/// The values are pairs, and each key that is the address of a record has its record here.
fn are_pairs<R: Records>(heap: &R, values: &[Value]) -> bool
    ensures { IsTrue result ↔ ArePairs (R.records heap.now) values.now }
{
    for n in 0..values.len() / 2 {
        if !is_key(heap, values[2 * n]) {
            return false;
        }
    }
    values.len() % 2 == 0
}

/// Whether a key can be looked for among these pairs: the values are pairs, and the records of the key and of all keys
/// of theirs are here. It goes through the pairs once.
pub fn knows<R: Records>(heap: &R, values: &[Value], key: Value) -> bool
    ensures { IsTrue result ↔ (IsKey (R.records heap.now) key × ArePairs (R.records heap.now) values.now) }
{
    let keyed = is_key(heap, key);
    let paired = are_pairs(heap, values);
    keyed && paired
}
