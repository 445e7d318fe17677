//! The pair of a dictionary with an equal key.
ghost use Rattle.std.specs.Prelude.{◌≡◌, ◌+◌, ◌*◌, ◌<◌, length, IfSome, MatchOption, None, Some, option_copied};
ghost use Rattle.py_data.specs.Heap.{Heap};
ghost use Rattle.py_data.specs.Shape.{find, same_key, text_in};

use crate::entry::Entry;
use crate::value::Value;
use py_base::Kind;

/// Records that can be looked up by their addresses.
pub trait Records {
    ghost records: { Self → Heap };

    /// The record at an address, if one is there.
    fn record(&self, a: u32) -> Option<&Entry>
        ensures { option_copied result ≡ records self.now a };
}

/// The bytes of the string at an address, if a string is there.
fn text<R: Records>(heap: &R, a: u32) -> Option<&[u8]>
    ensures { MatchOption result (text_in (R.records heap.now a) ≡ None)
        (λ b. text_in (R.records heap.now a) ≡ Some b.now) }
{
    match heap.record(a) {
        Some(r) => match r.kind() {
            Kind::Str => Some(r.bytes()),
            _ => None,
        },
        None => None,
    }
}

/// Two keys are equal.
fn same<R: Records>(heap: &R, x: Value, y: Value) -> bool
    ensures { result ≡ same_key (R.records heap.now) x y }
{
    match (x, y) {
        (Value::Int(i), Value::Int(j)) => i == j,
        (Value::Int(i), Value::Bool(b)) => i == b as i64,
        (Value::Bool(b), Value::Int(j)) => b as i64 == j,
        (Value::Bool(b), Value::Bool(c)) => b as i64 == c as i64,
        (Value::None, Value::None) => true,
        (Value::Builtin(i), Value::Builtin(j)) => i == j,
        (Value::Ref(a), Value::Ref(b)) => match (text(heap, a.0), text(heap, b.0)) {
            (Some(xs), Some(ys)) => xs == ys,
            _ => a.0 == b.0,
        },
        _ => false,
    }
}

/// The number, from 0, of the first pair whose key is equal. It goes through the pairs one after another.
pub fn find_pair<R: Records>(heap: &R, values: &[Value], key: Value) -> Option<usize>
    ensures found { result ≡ find (R.records heap.now) values.now key }
    ensures within { IfSome result (λ i. 2 * i + 1 < length values.now) }
{
    for n in 0..values.len() / 2 {
        if same(heap, values[2 * n], key) {
            return Some(n);
        }
    }
    None
}
