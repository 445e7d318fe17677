//! Whether a value is true, over a committed heap.
ghost use Rattle.std.specs.Prelude.{◌≡◌, [], ◌∷◌, length, nat_lt};
ghost use Rattle.py_data.specs.declared.value.Value.TheVariants.{Ref};
ghost use Rattle.py_data.specs.Closed.{Refers};
ghost use Rattle.py_data.specs.Heap.{Has, at, value_at};
ghost use Rattle.py_data.specs.Range.{range_length};
ghost use Rattle.py_data.specs.Truth as truths;
ghost use Rattle.py_step.specs.inner.Peeked.{AreClosed};

use py_data::{Addr, Kind, Peek, Value};

/// Whether a range has an item.
fn goes_on(start: i64, stop: i64, step: i64) -> bool
    ensures { result ≡ nat_lt 0 (range_length start stop step) }
{
    if step < 0 { stop < start } else { start < stop }
}

/// Whether a range of these three values has an item.
fn has_item(start: Value, stop: Value, step: Value) -> bool
    ensures { result ≡ truths.has_item (start ∷ stop ∷ step ∷ []) }
{
    match (start, stop, step) {
        (Value::Int(i), Value::Int(j), Value::Int(k)) => goes_on(i, j, k),
        _ => false,
    }
}

/// Whether a range of three values has an item.
fn range_has_item<P: Peek>(heap: &P, a: Addr) -> bool
    requires there { Has (P.image heap.now) a.0 }
    requires three { length (at (P.image heap.now) a.0).values ≡ 3 }
    ensures { let r = at (P.image heap.now) a.0 in result ≡ truths.has_item r.values }
{
    has_item(
        heap.peek_val(a, 0),
        heap.peek_val(a, 1),
        heap.peek_val(a, 2),
    )
}

/// Whether a record is true.
fn is_filled<P: Peek>(heap: &P, a: Addr) -> bool
    requires closed { AreClosed (P.image heap.now) }
    requires there { Has (P.image heap.now) a.0 }
    ensures { result ≡ truths.truth (P.image heap.now) (Ref a) }
{
    match heap.peek_kind(a) {
        Kind::Str | Kind::Tuple | Kind::List | Kind::Dict => heap.peek_len(a) > 0,
        Kind::Range => range_has_item(heap, a),
        _ => true,
    }
}

/// Whether a value is true.
pub fn truth<P: Peek>(heap: &P, x: Value) -> bool
    requires closed { AreClosed (P.image heap.now) }
    requires refers { Refers (P.image heap.now) x }
    ensures { result ≡ truths.truth (P.image heap.now) x }
{
    match x {
        Value::Ref(a) => is_filled(heap, a),
        Value::Bool(b) => b,
        Value::Int(i) => i != 0,
        Value::Builtin(_) => true,
        Value::None | Value::Unset => false,
    }
}
