//! Addresses and values.
ghost use Rattle.std.specs.Prelude.{◌≡◌};
ghost use Rattle.py_data.specs.Heap.{value_at};

use py_base::Items;

/// The address of a record in the heap.
#[derive(Clone, Copy, Debug, Drop, PartialEq, Eq)]
pub struct Addr(pub u32);

/// What a name, an item or an attribute holds.
#[derive(Clone, Copy, Debug, Drop, PartialEq, Eq)]
pub enum Value {
    /// Nothing yet. Only a Cell holds it, and a slot or a stack place of a frame.
    Unset,
    None,
    Bool(bool),
    Int(i64),
    /// The record at that address.
    Ref(Addr),
    /// The builtin of that number.
    Builtin(u8),
}

/// Values, as a record holds them.
pub type Values = Items<Value>;

/// The addresses that a turn's new records got, in order.
pub type Names = Items<Addr>;

/// A value of a list; Unset where it has none there.
pub fn value_or_unset(values: &[Value], i: usize) -> Value
    ensures { result ≡ value_at values.now i }
{
    if i < values.len() {
        values[i]
    } else {
        Value::Unset
    }
}
