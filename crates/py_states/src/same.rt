//! Equality of what lies in memory.
ghost use Rattle.std.specs.Prelude.{◌≡◌, ◌↔◌, IsTrue};

use crate::head::Head;
use py_data::Value;
use py_frames::Block;

/// Values of which it can be told whether they are equal.
pub trait Same: Copy {
    /// The two are equal.
    fn same(self, other: Self) -> bool
        ensures { IsTrue result ↔ (self ≡ other) };
}

impl Same for Value {
    fn same(self, other: Value) -> bool {
        self == other
    }
}

impl Same for Block {
    fn same(self, other: Block) -> bool {
        self == other
    }
}

impl Same for Head {
    fn same(self, other: Head) -> bool {
        self == other
    }
}

/// Two lists are equal.
pub fn same_lists<T: Same>(xs: &[T], ys: &[T]) -> bool
    ensures { IsTrue result ↔ (xs.now ≡ ys.now) }
{
    if xs.len() != ys.len() {
        return false;
    }
    for i in 0..xs.len() {
        if !xs[i].same(ys[i]) {
            return false;
        }
    }
    true
}
