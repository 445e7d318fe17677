//! The bytes of a string, those of a short one in place.
ghost use Rattle.std.specs.Prelude.{◌≡◌, ◌<◌, ◌≤◌, IfOk, length, take};

use py_base::first;
use py_data::{Bytes, NoMemory};
use std::alloc::Global;
use std::marker::Model;

/// The most bytes that are held in place, as those of names are.
pub(crate) const SHORT: usize = 32;

/// The bytes of a string: up to 32 of them in place, so that they take no memory, and more in a list. Contracts see
/// them in their order.
#[derive(Drop)]
pub struct Text {
    room: [u8; SHORT],
    count: usize,
    more: Vec<u8>,
}

impl Model for Text {
    ghost use Rattle.std.specs.Prelude.{ℕ, List, cond, leb, take};

    ghost Value = { List ℕ };

    ghost view = { λ t. cond (leb t.count 32) (take t.count t.room) t.more.items };
}

impl Text {
    /// The first bytes of an array, as many as fit in place or fewer.
    pub(crate) fn short(alloc: Global, room: [u8; SHORT], count: usize) -> Text
        requires { count ≤ 32 }
        ensures { result ≡ take count room }
    {
        Text {
            room,
            count,
            more: Vec::new(alloc),
        }
    }

    /// The bytes of a list, which are more than fit in place.
    pub(crate) fn long(more: Vec<u8>) -> Text
        requires { 32 < length more.items }
        ensures { result ≡ more.items }
    {
        Text {
            room: [0; SHORT],
            count: more.len(),
            more,
        }
    }

    /// The bytes of a slice.
    pub fn from_slice(alloc: Global, bytes: &[u8]) -> Result<Text, NoMemory>
        ensures { IfOk result (λ a. a ≡ bytes.now) }
    {
        let n = bytes.len();
        if n <= SHORT {
            let mut room = [0; SHORT];
            room[..n].copy_from_slice(bytes);
            return Ok(Text::short(alloc, room, n));
        }
        Ok(Text::long(Vec::from_slice(alloc, bytes)?))
    }

    /// The bytes in their order.
    pub fn as_slice(&self) -> &[u8]
        ensures { result.now ≡ self.now }
    {
        if self.count <= SHORT {
            first(self.room.as_slice(), self.count)
        } else {
            self.more.as_slice()
        }
    }

    /// The same bytes in a list.
    pub fn to_bytes(&self, alloc: Global) -> Result<Bytes, NoMemory>
        ensures { IfOk result (λ a. a ≡ self.now) }
    {
        Bytes::from_slice(alloc, self.as_slice())
    }
}
