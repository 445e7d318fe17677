//! Kinds of records, and what those of each may have.
ghost use Rattle.std.specs.Prelude.{◌≡◌, true};
ghost use Rattle.py_data.specs.Changes.{IsValuePlace};
ghost use Rattle.py_data.specs.Heap.{has_bytes, is_tracked};
ghost use Rattle.py_data.specs.Shape.{is_key_kind};

use py_data::Kind;

/// A kind of records that have bytes.
pub fn has_bytes(kind: Kind) -> bool
    ensures { result ≡ has_bytes kind }
{
    match kind {
        Kind::Str => true,
        Kind::Tuple => false,
        Kind::List => false,
        Kind::Dict => false,
        Kind::Cell => false,
        Kind::Function => false,
        Kind::Class => false,
        Kind::Instance => false,
        Kind::Method => false,
        Kind::Iter => false,
        Kind::Range => false,
        Kind::Lock => false,
        Kind::Thread => false,
    }
}

/// A kind of records that can be keys.
pub fn is_key_kind(kind: Kind) -> bool
    ensures { result ≡ is_key_kind kind }
{
    match kind {
        Kind::Str => true,
        Kind::Tuple => false,
        Kind::List => false,
        Kind::Dict => false,
        Kind::Cell => false,
        Kind::Function => true,
        Kind::Class => true,
        Kind::Instance => true,
        Kind::Method => false,
        Kind::Iter => false,
        Kind::Range => false,
        Kind::Lock => false,
        Kind::Thread => false,
    }
}

/// A kind of records that change, and a place of theirs in which a value may be set.
pub fn is_value_place(kind: Kind, i: usize) -> bool
    ensures { result ≡ true → (is_tracked kind ≡ true) × IsValuePlace kind i }
{
    match kind {
        Kind::Str => false,
        Kind::Tuple => false,
        Kind::List => true,
        Kind::Dict => i % 2 == 1,
        Kind::Cell => true,
        Kind::Function => false,
        Kind::Class => false,
        Kind::Instance => false,
        Kind::Method => false,
        Kind::Iter => true,
        Kind::Range => false,
        Kind::Lock => true,
        Kind::Thread => true,
    }
}

/// The kinds are one kind.
pub fn same_kind(one: Kind, other: Kind) -> bool
    ensures { result ≡ true → one ≡ other }
{
    one == other
}
