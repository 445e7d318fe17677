//! Values, kinds and headers as words.
ghost use Rattle.std.specs.Prelude.{◌≡◌, ◌<◌, ◌≤◌, ◌^◌};
ghost use Rattle.py_base.specs.declared.kind.Kind.TheVariants.{Dict};
ghost use Rattle.py_data.specs.declared.record.TheConstants.{LENGTH_LIMIT};
ghost use Rattle.seg_store.specs.Extents.{class_from, class_holding};
ghost use Rattle.paged_store.specs.inner.Written.{made_class, made_index};
ghost use Rattle.paged_store.specs.inner.Formed.{FitsValue};
ghost use Rattle.paged_store.specs.Words.{tag_of, payload_of, value_of, kind_number, kind_at, kind_in, class_in, index_class_in, first_in, head_word};

use py_data::{Addr, Kind, Value};

/// The first of a value's two words: its variant.
pub fn tag(v: Value) -> u64
    ensures { result ≡ tag_of v }
{
    match v {
        Value::Unset => 0,
        Value::None => 1,
        Value::Bool(_) => 2,
        Value::Int(_) => 3,
        Value::Ref(_) => 4,
        Value::Builtin(_) => 5,
    }
}

/// The second: what the variant holds, an Int in two's complement.
#[tactic(auto, using(crate::proofs::ValueWords::unsigned_is))]
pub fn payload(v: Value) -> u64
    ensures { result ≡ payload_of v }
{
    match v {
        Value::Unset => 0,
        Value::None => 0,
        Value::Bool(b) => u64::from(b),
        Value::Int(i) => i.cast_unsigned(),
        Value::Ref(a) => u64::from(a.0),
        Value::Builtin(n) => u64::from(n),
    }
}

/// What always holds of a value, for a caller's proof. It does nothing.
pub fn known_value(v: Value)
    ensures { FitsValue v }
{
    match v {
        Value::Unset => {}
        Value::None => {}
        Value::Bool(_) => {}
        Value::Int(_) => {}
        Value::Ref(_) => {}
        Value::Builtin(_) => {}
    }
}

/// The value of two words.
#[tactic(auto, using(crate::proofs::ValueWords::signed_is), unfolding(crate::specs::Words::value_of))]
pub fn value_at(tag: u64, payload: u64) -> Value
    ensures { result ≡ value_of tag payload }
{
    match tag {
        1 => Value::None,
        2 => Value::Bool(payload != 0),
        3 => Value::Int(payload.cast_signed()),
        4 => Value::Ref(Addr((payload % 0x1_0000_0000) as u32)),
        5 => Value::Builtin((payload % 256) as u8),
        _ => Value::Unset,
    }
}

/// The number of a kind, from 1 on.
pub fn kind_number(k: Kind) -> u64
    ensures { result ≡ kind_number k }
{
    match k {
        Kind::Str => 1,
        Kind::Tuple => 2,
        Kind::List => 3,
        Kind::Dict => 4,
        Kind::Cell => 5,
        Kind::Function => 6,
        Kind::Class => 7,
        Kind::Instance => 8,
        Kind::Method => 9,
        Kind::Iter => 10,
        Kind::Range => 11,
        Kind::Lock => 12,
        Kind::Thread => 13,
    }
}

/// The kind of a number; of a number that no kind has, Str.
#[tactic(auto, unfolding(crate::specs::Words::kind_at))]
pub fn kind_at(n: u64) -> Kind
    ensures { result ≡ kind_at n }
{
    match n {
        2 => Kind::Tuple,
        3 => Kind::List,
        4 => Kind::Dict,
        5 => Kind::Cell,
        6 => Kind::Function,
        7 => Kind::Class,
        8 => Kind::Instance,
        9 => Kind::Method,
        10 => Kind::Iter,
        11 => Kind::Range,
        12 => Kind::Lock,
        13 => Kind::Thread,
        _ => Kind::Str,
    }
}

/// What the first word of a record's header tells: its kind, and the classes of its body, of its index, and of the
/// body that it was made with.
#[derive(Clone, Copy, Debug, Drop)]
pub struct Header {
    pub kind: Kind,
    pub class: u8,
    pub index: u8,
    pub first: u8,
}

impl Header {
    /// The header of a word.
    #[tactic(auto, unfolding(crate::specs::Words::kind_in, crate::specs::Words::class_in, crate::specs::Words::index_class_in, crate::specs::Words::first_in))]
    pub fn of(word: u64) -> Header
        requires { word < 2 ^ 32 }
        ensures kind { result.kind ≡ kind_in word }
        ensures class { result.class ≡ class_in word }
        ensures index { result.index ≡ index_class_in word }
        ensures first { result.first ≡ first_in word }
    {
        Header {
            kind: kind_at(word % 256),
            class: (word / 256 % 256) as u8,
            index: (word / 65536 % 256) as u8,
            first: (word / 16_777_216) as u8,
        }
    }

    /// The word of a header.
    pub fn word(&self) -> u64
        ensures { result ≡ head_word self.now.kind self.now.class self.now.index self.now.first }
    {
        kind_number(self.kind)
            + 256 * u64::from(self.class)
            + 65536 * u64::from(self.index)
            + 16_777_216 * u64::from(self.first)
    }

    /// The header of a record that is made: its body holds what it is made with, or has its first room, and a Dict
    /// has an index of half as many words as its body.
    pub fn made(kind: Kind, n: usize) -> Header
        requires { n ≤ LENGTH_LIMIT }
        ensures kind { result.kind ≡ kind }
        ensures class { result.class ≡ made_class kind n }
        ensures index { result.index ≡ made_index kind (made_class kind n) }
        ensures first { result.first ≡ made_class kind n }
    {
        let class = made_class(kind, n);
        let index = match kind {
            Kind::Dict => class - 1,
            _ => 0,
        };
        Header {
            kind,
            class,
            index,
            first: class,
        }
    }
}

/// The least class, up to `most`, of which an extent holds `n` words.
fn class_from(most: u8, n: usize) -> u8
    requires { most ≤ 21 }
    ensures class { result ≡ class_from most n }
    ensures most { result ≤ most }
{
    if n <= 1 {
        0
    } else {
        ((n - 1).ilog2() as u8 + 1).min(most)
    }
}

/// The least class from 1 on of which an extent holds `n` words; 0 for no words.
#[tactic(auto, using(crate::proofs::ClassLemmas::class_holding_most), unfolding(seg_store::specs::Extents::class_holding))]
fn class_holding(n: usize) -> u8
    ensures class { result ≡ class_holding n }
    ensures most { result ≤ 21 }
{
    if n == 0 {
        0
    } else if n <= 2 {
        1
    } else {
        class_from(21, n)
    }
}

/// The class of the body of a record that is made with so many values, or bytes.
fn made_class(kind: Kind, n: usize) -> u8
    requires { n ≤ LENGTH_LIMIT }
    ensures class { result ≡ made_class kind n }
    ensures most { result ≤ 21 }
    ensures pairs { kind ≡ Dict → 2 ≤ result }
{
    match kind {
        Kind::List => { if n == 0 { 0 } else { class_from(20, n) + 1 } }
        Kind::Dict => class_from(20, n).max(1) + 1,
        Kind::Str => class_holding((n + 7) / 8),
        _ => class_holding(2 * n),
    }
}
