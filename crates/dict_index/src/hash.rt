//! Hashes of keys. Equal keys have the same.
ghost use Rattle.std.specs.Prelude.{◌≡◌, ◌<◌, None};
ghost use Rattle.py_data.specs.Heap.{Heap};
ghost use Rattle.dict_index.specs.Keys.{class_of, hash_of, hash_number, times_golden, mixed, text_seed, text_at};

use py_data::Value;

/// What the hash of a number below 0 begins with.
pub const NEGATIVE: u64 = 1 << 63;

/// What the hash of a string begins with.
pub const TEXT: u64 = 1 << 62;

/// What the hash of another record begins with.
pub const NAMED: u64 = 1 << 61;

/// What the hash of a builtin begins with.
pub const BUILT: u64 = 1 << 60;

/// 2^64 divided by the golden ratio: its multiples are spread.
const GOLDEN: u64 = 11_400_714_819_323_198_485;

/// A number times the golden one.
fn times_golden(x: u64) -> u64
    ensures { result ≡ times_golden x }
{
    x.wrapping_mul(GOLDEN)
}

/// Mixes a number into a hash.
pub fn mix(seed: u64, x: u64) -> u64
    ensures { result ≡ mixed seed x }
{
    let sum = times_golden(seed.wrapping_add(x));
    times_golden(sum ^ (sum >> 29))
}

/// The hash of a number.
pub fn hash_int(i: i64) -> u64
    ensures { result ≡ hash_number i }
{
    if i < 0 {
        mix(NEGATIVE, i.unsigned_abs() - 1)
    } else {
        mix(1, i as u64)
    }
}

/// The hash of a key that is no string.
#[tactic(auto, unfolding(crate::specs::Keys::hash_of))]
pub fn hash_plain(key: Value) -> u64
    ensures { (h : Heap) → text_at h key ≡ None → result ≡ hash_of (class_of h key) }
{
    match key {
        Value::Unset => 0,
        Value::None => 3,
        Value::Bool(b) => hash_int(b as i64),
        Value::Int(i) => hash_int(i),
        Value::Ref(a) => mix(NAMED, a.0 as u64),
        Value::Builtin(b) => mix(BUILT, b as u64),
    }
}

/// What the hash of a string of a length begins with. Its words are mixed in behind that, one after another.
pub fn hash_length(len: usize) -> u64
    ensures { result ≡ mixed text_seed len }
{
    mix(TEXT, len as u64)
}
