//! How many slots of an index are looked at where keys of one kind are entered one after another: the hash and the home
//! of each are those of `dict_index`.
ghost use Rattle.std.specs.Prelude.{◌≡◌, ◌^◌, ◌<◌, ◌≤◌, length, IfOk};

use dict_index::hash::{hash_int, hash_length, mix};
use dict_index::slots::home_from;
use py_data::NoMemory;
use std::alloc::Global;

/// Eight digits of a number, as the word that a string has of them.
fn digits(i: u64) -> u64 {
    let mut word = 0u64;
    let mut left = i;
    for _ in 0..8 {
        word = (word << 8) | (48 + left % 10);
        left /= 10;
    }
    word
}

/// The hash of a string of these words, which has so many bytes.
fn hash_words(len: usize, words: &[u64]) -> u64 {
    let mut hash = hash_length(len);
    for word in words {
        hash = mix(hash, *word);
    }
    hash
}

/// The hash of the key of that number, of the kinds that are measured, where there is such a kind.
fn key_hash(kind: &str, i: u32) -> Option<u64> {
    let n = i64::from(i);
    let front = 7_236_833_167_444_238_175;
    match kind {
        "small_numbers" => Some(hash_int(n)),
        "negative_numbers" => Some(hash_int(-n)),
        "both_signs" => Some(hash_int(n - 50_000)),
        "multiples_of_2_20" => Some(hash_int(n << 20)),
        "multiples_of_2_31" => Some(hash_int(n << 31)),
        "multiples_of_1000" => Some(hash_int(1_000 * n)),
        "squares" => Some(hash_int(n.wrapping_mul(n))),
        "digits" => Some(hash_words(8, &[digits(u64::from(i))])),
        "common_fronts" => Some(hash_words(24, &[front, front, digits(u64::from(i))])),
        "common_ends" => Some(hash_words(24, &[digits(u64::from(i)), front, front])),
        _ => None,
    }
}

/// Enters a key from its home on, and answers how many slots were looked at.
fn enter(slots: &mut [bool], home: usize) -> u32
    requires home { home < length slots.old }
    requires few { length slots.old ≤ 2 ^ 21 }
    ensures { length slots.new ≡ length slots.old }
{
    let n = slots.len();
    for d in 0..n {
        let at = (home + d) % n;
        if !slots[at] {
            slots[at] = true;
            return d as u32 + 1;
        }
    }
    0
}

/// How many slots are looked at where so many keys of a kind are entered in an index of twice as many slots. It answers
/// None where there is no such kind.
pub(crate) fn probes(alloc: Global, kind: &str, count: u32) -> Option<Result<i64, NoMemory>>
    requires { count ≤ 524288 }
{
    let mut slots = Vec::new(alloc);
    if let Err(e) = slots.resize(2 * count as usize + 2, false) {
        return Some(Err(e));
    }
    let mut sum = 0i64;
    for i in 0..count {
        let home = home_from(key_hash(kind, i)?, slots.len());
        sum = sum.saturating_add(i64::from(enter(&mut slots, home)));
    }
    Some(Ok(sum))
}
