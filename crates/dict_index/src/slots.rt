//! Slots in a circle.
ghost use Rattle.std.specs.Prelude.{◌≡◌, ◌*◌, ◌/◌, ◌%◌, ◌^◌, ◌<◌, ◌≤◌};
ghost use Rattle.dict_index.specs.Slots.{slot, steps};

/// The slot after a slot.
#[tactic(auto, using(crate::proofs::Circle::next_end, crate::proofs::Circle::next_step))]
pub fn next(at: usize, n: usize) -> usize
    requires { at < n }
    ensures { result ≡ slot n at 1 }
{
    if at + 1 == n { 0 } else { at + 1 }
}

/// The steps from a slot to another.
#[tactic(auto, unfolding(crate::specs::Slots::steps))]
pub fn distance(n: usize, from: usize, to: usize) -> usize
    requires from { from < n }
    requires to { to < n }
    requires few { n ≤ 2 ^ 21 }
    ensures { result ≡ steps n from to }
{
    if to < from { to + n - from } else { to - from }
}

/// The slot, of `n`, from which a key with a hash is looked for: the upper half of the hash as a part of `n`.
#[tactic(auto, using(crate::proofs::Homes::part_below))]
pub fn home_from(hash: u64, n: usize) -> usize
    requires some { 0 < n }
    requires few { n ≤ 2 ^ 21 }
    ensures value { result ≡ hash / 2 ^ 32 % 2 ^ 32 * n / 2 ^ 32 }
    ensures within { result < n }
{
    let part = (hash >> 32) % 4_294_967_296;
    (part * n as u64 / 4_294_967_296) as usize
}
