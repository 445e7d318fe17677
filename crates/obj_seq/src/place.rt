//! Where an index or a bound falls among the items of a sequence.
ghost use Rattle.std.specs.Prelude.{◌≡◌};
ghost use Rattle.obj_seq.specs.Seq.{place, bound, bound_or};

/// The place of an index among `n` items, if it has one. A negative index counts from the end.
pub fn place_of(i: i64, n: usize) -> Option<usize>
    ensures { result ≡ place i n }
{
    if i >= 0 {
        let k = i as usize;
        if k < n { Some(k) } else { None }
    } else {
        let back = (-(i + 1)) as usize;
        if back < n { Some(n - back - 1) } else { None }
    }
}

/// Where a bound falls among `n` items: it is cut to what there is.
pub fn bound_of(i: i64, n: usize) -> usize
    ensures { result ≡ bound i n }
{
    if i >= 0 {
        (i as usize).min(n)
    } else {
        n.saturating_sub((-(i + 1)) as usize + 1)
    }
}

/// The same of a bound that may be missing, and is then at `d`.
pub fn bound_or(i: Option<i64>, d: usize, n: usize) -> usize
    ensures { result ≡ bound_or i d n }
{
    match i {
        Some(i) => bound_of(i, n),
        None => d,
    }
}
