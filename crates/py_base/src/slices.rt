//! Parts of a slice.
ghost use Rattle.std.specs.Prelude.{◌≡◌, [], ◌∷◌, MatchOption, drop, take};

/// The first of these and the others.
pub fn split<T>(items: &[T]) -> Option<(&T, &[T])>
    ensures { MatchOption result (items.now ≡ []) (λ p. items.now ≡ p.0.now ∷ p.1.now) }
{
    items.split_first()
}

/// What follows the first `n`; nothing, if there are no more.
pub fn skip<T>(items: &[T], n: usize) -> &[T]
    ensures { result.now ≡ drop n items.now }
{
    if n < items.len() { &items[n..] } else { &[] }
}

/// The first `n`, or all if there are no more.
pub fn first<T>(items: &[T], n: usize) -> &[T]
    ensures { result.now ≡ take n items.now }
{
    if n < items.len() { &items[..n] } else { items }
}
