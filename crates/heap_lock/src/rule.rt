// The rule of a lock's table, and names for its kinds of step. No value of these types is made.
ghost use Rattle.heap_lock.specs.Rule.{FollowsRule, first_view, split_left, split_right, joined, spent, Takes, Gives};

use crate::job::Job;
use crate::view::{Key, View};
use atomic_table::{Join, Play, Split, TableRule};
use std::marker::PhantomData;

/// The rule, for a lock that opens with the key's value and count of parts.
pub struct LockRule<T> {
    marker: PhantomData<T>,
}

impl<T: Job> TableRule<Option<T>, View<T, T::Description>, Key<T>> for LockRule<T> {
    ghost holds = { λ key. FollowsRule T.job T.good T.grows key.parts (T.job key.opening.value) };

    ghost first = { λ key. first_view key.parts (T.job key.opening.value) key.opening.value };
}

/// A compare-and-exchange of word 0 from 0 to 1.
pub struct Take<T> {
    marker: PhantomData<T>,
}

impl<T: Job> Play<Option<T>, View<T, T::Description>> for Take<T> {
    ghost then = { λ step. Takes T.job T.good T.grows };
}

/// A store of 0 in word 0.
pub struct Give;

impl<T, J> Play<Option<T>, View<T, J>> for Give {
    ghost then = { λ step before found. Gives before };
}

/// How the parts of a seat are split, and how those of two seats are joined.
pub struct Parts;

impl<T, J> Split<View<T, J>> for Parts {
    ghost left = { split_left };

    ghost right = { split_right };
}

impl<T, J> Join<View<T, J>> for Parts {
    ghost both = { joined };

    ghost spent = { spent };
}
