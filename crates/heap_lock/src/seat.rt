// A seat at a lock.
ghost use Rattle.std.specs.Prelude.{◌≡◌};
ghost use Rattle.heap_lock.specs.Views.{SeatView};
ghost use Rattle.heap_lock.specs.Rule.{IsSeat};

use crate::job::Job;
use crate::view::View;
use std::marker::Model;

/// A thread's right to take the value of a lock. It has no bytes.
///
/// A seat has some of the lock's parts, which are numbers from 0 to 254. Each part is with one seat,
/// so a seat with all of them is the only one, and may close the lock. A seat that is dropped takes
/// its parts with it: its lock can then never be closed. A seat may move to another thread where the
/// value may.
pub struct Seat<T: Job> {
    pub(crate) inner: atomic_table::Seat<Option<T>, View<T, T::Description>>,
}

impl<T: Job> Model for Seat<T> {
    ghost Value = { SeatView T T.Description };

    ghost view = { λ s.
        let v = s.inner.me.0 in
        record {
          lock = s.inner.table_id;
          parts = v.parts;
          holds = v.holds;
          job = v.job;
          seen = v.seen;
          taken = v.taken;
        } };

    ghost invariant = { λ s. IsSeat s.inner.me };
}

impl<T: Job> Seat<T> {
    // A type with a `drop` is taken apart in its own methods alone.
    pub(crate) fn into_inner(self) -> atomic_table::Seat<Option<T>, View<T, T::Description>>
        ensures lock { result.table_id ≡ self.lock }
        ensures parts { result.me.0.parts ≡ self.parts }
        ensures holds { result.me.0.holds ≡ self.holds }
        ensures job { result.me.0.job ≡ self.job }
        ensures seen { result.me.0.seen ≡ self.seen }
        ensures seat { IsSeat result.me }
    {
        let Self { inner } = self;
        inner
    }
}

impl<T: Job> Drop for Seat<T> {
    fn drop(self) {
        let Self { inner: _ } = self;
    }
}
