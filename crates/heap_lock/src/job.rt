// What a lock keeps true of its value.

/// Which job a value is for, whether it is good, and what may come of it. All three are for contracts alone: a program
/// computes none of them.
pub trait Job {
    /// What tells one job from another. It is a type alone: no value of it is made.
    type Description;

    /// The job that a value is for. A thread may give back another value than it took, but only one
    /// for the same job.
    ghost job: { Self → Self.Description };

    /// What is true of the value whenever the lock is free. A thread that has taken the value may break it, and makes
    /// it true again before it gives the value back.
    ghost good: { Self → Type 0 };

    /// The second value has grown from the first: a thread that took the first may give back the second. Where any
    /// value may follow any other, this is a fact that always holds.
    ghost grows: { Self → Self → Type 0 };

    /// A value may be given back as it was taken.
    ghost grows_same: { (x : Self) → grows x x };

    /// What has grown in two steps has grown in one.
    ghost grows_then: { (x y z : Self) → grows x y → grows y z → grows x z };
}
