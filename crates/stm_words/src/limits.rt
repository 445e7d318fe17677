//! The limits of options that are numbers.
ghost use Rattle.std.specs.Prelude.{◌≤◌};

/// What an option's number may be, and what it is where the option is left out.
#[derive(Clone, Copy, Debug, PartialEq, Eq)]
pub(crate) struct Limits {
    pub usual: u64,
    pub least: u64,
    pub most: u64,
    ghost at_least: { least ≤ usual },
    ghost at_most: { usual ≤ most },
}

/// Of the segments that run.
pub(crate) const SEGMENTS: Limits = Limits {
    usual: 4,
    least: 1,
    most: 8,
};

/// Of the steps of a transaction.
pub(crate) const LENGTH: Limits = Limits {
    usual: 1_000,
    least: 1,
    most: 1_000_000,
};

/// Of the pages of a store.
pub(crate) const PAGES: Limits = Limits {
    usual: 16_384,
    least: 1,
    most: 65_536,
};

/// Of the steps of a run.
pub(crate) const BUDGET: Limits = Limits {
    usual: 1_000_000_000_000,
    least: 1,
    most: 1_000_000_000_000_000,
};
