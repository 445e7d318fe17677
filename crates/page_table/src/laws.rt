//! Laws of the table that pages mean, as contracts: a call of such a function does nothing, and gives its caller's
//! proof the facts of its clauses.
ghost use Rattle.page_table.specs.Laying.{NewLaid, TakeLaid, GiveLaid, RestLaid};
ghost use Rattle.page_table.specs.Counting.{CountingLaw, PeakLaw, SpareLaw, TakeLaw, GiveLaw};

/// Over every run of calls, the words that were taken are two and, of each class, as many extents as were in use at
/// once at most. What a call makes of the extents in use, and of the most that were.
pub fn counting_law()
    ensures counting { CountingLaw }
    ensures peak { PeakLaw }
    ensures spare { SpareLaw }
    ensures take { TakeLaw }
    ensures give { GiveLaw }
{}

/// Extents never overlap. What a caller holds of them after each call, and that it may give back what it holds.
pub fn laying_law()
    ensures new { NewLaid }
    ensures take { TakeLaid }
    ensures give { GiveLaid }
    ensures rest { RestLaid }
{}
