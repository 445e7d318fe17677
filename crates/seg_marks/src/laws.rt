//! A law of markers and locks, as a contract: a call of this function does nothing, and gives its caller's proof the
//! facts of its clauses.
ghost use Rattle.seg_marks.specs.Runs.{MarkedLaw, HeldLaw};

/// Over every run of calls, however many times a segment begins: a granule is marked by a segment where the segment
/// marked it after it last began, and is held by the one that locked it last if it wasn't unlocked since.
pub fn runs_law()
    ensures marked { MarkedLaw }
    ensures held { HeldLaw }
{}
