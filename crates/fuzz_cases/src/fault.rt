//! What may be wrong with a run.

use std::fmt;

/// What is wrong with a run.
#[derive(Clone, Copy, Debug, PartialEq, Eq)]
pub(crate) enum Fault {
    /// It wrote something else than the turns of its history write, done again under one lock.
    OtherHistory,
    /// Nothing that such a call has leads to its status.
    OtherStatus,
    /// What it wrote doesn't tell the cause of its status.
    OtherCause,
    /// An earlier run of the same program wrote something else.
    OtherOutput,
    /// An earlier run of the same program ended otherwise.
    OtherEnd,
}

impl fmt::Display for Fault {
    fn fmt<W: fmt::Write>(&self, f: &mut fmt::Formatter<W>) -> fmt::Result {
        match self {
            Fault::OtherHistory => write!(f, "its history writes something else"),
            Fault::OtherStatus => write!(f, "a call like this one has no such status"),
            Fault::OtherCause => write!(f, "its status has another cause"),
            Fault::OtherOutput => write!(f, "an earlier run wrote something else"),
            Fault::OtherEnd => write!(f, "an earlier run ended otherwise"),
        }
    }
}
