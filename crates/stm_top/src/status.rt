//! How a call ended.
ghost use Rattle.std.specs.Prelude.{◌≡◌};
ghost use Rattle.stm_top.specs.Answer.{number_of};

/// How a call ended. Its number is the program's exit status.
#[derive(Clone, Copy, Debug, PartialEq, Eq)]
pub enum Status {
    /// All threads ended, the first one without an exception.
    Done,
    /// All threads ended, the first one by an exception.
    Failed,
    /// The words are refused.
    Usage,
    /// The script is refused.
    Refused,
    /// The loader failed.
    LoaderFailed,
    /// The source failed before the script was taken.
    InputFailed,
    /// The output failed in a step.
    OutputFailed,
    /// The error output failed in a step.
    ErrorOutputFailed,
    /// A new record found no place in the heap.
    HeapFull,
    /// No thread can go on.
    Stuck,
    /// The steps of the run are spent.
    BudgetSpent,
    /// There was no memory.
    OutOfMemory,
    /// The script is longer than a script may be.
    ScriptTooLong,
}

impl Status {
    /// The exit status, from 0 to 12.
    pub fn number(&self) -> u8
        ensures { result ≡ number_of self.now }
    {
        match self {
            Status::Done => 0,
            Status::Failed => 1,
            Status::Usage => 2,
            Status::Refused => 3,
            Status::LoaderFailed => 4,
            Status::InputFailed => 5,
            Status::OutputFailed => 6,
            Status::ErrorOutputFailed => 7,
            Status::HeapFull => 8,
            Status::Stuck => 9,
            Status::BudgetSpent => 10,
            Status::OutOfMemory => 11,
            Status::ScriptTooLong => 12,
        }
    }
}
