//! What a call has to say: its status, and the text that it writes to the error output.
ghost use Rattle.std.specs.Prelude.{◌≡◌, IfOk, pos};
ghost use Rattle.std.specs.Fmt.{signed_decimal};
ghost use Rattle.stm_top.specs.Answer.{status_of, text_of, refusal_name, refusal_text, spent_text, full_text, IsText};

use crate::status::Status;
use py_data::{Bytes, NoMemory, Refusal};
use py_text::print_int;
use std::alloc::Global;

/// What a call has to say.
#[derive(Clone, Copy, Debug, PartialEq, Eq)]
pub(crate) enum Answer {
    Done,
    Failed,
    Usage,
    Refused {
        refusal: Refusal,
    },
    LoaderFailed,
    InputFailed,
    OutputFailed,
    ErrorOutputFailed,
    /// In words of 8 bytes: those that were reserved, those that were needed, and the most that there can be.
    HeapFull {
        reserved: u64,
        need: u64,
        limit: u64,
    },
    Stuck,
    BudgetSpent {
        steps: u64,
    },
    OutOfMemory,
    ScriptTooLong,
}

const USAGE: &[u8] =
    b"pystm: usage: pystm [--segments N] [--length N] [--pages N] [--budget N] FILE, - or --demo N\n";

impl Answer {
    pub(crate) fn status(self) -> Status
        ensures { result ≡ status_of self }
    {
        match self {
            Answer::Done => Status::Done,
            Answer::Failed => Status::Failed,
            Answer::Usage => Status::Usage,
            Answer::Refused { .. } => Status::Refused,
            Answer::LoaderFailed => Status::LoaderFailed,
            Answer::InputFailed => Status::InputFailed,
            Answer::OutputFailed => Status::OutputFailed,
            Answer::ErrorOutputFailed => Status::ErrorOutputFailed,
            Answer::HeapFull { .. } => Status::HeapFull,
            Answer::Stuck => Status::Stuck,
            Answer::BudgetSpent { .. } => Status::BudgetSpent,
            Answer::OutOfMemory => Status::OutOfMemory,
            Answer::ScriptTooLong => Status::ScriptTooLong,
        }
    }

    /// The text, or none where there is no memory for it.
    pub(crate) fn text(self, alloc: Global) -> Bytes
        ensures { IsText self result }
    {
        match self.whole_text(alloc) {
            Ok(text) => text,
            Err(_) => Bytes::new(alloc),
        }
    }

    fn whole_text(self, alloc: Global) -> Result<Bytes, NoMemory>
        ensures { IfOk result (λ text. text ≡ text_of self) }
    {
        match self {
            Answer::Done | Answer::Failed | Answer::ErrorOutputFailed => Ok(Bytes::new(alloc)),
            Answer::Usage => Bytes::from_slice(alloc, USAGE),
            Answer::Refused { refusal } => refused(alloc, refusal),
            Answer::LoaderFailed => Bytes::from_slice(alloc, b"pystm: cannot load the script\n"),
            Answer::InputFailed => Bytes::from_slice(alloc, b"pystm: cannot read the input\n"),
            Answer::OutputFailed => Bytes::from_slice(alloc, b"pystm: cannot write the output\n"),
            Answer::HeapFull {
                reserved,
                need,
                limit,
            } => full(alloc, reserved, need, limit),
            Answer::Stuck => Bytes::from_slice(alloc, b"pystm: stuck\n"),
            Answer::BudgetSpent { steps } => spent(alloc, steps),
            Answer::OutOfMemory => Bytes::from_slice(alloc, b"pystm: out of memory\n"),
            Answer::ScriptTooLong => {
                Bytes::from_slice(alloc, b"pystm: script longer than 4194304 bytes\n")
            }
        }
    }
}

/// The name of a refusal's kind.
fn refusal_name(refusal: Refusal) -> &'static [u8]
    ensures { result.now ≡ refusal_name refusal }
{
    match refusal {
        Refusal::BadCharacter { .. } => b"bad character",
        Refusal::BadDedent { .. } => b"bad dedent",
        Refusal::OpenString { .. } => b"open string",
        Refusal::NumberWide { .. } => b"number wide",
        Refusal::Unexpected { .. } => b"unexpected",
        Refusal::LeftOut { .. } => b"left out",
        Refusal::Deep { .. } => b"deep",
        Refusal::Misplaced { .. } => b"misplaced",
        Refusal::Doubled { .. } => b"doubled",
        Refusal::Closure { .. } => b"closure",
        Refusal::TooLarge { .. } => b"too large",
        Refusal::BadEscape { .. } => b"bad escape",
    }
}

/// The text of a script that is refused.
fn refused(alloc: Global, refusal: Refusal) -> Result<Bytes, NoMemory>
    ensures { IfOk result (λ text. text ≡ refusal_text refusal) }
{
    let mut text = Bytes::from_slice(alloc, b"pystm: line ")?;
    text.extend_from_slice(print_int(alloc, i64::from(refusal.line()))?.as_slice())?;
    text.extend_from_slice(b": refusal ")?;
    text.extend_from_slice(print_int(alloc, i64::from(refusal.number()))?.as_slice())?;
    text.extend_from_slice(b": ")?;
    text.extend_from_slice(refusal_name(refusal))?;
    text.extend_from_slice(b"\n")?;
    Ok(text)
}

/// The text of a run whose steps are spent.
fn spent(alloc: Global, steps: u64) -> Result<Bytes, NoMemory>
    ensures { IfOk result (λ text. text ≡ spent_text steps) }
{
    let text = format!(in alloc; "pystm: budget spent: {steps} steps\n")?;
    Bytes::from_slice(alloc, text.as_bytes())
}

/// A number in decimal digits.
fn decimal(alloc: Global, n: u64) -> Result<Bytes, NoMemory>
    ensures { IfOk result (λ text. text ≡ signed_decimal (pos n)) }
{
    let text = format!(in alloc; "{n}")?;
    Bytes::from_slice(alloc, text.as_bytes())
}

/// The text of a heap that was full.
fn full(alloc: Global, reserved: u64, need: u64, limit: u64) -> Result<Bytes, NoMemory>
    ensures { IfOk result (λ text. text ≡ full_text reserved need limit) }
{
    let mut text = Bytes::from_slice(alloc, b"pystm: heap full: reserved ")?;
    text.extend_from_slice(decimal(alloc, reserved)?.as_slice())?;
    text.extend_from_slice(b", needed ")?;
    text.extend_from_slice(decimal(alloc, need)?.as_slice())?;
    text.extend_from_slice(b", limit ")?;
    text.extend_from_slice(decimal(alloc, limit)?.as_slice())?;
    text.extend_from_slice(b" words\n")?;
    Ok(text)
}
