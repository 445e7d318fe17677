//! Sinks over writers.
ghost use Rattle.std.specs.Prelude.{◌≡◌, ℕ, ◌≤◌, length, take, None, OnOk, OnErr, IsOkUnless};
ghost use Rattle.std.specs.Io.KnownBytes.{Appends};
ghost use Rattle.py_data.specs.World.{counted};

use crate::steady::write_some;
use std::io;
use std::io::{Stderr, Stdout, Write};
use stm_io::{PutError, Sink};

/// A sink over a writer, which tells nothing of what was written.
#[derive(Debug, Drop)]
pub struct WriterSink<W> {
    writer: W,
    faults: u64,
}

/// The sink over the standard output.
pub type StdoutSink = WriterSink<Stdout>;

/// The sink over the standard error output.
pub type StderrSink = WriterSink<Stderr>;

impl<W> WriterSink<W> {
    /// A sink that writes at the writer's end, and that never failed.
    pub fn new(writer: W) -> WriterSink<W>
        ensures writer { result.writer ≡ writer }
        ensures faults { result.faults ≡ 0 }
    {
        WriterSink { writer, faults: 0 }
    }
}

impl<W: Write + Drop> Sink for WriterSink<W> {
    ghost state = { λ s. record { told = None; faults = s.faults } };

    fn put(&mut self, bytes: &[u8]) -> Result<(), PutError>
        // What the writer is known to hold grows by all the bytes, or by a front of them at a failure.
        ensures all { OnOk result (Appends (W.contents self.old.writer) (W.contents self.new.writer) bytes.now) }
        ensures front { OnErr result ((k : ℕ) × Appends (W.contents self.old.writer) (W.contents self.new.writer)
            (take k bytes.now)) }
        ensures sure { IsOkUnless result PutError.Failed }

        // Each failure is counted, and nothing else is.
        ensures ok { OnOk result (self.new.faults ≡ self.old.faults) }
        ensures err { OnErr result (self.new.faults ≡ counted self.old.faults) }
        ensures later { self.old.faults ≤ self.new.faults }
    {
        if write_whole(&mut self.writer, bytes).is_err() {
            self.faults = self.faults.saturating_add(1);
            return Err(PutError::Failed);
        }
        Ok(())
    }

    fn faults(&self) -> u64 {
        self.faults
    }
}

/// Writes all the bytes and flushes. Each turn of the loop writes at least one byte.
fn write_whole<W: Write>(writer: &mut W, bytes: &[u8]) -> io::Result<()>
    ensures all { OnOk result (Appends (W.contents writer.old) (W.contents writer.new) bytes.now) }
    ensures front { OnErr result ((k : ℕ) × Appends (W.contents writer.old) (W.contents writer.new)
        (take k bytes.now)) }
{
    let mut done = 0;
    while done < bytes.len() {
        done += write_some(writer, &bytes[done..])?;
    }
    writer.flush()
}

#[cfg(test)]
mod tests {
    use super::*;
    use crate::slow::Slow;
    use std::test::Fail;

    #[test]
    fn writes_to_both_outputs(rt: HostRuntime) -> Result<(), Fail> {
        let mut out = StdoutSink::new(rt.stdout());
        assert!(rt; out.put(b"to the output\n").is_ok() && out.put(b"").is_ok());
        assert_eq!(rt; out.faults(), 0);
        let mut err = StderrSink::new(rt.stderr());
        assert!(rt; err.put(b"to the error output\n").is_ok() && err.put(b"").is_ok());
        assert_eq!(rt; err.faults(), 0);
        Ok(())
    }

    /// The numbers of calls that break, the text that is then written, and how often the sink failed.
    #[test]
    fn writes_all_by_small_writes(rt: HostRuntime) -> Result<(), Fail> {
        let table: [(usize, &[u8], u64); 4] = [
            (99, b"abcde", 0),
            (1, b"de", 1),
            (5, b"abde", 1),
            (7, b"abc", 1),
        ];
        for (breaks_at, wanted, faults) in table {
            let mut sink = WriterSink::new(Slow::new(rt.alloc(), b"", breaks_at)?);
            let first = sink.put(b"abc");
            assert!(rt; first.is_ok() || first == Err(PutError::Failed));
            let second = sink.put(b"de");
            assert!(rt; second.is_ok() || breaks_at == 7);
            assert_eq!(rt; sink.writer.text.as_slice(), wanted);
            assert_eq!(rt; sink.faults(), faults);
        }
        Ok(())
    }
}
