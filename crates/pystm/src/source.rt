//! Sources over readers.
ghost use Rattle.std.specs.Prelude.{◌≡◌, ◌≤◌, [], length, None, IfSome, IfOk, OnErr};
ghost use Rattle.std.specs.Io.KnownBytes.{Consumes, Keeps, prepend_known};
ghost use Rattle.py_data.specs.World.{ends_after, line_of};
ghost use Rattle.pystm.specs.Devices.{faults_after_take};

use crate::buffer::LineBuffer;
use std::alloc::Global;
use std::io::{Read, Stdin};
use stm_io::{Source, TakeError};

/// A source over a reader, which tells nothing of what is left. It reads ahead, and loses nothing at a failure.
#[derive(Drop)]
pub struct ReaderSource<R> {
    reader: R,
    buffer: LineBuffer,
    faults: u64,
    ends: u64,
}

/// The source over the standard input.
pub type StdinSource = ReaderSource<Stdin>;

impl<R> ReaderSource<R> {
    /// A source that takes what the reader gives from here on, that never failed, and never came to its end.
    pub fn new(alloc: Global, reader: R) -> ReaderSource<R>
        ensures reader { result.reader ≡ reader }
        ensures buffer { result.buffer ≡ [] }
        ensures faults { result.faults ≡ 0 }
        ensures ends { result.ends ≡ 0 }
    {
        ReaderSource {
            reader,
            buffer: LineBuffer::new(alloc),
            faults: 0,
            ends: 0,
        }
    }

    /// How many of its answers were empty, up to the last number of 64 bits.
    pub fn ends(&self) -> u64
        ensures { result ≡ self.now.ends }
    {
        self.ends
    }
}

impl<R: Read + Drop> Source for ReaderSource<R> {
    ghost state = { λ s. record { told = None; faults = s.faults; ends = s.ends } };

    fn take_line(&mut self, most: usize) -> Result<Vec<u8>, TakeError>
        requires { 1 ≤ most }

        // What the buffer and the reader are known to have gives its first line, and loses it. Without an answer it
        // stays.
        ensures line { IfOk result (λ l. IfSome (prepend_known self.old.buffer (R.remaining self.old.reader))
            (λ xs. l.items ≡ line_of most xs)) }
        ensures short { IfOk result (λ l. length l.items ≤ most) }
        ensures rest { IfOk result (λ l. Consumes (prepend_known self.old.buffer (R.remaining self.old.reader))
            (prepend_known self.new.buffer (R.remaining self.new.reader)) l.items) }
        ensures kept { OnErr result (Keeps (prepend_known self.old.buffer (R.remaining self.old.reader))
            (prepend_known self.new.buffer (R.remaining self.new.reader))) }

        // Each empty answer and each failure is counted, and nothing else is.
        ensures ends { IfOk result (λ l. self.new.ends ≡ ends_after l.items self.old.ends) }
        ensures no_end { OnErr result (self.new.ends ≡ self.old.ends) }
        ensures counts { self.new.faults ≡ faults_after_take result self.old.faults }
        ensures later { self.old.faults ≤ self.new.faults }
    {
        let answer = self.buffer.take_line(&mut self.reader, most);
        match &answer {
            Ok(line) => {
                if line.is_empty() {
                    self.ends = self.ends.saturating_add(1);
                }
            }
            Err(TakeError::Failed) => self.faults = self.faults.saturating_add(1),
            Err(TakeError::OutOfMemory) => {}
        }
        answer
    }

    fn faults(&self) -> u64 {
        self.faults
    }
}

#[cfg(test)]
mod tests {
    use super::*;
    use crate::slow::Slow;
    use std::test::Fail;

    #[test]
    fn takes_from_the_standard_input(rt: HostRuntime) -> Result<(), Fail> {
        let mut source = StdinSource::new(rt.alloc(), rt.stdin());
        let is_end = source.take_line(16)?.is_empty();
        assert!(rt; (source.ends() == 1) == is_end);
        assert_eq!(rt; source.faults(), 0);
        Ok(())
    }

    /// Whichever read breaks, no byte is lost.
    #[test]
    fn takes_lines_by_small_reads(rt: HostRuntime) -> Result<(), Fail> {
        for breaks_at in 1..24 {
            let reader = Slow::new(rt.alloc(), b"ab\ncde\n\nf", breaks_at)?;
            let mut source = ReaderSource::new(rt.alloc(), reader);
            let mut all = Vec::new(rt.alloc());
            for _ in 0..8 {
                match source.take_line(3) {
                    Ok(line) => {
                        all.extend_from_slice(line.as_slice())?;
                        all.push(b'|')?;
                    }
                    Err(_) => all.push(b'!')?,
                }
            }
            all.retain(|b| *b != b'!');
            assert!(rt;
                all.as_slice().starts_with(b"ab\n|cde|\n|\n|f||"),
                "{breaks_at}"
            );
            assert!(rt; source.faults() <= 1 && source.ends() >= 1, "{breaks_at}");
        }
        Ok(())
    }
}
