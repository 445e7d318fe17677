//! A reader and writer for tests, which moves one byte at a time, is interrupted at each second call, and breaks once.
use std::alloc::{AllocError, Global};
use std::io::{Error, ErrorKind, Read, Result, Write};

/// What it gives, or what was written to it.
#[derive(Drop)]
pub struct Slow {
    pub text: Vec<u8>,
    done: usize,
    calls: usize,
    breaks_at: usize,
}

impl Slow {
    /// One whose call with that number fails, from 1.
    pub fn new(
        alloc: Global,
        text: &[u8],
        breaks_at: usize,
    ) -> std::result::Result<Slow, AllocError> {
        Ok(Slow {
            text: Vec::from_slice(alloc, text)?,
            done: 0,
            calls: 0,
            breaks_at,
        })
    }

    fn count_call(&mut self) -> Result<()> {
        self.calls = self.calls.saturating_add(1);
        if self.calls == self.breaks_at {
            return Err(Error::from(ErrorKind::BrokenPipe));
        }
        if self.calls % 2 == 0 {
            return Err(Error::from(ErrorKind::Interrupted));
        }
        Ok(())
    }
}

impl Read for Slow {
    fn read(&mut self, piece: &mut [u8]) -> Result<usize> {
        self.count_call()?;
        if piece.is_empty() || self.done >= self.text.len() {
            return Ok(0);
        }
        piece[0] = self.text[self.done];
        self.done += 1;
        Ok(1)
    }
}

impl Write for Slow {
    fn write(&mut self, piece: &[u8]) -> Result<usize> {
        self.count_call()?;
        if piece.is_empty() {
            return Ok(0);
        }
        self.text.push(piece[0])?;
        Ok(1)
    }

    fn flush(&mut self) -> Result<()> {
        Ok(())
    }
}
