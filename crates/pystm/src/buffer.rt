//! Bytes that were read ahead of the lines that were taken.
ghost use Rattle.std.specs.Prelude.{◌≡◌, ◌≢◌, ◌<◌, ◌≤◌, ◌+◌, Some, [], length, drop, take, slice_get, All, IfSome, IfNone, IfOk, OnOk, OnErr};
ghost use Rattle.std.specs.Io.KnownBytes.{Consumes, IsAtEnd, Keeps, prepend_known};
ghost use Rattle.py_data.specs.World.{line_of};

use crate::steady::read_some;
use std::alloc::Global;
use std::io::Read;
use std::marker::Model;
use stm_io::TakeError;

/// How many bytes one read asks for.
const PIECE: usize = 8192;

/// The bytes that a reader gave and that were not taken yet.
#[derive(Debug, Drop)]
pub struct LineBuffer {
    alloc: Global,
    bytes: Vec<u8>,
    taken: usize,
}

impl Model for LineBuffer {
    ghost use Rattle.std.specs.Prelude.{◌≤◌, ℕ, List, length, drop};

    ghost Value = { List ℕ };

    ghost view = { λ a. drop a.taken a.bytes.items };

    ghost invariant = { λ a. a.taken ≤ length a.bytes.items };
}

impl LineBuffer {
    /// No bytes.
    pub fn new(alloc: Global) -> LineBuffer
        ensures { result ≡ [] }
    {
        LineBuffer {
            alloc,
            bytes: Vec::new(alloc),
            taken: 0,
        }
    }

    /// Takes the first line of what it holds and the reader has left: the longest front that has at most `most` bytes
    /// and no newline but as its last byte. It reads until it holds that line. Without an answer nothing is lost.
    pub fn take_line<R: Read>(&mut self, reader: &mut R, most: usize) -> Result<Vec<u8>, TakeError>
        requires { 1 ≤ most }
        ensures line { IfOk result (λ l. IfSome (prepend_known self.old (R.remaining reader.old))
            (λ xs. l.items ≡ line_of most xs)) }
        ensures short { IfOk result (λ l. length l.items ≤ most) }
        ensures rest { IfOk result (λ l. Consumes (prepend_known self.old (R.remaining reader.old))
            (prepend_known self.new (R.remaining reader.new)) l.items) }
        ensures kept { OnErr result (Keeps (prepend_known self.old (R.remaining reader.old))
            (prepend_known self.new (R.remaining reader.new))) }
    {
        let length = self.hold_line(reader, most)?;
        let line = Vec::from_slice(self.alloc, &self.held()[..length])?;
        self.skip(length);
        Ok(line)
    }

    /// What it holds.
    fn held(&self) -> &[u8]
        ensures { result.now ≡ self.now }
    {
        &self.bytes[self.taken..]
    }

    /// Lets go of the first `count` bytes.
    fn skip(&mut self, count: usize)
        requires { count ≤ length self.old }
        ensures { self.new ≡ drop count self.old }
    {
        self.taken += count;
        if self.taken == self.bytes.len() {
            self.bytes.truncate(0);
            self.taken = 0;
        }
    }

    /// Reads until it holds the first line whole, and answers its length. Each turn of the loop reads at least one
    /// byte.
    fn hold_line<R: Read>(&mut self, reader: &mut R, most: usize) -> Result<usize, TakeError>
        ensures line { IfOk result (λ n. IfSome (prepend_known self.old (R.remaining reader.old))
            (λ xs. take n self.new ≡ line_of most xs)) }
        ensures within { IfOk result (λ n. (n ≤ most) × (n ≤ length self.new)) }
        ensures kept { Keeps (prepend_known self.old (R.remaining reader.old))
            (prepend_known self.new (R.remaining reader.new)) }
    {
        let mut seen = 0;
        while seen < most {
            let held = self.held();
            let end = most.min(held.len());
            if let Some(place) = newline_from(&held[..end], seen) {
                return Ok(place + 1);
            }
            seen = end;
            if seen < most && self.read_more(reader)? == 0 {
                break;
            }
        }
        Ok(seen)
    }

    /// Gives up the room of what was taken.
    fn settle(&mut self)
        ensures { self.new ≡ self.old }
    {
        self.bytes.drain(..self.taken);
        self.taken = 0;
    }

    /// One read, whose bytes it then holds too. None means the end.
    fn read_more<R: Read>(&mut self, reader: &mut R) -> Result<usize, TakeError>
        ensures more { IfOk result (λ n. length self.new ≡ length self.old + n) }
        ensures bytes { OnOk result (Keeps (prepend_known self.old (R.remaining reader.old))
            (prepend_known self.new (R.remaining reader.new))) }
        ensures front { OnOk result (take (length self.old) self.new ≡ self.old) }
        ensures end { IfOk result (λ n. n ≡ 0 → IsAtEnd (R.remaining reader.new)) }
        ensures kept { OnErr result ((self.new ≡ self.old) × Keeps (R.remaining reader.old) (R.remaining reader.new)) }
    {
        self.settle();
        self.bytes.reserve(PIECE)?;
        let mut piece = [0u8; PIECE];
        let Ok(count) = read_some(reader, &mut piece) else {
            return Err(TakeError::Failed);
        };
        // There is room.
        self.bytes.extend_from_slice(&piece[..count])?;
        Ok(count)
    }
}

/// The place of the first newline, where none is before `seen`.
fn newline_from(bytes: &[u8], seen: usize) -> Option<usize>
    requires within { seen ≤ length bytes.now }
    requires none { All (λ b. b ≢ 10) (take seen bytes.now) }
    ensures newline { IfSome result (λ i. slice_get bytes.now i ≡ Some 10) }
    ensures first { IfSome result (λ i. All (λ b. b ≢ 10) (take i bytes.now)) }
    ensures none { IfNone result (All (λ b. b ≢ 10) bytes.now) }
{
    for i in seen..bytes.len() {
        if bytes[i] == b'\n' {
            return Some(i);
        }
    }
    None
}
