//! Devices that never fail.
ghost use Rattle.std.specs.Prelude.{◌≡◌, ◌≤◌, ℕ, List, [], ◌∷◌, ◌++◌, length, drop, take, IfOk, IfErr, OnOk, OnErr, IsOkUnless};
ghost use Rattle.py_data.specs.World.{ends_after, line_of};
ghost use Rattle.stm_io.specs.Memory.{sure_loader_state, sure_source_state, sure_sink_state};
ghost use Rattle.stm_io.specs.Outside.{LoadStops};

use crate::device::{Gate, Loader, Sink, Source};
use crate::error::{LoadError, PutError, TakeError};
use crate::piece::{first_line, front};
use py_data::{Bytes, Items, NoMemory};
use std::alloc::Global;
use std::marker::Model;

/// A loader that tells one text, whatever the name.
#[derive(Debug, Drop)]
pub struct SureLoader {
    alloc: Global,
    text: Vec<u8>,
    asked: Items<Bytes>,
}

impl Model for SureLoader {
    ghost use Rattle.stm_io.specs.Memory.{SureLoaderValue};

    ghost Value = { SureLoaderValue };

    ghost view = { λ a. record { text = a.text.items; asked = a.asked } };
}

impl SureLoader {
    /// A loader of that text, that was asked for no name yet.
    pub fn new(alloc: Global, text: Vec<u8>) -> SureLoader
        ensures { result ≡ record { text = text.items; asked = [] } }
    {
        SureLoader {
            alloc,
            text,
            asked: Items::new(alloc),
        }
    }

    /// The names that it was asked for, the first one first.
    pub fn asked(&self) -> &[Bytes]
        ensures { result.now ≡ self.now.asked }
    {
        self.asked.as_slice()
    }

    /// Keeps that name.
    pub(crate) fn ask(&mut self, name: &str) -> Result<(), NoMemory>
        ensures ok { OnOk result (self.new.asked ≡ self.old.asked ++ name.now ∷ []) }
        ensures err { OnErr result (self.new.asked ≡ self.old.asked) }
        ensures same { self.new.text ≡ self.old.text }
    {
        let bytes = Bytes::from_slice(self.alloc, name.as_bytes())?;
        self.asked.push(bytes)
    }

    /// The first `most` bytes of its text, or all of a shorter one.
    pub(crate) fn text(&self, most: usize) -> Result<Vec<u8>, NoMemory>
        ensures { IfOk result (λ v. v.items ≡ take most self.now.text) }
    {
        Vec::from_slice(self.alloc, front(self.text.as_slice(), most))
    }
}

impl Loader for SureLoader {
    ghost state = { sure_loader_state };

    fn load(&mut self, name: &str, most: usize) -> Result<Vec<u8>, LoadError>
        ensures text { IfOk result (λ v. v.items ≡ take most self.old.text) }
        ensures short { IfOk result (λ v. length v.items ≤ most) }
        ensures asked { OnOk result (self.new.asked ≡ self.old.asked ++ name.now ∷ []) }
        ensures stops { IfErr result (λ e. LoadStops name.now e (sure_loader_state self.old)
            (sure_loader_state self.new)) }
        ensures same { self.new.text ≡ self.old.text }
        ensures sure { IsOkUnless result LoadError.OutOfMemory }
    {
        self.ask(name)?;
        Ok(self.text(most)?)
    }

    fn faults(&self) -> u64 {
        0
    }
}

/// A source of one text.
#[derive(Debug, Drop)]
pub struct SureSource {
    alloc: Global,
    text: Vec<u8>,
    taken: usize,
    ends: u64,
}

impl Model for SureSource {
    ghost use Rattle.std.specs.Prelude.{◌≤◌, length, drop};
    ghost use Rattle.stm_io.specs.Memory.{SureSourceValue};

    ghost Value = { SureSourceValue };

    ghost view = { λ a. record { rest = drop a.taken a.text.items; ends = a.ends } };

    ghost invariant = { λ a. a.taken ≤ length a.text.items };
}

impl SureSource {
    /// A source of that text, of which nothing was taken yet.
    pub fn new(alloc: Global, text: Vec<u8>) -> SureSource
        ensures { result ≡ record { rest = text.items; ends = 0 } }
    {
        SureSource {
            alloc,
            text,
            taken: 0,
            ends: 0,
        }
    }

    /// How many of its answers were empty, up to the last number of 64 bits.
    pub fn ends(&self) -> u64
        ensures { result ≡ self.now.ends }
    {
        self.ends
    }

    /// Loses that many bytes, or all where there are fewer.
    pub(crate) fn lose(&mut self, bytes: usize)
        ensures rest { self.new.rest ≡ drop bytes self.old.rest }
        ensures same { self.new.ends ≡ self.old.ends }
    {
        self.taken += bytes.min(self.text.len() - self.taken);
    }
}

impl Source for SureSource {
    ghost state = { sure_source_state };

    fn take_line(&mut self, most: usize) -> Result<Vec<u8>, TakeError>
        requires { 1 ≤ most }
        ensures line { IfOk result (λ l. l.items ≡ line_of most self.old.rest) }
        ensures short { IfOk result (λ l. length l.items ≤ most) }
        ensures rest { IfOk result (λ l. self.new.rest ≡ drop (length l.items) self.old.rest) }
        ensures ends { IfOk result (λ l. self.new.ends ≡ ends_after l.items self.old.ends) }
        ensures same { OnErr result (self.new ≡ self.old) }
        ensures sure { IsOkUnless result TakeError.OutOfMemory }
    {
        let line = first_line(&self.text[self.taken..], most);
        let answer = Vec::from_slice(self.alloc, line)?;
        self.taken += line.len();
        if answer.is_empty() {
            self.ends = self.ends.saturating_add(1);
        }
        Ok(answer)
    }

    fn faults(&self) -> u64 {
        0
    }
}

/// A sink that takes all.
#[derive(Debug, Drop)]
pub struct SureSink {
    bytes: Vec<u8>,
}

impl Model for SureSink {
    ghost use Rattle.std.specs.Prelude.{List, ℕ};

    ghost Value = { List ℕ };

    ghost view = { λ a. a.bytes.items };
}

impl SureSink {
    /// A sink to which nothing was written yet.
    pub fn new(alloc: Global) -> SureSink
        ensures { result ≡ [] }
    {
        SureSink {
            bytes: Vec::new(alloc),
        }
    }

    /// The bytes that were written, the first one first.
    pub fn written(&self) -> &[u8]
        ensures { result.now ≡ self.now }
    {
        self.bytes.as_slice()
    }
}

impl Sink for SureSink {
    ghost state = { sure_sink_state };

    fn put(&mut self, bytes: &[u8]) -> Result<(), PutError>
        ensures ok { OnOk result (self.new ≡ self.old ++ bytes.now) }
        ensures err { OnErr result (self.new ≡ self.old) }
        ensures sure { IsOkUnless result PutError.OutOfMemory }
    {
        self.bytes.extend_from_slice(bytes)?;
        Ok(())
    }

    fn faults(&self) -> u64 {
        0
    }
}

/// A gate that holds nobody up.
#[derive(Clone, Copy, Debug, PartialEq, Eq)]
pub struct OpenGate;

impl Gate for OpenGate {
    fn enter(&self, _worker: u8, _thread: u32) {}
}
