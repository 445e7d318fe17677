//! Devices in memory whose calls fail as planned. Each holds one that never fails.
ghost use Rattle.std.specs.Prelude.{◌≡◌, ◌≤◌, [], ◌∷◌, ◌++◌, length, drop, take, IfOk, IfErr, OnOk};
ghost use Rattle.py_data.specs.World.{ends_after, line_of};
ghost use Rattle.stm_io.specs.Memory.{called, planned, mem_loader_state, mem_source_state, mem_sink_state, MemLoads, MemTakes, MemPuts};
ghost use Rattle.stm_io.specs.Outside.{LoadStops};

use crate::device::{Loader, Sink, Source};
use crate::error::{LoadError, PutError, TakeError};
use crate::fail::{Fail, Schedule};
use crate::piece::front;
use crate::sure::{SureLoader, SureSink, SureSource};
use py_data::Bytes;
use std::alloc::Global;
use std::marker::Model;

/// A loader that knows one file.
#[derive(Debug, Drop)]
pub struct MemLoader {
    name: Vec<u8>,
    loader: SureLoader,
    schedule: Schedule,
    faults: u64,
}

impl Model for MemLoader {
    ghost use Rattle.stm_io.specs.Memory.{MemLoaderValue};

    ghost Value = { MemLoaderValue };

    ghost view = { λ a. record {
      name = a.name.items;
      text = a.loader.text;
      asked = a.loader.asked;
      plan = a.schedule;
      faults = a.faults;
    } };
}

impl MemLoader {
    /// A loader of that text under that name. Its calls fail as planned, and so does each call for another name.
    pub fn new(alloc: Global, name: Vec<u8>, text: Vec<u8>, fails: Vec<Fail>) -> MemLoader
        ensures { result ≡ record {
          name = name.items;
          text = text.items;
          asked = [];
          plan = planned fails.items;
          faults = 0;
        } }
    {
        MemLoader {
            name,
            loader: SureLoader::new(alloc, text),
            schedule: Schedule::new(fails),
            faults: 0,
        }
    }

    /// The names that it was asked for, the first one first.
    pub fn asked(&self) -> &[Bytes]
        ensures { result.now ≡ self.now.asked }
    {
        self.loader.asked()
    }
}

impl Loader for MemLoader {
    ghost state = { mem_loader_state };

    fn load(&mut self, name: &str, most: usize) -> Result<Vec<u8>, LoadError>
        ensures text { IfOk result (λ v. v.items ≡ take most self.old.text) }
        ensures short { IfOk result (λ v. length v.items ≤ most) }
        ensures asked { OnOk result (self.new.asked ≡ self.old.asked ++ name.now ∷ []) }
        ensures stops { IfErr result (λ e. LoadStops name.now e (mem_loader_state self.old)
            (mem_loader_state self.new)) }
        ensures same_name { self.new.name ≡ self.old.name }
        ensures same_text { self.new.text ≡ self.old.text }

        // The plan and the name decide which answer it is, where there is memory.
        ensures cause { MemLoads name.now result self.old self.new }
        ensures plan { self.new.plan ≡ called self.old.plan }
        ensures later { self.old.faults ≤ self.new.faults }
    {
        let due = self.schedule.count_call();
        self.loader.ask(name)?;
        if due.is_some() || name.as_bytes() != self.name.as_slice() {
            self.faults = self.faults.saturating_add(1);
            return Err(LoadError::Failed);
        }
        Ok(self.loader.text(most)?)
    }

    fn faults(&self) -> u64 {
        self.faults
    }
}

/// A source of one text.
#[derive(Debug, Drop)]
pub struct MemSource {
    source: SureSource,
    schedule: Schedule,
    faults: u64,
}

impl Model for MemSource {
    ghost use Rattle.stm_io.specs.Memory.{MemSourceValue};

    ghost Value = { MemSourceValue };

    ghost view = { λ a. record { rest = a.source.rest; plan = a.schedule; faults = a.faults; ends = a.source.ends } };
}

impl MemSource {
    /// A source of that text, of which nothing was taken yet. Its calls fail as planned.
    pub fn new(alloc: Global, text: Vec<u8>, fails: Vec<Fail>) -> MemSource
        ensures { result ≡ record { rest = text.items; plan = planned fails.items; faults = 0; ends = 0 } }
    {
        MemSource {
            source: SureSource::new(alloc, text),
            schedule: Schedule::new(fails),
            faults: 0,
        }
    }

    /// How many of its answers were empty, up to the last number of 64 bits.
    pub fn ends(&self) -> u64
        ensures { result ≡ self.now.ends }
    {
        self.source.ends()
    }
}

impl Source for MemSource {
    ghost state = { mem_source_state };

    fn take_line(&mut self, most: usize) -> Result<Vec<u8>, TakeError>
        requires { 1 ≤ most }
        ensures line { IfOk result (λ l. l.items ≡ line_of most self.old.rest) }
        ensures short { IfOk result (λ l. length l.items ≤ most) }
        ensures rest { IfOk result (λ l. self.new.rest ≡ drop (length l.items) self.old.rest) }
        ensures ends { IfOk result (λ l. self.new.ends ≡ ends_after l.items self.old.ends) }

        // The plan decides which answer it is, where there is memory.
        ensures cause { MemTakes result self.old self.new }
        ensures plan { self.new.plan ≡ called self.old.plan }
        ensures later { self.old.faults ≤ self.new.faults }
    {
        if let Some(bytes) = self.schedule.count_call() {
            self.source.lose(bytes);
            self.faults = self.faults.saturating_add(1);
            return Err(TakeError::Failed);
        }
        self.source.take_line(most)
    }

    fn faults(&self) -> u64 {
        self.faults
    }
}

/// A sink that keeps what is written to it.
#[derive(Debug, Drop)]
pub struct MemSink {
    sink: SureSink,
    schedule: Schedule,
    faults: u64,
}

impl Model for MemSink {
    ghost use Rattle.stm_io.specs.Memory.{MemSinkValue};

    ghost Value = { MemSinkValue };

    ghost view = { λ a. record { written = a.sink; plan = a.schedule; faults = a.faults } };
}

impl MemSink {
    /// A sink to which nothing was written yet. Its calls fail as planned.
    pub fn new(alloc: Global, fails: Vec<Fail>) -> MemSink
        ensures { result ≡ record { written = []; plan = planned fails.items; faults = 0 } }
    {
        MemSink {
            sink: SureSink::new(alloc),
            schedule: Schedule::new(fails),
            faults: 0,
        }
    }

    /// The bytes that were written, the first one first.
    pub fn written(&self) -> &[u8]
        ensures { result.now ≡ self.now.written }
    {
        self.sink.written()
    }
}

impl Sink for MemSink {
    ghost state = { mem_sink_state };

    fn put(&mut self, bytes: &[u8]) -> Result<(), PutError>
        // The plan decides which answer it is, where there is memory.
        ensures written { MemPuts bytes.now result self.old self.new }
        ensures plan { self.new.plan ≡ called self.old.plan }
        ensures later { self.old.faults ≤ self.new.faults }
    {
        if let Some(most) = self.schedule.count_call() {
            self.sink.put(front(bytes, most))?;
            self.faults = self.faults.saturating_add(1);
            return Err(PutError::Failed);
        }
        self.sink.put(bytes)
    }

    fn faults(&self) -> u64 {
        self.faults
    }
}
