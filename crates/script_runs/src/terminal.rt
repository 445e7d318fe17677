//! A source whose input goes on behind an end.
ghost use Rattle.std.specs.Prelude.{None};
ghost use Rattle.py_data.specs.World.{ends_after};

use std::alloc::Global;
use stm_io::{Source, SureSource, TakeError};

/// A source of two texts with an end between them, as a terminal gives them. It tells nothing of what is left.
#[derive(Debug, Drop)]
pub struct Terminal {
    script: SureSource,
    input: SureSource,
    ends: u64,
}

impl Terminal {
    /// A source of a script and of the input behind it.
    pub fn new(alloc: Global, script: Vec<u8>, input: Vec<u8>) -> Terminal {
        Terminal {
            script: SureSource::new(alloc, script),
            input: SureSource::new(alloc, input),
            ends: 0,
        }
    }
}

impl Source for Terminal {
    ghost state = { λ s. record { told = None; faults = 0; ends = s.ends } };

    fn take_line(&mut self, most: usize) -> Result<Vec<u8>, TakeError> {
        let taken = if self.ends == 0 {
            self.script.take_line(most)
        } else {
            self.input.take_line(most)
        };
        match taken {
            Ok(line) => {
                if line.is_empty() {
                    self.ends = self.ends.saturating_add(1);
                }
                Ok(line)
            }
            Err(_) => Err(TakeError::OutOfMemory),
        }
    }

    fn faults(&self) -> u64 {
        0
    }
}
