//! A frame that is entered.
ghost use Rattle.std.specs.Prelude.{◌≡◌, IfOk};

use crate::state::Frame;
use py_data::NoMemory;
use std::alloc::Global;
use std::marker::Model;

/// A frame that an instruction enters, in memory of its own, so that what an instruction leads to stays small.
/// Contracts see the frame.
#[derive(Debug, Drop)]
pub struct Entered {
    frame: Box<Frame>,
}

impl Model for Entered {
    ghost use Rattle.py_frames.specs.declared.state.Frame.{Frame};

    ghost Value = { Frame };

    ghost view = { λ a. a.frame.value };
}

impl Entered {
    /// This frame.
    pub fn new(alloc: Global, frame: Frame) -> Result<Entered, NoMemory>
        ensures { IfOk result (λ a. a ≡ frame) }
    {
        Ok(Entered {
            frame: Box::new(alloc, frame)?,
        })
    }

    /// The frame.
    pub fn frame(&self) -> &Frame
        ensures { result.now ≡ self.now }
    {
        &self.frame
    }
}
