//! The shape of a place: what stands on the stack and which blocks are open when it is reached.
ghost use Rattle.std.specs.Prelude.{◌≡◌, ◌↔◌, ◌+◌, ◌<◌, ◌≤◌, ◌^◌, [], ◌∷◌, IfOk, IsTrue, length};
ghost use Rattle.py_code.specs.Effects.{after, blocks_after, effect, Fine, floor_of, HasBlock, pushed_there, Sh, there};
ghost use Rattle.py_code.specs.Typing.{start};
ghost use Rattle.py_verify.specs.inner.Flows.{effect_of, flow_of};

use crate::bounds::Bounds;
use crate::effect::{Effect, Flow};
use py_base::NoMemory;
use py_code::Instr;
use std::alloc::Global;
use std::marker::Model;

/// The height of the stack, and the heights of the open blocks, the innermost first.
#[derive(Drop)]
pub struct Shape {
    height: u32,
    blocks: Vec<u32>,
}

impl Model for Shape {
    ghost use Rattle.py_code.specs.Effects.{Sh};

    ghost Value = { Sh };

    ghost view = { λ s. record { height = s.height; blocks = s.blocks.items } };
}

impl Shape {
    /// The shape of the first place.
    pub fn start(alloc: Global) -> Shape
        ensures { result ≡ start }
    {
        Shape {
            height: 0,
            blocks: Vec::new(alloc),
        }
    }

    /// Whether both shapes are one.
    pub fn same(&self, other: &Shape) -> bool
        ensures { IsTrue result ↔ (self.now ≡ other.now) }
    {
        self.height == other.height && self.blocks.as_slice() == other.blocks.as_slice()
    }

    /// The height below which nothing may be taken.
    fn floor(&self) -> u32
        ensures { result ≡ floor_of self.now.blocks }
    {
        if self.blocks.len() > 0 {
            self.blocks[0]
        } else {
            0
        }
    }

    /// Whether a block that is ended is open.
    fn has_block(&self, flow: Flow) -> bool
        ensures { IsTrue result ↔ HasBlock (flow_of flow) self.now.blocks }
    {
        match flow {
            Flow::Closes => self.blocks.len() > 0,
            _ => true,
        }
    }

    /// Whether an instruction finds here what it needs.
    pub fn is_fine(&self, k: &Bounds<'_>, i: Instr, e: &Effect) -> bool
        requires { effect_of e.now ≡ effect k.now i }
        ensures { IsTrue result ↔ Fine k.now i self.now }
    {
        let floor = self.floor();
        floor <= self.height
            && e.pops <= (self.height - floor) as u64
            && e.pushes < (u32::MAX - self.height) as u64
            && self.has_block(e.flow)
            && k.is_known(i)
    }

    /// The open blocks behind an instruction.
    fn blocks_after(&self, alloc: Global, flow: Flow) -> Result<Vec<u32>, NoMemory>
        requires { HasBlock (flow_of flow) self.now.blocks }
        ensures { IfOk result (λ bs. bs.items ≡ blocks_after (flow_of flow) self.now.height self.now.blocks) }
    {
        match flow {
            Flow::Opens(_) => {
                let mut blocks = Vec::new(alloc);
                blocks.push(self.height)?;
                blocks.extend_from_slice(self.blocks.as_slice())?;
                Ok(blocks)
            }
            Flow::Closes => self.blocks[1..].to_vec(alloc),
            _ => self.blocks.as_slice().to_vec(alloc),
        }
    }

    /// The shape behind an instruction, where the next place follows.
    pub fn after(&self, alloc: Global, e: &Effect) -> Result<Shape, NoMemory>
        requires operands { e.now.pops ≤ self.now.height }
        requires room { self.now.height + e.now.pushes + 1 < 2 ^ 32 }
        requires block { HasBlock (flow_of e.now.flow) self.now.blocks }
        ensures { IfOk result (λ s. s ≡ after (effect_of e.now) self.now) }
    {
        let height = self.height - e.pops as u32 + e.pushes as u32;
        let blocks = self.blocks_after(alloc, e.flow)?;
        Ok(Shape { height, blocks })
    }

    /// The shape at the place that an instruction names.
    pub fn there(&self, alloc: Global, e: &Effect) -> Result<Shape, NoMemory>
        requires operands { e.now.pops ≤ self.now.height }
        requires room { self.now.height + pushed_there (flow_of e.now.flow) < 2 ^ 32 }
        ensures { IfOk result (λ s. s ≡ there (effect_of e.now) self.now) }
    {
        let height = self.height - e.pops as u32 + e.flow.pushed_there();
        let blocks = self.blocks.as_slice().to_vec(alloc)?;
        Ok(Shape { height, blocks })
    }
}
