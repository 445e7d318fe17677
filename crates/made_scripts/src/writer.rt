//! Writes forms, and fills their holes.
ghost use Rattle.std.specs.Prelude.{◌≤◌, ◌<◌, vec_len};

use crate::draws::Draws;
use crate::forms::{Hole, expression, plain_expression};
use crate::statements::{plain_statement, statement};
use std::alloc::{AllocError, Global};

/// How many forms of expressions are drawn into one another in a form at most.
const EXPRESSION_LEVEL: u8 = 2;

/// The level of a form for a hole, in a form of that level.
fn inner_level(letter: u8, level: u8) -> u8
    requires { 0 < level }
    ensures { result < level }
{
    if Hole::of(letter).is_expression() {
        EXPRESSION_LEVEL.min(level - 1)
    } else {
        level - 1
    }
}

/// A text that grows, and the draws that its forms come by.
#[derive(Drop)]
pub(crate) struct Writer {
    text: Vec<u8>,
    draws: Draws,
    /// How many spaces the line of the text's end begins with.
    margin: usize,
    /// That line has nothing else so far.
    is_front: bool,
}

impl Writer {
    /// A writer of an empty text.
    pub(crate) fn new(alloc: Global, draws: Draws) -> Writer {
        Writer {
            text: Vec::new(alloc),
            draws,
            margin: 0,
            is_front: true,
        }
    }

    /// Writes a byte.
    fn put(&mut self, byte: u8) -> Result<(), AllocError> {
        self.text.push(byte)?;
        if byte == b'\n' {
            self.margin = 0;
            self.is_front = true;
        } else if self.is_front && byte == b' ' {
            self.margin = self.margin.saturating_add(1);
        } else {
            self.is_front = false;
        }
        Ok(())
    }

    /// Writes a byte of a form that began at this margin.
    fn put_at(&mut self, byte: u8, margin: usize) -> Result<(), AllocError> {
        self.put(byte)?;
        if byte == b'\n' {
            for _ in 0..margin {
                self.put(b' ')?;
            }
        }
        Ok(())
    }

    /// Writes a form that has no hole.
    fn put_all(&mut self, form: &str) -> Result<(), AllocError> {
        let margin = self.margin;
        for byte in form.as_bytes() {
            self.put_at(*byte, margin)?;
        }
        Ok(())
    }

    /// A form for a hole that has holes of its own.
    fn form(&mut self, letter: u8, level: u8) -> &'static str {
        let hole = Hole::of(letter);
        if hole.is_expression() {
            expression(&mut self.draws, hole, level)
        } else {
            statement(&mut self.draws, hole)
        }
    }

    /// A form for a hole that has none itself.
    fn plain_form(&mut self, letter: u8) -> &'static str {
        let hole = Hole::of(letter);
        if hole.is_expression() {
            plain_expression(&mut self.draws, hole)
        } else {
            plain_statement(&mut self.draws, hole)
        }
    }

    /// Writes a form, with forms in its holes that are drawn into one another as many times as the level says, and
    /// fewer of expressions.
    pub(crate) fn fill(&mut self, form: &str, level: u8) -> Result<(), AllocError> {
        let margin = self.margin;
        let mut is_hole = false;
        'bytes: for byte in form.as_bytes() {
            if !is_hole {
                is_hole = *byte == b'@';
                if !is_hole {
                    self.put_at(*byte, margin)?;
                }
            } else {
                is_hole = false;
                if level == 0 {
                    let inner = self.plain_form(*byte);
                    self.put_all(inner)?;
                } else {
                    let inner = self.form(*byte, level);
                    self.fill(inner, inner_level(*byte, level))?;
                }
            }
        }
        Ok(())
    }

    /// The text, and the draws that are left.
    pub(crate) fn finish(self) -> (Vec<u8>, Draws) {
        (self.text, self.draws)
    }
}

/// Adds a piece to a text, if there is room for it.
pub(crate) fn add(text: &mut Vec<u8>, piece: &[u8], limit: usize) -> Result<(), AllocError>
    requires { vec_len text.old ≤ limit }
    ensures { vec_len text.new ≤ limit }
{
    let room = limit - text.len();
    if piece.len() <= room {
        text.extend_from_slice(piece)?;
    }
    Ok(())
}
