//! The ways out of constructs.

/// The ways out of constructs.
#[derive(Clone, Copy)]
pub enum Way {
    /// To the end of the innermost loop.
    Break,
    /// To its next turn.
    Continue,
    /// Out of the body.
    Out,
}
