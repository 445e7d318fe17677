//! What lies outside of a core.

/// The devices of a core, and whether its output is in the middle of a line.
#[derive(Drop)]
pub struct Devices<I, O, E> {
    /// What lines are taken from.
    pub input: I,
    /// The output.
    pub out: O,
    /// The error output.
    pub err: E,
    /// The output is in the middle of a line.
    pub mid: bool,
    /// It was, when the open step began.
    pub was_mid: bool,
}
