//! Extents, spans of words, and notes of what stood at a place.
ghost use Rattle.std.specs.Prelude.{◌≡◌, ◌≤◌, ◌^◌};

/// Words from a place on.
#[derive(Clone, Copy, Debug, Drop)]
pub struct Span {
    pub place: u32,
    pub words: u32,
}

/// An extent of `2 ^ class` words, from a place on.
#[derive(Clone, Copy, Debug, Drop)]
pub struct Extent {
    pub place: u32,
    pub class: u8,
}

/// The word that stood at a place before a step wrote to it.
#[derive(Clone, Copy, Debug, Drop)]
pub struct Note {
    pub place: u32,
    pub word: u64,
}

impl Extent {
    /// How many words it has.
    pub fn words(&self) -> u32
        requires { self.now.class ≤ 21 }
        ensures { result ≡ 2 ^ self.now.class }
    {
        1u32 << self.class
    }
}
