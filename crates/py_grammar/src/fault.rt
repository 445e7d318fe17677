//! Why reading stops at a token.
ghost use Rattle.std.specs.Prelude.{◌≡◌};
ghost use Rattle.py_grammar.specs.Refused.{refusal_of};

use py_base::{Construct, Refusal};

/// Why a list of tokens has no tree, at the token where that shows.
#[derive(Clone, Copy, Debug, Drop, PartialEq, Eq)]
pub enum Fault {
    /// The token continues no module.
    Unexpected,
    /// With this construct, which the language leaves out, it would continue one.
    LeftOut(Construct),
    /// Every module that it continues is higher than the limit.
    Deep,
}

impl Fault {
    /// The refusal of a token of this line.
    pub fn at(self, line: u32) -> Refusal
        ensures { result ≡ refusal_of self line }
    {
        match self {
            Fault::Unexpected => Refusal::Unexpected { line },
            Fault::LeftOut(construct) => Refusal::LeftOut { construct, line },
            Fault::Deep => Refusal::Deep { line },
        }
    }
}
