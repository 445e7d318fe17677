//! What each level of expressions adds to the level below it.
ghost use Rattle.std.specs.Prelude.{◌≡◌};
ghost use Rattle.py_grammar.specs.inner.Reading.{rung_of};

use py_grammar::Rung;
use py_tree::Level;

/// What the level above level `n` adds to it.
pub fn rung_of(n: u8) -> Rung
    ensures { result ≡ rung_of n }
{
    match n {
        0 => Rung::Trailed,
        1 => Rung::Powered,
        2 => Rung::Signed,
        3 => Rung::Chained(Level::Term),
        4 => Rung::Chained(Level::Sum),
        5 => Rung::Chained(Level::Shift),
        6 => Rung::Chained(Level::BitAnd),
        7 => Rung::Chained(Level::BitXor),
        8 => Rung::Chained(Level::BitOr),
        9 => Rung::Chained(Level::Compare),
        10 => Rung::Negated,
        11 => Rung::Chained(Level::And),
        12 => Rung::Chained(Level::Or),
        13 => Rung::Chosen,
        _ => Rung::Listed,
    }
}
