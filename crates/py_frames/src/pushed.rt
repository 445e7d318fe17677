//! The values that an instruction pushes.
ghost use Rattle.std.specs.Prelude.{◌≡◌, [], ◌∷◌, IfOk};

use py_data::{NoMemory, Value, Values};
use std::alloc::Global;
use std::marker::Model;

/// Where the values are held.
#[derive(Debug, Drop)]
enum Held {
    Nothing,
    One([Value; 1]),
    Two([Value; 2]),
    More(Values),
}

/// Values that are pushed: up to two of them in place, so that they take no memory, and more in a list. Contracts see
/// them in their order.
#[derive(Debug, Drop)]
pub struct Pushed {
    held: Held,
}

impl Model for Pushed {
    ghost use Rattle.std.specs.Prelude.{List};
    ghost use Rattle.py_data.specs.declared.value.Value.{Value as Operand};

    ghost Value = { List Operand };

    ghost use Rattle.py_frames.specs.inner.Held.{held_values};

    ghost view = { λ a. held_values a.held };
}

impl Pushed {
    /// No value.
    pub fn none() -> Pushed
        ensures { result ≡ [] }
    {
        Pushed {
            held: Held::Nothing,
        }
    }

    /// One value.
    pub fn one(x: Value) -> Pushed
        ensures { result ≡ x ∷ [] }
    {
        Pushed {
            held: Held::One([x]),
        }
    }

    /// Two values, the second on top.
    pub fn two(x: Value, y: Value) -> Pushed
        ensures { result ≡ x ∷ y ∷ [] }
    {
        Pushed {
            held: Held::Two([x, y]),
        }
    }

    /// The values of a list, the last on top.
    pub fn of(values: Values) -> Pushed
        ensures { result ≡ values }
    {
        Pushed {
            held: Held::More(values),
        }
    }

    /// The values of a slice, the last on top. Up to two of them take no memory.
    pub fn from_slice(alloc: Global, xs: &[Value]) -> Result<Pushed, NoMemory>
        ensures { IfOk result (λ a. a ≡ xs.now) }
    {
        match xs.len() {
            0 => Ok(Pushed::none()),
            1 => Ok(Pushed::one(xs[0])),
            2 => Ok(Pushed::two(xs[0], xs[1])),
            _ => Ok(Pushed::of(Values::from_slice(alloc, xs)?)),
        }
    }

    /// The values in their order.
    pub fn as_slice(&self) -> &[Value]
        ensures { result.now ≡ self.now }
    {
        match &self.held {
            Held::Nothing => &[],
            Held::One(xs) => xs.as_slice(),
            Held::Two(xs) => xs.as_slice(),
            Held::More(values) => values.as_slice(),
        }
    }
}
