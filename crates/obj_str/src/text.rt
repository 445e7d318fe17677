//! The bytes of a string, and new strings.
ghost use Rattle.std.specs.Prelude.{◌≡◌};
ghost use Rattle.obj_str.specs.Cutting.{fitted_row};
ghost use Rattle.obj_str.specs.Strings.{new_text};
ghost use Rattle.py_data.specs.declared.record.Got.TheVariants.{Raise};
ghost use Rattle.py_data.specs.Fault.{memory_fault};
ghost use Rattle.py_data.specs.Looking.{bytes_row};
ghost use Rattle.py_data.specs.Sense.{Meets, Safe, IsLive};

use crate::short::{SHORT, Text};
use py_data::exception::MEMORY_ERROR;
use py_data::{
    Addr, Bytes, Fault, Got, Kind, LENGTH_LIMIT, Record, Stop, Value, Values, View, With,
};
use std::alloc::Global;

/// The bytes of a record; nothing of one that isn't a string. One look at the record.
#[tactic(auto, using(py_data::proofs::Rows::row_steps), unfolding(py_data::specs::Looking::bytes_row))]
pub fn bytes_of<S, V: View<S>>(alloc: Global, v: &mut V, a: Addr) -> Result<Text, Stop>
    requires live { IsLive V.sense v.old }
    requires safe { Safe V.sense.partial (bytes_row {S = S} a.0) (V.sense.heap v.old) }
    ensures { Meets V.sense (bytes_row a.0) v.old v.new result }
{
    let n = v.byte_len(a)?;
    if n <= SHORT {
        let mut room = [0; SHORT];
        v.copy_bytes(a, 0, &mut room[..n])?;
        return Ok(Text::short(alloc, room, n));
    }
    let mut room = vec![in alloc; 0; n]?;
    v.copy_bytes(a, 0, room.as_mut_slice())?;
    Ok(Text::long(room))
}

/// The answer of an operation that would make a record longer than one may be: MemoryError, without a text.
pub fn too_long<T>() -> Got<T>
    ensures { result ≡ Raise memory_fault }
{
    Got::Raise(Fault {
        exc: MEMORY_ERROR,
        with: With::Nothing,
    })
}

/// A new string of these bytes. MemoryError, before anything is made, where they are more than `LENGTH_LIMIT`.
#[tactic(auto, using(py_data::proofs::Rows::row_steps), unfolding(crate::specs::Strings::new_text))]
pub fn make_str<S, V: View<S>>(alloc: Global, v: &mut V, b: &[u8]) -> Result<Got<Value>, Stop>
    requires live { IsLive V.sense v.old }
    requires safe { Safe V.sense.partial (new_text {S = S} b.now) (V.sense.heap v.old) }
    ensures { Meets V.sense (new_text b.now) v.old v.new result }
{
    if b.len() <= LENGTH_LIMIT {
        let made = Record {
            kind: Kind::Str,
            values: Values::new(alloc),
            bytes: Bytes::from_slice(alloc, b)?,
        };
        Ok(Got::Is(Value::Ref(v.make(&made)?)))
    } else {
        Ok(too_long())
    }
}

/// A new string of a text. MemoryError where it has become longer than a string may be.
#[tactic(auto, using(py_data::proofs::Rows::row_steps), unfolding(crate::specs::Cutting::fitted_row))]
pub fn make_fitting<S, V: View<S>>(
    alloc: Global,
    v: &mut V,
    text: Option<Bytes>,
) -> Result<Got<Value>, Stop>
    requires live { IsLive V.sense v.old }
    requires safe { Safe V.sense.partial (fitted_row {S = S} text) (V.sense.heap v.old) }
    ensures { Meets V.sense (fitted_row text) v.old v.new result }
{
    match text {
        Some(bytes) => {
            let made = Record {
                kind: Kind::Str,
                values: Values::new(alloc),
                bytes,
            };
            Ok(Got::Is(Value::Ref(v.make(&made)?)))
        }
        None => Ok(too_long()),
    }
}
