//! Records that are made of values at hand.
ghost use Rattle.std.specs.Prelude.{◌≡◌, IfOk, [], ◌∷◌};
ghost use Rattle.py_base.specs.declared.kind.Kind.TheVariants.{Str};
ghost use Rattle.py_data.specs.Heap.{new_rec};
ghost use Rattle.py_data.specs.Sense.{Meets, Safe, IsLive};
ghost use Rattle.obj_class.specs.Exceptions.{made_row};

use py_data::{Bytes, Kind, NoMemory, Record, Stop, Value, Values, View};
use std::alloc::Global;

/// The one value as a list.
pub fn one(alloc: Global, x: Value) -> Result<Values, NoMemory>
    ensures { IfOk result (λ vs. vs ≡ x ∷ []) }
{
    let mut values = Values::new(alloc);
    values.push(x)?;
    Ok(values)
}

/// Two values as a list.
pub fn two(alloc: Global, x: Value, y: Value) -> Result<Values, NoMemory>
    ensures { IfOk result (λ vs. vs ≡ x ∷ y ∷ []) }
{
    let mut values = Values::new(alloc);
    values.push(x)?;
    values.push(y)?;
    Ok(values)
}

/// Three values as a list.
pub fn three(alloc: Global, x: Value, y: Value, z: Value) -> Result<Values, NoMemory>
    ensures { IfOk result (λ vs. vs ≡ x ∷ y ∷ z ∷ []) }
{
    let mut values = Values::new(alloc);
    values.push(x)?;
    values.push(y)?;
    values.push(z)?;
    Ok(values)
}

/// Makes a record of these values.
#[tactic(auto, using(py_data::proofs::Rows::row_steps), unfolding(crate::specs::Exceptions::made_row))]
pub fn make_record<S, V: View<S>>(
    alloc: Global,
    v: &mut V,
    kind: Kind,
    values: Values,
) -> Result<Value, Stop>
    requires live { IsLive V.sense v.old }
    requires safe { Safe V.sense.partial (made_row {S = S} (new_rec kind values [])) (V.sense.heap v.old) }
    ensures { Meets V.sense (made_row (new_rec kind values [])) v.old v.new result }
{
    let made = Record {
        kind,
        values,
        bytes: Bytes::new(alloc),
    };
    Ok(Value::Ref(v.make(&made)?))
}

/// Makes a string.
#[tactic(auto, using(py_data::proofs::Rows::row_steps), unfolding(crate::specs::Exceptions::made_row))]
pub fn make_text<S, V: View<S>>(alloc: Global, v: &mut V, text: &[u8]) -> Result<Value, Stop>
    requires live { IsLive V.sense v.old }
    requires safe { Safe V.sense.partial (made_row {S = S} (new_rec Str [] text.now)) (V.sense.heap v.old) }
    ensures { Meets V.sense (made_row (new_rec Str [] text.now)) v.old v.new result }
{
    let made = Record {
        kind: Kind::Str,
        values: Values::new(alloc),
        bytes: Bytes::from_slice(alloc, text)?,
    };
    Ok(Value::Ref(v.make(&made)?))
}
