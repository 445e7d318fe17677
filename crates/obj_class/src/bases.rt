//! Whether a class is below another.
ghost use Rattle.py_data.specs.Sense.{Meets, Safe, IsLive};
ghost use Rattle.obj_class.specs.Bases.{base_step, is_sub_row, sub_step};

use py_data::{Addr, Stop, Value, View, look};

/// As many turns as there are addresses: no way along bases is longer.
pub const MOST_BASES: u64 = 4_294_967_296;

/// One turn at a class: its base, or the answer.
#[tactic(auto, using(py_data::proofs::Rows::row_steps, py_data::proofs::Steps::call_steps), unfolding(crate::specs::Bases::base_step))]
fn base_step<S, V: View<S>>(v: &mut V, base: Addr, c: Addr) -> Result<Result<Value, bool>, Stop>
    requires live { IsLive V.sense v.old }
    requires safe { Safe V.sense.partial (base_step {S = S} base.0 c.0) (V.sense.heap v.old) }
    ensures { Meets V.sense (base_step base.0 c.0) v.old v.new result }
{
    if c.0 == base.0 {
        Ok(Err(true))
    } else {
        let b = look(v, c, 1)?;
        Ok(Ok(b))
    }
}

/// One turn: where to go on, or the answer.
#[tactic(auto, using(py_data::proofs::Rows::row_steps), unfolding(crate::specs::Bases::sub_step))]
fn sub_step<S, V: View<S>>(v: &mut V, base: Addr, at: Value) -> Result<Result<Value, bool>, Stop>
    requires live { IsLive V.sense v.old }
    requires safe { Safe V.sense.partial (sub_step {S = S} base.0 at) (V.sense.heap v.old) }
    ensures { Meets V.sense (sub_step base.0 at) v.old v.new result }
{
    match at {
        Value::Ref(c) => base_step(v, base, c),
        _ => Ok(Err(false)),
    }
}

/// Whether a class is another one, or has it among its bases: Python 2.7's `issubclass`. It takes as many turns as
/// there are addresses at most, and ends where a class has no base.
pub fn is_sub<S, V: View<S>>(v: &mut V, c: Addr, base: Addr) -> Result<bool, Stop>
    requires live { IsLive V.sense v.old }
    requires safe { Safe V.sense.partial (is_sub_row {S = S} c.0 base.0) (V.sense.heap v.old) }
    ensures { Meets V.sense (is_sub_row c.0 base.0) v.old v.new result }
{
    let mut at = Value::Ref(c);
    'turns: for _ in 0..MOST_BASES {
        let turn = sub_step(v, base, at)?;
        match turn {
            Ok(b) => at = b,
            Err(found) => return Ok(found),
        }
    }
    Ok(false)
}
