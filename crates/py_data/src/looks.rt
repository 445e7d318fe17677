//! Looks at one record: its kind, how many values it has, and its value at a place.
ghost use Rattle.std.specs.Prelude.{◌≤◌, IfOk};
ghost use Rattle.py_data.specs.declared.record.TheConstants.{LENGTH_LIMIT};
ghost use Rattle.py_data.specs.Sense.{Meets, Safe, IsLive};
ghost use Rattle.py_data.specs.Looking.{kind_row, size_row, look_row};

use crate::stop::Stop;
use crate::value::{Addr, Value};
use crate::view::View;
use py_base::Kind;

/// The kind of a record.
#[tactic(auto, using(crate::proofs::Rows::row_steps), unfolding(crate::specs::Looking::kind_row))]
pub fn kind<S, V: View<S>>(v: &mut V, a: Addr) -> Result<Kind, Stop>
    requires live { IsLive V.sense v.old }
    requires safe { Safe V.sense.partial (kind_row {S = S} a.0) (V.sense.heap v.old) }
    ensures { Meets V.sense (kind_row a.0) v.old v.new result }
{
    v.kind(a)
}

/// How many values a record has.
#[tactic(auto, using(crate::proofs::Rows::row_steps), unfolding(crate::specs::Looking::size_row))]
pub fn size<S, V: View<S>>(v: &mut V, a: Addr) -> Result<usize, Stop>
    requires live { IsLive V.sense v.old }
    requires safe { Safe V.sense.partial (size_row {S = S} a.0) (V.sense.heap v.old) }
    ensures met { Meets V.sense (size_row a.0) v.old v.new result }
    ensures fits { IfOk result (λ n. n ≤ LENGTH_LIMIT) }
{
    v.len(a)
}

/// The value of a record at a place; Unset where it has none there.
#[tactic(auto, using(crate::proofs::Rows::row_steps), unfolding(crate::specs::Looking::look_row))]
pub fn look<S, V: View<S>>(v: &mut V, a: Addr, i: usize) -> Result<Value, Stop>
    requires live { IsLive V.sense v.old }
    requires safe { Safe V.sense.partial (look_row {S = S} a.0 i) (V.sense.heap v.old) }
    ensures { Meets V.sense (look_row a.0 i) v.old v.new result }
{
    v.find_val(a, i)
}
