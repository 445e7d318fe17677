//! What the three values of a range's record say.
ghost use Rattle.std.specs.Prelude.{◌≡◌, ◌≢◌, ◌<◌, ◌^◌, pos, true, IfOk, IfSome};
ghost use Rattle.py_data.specs.Sense.{IsLive, Asks, Shows};
ghost use Rattle.py_data.specs.Range.{range_length};
ghost use Rattle.py_data.specs.Row.{Read};
ghost use Rattle.obj_seq.specs.Iter.{three, is_range, span_in, span_of};
ghost use Rattle.obj_seq.specs.inner.Heads.{three_in};

use crate::range::range_length;
use py_data::{Addr, Head, Stop, Value, View};

/// The values of a record that has three, by a look at it.
pub fn three_in(head: Head) -> Option<(Value, Value, Value)>
    ensures { result ≡ three_in head }
{
    if head.count == 3 {
        Some((head.first, head.second, head.third))
    } else {
        None
    }
}

/// The values of a record that has three, as those of an iterator and of a range have.
#[tactic(auto, using(py_data::proofs::Rows::row_steps, crate::proofs::Heads::three_of_head))]
pub fn three<S, V: View<S>>(v: &mut V, a: Addr) -> Result<Option<(Value, Value, Value)>, Stop>
    requires live { IsLive V.sense v.old }
    requires there { Asks {S = S} V.sense.partial (Read a.0) (V.sense.heap v.old) }
    ensures { Shows V.sense a.0 (λ r. three r.values) v.old v.new result }
{
    let head = v.head(a)?;
    Ok(three_in(head))
}

/// A range: its start, its stop and its step, which isn't 0.
#[derive(Clone, Copy)]
pub struct Span {
    pub start: i64,
    pub stop: i64,
    pub step: i64,
}

impl Span {
    ghost use Rattle.std.specs.Prelude.{◌≡◌, ◌≢◌, pos};
    ghost use Rattle.py_data.specs.Range.{range_length};

    /// How many numbers it has.
    pub fn count(self) -> u64
        requires { self.step ≢ pos 0 }
        ensures { result ≡ range_length self.start self.stop self.step }
    {
        range_length(self.start, self.stop, self.step)
    }
}

/// Whether three numbers are those of a range.
fn is_range(start: i64, stop: i64, step: i64) -> bool
    ensures value { result ≡ is_range start stop step }
    ensures some { result ≡ true → step ≢ pos 0 }
    ensures fits { result ≡ true → range_length start stop step < 2 ^ 63 }
{
    step != 0 && range_length(start, stop, step) <= i64::MAX as u64
}

/// What three values say of a range.
pub fn span_in(values: Option<(Value, Value, Value)>) -> Option<Span>
    ensures value { result ≡ span_in values }
    ensures some { IfSome result (λ s. s.step ≢ pos 0) }
    ensures fits { IfSome result (λ s. range_length s.start s.stop s.step < 2 ^ 63) }
{
    match values {
        Some((Value::Int(start), Value::Int(stop), Value::Int(step))) => {
            if is_range(start, stop, step) {
                Some(Span { start, stop, step })
            } else {
                None
            }
        }
        _ => None,
    }
}

/// What a record's values say of a range.
#[tactic(auto, using(py_data::proofs::Rows::row_steps))]
pub fn read_span<S, V: View<S>>(v: &mut V, a: Addr) -> Result<Option<Span>, Stop>
    requires live { IsLive V.sense v.old }
    requires there { Asks {S = S} V.sense.partial (Read a.0) (V.sense.heap v.old) }
    ensures shows { Shows V.sense a.0 (λ r. span_of r.values) v.old v.new result }
    ensures some { IfOk result (λ o. IfSome o (λ s. s.step ≢ pos 0)) }
    ensures fits { IfOk result (λ o. IfSome o (λ s. range_length s.start s.stop s.step < 2 ^ 63)) }
{
    let values = three(v, a)?;
    Ok(span_in(values))
}
