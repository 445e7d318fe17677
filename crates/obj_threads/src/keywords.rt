//! The keywords of `threading.Thread`.
ghost use Rattle.std.specs.Prelude.{◌≡◌, ◌+◌, ◌*◌, ◌<◌, length};
ghost use Rattle.py_data.specs.Heap.{value_at};
ghost use Rattle.py_data.specs.Sense.{Meets, Safe, IsLive};
ghost use Rattle.obj_threads.specs.Keywords as keywords;

use obj_str::{Text, bytes_of, wrong_arguments};
use py_data::{Addr, Got, Stop, Value, View};
use std::alloc::Global;

/// The values of the keywords that were given.
#[derive(Clone, Copy, Debug, Drop)]
pub struct Keywords {
    /// What the thread is to call.
    pub target: Option<Value>,
    /// Its arguments.
    pub args: Option<Value>,
}

/// Nothing is given.
fn no_keywords() -> Keywords
    ensures { result ≡ keywords.no_keywords }
{
    Keywords {
        target: None,
        args: None,
    }
}

/// Of one name the first value counts.
fn first_of(known: Option<Value>, x: Value) -> Option<Value>
    ensures { result ≡ keywords.first_of known x }
{
    match known {
        Some(y) => Some(y),
        None => Some(x),
    }
}

/// What is known once a keyword of this name has this value; none where there is no keyword of this name.
fn with_keyword(known: Keywords, name: &[u8], x: Value) -> Option<Keywords>
    ensures { result ≡ keywords.with_keyword known name.now x }
{
    if b"target".as_slice() == name {
        Some(Keywords {
            target: first_of(known.target, x),
            args: known.args,
        })
    } else if b"args".as_slice() == name {
        Some(Keywords {
            target: known.target,
            args: first_of(known.args, x),
        })
    } else {
        None
    }
}

/// The value at a place; Unset where there is none.
fn value_at(keys: &[Value], i: usize) -> Value
    ensures { result ≡ value_at keys.now i }
{
    match keys.get(i) {
        Some(x) => *x,
        None => Value::Unset,
    }
}

/// The bytes of a name.
#[tactic(auto, using(py_data::proofs::Rows::row_steps), unfolding(crate::specs::Keywords::name_row))]
fn name_of<S, V: View<S>>(alloc: Global, v: &mut V, name: Value) -> Result<Text, Stop>
    requires live { IsLive V.sense v.old }
    requires safe { Safe V.sense.partial (keywords.name_row {S = S} name) (V.sense.heap v.old) }
    ensures { Meets V.sense (keywords.name_row name) v.old v.new result }
{
    match name {
        Value::Ref(a) => bytes_of(alloc, v, a),
        _ => Ok(Text::from_slice(alloc, &[])?),
    }
}

/// The keywords, if all are known.
#[tactic(auto, using(py_data::proofs::Rows::row_steps), unfolding(crate::specs::Keywords::known_row))]
fn known<S, V: View<S>>(
    alloc: Global,
    v: &mut V,
    known: Option<Keywords>,
) -> Result<Got<Keywords>, Stop>
    requires live { IsLive V.sense v.old }
    requires safe { Safe V.sense.partial (keywords.known_row {S = S} known) (V.sense.heap v.old) }
    ensures { Meets V.sense (keywords.known_row known) v.old v.new result }
{
    match known {
        Some(k) => Ok(Got::Is(k)),
        None => wrong_arguments(alloc),
    }
}

/// The keyword of a name and its value.
#[tactic(auto, using(py_data::proofs::Rows::row_steps, py_data::proofs::Steps::call_steps), unfolding(crate::specs::Keywords::named_row))]
fn named<S, V: View<S>>(
    alloc: Global,
    v: &mut V,
    name: Value,
    x: Value,
    k: Keywords,
) -> Result<Got<Keywords>, Stop>
    requires live { IsLive V.sense v.old }
    requires safe { Safe V.sense.partial (keywords.named_row {S = S} name x k) (V.sense.heap v.old) }
    ensures { Meets V.sense (keywords.named_row name x k) v.old v.new result }
{
    let name = name_of(alloc, v, name)?;
    known(alloc, v, with_keyword(k, name.as_slice(), x))
}

/// The keyword of this number.
#[tactic(auto, using(py_data::proofs::Rows::row_steps), unfolding(crate::specs::Keywords::keyword_row))]
fn keyword<S, V: View<S>>(
    alloc: Global,
    v: &mut V,
    keys: &[Value],
    i: usize,
    k: Keywords,
) -> Result<Got<Keywords>, Stop>
    requires live { IsLive V.sense v.old }
    requires safe { Safe V.sense.partial (keywords.keyword_row {S = S} keys.now i k) (V.sense.heap v.old) }
    requires within { 2 * i + 1 < length keys.now }
    ensures { Meets V.sense (keywords.keyword_row keys.now i k) v.old v.new result }
{
    named(
        alloc,
        v,
        value_at(keys, 2 * i),
        value_at(keys, 2 * i + 1),
        k,
    )
}

/// All keywords.
pub fn read_keywords<S, V: View<S>>(
    alloc: Global,
    v: &mut V,
    keys: &[Value],
) -> Result<Got<Keywords>, Stop>
    requires live { IsLive V.sense v.old }
    requires safe { Safe V.sense.partial (keywords.keywords_row {S = S} keys.now) (V.sense.heap v.old) }
    ensures { Meets V.sense (keywords.keywords_row keys.now) v.old v.new result }
{
    let mut k = no_keywords();
    let n = keys.len() / 2;
    'turns: for i in 0..n {
        let next = keyword(alloc, v, keys, i, k)?;
        match next {
            Got::Is(more) => k = more,
            Got::Raise(e) => return Ok(Got::Raise(e)),
        }
    }
    Ok(Got::Is(k))
}
