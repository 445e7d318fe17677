//! How two records are compared, by their kinds.
ghost use Rattle.std.specs.Prelude.{◌≡◌};
ghost use Rattle.py_data.specs.Sense.{Meets, Safe, IsLive};
ghost use Rattle.obj_nest.specs.Levels.{pairing_of, kinds_with, kinds_row};

use py_data::{Addr, Kind, Stop, View, kind};

/// How two records are compared.
#[derive(Clone, Copy, Debug, Drop, PartialEq, Eq)]
pub enum Pairing {
    Texts,
    Items,
    Pairs,
    Methods,
    Others,
}

/// How records of two kinds are compared.
fn pairing_by(k: Kind, l: Kind) -> Pairing
    ensures { result ≡ pairing_of k l }
{
    match (k, l) {
        (Kind::Str, Kind::Str) => Pairing::Texts,
        (Kind::Tuple, Kind::Tuple) => Pairing::Items,
        (Kind::List, Kind::List) => Pairing::Items,
        (Kind::Dict, Kind::Dict) => Pairing::Pairs,
        (Kind::Method, Kind::Method) => Pairing::Methods,
        _ => Pairing::Others,
    }
}

/// How a record is compared with one of a kind.
#[tactic(auto, using(py_data::proofs::Rows::row_steps, py_data::proofs::Steps::call_steps), unfolding(crate::specs::Levels::kinds_with))]
fn pairing_with<S, V: View<S>>(v: &mut V, b: Addr, k: Kind) -> Result<Pairing, Stop>
    requires live { IsLive V.sense v.old }
    requires safe { Safe V.sense.partial (kinds_with {S = S} b.0 k) (V.sense.heap v.old) }
    ensures { Meets V.sense (kinds_with b.0 k) v.old v.new result }
{
    let l = kind(v, b)?;
    Ok(pairing_by(k, l))
}

/// How two records are compared, by their kinds.
#[tactic(auto, using(py_data::proofs::Rows::row_steps, py_data::proofs::Steps::call_steps), unfolding(crate::specs::Levels::kinds_row))]
pub fn pairing_at<S, V: View<S>>(v: &mut V, a: Addr, b: Addr) -> Result<Pairing, Stop>
    requires live { IsLive V.sense v.old }
    requires safe { Safe V.sense.partial (kinds_row {S = S} a.0 b.0) (V.sense.heap v.old) }
    ensures { Meets V.sense (kinds_row a.0 b.0) v.old v.new result }
{
    let k = kind(v, a)?;
    pairing_with(v, b, k)
}
