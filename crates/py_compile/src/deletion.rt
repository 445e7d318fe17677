//! The targets of a `del`, one by one.
ghost use Rattle.std.specs.Prelude.{◌≡◌, ◌++◌, ◌∷◌, [], map, IfOk, OnOk};
ghost use Rattle.py_compile.specs.inner.Deletions.{SameDeletions};

use py_base::{NoMemory, split};
use py_tree::Expr;
use sqlite_items::Items;
use std::alloc::Global;

/// Adds a name, an attribute or a subscript; of a tuple, a list or a group what stands in it. No other expression is a
/// target.
#[cycle(deletions)]
#[tactic(auto, using(crate::proofs::Deletions::deletion_rules))]
fn add_target<'a>(out: &mut Items<&'a Expr>, x: &'a Expr) -> Result<(), NoMemory>
    ensures { OnOk result (SameDeletions (map (λ y. y.now) out.new) (map (λ y. y.now) out.old ++ x.now ∷ [])) }
{
    match x {
        Expr::Name(_) | Expr::Trail(_, _) => {
            out.push(x)?;
            Ok(())
        }
        Expr::Group(a) => add_target(out, a.get()),
        Expr::Tuple(items) => add_targets(out, items.as_slice()),
        Expr::List(items) => add_targets(out, items.as_slice()),
        Expr::Int(_)
        | Expr::Str(_)
        | Expr::Dict(_)
        | Expr::Power(_, _)
        | Expr::Unary(_, _)
        | Expr::Chain(_, _, _)
        | Expr::Not(_)
        | Expr::Choice(_, _, _) => Ok(()),
    }
}

/// Adds what stands in these targets, in turn.
#[cycle(deletions)]
#[tactic(auto, using(crate::proofs::Deletions::deletion_rules))]
fn add_targets<'a>(out: &mut Items<&'a Expr>, items: &'a [Expr]) -> Result<(), NoMemory>
    ensures { OnOk result (SameDeletions (map (λ y. y.now) out.new) (map (λ y. y.now) out.old ++ items.now)) }
{
    let mut rest = items;
    'items: while let Some((x, more)) = split(rest) {
        add_target(out, x)?;
        rest = more;
    }
    Ok(())
}

/// The names, attributes and subscripts that these targets delete, in turn: each has code, where `[]` has none.
pub fn single_targets<'a>(alloc: Global, items: &'a [Expr]) -> Result<Items<&'a Expr>, NoMemory>
    ensures { IfOk result (λ out. SameDeletions (map (λ y. y.now) out) items.now) }
{
    let mut out = Items::new(alloc);
    add_targets(&mut out, items)?;
    Ok(out)
}
