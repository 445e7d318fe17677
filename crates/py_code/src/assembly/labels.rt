//! The labels of the places that a code's instructions name.
ghost use Rattle.std.specs.Prelude.{◌≡◌, ◌++◌, [], ◌∷◌, List, false, IfOk, MatchOption, replicate};
ghost use Rattle.py_code.specs.declared.instr.Instr.{Instr};
ghost use Rattle.py_code.specs.Listing.{labelled, labels_of, marks};

use crate::assembly::operand::{Operand, operand_of};
use crate::instr::Instr;
use py_base::{Items, NoMemory};
use std::alloc::Global;

/// For each place its label's number, from 1, where an instruction names the place.
pub type Labels = Items<Option<usize>>;

/// The first of these and the others.
pub fn split<T>(items: &[T]) -> Option<(&T, &[T])>
    ensures { MatchOption result (items.now ≡ []) (λ p. items.now ≡ p.0.now ∷ p.1.now) }
{
    items.split_first()
}

/// So many places, of which none is named.
fn unmarked(alloc: Global, n: usize) -> Result<Items<bool>, NoMemory>
    ensures { IfOk result (λ ms. ms ≡ replicate n false) }
{
    let mut marks = Items::new(alloc);
    for _ in 0..n {
        marks.push(false)?;
    }
    Ok(marks)
}

/// Marks the place that an instruction names.
fn mark(named: &mut Items<bool>, i: &Instr)
    ensures { (all places : List Instr)
        → named.old ≡ marks all 0 places → named.new ≡ marks (all ++ i.now ∷ []) 0 places }
{
    if let Operand::Place(place) = operand_of(i) {
        if (place as usize) < named.len() {
            named.set(place as usize, true);
        }
    }
}

/// Of each place, whether an instruction names it.
fn marks(alloc: Global, instrs: &[Instr]) -> Result<Items<bool>, NoMemory>
    ensures { IfOk result (λ ms. ms ≡ marks instrs.now 0 instrs.now) }
{
    let mut named = unmarked(alloc, instrs.len())?;
    for i in instrs {
        mark(&mut named, i);
    }
    Ok(named)
}

/// The numbers of the places that are marked.
#[tactic(auto, unfolding(crate::specs::Listing::labelled))]
fn labelled(alloc: Global, marks: &[bool]) -> Result<Labels, NoMemory>
    ensures { IfOk result (λ ls. ls ≡ labelled 1 marks.now) }
{
    let mut labels = Labels::new(alloc);
    let mut next = 1;
    let mut rest = marks;
    'places: while let Some((is_named, more)) = split(rest) {
        if *is_named {
            labels.push(Some(next))?;
            next += 1;
        } else {
            labels.push(None)?;
        }
        rest = more;
    }
    Ok(labels)
}

/// The labels of a code.
pub fn labels_of(alloc: Global, instrs: &[Instr]) -> Result<Labels, NoMemory>
    ensures { IfOk result (λ ls. ls ≡ labels_of instrs.now) }
{
    let named = marks(alloc, instrs)?;
    labelled(alloc, named.as_slice())
}
