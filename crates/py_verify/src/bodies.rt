//! Which codes are those of class bodies.
ghost use Rattle.std.specs.Prelude.{◌≡◌, ◌||◌, ℕ, false, IfOk, nat_eq, OnOk};
ghost use Rattle.std.specs.List.{list_any};
ghost use Rattle.indexmap.specs.IndexSet.{contains};
ghost use Rattle.py_code.specs.Right.{is_body, opens_body};

use indexmap::IndexSet;
use py_base::{NoMemory, split};
use py_code::{Code, Instr};
use std::alloc::Global;

/// Adds the code that an instruction opens as a class body, if it opens one.
fn add(bodies: &mut IndexSet<usize>, i: &Instr) -> Result<(), NoMemory>
    ensures { OnOk result ((f : ℕ)
        → contains nat_eq bodies.new f ≡ (contains nat_eq bodies.old f || opens_body f i.now)) }
{
    if let Instr::ClassBody(f) = *i {
        let _ = bodies.insert_full(f as usize)?;
    }
    Ok(())
}

/// Adds the codes that these instructions open as class bodies.
fn add_all(bodies: &mut IndexSet<usize>, instrs: &[Instr]) -> Result<(), NoMemory>
    ensures { OnOk result ((f : ℕ)
        → contains nat_eq bodies.new f ≡ (contains nat_eq bodies.old f || list_any (opens_body f) instrs.now)) }
{
    let mut rest = instrs;
    'instrs: while let Some((i, more)) = split(rest) {
        add(bodies, i)?;
        rest = more;
    }
    Ok(())
}

/// The numbers of the codes that are those of class bodies.
pub fn bodies_of(alloc: Global, codes: &[Code]) -> Result<IndexSet<usize>, NoMemory>
    ensures { IfOk result (λ bodies. (f : ℕ) → contains nat_eq bodies f ≡ is_body codes.now f) }
{
    let mut bodies = IndexSet::new(alloc);
    let mut rest = codes;
    'codes: while let Some((c, more)) = split(rest) {
        add_all(&mut bodies, c.instrs.as_slice())?;
        rest = more;
    }
    Ok(bodies)
}
