//! The text of a program, for a reader: its roots, and each code's instructions, one a line.
ghost use Rattle.std.specs.Prelude.{◌≡◌, ◌++◌, [], ◌∷◌, IfOk, OnOk};
ghost use Rattle.std.specs.List.{flat_map};
ghost use Rattle.py_code.specs.Listing.{code_lines, instr_line, key_line, listing_of, numbered, parameters_line, root_line, slot_name, slots_line, title_line};

mod labels;
mod names;
mod operand;
mod step;

use crate::program::{Code, Keys, Program, Root};
use labels::{Labels, labels_of, split};
use names::{code_name, digits, kind_name, name_or, root_name};
use py_base::{Bytes, NoMemory};
use std::alloc::Global;
use step::{push_instr, push_keys, push_number};

/// The line of a root: its number, its kind and its name.
#[tactic(auto, unfolding(crate::specs::Listing::root_line))]
fn push_root(alloc: Global, text: &mut Bytes, n: usize, root: &Root) -> Result<(), NoMemory>
    ensures { OnOk result (text.new ≡ text.old ++ root_line n root.now) }
{
    let name = root_name(alloc, root)?;
    push_number(alloc, text, n)?;
    text.extend_from_slice(b" ")?;
    text.extend_from_slice(kind_name(root.kind))?;
    text.extend_from_slice(b" ")?;
    text.extend_from_slice(name.as_slice())?;
    text.push(b'\n')
}

/// The lines of the roots.
#[tactic(auto, unfolding(crate::specs::Listing::numbered))]
fn push_roots(alloc: Global, text: &mut Bytes, roots: &[Root]) -> Result<(), NoMemory>
    ensures { OnOk result (text.new ≡ text.old ++ numbered root_line 0 roots.now) }
{
    let mut rest = roots;
    let mut n = 0;
    'roots: while let Some((root, more)) = split(rest) {
        push_root(alloc, text, n, root)?;
        rest = more;
        n += 1;
    }
    Ok(())
}

/// The line of a keyword list.
#[tactic(auto, unfolding(crate::specs::Listing::key_line))]
fn push_key_line(
    alloc: Global,
    text: &mut Bytes,
    roots: &[Root],
    n: usize,
    keys: &[u32],
) -> Result<(), NoMemory>
    ensures { OnOk result (text.new ≡ text.old ++ key_line roots.now n keys.now) }
{
    let number = digits(alloc, n as u64)?;
    text.extend_from_slice(b"  Keywords ")?;
    text.extend_from_slice(number.as_slice())?;
    text.extend_from_slice(b":")?;
    push_keys(alloc, text, roots, keys)?;
    text.push(b'\n')
}

/// The lines of the keyword lists.
#[tactic(auto, unfolding(crate::specs::Listing::numbered))]
fn push_key_lines(
    alloc: Global,
    text: &mut Bytes,
    roots: &[Root],
    lists: &[Keys],
) -> Result<(), NoMemory>
    ensures { OnOk result (text.new ≡ text.old ++ numbered (key_line roots.now) 0 lists.now) }
{
    let mut rest = lists;
    let mut n = 0;
    'lists: while let Some((keys, more)) = split(rest) {
        push_key_line(alloc, text, roots, n, keys.as_slice())?;
        rest = more;
        n += 1;
    }
    Ok(())
}

/// The lines of a code's instructions.
#[tactic(auto, unfolding(crate::specs::Listing::numbered))]
fn push_instrs(
    alloc: Global,
    text: &mut Bytes,
    p: &Program,
    c: &Code,
    labels: &Labels,
) -> Result<(), NoMemory>
    ensures { OnOk result (text.new ≡ text.old ++ numbered (instr_line p.now c.now labels.now) 0 c.now.instrs) }
{
    let mut rest = c.instrs.as_slice();
    let mut n = 0;
    'instrs: while let Some((i, more)) = split(rest) {
        push_instr(alloc, text, p, c, labels, n, i)?;
        rest = more;
        n += 1;
    }
    Ok(())
}

/// The names of a code's slots, each behind a space.
fn push_slots(text: &mut Bytes, slots: &[Bytes]) -> Result<(), NoMemory>
    ensures { OnOk result (text.new ≡ text.old ++ flat_map (λ t. 32 ∷ slot_name t) slots.now) }
{
    for slot in slots {
        text.push(b' ')?;
        text.extend_from_slice(name_or(b"<hidden>", slot.as_slice()))?;
    }
    Ok(())
}

/// The line of a code's number and name, behind an empty line.
#[tactic(auto, unfolding(crate::specs::Listing::title_line))]
fn push_title(alloc: Global, text: &mut Bytes, n: usize, c: &Code) -> Result<(), NoMemory>
    ensures { OnOk result (text.new ≡ text.old ++ title_line n c.now) }
{
    let number = digits(alloc, n as u64)?;
    text.push(b'\n')?;
    text.extend_from_slice(b"Code ")?;
    text.extend_from_slice(number.as_slice())?;
    text.extend_from_slice(b": ")?;
    text.extend_from_slice(code_name(c))?;
    text.push(b'\n')
}

/// The line that says how many parameters a code has.
#[tactic(auto, unfolding(crate::specs::Listing::parameters_line))]
fn push_parameters(alloc: Global, text: &mut Bytes, c: &Code) -> Result<(), NoMemory>
    ensures { OnOk result (text.new ≡ text.old ++ parameters_line c.now) }
{
    let params = digits(alloc, c.params as u64)?;
    text.extend_from_slice(b"  Parameters: ")?;
    text.extend_from_slice(params.as_slice())?;
    text.push(b'\n')
}

/// The line of a code's slots.
#[tactic(auto, unfolding(crate::specs::Listing::slots_line))]
fn push_slots_line(text: &mut Bytes, c: &Code) -> Result<(), NoMemory>
    ensures { OnOk result (text.new ≡ text.old ++ slots_line c.now) }
{
    text.extend_from_slice(b"  Slots:")?;
    push_slots(text, c.slots.as_slice())?;
    text.push(b'\n')
}

/// The lines of a code.
#[tactic(auto, unfolding(crate::specs::Listing::code_lines))]
fn push_code(
    alloc: Global,
    text: &mut Bytes,
    p: &Program,
    n: usize,
    c: &Code,
) -> Result<(), NoMemory>
    ensures { OnOk result (text.new ≡ text.old ++ code_lines p.now n c.now) }
{
    let labels = labels_of(alloc, c.instrs.as_slice())?;
    push_title(alloc, text, n, c)?;
    push_parameters(alloc, text, c)?;
    push_slots_line(text, c)?;
    push_key_lines(alloc, text, p.roots.as_slice(), c.keys.as_slice())?;
    push_instrs(alloc, text, p, c, &labels)
}

/// The lines of the codes.
#[tactic(auto, unfolding(crate::specs::Listing::numbered))]
fn push_codes(alloc: Global, text: &mut Bytes, p: &Program) -> Result<(), NoMemory>
    ensures { OnOk result (text.new ≡ text.old ++ numbered (code_lines p.now) 0 p.now.codes) }
{
    let mut rest = p.codes.as_slice();
    let mut n = 0;
    'codes: while let Some((c, more)) = split(rest) {
        push_code(alloc, text, p, n, c)?;
        rest = more;
        n += 1;
    }
    Ok(())
}

/// The program as a text: the roots, and each code with its slots, its keyword lists and its instructions. What a
/// number names stands in parentheses behind it, and a place that is jumped to has a label, as `L1`. The language's
/// document says it whole, under "Listing". Any program has a listing: a number that names nothing is written alone.
#[tactic(auto, unfolding(crate::specs::Listing::listing_of))]
pub fn listing(alloc: Global, p: &Program) -> Result<Bytes, NoMemory>
    ensures { IfOk result (λ t. t ≡ listing_of p.now) }
{
    let mut text = Bytes::from_slice(alloc, b"Roots:\n")?;
    push_roots(alloc, &mut text, p.roots.as_slice())?;
    push_codes(alloc, &mut text, p)?;
    Ok(text)
}
