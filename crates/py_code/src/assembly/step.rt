//! The lines of instructions.
ghost use Rattle.std.specs.Prelude.{◌≡◌, ◌++◌, [], codes, drop, get_or, IfOk, OnOk, option_copied, option_map, slice_get};
ghost use Rattle.std.specs.Fmt.{decimal};
ghost use Rattle.py_code.specs.Listing.{column, code_text, constant_text, instr_line, is_line, key_text, keys_text, label_at, label_by, label_text, line_mark, named, operand_text, slot_name, with_operands};

use crate::assembly::labels::Labels;
use crate::assembly::names::{code_text, digits, name_or, named, root_name, root_text};
use crate::assembly::operand::{Operand, mnemonic, operand_of};
use crate::instr::{Constant, Instr};
use crate::program::{Code, Keys, Lines, Program, Root};
use py_base::{Bytes, NoMemory, binary_sign, builtin_name, compare_sign, unary_sign};
use py_text::print_int;
use std::alloc::Global;

/// The blanks that are left of these behind a text of that length.
fn push_blanks(text: &mut Bytes, blanks: &[u8], used: usize) -> Result<(), NoMemory>
    ensures { OnOk result (text.new ≡ text.old ++ drop used blanks.now) }
{
    match blanks.get(used..) {
        Some(left) => text.extend_from_slice(left),
        None => Ok(()),
    }
}

/// A text at the right of six columns.
#[tactic(auto, unfolding(crate::specs::Listing::column))]
pub fn push_column(text: &mut Bytes, t: &[u8]) -> Result<(), NoMemory>
    ensures { OnOk result (text.new ≡ text.old ++ column t.now) }
{
    push_blanks(text, b"      ", t.len())?;
    text.extend_from_slice(t)
}

/// A number at the right of six columns.
pub fn push_number(alloc: Global, text: &mut Bytes, n: usize) -> Result<(), NoMemory>
    ensures { OnOk result (text.new ≡ text.old ++ column (decimal n)) }
{
    let number = digits(alloc, n as u64)?;
    push_column(text, number.as_slice())
}

/// A mnemonic and operands.
fn push_operands(text: &mut Bytes, name: &[u8], operands: &[u8]) -> Result<(), NoMemory>
    ensures { OnOk result (text.new ≡ text.old ++ with_operands name.now operands.now) }
{
    text.extend_from_slice(name)?;
    match operands {
        [] => Ok(()),
        _ => {
            push_blanks(text, b"               ", name.len())?;
            text.extend_from_slice(operands)
        }
    }
}

/// What CONST pushes.
fn constant_text(alloc: Global, roots: &[Root], c: Constant) -> Result<Bytes, NoMemory>
    ensures { IfOk result (λ t. t ≡ constant_text roots.now c) }
{
    match c {
        Constant::None => Bytes::from_slice(alloc, b"None"),
        Constant::Truth(true) => Bytes::from_slice(alloc, b"True"),
        Constant::Truth(false) => Bytes::from_slice(alloc, b"False"),
        Constant::Int(i) => print_int(alloc, i),
        Constant::Builtin(b) => {
            let name = named(alloc, b as u64, builtin_name(b))?;
            behind(alloc, b"builtin ", name.as_slice())
        }
        Constant::Root(r) => {
            let name = root_text(alloc, roots, r)?;
            behind(alloc, b"root ", name.as_slice())
        }
    }
}

/// A text behind another.
fn behind(alloc: Global, before: &[u8], t: &[u8]) -> Result<Bytes, NoMemory>
    ensures { IfOk result (λ r. r ≡ before.now ++ t.now) }
{
    let mut text = Bytes::from_slice(alloc, before)?;
    text.extend_from_slice(t)?;
    Ok(text)
}

/// A keyword, behind a space.
fn push_key(alloc: Global, text: &mut Bytes, roots: &[Root], k: u32) -> Result<(), NoMemory>
    ensures { OnOk result (text.new ≡ text.old ++ key_text roots.now k) }
{
    let name = match roots.get(k as usize) {
        Some(root) => root_name(alloc, root)?,
        None => digits(alloc, k as u64)?,
    };
    text.push(b' ')?;
    text.extend_from_slice(name.as_slice())
}

/// The keywords of a list.
pub fn push_keys(
    alloc: Global,
    text: &mut Bytes,
    roots: &[Root],
    keys: &[u32],
) -> Result<(), NoMemory>
    ensures { OnOk result (text.new ≡ text.old ++ keys_text roots.now keys.now) }
{
    for k in keys {
        push_key(alloc, text, roots, *k)?;
    }
    Ok(())
}

/// The keyword list of that number; none where it isn't there.
fn keys_at(lists: &[Keys], l: u32) -> &[u32]
    ensures { result.now ≡ get_or lists.now l [] }
{
    match lists.get(l as usize) {
        Some(keys) => keys.as_slice(),
        None => &[],
    }
}

/// So many arguments, and a keyword list.
fn arguments_text(
    alloc: Global,
    roots: &[Root],
    lists: &[Keys],
    n: u32,
    l: u32,
) -> Result<Bytes, NoMemory>
    ensures { IfOk result (λ t. t
        ≡ decimal n ++ codes " keywords " ++ decimal l ++ keys_text roots.now (get_or lists.now l [])) }
{
    let mut text = digits(alloc, n as u64)?;
    text.extend_from_slice(b" keywords ")?;
    let number = digits(alloc, l as u64)?;
    text.extend_from_slice(number.as_slice())?;
    push_keys(alloc, &mut text, roots, keys_at(lists, l))?;
    Ok(text)
}

/// A code, and so many defaults.
fn defaults_text(alloc: Global, all: &[Code], f: u32, n: u32) -> Result<Bytes, NoMemory>
    ensures { IfOk result (λ t. t ≡ code_text all.now f ++ codes " defaults " ++ decimal n) }
{
    let mut text = code_text(alloc, all, f)?;
    text.extend_from_slice(b" defaults ")?;
    let number = digits(alloc, n as u64)?;
    text.extend_from_slice(number.as_slice())?;
    Ok(text)
}

/// A slot, and its name.
fn slot_text(alloc: Global, slots: &[Bytes], s: u32) -> Result<Bytes, NoMemory>
    ensures { IfOk result (λ t. t ≡ named s (option_map slot_name (slice_get slots.now s))) }
{
    match slots.get(s as usize) {
        Some(name) => named(alloc, s as u64, Some(name_or(b"<hidden>", name.as_slice()))),
        None => named(alloc, s as u64, None),
    }
}

/// The label of a place, if it has one.
fn label_at(labels: &Labels, place: usize) -> Option<usize>
    ensures { result ≡ label_at labels.now place }
{
    match labels.get(place) {
        Some(label) => *label,
        None => None,
    }
}

/// A label by its number.
fn label_text(alloc: Global, before: &[u8], label: usize) -> Result<Bytes, NoMemory>
    ensures { IfOk result (λ t. t ≡ before.now ++ label_text label) }
{
    let number = digits(alloc, label as u64)?;
    let mut text = Bytes::from_slice(alloc, before)?;
    text.push(b'L')?;
    text.extend_from_slice(number.as_slice())?;
    Ok(text)
}

/// The place that an instruction names, and its label.
fn place_text(alloc: Global, labels: &Labels, place: u32) -> Result<Bytes, NoMemory>
    ensures { IfOk result (λ t. t
        ≡ named place (option_map (λ l. codes "to " ++ label_text l) (label_at labels.now place))) }
{
    match label_at(labels, place as usize) {
        Some(label) => {
            let name = label_text(alloc, b"to ", label)?;
            named(alloc, place as u64, Some(name.as_slice()))
        }
        None => named(alloc, place as u64, None),
    }
}

/// What the operands name.
#[tactic(auto, unfolding(crate::specs::Listing::operand_text))]
fn operand_text(
    alloc: Global,
    p: &Program,
    c: &Code,
    labels: &Labels,
    operand: Operand,
) -> Result<Bytes, NoMemory>
    ensures { IfOk result (λ t. t ≡ operand_text p.now c.now labels.now operand) }
{
    let roots = p.roots.as_slice();
    let codes = p.codes.as_slice();
    match operand {
        Operand::Nothing => Ok(Bytes::new(alloc)),
        Operand::Pushed(k) => constant_text(alloc, roots, k),
        Operand::Slot(s) => slot_text(alloc, c.slots.as_slice(), s),
        Operand::Record(r) => root_text(alloc, roots, r),
        Operand::Body(f) => code_text(alloc, codes, f),
        Operand::UnarySign(o) => named(alloc, o as u64, unary_sign(o)),
        Operand::BinarySign(o) => named(alloc, o as u64, binary_sign(o)),
        Operand::CompareSign(o) => named(alloc, o as u64, compare_sign(o)),
        Operand::Place(t) => place_text(alloc, labels, t),
        Operand::Count(n) => digits(alloc, n as u64),
        Operand::Arguments(n, l) => arguments_text(alloc, roots, c.keys.as_slice(), n, l),
        Operand::Defaults(f, n) => defaults_text(alloc, codes, f, n),
    }
}

/// Whether the line is that of the place before.
fn is_line(before: Option<&u32>, line: u32) -> bool
    ensures { result ≡ is_line (option_copied before.entry) line }
{
    match before {
        Some(other) => *other == line,
        None => false,
    }
}

/// The line of a place, where the place before it has another one.
#[tactic(auto, unfolding(crate::specs::Listing::line_mark))]
fn line_mark(alloc: Global, lines: &Lines, place: usize) -> Result<Bytes, NoMemory>
    ensures { IfOk result (λ t. t ≡ line_mark lines.now place) }
{
    let before = if place == 0 {
        None
    } else {
        lines.get(place - 1)
    };
    match lines.get(place) {
        None => Ok(Bytes::new(alloc)),
        Some(line) => {
            if is_line(before, *line) {
                Ok(Bytes::new(alloc))
            } else {
                digits(alloc, *line as u64)
            }
        }
    }
}

/// The label of a place, with a colon.
fn label_mark(alloc: Global, labels: &Labels, place: usize) -> Result<Bytes, NoMemory>
    ensures { IfOk result (λ t. t ≡ label_by (label_at labels.now place)) }
{
    match label_at(labels, place) {
        None => Ok(Bytes::new(alloc)),
        Some(label) => {
            let mut text = label_text(alloc, b"", label)?;
            text.push(b':')?;
            Ok(text)
        }
    }
}

/// The line of an instruction.
#[tactic(auto, unfolding(crate::specs::Listing::instr_line))]
pub fn push_instr(
    alloc: Global,
    text: &mut Bytes,
    p: &Program,
    c: &Code,
    labels: &Labels,
    place: usize,
    i: &Instr,
) -> Result<(), NoMemory>
    ensures { OnOk result (text.new ≡ text.old ++ instr_line p.now c.now labels.now place i.now) }
{
    let line = line_mark(alloc, &c.lines, place)?;
    let label = label_mark(alloc, labels, place)?;
    let operands = operand_text(alloc, p, c, labels, operand_of(i))?;
    push_column(text, line.as_slice())?;
    push_column(text, label.as_slice())?;
    push_number(alloc, text, place)?;
    text.extend_from_slice(b" ")?;
    push_operands(text, mnemonic(i), operands.as_slice())?;
    text.push(b'\n')
}
