//! The operator `%` with a string on the left.
ghost use Rattle.std.specs.Prelude.{◌≡◌, ◌+◌, ◌++◌, ◌∷◌, [], IfOk, MatchResult, false, length, slice_get};
ghost use Rattle.py_data.specs.declared.stop.Stop.TheVariants.{OutOfMemory};
ghost use Rattle.py_data.specs.Sense.{Meets, Safe, IsLive};
ghost use Rattle.obj_ops.specs.Format.{conversion, takes, pieces, asked, grown, number_grown, number_in, text_grown, piece_row, piece_at, pieces_row, finished, formatted_row, arguments_row, template_row, format_row};

use crate::sequence::values_of;
use obj_class::text;
use obj_nest::number_of;
use obj_str::{bytes_of, make_str, too_long};
use py_data::exception::{TYPE_ERROR, VALUE_ERROR, raise};
use py_data::{Addr, Bytes, Got, Items, LENGTH_LIMIT, NoMemory, Stop, Value, Values, View};
use py_text::print_int;
use std::alloc::Global;

/// A piece of a template.
#[derive(Clone, Copy, Debug, Drop, PartialEq, Eq)]
pub enum Piece {
    /// This byte.
    Byte(u8),
    /// The argument of that number, which is a number, in decimal digits.
    Number(usize),
    /// The text of the argument of that number.
    Text(usize),
    /// Nothing that can be written.
    Unknown,
}

/// What a percent sign and the byte behind it stand for, where `n` arguments are taken before.
fn conversion(n: usize, x: u8) -> Piece
    ensures { result ≡ conversion n x }
{
    match x {
        b'd' => Piece::Number(n),
        b's' => Piece::Text(n),
        b'%' => Piece::Byte(b'%'),
        _ => Piece::Unknown,
    }
}

/// How many arguments a piece takes.
fn takes(p: Piece) -> usize
    ensures { result ≡ takes p }
{
    match p {
        Piece::Number(_) => 1,
        Piece::Text(_) => 1,
        _ => 0,
    }
}

/// The pieces of a template. Each argument is numbered in the order in which the template takes them.
fn pieces(alloc: Global, template: &[u8]) -> Result<Items<Piece>, NoMemory>
    ensures { IfOk result (λ ps. ps ≡ pieces false 0 template.now) }
{
    let mut found = Items::new(alloc);
    let mut taken = 0;
    let mut behind = false;
    'turns: for i in 0..template.len() {
        let x = template[i];
        if behind {
            let piece = conversion(taken, x);
            found.push(piece)?;
            taken += takes(piece);
            behind = false;
        } else if x == b'%' {
            behind = true;
        } else {
            found.push(Piece::Byte(x))?;
        }
    }
    if behind {
        found.push(Piece::Unknown)?;
    }
    Ok(found)
}

/// How many arguments the pieces take.
fn asked(ps: &[Piece]) -> usize
    ensures { result ≡ asked ps.now }
{
    let mut all = 0;
    'turns: for i in 0..ps.len() {
        all += takes(ps[i]);
    }
    all
}

/// The text so far, and more behind it. MemoryError where it would be longer than a string may be.
#[tactic(auto, unfolding(crate::specs::Format::grown))]
fn grow(text: Bytes, more: &[u8]) -> Result<Got<Bytes>, NoMemory>
    ensures { IfOk result (λ g. g ≡ grown text more.now) }
{
    if text.len() <= LENGTH_LIMIT && more.len() <= LENGTH_LIMIT - text.len() {
        let mut all = text;
        all.extend_from_slice(more)?;
        Ok(Got::Is(all))
    } else {
        Ok(too_long())
    }
}

/// The text so far, and a number behind it. TypeError where the argument is missing or isn't a number.
#[tactic(auto, unfolding(crate::specs::Format::number_grown))]
fn grow_number(alloc: Global, text: Bytes, n: Option<i64>) -> Result<Got<Bytes>, Stop>
    ensures { MatchResult result (λ g. g ≡ number_grown text n) (λ e. e ≡ OutOfMemory) }
{
    match n {
        Some(i) => {
            let more = print_int(alloc, i)?;
            Ok(grow(text, more.as_slice())?)
        }
        None => raise(alloc, TYPE_ERROR, b"wrong arguments"),
    }
}

/// The text so far, and that of a value behind it. TypeError where the argument is missing.
#[tactic(auto, using(py_data::proofs::Rows::row_steps, py_data::proofs::Steps::call_steps), unfolding(crate::specs::Format::text_grown))]
fn grow_text<S, V: View<S>>(
    alloc: Global,
    v: &mut V,
    roots: Addr,
    out: Bytes,
    x: Option<Value>,
) -> Result<Got<Bytes>, Stop>
    requires live { IsLive V.sense v.old }
    requires safe { Safe V.sense.partial (text_grown {S = S} roots.0 out x) (V.sense.heap v.old) }
    ensures { Meets V.sense (text_grown roots.0 out x) v.old v.new result }
{
    match x {
        Some(x) => match text(alloc, v, roots, x, false)? {
            Got::Is(more) => Ok(grow(out, more.as_slice())?),
            Got::Raise(e) => Ok(Got::Raise(e)),
        },
        None => raise(alloc, TYPE_ERROR, b"wrong arguments"),
    }
}

/// The argument of a number, if there is one.
fn argument(args: &Values, n: usize) -> Option<Value>
    ensures { result ≡ slice_get args.now n }
{
    args.get(n).copied()
}

/// The number that an argument is, if it is there and is one.
pub fn number_in(x: Option<Value>) -> Option<i64>
    ensures { result ≡ number_in x }
{
    match x {
        Some(x) => number_of(x),
        None => None,
    }
}

/// Writes a piece behind the text so far.
#[tactic(auto, using(py_data::proofs::Rows::row_steps), unfolding(crate::specs::Format::piece_row))]
fn write_piece<S, V: View<S>>(
    alloc: Global,
    v: &mut V,
    roots: Addr,
    args: &Values,
    piece: Piece,
    out: Bytes,
) -> Result<Got<Bytes>, Stop>
    requires live { IsLive V.sense v.old }
    requires safe { Safe V.sense.partial (piece_row {S = S} roots.0 args.now piece out) (V.sense.heap v.old) }
    ensures { Meets V.sense (piece_row roots.0 args.now piece out) v.old v.new result }
{
    match piece {
        Piece::Byte(x) => Ok(grow(out, &[x])?),
        Piece::Number(n) => grow_number(alloc, out, number_in(argument(args, n))),
        Piece::Text(n) => grow_text(alloc, v, roots, out, argument(args, n)),
        Piece::Unknown => raise(alloc, VALUE_ERROR, b"unsupported format"),
    }
}

/// The piece at a place.
fn piece_at(ps: &Items<Piece>, i: usize) -> Piece
    ensures { result ≡ piece_at ps.now i }
{
    match ps.get(i) {
        Some(p) => *p,
        None => Piece::Unknown,
    }
}

/// Writes the piece at a place behind the text so far.
fn write_at<S, V: View<S>>(
    alloc: Global,
    v: &mut V,
    roots: Addr,
    ps: &Items<Piece>,
    args: &Values,
    i: usize,
    out: Bytes,
) -> Result<Got<Bytes>, Stop>
    requires live { IsLive V.sense v.old }
    requires safe { Safe V.sense.partial (piece_row {S = S} roots.0 args.now (piece_at ps.now i) out)
        (V.sense.heap v.old) }
    ensures { Meets V.sense (piece_row roots.0 args.now (piece_at ps.now i) out) v.old v.new result }
{
    write_piece(alloc, v, roots, args, piece_at(ps, i), out)
}

/// Writes the pieces from left to right.
fn write_pieces<S, V: View<S>>(
    alloc: Global,
    v: &mut V,
    roots: Addr,
    ps: &Items<Piece>,
    args: &Values,
) -> Result<Got<Bytes>, Stop>
    requires live { IsLive V.sense v.old }
    requires safe { Safe V.sense.partial (pieces_row {S = S} roots.0 ps.now args.now) (V.sense.heap v.old) }
    ensures { Meets V.sense (pieces_row roots.0 ps.now args.now) v.old v.new result }
{
    let mut out = Bytes::new(alloc);
    let n = ps.len();
    'turns: for i in 0..n {
        let next = write_at(alloc, v, roots, ps, args, i, out)?;
        match next {
            Got::Is(text) => out = text,
            Got::Raise(e) => return Ok(Got::Raise(e)),
        }
    }
    Ok(Got::Is(out))
}

/// Makes the string, where no argument is left.
#[tactic(auto, using(py_data::proofs::Rows::row_steps), unfolding(crate::specs::Format::finished))]
fn finish<S, V: View<S>>(
    alloc: Global,
    v: &mut V,
    ps: &Items<Piece>,
    args: &Values,
    out: Bytes,
) -> Result<Got<Value>, Stop>
    requires live { IsLive V.sense v.old }
    requires safe { Safe V.sense.partial (finished {S = S} ps.now args.now out) (V.sense.heap v.old) }
    ensures { Meets V.sense (finished ps.now args.now out) v.old v.new result }
{
    if asked(ps.as_slice()) == args.len() {
        make_str(alloc, v, out.as_slice())
    } else {
        raise(alloc, TYPE_ERROR, b"wrong arguments")
    }
}

/// A new string of the pieces with their arguments.
#[tactic(auto, using(py_data::proofs::Rows::row_steps, py_data::proofs::Steps::call_steps), unfolding(crate::specs::Format::formatted_row))]
fn format_pieces<S, V: View<S>>(
    alloc: Global,
    v: &mut V,
    roots: Addr,
    ps: &Items<Piece>,
    args: &Values,
) -> Result<Got<Value>, Stop>
    requires live { IsLive V.sense v.old }
    requires safe { Safe V.sense.partial (formatted_row {S = S} roots.0 ps.now args.now) (V.sense.heap v.old) }
    ensures { Meets V.sense (formatted_row roots.0 ps.now args.now) v.old v.new result }
{
    match write_pieces(alloc, v, roots, ps, args)? {
        Got::Is(out) => finish(alloc, v, ps, args, out),
        Got::Raise(e) => Ok(Got::Raise(e)),
    }
}

/// The arguments behind a percent sign: the values of a tuple, or one value.
#[tactic(auto, using(py_data::proofs::Rows::row_steps), unfolding(crate::specs::Format::arguments_row))]
fn arguments<S, V: View<S>>(
    alloc: Global,
    v: &mut V,
    tuple: Option<Addr>,
    y: Value,
) -> Result<Values, Stop>
    requires live { IsLive V.sense v.old }
    requires safe { Safe V.sense.partial (arguments_row {S = S} tuple y) (V.sense.heap v.old) }
    ensures { Meets V.sense (arguments_row tuple y) v.old v.new result }
{
    match tuple {
        Some(b) => values_of(alloc, v, b),
        None => Ok(Values::from_slice(alloc, &[y])?),
    }
}

/// A new string of the template with its arguments.
#[tactic(auto, using(py_data::proofs::Rows::row_steps, py_data::proofs::Steps::call_steps), unfolding(crate::specs::Format::template_row))]
fn format_template<S, V: View<S>>(
    alloc: Global,
    v: &mut V,
    roots: Addr,
    template: &[u8],
    tuple: Option<Addr>,
    y: Value,
) -> Result<Got<Value>, Stop>
    requires live { IsLive V.sense v.old }
    requires safe { Safe V.sense.partial (template_row {S = S} roots.0 template.now tuple y) (V.sense.heap v.old) }
    ensures { Meets V.sense (template_row roots.0 template.now tuple y) v.old v.new result }
{
    let args = arguments(alloc, v, tuple, y)?;
    let ps = pieces(alloc, template)?;
    format_pieces(alloc, v, roots, &ps, &args)
}

/// A new string: the template at `a` with its arguments, which are the values of a tuple, or `y` alone.
///
/// TypeError for arguments that are missing, left or no numbers where `%d` wants one; ValueError for an unknown
/// conversion; MemoryError where the text would be longer than `LENGTH_LIMIT`.
#[tactic(auto, using(py_data::proofs::Rows::row_steps, py_data::proofs::Steps::call_steps), unfolding(crate::specs::Format::format_row))]
pub fn format_with<S, V: View<S>>(
    alloc: Global,
    v: &mut V,
    roots: Addr,
    a: Addr,
    tuple: Option<Addr>,
    y: Value,
) -> Result<Got<Value>, Stop>
    requires live { IsLive V.sense v.old }
    requires safe { Safe V.sense.partial (format_row {S = S} roots.0 a.0 tuple y) (V.sense.heap v.old) }
    ensures { Meets V.sense (format_row roots.0 a.0 tuple y) v.old v.new result }
{
    let template = bytes_of(alloc, v, a)?;
    format_template(alloc, v, roots, template.as_slice(), tuple, y)
}
