//! The instructions that write, and the last step of a thread that dies.
ghost use Rattle.std.specs.List.{last_or};
ghost use Rattle.std.specs.Prelude.{◌≡◌, IfOk, None};
ghost use Rattle.py_data.specs.declared.stop.Out.TheVariants.{Output};
ghost use Rattle.py_data.specs.declared.record.Got.TheVariants.{Is};
ghost use Rattle.py_data.specs.Looking.{bytes_row};
ghost use Rattle.py_data.specs.Row.{Do, Ret, SetMidLine};
ghost use Rattle.py_data.specs.Sense.{Meets, Safe, IsLive};
ghost use Rattle.py_frames.specs.declared.next.Next.TheVariants.{Goes};
ghost use Rattle.py_frames.specs.PrintRows.{class_name_row, dying_row, ends_line, error_line, is_line_end, last_words, name_of_class, named_words, print_item_row, print_newline_row, put_row, spaced, stays_mid, told_text, write_or_raise, written_row};

use crate::functions::ended_row;
use obj_class::text;
use obj_str::{Text, bytes_of};
use py_data::{Addr, Bytes, Got, NoMemory, Out, Stop, Value, View, look};
use py_frames::{Dying, Next};
use py_parts::{pass, place_in, raise_row};
use py_text::print_int;
use std::alloc::Global;

/// A tab, newline, vertical tab, form feed or carriage return.
fn is_line_end(b: u8) -> bool
    ensures { result ≡ is_line_end b }
{
    b == 9 || b == 10 || b == 11 || b == 12 || b == 13
}

/// Whether a last byte ends a line.
fn ends_line(last: Option<u8>) -> bool
    ensures { result ≡ ends_line last }
{
    match last {
        Some(b) => is_line_end(b),
        None => false,
    }
}

/// The last byte of a text, if it has one.
#[tactic(auto, using(crate::proofs::Lasts::last_is))]
fn last_byte(text: &[u8]) -> Option<u8>
    ensures { result ≡ last_or None text.now }
{
    text.last().copied()
}

/// Whether the output is in the middle of a line behind a text.
fn stays_mid(text: &[u8]) -> bool
    ensures { result ≡ stays_mid text.now }
{
    !ends_line(last_byte(text))
}

/// A text, and a space before it in the middle of a line.
fn spaced(alloc: Global, mid: bool, text: &[u8]) -> Result<Bytes, NoMemory>
    ensures { IfOk result (λ t. t ≡ spaced mid text.now) }
{
    if mid {
        let mut all = Bytes::from_slice(alloc, b" ")?;
        all.extend_from_slice(text)?;
        Ok(all)
    } else {
        Bytes::from_slice(alloc, text)
    }
}

/// Writes a text, with a space before it in the middle of a line.
#[tactic(auto, using(py_data::proofs::Rows::row_steps, py_data::proofs::Steps::call_steps), unfolding(py_frames::specs::PrintRows::put_row))]
fn put_row<S, V: View<S>>(alloc: Global, v: &mut V, text: &[u8], mid: bool) -> Result<Next, Stop>
    requires live { IsLive V.sense v.old }
    requires safe { Safe V.sense.partial (put_row {S = S} text.now mid) (V.sense.heap v.old) }
    ensures { Meets V.sense (put_row text.now mid) v.old v.new result }
{
    let all = spaced(alloc, mid, text)?;
    v.put(Out::Output, all.as_slice())?;
    v.set_mid_line(stays_mid(text));
    Ok(pass())
}

/// Writes a text, with a space before it where the output is in the middle of a line.
#[tactic(auto, using(py_data::proofs::Rows::row_steps, crate::proofs::Afters::after_steps), unfolding(py_frames::specs::PrintRows::written_row))]
fn written_row<S, V: View<S>>(alloc: Global, v: &mut V, text: &[u8]) -> Result<Next, Stop>
    requires live { IsLive V.sense v.old }
    requires safe { Safe V.sense.partial (written_row {S = S} text.now) (V.sense.heap v.old) }
    ensures { Meets V.sense (written_row text.now) v.old v.new result }
{
    let mid = v.mid_line();
    put_row(alloc, v, text, mid)
}

/// PRINT_ITEM.
#[tactic(auto, using(py_data::proofs::Rows::row_steps, py_data::proofs::Steps::call_steps), unfolding(py_frames::specs::PrintRows::print_item_row, py_frames::specs::PrintRows::write_or_raise))]
pub fn print_item_row<S, V: View<S>>(
    alloc: Global,
    v: &mut V,
    roots: Addr,
    x: Value,
) -> Result<Next, Stop>
    requires live { IsLive V.sense v.old }
    requires safe { Safe V.sense.partial (print_item_row {S = S} roots.0 x) (V.sense.heap v.old) }
    ensures { Meets V.sense (print_item_row roots.0 x) v.old v.new result }
{
    match text(alloc, v, roots, x, false)? {
        Got::Is(text) => written_row(alloc, v, text.as_slice()),
        Got::Raise(e) => raise_row(alloc, v, roots, &e),
    }
}

/// PRINT_NEWLINE.
#[tactic(auto, using(py_data::proofs::Rows::row_steps, py_data::proofs::Steps::call_steps), unfolding(py_frames::specs::PrintRows::print_newline_row))]
pub fn print_newline_row<S, V: View<S>>(v: &mut V) -> Result<Next, Stop>
    requires live { IsLive V.sense v.old }
    requires safe { Safe V.sense.partial (print_newline_row {S = S}) (V.sense.heap v.old) }
    ensures { Meets V.sense print_newline_row v.old v.new result }
{
    v.put(Out::Output, b"\n")?;
    v.set_mid_line(false);
    Ok(pass())
}

/// The text of an exception behind the name of its class.
fn told_text(alloc: Global, text: &Got<Bytes>) -> Result<Bytes, NoMemory>
    ensures { IfOk result (λ t. t ≡ told_text text.now) }
{
    match text {
        Got::Is(text) => told_words(alloc, text.as_slice()),
        Got::Raise(_) => Ok(Bytes::new(alloc)),
    }
}

/// A text behind a colon and a space, unless it is empty.
fn told_words(alloc: Global, text: &[u8]) -> Result<Bytes, NoMemory>
    ensures { IfOk result (λ t. t ≡ told_text (Is text.now)) }
{
    match text {
        [] => Ok(Bytes::new(alloc)),
        _ => {
            let mut all = Bytes::from_slice(alloc, b": ")?;
            all.extend_from_slice(text)?;
            Ok(all)
        }
    }
}

/// What a thread that dies writes.
fn error_line(
    alloc: Global,
    number: u32,
    line: u32,
    name: &[u8],
    text: &Got<Bytes>,
) -> Result<Bytes, NoMemory>
    ensures { IfOk result (λ t. t ≡ error_line number line name.now text.now) }
{
    let mut all = Bytes::from_slice(alloc, b"thread ")?;
    all.extend_from_slice(print_int(alloc, number as i64)?.as_slice())?;
    all.extend_from_slice(b", line ")?;
    all.extend_from_slice(print_int(alloc, line as i64)?.as_slice())?;
    all.extend_from_slice(b": ")?;
    all.extend_from_slice(name)?;
    all.extend_from_slice(told_text(alloc, text)?.as_slice())?;
    all.push(b'\n')?;
    Ok(all)
}

/// The name of a class.
#[tactic(auto, using(py_data::proofs::Rows::row_steps, py_data::proofs::Steps::call_steps), unfolding(py_frames::specs::PrintRows::name_of_class))]
fn name_of_class<S, V: View<S>>(alloc: Global, v: &mut V, c: Addr) -> Result<Text, Stop>
    requires live { IsLive V.sense v.old }
    requires safe { Safe V.sense.partial (name_of_class {S = S} c.0) (V.sense.heap v.old) }
    ensures { Meets V.sense (name_of_class c.0) v.old v.new result }
{
    let name = look(v, c, 0)?;
    bytes_of(alloc, v, place_in(name))
}

/// The name of the class of an instance.
#[tactic(auto, using(py_data::proofs::Rows::row_steps, py_data::proofs::Steps::call_steps), unfolding(py_frames::specs::PrintRows::class_name_row))]
fn class_name_row<S, V: View<S>>(alloc: Global, v: &mut V, a: Addr) -> Result<Text, Stop>
    requires live { IsLive V.sense v.old }
    requires safe { Safe V.sense.partial (class_name_row {S = S} a.0) (V.sense.heap v.old) }
    ensures { Meets V.sense (class_name_row a.0) v.old v.new result }
{
    let c = look(v, a, 0)?;
    name_of_class(alloc, v, place_in(c))
}

/// Writes the line of an exception, and marks the Thread record as ended.
#[tactic(auto, using(py_data::proofs::Rows::row_steps, crate::proofs::Afters::after_steps), unfolding(py_frames::specs::PrintRows::last_words))]
fn last_words<S, V: View<S>>(
    alloc: Global,
    v: &mut V,
    number: u32,
    line: u32,
    thread: Option<Addr>,
    name: &[u8],
    text: Got<Bytes>,
) -> Result<(), Stop>
    requires live { IsLive V.sense v.old }
    requires safe { Safe V.sense.partial (last_words {S = S} number line thread name.now text) (V.sense.heap v.old) }
    ensures { Meets V.sense (last_words number line thread name.now text) v.old v.new result }
{
    let words = error_line(alloc, number, line, name, &text)?;
    v.put(Out::ErrorOutput, words.as_slice())?;
    ended_row(v, thread)
}

/// The same, with the name of the exception's class at hand.
#[tactic(auto, using(py_data::proofs::Rows::row_steps, py_data::proofs::Steps::call_steps), unfolding(py_frames::specs::PrintRows::named_words))]
fn named_words<S, V: View<S>>(
    alloc: Global,
    v: &mut V,
    roots: Addr,
    number: u32,
    thread: Option<Addr>,
    d: Dying,
    name: &[u8],
) -> Result<(), Stop>
    requires live { IsLive V.sense v.old }
    requires safe { Safe V.sense.partial (named_words {S = S} roots.0 number thread d name.now) (V.sense.heap v.old) }
    ensures { Meets V.sense (named_words roots.0 number thread d name.now) v.old v.new result }
{
    let got = text(alloc, v, roots, d.exc, false)?;
    last_words(alloc, v, number, d.line, thread, name, got)
}

/// The last step of a thread that dies: it writes the line of its exception, and its Thread record is marked as ended.
#[tactic(auto, using(py_data::proofs::Rows::row_steps, py_data::proofs::Steps::call_steps), unfolding(py_frames::specs::PrintRows::dying_row))]
pub fn dying_row<S, V: View<S>>(
    alloc: Global,
    v: &mut V,
    roots: Addr,
    number: u32,
    thread: Option<Addr>,
    d: Dying,
) -> Result<(), Stop>
    requires live { IsLive V.sense v.old }
    requires safe { Safe V.sense.partial (dying_row {S = S} roots.0 number thread d) (V.sense.heap v.old) }
    ensures { Meets V.sense (dying_row roots.0 number thread d) v.old v.new result }
{
    let name = class_name_row(alloc, v, place_in(d.exc))?;
    named_words(alloc, v, roots, number, thread, d, name.as_slice())
}
