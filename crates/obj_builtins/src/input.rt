//! `raw_input`: the prompt, and the line that is taken.
ghost use Rattle.std.specs.Prelude.{◌≡◌};
ghost use Rattle.std.specs.Io.BufRead.{strip_last};
ghost use Rattle.py_data.specs.Sense.{Meets, Safe, IsLive};
ghost use Rattle.obj_builtins.specs.Input as inputs;

use obj_class::text;
use obj_str::make_str;
use py_data::exception::{EOF_ERROR, TYPE_ERROR, raise};
use py_data::{Addr, Got, Out, Stop, Value, View};
use std::alloc::Global;

/// The most bytes that are taken at once.
const LINE_LIMIT: usize = 65_536;

/// A line without the newline at its end, if it has one.
fn without_newline(line: &[u8]) -> &[u8]
    ensures { result.now ≡ strip_last 10 line.now }
{
    let n = line.len();
    if n == 0 {
        return line;
    }
    if line[n - 1] != b'\n' {
        return line;
    }
    &line[..n - 1]
}

/// A new string of a line. EOFError where nothing was taken.
#[tactic(auto, using(py_data::proofs::Rows::row_steps), unfolding(crate::specs::Input::line_row))]
fn line_text<S, V: View<S>>(alloc: Global, v: &mut V, line: &[u8]) -> Result<Got<Value>, Stop>
    requires live { IsLive V.sense v.old }
    requires safe { Safe V.sense.partial (inputs.line_row {S = S} line.now) (V.sense.heap v.old) }
    ensures { Meets V.sense (inputs.line_row line.now) v.old v.new result }
{
    if line.is_empty() {
        raise(alloc, EOF_ERROR, b"EOF when reading a line")
    } else {
        make_str(alloc, v, without_newline(line))
    }
}

/// Takes the next line.
#[tactic(auto, using(py_data::proofs::Rows::row_steps, py_data::proofs::Steps::call_steps), unfolding(crate::specs::Input::take_row))]
fn take<S, V: View<S>>(alloc: Global, v: &mut V) -> Result<Got<Value>, Stop>
    requires live { IsLive V.sense v.old }
    requires safe { Safe V.sense.partial (inputs.take_row {S = S}) (V.sense.heap v.old) }
    ensures { Meets V.sense inputs.take_row v.old v.new result }
{
    let line = v.take_line(LINE_LIMIT)?;
    line_text(alloc, v, line.as_slice())
}

/// Writes the prompt, and takes the next line.
#[tactic(auto, using(py_data::proofs::Rows::row_steps, py_data::proofs::Steps::call_steps), unfolding(crate::specs::Input::prompt_row))]
fn prompt<S, V: View<S>>(alloc: Global, v: &mut V, text: &[u8]) -> Result<Got<Value>, Stop>
    requires live { IsLive V.sense v.old }
    requires safe { Safe V.sense.partial (inputs.prompt_row {S = S} text.now) (V.sense.heap v.old) }
    ensures { Meets V.sense (inputs.prompt_row text.now) v.old v.new result }
{
    v.put(Out::Output, text)?;
    v.set_mid_line(false);
    take(alloc, v)
}

/// Asks with a prompt.
#[tactic(auto, using(py_data::proofs::Rows::row_steps, py_data::proofs::Steps::call_steps), unfolding(crate::specs::Input::ask_row))]
fn ask<S, V: View<S>>(alloc: Global, v: &mut V, roots: Addr, x: Value) -> Result<Got<Value>, Stop>
    requires live { IsLive V.sense v.old }
    requires safe { Safe V.sense.partial (inputs.ask_row {S = S} roots.0 x) (V.sense.heap v.old) }
    ensures { Meets V.sense (inputs.ask_row roots.0 x) v.old v.new result }
{
    match text(alloc, v, roots, x, false)? {
        Got::Is(text) => prompt(alloc, v, text.as_slice()),
        Got::Raise(e) => Ok(Got::Raise(e)),
    }
}

/// `raw_input()` and `raw_input(p)`: a new string of the next line of the input, without its newline. The text of `p`
/// is written first, as it is; where it raises, nothing is written or taken. EOFError at the end of the input;
/// TypeError, `wrong arguments`, for two arguments or more. A line of more than 65,536 bytes is taken in pieces of so
/// many; Python 2.7 takes it whole.
#[tactic(auto, using(py_data::proofs::Rows::row_steps), unfolding(crate::specs::Input::input_row))]
pub fn input<S, V: View<S>>(
    alloc: Global,
    v: &mut V,
    roots: Addr,
    args: &[Value],
) -> Result<Got<Value>, Stop>
    requires live { IsLive V.sense v.old }
    requires safe { Safe V.sense.partial (inputs.input_row {S = S} roots.0 args.now) (V.sense.heap v.old) }
    ensures { Meets V.sense (inputs.input_row roots.0 args.now) v.old v.new result }
{
    match args {
        [] => take(alloc, v),
        [x] => ask(alloc, v, roots, *x),
        _ => raise(alloc, TYPE_ERROR, b"wrong arguments"),
    }
}
