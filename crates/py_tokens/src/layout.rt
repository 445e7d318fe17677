//! Logical lines, brackets and indentation.
ghost use Rattle.std.specs.Prelude.{◌≡◌, ◌+◌, ◌^◌, ◌<◌, ◌≤◌, [], ◌∷◌, ◌++◌, reverse, length, IfOk, OnOk, OnErr};
ghost use Rattle.py_tokens.specs.Layout.{after_blank, popped, indented};
ghost use Rattle.py_tokens.specs.Place.{token_at, before_place, before_token};
ghost use Rattle.py_tokens.specs.Tokens.{Moves, Lays, Closes, Finishes, Breaks, Stops, Ends, Takes, begun, took, depth_of, blanked, held, reach};

use crate::error::TokenError;
use crate::token::{Place, Token, TokenKind, token_at};
use crate::word::Word;
use py_base::{NoMemory, Refusal};

/// Where a text stands between two of its words.
#[derive(Clone, Copy, Debug, Drop)]
pub enum Mode {
    /// Before the first token of a line, at a column that blanks still move.
    Fresh(usize),
    /// Before the first token of a line, behind a joint at this place, at a column that no blank moves any more.
    Held(usize, Place),
    /// After the first token of a line, inside so many brackets.
    Within(usize),
}

/// Adds an element at the end.
pub fn push<T: Drop>(items: &mut Vec<T>, x: T) -> Result<(), NoMemory>
    ensures ok { OnOk result (items.new.items ≡ items.old.items ++ x ∷ []) }
    ensures err { OnErr result (items.new.items ≡ items.old.items) }
{
    items.push(x)?;
    Ok(())
}

/// Pops the entries above the column, each with a Dedent; the next must equal it.
fn dedent(
    stack: &mut Vec<usize>,
    out: &mut Vec<Token>,
    place: Place,
    column: usize,
) -> Result<(), TokenError>
    ensures { Moves result (popped place column)
        (reverse stack.old.items) (reverse stack.new.items) out.old.items out.new.items }
{
    let line = place.line;
    match stack.pop() {
        None => Err(TokenError::Refused(Refusal::BadDedent { line })),
        Some(entry) => {
            if column == entry {
                push(stack, entry)?;
                Ok(())
            } else if entry < column {
                Err(TokenError::Refused(Refusal::BadDedent { line }))
            } else {
                push(out, token_at(TokenKind::Dedent, place))?;
                dedent(stack, out, place, column)
            }
        }
    }
}

/// Brings the stack to this column.
fn indent(
    stack: &mut Vec<usize>,
    out: &mut Vec<Token>,
    place: Place,
    column: usize,
) -> Result<(), TokenError>
    ensures { Moves result (indented place column)
        (reverse stack.old.items) (reverse stack.new.items) out.old.items out.new.items }
{
    let line = place.line;
    match stack.pop() {
        None => Err(TokenError::Refused(Refusal::BadDedent { line })),
        Some(entry) => {
            push(stack, entry)?;
            if entry < column {
                push(stack, column)?;
                push(out, token_at(TokenKind::Indent, place))?;
                Ok(())
            } else {
                dedent(stack, out, place, column)
            }
        }
    }
}

/// The column after one more blank.
fn after_blank(column: usize, b: u8) -> usize
    requires { column < 2 ^ 60 }
    ensures value { result ≡ after_blank column b }
    ensures grows { result ≤ column + 8 }
{
    match b {
        b'\t' => (column / 8 + 1) * 8,
        12 => 0,
        _ => column + 1,
    }
}

/// The empty place before a part of the text.
fn before_place(place: Place) -> Place
    ensures { result ≡ before_place place }
{
    Place {
        from: place.from,
        to: place.from,
        line: place.line,
    }
}

/// The empty place before a token.
fn before_token(t: &Token) -> Place
    ensures { result ≡ before_token t.now }
{
    Place {
        from: t.from,
        to: t.from,
        line: t.line,
    }
}

/// The indentation before a line's first token, which stands after this place. Behind a joint it stands before that.
fn begin_line(
    mode: Mode,
    stack: &mut Vec<usize>,
    out: &mut Vec<Token>,
    place: Place,
) -> Result<(), TokenError>
    ensures { Moves result (begun place mode)
        (reverse stack.old.items) (reverse stack.new.items) out.old.items out.new.items }
{
    match mode {
        Mode::Fresh(column) => indent(stack, out, place, column),
        Mode::Held(column, joint) => indent(stack, out, before_place(joint), column),
        Mode::Within(_) => Ok(()),
    }
}

/// One token, inside so many brackets after it.
fn take(
    mode: Mode,
    stack: &mut Vec<usize>,
    out: &mut Vec<Token>,
    t: Token,
    depth: usize,
) -> Result<Mode, TokenError>
    ensures takes { Takes result depth (took t mode)
        (reverse stack.old.items) (reverse stack.new.items) out.old.items out.new.items }
    ensures reaches { IfOk result (λ m. reach m ≡ depth) }
{
    begin_line(mode, stack, out, before_token(&t))?;
    push(out, t)?;
    Ok(Mode::Within(depth))
}

fn depth_of(mode: Mode) -> usize
    ensures value { result ≡ depth_of mode }
    ensures within { result ≤ reach mode }
{
    match mode {
        Mode::Fresh(_) => 0,
        Mode::Held(_, _) => 0,
        Mode::Within(depth) => depth,
    }
}

/// The mode after a joint at this place, after which no blank moves the column.
fn held(mode: Mode, place: Place) -> Mode
    ensures { result ≡ held place mode }
{
    match mode {
        Mode::Fresh(column) => Mode::Held(column, place),
        other => other,
    }
}

/// The mode after a blank.
fn blanked(mode: Mode, b: u8) -> Mode
    requires { reach mode < 2 ^ 60 }
    ensures value { result ≡ blanked b mode }
    ensures grows { reach result ≤ reach mode + 8 }
{
    match mode {
        Mode::Fresh(column) => Mode::Fresh(after_blank(column, b)),
        other => other,
    }
}

/// A line end: outside brackets it ends the logical line.
fn line_end(mode: Mode, out: &mut Vec<Token>, place: Place) -> Result<Mode, TokenError>
    ensures lays { Ends result mode place out.old.items out.new.items }
    ensures grows { IfOk result (λ m. reach m ≤ reach mode) }
{
    match mode {
        Mode::Within(depth) => {
            if depth == 0 {
                push(out, token_at(TokenKind::Newline, place))?;
                Ok(Mode::Fresh(0))
            } else {
                Ok(Mode::Within(depth))
            }
        }
        _ => Ok(Mode::Fresh(0)),
    }
}

/// One more word.
pub fn lay(
    mode: Mode,
    stack: &mut Vec<usize>,
    out: &mut Vec<Token>,
    w: Word,
) -> Result<Mode, TokenError>
    requires small { reach mode < 2 ^ 60 }
    ensures lays { Lays result mode (reverse stack.old.items) w (reverse stack.new.items) out.old.items out.new.items }
    ensures grows { IfOk result (λ m. reach m ≤ reach mode + 8) }
{
    match w {
        Word::Blank(b) => Ok(blanked(mode, b)),
        Word::Comment => Ok(mode),
        Word::Joint(place) => Ok(held(mode, place)),
        Word::LineEnd(place) => line_end(mode, out, place),
        Word::Opens(t) => take(mode, stack, out, t, depth_of(mode) + 1),
        Word::Closes(t) => take(mode, stack, out, t, depth_of(mode).saturating_sub(1)),
        Word::Plain(t) => take(mode, stack, out, t, depth_of(mode)),
    }
}

/// The open Dedents and End.
fn close(stack: &mut Vec<usize>, out: &mut Vec<Token>, end: Place) -> Result<(), TokenError>
    ensures { Closes result end (reverse stack.old.items) out.old.items out.new.items }
{
    match stack.pop() {
        None => push(out, token_at(TokenKind::End, end))?,
        Some(_) => {
            if stack.is_empty() {
                push(out, token_at(TokenKind::End, end))?;
            } else {
                push(out, token_at(TokenKind::Dedent, end))?;
                close(stack, out, end)?;
            }
        }
    }
    Ok(())
}

/// The end of the text.
pub fn finish(
    mode: Mode,
    mut stack: Vec<usize>,
    mut out: Vec<Token>,
    end: Place,
) -> Result<Vec<Token>, TokenError>
    ensures { Finishes (λ v. v.items) result end mode (reverse stack.items) out.items }
{
    if let Mode::Within(_) = mode {
        push(&mut out, token_at(TokenKind::Newline, end))?;
    }
    close(&mut stack, &mut out, end)?;
    Ok(out)
}

/// What the text is refused for where no rule continues, at this place and for this reason: the indentation of the
/// place comes first.
fn broken(
    mode: Mode,
    mut stack: Vec<usize>,
    mut out: Vec<Token>,
    place: Place,
    reason: Refusal,
) -> TokenError
    ensures { Breaks result place reason mode (reverse stack.items) }
{
    match begin_line(mode, &mut stack, &mut out, before_place(place)) {
        Ok(()) => TokenError::Refused(reason),
        Err(e) => e,
    }
}

/// Why the text has no tokens, where no word was read at this place, for this reason.
pub fn stopped(
    mode: Mode,
    stack: Vec<usize>,
    out: Vec<Token>,
    place: Place,
    reason: TokenError,
) -> TokenError
    ensures { Stops result place reason mode (reverse stack.items) }
{
    match reason {
        TokenError::Refused(refusal) => broken(mode, stack, out, place, refusal),
        TokenError::OutOfMemory => TokenError::OutOfMemory,
    }
}
