//! Texts and their programs, or why they have none. A row is a refusal's number and line, `?` and a text; `$` is a
//! line end.
use crate::scripts::COUNTER;
use crate::tables::check_rows;
use crate::text_rows::text_of;
use front_end::{TextFault, compile_text};
use py_base::NoMemory;
use std::alloc::Global;
use std::test;

type Tested = Result<(), test::Fail>;

/// A text's answer: the count of its program's codes, or a refusal's number and line, or neither.
#[derive(Clone, Copy, Debug, PartialEq, Eq)]
enum Outcome {
    Codes(usize),
    Refused(u8, u32),
    Neither,
}

/// The answer of a text of at most 5,000,000 bytes.
fn outcome_of(alloc: Global, text: &[u8]) -> Outcome {
    if text.len() > 5_000_000 {
        return Outcome::Neither;
    }
    match compile_text(alloc, text) {
        Ok(verified) => Outcome::Codes(verified.program().codes.len()),
        Err(TextFault::Refused(refusal)) => Outcome::Refused(refusal.number(), refusal.line()),
        Err(TextFault::OutOfMemory) => Outcome::Neither,
    }
}

/// The module's code, the class body's, those of its two methods, and the worker's.
#[test]
fn a_script_has_a_program(rt: HostRuntime) -> Tested {
    assert_eq!(rt;
        outcome_of(rt.alloc(), COUNTER.as_bytes()),
        Outcome::Codes(5)
    );
    Ok(())
}

/// How many lines a text has: its last one may be empty.
fn lines(text: &[u8]) -> u32 {
    let mut count: u32 = 1;
    for b in text {
        if *b == b'\n' {
            count = count.saturating_add(1);
        }
    }
    count
}

/// Whether a text has a program, or is refused on one of its lines.
fn is_told_inside(alloc: Global, text: &[u8]) -> bool {
    match outcome_of(alloc, text) {
        Outcome::Codes(_) => true,
        Outcome::Refused(_, line) => line >= 1 && line <= lines(text),
        Outcome::Neither => false,
    }
}

/// How many fronts of a text, from the empty one to the whole, have a program or are refused on one of their lines.
fn fronts_told_inside(alloc: Global, text: &[u8]) -> usize {
    let mut count = 0usize;
    for end in 0..=text.len() {
        if is_told_inside(alloc, &text[..end]) {
            count = count.saturating_add(1);
        }
    }
    count
}

#[test]
fn each_front_has_a_program_or_a_line(rt: HostRuntime) -> Tested {
    let count = fronts_told_inside(rt.alloc(), COUNTER.as_bytes());
    assert_eq!(rt; count, COUNTER.len() + 1);
    Ok(())
}

#[test]
fn brackets_are_too_deep(rt: HostRuntime) -> Tested {
    let mut text = Vec::new(rt.alloc());
    text.resize(4_194_304, b'(')?;
    assert_eq!(rt;
        outcome_of(rt.alloc(), text.as_slice()),
        Outcome::Refused(7, 1)
    );
    Ok(())
}

/// One text for each number, and texts in which places of several kinds are refused.
const REFUSALS: &str = "1 2?print 1$?
2 3?if 1:$  a = 1$ b = 2$
3 2?x = 1$s = '''a$b$
4 1?print 9223372036854775808$
5 1?print 1 +
6 2?x = 1$x = 1.5
8 1?return 1$
9 1?def f(a, a): pass$
10 3?def f(x):$  def g():$    return x$
12 1?print '\\x4'$
5 1?x = = 1$y = 1.5$
1 2?print 1 +$?
8 1?break$def f(a, a): pass$
9 1?def f(a, a): pass$break$
10 3?def f(x):$  def g():$    x$    return x$break$";

fn row_text(number: u8, line: u32, alloc: Global) -> Result<String, NoMemory> {
    format!(in alloc; "{number} {line}")
}

/// Whether a row's text is refused as the row says.
fn is_refused_so(alloc: Global, wanted: &str, part: &str) -> Result<bool, NoMemory> {
    let text = text_of(alloc, part)?;
    match outcome_of(alloc, text.as_slice()) {
        Outcome::Refused(number, line) => {
            let shown = row_text(number, line, alloc)?;
            Ok(shown.as_str() == wanted)
        }
        _ => Ok(false),
    }
}

#[test]
fn texts_are_refused(rt: HostRuntime) -> Tested {
    assert_eq!(rt; check_rows(&rt, rt.alloc(), REFUSALS, is_refused_so)?, 15);
    Ok(())
}
