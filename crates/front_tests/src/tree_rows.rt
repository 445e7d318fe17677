//! Texts with and without a module, by hand from the grammar. In a row `$` is a line end.
use py_base::{NoMemory, Refusal};
use py_grammar::ends_law;
use py_parser::{ParseError, parse};
use py_tokens::tokens;
use py_tree::{Expr, Module, Operator, Stmt};
use std::alloc::Global;
use std::test;

type Tested = Result<(), test::Fail>;

/// The row's text, with line ends.
fn text_of(alloc: Global, row: &str) -> Result<Vec<u8>, NoMemory> {
    let mut text = Vec::new(alloc);
    for b in row.as_bytes() {
        text.push(if *b == b'$' { b'\n' } else { *b })?;
    }
    Ok(text)
}

/// `Module`, or why there is none, and the line.
fn shown(alloc: Global, answer: &Result<Module, ParseError>) -> Result<String, NoMemory> {
    match answer {
        Ok(_) => format!(in alloc; "Module"),
        Err(ParseError::Refused(Refusal::Unexpected { line })) => {
            format!(in alloc; "Unexpected {line}")
        }
        Err(ParseError::Refused(Refusal::LeftOut { construct, line })) => {
            format!(in alloc; "{construct:?} {line}")
        }
        Err(ParseError::Refused(Refusal::Deep { line })) => format!(in alloc; "Deep {line}"),
        Err(_) => format!(in alloc; "other"),
    }
}

/// The answer to a text, or None where it is too long or has no tokens.
fn parsed(alloc: Global, text: &[u8]) -> Option<Result<Module, ParseError>> {
    if text.len() > 100_000 {
        return None;
    }
    let Ok(found) = tokens(alloc, text) else {
        return None;
    };
    ends_law();
    Some(parse(alloc, found.as_slice()))
}

fn gives(alloc: Global, text: &[u8], want: &str) -> Result<bool, NoMemory> {
    let Some(answer) = parsed(alloc, text) else {
        return Ok(false);
    };
    let answer = shown(alloc, &answer)?;
    Ok(answer.as_str() == want)
}

fn row_gives(alloc: Global, row: &str, want: &str) -> Result<bool, NoMemory> {
    let text = text_of(alloc, row)?;
    gives(alloc, text.as_slice(), want)
}

/// Whether a row, an answer and a text behind it, is answered so.
fn row_holds(alloc: Global, row: &str) -> Result<bool, NoMemory> {
    match row.split_once('|') {
        None => Ok(false),
        Some((want, text)) => row_gives(alloc, text, want),
    }
}

/// How many rows, an answer and a text behind it, are answered so.
fn answered(alloc: Global, rows: &str) -> Result<u32, NoMemory> {
    let mut count: u32 = 0;
    for row in rows.split('\n') {
        if row_holds(alloc, row)? {
            count = count.saturating_add(1);
        }
    }
    Ok(count)
}

/// How many rows are texts of modules.
fn modules(alloc: Global, rows: &str) -> Result<u32, NoMemory> {
    let mut count: u32 = 0;
    for row in rows.split('\n') {
        if row_gives(alloc, row, "Module")? {
            count = count.saturating_add(1);
        }
    }
    Ok(count)
}

fn push_often(text: &mut Vec<u8>, piece: &str, times: u32) -> Result<(), NoMemory> {
    for _ in 0..times {
        text.extend_from_slice(piece.as_bytes())?;
    }
    Ok(())
}

/// So many openings, what is inside, and as many closings.
fn nested(
    alloc: Global,
    times: u32,
    opening: &str,
    inside: &str,
    closing: &str,
) -> Result<Vec<u8>, NoMemory> {
    let mut text = Vec::new(alloc);
    push_often(&mut text, opening, times)?;
    push_often(&mut text, inside, 1)?;
    push_often(&mut text, closing, times)?;
    Ok(text)
}

fn nested_gives(
    alloc: Global,
    times: u32,
    opening: &str,
    inside: &str,
    closing: &str,
    want: &str,
) -> Result<bool, NoMemory> {
    let text = nested(alloc, times, opening, inside, closing)?;
    gives(alloc, text.as_slice(), want)
}

/// Whether so many of a row, an opening, what is inside and a closing, have this answer.
fn often_gives(alloc: Global, times: u32, row: &str, want: &str) -> Result<bool, NoMemory> {
    let Some((opening, more)) = row.split_once('|') else {
        return Ok(false);
    };
    match more.split_once('|') {
        None => Ok(false),
        Some((inside, closing)) => nested_gives(alloc, times, opening, inside, closing, want),
    }
}

/// How many rows, so many times, have this answer.
fn all_give(alloc: Global, times: u32, rows: &str, want: &str) -> Result<u32, NoMemory> {
    let mut count: u32 = 0;
    for row in rows.split('\n') {
        if often_gives(alloc, times, row, want)? {
            count = count.saturating_add(1);
        }
    }
    Ok(count)
}

/// A byte of a row, where `$` is a line end, and `<` and `>` are 95 brackets: a target between them has a height of at
/// most 3.
fn push_high(text: &mut Vec<u8>, b: u8) -> Result<(), NoMemory> {
    match b {
        b'<' => push_often(text, "(", 95),
        b'>' => push_often(text, ")", 95),
        b'$' => push_often(text, "\n", 1),
        _ => {
            text.push(b)?;
            Ok(())
        }
    }
}

fn high_text_of(alloc: Global, row: &str) -> Result<Vec<u8>, NoMemory> {
    let mut text = Vec::new(alloc);
    for b in row.as_bytes() {
        push_high(&mut text, *b)?;
    }
    Ok(text)
}

fn high_row_gives(alloc: Global, row: &str, want: &str) -> Result<bool, NoMemory> {
    let text = high_text_of(alloc, row)?;
    gives(alloc, text.as_slice(), want)
}

fn high_row_holds(alloc: Global, row: &str) -> Result<bool, NoMemory> {
    match row.split_once('|') {
        None => Ok(false),
        Some((want, text)) => high_row_gives(alloc, text, want),
    }
}

/// How many rows with high targets, an answer and a text behind it, are answered so.
fn high_answered(alloc: Global, rows: &str) -> Result<u32, NoMemory> {
    let mut count: u32 = 0;
    for row in rows.split('\n') {
        if high_row_holds(alloc, row)? {
            count = count.saturating_add(1);
        }
    }
    Ok(count)
}

fn push_if(text: &mut Vec<u8>, depth: u32) -> Result<(), NoMemory> {
    push_often(text, " ", depth)?;
    push_often(text, "if x:\n", 1)
}

/// So many `if` statements, one in another.
fn nested_blocks(alloc: Global, times: u32) -> Result<Vec<u8>, NoMemory> {
    let mut text = Vec::new(alloc);
    for depth in 0..times {
        push_if(&mut text, depth)?;
    }
    push_often(&mut text, " ", times)?;
    push_often(&mut text, "pass\n", 1)?;
    Ok(text)
}

fn blocks_give(alloc: Global, times: u32, want: &str) -> Result<bool, NoMemory> {
    let text = nested_blocks(alloc, times)?;
    gives(alloc, text.as_slice(), want)
}

/// Whether it is an `if` on line 1 with `pass` on line 2.
fn is_if_with_pass(module: &Module) -> bool {
    match module.body.as_slice() {
        [Stmt::If(arms, None)] => match arms.as_slice() {
            [arm] => match arm.body.as_slice() {
                [Stmt::Pass(line)] => arm.line == 1 && *line == 2,
                _ => false,
            },
            _ => false,
        },
        _ => false,
    }
}

/// A module, a statement and a name have a height of 3, and each of these adds 1.
const NESTED: &str = "(|x|)
(|x|,)
[|x|]
{1: |x|}
{|x|: 1}
f(|x|)
f(a=|x|)
a[|x|]
a[1:|x|]
-|x|
not |x|
x ** |x|
x if y else |x|";

const LEFT_OUT: &str = "Float 1|x = 1.5
Long 2|x = 1$y = 2L
Unicode 1|x = u'a'
Unicode 1|x = 'a' u'b'
Backquote 1|x = `y`
Lambda 1|f = lambda x: x
Decorator 2|x = 1$@f$def g(): pass
With 1|with x: pass
Exec 1|exec 'x'
Generator 2|def f():$  yield 1
Generator 1|x = yield
Generator 1|x = (yield)
Comprehension 1|[x for x in y]
Comprehension 1|(x for x in y)
Comprehension 1|f(x for x in y)
Comprehension 1|{x: y for x in z}
Set 1|{1, 2}
Set 1|{1}
StarArgument 1|f(*a)
StarArgument 1|f(x, **a)
StarArgument 1|def f(*a): pass
TupleArgument 1|def f((a, b)): pass
Import 1|import os
Import 1|from thread import nothing
Import 1|from thread import Lock
PrintTo 1|print >>f, x
Traceback 1|raise a, b, c
SliceForm 1|x[1:2:3]
SliceForm 1|x[1:2, 3]
SliceForm 1|x[1:2] = y
SliceForm 1|del x[1:2]
MultipleBases 1|class A(B, C): pass";

const UNEXPECTED: &str = "Unexpected 1|print 1 +
Unexpected 1|f(a=1, b)
Unexpected 1|1 = x
Unexpected 1|() = x
Unexpected 1|(x) += 1
Unexpected 1|f() = 1
Unexpected 1|pass pass
Unexpected 1|global 1
Unexpected 1|x;;y
Unexpected 2|if x:$y
Unexpected 1|else: pass
Unexpected 2|try: pass$x
Unexpected 3|try: pass$except: pass$except x: pass
Unexpected 1|def f(a=1, b): pass
Unexpected 1|x = = y
Unexpected 1|x not y
Unexpected 1|import thread,
Unexpected 1|del x,
Unexpected 1|x[1, 2:3]
Unexpected 1|a b
Unexpected 1|)
Unexpected 1|x if y
Unexpected 1|not
Unexpected 1|  x";

/// In the place of a target, at the limit of height.
const HIGH_TARGETS: &str = "Module|del <((x))>
Module|del <a.b.c>
Module|del <(1).x>
Module|del <(a, b.c)>
Module|del <(a.b, 1 .x)>
Module|del <[f(1).x,]>
Module|del <{1: a}.x>
Module|del <().x>
Module|for <((x))> in y: pass
Module|for <(x)>, y in z: pass
Module|for x, <(x)> in y: pass
Module|try: pass$except x as <(1).x>: pass";

/// The token that is refused stands first in its line.
const HIGHER_TARGETS: &str = "Deep 2|del <(($(x)))>
Deep 2|del <(($1)).x>
Deep 3|del <(a.b,$1$)>
Deep 2|del <(a.b, c$+ d).x>
Deep 2|del <(1, a$.b).x>
Deep 2|del <(a[1:2]$)>
Deep 2|del <((a,$1).x, b)>
Deep 2|del <($-a).x>
Deep 2|del <(a$if b else c).x>
Deep 2|del <[f(1)$]>
Deep 2|for <($-a).x> in y: pass
Deep 1|for <((x))>, y in z: pass
Deep 2|for x, <($(x))> in y: pass
Deep 4|try: pass$except x as <(a.b,$1$)>: pass
Deep 3|try: pass$except x, <($-a).x>: pass
SliceForm 1|del <a[1:2]>
SliceForm 2|for <a[1:2]$> in y: pass
Comprehension 2|del <(a$for b in c)>
Generator 2|del <($yield)>
Float 2|del <($1.5)>
Unexpected 2|del <(a$b)>
Unexpected 1|del -x";

const SIMPLE: &str = "
$$
x
x;
x; y; z;
x = y = 1
x, y = y, x
x, = y
(x, [y, z]) = w
x.y = 1
x[0] = 1
x += 1
x.y **= 2
x[0] //= 2, 3
print
print 1
print 1,
print 1, 'a'
pass
break
continue
return
return 1, 2
raise
raise x
raise x, y
del x
del x, y.z, w[0], (a, b)
global x, y
assert x
assert x, y
import thread
import thread as t, threading
from thread import start_new_thread, error as e
from threading import Thread, Lock";

const COMPOUND: &str = "if x: y
if x: y$elif z: w$elif v: u$else: t
if x:$  y$  z$else:$  w
while x: pass$else: pass
for x in y: pass$else: pass
for x, in y, z: pass
for x, (y, z) in w: pass
try: pass$finally: pass
try: pass$except: pass
try: pass$except x: pass$except y, z: pass$except w as v: pass$except: pass$else: pass$finally: pass
def f(): pass
def f(a, b=1, c=2,): return a
class A: pass
class A(): pass
class A(B):$  def f(self):$    pass$  x = 1";

const EXPRESSIONS: &str = "x if y else z if w else v
x or y or z and w and not not v
x < y > z == a >= b <= c != d <> e in f not in g is h is not i
x | y ^ z & a << b >> c
x + y - z * a / b // c % d
+x - -y ** -~z ** 2
x.y[0](1)[a:b][:][1, 2](a, b=1, c=2,)(a=1)()
f(a,)
()
(x)
(x,)
(x, y,)
[]
[x]
[x, y,]
{}
{x: y}
{x: y, z: w,}
'a' 'b' r'c'
0x1F";

#[test]
fn a_module_has_its_statements(rt: HostRuntime) -> Tested {
    let answer = parsed(rt.alloc(), b"if x:\n  pass\n");
    assert!(rt; matches!(&answer, Some(Ok(module)) if is_if_with_pass(module)));
    Ok(())
}

fn are_assignments(statements: &[Stmt]) -> bool {
    match statements {
        [
            Stmt::Assign(1, targets, Expr::Int(1)),
            Stmt::Augment(1, _, Operator::Plus, Expr::Int(2)),
            Stmt::Do(1, Expr::Int(3)),
        ] => targets.len() == 2,
        _ => false,
    }
}

#[test]
fn a_line_has_its_assignments(rt: HostRuntime) -> Tested {
    let answer = parsed(rt.alloc(), b"x = y = 1; z += 2; 3\n");
    assert!(rt; matches!(&answer, Some(Ok(module)) if are_assignments(module.body.as_slice())));
    Ok(())
}

fn are_imports(statements: &[Stmt]) -> bool {
    match statements {
        [Stmt::Import(1, modules), Stmt::From(1, owner, members)] => {
            modules.len() == 2 && owner.as_slice() == b"thread".as_slice() && members.len() == 1
        }
        _ => false,
    }
}

#[test]
fn a_line_has_its_imports(rt: HostRuntime) -> Tested {
    let answer = parsed(
        rt.alloc(),
        b"import thread as t, threading; from thread import error as e;\n",
    );
    assert!(rt; matches!(&answer, Some(Ok(module)) if are_imports(module.body.as_slice())));
    Ok(())
}

#[test]
fn each_left_out_construct_is_refused_as_such(rt: HostRuntime) -> Tested {
    assert_eq!(rt; answered(rt.alloc(), LEFT_OUT)?, 32);
    Ok(())
}

#[test]
fn what_continues_no_module_is_unexpected(rt: HostRuntime) -> Tested {
    assert_eq!(rt; answered(rt.alloc(), UNEXPECTED)?, 24);
    Ok(())
}

#[test]
fn each_simple_statement_has_a_module(rt: HostRuntime) -> Tested {
    assert_eq!(rt; modules(rt.alloc(), SIMPLE)?, 35);
    Ok(())
}

#[test]
fn each_compound_statement_has_a_module(rt: HostRuntime) -> Tested {
    assert_eq!(rt; modules(rt.alloc(), COMPOUND)?, 15);
    Ok(())
}

#[test]
fn each_expression_has_a_module(rt: HostRuntime) -> Tested {
    assert_eq!(rt; modules(rt.alloc(), EXPRESSIONS)?, 20);
    Ok(())
}

#[test]
fn expressions_reach_the_height_limit(rt: HostRuntime) -> Tested {
    assert_eq!(rt; all_give(rt.alloc(), 97, NESTED, "Module")?, 13);
    Ok(())
}

#[test]
fn higher_expressions_are_too_high(rt: HostRuntime) -> Tested {
    assert_eq!(rt; all_give(rt.alloc(), 98, NESTED, "Deep 1")?, 13);
    Ok(())
}

#[test]
fn targets_reach_the_height_limit(rt: HostRuntime) -> Tested {
    assert_eq!(rt; high_answered(rt.alloc(), HIGH_TARGETS)?, 12);
    Ok(())
}

#[test]
fn higher_targets_are_refused_at_their_token(rt: HostRuntime) -> Tested {
    assert_eq!(rt; high_answered(rt.alloc(), HIGHER_TARGETS)?, 22);
    Ok(())
}

#[test]
fn blocks_reach_the_height_limit(rt: HostRuntime) -> Tested {
    assert!(rt; blocks_give(rt.alloc(), 49, "Module")?);
    Ok(())
}

#[test]
fn higher_blocks_are_too_high(rt: HostRuntime) -> Tested {
    assert!(rt; blocks_give(rt.alloc(), 50, "Deep 50")?);
    Ok(())
}

#[test]
fn fifty_brackets_have_a_module(rt: HostRuntime) -> Tested {
    assert!(rt; nested_gives(rt.alloc(), 50, "(", "x", ")", "Module")?);
    Ok(())
}

#[test]
fn many_brackets_are_too_high(rt: HostRuntime) -> Tested {
    assert!(rt; nested_gives(rt.alloc(), 90_000, "(", "", "", "Deep 1")?);
    Ok(())
}
