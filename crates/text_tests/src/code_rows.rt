//! Listings of scripts' programs, by hand from `docs/LANGUAGE.md`, "Code of a tree" and "Listing". A row is a listing
//! without its roots, from the slots of the module on and with one space where it has several, `?` and a text; `$` is
//! a line end.
use crate::tables::check_rows;
use crate::text_rows::text_of;
use front_end::compile_text;
use py_base::NoMemory;
use py_code::{Program, listing};
use py_verify::Verified;
use std::alloc::Global;
use std::test;

type Tested = Result<(), test::Fail>;

/// The verified program of a text, or None where it is too long or has none.
fn program_of(alloc: Global, text: &[u8]) -> Option<Verified> {
    if text.len() > 100_000 {
        return None;
    }
    match compile_text(alloc, text) {
        Ok(program) => Some(program),
        Err(_) => None,
    }
}

/// Adds a line with one space where it has several, and none before it.
fn push_line(text: &mut Vec<u8>, line: &[u8]) -> Result<(), NoMemory> {
    let mut blank = true;
    for b in line {
        if *b != b' ' {
            text.push(*b)?;
            blank = false;
        } else if !blank {
            text.push(b' ')?;
            blank = true;
        }
    }
    text.push(b'\n')?;
    Ok(())
}

/// A program as a row writes it.
fn shown(alloc: Global, program: &Program) -> Result<Vec<u8>, NoMemory> {
    let all = listing(alloc, program)?;
    let mut text = Vec::new(alloc);
    let mut inside = false;
    for line in all.as_slice().split(|b| *b == b'\n') {
        if inside {
            push_line(&mut text, line)?;
        }
        if line.starts_with(b"  Parameters") {
            inside = true;
        }
    }
    let _ = text.pop();
    Ok(text)
}

/// Whether a text has that program.
fn gives(alloc: Global, text: &[u8], want: &[u8]) -> Result<bool, NoMemory> {
    let Some(program) = program_of(alloc, text) else {
        return Ok(false);
    };
    let found = shown(alloc, program.program())?;
    Ok(found.as_slice() == want)
}

fn row_gives(alloc: Global, want: &str, row: &str) -> Result<bool, NoMemory> {
    let text = text_of(alloc, row)?;
    let want = text_of(alloc, want)?;
    gives(alloc, text.as_slice(), want.as_slice())
}

/// 14 rows: expressions.
const EXPRESSIONS: &str =
    "Slots:$Keywords 0:$1 0 SETUP$1 CONST 1$2 STORE_GLOBAL 21 (x)$3 CONST None$4 RETURN$?x = 1
Slots:$Keywords 0:$1 0 SETUP$1 CONST root 21 ('a')$2 DUP$3 STORE_GLOBAL 22 (x)$4 STORE_GLOBAL 23 (y)$5 CONST None$\
    6 RETURN$?x = y = 'a'
Slots:$Keywords 0:$1 0 SETUP$1 LOAD_GLOBAL 21 (a)$2 UNARY 1 (-)$3 LOAD_GLOBAL 22 (b)$4 BINARY 5 (+)$\
    5 LOAD_GLOBAL 23 (c)$6 BINARY 6 (-)$7 POP$8 CONST None$9 RETURN$?-a + b - c
Slots:$Keywords 0:$1 0 SETUP$1 LOAD_GLOBAL 21 (a)$2 LOAD_GLOBAL 22 (b)$3 BINARY 11 (**)$4 POP$5 LOAD_GLOBAL 21 (a)$\
    6 NOT$7 POP$8 CONST None$9 RETURN$?a ** b; not a
Slots:$Keywords 0:$1 0 SETUP$1 LOAD_GLOBAL 21 (a)$2 KEEP_FALSE 6 (to L1)$3 LOAD_GLOBAL 22 (b)$4 KEEP_FALSE 6 (to L1)$\
    5 LOAD_GLOBAL 23 (c)$L1: 6 POP$7 CONST None$8 RETURN$?a and b and c
Slots:$Keywords 0:$1 0 SETUP$1 LOAD_GLOBAL 21 (a)$2 KEEP_TRUE 4 (to L1)$3 CONST None$L1: 4 POP$5 CONST None$6 RETURN$\
    ?a or None
Slots:$Keywords 0:$1 0 SETUP$1 LOAD_GLOBAL 21 (a)$2 LOAD_GLOBAL 22 (b)$3 COMPARE 7 (not in)$4 POP$5 CONST None$\
    6 RETURN$?a not in b
Slots:$Keywords 0:$1 0 SETUP$1 LOAD_GLOBAL 21 (a)$2 LOAD_GLOBAL 22 (b)$3 DUP$4 ROT3$5 COMPARE 0 (<)$\
    6 KEEP_FALSE 15 (to L1)$7 LOAD_GLOBAL 23 (c)$8 DUP$9 ROT3$10 COMPARE 4 (<=)$11 KEEP_FALSE 15 (to L1)$\
    12 LOAD_GLOBAL 24 (d)$13 COMPARE 2 (==)$14 JUMP 17 (to L2)$L1: 15 ROT2$16 POP$L2: 17 POP$18 CONST None$19 RETURN$\
    ?a < b <= c == d
Slots:$Keywords 0:$1 0 SETUP$1 LOAD_GLOBAL 22 (b)$2 JUMP_FALSE 5 (to L1)$3 LOAD_GLOBAL 21 (a)$4 JUMP 6 (to L2)$\
    L1: 5 LOAD_GLOBAL 23 (c)$L2: 6 POP$7 CONST None$8 RETURN$?a if b else c
Slots:$Keywords 0:$1 0 SETUP$1 LOAD_GLOBAL 21 (a)$2 LOAD_GLOBAL 22 (b)$3 LOAD_GLOBAL 23 (c)$4 BUILD_LIST 1$\
    5 LOAD_GLOBAL 21 (a)$6 CONST 1$7 LOAD_GLOBAL 22 (b)$8 CONST 2$9 BUILD_DICT 2$10 BUILD_TUPLE 4$11 POP$12 CONST None$\
    13 RETURN$?(a, (b), [c], {a: 1, b: 2})
Slots:$Keywords 0:$1 0 SETUP$1 LOAD_GLOBAL 22 (a)$2 LOAD_ATTR 21 ('b')$3 LOAD_GLOBAL 23 (c)$4 LOAD_ITEM$5 CONST 1$\
    6 CONST None$7 SLICE$8 CONST None$9 LOAD_GLOBAL 24 (d)$10 SLICE$11 POP$12 CONST None$13 RETURN$?a.b[c][1:][:d]
Slots:$Keywords 0:$Keywords 1: 'k' 'm'$1 0 SETUP$1 LOAD_GLOBAL 23 (f)$2 LOAD_GLOBAL 24 (a)$3 LOAD_GLOBAL 25 (b)$\
    4 LOAD_GLOBAL 26 (c)$5 CONST 1$6 CALL 2 keywords 1 'k' 'm'$7 POP$8 CONST None$9 RETURN$?f(a, b, k=c, m=1)
Slots:$Keywords 0:$Keywords 1: 'k'$Keywords 2: 'm'$1 0 SETUP$1 LOAD_GLOBAL 25 (o)$2 LOAD_METHOD 21 ('m')$\
    3 LOAD_GLOBAL 26 (a)$4 CONST 1$5 CALL_METHOD 1 keywords 1 'k'$6 CONST 2$7 CALL 0 keywords 1 'k'$\
    8 LOAD_METHOD 23 ('n')$9 CONST 1$10 CALL_METHOD 0 keywords 2 'm'$11 LOAD_ATTR 24 ('p')$12 POP$13 CONST None$\
    14 RETURN$?o.m(a, k=1)(k=2).n(m=1).p
Slots:$Keywords 0:$Keywords 1: 'm'$Keywords 2: 'k'$1 0 SETUP$1 LOAD_GLOBAL 23 (o)$2 LOAD_ATTR 21 ('m')$\
    3 LOAD_GLOBAL 24 (f)$4 LOAD_GLOBAL 25 (g)$5 CONST 1$6 CALL 0 keywords 1 'm'$7 CALL 0 keywords 2 'k'$\
    8 CALL 1 keywords 0$9 POP$10 CONST None$11 RETURN$?(o.m)(f(k=g(m=1)))";

/// 10 rows: simple statements.
const SIMPLE: &str =
    "Slots:$Keywords 0:$1 0 SETUP$1 LOAD_GLOBAL 24 (e)$2 UNPACK 2$3 STORE_GLOBAL 21 (x)$4 UNPACK 2$\
    5 STORE_GLOBAL 22 (y)$6 UNPACK 1$7 STORE_GLOBAL 23 (z)$8 CONST None$9 RETURN$?x, (y, [z]) = e
Slots:$Keywords 0:$1 0 SETUP$1 LOAD_GLOBAL 26 (e)$2 DUP$3 LOAD_GLOBAL 24 (o)$4 STORE_ATTR 21 ('a')$\
    5 LOAD_GLOBAL 24 (o)$6 LOAD_ATTR 22 ('b')$7 LOAD_ATTR 23 ('c')$8 LOAD_GLOBAL 25 (i)$9 STORE_ITEM$10 CONST None$\
    11 RETURN$?o.a = o.b.c[i] = e
Slots:$Keywords 0:$1 0 SETUP$1 LOAD_GLOBAL 22 (x)$2 CONST 1$3 INPLACE 5 (+)$4 STORE_GLOBAL 22 (x)$5 LOAD_GLOBAL 23 (o)$\
    6 DUP$7 LOAD_ATTR 21 ('a')$8 LOAD_GLOBAL 24 (e)$9 INPLACE 6 (-)$10 ROT2$11 STORE_ATTR 21 ('a')$\
    12 LOAD_GLOBAL 23 (o)$13 LOAD_GLOBAL 25 (i)$14 DUP2$15 LOAD_ITEM$16 LOAD_GLOBAL 22 (x)$17 INPLACE 7 (*)$18 ROT3$\
    19 STORE_ITEM$20 CONST None$21 RETURN$?x += 1; o.a -= e; o[i] *= x
Slots:$Keywords 0:$1 0 SETUP$1 DEL_GLOBAL 22 (x)$2 LOAD_GLOBAL 23 (o)$3 DEL_ATTR 21 ('a')$4 LOAD_GLOBAL 23 (o)$\
    5 LOAD_GLOBAL 24 (i)$6 DEL_ITEM$7 CONST None$8 RETURN$?del x, (o.a, [o[i]])
Slots:$Keywords 0:$1 0 SETUP$1 PRINT_NEWLINE$2 2 LOAD_GLOBAL 21 (a)$3 PRINT_ITEM$4 CONST 1$5 PRINT_ITEM$\
    6 PRINT_NEWLINE$3 7 LOAD_GLOBAL 21 (a)$8 PRINT_ITEM$1 9 CONST None$10 RETURN$?print$print a, 1$print a,
Slots:$Keywords 0:$1 0 SETUP$1 LOAD_GLOBAL 21 (E)$2 MAKE_RAISED 0$3 RAISE$2 4 LOAD_GLOBAL 21 (E)$5 LOAD_GLOBAL 22 (v)$\
    6 MAKE_RAISED 1$7 RAISE$1 8 CONST None$9 RETURN$?raise E$raise E, v
Slots:$Keywords 0:$1 0 SETUP$1 LOAD_GLOBAL 22 (a)$2 NOT$3 JUMP_FALSE 7 (to L1)$4 CONST root 13 (AssertionError)$\
    5 MAKE_RAISED 0$6 RAISE$2 L1: 7 LOAD_GLOBAL 22 (a)$8 NOT$9 JUMP_FALSE 14 (to L2)$10 CONST root 13 (AssertionError)$\
    11 CONST root 21 ('no')$12 CALL 1 keywords 0$13 RAISE$1 L2: 14 CONST None$15 RETURN$?assert a$assert a, 'no'
Slots:$Keywords 0:$1 0 SETUP$1 CONST builtin 19 (thread)$2 STORE_GLOBAL 21 (thread)$3 CONST builtin 20 (threading)$\
    4 STORE_GLOBAL 22 (t)$5 CONST None$6 RETURN$?import thread, threading as t
Slots:$Keywords 0:$1 0 SETUP$1 CONST builtin 21 (thread.start_new_thread)$2 STORE_GLOBAL 21 (start_new_thread)$\
    3 CONST builtin 22 (thread.allocate_lock)$4 STORE_GLOBAL 22 (l)$5 CONST root 20 (thread.error)$\
    6 STORE_GLOBAL 23 (error)$2 7 CONST builtin 23 (threading.Thread)$8 STORE_GLOBAL 24 (Thread)$\
    9 CONST builtin 24 (threading.Lock)$10 STORE_GLOBAL 25 (Lock)$1 11 CONST None$12 RETURN$\
    ?from thread import start_new_thread, allocate_lock as l, error$from threading import Thread, Lock
Slots:$Keywords 0:$1 0 SETUP$3 1 LOAD_GLOBAL 23 (__name__)$2 CONST root 21 ('__main__')$3 COMPARE 2 (==)$4 POP$\
    1 5 CONST None$6 RETURN$?global x$pass$__name__ == '__main__'";

/// 7 rows: compound statements.
const COMPOUND: &str =
    "Slots:$Keywords 0:$1 0 SETUP$1 LOAD_GLOBAL 21 (a)$2 JUMP_FALSE 6 (to L1)$3 LOAD_GLOBAL 22 (b)$4 POP$\
    5 JUMP 11 (to L3)$2 L1: 6 LOAD_GLOBAL 23 (c)$7 JUMP_FALSE 9 (to L2)$8 JUMP 11 (to L3)$4 L2: 9 LOAD_GLOBAL 24 (d)$\
    10 POP$1 L3: 11 CONST None$12 RETURN$?if a: b$elif c: pass$else:$ d
Slots:$Keywords 0:$1 0 SETUP$L1: 1 LOAD_GLOBAL 21 (a)$2 JUMP_FALSE 9 (to L3)$2 3 LOAD_GLOBAL 22 (b)$\
    4 JUMP_FALSE 7 (to L2)$5 JUMP 11 (to L4)$6 JUMP 7 (to L2)$3 L2: 7 JUMP 1 (to L1)$1 8 JUMP 1 (to L1)$\
    4 L3: 9 LOAD_GLOBAL 23 (c)$10 POP$1 L4: 11 CONST None$12 RETURN$?while a:$ if b: break$ continue$else: c
Slots:$Keywords 0:$1 0 SETUP$1 LOAD_GLOBAL 23 (a)$2 ITER$L1: 3 NEXT 14 (to L3)$4 UNPACK 2$5 STORE_GLOBAL 21 (x)$\
    6 STORE_GLOBAL 22 (y)$2 7 LOAD_GLOBAL 21 (x)$8 JUMP_FALSE 12 (to L2)$9 POP$10 JUMP 16 (to L4)$11 JUMP 12 (to L2)$\
    3 L2: 12 JUMP 3 (to L1)$1 13 JUMP 3 (to L1)$4 L3: 14 LOAD_GLOBAL 22 (y)$15 POP$1 L4: 16 CONST None$17 RETURN$\
    ?for x, y in a:$ if x: break$ continue$else: y
Slots: <hidden>$Keywords 0:$1 0 SETUP$1 TRY 8 (to L1)$2 LOAD_GLOBAL 21 (a)$3 POP$4 POP_TRY$6 5 LOAD_GLOBAL 27 (d)$\
    6 POP$1 7 JUMP 30 (to L4)$L1: 8 STORE_LOCAL 0 (<hidden>)$2 9 LOAD_LOCAL 0 (<hidden>)$10 LOAD_GLOBAL 22 (E)$\
    11 EXC_MATCH$12 JUMP_FALSE 16 (to L2)$13 LOAD_GLOBAL 23 (b)$14 POP$15 JUMP 30 (to L4)$\
    3 L2: 16 LOAD_LOCAL 0 (<hidden>)$17 LOAD_GLOBAL 24 (F)$18 EXC_MATCH$19 JUMP_FALSE 25 (to L3)$\
    20 LOAD_LOCAL 0 (<hidden>)$21 STORE_GLOBAL 25 (x)$4 22 LOAD_LOCAL 0 (<hidden>)$23 RAISE$3 24 JUMP 30 (to L4)$\
    5 L3: 25 LOAD_GLOBAL 26 (c)$26 POP$27 JUMP 30 (to L4)$1 28 LOAD_LOCAL 0 (<hidden>)$29 RAISE$L4: 30 CONST None$\
    31 RETURN$?try: a$except E: b$except F, x:$ raise$except: c$else: d
Slots: <hidden>$Keywords 0:$1 0 SETUP$1 TRY 8 (to L1)$2 LOAD_GLOBAL 21 (a)$3 POP$4 POP_TRY$2 5 LOAD_GLOBAL 22 (b)$\
    6 POP$1 7 JUMP 13 (to L2)$L1: 8 STORE_LOCAL 0 (<hidden>)$2 9 LOAD_GLOBAL 22 (b)$10 POP$\
    1 11 LOAD_LOCAL 0 (<hidden>)$12 RAISE$L2: 13 CONST None$14 RETURN$?try: a$finally: b
Slots: <hidden> <hidden>$Keywords 0:$1 0 SETUP$1 TRY 21 (to L4)$2 TRY 7 (to L1)$3 LOAD_GLOBAL 21 (a)$4 POP$5 POP_TRY$\
    6 JUMP 17 (to L3)$L1: 7 STORE_LOCAL 1 (<hidden>)$2 8 LOAD_LOCAL 1 (<hidden>)$9 LOAD_GLOBAL 22 (E)$10 EXC_MATCH$\
    11 JUMP_FALSE 15 (to L2)$12 LOAD_GLOBAL 23 (b)$13 POP$14 JUMP 17 (to L3)$1 L2: 15 LOAD_LOCAL 1 (<hidden>)$16 RAISE$\
    L3: 17 POP_TRY$3 18 LOAD_GLOBAL 24 (c)$19 POP$1 20 JUMP 26 (to L5)$L4: 21 STORE_LOCAL 0 (<hidden>)$\
    3 22 LOAD_GLOBAL 24 (c)$23 POP$1 24 LOAD_LOCAL 0 (<hidden>)$25 RAISE$L5: 26 CONST None$27 RETURN$?try: a$\
    except E: b$finally: c
Slots: <hidden> <hidden> <hidden>$Keywords 0:$1 0 SETUP$1 TRY 15 (to L3)$2 LOAD_GLOBAL 21 (a)$3 POP$4 POP_TRY$\
    3 5 TRY 10 (to L1)$6 LOAD_GLOBAL 22 (b)$7 POP$8 POP_TRY$9 JUMP 14 (to L2)$L1: 10 STORE_LOCAL 1 (<hidden>)$\
    4 11 JUMP 14 (to L2)$3 12 LOAD_LOCAL 1 (<hidden>)$13 RAISE$1 L2: 14 JUMP 27 (to L6)$\
    L3: 15 STORE_LOCAL 0 (<hidden>)$3 16 TRY 21 (to L4)$17 LOAD_GLOBAL 22 (b)$18 POP$19 POP_TRY$20 JUMP 25 (to L5)$\
    L4: 21 STORE_LOCAL 2 (<hidden>)$4 22 JUMP 25 (to L5)$3 23 LOAD_LOCAL 2 (<hidden>)$24 RAISE$\
    1 L5: 25 LOAD_LOCAL 0 (<hidden>)$26 RAISE$L6: 27 CONST None$28 RETURN$?try: a$finally:$ try: b$ except: pass";

/// 6 rows: ways out of loops, clauses and bodies.
const LEAVING: &str =
    "Slots: <hidden>$Keywords 0:$1 0 SETUP$L1: 1 LOAD_GLOBAL 21 (a)$2 JUMP_FALSE 25 (to L5)$2 3 TRY 19 (to L3)$\
    3 4 LOAD_GLOBAL 22 (b)$5 JUMP_FALSE 11 (to L2)$6 POP_TRY$5 7 LOAD_GLOBAL 23 (c)$8 POP$3 9 JUMP 25 (to L5)$\
    10 JUMP 11 (to L2)$4 L2: 11 POP_TRY$5 12 LOAD_GLOBAL 23 (c)$13 POP$4 14 JUMP 1 (to L1)$2 15 POP_TRY$\
    5 16 LOAD_GLOBAL 23 (c)$17 POP$2 18 JUMP 24 (to L4)$L3: 19 STORE_LOCAL 0 (<hidden>)$5 20 LOAD_GLOBAL 23 (c)$21 POP$\
    2 22 LOAD_LOCAL 0 (<hidden>)$23 RAISE$1 L4: 24 JUMP 1 (to L1)$L5: 25 CONST None$26 RETURN$\
    ?while a:$ try:$  if b: break$  continue$ finally: c
Slots: <hidden>$Keywords 0:$1 0 SETUP$1 LOAD_GLOBAL 22 (y)$2 ITER$L1: 3 NEXT 16 (to L4)$4 STORE_GLOBAL 21 (x)$\
    2 5 TRY 10 (to L2)$6 LOAD_GLOBAL 23 (a)$7 POP$8 POP_TRY$9 JUMP 15 (to L3)$L2: 10 STORE_LOCAL 0 (<hidden>)$\
    4 11 JUMP 3 (to L1)$3 12 JUMP 15 (to L3)$2 13 LOAD_LOCAL 0 (<hidden>)$14 RAISE$1 L3: 15 JUMP 3 (to L1)$\
    L4: 16 CONST None$17 RETURN$?for x in y:$ try: a$ except:$  continue
Slots: <hidden>$Keywords 0:$1 0 SETUP$1 TRY 6 (to L1)$2 LOAD_GLOBAL 21 (a)$3 POP$4 POP_TRY$5 JUMP 17 (to L4)$\
    L1: 6 STORE_LOCAL 0 (<hidden>)$3 7 LOAD_GLOBAL 23 (y)$8 ITER$L2: 9 NEXT 14 (to L3)$10 STORE_GLOBAL 22 (x)$\
    11 LOAD_LOCAL 0 (<hidden>)$12 RAISE$13 JUMP 9 (to L2)$2 L3: 14 JUMP 17 (to L4)$1 15 LOAD_LOCAL 0 (<hidden>)$\
    16 RAISE$L4: 17 CONST None$18 RETURN$?try: a$except:$ for x in y: raise
Slots:$Keywords 0:$1 0 SETUP$1 MAKE_FUNCTION 1 (f) defaults 0$2 STORE_GLOBAL 21 (f)$3 CONST None$4 RETURN$$Code 1: f$\
    Parameters: 0$Slots: <hidden> <hidden>$Keywords 0:$2 0 TRY 15 (to L1)$3 1 LOAD_GLOBAL 22 (g)$2 CALL 0 keywords 0$\
    3 STORE_LOCAL 1 (<hidden>)$4 POP_TRY$4 5 LOAD_GLOBAL 23 (h)$6 CALL 0 keywords 0$7 POP$3 8 LOAD_LOCAL 1 (<hidden>)$\
    9 RETURN$2 10 POP_TRY$4 11 LOAD_GLOBAL 23 (h)$12 CALL 0 keywords 0$13 POP$2 14 JUMP 21 (to L2)$\
    L1: 15 STORE_LOCAL 0 (<hidden>)$4 16 LOAD_GLOBAL 23 (h)$17 CALL 0 keywords 0$18 POP$2 19 LOAD_LOCAL 0 (<hidden>)$\
    20 RAISE$1 L2: 21 CONST None$22 RETURN$?def f():$ try:$  return g()$ finally: h()
Slots:$Keywords 0:$1 0 SETUP$1 MAKE_FUNCTION 1 (f) defaults 0$2 STORE_GLOBAL 21 (f)$3 CONST None$4 RETURN$$Code 1: f$\
    Parameters: 1$Slots: x y <hidden> <hidden>$Keywords 0:$2 0 LOAD_LOCAL 0 (x)$1 ITER$L1: 2 NEXT 18 (to L4)$\
    3 STORE_LOCAL 1 (y)$3 4 TRY 13 (to L2)$4 5 CONST None$6 STORE_LOCAL 3 (<hidden>)$7 POP_TRY$8 POP$\
    9 LOAD_LOCAL 3 (<hidden>)$10 RETURN$3 11 POP_TRY$12 JUMP 17 (to L3)$L2: 13 STORE_LOCAL 2 (<hidden>)$\
    5 14 JUMP 17 (to L3)$3 15 LOAD_LOCAL 2 (<hidden>)$16 RAISE$2 L3: 17 JUMP 2 (to L1)$1 L4: 18 CONST None$19 RETURN$\
    ?def f(x):$ for y in x:$  try:$   return$  except: pass
Slots:$Keywords 0:$1 0 SETUP$1 MAKE_FUNCTION 1 (f) defaults 0$2 STORE_GLOBAL 21 (f)$3 CONST None$4 RETURN$$Code 1: f$\
    Parameters: 0$Slots: <hidden> <hidden> <hidden>$Keywords 0:$2 0 TRY 25 (to L3)$3 1 TRY 16 (to L1)$2 CONST 1$\
    3 STORE_LOCAL 2 (<hidden>)$4 POP_TRY$4 5 LOAD_GLOBAL 22 (a)$6 POP$3 7 POP_TRY$5 8 LOAD_GLOBAL 23 (b)$9 POP$\
    3 10 LOAD_LOCAL 2 (<hidden>)$11 RETURN$12 POP_TRY$4 13 LOAD_GLOBAL 22 (a)$14 POP$3 15 JUMP 21 (to L2)$\
    L1: 16 STORE_LOCAL 1 (<hidden>)$4 17 LOAD_GLOBAL 22 (a)$18 POP$3 19 LOAD_LOCAL 1 (<hidden>)$20 RAISE$\
    2 L2: 21 POP_TRY$5 22 LOAD_GLOBAL 23 (b)$23 POP$2 24 JUMP 30 (to L4)$L3: 25 STORE_LOCAL 0 (<hidden>)$\
    5 26 LOAD_GLOBAL 23 (b)$27 POP$2 28 LOAD_LOCAL 0 (<hidden>)$29 RAISE$1 L4: 30 CONST None$31 RETURN$\
    ?def f():$ try:$  try: return 1$  finally: a$ finally: b";

/// 6 rows: functions and classes.
const BODIES: &str =
    "Slots:$Keywords 0:$1 0 SETUP$1 CONST 1$2 MAKE_FUNCTION 1 (f) defaults 1$3 STORE_GLOBAL 21 (f)$\
    3 4 LOAD_GLOBAL 21 (f)$5 CONST 2$6 CALL 1 keywords 0$7 POP$1 8 CONST None$9 RETURN$$Code 1: f$Parameters: 2$\
    Slots: a b <hidden>$Keywords 0:$2 0 LOAD_LOCAL 0 (a)$1 STORE_LOCAL 2 (<hidden>)$2 LOAD_LOCAL 2 (<hidden>)$3 RETURN$\
    1 4 CONST None$5 RETURN$?def f(a, b=1):$ return a$f(2)
Slots:$Keywords 0:$1 0 SETUP$1 MAKE_FUNCTION 1 (f) defaults 0$2 STORE_GLOBAL 21 (f)$3 CONST None$4 RETURN$$Code 1: f$\
    Parameters: 0$Slots: y$Keywords 0:$3 0 CONST 1$1 STORE_GLOBAL 22 (x)$4 2 LOAD_GLOBAL 22 (x)$3 STORE_LOCAL 0 (y)$\
    5 4 DEL_LOCAL 0 (y)$1 5 CONST None$6 RETURN$?def f():$ global x$ x = 1$ y = x$ del y
Slots:$Keywords 0:$1 0 SETUP$1 CONST root 1 (object)$2 CLASS_BODY 1 (C)$3 STORE_GLOBAL 21 (C)$4 CONST None$5 RETURN$$\
    Code 1: C$Parameters: 0$Slots:$Keywords 0:$1 0 CONST None$1 RETURN$?class C: pass
Slots:$Keywords 0:$1 0 SETUP$1 LOAD_GLOBAL 25 (B)$2 CLASS_BODY 1 (C)$3 STORE_GLOBAL 24 (C)$4 CONST None$5 RETURN$$\
    Code 1: C$Parameters: 0$Slots:$Keywords 0:$2 0 CONST 1$1 STORE_NAME 21 ('x')$3 2 MAKE_FUNCTION 2 (m) defaults 0$\
    3 STORE_NAME 22 ('m')$4 4 LOAD_NAME 21 ('x')$5 STORE_NAME 23 ('y')$5 6 DEL_NAME 21 ('x')$1 7 CONST None$8 RETURN$$\
    Code 2: m$Parameters: 1$Slots: self <hidden>$Keywords 0:$3 0 LOAD_LOCAL 0 (self)$1 LOAD_ATTR 21 ('x')$\
    2 STORE_LOCAL 1 (<hidden>)$3 LOAD_LOCAL 1 (<hidden>)$4 RETURN$5 CONST None$6 RETURN$\
    ?class C(B):$ x = 1$ def m(self): return self.x$ y = x$ del x
Slots:$Keywords 0:$1 0 SETUP$1 MAKE_FUNCTION 1 (f) defaults 0$2 STORE_GLOBAL 21 (f)$6 3 MAKE_FUNCTION 4 (k) defaults 0$\
    4 STORE_GLOBAL 22 (k)$1 5 CONST None$6 RETURN$$Code 1: f$Parameters: 0$Slots: g h <hidden>$Keywords 0:$\
    2 0 TRY 7 (to L1)$3 1 MAKE_FUNCTION 2 (g) defaults 0$2 STORE_LOCAL 0 (g)$2 3 POP_TRY$\
    5 4 MAKE_FUNCTION 3 (h) defaults 0$5 STORE_LOCAL 1 (h)$2 6 JUMP 12 (to L2)$L1: 7 STORE_LOCAL 2 (<hidden>)$\
    5 8 MAKE_FUNCTION 3 (h) defaults 0$9 STORE_LOCAL 1 (h)$2 10 LOAD_LOCAL 2 (<hidden>)$11 RAISE$1 L2: 12 CONST None$\
    13 RETURN$$Code 2: g$Parameters: 0$Slots:$Keywords 0:$3 0 CONST None$1 RETURN$$Code 3: h$Parameters: 0$Slots:$\
    Keywords 0:$5 0 CONST None$1 RETURN$$Code 4: k$Parameters: 0$Slots:$Keywords 0:$6 0 CONST None$1 RETURN$\
    ?def f():$ try:$  def g(): pass$ finally:$  def h(): pass$def k(): pass
Slots:$Keywords 0:$Keywords 1: 'k'$1 0 SETUP$1 LOAD_GLOBAL 24 (g)$2 CONST 1$3 CALL 0 keywords 1 'k'$\
    4 MAKE_FUNCTION 1 (f) defaults 1$5 STORE_GLOBAL 23 (f)$2 6 LOAD_GLOBAL 23 (f)$7 CONST 1$8 CALL 0 keywords 1 'k'$\
    9 POP$1 10 CONST None$11 RETURN$$Code 1: f$Parameters: 1$Slots: a$Keywords 0:$Keywords 1: 'm'$\
    1 0 LOAD_GLOBAL 23 (f)$1 CONST 2$2 CALL 0 keywords 1 'm'$3 POP$4 CONST None$5 RETURN$?def f(a=g(k=1)): f(m=2)$\
    f(k=1)";

/// Two lines, with roots of each kind and a keyword list.
const WHOLE_TEXT: &str = "if x.k:$ __name__ = f(k=\"it's\")$";

const WHOLE: &str = "Roots:
     0 Cell <threads>
     1 Class object
     2 Class BaseException
     3 Class Exception
     4 Class StandardError
     5 Class ArithmeticError
     6 Class LookupError
     7 Class NameError
     8 Class AttributeError
     9 Class TypeError
    10 Class ValueError
    11 Class RuntimeError
    12 Class EOFError
    13 Class AssertionError
    14 Class MemoryError
    15 Class ZeroDivisionError
    16 Class OverflowError
    17 Class IndexError
    18 Class KeyError
    19 Class UnboundLocalError
    20 Class thread.error
    21 Str 'k'
    22 Str \"it's\"
    23 Str '__main__'
    24 Cell x
    25 Cell __name__
    26 Cell f

Code 0: <module>
  Parameters: 0
  Slots:
  Keywords 0:
  Keywords 1: 'k'
     1           0 SETUP
                 1 LOAD_GLOBAL    24 (x)
                 2 LOAD_ATTR      21 ('k')
                 3 JUMP_FALSE     9 (to L1)
     2           4 LOAD_GLOBAL    26 (f)
                 5 CONST          root 22 (\"it's\")
                 6 CALL           0 keywords 1 'k'
                 7 STORE_GLOBAL   25 (__name__)
     1           8 JUMP           9 (to L1)
         L1:     9 CONST          None
                10 RETURN
";

#[test]
fn expressions_have_code(rt: HostRuntime) -> Tested {
    assert_eq!(rt; check_rows(&rt, rt.alloc(), EXPRESSIONS, row_gives)?, 14);
    Ok(())
}

#[test]
fn simple_statements_have_code(rt: HostRuntime) -> Tested {
    assert_eq!(rt; check_rows(&rt, rt.alloc(), SIMPLE, row_gives)?, 10);
    Ok(())
}

#[test]
fn compound_statements_have_code(rt: HostRuntime) -> Tested {
    assert_eq!(rt; check_rows(&rt, rt.alloc(), COMPOUND, row_gives)?, 7);
    Ok(())
}

#[test]
fn ways_out_have_code(rt: HostRuntime) -> Tested {
    assert_eq!(rt; check_rows(&rt, rt.alloc(), LEAVING, row_gives)?, 6);
    Ok(())
}

#[test]
fn bodies_have_code(rt: HostRuntime) -> Tested {
    assert_eq!(rt; check_rows(&rt, rt.alloc(), BODIES, row_gives)?, 6);
    Ok(())
}

/// The listing of a text's program, if it has one.
fn listed(alloc: Global, row: &str) -> Result<Vec<u8>, NoMemory> {
    let text = text_of(alloc, row)?;
    let mut found = Vec::new(alloc);
    if let Some(program) = program_of(alloc, text.as_slice()) {
        let all = listing(alloc, program.program())?;
        found.extend_from_slice(all.as_slice())?;
    }
    Ok(found)
}

#[test]
fn a_program_has_a_listing(rt: HostRuntime) -> Tested {
    let found = listed(rt.alloc(), WHOLE_TEXT)?;
    assert!(rt; found.as_slice() == WHOLE.as_bytes());
    Ok(())
}
