//! Scopes and refused names, by hand from `docs/LANGUAGE.md`, "Names and their scopes". A row is an answer, `?` and a
//! text; `$` is a line end. The scopes of a module's bodies are written one after another, each as its local names, a
//! bar and the others.
use crate::tables::check_rows;
use crate::text_rows::{text_of, tree_of};
use py_base::{Bytes, NoMemory, Refusal};
use py_names::{NameFault, Scope, Scopes, resolve};
use std::alloc::Global;
use std::test;

type Tested = Result<(), test::Fail>;

/// Adds names with a space before each.
fn push_names(text: &mut Vec<u8>, names: &[Bytes]) -> Result<(), NoMemory> {
    for name in names {
        text.push(b' ')?;
        text.extend_from_slice(name.as_slice())?;
    }
    Ok(())
}

/// Adds a scope.
fn push_scope(text: &mut Vec<u8>, scope: &Scope) -> Result<(), NoMemory> {
    push_names(text, scope.locals.as_slice())?;
    text.extend_from_slice(b" |".as_slice())?;
    push_names(text, scope.globals.as_slice())?;
    text.extend_from_slice(b";".as_slice())
}

fn shown_scopes(alloc: Global, scopes: &Scopes) -> Result<Vec<u8>, NoMemory> {
    let mut text = Vec::new(alloc);
    for scope in scopes.as_slice() {
        push_scope(&mut text, scope)?;
    }
    Ok(text)
}

fn shown_refusal(alloc: Global, name: &[u8], line: u32) -> Result<Vec<u8>, NoMemory> {
    let mut text = Vec::from_slice(alloc, name)?;
    let digits = format!(in alloc; " {line}")?;
    text.extend_from_slice(digits.as_bytes())?;
    Ok(text)
}

/// What is answered, as a row writes it.
fn shown(alloc: Global, answer: &Result<Scopes, NameFault>) -> Result<Vec<u8>, NoMemory> {
    match answer {
        Ok(scopes) => shown_scopes(alloc, scopes),
        Err(NameFault::Refused(Refusal::Misplaced { line })) => {
            shown_refusal(alloc, b"Misplaced", *line)
        }
        Err(NameFault::Refused(Refusal::Doubled { line })) => shown_refusal(
            alloc, b"Doubled", *line,
        ),
        Err(NameFault::Refused(Refusal::Closure { line })) => shown_refusal(
            alloc, b"Closure", *line,
        ),
        Err(_) => shown_refusal(alloc, b"other", 0),
    }
}

/// Whether a text is answered so.
fn gives(alloc: Global, text: &[u8], want: &[u8]) -> Result<bool, NoMemory> {
    let Some(tree) = tree_of(alloc, text) else {
        return Ok(false);
    };
    let answer = resolve(alloc, &tree);
    let found = shown(alloc, &answer)?;
    Ok(found.as_slice() == want)
}

fn row_gives(alloc: Global, want: &str, row: &str) -> Result<bool, NoMemory> {
    let text = text_of(alloc, row)?;
    gives(alloc, text.as_slice(), want.as_bytes())
}

/// 15 rows.
const SCOPES: &str = " | x y;?x = 1$print y
 | f; a b c | d;?def f(a, b):$ c = a$ return d
 | f; | x;?def f():$ global x$ x = 1
 | C B; y | z;?class C(B):$ y = z
 | C; x m |; self | x;?class C:$ x = 1$ def m(self):$  return x
 | t L;?import thread as t$from threading import Lock as L
 | f x; a |;?def f(a=x): pass
 | f g h; a b | c; | d;?def f(a):$ b = c$def g():$ d$h
 | f; e x i j l g k | z E w y v u; |; |;?def f():$ try: z$ except E, e: x, w[y] = v$ for i, [j] in u: pass$ else: del l$ def g(): pass$ class k: pass
 | x y z;?x if y else z
 | a b c d;?a[b:c].d(d, e=1)
 | f; a n | b;?def f(a):$ n += b
 | x;?x = None
 | f; a | b True;?def f(a):$ global b$ b.c = a[True]
 | f; g |; h | x y;?def f():$ def g(h):$  global x$  x = y";

/// 14 rows.
const ALLOWED: &str = " | f; |;?def f(): return
 | a;?while a: break
 | a b c;?while a:$ try: b$ finally:$  while c: continue
 | a;?while a:$ try: continue$ finally: pass
 | a b;?while a:$ try: pass$ finally: break$else: b
 | a b;?try: a$except:$ for b in a: raise
 | f;?f(None, None)
 | f; x |;?def f(x=None): pass
 | a;?while a:$ try:$  pass$ finally:$  for a in a: continue
 | f; x g |; y |;?def f(x):$ def g(y=x): pass
 | f; x g |; | x;?def f():$ x = 1$ def g():$  global x$  x
 | f; g | x; | x;?def f():$ global x$ x = 1$ def g():$  return x
 | f; x g |; x |;?def f(x):$ def g():$  x = 1
 | f; C |; x m |; self | x;?def f():$ class C:$  x = 1$  def m(self):$   return x";

/// 22 rows.
const MISPLACED: &str = "Misplaced 1?return 1
Misplaced 2?class C:$ return
Misplaced 1?break
Misplaced 2?while a: pass$else: break
Misplaced 3?while a:$ def f():$  continue
Misplaced 5?while a:$ try:$  pass$ finally:$  continue
Misplaced 6?for a in b:$ try:$  pass$ finally:$  if c:$   continue
Misplaced 2?def f(a):$ global a
Misplaced 1?raise
Misplaced 4?try:$ pass$except: pass$else: raise
Misplaced 4?try: pass$except:$ def f():$  raise
Misplaced 1?None = 1
Misplaced 2?$for a, (b, None) in c: pass
Misplaced 1?def f(None): pass
Misplaced 1?def None(): pass
Misplaced 2?$class None: pass
Misplaced 1?f(None=1)
Misplaced 1?a.None
Misplaced 1?import thread as None
Misplaced 3?try:$ pass$except E, None: pass
Misplaced 1?del None
Misplaced 1?None += 1";

/// 14 rows.
const OTHERS: &str = "Doubled 1?def f(a, a): pass
Doubled 2?$f(a=1, b=2, a=3)
Doubled 1?def f(a, b=1, a=2): pass
Doubled 1?f(g(a=1, a=2))
Closure 4?def f():$ x = 1$ def g():$  return x
Closure 3?def f(x):$ class C:$  y = x
Closure 4?def f(x):$ def g():$  def h():$   x
Closure 3?def f():$ def g():$  f = g
Misplaced 1?return 1$def f(a, a): pass
Doubled 1?def f(a, a): return$break
Closure 3?def f(x):$ def g():$  x; break
Misplaced 3?def f(x):$ def g():$  break; x
Doubled 2?def f(x):$ def g(a, a=1): x
Closure 3?def f(x):$ def g():$  h(a=x, a=1)";

/// Each body's names, local ones and others, in the order of first mention.
#[test]
fn names_have_scopes(rt: HostRuntime) -> Tested {
    assert_eq!(rt; check_rows(&rt, rt.alloc(), SCOPES, row_gives)?, 15);
    Ok(())
}

#[test]
fn what_may_stand_is_taken(rt: HostRuntime) -> Tested {
    assert_eq!(rt; check_rows(&rt, rt.alloc(), ALLOWED, row_gives)?, 14);
    Ok(())
}

#[test]
fn what_is_misplaced_is_refused(rt: HostRuntime) -> Tested {
    assert_eq!(rt; check_rows(&rt, rt.alloc(), MISPLACED, row_gives)?, 22);
    Ok(())
}

/// Doubled names, closures, and the earliest of several places.
#[test]
fn the_earliest_place_is_refused(rt: HostRuntime) -> Tested {
    assert_eq!(rt; check_rows(&rt, rt.alloc(), OTHERS, row_gives)?, 14);
    Ok(())
}
