//! Canonical texts, by hand from `docs/LANGUAGE.md`, "The canonical text". A row is a text, `?` and the canonical
//! text of its tree; `$` is a line end.
use crate::tables::check_rows;
use crate::text_rows::{text_of, tree_of};
use py_base::{Bytes, NoMemory};
use py_tree::module_text;
use std::alloc::Global;
use std::test;

type Tested = Result<(), test::Fail>;

/// The canonical text of the tree of a text, or None where it is too long or has no tree.
fn canonical(alloc: Global, text: &[u8]) -> Option<Bytes> {
    let module = tree_of(alloc, text)?;
    match module_text(alloc, &module) {
        Ok(text) => Some(text),
        Err(_) => None,
    }
}

/// Whether the first text's tree has the second as its canonical text.
fn gives(alloc: Global, text: &[u8], want: &[u8]) -> bool {
    match canonical(alloc, text) {
        Some(found) => found.as_slice() == want,
        None => false,
    }
}

/// Whether the row's first text has the second as its canonical text, and so has the second.
fn pair_holds(alloc: Global, first: &str, second: &str) -> Result<bool, NoMemory> {
    let text = text_of(alloc, first)?;
    let want = text_of(alloc, second)?;
    let given = gives(alloc, text.as_slice(), want.as_slice());
    let again = gives(alloc, want.as_slice(), want.as_slice());
    Ok(given && again)
}

const SIMPLE: &str = "x?x $
x = y=1?x = y = 1 $
x, y = y, x?( x , y ) = ( y , x ) $
x, = y?( x , ) = y $
(x, [y, z]) = w?( x , [ y , z ] ) = w $
x.y = x[0] = 1?x . y = x [ 0 ] = 1 $
x += 1, 2?x += ( 1 , 2 ) $
x.y **= 2; x //= 2; x >>= 2; x <<= 2?x . y **= 2 ; x //= 2 ; x >>= 2 ; x <<= 2 $
x -= 1; x *= 1; x /= 1; x %= 1; x &= 1; x |= 1; x ^= 1?x -= 1 ; x *= 1 ; x /= 1 ; x %= 1 ; x &= 1 ; x |= 1 ; x ^= 1 $
print?print $
print 1?print 1 $
print 1,?print 1 , $
print 1, 'a'?print 1 , 'a' $
print (1, 'a')?print ( 1 , 'a' ) $
print (1), 2,?print ( 1 ) , 2 , $
pass?pass $
break?break $
continue?continue $
return?return $
return 1, 2?return ( 1 , 2 ) $
raise?raise $
raise x?raise x $
raise x, y?raise x , y $
del x, y.z, w[0], (a, b)?del x , y . z , w [ 0 ] , ( a , b ) $
global x, y?global x , y $
assert x?assert x $
assert x, y?assert x , y $
import thread?import thread $
import thread as t, threading?import thread as t , threading $
from thread import start_new_thread, error as e?from thread import start_new_thread , error as e $
from threading import Thread, Lock?from threading import Thread , Lock $";

const COMPOUND: &str = "if x: y?if x : y $
if x: y$elif z: w$elif v: u$else: t?if x : y $elif z : w $elif v : u $else : t $
if x:$  y$  z$else:$  w?if x : $ y $ z $else : $ w $
while x: pass$else: pass?while x : pass $else : pass $
for x in y: pass$else: pass?for x in y : pass $else : pass $
for x, in y, z: pass?for ( x , ) in ( y , z ) : pass $
for x, (y, z) in w: pass?for ( x , ( y , z ) ) in w : pass $
for (x, y), in w: pass?for ( ( x , y ) , ) in w : pass $
try: pass$finally: pass?try : pass $finally : pass $
try: pass$except: pass?try : pass $except : pass $
try: x$except y: z$except y, z: w$except w as v: u$except: t$else: s$finally: r?try : x $except y : z $except y as z : w $except w as v : u $except : t $else : s $finally : r $
def f(): pass?def f ( ) : pass $
def f(a, b=1, c=2,): return a?def f ( a , b = 1 , c = 2 ) : return a $
class A: pass?class A : pass $
class A(): pass?class A : pass $
class A(B):$  def f(self):$    pass$  x = 1?class A ( B ) : $ def f ( self ) : $  pass $ x = 1 $";

const LAYOUTS: &str = "?
$ $# nothing$?
x;?x $
x; y ;z?x ; y ; z $
$$x?$$x $
# first$x # second$$y?$x $$y $
x; y$z; w?x ; y $z ; w $
if x: y; z?if x : y ; z $
if x: y; \\$z?if x : y ; \\$z $
if x: y; \\$\\$z; w$u?if x : y ; \\$\\$z ; w $u $
x; \\$y?x $y $
if x: \\$y; z$w?if x : $ y ; z $w $
if x \\$: y?if x : $ y $
if (x$): y?if ( x ) : $ y $
x = (1,$2); y?x = ( 1 , 2 ) $y $
x = (1,$2)$y?x = ( 1 , 2 ) $$y $
if x:$        y?if x : $ y $
if x:$  if y:$\tz$\tw$u?if x : $ if y : $  z $  w $u $
if x:$  if y: z$  w$else: u?if x : $ if y : z $ w $else : u $
if x: pass$$$else: pass?if x : pass $$$else : pass $
def f():$$  x$$  y$$z?def f ( ) : $$ x $$ y $$z $";

const EXPRESSIONS: &str = "x if y else z if w else v?x if y else z if w else v $
(x if y else z) if w else v?( x if y else z ) if w else v $
x or y or z and w and not not v?x or y or z and w and not not v $
x < y > z == a >= b <= c != d <> e?x < y > z == a >= b <= c != d != e $
x in f not in g is h is not i?x in f not in g is h is not i $
x | y ^ z & a << b >> c?x | y ^ z & a << b >> c $
x + y - z * a / b // c % d?x + y - z * a / b // c % d $
x - (y - z)?x - ( y - z ) $
+x - -y ** -~z ** 2?+ x - - y ** - ~ z ** 2 $
x.y[0](1)[a:b][:][1, 2]?x . y [ 0 ] ( 1 ) [ a : b ] [ : ] [ ( 1 , 2 ) ] $
x[a:][:b]?x [ a : ] [ : b ] $
f(a, b=1, c=2,)(a=1)()?f ( a , b = 1 , c = 2 ) ( a = 1 ) ( ) $
f(a,)(a, b)?f ( a ) ( a , b ) $
()?( ) $
(x)?( x ) $
((x))?( ( x ) ) $
(x,)?( x , ) $
(x, y,)?( x , y ) $
x,?( x , ) $
[]?[ ] $
[x]?[ x ] $
[x, y,]?[ x , y ] $
{}?{ } $
{x: y}?{ x : y } $
{x: y, z: w,}?{ x : y , z : w } $
'a' 'b' r'c'?'abc' $
''?'' $
\"it's\"?\"it's\" $
'say \"it\\'s\"'?'say \"it\\'s\"' $
'\\t\\n\\\\\\x00\\377'?'\\t\\n\\\\\\x00\\xff' $
0x1F + 017 + 0b11?31 + 15 + 3 $
9223372036854775807?9223372036854775807 $";

#[test]
fn simple_statements_have_canonical_texts(rt: HostRuntime) -> Tested {
    assert_eq!(rt; check_rows(&rt, rt.alloc(), SIMPLE, pair_holds)?, 31);
    Ok(())
}

#[test]
fn compound_statements_have_canonical_texts(rt: HostRuntime) -> Tested {
    assert_eq!(rt; check_rows(&rt, rt.alloc(), COMPOUND, pair_holds)?, 16);
    Ok(())
}

#[test]
fn each_statement_stands_on_its_line(rt: HostRuntime) -> Tested {
    assert_eq!(rt; check_rows(&rt, rt.alloc(), LAYOUTS, pair_holds)?, 21);
    Ok(())
}

#[test]
fn expressions_have_canonical_texts(rt: HostRuntime) -> Tested {
    assert_eq!(rt; check_rows(&rt, rt.alloc(), EXPRESSIONS, pair_holds)?, 32);
    Ok(())
}
