//! Rows of lists, tuples, dictionaries, iterators and nested values.
mod calls;
mod classes;
mod comparing;
mod equality;
mod formats;
mod functions;
mod methods;
mod numbers;
mod objects;
mod order;
mod sequences;
mod texts;
mod unlike;

use crate::tables::{Tested, table};

const ITEMS: &[u8] = b"1 2 3 [3 0 item => 1
1 2 3 [3 -1 item => 3
1 2 3 (3 -3 item => 1
1 2 3 [3 3 item => IndexError: index out of range
1 2 3 (3 -4 item => IndexError: index out of range
1 2 3 [3 1 9 slice => [2, 3]
1 2 3 [3 None -1 slice => [1, 2]
1 2 3 (3 1 None slice => (2, 3)
1 2 3 [3 2 1 slice => []
1 2 3 [3 dup None None slice swap is => False
";

const CHANGES: &[u8] = b"1 2 3 [3 dup -2 pop (2 => ([1, 3], 2)
1 2 3 [3 3 pop => IndexError: index out of range
[0 -1 pop => IndexError: pop from empty list
1 2 3 [3 dup reverse => [3, 2, 1]
1 2 3 4 [4 dup reverse => [4, 3, 2, 1]
1 2 3 [3 dup -3 None setitem => [None, 2, 3]
1 2 3 [3 3 None setitem => IndexError: index out of range
1 2 3 [3 dup 0 delitem => [2, 3]
1 2 3 [3 -4 delitem => IndexError: index out of range
1 2 3 [3 dup -1 None insert => [1, 2, None, 3]
1 2 3 [3 dup 9 None insert => [1, 2, 3, None]
1 2 3 [3 dup -9 None insert => [None, 1, 2, 3]
1 [1 dup dup append dup 1 item is => True
";

const LIMITS: &[u8] = b"0 x1048575 dup 1 append len => 1048576
0 x1048576 1 append => MemoryError
0 x1048576 dup 0 1 setitem len => 1048576
0 1048576 1 range gather len => 1048576
0 1048577 1 range gather => MemoryError
'a' s1048576 len => 1048576
";

const KEYS: &[u8] = b"{0 dup 1 'a' set True get => 'a'
{0 dup 1 2 set dup True 3 set => {1: 3}
{0 0 [1 1 set => TypeError: unhashable
{0 1 [1 get => TypeError: unhashable
{0 1 del => KeyError: 1
{0 'a' del => KeyError: 'a'
{0 1 get => none
'ab' 1 'ac' 2 'ab' 3 {3 'ab' get => 3
'ab' 1 'ac' 2 'ab' 3 {3 'ac' get => 2
'ab' 1 'ac' 2 'ab' 3 {3 'a' get => none
'ab' 1 'ac' 2 'ab' 3 {3 'abc' get => none
'ab' 1 'ac' 2 'ab' 3 {3 len => 2
0 0 1 -1 2 -2 3 -3 4 -4 5 -5 {6 dup 1 del drop dup 3 del drop dup 5 del drop => {0: 0, 2: -2, 4: -4}
1 2 3 4 {2 keys => [1, 3]
1 2 3 4 {2 values => [2, 4]
1 2 3 4 {2 items => [(1, 2), (3, 4)]
1 2 3 4 {2 dup 1 del (2 => ({3: 4}, 2)
";

const ITERATORS: &[u8] = b"1 2 3 [3 iter gather => [1, 2, 3]
1 2 3 (3 iter gather => [1, 2, 3]
1 2 3 4 {2 iter gather => [1, 3]
1 11 3 range iter gather => [1, 4, 7, 10]
'ab' iter gather => ['a', 'b']
1 [1 iter dup next drop next => end
1 2 [2 iter dup iter is => True
'abc' iter dup next drop gather => ['b', 'c']
'abc' iter dup gather drop next => end
1 2 [2 dup iter dup next drop swap 3 append gather => [2, 3]
{0 dup iter swap 1 2 set next => RuntimeError: dictionary changed size during iteration
{0 dup iter swap 1 2 set gather => RuntimeError: dictionary changed size during iteration
5 iter => TypeError: not iterable
";

const GATHERED: &[u8] = b"1 2 [2 gather => [1, 2]
1 2 (2 gather => [1, 2]
1 2 3 4 {2 gather => [1, 3]
'ab' gather => ['a', 'b']
'' gather => []
5 0 -2 range gather => [5, 3, 1]
3 3 1 range gather => []
5 gather => TypeError: not iterable
None gather => TypeError: not iterable
@len gather => TypeError: not iterable
";

const NESTED: &[u8] = b"None r100 None r100 equal => True
None r101 None r101 equal => RuntimeError: maximum recursion depth exceeded
None r101 repr => RuntimeError: maximum recursion depth exceeded
1 [1 dup dup append => RuntimeError: maximum recursion depth exceeded
1 2 [2 1 3 [2 order => 'Less'
0 truth => False
'' truth => False
'a' truth => True
1 (1 => (1,)
'it\\'s' => \"it's\"
'\\x00\\n' => '\\x00\\n'
'a' repr => \"'a'\"
'a' str => 'a'
";

#[test]
fn items(rt: HostRuntime) -> Tested {
    table(&rt, rt.alloc(), ITEMS)?;
    Ok(())
}

#[test]
fn changes(rt: HostRuntime) -> Tested {
    table(&rt, rt.alloc(), CHANGES)?;
    Ok(())
}

#[test]
fn limits(rt: HostRuntime) -> Tested {
    table(&rt, rt.alloc(), LIMITS)?;
    Ok(())
}

#[test]
fn keys(rt: HostRuntime) -> Tested {
    table(&rt, rt.alloc(), KEYS)?;
    Ok(())
}

#[test]
fn iterators(rt: HostRuntime) -> Tested {
    table(&rt, rt.alloc(), ITERATORS)?;
    Ok(())
}

#[test]
fn gathered(rt: HostRuntime) -> Tested {
    table(&rt, rt.alloc(), GATHERED)?;
    Ok(())
}

#[test]
fn nested(rt: HostRuntime) -> Tested {
    table(&rt, rt.alloc(), NESTED)?;
    Ok(())
}
