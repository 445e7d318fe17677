//! Rows of the builtins that measure and make values.
use crate::tables::{Tested, table};

const LEN: &[u8] = b"'' :len1 => 0
'abc' :len1 => 3
'a\\x00b' :len1 => 3
[0 :len1 => 0
1 2 [2 :len1 => 2
1 (1 :len1 => 1
(0 :len1 => 0
{0 :len1 => 0
1 2 3 4 {2 :len1 => 2
0 10 3 range :len1 => 4
3 3 1 range :len1 => 0
0 9223372036854775807 1 range :len1 => 9223372036854775807
5 :len1 => TypeError: wrong arguments
None :len1 => TypeError: wrong arguments
True :len1 => TypeError: wrong arguments
[0 iter :len1 => TypeError: wrong arguments
:len0 => TypeError: wrong arguments
[0 [0 :len2 => TypeError: wrong arguments
";

const RANGE: &[u8] = b"3 :range1 => [0, 1, 2]
0 :range1 => []
-2 :range1 => []
True :range1 => [0]
1 4 :range2 => [1, 2, 3]
4 1 :range2 => []
0 10 3 :range3 => [0, 3, 6, 9]
10 0 -3 :range3 => [10, 7, 4, 1]
0 10 -1 :range3 => []
5 5 1 :range3 => []
0 3 0 :range3 => ValueError: step is zero
9223372036854775805 9223372036854775807 :range2 => [9223372036854775805, 9223372036854775806]
-9223372036854775808 9223372036854775807 9223372036854775807 :range3 => [-9223372036854775808, -1, 9223372036854775806]
:range0 => TypeError: wrong arguments
1 2 3 4 :range4 => TypeError: wrong arguments
'a' :range1 => TypeError: wrong arguments
1 None :range2 => TypeError: wrong arguments
0 'a' 0 :range3 => TypeError: wrong arguments
0 'a' 1 :range3 => TypeError: wrong arguments
-9223372036854775808 9223372036854775807 :range2 => MemoryError
";

const RANGE_AT_LIMITS: &[u8] = b"1048576 :range1 :len1 => 1048576
1048577 :range1 => MemoryError
";

const XRANGE: &[u8] = b"3 :xrange1 => <xrange>
3 :xrange1 :list1 => [0, 1, 2]
1 4 :xrange2 :list1 => [1, 2, 3]
10 0 -3 :xrange3 :list1 => [10, 7, 4, 1]
False True :xrange2 :list1 => [0]
0 3 0 :xrange3 => ValueError: step is zero
9223372036854775807 :xrange1 :len1 => 9223372036854775807
-1 9223372036854775807 :xrange2 => OverflowError: integer overflow
-9223372036854775808 9223372036854775807 :xrange2 => OverflowError: integer overflow
-9223372036854775808 9223372036854775807 3 :xrange3 :len1 => 6148914691236517205
9223372036854775807 -9223372036854775808 -1 :xrange3 => OverflowError: integer overflow
0 10 -9223372036854775808 :xrange3 :list1 => []
10 0 -9223372036854775808 :xrange3 :list1 => [10]
:xrange0 => TypeError: wrong arguments
None :xrange1 => TypeError: wrong arguments
1 2 3 4 :xrange4 => TypeError: wrong arguments
";

const STR: &[u8] = b":str0 => ''
'a' :str1 => 'a'
'a' dup :str1 is => True
5 :str1 => '5'
-9223372036854775808 :str1 => '-9223372036854775808'
None :str1 => 'None'
True :str1 => 'True'
'a' 1 [2 :str1 => \"['a', 1]\"
1 (1 :str1 => '(1,)'
'a' 1 {1 :str1 => \"{'a': 1}\"
0 3 1 range :str1 => '<xrange>'
1 2 :str2 => TypeError: wrong arguments
";

const REPR: &[u8] = b"'a' :repr1 => \"'a'\"
'it\\'s' :repr1 => '\"it\\'s\"'
5 :repr1 => '5'
None :repr1 => 'None'
'a' (1 :repr1 => \"('a',)\"
:repr0 => TypeError: wrong arguments
1 2 :repr2 => TypeError: wrong arguments
";

const REPR_AT_LIMITS: &[u8] = b"'a' s1048574 :repr1 :len1 => 1048576
'a' s1048575 :repr1 => MemoryError
";

const INT: &[u8] = b":int0 => 0
5 :int1 => 5
-5 :int1 => -5
True :int1 => 1
False :int1 => 0
'12' :int1 => 12
' -12 ' :int1 => -12
'+7' :int1 => 7
'007' :int1 => 7
'-0' :int1 => 0
'\\t\\n\\x0b\\x0c\\r 3 \\r\\n' :int1 => 3
'9223372036854775807' :int1 => 9223372036854775807
'-9223372036854775808' :int1 => -9223372036854775808
'9223372036854775808' :int1 => OverflowError: integer overflow
'-9223372036854775809' :int1 => OverflowError: integer overflow
'100000000000000000000000000000' :int1 => OverflowError: integer overflow
'000000000000000000000000000001' :int1 => 1
'1x' :int1 => ValueError: invalid literal for int() with base 10: '1x'
'' :int1 => ValueError: invalid literal for int() with base 10: ''
'  ' :int1 => ValueError: invalid literal for int() with base 10: '  '
'-' :int1 => ValueError: invalid literal for int() with base 10: '-'
'- 1' :int1 => ValueError: invalid literal for int() with base 10: '- 1'
'--1' :int1 => ValueError: invalid literal for int() with base 10: '--1'
'1 2' :int1 => ValueError: invalid literal for int() with base 10: '1 2'
'0x10' :int1 => ValueError: invalid literal for int() with base 10: '0x10'
'1.5' :int1 => ValueError: invalid literal for int() with base 10: '1.5'
'12L' :int1 => ValueError: invalid literal for int() with base 10: '12L'
'1\\x00' :int1 => ValueError: invalid literal for int() with base 10: '1\\x00'
None :int1 => TypeError: wrong arguments
[0 :int1 => TypeError: wrong arguments
'12' 10 :int2 => TypeError: wrong arguments
";

const BOOL: &[u8] = b":bool0 => False
0 :bool1 => False
1 :bool1 => True
'' :bool1 => False
'a' :bool1 => True
None :bool1 => False
[0 :bool1 => False
0 [1 :bool1 => True
{0 :bool1 => False
3 3 1 range :bool1 => False
1 2 :bool2 => TypeError: wrong arguments
";

const LIST_AND_TUPLE: &[u8] = b":list0 => []
'ab' :list1 => ['a', 'b']
1 2 (2 :list1 => [1, 2]
1 2 3 4 {2 :list1 => [1, 3]
0 3 1 range :list1 => [0, 1, 2]
1 2 [2 iter :list1 => [1, 2]
1 [1 dup :list1 is => False
5 :list1 => TypeError: not iterable
None :list1 => TypeError: not iterable
1 2 :list2 => TypeError: wrong arguments
:tuple0 => ()
'ab' :tuple1 => ('a', 'b')
1 2 [2 :tuple1 => (1, 2)
1 (1 dup :tuple1 is => True
5 :tuple1 => TypeError: not iterable
1 2 :tuple2 => TypeError: wrong arguments
";

const LIST_AND_TUPLE_AT_LIMITS: &[u8] = b"0 1048577 1 range :list1 => MemoryError
";

const DICT: &[u8] = b":dict0 => {}
[0 :dict1 => TypeError: wrong arguments
";

#[test]
fn len(rt: HostRuntime) -> Tested {
    table(&rt, rt.alloc(), LEN)?;
    Ok(())
}

#[test]
fn range(rt: HostRuntime) -> Tested {
    table(&rt, rt.alloc(), RANGE)?;
    Ok(())
}

#[test]
fn range_at_limits(rt: HostRuntime) -> Tested {
    table(&rt, rt.alloc(), RANGE_AT_LIMITS)?;
    Ok(())
}

#[test]
fn xrange(rt: HostRuntime) -> Tested {
    table(&rt, rt.alloc(), XRANGE)?;
    Ok(())
}

#[test]
fn str(rt: HostRuntime) -> Tested {
    table(&rt, rt.alloc(), STR)?;
    Ok(())
}

#[test]
fn repr(rt: HostRuntime) -> Tested {
    table(&rt, rt.alloc(), REPR)?;
    Ok(())
}

#[test]
fn repr_at_limits(rt: HostRuntime) -> Tested {
    table(&rt, rt.alloc(), REPR_AT_LIMITS)?;
    Ok(())
}

#[test]
fn int(rt: HostRuntime) -> Tested {
    table(&rt, rt.alloc(), INT)?;
    Ok(())
}

#[test]
fn bool(rt: HostRuntime) -> Tested {
    table(&rt, rt.alloc(), BOOL)?;
    Ok(())
}

#[test]
fn list_and_tuple(rt: HostRuntime) -> Tested {
    table(&rt, rt.alloc(), LIST_AND_TUPLE)?;
    Ok(())
}

#[test]
fn list_and_tuple_at_limits(rt: HostRuntime) -> Tested {
    table(&rt, rt.alloc(), LIST_AND_TUPLE_AT_LIMITS)?;
    Ok(())
}

#[test]
fn dict(rt: HostRuntime) -> Tested {
    table(&rt, rt.alloc(), DICT)?;
    Ok(())
}
