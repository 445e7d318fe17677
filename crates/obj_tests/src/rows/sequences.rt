//! Rows of operators on lists, tuples and strings.
use crate::tables::{Tested, table};

/// Sequences joined and repeated.
const JOINED: &[u8] = b"# sequences joined and repeated
'ab' 'c' + => 'abc'
1 2 [2 3 [1 + => [1, 2, 3]
1 (1 2 (1 + => (1, 2)
[0 [0 + => []
'ab' 3 * => 'ababab'
3 'ab' * => 'ababab'
1 [1 2 * => [1, 1]
2 1 (1 * => (1, 1)
1 [1 -5 * => []
'a' -9223372036854775808 * => ''
1 [1 True * => [1]
1 [1 False * => []
'' 9223372036854775807 * => ''
[0 9223372036854775807 * => []
1 [1 dup + => [1, 1]
1 [1 dup 1 * is => False
'ab' 9223372036854775807 * => MemoryError
";

/// Sequences joined and repeated, at the limit of lengths.
const LONG_JOINED: &[u8] = b"# sequences joined and repeated: at the limit
0 x1048575 0 [1 + len => 1048576
0 x1048576 0 [1 + => MemoryError
0 x1048576 [0 + len => 1048576
0 [1 1048576 * len => 1048576
0 [1 1048577 * => MemoryError
'a' s1048576 len => 1048576
'a' 1048576 * len => 1048576
'a' 1048577 * => MemoryError
'a' s1048575 'b' + len => 1048576
'a' s1048576 'b' + => MemoryError
0 x1048576 1 * len => 1048576
";

/// Operators in place.
const IN_PLACE: &[u8] = b"# in place
1 [1 dup 2 [1 += is => True
1 [1 2 [1 += => [1, 2]
1 2 [2 dup += => [1, 2, 1, 2]
[0 'ab' += => ['a', 'b']
[0 1 2 (2 += => [1, 2]
[0 1 2 3 4 {2 += => [1, 3]
[0 0 6 2 range += => [0, 2, 4]
[0 5 += => TypeError: not iterable
[0 None += => TypeError: not iterable
1 (1 2 (1 += => (1, 2)
1 (1 2 [1 += => TypeError: unsupported operand
'a' 'b' += => 'ab'
1 2 += => 3
1 [1 dup 2 *= is => False
1 [1 2 *= => [1, 1]
7 2 //= => 3
2 3 **= => 8
";

/// Operators in place, at the limit of lengths.
const LONG_IN_PLACE: &[u8] = b"# in place: at the limit
0 x1048576 [0 += len => 1048576
0 x1048575 1 [1 += len => 1048576
0 x1048576 1 [1 += => MemoryError
0 x1048575 dup 1 2 [2 += len => MemoryError
";

#[test]
fn joined(rt: HostRuntime) -> Tested {
    table(&rt, rt.alloc(), JOINED)?;
    Ok(())
}

#[test]
fn long_joined(rt: HostRuntime) -> Tested {
    table(&rt, rt.alloc(), LONG_JOINED)?;
    Ok(())
}

#[test]
fn in_place(rt: HostRuntime) -> Tested {
    table(&rt, rt.alloc(), IN_PLACE)?;
    Ok(())
}

#[test]
fn long_in_place(rt: HostRuntime) -> Tested {
    table(&rt, rt.alloc(), LONG_IN_PLACE)?;
    Ok(())
}
