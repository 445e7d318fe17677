//! Rows of comparing operators.
use crate::tables::{Tested, table};

/// Comparisons.
const COMPARED: &[u8] = b"# comparing
1 True == => True
1 True is => False
True True is => True
1 1 is => True
None None is => True
1 [1 1 [1 == => True
1 [1 1 [1 is => False
1 [1 dup is => True
1 [1 1 (1 == => False
1 [1 1 (1 != => True
'a' 'a' == => True
1 2 < => True
2 2 < => False
2 2 <= => True
2 2 >= => True
3 2 > => True
'a' 'b' < => True
'a' 'ab' < => True
'\\xff' 'a' > => True
1 2 [2 1 3 [2 < => True
None 1 [2 None 2 [2 < => True
None (1 None (1 < => False
False 1 < => True
@len @len == => True
@len @repr == => False
";

/// `in` and `not in`.
const CONTAINED: &[u8] = b"# in and not in
1 1 2 [2 in => True
True 1 2 [2 in => True
3 1 2 (2 in => False
3 1 2 (2 not_in => True
'b' 'abc' in => True
'ca' 'abc' in => False
'' '' in => True
'abcd' 'abc' in => False
1 'abc' in => TypeError: unsupported operand
None 'abc' in => TypeError: unsupported operand
1 1 2 {1 in => True
2 1 2 {1 in => False
1 [1 1 2 {1 in => TypeError: unhashable
7 1 10 3 range in => True
10 1 10 3 range in => False
3 5 0 -2 range in => True
2 5 0 -2 range in => False
True 0 3 1 range in => True
'a' 0 3 1 range in => False
1 5 in => TypeError: unsupported operand
1 5 not_in => TypeError: unsupported operand
1 None in => TypeError: unsupported operand
1 @len in => TypeError: unsupported operand
1 'a' [1 dup iter in => TypeError: unsupported operand
";

#[test]
fn compared(rt: HostRuntime) -> Tested {
    table(&rt, rt.alloc(), COMPARED)?;
    Ok(())
}

#[test]
fn contained(rt: HostRuntime) -> Tested {
    table(&rt, rt.alloc(), CONTAINED)?;
    Ok(())
}
