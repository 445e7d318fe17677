//! Rows of operators on every pair of unlike types.
use crate::tables::{Tested, table};

/// `==` of unlike types.
const UNLIKE_EQUAL: &[u8] = b"# == of every pair of unlike types: unequal, but for numbers by value
None 'a' == => False
None 1 (1 == => False
None 0 3 1 range == => False
True None == => False
True 2 == => False
True 'a' == => False
True 1 [1 == => False
True 1 (1 == => False
True 1 2 {1 == => False
True 0 3 1 range == => False
True @len == => False
2 None == => False
2 'a' == => False
2 1 [1 == => False
2 1 (1 == => False
2 0 3 1 range == => False
'a' 1 (1 == => False
1 [1 None == => False
1 [1 'a' == => False
1 [1 1 (1 == => False
1 [1 0 3 1 range == => False
1 2 {1 None == => False
1 2 {1 2 == => False
1 2 {1 'a' == => False
1 2 {1 1 [1 == => False
1 2 {1 1 (1 == => False
1 2 {1 0 3 1 range == => False
0 3 1 range 'a' == => False
0 3 1 range 1 (1 == => False
@len None == => False
@len 2 == => False
@len 'a' == => False
@len 1 [1 == => False
@len 1 (1 == => False
@len 1 2 {1 == => False
@len 0 3 1 range == => False
";

/// `<` of unlike types.
const UNLIKE_LESS: &[u8] = b"# < of every pair of unlike types: an order between numbers alone
None 'a' < => TypeError: unsupported operand
None 1 (1 < => TypeError: unsupported operand
None 0 3 1 range < => TypeError: unsupported operand
True None < => TypeError: unsupported operand
True 2 < => True
True 'a' < => TypeError: unsupported operand
True 1 [1 < => TypeError: unsupported operand
True 1 (1 < => TypeError: unsupported operand
True 1 2 {1 < => TypeError: unsupported operand
True 0 3 1 range < => TypeError: unsupported operand
True @len < => TypeError: unsupported operand
2 None < => TypeError: unsupported operand
2 'a' < => TypeError: unsupported operand
2 1 [1 < => TypeError: unsupported operand
2 1 (1 < => TypeError: unsupported operand
2 0 3 1 range < => TypeError: unsupported operand
'a' 1 (1 < => TypeError: unsupported operand
1 [1 None < => TypeError: unsupported operand
1 [1 'a' < => TypeError: unsupported operand
1 [1 1 (1 < => TypeError: unsupported operand
1 [1 0 3 1 range < => TypeError: unsupported operand
1 2 {1 None < => TypeError: unsupported operand
1 2 {1 2 < => TypeError: unsupported operand
1 2 {1 'a' < => TypeError: unsupported operand
1 2 {1 1 [1 < => TypeError: unsupported operand
1 2 {1 1 (1 < => TypeError: unsupported operand
1 2 {1 0 3 1 range < => TypeError: unsupported operand
0 3 1 range 'a' < => TypeError: unsupported operand
0 3 1 range 1 (1 < => TypeError: unsupported operand
@len None < => TypeError: unsupported operand
@len 2 < => TypeError: unsupported operand
@len 'a' < => TypeError: unsupported operand
@len 1 [1 < => TypeError: unsupported operand
@len 1 (1 < => TypeError: unsupported operand
@len 1 2 {1 < => TypeError: unsupported operand
@len 0 3 1 range < => TypeError: unsupported operand
";

/// `+` of unlike types.
const UNLIKE_PLUS: &[u8] = b"# + of every pair of unlike types
None 'a' + => TypeError: unsupported operand
None 1 (1 + => TypeError: unsupported operand
None 0 3 1 range + => TypeError: unsupported operand
True None + => TypeError: unsupported operand
True 2 + => 3
True 'a' + => TypeError: unsupported operand
True 1 [1 + => TypeError: unsupported operand
True 1 (1 + => TypeError: unsupported operand
True 1 2 {1 + => TypeError: unsupported operand
True 0 3 1 range + => TypeError: unsupported operand
True @len + => TypeError: unsupported operand
2 None + => TypeError: unsupported operand
2 'a' + => TypeError: unsupported operand
2 1 [1 + => TypeError: unsupported operand
2 1 (1 + => TypeError: unsupported operand
2 0 3 1 range + => TypeError: unsupported operand
'a' 1 (1 + => TypeError: unsupported operand
1 [1 None + => TypeError: unsupported operand
1 [1 'a' + => TypeError: unsupported operand
1 [1 1 (1 + => TypeError: unsupported operand
1 [1 0 3 1 range + => TypeError: unsupported operand
1 2 {1 None + => TypeError: unsupported operand
1 2 {1 2 + => TypeError: unsupported operand
1 2 {1 'a' + => TypeError: unsupported operand
1 2 {1 1 [1 + => TypeError: unsupported operand
1 2 {1 1 (1 + => TypeError: unsupported operand
1 2 {1 0 3 1 range + => TypeError: unsupported operand
0 3 1 range 'a' + => TypeError: unsupported operand
0 3 1 range 1 (1 + => TypeError: unsupported operand
@len None + => TypeError: unsupported operand
@len 2 + => TypeError: unsupported operand
@len 'a' + => TypeError: unsupported operand
@len 1 [1 + => TypeError: unsupported operand
@len 1 (1 + => TypeError: unsupported operand
@len 1 2 {1 + => TypeError: unsupported operand
@len 0 3 1 range + => TypeError: unsupported operand
";

/// `*` of unlike types.
const UNLIKE_TIMES: &[u8] = b"# * of every pair of unlike types
None True * => TypeError: unsupported operand
None 2 * => TypeError: unsupported operand
None 'a' * => TypeError: unsupported operand
None 1 [1 * => TypeError: unsupported operand
None 1 (1 * => TypeError: unsupported operand
None 1 2 {1 * => TypeError: unsupported operand
None 0 3 1 range * => TypeError: unsupported operand
None @len * => TypeError: unsupported operand
True None * => TypeError: unsupported operand
True 2 * => 2
True 'a' * => 'a'
True 1 [1 * => [1]
True 1 (1 * => (1,)
True 1 2 {1 * => TypeError: unsupported operand
True 0 3 1 range * => TypeError: unsupported operand
True @len * => TypeError: unsupported operand
2 None * => TypeError: unsupported operand
2 True * => 2
2 'a' * => 'aa'
2 1 [1 * => [1, 1]
2 1 (1 * => (1, 1)
2 1 2 {1 * => TypeError: unsupported operand
2 0 3 1 range * => TypeError: unsupported operand
2 @len * => TypeError: unsupported operand
'a' None * => TypeError: unsupported operand
'a' True * => 'a'
'a' 2 * => 'aa'
'a' 1 [1 * => TypeError: unsupported operand
'a' 1 (1 * => TypeError: unsupported operand
'a' 1 2 {1 * => TypeError: unsupported operand
'a' 0 3 1 range * => TypeError: unsupported operand
'a' @len * => TypeError: unsupported operand
1 [1 None * => TypeError: unsupported operand
1 [1 True * => [1]
1 [1 2 * => [1, 1]
1 [1 'a' * => TypeError: unsupported operand
1 [1 1 (1 * => TypeError: unsupported operand
1 [1 1 2 {1 * => TypeError: unsupported operand
1 [1 0 3 1 range * => TypeError: unsupported operand
1 [1 @len * => TypeError: unsupported operand
1 (1 None * => TypeError: unsupported operand
1 (1 True * => (1,)
1 (1 2 * => (1, 1)
1 (1 'a' * => TypeError: unsupported operand
1 (1 1 [1 * => TypeError: unsupported operand
1 (1 1 2 {1 * => TypeError: unsupported operand
1 (1 0 3 1 range * => TypeError: unsupported operand
1 (1 @len * => TypeError: unsupported operand
1 2 {1 None * => TypeError: unsupported operand
1 2 {1 True * => TypeError: unsupported operand
1 2 {1 2 * => TypeError: unsupported operand
1 2 {1 'a' * => TypeError: unsupported operand
1 2 {1 1 [1 * => TypeError: unsupported operand
1 2 {1 1 (1 * => TypeError: unsupported operand
1 2 {1 0 3 1 range * => TypeError: unsupported operand
1 2 {1 @len * => TypeError: unsupported operand
0 3 1 range None * => TypeError: unsupported operand
0 3 1 range True * => TypeError: unsupported operand
0 3 1 range 2 * => TypeError: unsupported operand
0 3 1 range 'a' * => TypeError: unsupported operand
0 3 1 range 1 [1 * => TypeError: unsupported operand
0 3 1 range 1 (1 * => TypeError: unsupported operand
0 3 1 range 1 2 {1 * => TypeError: unsupported operand
0 3 1 range @len * => TypeError: unsupported operand
@len None * => TypeError: unsupported operand
@len True * => TypeError: unsupported operand
@len 2 * => TypeError: unsupported operand
@len 'a' * => TypeError: unsupported operand
@len 1 [1 * => TypeError: unsupported operand
@len 1 (1 * => TypeError: unsupported operand
@len 1 2 {1 * => TypeError: unsupported operand
@len 0 3 1 range * => TypeError: unsupported operand
";

/// `in` of unlike types.
const UNLIKE_IN: &[u8] = b"# in of every pair of unlike types
None True in => TypeError: unsupported operand
None 2 in => TypeError: unsupported operand
None 'a' in => TypeError: unsupported operand
None 1 [1 in => False
None 1 (1 in => False
None 1 2 {1 in => False
None 0 3 1 range in => False
None @len in => TypeError: unsupported operand
True None in => TypeError: unsupported operand
True 2 in => TypeError: unsupported operand
True 'a' in => TypeError: unsupported operand
True 1 [1 in => True
True 1 (1 in => True
True 1 2 {1 in => True
True 0 3 1 range in => True
True @len in => TypeError: unsupported operand
2 None in => TypeError: unsupported operand
2 True in => TypeError: unsupported operand
2 'a' in => TypeError: unsupported operand
2 1 [1 in => False
2 1 (1 in => False
2 1 2 {1 in => False
2 0 3 1 range in => True
2 @len in => TypeError: unsupported operand
'a' None in => TypeError: unsupported operand
'a' True in => TypeError: unsupported operand
'a' 2 in => TypeError: unsupported operand
'a' 1 [1 in => False
'a' 1 (1 in => False
'a' 1 2 {1 in => False
'a' 0 3 1 range in => False
'a' @len in => TypeError: unsupported operand
1 [1 None in => TypeError: unsupported operand
1 [1 True in => TypeError: unsupported operand
1 [1 2 in => TypeError: unsupported operand
1 [1 'a' in => TypeError: unsupported operand
1 [1 1 (1 in => False
1 [1 1 2 {1 in => TypeError: unhashable
1 [1 0 3 1 range in => False
1 [1 @len in => TypeError: unsupported operand
1 (1 None in => TypeError: unsupported operand
1 (1 True in => TypeError: unsupported operand
1 (1 2 in => TypeError: unsupported operand
1 (1 'a' in => TypeError: unsupported operand
1 (1 1 [1 in => False
1 (1 1 2 {1 in => TypeError: unhashable
1 (1 0 3 1 range in => False
1 (1 @len in => TypeError: unsupported operand
1 2 {1 None in => TypeError: unsupported operand
1 2 {1 True in => TypeError: unsupported operand
1 2 {1 2 in => TypeError: unsupported operand
1 2 {1 'a' in => TypeError: unsupported operand
1 2 {1 1 [1 in => False
1 2 {1 1 (1 in => False
1 2 {1 0 3 1 range in => False
1 2 {1 @len in => TypeError: unsupported operand
0 3 1 range None in => TypeError: unsupported operand
0 3 1 range True in => TypeError: unsupported operand
0 3 1 range 2 in => TypeError: unsupported operand
0 3 1 range 'a' in => TypeError: unsupported operand
0 3 1 range 1 [1 in => False
0 3 1 range 1 (1 in => False
0 3 1 range 1 2 {1 in => TypeError: unhashable
0 3 1 range @len in => TypeError: unsupported operand
@len None in => TypeError: unsupported operand
@len True in => TypeError: unsupported operand
@len 2 in => TypeError: unsupported operand
@len 'a' in => TypeError: unsupported operand
@len 1 [1 in => False
@len 1 (1 in => False
@len 1 2 {1 in => False
@len 0 3 1 range in => False
";

#[test]
fn unlike_equal(rt: HostRuntime) -> Tested {
    table(&rt, rt.alloc(), UNLIKE_EQUAL)?;
    Ok(())
}

#[test]
fn unlike_less(rt: HostRuntime) -> Tested {
    table(&rt, rt.alloc(), UNLIKE_LESS)?;
    Ok(())
}

#[test]
fn unlike_plus(rt: HostRuntime) -> Tested {
    table(&rt, rt.alloc(), UNLIKE_PLUS)?;
    Ok(())
}

#[test]
fn unlike_times(rt: HostRuntime) -> Tested {
    table(&rt, rt.alloc(), UNLIKE_TIMES)?;
    Ok(())
}

#[test]
fn unlike_in(rt: HostRuntime) -> Tested {
    table(&rt, rt.alloc(), UNLIKE_IN)?;
    Ok(())
}
