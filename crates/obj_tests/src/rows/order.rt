//! Rows of order and of truth.
use crate::tables::{Tested, table};

/// Orders, and what has none.
const ORDER: &[u8] = b"# order: numbers, and truth values
1 2 order => 'Less'
2 2 order => 'Equal'
3 -3 order => 'Greater'
True 0 order => 'Greater'
1 True order => 'Equal'
9223372036854775807 -9223372036854775808 order => 'Greater'

# order: strings by their bytes
'a' 'b' order => 'Less'
'ab' 'a' order => 'Greater'
'Z' 'a' order => 'Less'
'z' '\\xe9' order => 'Less'
'' 'a' order => 'Less'
'ab' 'ab' order => 'Equal'

# order: lists and tuples by the first unequal items
1 2 [2 1 3 [2 order => 'Less'
2 [1 1 9 9 [3 order => 'Greater'
1 [1 1 0 [2 order => 'Less'
[0 [0 order => 'Equal'
None 1 [2 None 2 [2 order => 'Less'
None (1 None (1 order => 'Equal'
None (1 None (1 < => False
'a' 1 (2 'a' True (2 order => 'Equal'
1 None [2 2 1 [2 order => 'Less'

# order: what has none
None None order => TypeError: unsupported operand
None [1 1 [1 order => TypeError: unsupported operand
1 'a' order => TypeError: unsupported operand
1 [1 1 (1 order => TypeError: unsupported operand
{0 {0 order => TypeError: unsupported operand
@len @len order => TypeError: unsupported operand
1 1 [1 order => TypeError: unsupported operand
";

/// Order of values that are nested deep.
const ORDER_LEVELS: &[u8] = b"# order: levels
1 r100 2 r100 order => 'Less'
1 r101 2 r101 order => RuntimeError: maximum recursion depth exceeded
";

/// Truth.
const TRUTH: &[u8] = b"# truth
None truth => False
True truth => True
False truth => False
0 truth => False
-1 truth => True
'' truth => False
'0' truth => True
[0 truth => False
0 [1 truth => True
(0 truth => False
{0 truth => False
1 1 {1 truth => True
@len truth => True
0 0 1 range truth => False
0 3 1 range truth => True
3 0 1 range truth => False
3 0 -1 range truth => True
0 [1 iter truth => True
";

#[test]
fn order(rt: HostRuntime) -> Tested {
    table(&rt, rt.alloc(), ORDER)?;
    Ok(())
}

#[test]
fn order_levels(rt: HostRuntime) -> Tested {
    table(&rt, rt.alloc(), ORDER_LEVELS)?;
    Ok(())
}

#[test]
fn truth(rt: HostRuntime) -> Tested {
    table(&rt, rt.alloc(), TRUTH)?;
    Ok(())
}
