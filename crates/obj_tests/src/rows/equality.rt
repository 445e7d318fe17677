//! Rows of equality.
use crate::tables::{Tested, table};

/// Equality of single values, and of values in one another.
const EQUALITY: &[u8] = b"# equality: numbers and truth values
1 1 == => True
1 2 == => False
1 True == => True
0 False == => True
2 True == => False
True False == => False
-9223372036854775808 -9223372036854775808 equal => True

# equality: unlike types, None, builtins
None None == => True
None 0 == => False
None False == => False
'1' 1 == => False
1 [1 1 (1 == => False
@len @len == => True
@len @range == => False
1 '1' != => True

# equality: strings, bytes above 127
'abc' 'abc' == => True
'abc' 'abd' == => False
'abc' 'ab' == => False
'' '' == => True
'\\xe9\\xff' '\\xe9\\xff' == => True
'\\xe9' 'e' == => False

# equality: lists and tuples
[0 [0 == => True
1 2 [2 1 2 [2 == => True
1 2 [2 2 1 [2 == => False
1 2 [2 1 2 3 [3 == => False
1 True [2 True 1 [2 == => True
1 'a' (2 1 'a' (2 == => True
1 'a' (2 1 'b' (2 == => False
(0 (0 equal => True

# equality: dictionaries, in any order
'a' 1 'b' 2 {2 'b' 2 'a' 1 {2 == => True
'a' 1 {1 'a' 2 {1 == => False
'a' 1 {1 'b' 1 {1 == => False
'a' 1 {1 'a' 1 'b' 2 {2 == => False
1 'x' {1 True 'x' {1 == => True
{0 {0 == => True

# equality: ranges by identity
0 3 1 range 0 3 1 range == => False
0 3 1 range dup == => True
";

/// Equality of values that are nested deep.
const EQUALITY_LEVELS: &[u8] = b"# equality: levels
None r100 None r100 == => True
None r101 None r101 == => RuntimeError: maximum recursion depth exceeded
1 r100 2 r100 == => False
7 t100 7 t100 == => True
7 t101 7 t101 == => RuntimeError: maximum recursion depth exceeded
1 None r101 [2 2 None r101 [2 == => False
1 [1 dup dup append dup == => RuntimeError: maximum recursion depth exceeded
None r101 1 == => False
";

#[test]
fn equality(rt: HostRuntime) -> Tested {
    table(&rt, rt.alloc(), EQUALITY)?;
    Ok(())
}

#[test]
fn equality_levels(rt: HostRuntime) -> Tested {
    table(&rt, rt.alloc(), EQUALITY_LEVELS)?;
    Ok(())
}
