//! Rows of the texts of values.
use crate::tables::{Tested, table};

/// Texts of single values, and of values in one another.
const TEXTS: &[u8] = b"# texts within others: the outcome of a row is repr of its value
None => None
True => True
-9223372036854775808 => -9223372036854775808
[0 => []
(0 => ()
{0 => {}
1 (1 => (1,)
1 2 (2 => (1, 2)
1 'a' [2 => [1, 'a']
2 'b' 1 'a' {2 => {2: 'b', 1: 'a'}
1 [1 (1 [1 => [([1],)]
@len => <built-in len>
@str.join [1 => [<built-in str.join>]
0 3 1 range => <xrange>
[0 iter => <iterator>

# quotes, and bytes that aren't shown
'\\n\\t\\r\\\\' [1 => ['\\n\\t\\r\\\\']
'\\x00\\x1f\\x7f\\x80\\xff' => '\\x00\\x1f\\x7f\\x80\\xff'
'it\\'s' repr len => 6
'it\\'s' repr '\\x22' .find1 => 0
'\\'\\x22' repr len => 5
'\\x22' [1 repr len => 5

# a text by itself
'a' str => 'a'
'\\xff' str => '\\xff'
'a' [1 str len => 5
1 str => '1'
None str => 'None'
@len str => '<built-in len>'
1 (1 str => '(1,)'
";

/// Texts of values that are nested deep.
const TEXT_LEVELS: &[u8] = b"# texts: levels
None r100 repr len => 204
None r101 repr => RuntimeError: maximum recursion depth exceeded
None t100 repr len => 304
1 [1 dup dup append repr => RuntimeError: maximum recursion depth exceeded
None r101 str => RuntimeError: maximum recursion depth exceeded
";

#[test]
fn texts(rt: HostRuntime) -> Tested {
    table(&rt, rt.alloc(), TEXTS)?;
    Ok(())
}

#[test]
fn text_levels(rt: HostRuntime) -> Tested {
    table(&rt, rt.alloc(), TEXT_LEVELS)?;
    Ok(())
}
