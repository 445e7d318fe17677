//! Rows of the operator `%` with a string on the left.
use crate::tables::{Tested, table};

/// Formats.
const FORMATS: &[u8] = b"# the operator %
'%d-%s%%' 3 'x' (2 % => '3-x%'
'%s' 5 % => '5'
'%s' None % => 'None'
'%s' 'a' [1 % len => 5
'%d' -3 % => '-3'
'%d' True % => '1'
'%d' 'x' % => TypeError: wrong arguments
'%d' None % => TypeError: wrong arguments
'%s' (0 % => TypeError: wrong arguments
'%s' 1 2 (2 % => TypeError: wrong arguments
'%s %s' 1 (1 % => TypeError: wrong arguments
'a' 1 % => TypeError: wrong arguments
'a' (0 % => 'a'
'' (0 % => ''
'100%%' (0 % => '100%'
'%' (0 % => ValueError: unsupported format
'%q' 1 % => ValueError: unsupported format
'%5d' 1 % => ValueError: unsupported format
'%s' 1 (1 (1 % => '(1,)'
'%d %q' 'x' % => TypeError: wrong arguments
'%q %d' 'x' % => ValueError: unsupported format
'%s' 'a' s1048576 % len => 1048576
'%s%%' 'a' s1048576 % => MemoryError
'a%s' 'a' s1048576 % => MemoryError
5 'a' % => TypeError: unsupported operand
1 [1 1 % => TypeError: unsupported operand
'%s' None r100 % len => 204
'%s' None r101 % => RuntimeError: maximum recursion depth exceeded
";

#[test]
fn formats(rt: HostRuntime) -> Tested {
    table(&rt, rt.alloc(), FORMATS)?;
    Ok(())
}
