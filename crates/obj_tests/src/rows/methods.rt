//! Rows of the methods of strings.
use crate::tables::{Tested, table};

/// `join`.
const JOIN: &[u8] = b"# join
',' 'a' 'b' [2 .join1 => 'a,b'
',' [0 .join1 => ''
', ' 'a' [1 .join1 => 'a'
'' 'a' 'b' 'c' (3 .join1 => 'abc'
', ' 'a' '' 'b' [3 .join1 => 'a, , b'
'-' 'abc' .join1 => 'a-b-c'
'-' '' .join1 => ''
',' 'k' 1 'm' 2 {2 .join1 => 'k,m'
'+' 'ab' iter .join1 => 'a+b'
'+' 'abc' iter dup next drop .join1 => 'b+c'
',' 5 .join1 => TypeError: not iterable
',' None .join1 => TypeError: not iterable
',' 1 'a' [2 .join1 => TypeError: wrong arguments
',' 'a' None [2 .join1 => TypeError: wrong arguments
',' 0 3 1 range .join1 => TypeError: wrong arguments
',' .join0 => TypeError: wrong arguments
',' 'a' 'b' .join2 => TypeError: wrong arguments
";

/// `split`.
const SPLIT: &[u8] = b"# split at runs of blanks
' a  b\\t\\nc ' .split0 => ['a', 'b', 'c']
'' .split0 => []
' \\t\\n\\x0b\\x0c\\r' .split0 => []
'abc' .split0 => ['abc']
'a\\x0bb\\x0cc\\rd' .split0 => ['a', 'b', 'c', 'd']
'a\\x00b\\x1fc' .split0 => ['a\\x00b\\x1fc']
' a b ' None .split1 => ['a', 'b']

# split at a separator
'a,b,c' ',' .split1 => ['a', 'b', 'c']
',a,,b,' ',' .split1 => ['', 'a', '', 'b', '']
'' ',' .split1 => ['']
',' ',' .split1 => ['', '']
'abc' ',' .split1 => ['abc']
'aaa' 'aa' .split1 => ['', 'a']
'aaaa' 'aa' .split1 => ['', '', '']
'a, b, c' ', ' .split1 => ['a', 'b', 'c']
' a b ' ' ' .split1 => ['', 'a', 'b', '']
'ab' 'abc' .split1 => ['ab']
'abab' 'abab' .split1 => ['', '']
'a' '' .split1 => ValueError: empty separator
'' '' .split1 => ValueError: empty separator
'a' 5 .split1 => TypeError: wrong arguments
'a' ',' 1 .split2 => TypeError: wrong arguments
'a' '' 1 .split2 => TypeError: wrong arguments
";

/// `strip`, `upper`, `lower`, `startswith` and `endswith`.
const ENDS: &[u8] = b"# strip
' a b ' .strip0 => 'a b'
'\\t\\n\\x0b\\x0c\\r a \\r\\x0c\\x0b\\n\\t' .strip0 => 'a'
'   ' .strip0 => ''
'' .strip0 => ''
'a' .strip0 => 'a'
'\\x00 a\\x1f' .strip0 => '\\x00 a\\x1f'
' a ' 'a' .strip1 => TypeError: wrong arguments

# upper and lower
'aZ z{`09' .upper0 => 'AZ Z{`09'
'Az Z[@09' .lower0 => 'az z[@09'
'\\xe4\\xff' .upper0 => '\\xe4\\xff'
'\\xc4\\xdf' .lower0 => '\\xc4\\xdf'
'' .upper0 => ''
'a' 1 .upper1 => TypeError: wrong arguments
'A' 'b' .lower1 => TypeError: wrong arguments

# startswith and endswith
'abc' 'ab' .startswith1 => True
'abc' 'bc' .startswith1 => False
'abc' '' .startswith1 => True
'ab' 'abc' .startswith1 => False
'abc' 'abc' .startswith1 => True
'' 'a' .startswith1 => False
'abc' 'a' 'b' (2 .startswith1 => TypeError: wrong arguments
'abc' 'b' 1 .startswith2 => TypeError: wrong arguments
'abc' None .startswith1 => TypeError: wrong arguments
'abc' 'bc' .endswith1 => True
'abc' 'ab' .endswith1 => False
'abc' '' .endswith1 => True
'bc' 'abc' .endswith1 => False
'' '' .endswith1 => True
'abc' .endswith0 => TypeError: wrong arguments
'abc' 1 .endswith1 => TypeError: wrong arguments
";

/// `find`.
const FIND: &[u8] = b"# find
'abcabc' 'bc' .find1 => 1
'abcabc' 'a' .find1 => 0
'abcabc' 'cab' .find1 => 2
'abc' 'd' .find1 => -1
'abc' '' .find1 => 0
'' '' .find1 => 0
'' 'a' .find1 => -1
'aab' 'ab' .find1 => 1
'ab' 'abc' .find1 => -1
'a\\x00b' '\\x00' .find1 => 1
'a' s1048575 'ab' .find1 => -1
'abc' 99 .find1 => TypeError: wrong arguments
'abc' 'b' 0 .find2 => TypeError: wrong arguments
";

/// `replace`.
const REPLACE: &[u8] = b"# replace
'abcb' 'b' 'xy' .replace2 => 'axycxy'
'aaa' 'aa' 'b' .replace2 => 'ba'
'abc' 'b' '' .replace2 => 'ac'
'aabb' 'ab' '' .replace2 => 'ab'
'abc' 'd' 'x' .replace2 => 'abc'
'ab' '' '-' .replace2 => '-a-b-'
'' '' '-' .replace2 => '-'
'' 'a' 'b' .replace2 => ''
'ab' '' '' .replace2 => 'ab'
'abab' 'ab' 'abab' .replace2 => 'abababab'
'abc' 'b' .replace1 => TypeError: wrong arguments
'abc' 'b' 1 .replace2 => TypeError: wrong arguments
'abc' None 'x' .replace2 => TypeError: wrong arguments
'abc' 'b' 'x' 1 .replace3 => TypeError: wrong arguments
";

/// `join` at the limit of lengths.
const LONG_JOIN: &[u8] =
    b"# join at the limit: 1,048,576 bytes are a string, one more isn't, and a wrong item comes first
'' 'a' s1048576 [1 .join1 len => 1048576
'' 'a' s1048576 'b' [2 .join1 => MemoryError
',' 'a' s524288 'b' s524287 [2 .join1 len => 1048576
',' 'a' s524288 'b' s524288 [2 .join1 => MemoryError
'' 'a' s1048576 'b' 7 [3 .join1 => TypeError: wrong arguments
";

/// `split` at the limit of lengths.
const MANY_PIECES: &[u8] = b"# as many pieces as a list may have, and one more
',' s1048575 ',' .split1 len => 1048576
',' s1048576 ',' .split1 => MemoryError
";

/// `replace` at the limit of lengths.
const LONG_REPLACE: &[u8] = b"# replace at the limit
'a' s524288 'a' 'bb' .replace2 len => 1048576
'a' s524289 'a' 'bb' .replace2 => MemoryError
'a' s524287 '' 'b' .replace2 len => 1048575
'a' s524288 '' 'b' .replace2 => MemoryError
'a' s1048576 'b' 'cc' .replace2 len => 1048576
";

#[test]
fn join(rt: HostRuntime) -> Tested {
    table(&rt, rt.alloc(), JOIN)?;
    Ok(())
}

#[test]
fn split(rt: HostRuntime) -> Tested {
    table(&rt, rt.alloc(), SPLIT)?;
    Ok(())
}

#[test]
fn ends(rt: HostRuntime) -> Tested {
    table(&rt, rt.alloc(), ENDS)?;
    Ok(())
}

#[test]
fn find(rt: HostRuntime) -> Tested {
    table(&rt, rt.alloc(), FIND)?;
    Ok(())
}

#[test]
fn replace(rt: HostRuntime) -> Tested {
    table(&rt, rt.alloc(), REPLACE)?;
    Ok(())
}

#[test]
fn long_join(rt: HostRuntime) -> Tested {
    table(&rt, rt.alloc(), LONG_JOIN)?;
    Ok(())
}

#[test]
fn many_pieces(rt: HostRuntime) -> Tested {
    table(&rt, rt.alloc(), MANY_PIECES)?;
    Ok(())
}

#[test]
fn long_replace(rt: HostRuntime) -> Tested {
    table(&rt, rt.alloc(), LONG_REPLACE)?;
    Ok(())
}
