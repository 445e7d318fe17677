//! Rows of the other builtin functions.
use crate::tables::{Tested, table};

const ISINSTANCE: &[u8] = b"5 @int :isinstance2 => True
True @int :isinstance2 => True
True @bool :isinstance2 => True
5 @bool :isinstance2 => False
'a' @str :isinstance2 => True
'a' @int :isinstance2 => False
[0 @list :isinstance2 => True
(0 @list :isinstance2 => False
(0 @tuple :isinstance2 => True
{0 @dict :isinstance2 => True
None @int :isinstance2 => False
5 @str @int (2 :isinstance2 => True
5 @str @list (2 :isinstance2 => False
5 (0 :isinstance2 => False
5 @int 3 (2 :isinstance2 => TypeError: wrong arguments
5 @str (1 (1 :isinstance2 => TypeError: wrong arguments
5 5 :isinstance2 => TypeError: wrong arguments
5 @len :isinstance2 => TypeError: wrong arguments
5 @int [1 :isinstance2 => TypeError: wrong arguments
5 :isinstance1 => TypeError: wrong arguments
5 @int @int :isinstance3 => TypeError: wrong arguments
@object 5 swap :isinstance2 => True
@KeyError instance @LookupError :isinstance2 => True
@LookupError instance @KeyError :isinstance2 => False
@KeyError instance @KeyError :isinstance2 => True
@KeyError @object :isinstance2 => True
@KeyError @KeyError :isinstance2 => False
@KeyError instance @int @Exception (2 :isinstance2 => True
";

const ORD_AND_CHR: &[u8] = b"'a' :ord1 => 97
'\\xff' :ord1 => 255
'\\x00' :ord1 => 0
'' :ord1 => TypeError: wrong arguments
'ab' :ord1 => TypeError: wrong arguments
97 :ord1 => TypeError: wrong arguments
:ord0 => TypeError: wrong arguments
97 :chr1 => 'a'
0 :chr1 => '\\x00'
255 :chr1 => '\\xff'
True :chr1 => '\\x01'
256 :chr1 => ValueError: chr() arg not in range(256)
-1 :chr1 => ValueError: chr() arg not in range(256)
'a' :chr1 => TypeError: wrong arguments
1 2 :chr2 => TypeError: wrong arguments
";

const ABS: &[u8] = b"-5 :abs1 => 5
5 :abs1 => 5
0 :abs1 => 0
True :abs1 => 1
-9223372036854775807 :abs1 => 9223372036854775807
-9223372036854775808 :abs1 => OverflowError: integer overflow
'a' :abs1 => TypeError: wrong arguments
:abs0 => TypeError: wrong arguments
1 2 :abs2 => TypeError: wrong arguments
";

const MIN_AND_MAX: &[u8] = b"3 1 2 :min3 => 1
3 1 2 :max3 => 3
3 1 2 [3 :min1 => 1
3 1 2 (3 :max1 => 3
'bca' :min1 => 'a'
'b' 'a' :max2 => 'b'
1 True :min2 => 1
True 1 :min2 => True
1 True :max2 => 1
0 10 3 range :max1 => 9
2 0 1 0 {2 :min1 => 1
1 [1 1 2 [2 :max2 => [1, 2]
[0 :min1 => ValueError: empty sequence
'' :max1 => ValueError: empty sequence
5 :min1 => TypeError: not iterable
None :max1 => TypeError: not iterable
:min0 => TypeError: wrong arguments
:max0 => TypeError: wrong arguments
1 'a' :min2 => TypeError: unsupported operand
None None :max2 => TypeError: unsupported operand
None [1 :min1 => None
";

const SUM: &[u8] = b"1 2 3 [3 :sum1 => 6
[0 :sum1 => 0
True True (2 :sum1 => 2
0 5 1 range :sum1 => 10
9223372036854775807 1 -1 [3 :sum1 => OverflowError: integer overflow
9223372036854775807 -1 1 [3 :sum1 => 9223372036854775807
'a' [1 :sum1 => TypeError: unsupported operand
'ab' :sum1 => TypeError: unsupported operand
1 [1 [1 :sum1 => TypeError: unsupported operand
5 :sum1 => TypeError: not iterable
[0 1 :sum2 => TypeError: wrong arguments
:sum0 => TypeError: wrong arguments
";

const SORTED: &[u8] = b"3 1 2 [3 :sorted1 => [1, 2, 3]
'bca' :sorted1 => ['a', 'b', 'c']
'b' 'B' '' 'ba' [4 :sorted1 => ['', 'B', 'b', 'ba']
True 0 1 False [4 :sorted1 => [0, False, True, 1]
1 True 1 [3 :sorted1 => [1, True, 1]
-1 -9223372036854775808 9223372036854775807 (3 :sorted1 => [-9223372036854775808, -1, 9223372036854775807]
'\\xff' 'a' [2 :sorted1 => ['a', '\\xff']
2 0 1 0 {2 :sorted1 => [1, 2]
[0 :sorted1 => []
None [1 :sorted1 => TypeError: unsupported operand
1 'a' [2 :sorted1 => TypeError: unsupported operand
'a' 1 [2 :sorted1 => TypeError: unsupported operand
1 [1 [1 :sorted1 => TypeError: unsupported operand
5 :sorted1 => TypeError: not iterable
:sorted0 => TypeError: wrong arguments
[0 True :sorted2 => TypeError: wrong arguments
";

#[test]
fn isinstance(rt: HostRuntime) -> Tested {
    table(&rt, rt.alloc(), ISINSTANCE)?;
    Ok(())
}

#[test]
fn ord_and_chr(rt: HostRuntime) -> Tested {
    table(&rt, rt.alloc(), ORD_AND_CHR)?;
    Ok(())
}

#[test]
fn abs(rt: HostRuntime) -> Tested {
    table(&rt, rt.alloc(), ABS)?;
    Ok(())
}

#[test]
fn min_and_max(rt: HostRuntime) -> Tested {
    table(&rt, rt.alloc(), MIN_AND_MAX)?;
    Ok(())
}

#[test]
fn sum(rt: HostRuntime) -> Tested {
    table(&rt, rt.alloc(), SUM)?;
    Ok(())
}

#[test]
fn sorted(rt: HostRuntime) -> Tested {
    table(&rt, rt.alloc(), SORTED)?;
    Ok(())
}
