//! Rows of operators on numbers and truth values.
use crate::tables::{Tested, table};

/// Sums, products and quotients.
const SUMS: &[u8] = b"# numbers: sums, products, floors
7 2 / => 3
-7 2 / => -4
7 -2 / => -4
-7 -2 / => 3
7 2 // => 3
-7 2 // => -4
-7 3 % => 2
7 -3 % => -2
-7 -3 % => -1
6 3 % => 0
1 0 / => ZeroDivisionError: integer division or modulo by zero
1 0 // => ZeroDivisionError: integer division or modulo by zero
1 0 % => ZeroDivisionError: integer division or modulo by zero
True False / => ZeroDivisionError: integer division or modulo by zero
9223372036854775807 1 + => OverflowError: integer overflow
-9223372036854775808 1 - => OverflowError: integer overflow
3037000500 3037000500 * => OverflowError: integer overflow
3037000499 3037000499 * => 9223372030926249001
-9223372036854775808 -1 / => OverflowError: integer overflow
-9223372036854775808 -1 % => 0
-9223372036854775808 neg => OverflowError: integer overflow
-9223372036854775807 neg => 9223372036854775807
True True + => 2
True neg => -1
True pos => 1
True ~ => -2
5 ~ => -6
-6 ~ => 5
None neg => TypeError: unsupported operand
'a' ~ => TypeError: unsupported operand
1 [1 pos => TypeError: unsupported operand
";

/// Powers.
const POWERS: &[u8] = b"# powers
2 62 ** => 4611686018427387904
2 63 ** => OverflowError: integer overflow
-2 63 ** => -9223372036854775808
0 0 ** => 1
0 5 ** => 0
1 9223372036854775807 ** => 1
-1 9223372036854775807 ** => -1
-1 9223372036854775806 ** => 1
0 9223372036854775807 ** => 0
2 9223372036854775807 ** => OverflowError: integer overflow
2 -1 ** => ValueError: negative exponent
0 -1 ** => ValueError: negative exponent
True -1 ** => ValueError: negative exponent
3 39 ** => 4052555153018976267
3 40 ** => OverflowError: integer overflow
'a' -1 ** => TypeError: unsupported operand
";

/// Shifts.
const SHIFTS: &[u8] = b"# shifts
1 62 << => 4611686018427387904
1 63 << => OverflowError: integer overflow
-1 63 << => -9223372036854775808
-1 64 << => OverflowError: integer overflow
0 9223372036854775807 << => 0
1 9223372036854775807 << => OverflowError: integer overflow
1 -1 << => ValueError: negative shift count
0 -1 << => ValueError: negative shift count
1 -1 >> => ValueError: negative shift count
5 1 >> => 2
-5 1 >> => -3
-5 63 >> => -1
5 63 >> => 0
-5 64 >> => -1
5 9223372036854775807 >> => 0
True True << => 2
'a' -1 << => TypeError: unsupported operand
";

/// Bits.
const BITS: &[u8] = b"# bits, and truth values among them
6 3 & => 2
6 3 | => 7
6 3 ^ => 5
-1 3 & => 3
-8 5 | => -3
-1 1 ^ => -2
True False & => False
True False | => True
True True ^ => False
True 2 | => 3
2 True & => 0
None 1 & => TypeError: unsupported operand
'a' 'b' | => TypeError: unsupported operand
";

#[test]
fn sums(rt: HostRuntime) -> Tested {
    table(&rt, rt.alloc(), SUMS)?;
    Ok(())
}

#[test]
fn powers(rt: HostRuntime) -> Tested {
    table(&rt, rt.alloc(), POWERS)?;
    Ok(())
}

#[test]
fn shifts(rt: HostRuntime) -> Tested {
    table(&rt, rt.alloc(), SHIFTS)?;
    Ok(())
}

#[test]
fn bits(rt: HostRuntime) -> Tested {
    table(&rt, rt.alloc(), BITS)?;
    Ok(())
}
