//! Quotients and remainders, as Python 2.7 has them.
use py_data::arithmetic::{floor_divide, floor_division_law, floor_modulo};
use std::process::Abort;

/// Dividend, divisor, quotient and remainder, as Python 2.7 gives them.
const ROWS: [(i64, i64, i64, i64); 30] = [
    (7, 2, 3, 1),
    (-7, 2, -4, 1),
    (7, -2, -4, -1),
    (-7, -2, 3, -1),
    (7, 3, 2, 1),
    (-7, 3, -3, 2),
    (7, -3, -3, -2),
    (-7, -3, 2, -1),
    (0, 5, 0, 0),
    (0, -5, 0, 0),
    (6, 3, 2, 0),
    (-6, 3, -2, 0),
    (6, -3, -2, 0),
    (-6, -3, 2, 0),
    (1, 10, 0, 1),
    (-1, 10, -1, 9),
    (1, -10, -1, -9),
    (-1, -10, 0, -1),
    (999999999, -999999999, -1, 0),
    (-999999999, 2, -500000000, 1),
    (999999999, -2, -500000000, -1),
    (i64::MAX, 1, i64::MAX, 0),
    (i64::MAX, -1, -9223372036854775807, 0),
    (i64::MIN, 1, i64::MIN, 0),
    (i64::MIN, 2, -4611686018427387904, 0),
    (i64::MIN, -2, 4611686018427387904, 0),
    (i64::MAX, i64::MIN, -1, -1),
    (i64::MIN, i64::MAX, -2, 9223372036854775806),
    (i64::MIN, i64::MIN, 1, 0),
    (i64::MIN, 10, -922337203685477581, 2),
];

#[test]
fn divides_as_python(rt: HostRuntime) {
    for (a, b, quotient, rest) in ROWS {
        assert!(rt; b != 0);
        assert!(rt; b != -1 || a != i64::MIN);
        assert_eq!(rt; floor_divide(a, b), quotient, "{a} / {b}");
        assert_eq!(rt; floor_modulo(a, b), rest, "{a} % {b}");
    }
    assert_eq!(rt; floor_modulo(i64::MIN, -1), 0);
    floor_division_law();
}
