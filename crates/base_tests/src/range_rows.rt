//! Ranges, as Python 2.7 counts them.
use obj_seq::{range_item, range_length};
use std::process::Abort;

/// Start, stop, step, and how many items that range has.
const LENGTHS: [(i64, i64, i64, u64); 14] = [
    (0, 5, 1, 5),
    (1, 10, 3, 3),
    (1, 11, 3, 4),
    (5, 0, -2, 3),
    (5, -1, -2, 3),
    (5, -2, -2, 4),
    (3, 3, 1, 0),
    (3, 0, 1, 0),
    (0, 3, -1, 0),
    (-3, 3, 2, 3),
    (i64::MIN, i64::MAX, 1, u64::MAX),
    (i64::MAX, i64::MIN, -1, u64::MAX),
    (i64::MAX, i64::MIN, i64::MIN, 2),
    (i64::MIN, i64::MAX, i64::MAX, 3),
];

/// Start, stop, step, a place, and the item there.
const ITEMS: [(i64, i64, i64, u64, i64); 6] = [
    (0, 5, 1, 4, 4),
    (1, 11, 3, 3, 10),
    (5, 0, -2, 2, 1),
    (i64::MIN, i64::MAX, 1, u64::MAX - 1, i64::MAX - 1),
    (i64::MAX, i64::MIN, i64::MIN, 1, -1),
    (i64::MIN, i64::MAX, i64::MAX, 2, i64::MAX - 1),
];

#[test]
fn lengths_of_ranges(rt: HostRuntime) {
    for (start, stop, step, length) in LENGTHS {
        assert!(rt; step != 0);
        assert_eq!(rt;
            range_length(start, stop, step),
            length,
            "{start} {stop} {step}"
        );
    }
}

#[test]
fn items_of_ranges(rt: HostRuntime) {
    for (start, stop, step, k, item) in ITEMS {
        assert!(rt; step != 0);
        assert!(rt; k < range_length(start, stop, step));
        assert_eq!(rt;
            range_item(start, stop, step, k),
            item,
            "{start} {stop} {step} {k}"
        );
    }
}
