//! Rows of markers and locks.
use seg_marks::Marks;
use std::process::Abort;
use std::test::Fail;

/// A segment begins.
fn begin(rt: &impl Abort, marks: &mut Marks, k: u8) {
    assert!(rt; k < marks.segments());
    marks.begin(k);
}

/// A segment marks a granule.
fn mark(rt: &impl Abort, marks: &mut Marks, k: u8, g: u32) {
    assert!(rt; k < marks.segments());
    assert!(rt; g < marks.granules());
    marks.mark(k, g);
}

/// Whether a segment marked a granule.
fn marked(rt: &impl Abort, marks: &Marks, k: u8, g: u32) -> bool {
    assert!(rt; k < marks.segments());
    marks.marked(k, g)
}

/// A segment locks a granule that is free or its own.
fn lock(rt: &impl Abort, marks: &mut Marks, k: u8, g: u32) {
    assert!(rt; k < marks.segments());
    assert!(rt; g < marks.granules());
    match marks.holder(g) {
        None => {}
        Some(j) => {
            assert!(rt; j == k);
        }
    }
    marks.lock(k, g);
}

/// A granule becomes free.
fn unlock(rt: &impl Abort, marks: &mut Marks, g: u32) {
    assert!(rt; g < marks.granules());
    marks.unlock(g);
}

#[test]
fn no_look_counts_after_any_number_of_begins(rt: HostRuntime) -> Result<(), Fail> {
    let mut marks = Marks::new(rt.alloc(), 1, 4)?;
    mark(&rt, &mut marks, 0, 1);
    assert!(rt; marked(&rt, &marks, 0, 1));
    for turn in 1..=600u32 {
        begin(&rt, &mut marks, 0);
        for g in [0, 1, 2, 3] {
            assert!(rt;
                !marked(&rt, &marks, 0, g),
                "granule {g} after {turn} begins"
            );
        }
        if turn % 256 == 1 {
            mark(&rt, &mut marks, 0, 2);
            assert!(rt; marked(&rt, &marks, 0, 2), "after {turn} begins");
        }
    }
    Ok(())
}

/// Where few granules were marked, those alone are cleared after 255 versions, and where many were, all of them.
#[test]
fn marks_are_cleared_however_many_there_were(rt: HostRuntime) -> Result<(), Fail> {
    for (granules, step) in [(64, 1), (1_000, 7), (1_000, 500), (100_000, 9_000)] {
        let mut marks = Marks::new(rt.alloc(), 1, granules)?;
        for turn in 1..=520u32 {
            begin(&rt, &mut marks, 0);
            for i in 0..granules / step {
                let g = i * step + turn % step;
                assert!(rt;
                    !marked(&rt, &marks, 0, g),
                    "granule {g} after {turn} begins"
                );
                mark(&rt, &mut marks, 0, g);
                assert!(rt; marked(&rt, &marks, 0, g), "{g}, {turn}");
            }
        }
    }
    Ok(())
}

#[test]
fn segments_mark_by_themselves(rt: HostRuntime) -> Result<(), Fail> {
    let mut marks = Marks::new(rt.alloc(), 2, 3)?;
    assert_eq!(rt; marks.segments(), 2);
    assert_eq!(rt; marks.granules(), 3);
    mark(&rt, &mut marks, 0, 0);
    mark(&rt, &mut marks, 1, 2);
    mark(&rt, &mut marks, 1, 2);
    for (k, g, wanted) in [
        (0, 0, true),
        (0, 1, false),
        (0, 2, false),
        (1, 0, false),
        (1, 1, false),
        (1, 2, true),
    ] {
        assert_eq!(rt; marked(&rt, &marks, k, g), wanted, "{k} {g}");
    }
    begin(&rt, &mut marks, 0);
    assert!(rt; !marked(&rt, &marks, 0, 0));
    assert!(rt; marked(&rt, &marks, 1, 2));
    assert!(rt; !marked(&rt, &marks, 1, 3));
    Ok(())
}

#[test]
fn a_granule_has_one_holder(rt: HostRuntime) -> Result<(), Fail> {
    let mut marks = Marks::new(rt.alloc(), 8, 3)?;
    assert_eq!(rt; marks.holder(1), None);
    lock(&rt, &mut marks, 7, 1);
    lock(&rt, &mut marks, 7, 1);
    lock(&rt, &mut marks, 0, 2);
    for (g, wanted) in [(0, None), (1, Some(7)), (2, Some(0)), (3, None)] {
        assert!(rt; marks.holder(g) == wanted, "{g}");
    }
    assert!(rt; !marked(&rt, &marks, 7, 1));
    begin(&rt, &mut marks, 7);
    assert_eq!(rt; marks.holder(1), Some(7));
    unlock(&rt, &mut marks, 1);
    assert_eq!(rt; marks.holder(1), None);
    assert_eq!(rt; marks.holder(2), Some(0));
    lock(&rt, &mut marks, 3, 1);
    assert_eq!(rt; marks.holder(1), Some(3));
    Ok(())
}
