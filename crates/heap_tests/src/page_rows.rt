//! Rows of pages that two and three segments share.
use page_table::Pages;
use seg_store::StoreFault;
use std::process::Abort;
use std::test::Fail;

/// Takes an extent.
fn reserve(rt: &impl Abort, pages: &mut Pages, class: u8) -> Result<u32, Fail> {
    assert!(rt; 1 <= class && class <= 21);
    Ok(pages.reserve(class)?)
}

/// The word of a segment at a place.
fn word(rt: &impl Abort, pages: &Pages, k: u8, place: u32) -> u64 {
    assert!(rt; k < pages.segments());
    assert!(rt; u64::from(place) < pages.reserved());
    pages.word(k, place)
}

/// The shared word at a place.
fn shared(rt: &impl Abort, pages: &Pages, place: u32) -> u64 {
    assert!(rt; u64::from(place) < pages.reserved());
    pages.shared_word(place)
}

/// Puts another word of a segment in a place.
fn set(rt: &impl Abort, pages: &mut Pages, k: u8, place: u32, w: u64) -> Result<(), Fail> {
    assert!(rt; k < pages.segments());
    assert!(rt; u64::from(place) < pages.reserved());
    Ok(pages.set_word(k, place, w)?)
}

/// Puts another word of a segment in a place of a page of its own.
fn write(rt: &impl Abort, pages: &mut Pages, k: u8, place: u32, w: u64) {
    assert!(rt; k < pages.segments());
    assert!(rt; u64::from(place) < pages.reserved());
    assert!(rt; 512 * u64::from(place / 512) < pages.limit());
    assert!(rt; pages.is_private(k, place / 512));
    pages.write_word(k, place, w);
}

/// Puts other words of a segment in the two places from an even one on, of a page of its own.
fn write_pair(rt: &impl Abort, pages: &mut Pages, k: u8, place: u32, first: u64, second: u64) {
    assert!(rt; k < pages.segments());
    assert!(rt; u64::from(place) + 1 < pages.reserved());
    assert!(rt; 512 * u64::from(place / 512) < pages.limit());
    assert!(rt; pages.is_private(k, place / 512));
    assert!(rt; place % 2 == 0);
    pages.write_two(k, place, first, second);
}

/// Whether a segment has a page of its own.
fn has_page(rt: &impl Abort, pages: &Pages, k: u8, page: u32) -> bool {
    assert!(rt; k < pages.segments());
    assert!(rt; 512 * u64::from(page) < pages.limit());
    pages.is_private(k, page)
}

/// Copies a segment's words of a span into the shared words, and into every other segment's pages.
fn push(rt: &impl Abort, pages: &mut Pages, k: u8, place: u32, n: u32) {
    assert!(rt; k < pages.segments());
    assert!(rt; u64::from(place) + u64::from(n) <= pages.reserved());
    pages.push_words(k, place, n);
}

/// Copies the shared words of a span into a segment's pages.
fn restore(rt: &impl Abort, pages: &mut Pages, k: u8, place: u32, n: u32) {
    assert!(rt; k < pages.segments());
    assert!(rt; u64::from(place) + u64::from(n) <= pages.reserved());
    pages.restore_words(k, place, n);
}

/// The two words of a segment from an even place on.
fn two(rt: &impl Abort, pages: &Pages, k: u8, place: u32) -> (u64, u64) {
    assert!(rt; k < pages.segments());
    assert!(rt; u64::from(place) + 1 < pages.reserved());
    assert!(rt; place % 2 == 0);
    pages.two_words(k, place)
}

/// The three words of a segment from an even place on.
fn three(rt: &impl Abort, pages: &Pages, k: u8, place: u32) -> (u64, u64, u64) {
    assert!(rt; k < pages.segments());
    assert!(rt; u64::from(place) + 2 < pages.reserved());
    assert!(rt; place % 2 == 0);
    pages.three_words(k, place)
}

/// How many words a segment has from a place on, the first and the last, where they lie in one page; else None.
fn run(rt: &impl Abort, pages: &Pages, k: u8, place: u32, n: u32) -> Option<(usize, u64, u64)> {
    assert!(rt; k < pages.segments());
    assert!(rt; u64::from(place) + u64::from(n) <= pages.reserved());
    match pages.run(k, place, n) {
        Some([first, .., last]) => Some((n as usize, *first, *last)),
        _ => None,
    }
}

/// What a call for an extent is refused with, as reserved, need and limit.
fn refused(rt: &impl Abort, pages: &mut Pages, class: u8) -> (u64, u64, u64) {
    assert!(rt; 1 <= class && class <= 21);
    match pages.reserve(class) {
        Err(
            StoreFault::Full {
                reserved,
                need,
                limit,
            },
        ) => (reserved, need, limit),
        _ => panic!(rt; "not full"),
    }
}

#[test]
fn one_page_is_full(rt: HostRuntime) -> Result<(), Fail> {
    let mut pages = Pages::new(rt.alloc(), 2, 1)?;
    assert_eq!(rt; pages.segments(), 2);
    assert_eq!(rt; pages.limit(), 512);
    assert_eq!(rt; refused(&rt, &mut pages, 9), (2, 512, 512));
    assert_eq!(rt; refused(&rt, &mut pages, 21), (2, 2_097_152, 512));
    assert_eq!(rt; reserve(&rt, &mut pages, 8)?, 2);
    assert_eq!(rt; refused(&rt, &mut pages, 8), (258, 256, 512));
    assert_eq!(rt; pages.reserved(), 258);
    Ok(())
}

#[test]
fn mixed_classes_follow_one_another(rt: HostRuntime) -> Result<(), Fail> {
    let mut pages = Pages::new(rt.alloc(), 1, 4)?;
    let wanted = [(2, 2), (1, 6), (9, 8), (1, 520), (10, 522), (2, 1_546)];
    for (class, place) in wanted {
        assert_eq!(rt; reserve(&rt, &mut pages, class)?, place, "class {class}");
    }
    assert_eq!(rt; pages.reserved(), 1_550);
    assert_eq!(rt; refused(&rt, &mut pages, 9), (1_550, 512, 2_048));
    Ok(())
}

#[test]
fn what_is_given_back_comes_again(rt: HostRuntime) -> Result<(), Fail> {
    let mut pages = Pages::new(rt.alloc(), 1, 1)?;
    let first = pages.reserve(3)?;
    let second = pages.reserve(3)?;
    assert!(rt; pages.in_use(3) == 2);
    pages.give_back(first, 3);
    assert!(rt; pages.in_use(3) == 1);
    pages.give_back(second, 3);
    assert_eq!(rt; pages.in_use(3), 0);
    assert_eq!(rt; reserve(&rt, &mut pages, 2)?, 18);
    assert_eq!(rt; reserve(&rt, &mut pages, 3)?, second);
    assert_eq!(rt; reserve(&rt, &mut pages, 3)?, first);
    assert_eq!(rt; reserve(&rt, &mut pages, 3)?, 22);
    assert_eq!(rt; pages.reserved(), 30);
    Ok(())
}

#[test]
fn a_page_is_private_to_one_segment(rt: HostRuntime) -> Result<(), Fail> {
    let mut pages = Pages::new(rt.alloc(), 2, 3)?;
    assert_eq!(rt; reserve(&rt, &mut pages, 10)?, 2);
    set(&rt, &mut pages, 1, 600, 7)?;
    assert!(rt; has_page(&rt, &pages, 1, 1));
    for page in [0, 2] {
        assert!(rt; !has_page(&rt, &pages, 1, page), "{page}");
    }
    for page in [0, 1, 2] {
        assert!(rt; !has_page(&rt, &pages, 0, page), "{page}");
    }
    assert_eq!(rt; word(&rt, &pages, 1, 600), 7);
    assert_eq!(rt; word(&rt, &pages, 1, 601), 0);
    assert_eq!(rt; word(&rt, &pages, 0, 600), 0);
    assert_eq!(rt; shared(&rt, &pages, 600), 0);
    Ok(())
}

#[test]
fn opened_pages_have_the_shared_words(rt: HostRuntime) -> Result<(), Fail> {
    let mut pages = Pages::new(rt.alloc(), 2, 2)?;
    assert_eq!(rt; reserve(&rt, &mut pages, 9)?, 2);
    set(&rt, &mut pages, 0, 511, 5)?;
    push(&rt, &mut pages, 0, 511, 1);
    assert!(rt; pages.segments() == 2 && pages.limit() == 1_024 && pages.reserved() == 514);
    pages.open_page(1, 0)?;
    assert_eq!(rt; word(&rt, &pages, 1, 511), 5);
    write(&rt, &mut pages, 1, 510, 6);
    assert_eq!(rt; word(&rt, &pages, 1, 510), 6);
    assert_eq!(rt; word(&rt, &pages, 0, 510), 0);
    assert!(rt; !has_page(&rt, &pages, 1, 1));
    Ok(())
}

#[test]
fn a_push_reaches_all(rt: HostRuntime) -> Result<(), Fail> {
    let mut pages = Pages::new(rt.alloc(), 3, 5)?;
    assert_eq!(rt; reserve(&rt, &mut pages, 11)?, 2);
    for place in [2, 511, 512, 1_024, 2_049] {
        set(&rt, &mut pages, 0, place, 100 + u64::from(place))?;
        set(&rt, &mut pages, 1, place, 1)?;
    }
    set(&rt, &mut pages, 1, 513, 9)?;
    push(&rt, &mut pages, 0, 3, 2_046);
    for k in [0, 1, 2] {
        assert_eq!(rt; word(&rt, &pages, k, 511), 611, "{k}");
        assert_eq!(rt; word(&rt, &pages, k, 512), 612, "{k}");
        assert_eq!(rt; word(&rt, &pages, k, 513), 0, "{k}");
        assert_eq!(rt; word(&rt, &pages, k, 1_024), 1_124, "{k}");
    }
    for (k, first, last) in [(0, 102, 2_149), (1, 1, 1), (2, 0, 0)] {
        assert_eq!(rt; word(&rt, &pages, k, 2), first, "{k}");
        assert_eq!(rt; word(&rt, &pages, k, 2_049), last, "{k}");
    }
    assert_eq!(rt; shared(&rt, &pages, 1_024), 1_124);
    Ok(())
}

#[test]
fn a_restore_takes_back_one_segment(rt: HostRuntime) -> Result<(), Fail> {
    let mut pages = Pages::new(rt.alloc(), 2, 3)?;
    assert_eq!(rt; reserve(&rt, &mut pages, 10)?, 2);
    for place in [500, 511, 512, 1_024, 1_025] {
        set(&rt, &mut pages, 0, place, 4)?;
        set(&rt, &mut pages, 1, place, 8)?;
    }
    restore(&rt, &mut pages, 1, 501, 524);
    for (place, w) in [(500, 8), (511, 0), (512, 0), (1_024, 0), (1_025, 8)] {
        assert_eq!(rt; word(&rt, &pages, 1, place), w, "{place}");
        assert_eq!(rt; word(&rt, &pages, 0, place), 4, "{place}");
    }
    Ok(())
}

#[test]
fn two_words_are_written_at_once(rt: HostRuntime) -> Result<(), Fail> {
    let mut pages = Pages::new(rt.alloc(), 2, 2)?;
    assert_eq!(rt; reserve(&rt, &mut pages, 9)?, 2);
    set(&rt, &mut pages, 1, 510, 9)?;
    write_pair(&rt, &mut pages, 1, 510, 3, 4);
    write_pair(&rt, &mut pages, 1, 508, 1, 2);
    for (place, w) in [(507, 0), (508, 1), (509, 2), (510, 3), (511, 4), (512, 0)] {
        assert_eq!(rt; word(&rt, &pages, 1, place), w, "{place}");
        assert_eq!(rt; word(&rt, &pages, 0, place), 0, "{place}");
    }
    Ok(())
}

#[test]
fn words_are_read_across_pages(rt: HostRuntime) -> Result<(), Fail> {
    let mut pages = Pages::new(rt.alloc(), 2, 2)?;
    assert_eq!(rt; reserve(&rt, &mut pages, 9)?, 2);
    set(&rt, &mut pages, 1, 510, 3)?;
    set(&rt, &mut pages, 1, 511, 4)?;
    assert_eq!(rt; two(&rt, &pages, 1, 510), (3, 4));
    assert_eq!(rt; two(&rt, &pages, 0, 510), (0, 0));
    assert_eq!(rt; three(&rt, &pages, 1, 508), (0, 0, 3));
    set(&rt, &mut pages, 0, 512, 5)?;
    assert_eq!(rt; three(&rt, &pages, 0, 510), (0, 0, 5));
    assert_eq!(rt; three(&rt, &pages, 1, 510), (3, 4, 0));
    push(&rt, &mut pages, 0, 512, 1);
    assert_eq!(rt; three(&rt, &pages, 1, 510), (3, 4, 5));
    assert_eq!(rt; two(&rt, &pages, 1, 512), (5, 0));
    Ok(())
}

#[test]
fn runs_lie_in_one_page(rt: HostRuntime) -> Result<(), Fail> {
    let mut pages = Pages::new(rt.alloc(), 2, 2)?;
    assert_eq!(rt; reserve(&rt, &mut pages, 9)?, 2);
    set(&rt, &mut pages, 1, 506, 3)?;
    set(&rt, &mut pages, 1, 511, 4)?;
    assert_eq!(rt; run(&rt, &pages, 1, 506, 6), Some((6, 3, 4)));
    assert_eq!(rt; run(&rt, &pages, 0, 506, 6), Some((6, 0, 0)));
    assert_eq!(rt; run(&rt, &pages, 1, 506, 7), None);
    assert_eq!(rt; run(&rt, &pages, 0, 511, 2), None);
    push(&rt, &mut pages, 1, 511, 1);
    assert_eq!(rt; run(&rt, &pages, 0, 506, 6), Some((6, 0, 4)));
    Ok(())
}
