//! Rows of a store of pages: full heaps, pages of one segment alone, records that share pages, growth that is taken
//! back.
use crate::acts::{has_numbers, has_text, paged, refused, refused_pair, refused_push};
use crate::handle::TestHandle;
use py_data::{Addr, Kind, Value};
use seg_store::SegStore;
use std::alloc::Global;
use std::process::Abort;
use std::test::Fail;
use store_bench::Bench;
use store_bench::acts::{make, make_text, number, push_numbers, put_numbers, size};

type Tested = Result<(), Fail>;

/// Makes so many empty Lists.
fn make_lists<S: SegStore>(
    rt: &TestHandle<impl Abort>,
    alloc: Global,
    store: &mut Bench<S>,
    k: u8,
    n: usize,
) -> Tested {
    'lists: for _ in 0..n {
        make(rt, alloc, store, k, Kind::List, &[])?;
    }
    Ok(())
}

/// One page has 512 words, of which two are taken at first: 127 headers of 4 words leave 2.
fn fill_one_page<S: SegStore>(
    rt: &TestHandle<impl Abort>,
    alloc: Global,
    mut store: Bench<S>,
) -> Tested {
    assert!(&rt.0; store.segments() == 2 && store.limit() == 512);
    assert_eq!(&rt.0; store.reserved(), 2);
    let a = make(rt, alloc, &mut store, 0, Kind::List, &[])?;
    assert_eq!(&rt.0; store.reserved(), 6);
    store.publish(rt, alloc, 0)?;
    make_lists(rt, alloc, &mut store, 0, 126)?;
    assert_eq!(&rt.0; store.reserved(), 510);
    let full = (510, 4, 512);
    assert!(&rt.0; refused(rt, alloc, &mut store, 0, Kind::List, &[])? == full);
    assert!(&rt.0; refused(rt, alloc, &mut store, 1, Kind::Dict, &[])? == full);
    assert_eq!(&rt.0; store.reserved(), 510);
    assert_eq!(&rt.0; size(rt, &store, 1, a), (0, 0, 0));
    assert!(&rt.0; store.holder(a).is_none());
    Ok(())
}

#[test]
fn one_page_is_full(rt: HostRuntime) -> Tested {
    fill_one_page(&TestHandle(&rt), rt.alloc(), paged(rt.alloc(), 2, 1)?)
}

/// A List of the full heap takes the last two words for its first body, and has none for the next.
fn take_last_words<S: SegStore>(
    rt: &TestHandle<impl Abort>,
    alloc: Global,
    mut store: Bench<S>,
) -> Tested {
    let a = make(rt, alloc, &mut store, 0, Kind::List, &[])?;
    store.publish(rt, alloc, 0)?;
    make_lists(rt, alloc, &mut store, 1, 126)?;
    store.lock(rt, 0, a);
    store.push(rt, 0, a, Value::Int(1));
    assert_eq!(&rt.0; store.reserved(), 512);
    assert!(&rt.0; refused_push(rt, &mut store, 0, a) == (512, 4, 512));
    assert_eq!(&rt.0; size(rt, &store, 0, a), (1, 1, 0));
    assert_eq!(&rt.0; number(rt, &store, 0, a, 0), 1);
    assert_eq!(&rt.0; size(rt, &store, 1, a), (0, 0, 0));
    Ok(())
}

#[test]
fn last_words(rt: HostRuntime) -> Tested {
    take_last_words(&TestHandle(&rt), rt.alloc(), paged(rt.alloc(), 2, 1)?)
}

/// A header that is taken for a record whose body can't be had is given back, and stays reserved.
fn make_without_body<S: SegStore>(
    rt: &TestHandle<impl Abort>,
    alloc: Global,
    mut store: Bench<S>,
) -> Tested {
    make_lists(rt, alloc, &mut store, 0, 126)?;
    assert_eq!(&rt.0; store.reserved(), 506);
    let four = [Value::None, Value::None, Value::None, Value::None];
    assert!(&rt.0; refused(rt, alloc, &mut store, 0, Kind::Tuple, &four)? == (510, 8, 512));
    assert_eq!(&rt.0; store.reserved(), 510);
    make_lists(rt, alloc, &mut store, 0, 1)?;
    assert_eq!(&rt.0; store.reserved(), 510);
    Ok(())
}

#[test]
fn header_without_body(rt: HostRuntime) -> Tested {
    make_without_body(&TestHandle(&rt), rt.alloc(), paged(rt.alloc(), 1, 1)?)
}

/// A Dict whose next body is there, but not its next index: the body is given back.
fn pair_without_index<S: SegStore>(
    rt: &TestHandle<impl Abort>,
    alloc: Global,
    mut store: Bench<S>,
) -> Tested {
    let d = make(rt, alloc, &mut store, 0, Kind::Dict, &[])?;
    assert_eq!(&rt.0; store.reserved(), 12);
    put_numbers(rt, &mut store, 0, d, (0, 1), 10);
    make_lists(rt, alloc, &mut store, 0, 123)?;
    assert_eq!(&rt.0; store.reserved(), 504);
    assert!(&rt.0; refused_pair(rt, &mut store, 0, d, 9) == (512, 4, 512));
    assert_eq!(&rt.0; size(rt, &store, 0, d), (2, 2, 2));
    assert!(&rt.0; store.find_key(rt, 0, d, Value::Int(0)) == Some(0));
    assert_eq!(&rt.0; number(rt, &store, 0, d, 1), 10);
    store.drop_changes(rt, 0);
    let e = make(rt, alloc, &mut store, 0, Kind::Dict, &[])?;
    put_numbers(rt, &mut store, 0, e, (0, 2), 10);
    assert_eq!(&rt.0; size(rt, &store, 0, e), (4, 4, 2));
    assert_eq!(&rt.0; store.reserved(), 512);
    Ok(())
}

#[test]
fn body_without_index(rt: HostRuntime) -> Tested {
    pair_without_index(&TestHandle(&rt), rt.alloc(), paged(rt.alloc(), 1, 1)?)
}

/// What a step that is taken back or a transaction that is dropped gave back is taken again.
fn take_again<S: SegStore>(
    rt: &TestHandle<impl Abort>,
    alloc: Global,
    mut store: Bench<S>,
) -> Tested {
    store.open_step(rt, 0);
    make_lists(rt, alloc, &mut store, 0, 127)?;
    store.undo_step(rt, 0);
    assert_eq!(&rt.0; store.reserved(), 510);
    make_lists(rt, alloc, &mut store, 0, 127)?;
    assert_eq!(&rt.0; store.reserved(), 510);
    store.drop_changes(rt, 0);
    make_lists(rt, alloc, &mut store, 1, 127)?;
    assert_eq!(&rt.0; store.reserved(), 510);
    assert!(&rt.0; refused(rt, alloc, &mut store, 0, Kind::List, &[])? == (510, 4, 512));
    Ok(())
}

#[test]
fn taken_again(rt: HostRuntime) -> Tested {
    take_again(&TestHandle(&rt), rt.alloc(), paged(rt.alloc(), 2, 1)?)
}

/// Makes records whose words, with the first two, are 1,684, and answers a List of 256 numbers among them.
fn worked<S: SegStore>(
    rt: &TestHandle<impl Abort>,
    alloc: Global,
    store: &mut Bench<S>,
) -> Result<Addr, Fail> {
    let a = make(rt, alloc, store, 0, Kind::List, &[])?;
    push_numbers(rt, store, 0, a, 0, 256);
    make(rt, alloc, store, 0, Kind::List, &[])?;
    make(rt, alloc, store, 0, Kind::Cell, &[Value::Unset])?;
    let name = make_text(rt, alloc, store, 0, &[65; 16])?;
    make_text(rt, alloc, store, 0, &[65; 17])?;
    make_text(rt, alloc, store, 0, &[])?;
    assert_eq!(&rt.0; store.reserved(), 2 + 1_026 + 4 + 6 + 6 + 8 + 4);
    let d = make(rt, alloc, store, 0, Kind::Dict, &[])?;
    make(
        rt,
        alloc,
        store,
        0,
        Kind::Class,
        &[Value::Ref(name), Value::None, Value::Ref(d)],
    )?;
    let t = make(rt, alloc, store, 0, Kind::Tuple, &[Value::Bool(true); 24])?;
    let thread = [
        Value::Builtin(1),
        Value::Ref(t),
        Value::None,
        Value::Bool(false),
    ];
    make(rt, alloc, store, 0, Kind::Thread, &thread)?;
    assert_eq!(&rt.0; store.reserved(), 1_056 + 10 + 12 + 68 + 12);
    make(rt, alloc, store, 0, Kind::Dict, &[])?;
    make_text(rt, alloc, store, 0, &[66; 4_096])?;
    assert_eq!(&rt.0; store.reserved(), 1_684);
    Ok(a)
}

/// The next body of a List of 256 values has 1,024 words.
fn grow_past_limit<S: SegStore>(
    rt: &TestHandle<impl Abort>,
    alloc: Global,
    mut store: Bench<S>,
) -> Tested {
    let a = worked(rt, alloc, &mut store)?;
    assert_eq!(&rt.0; size(rt, &store, 0, a), (256, 256, 0));
    assert!(&rt.0; refused_push(rt, &mut store, 0, a) == (1_684, 1_024, 2_048));
    assert_eq!(&rt.0; store.reserved(), 1_684);
    store.publish(rt, alloc, 0)?;
    store.lock(rt, 1, a);
    assert!(&rt.0; refused_push(rt, &mut store, 1, a) == (1_684, 1_024, 2_048));
    assert_eq!(&rt.0; size(rt, &store, 1, a), (256, 256, 0));
    assert!(&rt.0;
        has_numbers(rt, &store, 0, a, (0, 256)) && has_numbers(rt, &store, 1, a, (0, 256))
    );
    store.cut(rt, 1, a, 255);
    store.push(rt, 1, a, Value::Int(255));
    assert!(&rt.0; has_numbers(rt, &store, 1, a, (0, 256)));
    Ok(())
}

#[test]
fn next_body(rt: HostRuntime) -> Tested {
    grow_past_limit(&TestHandle(&rt), rt.alloc(), paged(rt.alloc(), 2, 4)?)
}

/// Makes a List of two numbers.
fn make_pair<S: SegStore>(
    rt: &TestHandle<impl Abort>,
    alloc: Global,
    store: &mut Bench<S>,
    first: i64,
    second: i64,
) -> Result<Addr, Fail> {
    make(
        rt,
        alloc,
        store,
        0,
        Kind::List,
        &[Value::Int(first), Value::Int(second)],
    )
}

/// A segment sees these two numbers in a List.
fn has_pair<S: SegStore>(
    rt: &TestHandle<impl Abort>,
    store: &Bench<S>,
    k: u8,
    a: Addr,
    first: i64,
    second: i64,
) -> bool {
    number(rt, store, k, a, 0) == first && number(rt, store, k, a, 1) == second
}

/// What one segment wrote is not seen by the other before it is published, and by both after.
fn write_own_pages<S: SegStore>(
    rt: &TestHandle<impl Abort>,
    alloc: Global,
    mut store: Bench<S>,
) -> Tested {
    let a = make_pair(rt, alloc, &mut store, 1, 2)?;
    let b = make_pair(rt, alloc, &mut store, 3, 4)?;
    store.publish(rt, alloc, 0)?;
    store.lock(rt, 0, a);
    store.lock(rt, 1, b);
    store.set(rt, 0, a, 0, Value::Int(10));
    store.set(rt, 1, b, 1, Value::Int(40));
    assert!(&rt.0; has_pair(rt, &store, 0, a, 10, 2) && has_pair(rt, &store, 1, a, 1, 2));
    assert!(&rt.0; has_pair(rt, &store, 0, b, 3, 4) && has_pair(rt, &store, 1, b, 3, 40));
    store.publish(rt, alloc, 0)?;
    assert!(&rt.0; has_pair(rt, &store, 0, a, 10, 2) && has_pair(rt, &store, 1, a, 10, 2));
    assert!(&rt.0; has_pair(rt, &store, 0, b, 3, 4) && has_pair(rt, &store, 1, b, 3, 40));
    store.publish(rt, alloc, 1)?;
    assert!(&rt.0; has_pair(rt, &store, 0, b, 3, 40) && has_pair(rt, &store, 1, b, 3, 40));
    Ok(())
}

#[test]
fn own_pages(rt: HostRuntime) -> Tested {
    write_own_pages(&TestHandle(&rt), rt.alloc(), paged(rt.alloc(), 2, 2)?)
}

/// Two Lists of 600 numbers, whose bodies span pages.
fn two_lists<S: SegStore>(
    rt: &TestHandle<impl Abort>,
    alloc: Global,
    store: &mut Bench<S>,
) -> Result<(Addr, Addr), Fail> {
    let a = make(rt, alloc, store, 0, Kind::List, &[])?;
    let b = make(rt, alloc, store, 0, Kind::List, &[])?;
    'numbers: for n in 0..600 {
        store.push(rt, 0, a, Value::Int(n));
        store.push(rt, 0, b, Value::Int(1_000 + n));
    }
    store.publish(rt, alloc, 0)?;
    assert!(&rt.0;
        has_numbers(rt, store, 1, a, (0, 600)) && has_numbers(rt, store, 1, b, (1_000, 1_600))
    );
    Ok((a, b))
}

/// Two segments change records that share pages; one publishes and the other drops.
fn write_shared_pages<S: SegStore>(
    rt: &TestHandle<impl Abort>,
    alloc: Global,
    mut store: Bench<S>,
) -> Tested {
    let (a, b) = two_lists(rt, alloc, &mut store)?;
    store.lock(rt, 0, a);
    store.lock(rt, 1, b);
    'places: for i in 0..600 {
        store.set(rt, 0, a, i, Value::None);
        store.set(rt, 1, b, i, Value::Bool(true));
    }
    assert!(&rt.0;
        has_numbers(rt, &store, 1, a, (0, 600)) && has_numbers(rt, &store, 2, a, (0, 600))
    );
    assert!(&rt.0; has_numbers(rt, &store, 0, b, (1_000, 1_600)));
    store.publish(rt, alloc, 0)?;
    'again: for i in 0..600 {
        assert!(&rt.0;
            store.val(rt, 1, a, i) == Value::None && store.val(rt, 2, a, i) == Value::None
        );
        assert!(&rt.0; store.val(rt, 1, b, i) == Value::Bool(true));
    }
    store.drop_changes(rt, 1);
    assert!(&rt.0; has_numbers(rt, &store, 1, b, (1_000, 1_600)));
    assert!(&rt.0; has_numbers(rt, &store, 0, b, (1_000, 1_600)));
    Ok(())
}

#[test]
fn shared_pages(rt: HostRuntime) -> Tested {
    write_shared_pages(&TestHandle(&rt), rt.alloc(), paged(rt.alloc(), 3, 32)?)
}

/// Strings that span pages, between Lists that two segments change.
fn keep_long_strings<S: SegStore>(
    rt: &TestHandle<impl Abort>,
    alloc: Global,
    mut store: Bench<S>,
) -> Tested {
    let mut text = vec![in alloc; 7u8; 5_000]?;
    text[0] = 255;
    text[4_095] = 1;
    text[4_096] = 2;
    text[4_999] = 254;
    let a = make_pair(rt, alloc, &mut store, 1, 2)?;
    let s = make_text(rt, alloc, &mut store, 0, &text)?;
    let b = make_pair(rt, alloc, &mut store, 3, 4)?;
    store.publish(rt, alloc, 0)?;
    assert_eq!(&rt.0; store.reserved(), 2 + 4 + 4 + 4 + 1_024 + 4 + 4);
    store.lock(rt, 0, a);
    store.lock(rt, 1, b);
    store.set(rt, 0, a, 0, Value::Int(5));
    store.set(rt, 1, b, 0, Value::Int(6));
    text[17] = 8;
    let t = make_text(rt, alloc, &mut store, 1, &text)?;
    assert!(&rt.0; has_text(rt, alloc, &store, 1, t, &text)?);
    store.publish(rt, alloc, 1)?;
    assert!(&rt.0; has_text(rt, alloc, &store, 0, t, &text)?);
    store.drop_changes(rt, 0);
    text[17] = 7;
    assert!(&rt.0; has_text(rt, alloc, &store, 0, s, &text)?);
    assert!(&rt.0; has_text(rt, alloc, &store, 1, s, &text)?);
    assert!(&rt.0; has_pair(rt, &store, 0, a, 1, 2) && has_pair(rt, &store, 1, a, 1, 2));
    assert!(&rt.0; has_pair(rt, &store, 0, b, 6, 4) && has_pair(rt, &store, 1, b, 6, 4));
    Ok(())
}

#[test]
fn long_strings(rt: HostRuntime) -> Tested {
    keep_long_strings(&TestHandle(&rt), rt.alloc(), paged(rt.alloc(), 2, 16)?)
}

/// A List that grew twice, and is dropped, has its old body again.
fn drop_growth<S: SegStore>(
    rt: &TestHandle<impl Abort>,
    alloc: Global,
    mut store: Bench<S>,
) -> Tested {
    let a = make(rt, alloc, &mut store, 0, Kind::List, &[])?;
    push_numbers(rt, &mut store, 0, a, 0, 4);
    store.publish(rt, alloc, 0)?;
    assert_eq!(&rt.0; store.reserved(), 2 + 4 + 2 + 4 + 8);
    store.lock(rt, 1, a);
    push_numbers(rt, &mut store, 1, a, 4, 12);
    assert_eq!(&rt.0; size(rt, &store, 1, a), (12, 16, 0));
    assert_eq!(&rt.0; size(rt, &store, 0, a), (4, 4, 0));
    assert_eq!(&rt.0; store.reserved(), 20 + 16 + 32);
    store.set(rt, 1, a, 2, Value::None);
    store.drop_changes(rt, 1);
    assert_eq!(&rt.0; size(rt, &store, 1, a), (4, 4, 0));
    assert!(&rt.0; has_numbers(rt, &store, 1, a, (0, 4)));
    store.lock(rt, 0, a);
    push_numbers(rt, &mut store, 0, a, 4, 12);
    assert_eq!(&rt.0; store.reserved(), 68);
    store.publish(rt, alloc, 0)?;
    assert!(&rt.0; has_numbers(rt, &store, 1, a, (0, 12)));
    Ok(())
}

#[test]
fn growth_is_dropped(rt: HostRuntime) -> Tested {
    drop_growth(&TestHandle(&rt), rt.alloc(), paged(rt.alloc(), 2, 4)?)
}

/// A step in which a List grew twice is taken back, and done again.
fn take_growth_back<S: SegStore>(
    rt: &TestHandle<impl Abort>,
    alloc: Global,
    mut store: Bench<S>,
) -> Tested {
    let a = make(rt, alloc, &mut store, 0, Kind::List, &[])?;
    push_numbers(rt, &mut store, 0, a, 0, 4);
    store.publish(rt, alloc, 0)?;
    store.lock(rt, 1, a);
    store.set(rt, 1, a, 0, Value::Int(100));
    store.open_step(rt, 1);
    store.set(rt, 1, a, 0, Value::Int(0));
    push_numbers(rt, &mut store, 1, a, 4, 12);
    store.cut(rt, 1, a, 9);
    store.undo_step(rt, 1);
    assert_eq!(&rt.0; size(rt, &store, 1, a), (4, 4, 0));
    assert_eq!(&rt.0; number(rt, &store, 1, a, 0), 100);
    store.set(rt, 1, a, 0, Value::Int(0));
    assert!(&rt.0; has_numbers(rt, &store, 1, a, (0, 4)));
    store.open_step(rt, 1);
    push_numbers(rt, &mut store, 1, a, 4, 12);
    assert_eq!(&rt.0; store.reserved(), 68);
    store.publish(rt, alloc, 1)?;
    assert!(&rt.0; has_numbers(rt, &store, 0, a, (0, 12)));
    Ok(())
}

#[test]
fn growth_is_taken_back(rt: HostRuntime) -> Tested {
    take_growth_back(&TestHandle(&rt), rt.alloc(), paged(rt.alloc(), 2, 4)?)
}

/// The place of a key after the pairs of the numbers from 11 to 20 were dropped.
fn place_after(n: u32) -> Option<usize> {
    if n < 11 {
        Some(n as usize)
    } else if n < 21 {
        None
    } else {
        Some(n as usize - 10)
    }
}

/// A Dict that grew over several classes, with pairs dropped in the middle.
fn drop_pairs<S: SegStore>(
    rt: &TestHandle<impl Abort>,
    alloc: Global,
    mut store: Bench<S>,
) -> Tested {
    let d = make(rt, alloc, &mut store, 0, Kind::Dict, &[])?;
    put_numbers(rt, &mut store, 0, d, (0, 40), 500);
    assert_eq!(&rt.0; size(rt, &store, 0, d), (80, 128, 2));
    store.publish(rt, alloc, 0)?;
    assert_eq!(&rt.0; store.reserved(), 2 + 4 + 508 + 254);
    store.lock(rt, 1, d);
    'drops: for i in 0..10 {
        store.unpair(rt, 1, d, 20 - i);
    }
    assert_eq!(&rt.0; size(rt, &store, 1, d), (60, 128, 2));
    'keys: for n in 0..40u32 {
        let key = Value::Int(i64::from(n));
        let found = store.find_key(rt, 1, d, key);
        assert!(&rt.0; found == place_after(n), "{n}");
        assert!(&rt.0; store.find_key(rt, 0, d, key) == Some(n as usize), "{n}");
    }
    put_numbers(rt, &mut store, 1, d, (11, 12), 700);
    assert_eq!(&rt.0; number(rt, &store, 1, d, 61), 711);
    store.publish(rt, alloc, 1)?;
    assert!(&rt.0; store.find_key(rt, 0, d, Value::Int(11)) == Some(30));
    assert!(&rt.0; store.find_key(rt, 0, d, Value::Int(21)) == Some(11));
    Ok(())
}

#[test]
fn pairs_are_dropped(rt: HostRuntime) -> Tested {
    drop_pairs(&TestHandle(&rt), rt.alloc(), paged(rt.alloc(), 2, 4)?)
}

/// The pair of a number has this key, and 500 more as its value.
fn has_pair_of<S: SegStore>(
    rt: &TestHandle<impl Abort>,
    store: &Bench<S>,
    k: u8,
    d: Addr,
    place: u32,
    key: u32,
) -> bool {
    let i = 2 * place as usize;
    number(rt, store, k, d, i) == i64::from(key)
        && number(rt, store, k, d, i + 1) == 500 + i64::from(key)
}

/// A Dict whose body spans pages, with pairs dropped near its front.
fn drop_in_long_dict<S: SegStore>(
    rt: &TestHandle<impl Abort>,
    alloc: Global,
    mut store: Bench<S>,
) -> Tested {
    let d = make(rt, alloc, &mut store, 0, Kind::Dict, &[])?;
    put_numbers(rt, &mut store, 0, d, (0, 200), 500);
    assert_eq!(&rt.0; size(rt, &store, 0, d), (400, 512, 2));
    store.publish(rt, alloc, 0)?;
    store.lock(rt, 1, d);
    store.unpair(rt, 1, d, 0);
    store.unpair(rt, 1, d, 60);
    assert_eq!(&rt.0; size(rt, &store, 1, d), (396, 512, 2));
    'pairs: for i in 0..198u32 {
        let key = if i < 60 { i + 1 } else { i + 2 };
        assert!(&rt.0; has_pair_of(rt, &store, 1, d, i, key), "{i}");
        assert!(&rt.0; has_pair_of(rt, &store, 0, d, i, i), "{i}");
    }
    store.drop_changes(rt, 1);
    'again: for i in 0..200u32 {
        assert!(&rt.0; has_pair_of(rt, &store, 1, d, i, i), "{i}");
    }
    Ok(())
}

#[test]
fn long_dict(rt: HostRuntime) -> Tested {
    drop_in_long_dict(&TestHandle(&rt), rt.alloc(), paged(rt.alloc(), 2, 16)?)
}

/// Each segment below 8 makes a cell, which holds its number, and publishes it.
fn make_cells<S: SegStore>(
    rt: &TestHandle<impl Abort>,
    alloc: Global,
    store: &mut Bench<S>,
) -> Result<Vec<Addr>, Fail> {
    let mut cells = Vec::new(alloc);
    'segments: for k in 0..8u8 {
        let a = make(rt, alloc, store, k, Kind::Cell, &[Value::Int(i64::from(k))])?;
        cells.push(a)?;
    }
    'ends: for k in 0..8u8 {
        store.publish(rt, alloc, k)?;
    }
    Ok(cells)
}

/// The number that a segment sees in another one's cell.
fn cell_number<S: SegStore>(
    rt: &TestHandle<impl Abort>,
    store: &Bench<S>,
    cells: &[Addr],
    k: u8,
    j: u8,
) -> i64 {
    match cells.get(j as usize) {
        Some(a) => number(rt, store, k, *a, 0),
        None => panic!(&rt.0; "no cell"),
    }
}

/// A segment locks its cell, and adds 100 to its number.
fn change_cell<S: SegStore>(
    rt: &TestHandle<impl Abort>,
    store: &mut Bench<S>,
    cells: &[Addr],
    k: u8,
) {
    match cells.get(k as usize) {
        Some(a) => {
            store.lock(rt, k, *a);
            store.set(rt, k, *a, 0, Value::Int(100 + i64::from(k)));
        }
        None => panic!(&rt.0; "no cell"),
    }
}

/// Eight segments with a cell each in one page: each changes its own, and the even ones publish.
fn change_eight_cells<S: SegStore>(
    rt: &TestHandle<impl Abort>,
    alloc: Global,
    mut store: Bench<S>,
) -> Tested {
    let cells = make_cells(rt, alloc, &mut store)?;
    'changes: for k in 0..8u8 {
        change_cell(rt, &mut store, &cells, k);
    }
    'looks: for k in 0..8u8 {
        'cells: for j in 0..8u8 {
            let more = if j == k { 100 } else { 0 };
            assert_eq!(&rt.0; cell_number(rt, &store, &cells, k, j), more + i64::from(j));
        }
    }
    'ends: for k in 0..8u8 {
        if k % 2 == 0 {
            store.publish(rt, alloc, k)?;
        } else {
            store.drop_changes(rt, k);
        }
    }
    'later: for k in 0..8u8 {
        'cells: for j in 0..8u8 {
            let more = if j % 2 == 0 { 100 } else { 0 };
            assert_eq!(&rt.0; cell_number(rt, &store, &cells, k, j), more + i64::from(j));
        }
    }
    Ok(())
}

#[test]
fn eight_segments(rt: HostRuntime) -> Tested {
    change_eight_cells(&TestHandle(&rt), rt.alloc(), paged(rt.alloc(), 8, 1)?)
}
