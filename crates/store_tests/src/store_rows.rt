//! Rows of a store with one or two segments: a cell that both see, a list, dictionaries and a string. Each row is tried
//! on a store of maps and on a store of pages.
use crate::acts::{make_cell, maps, paged};
use crate::handle::TestHandle;
use py_data::{Addr, Kind, Value};
use seg_store::SegStore;
use std::alloc::Global;
use std::process::Abort;
use std::test::Fail;
use store_bench::Bench;
use store_bench::acts::{make, make_text, number, push_numbers, size};

type Tested = Result<(), Fail>;

/// Made records are seen by their segment alone before they are published, and by both after.
fn published<S: SegStore>(
    rt: &TestHandle<impl Abort>,
    alloc: Global,
    mut store: Bench<S>,
) -> Tested {
    let a = make_cell(rt, alloc, &mut store, 0, 5)?;
    let b = make_cell(rt, alloc, &mut store, 0, 6)?;
    assert!(&rt.0; a.0 != b.0);
    assert!(&rt.0; store.holds(0, a) && !store.there(1, a));
    assert_eq!(&rt.0; number(rt, &store, 0, a, 0), 5);
    store.publish(rt, alloc, 0)?;
    assert!(&rt.0; store.holder(a).is_none());
    assert_eq!(&rt.0; number(rt, &store, 1, a, 0), 5);
    assert!(&rt.0; store.peek_kind(rt, b) == Kind::Cell && store.peek_len(rt, b) == 1);
    assert!(&rt.0; store.peek_val(rt, b, 0) == Value::Int(6));
    Ok(())
}

#[test]
fn published_maps(rt: HostRuntime) -> Tested {
    published(&TestHandle(&rt), rt.alloc(), maps(rt.alloc(), 2)?)
}

#[test]
fn published_pages(rt: HostRuntime) -> Tested {
    published(&TestHandle(&rt), rt.alloc(), paged(rt.alloc(), 2, 1)?)
}

/// A cell of the image, which holds 5.
fn one_cell<S: SegStore>(
    rt: &TestHandle<impl Abort>,
    alloc: Global,
    store: &mut Bench<S>,
) -> Result<Addr, Fail> {
    let a = make_cell(rt, alloc, store, 0, 5)?;
    store.publish(rt, alloc, 0)?;
    Ok(a)
}

/// A locked record is changed for its segment alone; dropped, it is the image's again. The look stays.
fn locked_and_dropped<S: SegStore>(
    rt: &TestHandle<impl Abort>,
    alloc: Global,
    mut store: Bench<S>,
) -> Tested {
    let a = one_cell(rt, alloc, &mut store)?;
    store.lock(rt, 1, a);
    assert_eq!(&rt.0; store.changed_len(rt, 1), 1);
    assert_eq!(&rt.0; store.changed_at(rt, 1, 0).0, a.0);
    store.set(rt, 1, a, 0, Value::Int(7));
    assert_eq!(&rt.0; number(rt, &store, 1, a, 0), 7);
    assert_eq!(&rt.0; number(rt, &store, 0, a, 0), 5);
    assert!(&rt.0; store.has_looked(rt, 1, a) && !store.has_looked(rt, 0, a));
    store.drop_changes(rt, 1);
    assert_eq!(&rt.0; number(rt, &store, 1, a, 0), 5);
    assert!(&rt.0; store.holder(a).is_none());
    assert!(&rt.0; store.has_looked(rt, 1, a));
    Ok(())
}

#[test]
fn locked_and_dropped_maps(rt: HostRuntime) -> Tested {
    locked_and_dropped(&TestHandle(&rt), rt.alloc(), maps(rt.alloc(), 2)?)
}

#[test]
fn locked_and_dropped_pages(rt: HostRuntime) -> Tested {
    locked_and_dropped(&TestHandle(&rt), rt.alloc(), paged(rt.alloc(), 2, 1)?)
}

/// A step that is taken back leaves what stood before it, and the lock.
fn taken_back<S: SegStore>(
    rt: &TestHandle<impl Abort>,
    alloc: Global,
    mut store: Bench<S>,
) -> Tested {
    let a = one_cell(rt, alloc, &mut store)?;
    store.lock(rt, 1, a);
    store.set(rt, 1, a, 0, Value::Int(7));
    store.open_step(rt, 1);
    store.set(rt, 1, a, 0, Value::Int(8));
    store.set(rt, 1, a, 0, Value::Int(9));
    let b = make_cell(rt, alloc, &mut store, 1, 1)?;
    store.undo_step(rt, 1);
    assert_eq!(&rt.0; number(rt, &store, 1, a, 0), 7);
    assert!(&rt.0; !store.there(1, b));
    assert!(&rt.0; store.holds(1, a));
    Ok(())
}

#[test]
fn taken_back_maps(rt: HostRuntime) -> Tested {
    taken_back(&TestHandle(&rt), rt.alloc(), maps(rt.alloc(), 2)?)
}

#[test]
fn taken_back_pages(rt: HostRuntime) -> Tested {
    taken_back(&TestHandle(&rt), rt.alloc(), paged(rt.alloc(), 2, 1)?)
}

/// A begin forgets the looks of its segment alone.
fn begun<S: SegStore>(rt: &TestHandle<impl Abort>, alloc: Global, mut store: Bench<S>) -> Tested {
    let a = one_cell(rt, alloc, &mut store)?;
    store.mark(rt, 1, a);
    store.mark(rt, 1, a);
    assert!(&rt.0; store.has_looked(rt, 1, a) && !store.has_looked(rt, 0, a));
    store.begin(rt, 0);
    assert!(&rt.0; store.has_looked(rt, 1, a));
    store.begin(rt, 1);
    assert!(&rt.0; !store.has_looked(rt, 1, a));
    Ok(())
}

#[test]
fn begun_maps(rt: HostRuntime) -> Tested {
    begun(&TestHandle(&rt), rt.alloc(), maps(rt.alloc(), 2)?)
}

#[test]
fn begun_pages(rt: HostRuntime) -> Tested {
    begun(&TestHandle(&rt), rt.alloc(), paged(rt.alloc(), 2, 1)?)
}

/// One look at a record shows its kind, its count and its first values, or its kind and one value; Unset where it has
/// none there, as a string has nowhere.
fn looked_at<S: SegStore>(
    rt: &TestHandle<impl Abort>,
    alloc: Global,
    mut store: Bench<S>,
) -> Tested {
    let a = make(rt, alloc, &mut store, 0, Kind::List, &[])?;
    assert_eq!(&rt.0; store.head(rt, 0, a).count, 0);
    push_numbers(rt, &mut store, 0, a, 5, 7);
    let two = store.head(rt, 0, a);
    assert!(&rt.0; two.kind == Kind::List && two.count == 2);
    assert!(&rt.0;
        two.first == Value::Int(5) && two.second == Value::Int(6) && two.third == Value::Unset
    );
    assert!(&rt.0; store.find_val(rt, 0, a, 1) == (Kind::List, Value::Int(6)));
    assert!(&rt.0; store.find_val(rt, 0, a, 2) == (Kind::List, Value::Unset));
    push_numbers(rt, &mut store, 0, a, 7, 9);
    let four = store.head(rt, 0, a);
    assert!(&rt.0; four.count == 4 && four.third == Value::Int(7));
    let s = make_text(rt, alloc, &mut store, 0, b"four")?;
    let text = store.head(rt, 0, s);
    assert!(&rt.0; text.kind == Kind::Str && text.count == 0 && text.first == Value::Unset);
    assert!(&rt.0; store.find_val(rt, 0, s, 0) == (Kind::Str, Value::Unset));
    Ok(())
}

#[test]
fn looked_at_maps(rt: HostRuntime) -> Tested {
    looked_at(&TestHandle(&rt), rt.alloc(), maps(rt.alloc(), 1)?)
}

#[test]
fn looked_at_pages(rt: HostRuntime) -> Tested {
    looked_at(&TestHandle(&rt), rt.alloc(), paged(rt.alloc(), 1, 1)?)
}

/// A list that grows and is cut.
fn lists<S: SegStore>(rt: &TestHandle<impl Abort>, alloc: Global, mut store: Bench<S>) -> Tested {
    let a = make(rt, alloc, &mut store, 0, Kind::List, &[])?;
    assert_eq!(&rt.0; size(rt, &store, 0, a), (0, 0, 0));
    push_numbers(rt, &mut store, 0, a, 0, 3);
    assert_eq!(&rt.0; size(rt, &store, 0, a), (3, 4, 0));
    store.cut(rt, 0, a, 1);
    assert_eq!(&rt.0; size(rt, &store, 0, a), (1, 4, 0));
    assert_eq!(&rt.0; number(rt, &store, 0, a, 0), 0);
    Ok(())
}

#[test]
fn lists_maps(rt: HostRuntime) -> Tested {
    lists(&TestHandle(&rt), rt.alloc(), maps(rt.alloc(), 1)?)
}

#[test]
fn lists_pages(rt: HostRuntime) -> Tested {
    lists(&TestHandle(&rt), rt.alloc(), paged(rt.alloc(), 1, 1)?)
}

/// A dictionary with one pair, which is found and dropped.
fn dictionaries<S: SegStore>(
    rt: &TestHandle<impl Abort>,
    alloc: Global,
    mut store: Bench<S>,
) -> Tested {
    let d = make(rt, alloc, &mut store, 0, Kind::Dict, &[])?;
    assert_eq!(&rt.0; size(rt, &store, 0, d), (0, 2, 2));
    store.pair(rt, 0, d, Value::Int(4), Value::Int(40));
    assert!(&rt.0; matches!(store.find_key(rt, 0, d, Value::Int(4)), Some(0)));
    assert!(&rt.0; store.find_key(rt, 0, d, Value::Int(5)).is_none());
    store.unpair(rt, 0, d, 0);
    assert_eq!(&rt.0; size(rt, &store, 0, d), (0, 2, 2));
    Ok(())
}

#[test]
fn dictionaries_maps(rt: HostRuntime) -> Tested {
    dictionaries(&TestHandle(&rt), rt.alloc(), maps(rt.alloc(), 1)?)
}

#[test]
fn dictionaries_pages(rt: HostRuntime) -> Tested {
    dictionaries(&TestHandle(&rt), rt.alloc(), paged(rt.alloc(), 1, 1)?)
}

/// A string, and two bytes of it.
fn strings<S: SegStore>(rt: &TestHandle<impl Abort>, alloc: Global, mut store: Bench<S>) -> Tested {
    let a = make_text(rt, alloc, &mut store, 0, b"text")?;
    assert_eq!(&rt.0; size(rt, &store, 0, a), (4, 0, 0));
    let mut two = [0; 2];
    store.copy_bytes(rt, 0, a, 1, &mut two);
    assert_eq!(&rt.0; two, *b"ex");
    Ok(())
}

#[test]
fn strings_maps(rt: HostRuntime) -> Tested {
    strings(&TestHandle(&rt), rt.alloc(), maps(rt.alloc(), 1)?)
}

#[test]
fn strings_pages(rt: HostRuntime) -> Tested {
    strings(&TestHandle(&rt), rt.alloc(), paged(rt.alloc(), 1, 1)?)
}

/// The place of a new string of these bytes as a key.
fn place_of<S: SegStore>(
    rt: &TestHandle<impl Abort>,
    alloc: Global,
    store: &mut Bench<S>,
    d: Addr,
    text: &[u8],
) -> Result<Option<usize>, Fail> {
    let s = make_text(rt, alloc, store, 0, text)?;
    Ok(store.find_key(rt, 0, d, Value::Ref(s)))
}

/// A string with the bytes of a key is that key, and one that has another byte or another length is not.
fn text_keys<S: SegStore>(
    rt: &TestHandle<impl Abort>,
    alloc: Global,
    mut store: Bench<S>,
) -> Tested {
    let d = make(rt, alloc, &mut store, 0, Kind::Dict, &[])?;
    let long = make_text(rt, alloc, &mut store, 0, b"twelve bytes")?;
    let short = make_text(rt, alloc, &mut store, 0, b"8 bytes.")?;
    store.pair(rt, 0, d, Value::Ref(long), Value::Int(1));
    store.pair(rt, 0, d, Value::Ref(short), Value::Int(2));
    assert!(&rt.0; place_of(rt, alloc, &mut store, d, b"twelve bytes")? == Some(0));
    assert!(&rt.0; place_of(rt, alloc, &mut store, d, b"8 bytes.")? == Some(1));
    assert!(&rt.0; place_of(rt, alloc, &mut store, d, b"twelve byteS")?.is_none());
    assert!(&rt.0; place_of(rt, alloc, &mut store, d, b"twelve bYtes")?.is_none());
    assert!(&rt.0; place_of(rt, alloc, &mut store, d, b"Twelve bytes")?.is_none());
    assert!(&rt.0; place_of(rt, alloc, &mut store, d, b"twelve byte")?.is_none());
    assert!(&rt.0; place_of(rt, alloc, &mut store, d, b"8 bytes.\0")?.is_none());
    assert!(&rt.0; place_of(rt, alloc, &mut store, d, b"")?.is_none());
    Ok(())
}

#[test]
fn text_keys_maps(rt: HostRuntime) -> Tested {
    text_keys(&TestHandle(&rt), rt.alloc(), maps(rt.alloc(), 1)?)
}

#[test]
fn text_keys_pages(rt: HostRuntime) -> Tested {
    text_keys(&TestHandle(&rt), rt.alloc(), paged(rt.alloc(), 1, 1)?)
}
