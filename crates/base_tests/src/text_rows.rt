//! Parts of texts, as Python 2.7 has them.
use obj_str::{find, replaced, strip};
use std::test;

type Tested = Result<(), test::Fail>;

#[test]
fn places_of_parts(rt: HostRuntime) {
    assert_eq!(rt; find(b"abcabc", b"bc"), Some(1));
    assert_eq!(rt; find(b"aab", b"ab"), Some(1));
    assert_eq!(rt; find(b"abc", b"d"), None);
    assert_eq!(rt; find(b"abc", b""), Some(0));
    assert_eq!(rt; find(b"", b"a"), None);
}

#[test]
fn texts_without_blanks(rt: HostRuntime) {
    assert_eq!(rt; strip(b"\t a b\x0b\r\n"), b"a b".as_slice());
    assert_eq!(rt; strip(b" \x0c "), b"".as_slice());
}

#[test]
fn parts_that_are_replaced(rt: HostRuntime) -> Tested {
    let alloc = rt.alloc();
    for (bytes, old, new, wanted) in [
        (
            b"aaa".as_slice(),
            b"aa".as_slice(),
            b"b".as_slice(),
            b"ba".as_slice(),
        ),
        (
            b"ab".as_slice(),
            b"".as_slice(),
            b"-".as_slice(),
            b"-a-b-".as_slice(),
        ),
    ] {
        let text = replaced(alloc, bytes, old, new)?;
        assert!(rt; text.is_some_and(|t| t.as_slice() == wanted));
    }
    Ok(())
}
