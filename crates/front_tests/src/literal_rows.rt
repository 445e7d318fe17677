//! Values by hand, from Python 2.7's rules for literals and for `repr`.
use py_text::{TextError, print_int, read_int, repr_bytes, unescape};
use std::alloc::Global;

fn is_unescaped(alloc: Global, body: &[u8], raw: bool, want: &[u8]) -> bool {
    match unescape(alloc, body, raw) {
        Ok(text) => text.as_slice() == want,
        Err(_) => false,
    }
}

#[test]
fn unescapes(rt: HostRuntime) {
    let rows: [(&[u8], bool, &[u8]); 22] = [
        (b"", false, b""),
        (b"abc", false, b"abc"),
        (b"a\\\nb", false, b"ab"),
        (b"a\\\r\nb", false, b"ab"),
        (b"a\r\nb\rc", false, b"a\nb\nc"),
        (b"\\\\\\'\\\"", false, b"\\'\""),
        (
            b"\\a\\b\\f\\n\\r\\t\\v",
            false,
            b"\x07\x08\x0c\x0a\x0d\x09\x0b",
        ),
        (b"\\0", false, b"\x00"),
        (b"\\101\\1018", false, b"AA8"),
        (b"\\7777", false, b"\xff7"),
        (b"\\18", false, b"\x018"),
        (b"\\400", false, b"\x00"),
        (b"\\x41\\x7e", false, b"A~"),
        (b"\\xfF\\x0a", false, b"\xff\n"),
        (b"\\x414", false, b"A4"),
        (b"\\q\\8\\N", false, b"\\q\\8\\N"),
        (b"\\u0041", false, b"\\u0041"),
        (b"\\n", true, b"\\n"),
        (b"\\x4", true, b"\\x4"),
        (b"\\\r\n", true, b"\\\n"),
        (b"\\'", true, b"\\'"),
        (b"\xc3\xa9", false, b"\xc3\xa9"),
    ];
    for (body, raw, want) in rows {
        assert!(rt; is_unescaped(rt.alloc(), body, raw, want), "{body:?}");
    }
}

#[test]
fn refuses_escapes(rt: HostRuntime) {
    let rows: [&[u8]; 6] = [b"\\x", b"\\x4", b"\\x4g", b"ab\\xg1", b"\\", b"\\x41\\xz"];
    for body in rows {
        let refused = match unescape(rt.alloc(), body, false) {
            Err(TextError::BadEscape) => true,
            _ => false,
        };
        assert!(rt; refused, "{body:?}");
    }
}

#[test]
fn writes_strings(rt: HostRuntime) {
    let rows: [(&[u8], &[u8]); 9] = [
        (b"", b"''"),
        (b"abc", b"'abc'"),
        (b"it's", b"\"it's\""),
        (b"say \"x\"", b"'say \"x\"'"),
        (b"'\"", b"'\\'\"'"),
        (b"\\", b"'\\\\'"),
        (b"\t\n\r", b"'\\t\\n\\r'"),
        (b"\x00\x1f\x7f\xff", b"'\\x00\\x1f\\x7f\\xff'"),
        (b" ~", b"' ~'"),
    ];
    for (bytes, want) in rows {
        let same = match repr_bytes(rt.alloc(), bytes) {
            Ok(text) => text.as_slice() == want,
            Err(_) => false,
        };
        assert!(rt; same, "{bytes:?}");
    }
}

#[test]
fn prints_integers(rt: HostRuntime) {
    let rows: [(i64, &[u8]); 5] = [
        (0, b"0"),
        (-1, b"-1"),
        (1000, b"1000"),
        (i64::MAX, b"9223372036854775807"),
        (i64::MIN, b"-9223372036854775808"),
    ];
    for (n, want) in rows {
        let same = match print_int(rt.alloc(), n) {
            Ok(text) => text.as_slice() == want,
            Err(_) => false,
        };
        assert!(rt; same, "{n}");
    }
}

#[test]
fn reads_integers(rt: HostRuntime) {
    assert!(rt; read_int(b"0", 10) == Ok(0));
    assert!(rt; read_int(b"9223372036854775807", 10) == Ok(i64::MAX));
    assert!(rt; read_int(b"9223372036854775808", 10) == Err(TextError::Wide));
    assert!(rt; read_int(b"0777", 8) == Ok(511));
    assert!(rt; read_int(b"7fffFFFFffffffff", 16) == Ok(i64::MAX));
    assert!(rt; read_int(b"8000000000000000", 16) == Err(TextError::Wide));
    assert!(rt; read_int(b"101", 2) == Ok(5));
}
