//! Each call of a list once, and refusals and names by hand.
use py_base::{
    Bytes, Construct, Items, Log, Refusal, binary_number, binary_sign, builtin_name,
    builtin_number, class_name, class_number, compare_number, compare_sign, unary_number,
    unary_sign,
};
use std::process::Abort;
use std::test;

type Tested = Result<(), test::Fail>;

#[test]
fn lists(rt: HostRuntime) -> Tested {
    let alloc = rt.alloc();
    let mut items: Items<u8> = Items::new(alloc);
    assert_eq!(rt; items.len(), 0);
    items.push(7)?;
    items.extend_from_slice(&[8, 9, 10])?;
    assert_eq!(rt; items.as_slice(), [7, 8, 9, 10].as_slice());
    assert_eq!(rt; items.len(), 4);
    items.set(1, 20);
    items.remove(0);
    assert_eq!(rt; items.as_slice(), [20, 9, 10].as_slice());
    let copied = items.copy(alloc)?;
    items.truncate(2);
    assert_eq!(rt; items.as_slice(), [20, 9].as_slice());
    items.truncate(5);
    assert_eq!(rt; items.len(), 2);
    assert!(rt; copied.len() == 3);
    assert_eq!(rt; copied.at(2), 10);
    assert!(rt; matches!(copied.get(2), Some(10)));
    assert!(rt; matches!(copied.get(3), None));
    let again = Bytes::from_slice(alloc, copied.as_slice())?;
    assert_eq!(rt; again.as_slice(), [20, 9, 10].as_slice());
    Ok(())
}

#[test]
fn logs(rt: HostRuntime) -> Tested {
    let mut log: Log<u8> = Log::new(rt.alloc());
    log.push(3)?;
    log.reserve(5)?;
    for x in 4..9 {
        log.push(x)?;
    }
    assert_eq!(rt; log.len(), 6);
    assert!(rt; matches!(log.get(0), Some(3)));
    assert!(rt; matches!(log.get(5), Some(8)));
    assert!(rt; matches!(log.get(6), None));
    Ok(())
}

#[test]
fn refusals(rt: HostRuntime) {
    let construct = Construct::Lambda;
    let rows = [
        Refusal::BadCharacter { line: 1 },
        Refusal::BadDedent { line: 2 },
        Refusal::OpenString { line: 3 },
        Refusal::NumberWide { line: 4 },
        Refusal::Unexpected { line: 5 },
        Refusal::LeftOut { construct, line: 6 },
        Refusal::Deep { line: 7 },
        Refusal::Misplaced { line: 8 },
        Refusal::Doubled { line: 9 },
        Refusal::Closure { line: 10 },
        Refusal::TooLarge { line: 11 },
        Refusal::BadEscape { line: 12 },
    ];
    for refusal in rows {
        let number = refusal.number();
        assert_eq!(rt; number as u32, refusal.line(), "{refusal:?}");
    }
}

#[test]
fn names_and_numbers(rt: HostRuntime) {
    assert!(rt; unary_sign(2) == Some(b"~") && unary_number(b"~") == Some(2));
    assert!(rt; unary_sign(3) == None && unary_number(b"!") == None);
    assert!(rt; binary_sign(1) == Some(b"^") && binary_number(b"**") == Some(11));
    assert!(rt; compare_sign(7) == Some(b"not in") && compare_number(b"is not") == Some(9));
    assert!(rt; class_name(19) == Some(b"thread.error") && class_number(b"KeyError") == Some(17));
    assert!(rt; builtin_name(33) == Some(b"str.replace") && builtin_number(b"len") == Some(0));
    assert!(rt; builtin_name(53) == None && builtin_number(b"thread.join") == Some(52));
}
