//! Rooms by hand, and a list of conflicts copied.
use py_data::{
    Addr, Bytes, Change, Conflict, Conflicts, Entry, Kind, LENGTH_LIMIT, Record, Side, Value,
    Values,
};
use std::alloc::{AllocError, Global};
use std::process::Abort;
use std::test;

type Tested = Result<(), test::Fail>;

#[test]
fn conflicts(rt: HostRuntime) -> Tested {
    let writer = Side {
        segment: 0,
        thread: 1,
        begun: 1,
        solo: false,
    };
    let lost = Conflict {
        at: Addr(7),
        writer,
        other: Side {
            segment: 1,
            ..writer
        },
        asks: true,
        lost: 1,
    };
    let mut conflicts = Conflicts::new(rt.alloc());
    conflicts.push(lost)?;
    let copied = conflicts.copy(rt.alloc())?;
    conflicts.push(Conflict { lost: 0, ..lost })?;
    assert_eq!(rt; copied.len(), 1);
    assert!(rt; matches!(copied.get(0), Some(conflict) if *conflict == lost));
    Ok(())
}

/// So many values, the numbers from 0 on.
fn numbers(alloc: Global, n: u32) -> Result<Values, AllocError> {
    let mut values = Values::new(alloc);
    for i in 0..n {
        values.push(Value::Int(i as i64))?;
    }
    Ok(values)
}

/// A record that is made with so many values.
fn made(rt: &impl Abort, alloc: Global, kind: Kind, n: u32) -> Result<Entry, test::Fail> {
    let values = numbers(alloc, n)?;
    assert!(rt; values.len() <= LENGTH_LIMIT);
    let bytes = Bytes::new(alloc);
    let record = Record {
        kind,
        values,
        bytes,
    };
    Ok(Entry::of(alloc, &record)?)
}

#[test]
fn rooms_when_made(rt: HostRuntime) -> Tested {
    let rows = [
        (Kind::List, 0, 0),
        (Kind::List, 1, 1),
        (Kind::List, 2, 2),
        (Kind::List, 3, 4),
        (Kind::List, 5, 8),
        (Kind::Dict, 0, 2),
        (Kind::Dict, 2, 2),
        (Kind::Dict, 6, 8),
        (Kind::Tuple, 5, 0),
        (Kind::Cell, 1, 0),
    ];
    for (kind, n, room) in rows {
        let entry = made(&rt, rt.alloc(), kind, n)?;
        assert_eq!(rt; entry.rooms().0, room, "{kind:?} of {n}");
        assert_eq!(rt; entry.rooms().1, room, "{kind:?} of {n}");
        assert_eq!(rt; entry.values().len(), n as usize);
    }
    Ok(())
}

/// The rooms of a list after each of so many pushes.
fn rooms(
    rt: &impl Abort,
    alloc: Global,
    list: &mut Entry,
    pushes: u32,
) -> Result<Vec<usize>, test::Fail> {
    let mut rooms = Vec::new(alloc);
    for i in 0..pushes {
        assert!(rt; matches!(list.kind(), Kind::List));
        assert!(rt; list.values().len() < LENGTH_LIMIT);
        let _ = list.apply(alloc, Change::Push(Value::Int(i as i64)))?;
        rooms.push(list.rooms().0)?;
    }
    Ok(rooms)
}

#[test]
fn rooms_after_pushes(rt: HostRuntime) -> Tested {
    let mut list = made(&rt, rt.alloc(), Kind::List, 0)?;
    let after = rooms(&rt, rt.alloc(), &mut list, 5)?;
    assert_eq!(rt; after.as_slice(), [1, 2, 4, 4, 8].as_slice());
    assert_eq!(rt; list.rooms().1, 0);
    Ok(())
}

#[test]
fn changes_of_a_list(rt: HostRuntime) -> Tested {
    let alloc = rt.alloc();
    let mut list = made(&rt, alloc, Kind::List, 2)?;
    assert!(rt; matches!(list.kind(), Kind::List));
    assert!(rt; list.values().len() == 2);
    let pushed = list.apply(alloc, Change::Push(Value::None))?;
    assert_eq!(rt;
        list.values(),
        [Value::Int(0), Value::Int(1), Value::None].as_slice()
    );
    assert_eq!(rt; list.rooms(), (4, 2));
    let cut = list.apply(alloc, Change::Cut(1))?;
    assert_eq!(rt; list.values(), [Value::Int(0)].as_slice());
    assert!(rt; list.values().len() == 1);
    let set = list.apply(alloc, Change::Set(0, Value::Unset))?;
    assert_eq!(rt; list.values(), [Value::Unset].as_slice());
    list.take_back(set);
    assert_eq!(rt; list.values(), [Value::Int(0)].as_slice());
    list.take_back(cut);
    assert_eq!(rt;
        list.values(),
        [Value::Int(0), Value::Int(1), Value::None].as_slice()
    );
    list.take_back(pushed);
    assert_eq!(rt; list.values(), [Value::Int(0), Value::Int(1)].as_slice());
    assert_eq!(rt; list.rooms(), (2, 2));
    Ok(())
}

#[test]
fn changes_of_a_dictionary(rt: HostRuntime) -> Tested {
    let alloc = rt.alloc();
    let mut dict = made(&rt, alloc, Kind::Dict, 4)?;
    assert!(rt; matches!(dict.kind(), Kind::Dict));
    assert!(rt; dict.values().len() == 4);
    let key = Value::None;
    let added = dict.apply(alloc, Change::Pair(key, Value::Bool(true)))?;
    assert!(rt; dict.values().len() == 6);
    assert_eq!(rt; dict.rooms(), (8, 4));
    let dropped = dict.apply(alloc, Change::Unpair(0))?;
    let left = [Value::Int(2), Value::Int(3), key, Value::Bool(true)];
    assert_eq!(rt; dict.values(), left.as_slice());
    dict.take_back(dropped);
    let whole = [
        Value::Int(0),
        Value::Int(1),
        Value::Int(2),
        Value::Int(3),
        key,
        Value::Bool(true),
    ];
    assert_eq!(rt; dict.values(), whole.as_slice());
    dict.take_back(added);
    assert_eq!(rt; dict.values().len(), 4);
    assert_eq!(rt; dict.rooms(), (4, 4));
    Ok(())
}

#[test]
fn a_changed_copy(rt: HostRuntime) -> Tested {
    let alloc = rt.alloc();
    let list = made(&rt, alloc, Kind::List, 3)?;
    assert!(rt; matches!(list.kind(), Kind::List));
    let mut cut = list.copy(alloc)?;
    cut.apply(alloc, Change::Cut(1))?;
    assert_eq!(rt; cut.values(), [Value::Int(0)].as_slice());
    assert_eq!(rt; cut.rooms(), (4, 4));
    assert_eq!(rt; cut.bytes().len(), 0);
    assert_eq!(rt; list.values().len(), 3);
    Ok(())
}
