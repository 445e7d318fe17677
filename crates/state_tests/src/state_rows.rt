//! Calls, returns and exceptions, step by step.
use lock_run::{Life, Outcome};
use py_base::NoMemory;
use py_code::{Codes, Program, Roots};
use py_data::{Addr, Items, Value, Values};
use py_frames::{Entered, Frame, Next, Pushed};
use py_states::ThreadState;
use std::alloc::Global;
use std::test::Fail;

fn frame(alloc: Global, code: u32, slots: &[Value], stack: &[Value]) -> Result<Frame, NoMemory> {
    let slots = Values::from_slice(alloc, slots)?;
    let stack = Values::from_slice(alloc, stack)?;
    Ok(Frame {
        code,
        pc: 0,
        slots,
        stack,
        blocks: Items::new(alloc),
        made: Value::Unset,
        names: None,
    })
}

fn program(alloc: Global) -> Program {
    Program {
        codes: Codes::new(alloc),
        roots: Roots::new(alloc),
    }
}

/// A thread in a frame of code 2, whose one slot has 10, and whose stack has 11 and 12.
fn begun(alloc: Global) -> Result<ThreadState, NoMemory> {
    let frame = frame(
        alloc,
        2,
        &[Value::Int(10)],
        &[Value::Int(11), Value::Int(12)],
    )?;
    ThreadState::entered(alloc, 4, Some(Addr(7)), None, &frame)
}

/// The same with an open block of handler 9, in a call of code 5 that has taken a 13.
fn called(alloc: Global) -> Result<ThreadState, NoMemory> {
    let mut thread = begun(alloc)?;
    let program = program(alloc);
    thread.settle(&program, 0, Next::Opens(9))?;
    thread.settle(&program, 0, Next::Goes(Pushed::one(Value::Int(13))))?;
    let frame = frame(alloc, 5, &[Value::Int(20), Value::Unset], &[Value::Int(21)])?;
    thread.settle(&program, 1, Next::Enters(Entered::new(alloc, frame)?))?;
    Ok(thread)
}

#[test]
fn a_call(rt: HostRuntime) -> Result<(), Fail> {
    let thread = called(rt.alloc())?;
    assert_eq!(rt; thread.depth(), 2);
    assert_eq!(rt; (thread.code(), thread.pc()), (5, 0));
    assert_eq!(rt; thread.slots(), [Value::Int(20), Value::Unset].as_slice());
    assert_eq!(rt; thread.operands(9), [Value::Int(21)].as_slice());
    Ok(())
}

#[test]
fn a_return(rt: HostRuntime) -> Result<(), Fail> {
    let mut thread = called(rt.alloc())?;
    let program = program(rt.alloc());
    let first = thread.settle(&program, 1, Next::Leaves(Value::Int(30)))?;
    assert_eq!(rt; first, Outcome::Done);
    assert_eq!(rt; (thread.code(), thread.pc()), (2, 3));
    assert_eq!(rt;
        thread.operands(2),
        [Value::Int(12), Value::Int(30)].as_slice()
    );
    let last = thread.settle(&program, 1, Next::Leaves(Value::None))?;
    assert_eq!(rt; last, Outcome::Ended);
    assert_eq!(rt; thread.life(), Life::Ended);
    Ok(())
}

#[test]
fn an_exception(rt: HostRuntime) -> Result<(), Fail> {
    let mut thread = called(rt.alloc())?;
    let program = program(rt.alloc());
    thread.settle(&program, 0, Next::Throws(Value::Ref(Addr(40))))?;
    assert_eq!(rt; (thread.depth(), thread.code(), thread.pc()), (1, 2, 9));
    assert_eq!(rt; thread.operand(3, 2), Value::Ref(Addr(40)));
    assert_eq!(rt; thread.height(), 3);
    thread.settle(&program, 0, Next::Throws(Value::Ref(Addr(41))))?;
    assert_eq!(rt; thread.depth(), 1);
    assert!(rt; thread.dying().is_some());
    thread.end();
    assert_eq!(rt; thread.life(), Life::Failed);
    Ok(())
}

/// A thread as begun, where a value took the place of `n` operands.
fn given(alloc: Global, n: usize) -> Result<ThreadState, NoMemory> {
    let mut thread = begun(alloc)?;
    thread.gives(n, Value::Int(30));
    Ok(thread)
}

#[test]
fn a_value_in_place(rt: HostRuntime) -> Result<(), Fail> {
    let on_top = given(rt.alloc(), 0)?;
    assert_eq!(rt;
        on_top.operands(9),
        [Value::Int(11), Value::Int(12), Value::Int(30)].as_slice()
    );
    let for_one = given(rt.alloc(), 1)?;
    assert_eq!(rt;
        for_one.operands(9),
        [Value::Int(11), Value::Int(30)].as_slice()
    );
    let for_two = given(rt.alloc(), 2)?;
    assert_eq!(rt; for_two.operands(9), [Value::Int(30)].as_slice());
    let for_all = given(rt.alloc(), 3)?;
    assert_eq!(rt; for_all.operands(9), [Value::Int(30)].as_slice());
    assert_eq!(rt; for_all.slots(), [Value::Int(10)].as_slice());
    assert_eq!(rt; (for_all.code(), for_all.pc()), (2, 1));
    Ok(())
}

/// A thread as begun, with so many values more.
fn filled(alloc: Global, count: usize) -> Result<ThreadState, NoMemory> {
    let mut thread = begun(alloc)?;
    for _ in 0..count {
        thread.gives(0, Value::Int(31));
    }
    Ok(thread)
}

#[test]
fn values_beyond_the_room(rt: HostRuntime) -> Result<(), Fail> {
    let thread = filled(rt.alloc(), 40)?;
    assert_eq!(rt; (thread.height(), thread.pc()), (42, 40));
    assert_eq!(rt; thread.operands(41).first(), Some(&Value::Int(12)));
    assert_eq!(rt; thread.operand(40, 0), Value::Int(31));
    assert_eq!(rt; thread.operand(40, 39), Value::Int(31));
    Ok(())
}

#[test]
fn no_value(rt: HostRuntime) -> Result<(), Fail> {
    let mut thread = begun(rt.alloc())?;
    assert!(rt; thread.passes_on(0));
    assert_eq!(rt; (thread.height(), thread.pc()), (2, 1));
    assert!(rt; thread.jumps_on(1, 7));
    assert_eq!(rt; thread.operands(9), [Value::Int(11)].as_slice());
    assert_eq!(rt; thread.pc(), 7);
    assert!(rt; thread.passes_on(2));
    assert_eq!(rt; (thread.height(), thread.pc()), (0, 8));
    assert_eq!(rt; thread.slots(), [Value::Int(10)].as_slice());
    thread.end();
    assert!(rt; !thread.passes_on(0));
    assert!(rt; !thread.gives(0, Value::None));
    Ok(())
}

#[test]
fn a_value_in_a_slot(rt: HostRuntime) -> Result<(), Fail> {
    let mut thread = begun(rt.alloc())?;
    assert!(rt; thread.keeps(1, 0, Value::Int(12)));
    assert_eq!(rt; thread.slots(), [Value::Int(12)].as_slice());
    assert_eq!(rt; thread.operands(9), [Value::Int(11)].as_slice());
    assert!(rt; thread.keeps(2, 1, Value::Int(13)));
    assert_eq!(rt; thread.slots(), [Value::Int(12)].as_slice());
    assert_eq!(rt; (thread.height(), thread.pc()), (0, 2));
    Ok(())
}

#[test]
fn a_copy(rt: HostRuntime) -> Result<(), Fail> {
    let mut thread = called(rt.alloc())?;
    let copy = thread.copy(rt.alloc())?;
    assert!(rt; thread.same(&copy));
    let program = program(rt.alloc());
    thread.settle(&program, 0, Next::Stores(1, Value::Int(22)))?;
    assert!(rt; !thread.same(&copy));
    assert_eq!(rt; thread.slot(1), Value::Int(22));
    assert_eq!(rt; copy.slot(1), Value::Unset);
    Ok(())
}
