//! `raw_input` over sources with lines, and over one that fails.
use crate::tables::{Tested, device, started, table_over};
use obj_bench::reading::outcome;
use py_data::Stop;
use stm_io::Fail;

const LINES: &[u8] = b":raw_input0 => 'ab'
:raw_input0 drop :raw_input0 => ''
:raw_input0 drop :raw_input0 drop :raw_input0 => 'cd'
:raw_input0 drop :raw_input0 drop :raw_input0 drop :raw_input0 => EOFError: EOF when reading a line
'?' :raw_input1 => 'ab'
5 :raw_input1 => 'ab'
'a' 'b' [2 :raw_input1 drop :raw_input0 => ''
'?' :raw_input1 drop '?' :raw_input1 drop '?' :raw_input1 => 'cd'
1 2 :raw_input2 => TypeError: wrong arguments
None r101 :raw_input1 => RuntimeError: maximum recursion depth exceeded
";

const NOTHING: &[u8] = b":raw_input0 => EOFError: EOF when reading a line
'?' :raw_input1 => EOFError: EOF when reading a line
";

const NEWLINE: &[u8] = b":raw_input0 => ''
:raw_input0 drop :raw_input0 => EOFError: EOF when reading a line
";

const LONG: &[u8] = b":raw_input0 len => 65536
:raw_input0 drop :raw_input0 => ''
:raw_input0 drop :raw_input0 drop :raw_input0 => 'b'
:raw_input0 drop :raw_input0 drop :raw_input0 drop :raw_input0 => EOFError: EOF when reading a line
";

const FITTING: &[u8] = b":raw_input0 len => 65535
:raw_input0 drop :raw_input0 => 'b'
";

#[test]
fn lines(rt: HostRuntime) -> Tested {
    table_over(&rt, rt.alloc(), b"ab\n\ncd", LINES)?;
    Ok(())
}

#[test]
fn nothing(rt: HostRuntime) -> Tested {
    table_over(&rt, rt.alloc(), b"", NOTHING)?;
    Ok(())
}

#[test]
fn newline(rt: HostRuntime) -> Tested {
    table_over(&rt, rt.alloc(), b"\n", NEWLINE)?;
    Ok(())
}

#[test]
fn long_line(rt: HostRuntime) -> Tested {
    let mut text = [b'a'; 65_536].to_vec(rt.alloc())?;
    text.extend_from_slice(b"\nb")?;
    table_over(&rt, rt.alloc(), text.as_slice(), LONG)?;
    Ok(())
}

#[test]
fn fitting_line(rt: HostRuntime) -> Tested {
    let mut text = [b'a'; 65_535].to_vec(rt.alloc())?;
    text.extend_from_slice(b"\nb")?;
    table_over(&rt, rt.alloc(), text.as_slice(), FITTING)?;
    Ok(())
}

/// A source that fails at its first call stops the program, and raises no exception.
#[test]
fn failing_source(rt: HostRuntime) -> Tested {
    let alloc = rt.alloc();
    let mut fails = Vec::new(alloc);
    fails.push(Fail { call: 1, bytes: 0 })?;
    let view = device(alloc, Vec::new(alloc), fails);
    let bench = started(&rt, alloc, view)?;
    assert!(rt; matches!(outcome(alloc, bench, b":raw_input0"), Err(Stop::ReadFault)));
    Ok(())
}
