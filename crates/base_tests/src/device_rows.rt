//! What the devices do with ample memory.
ghost use Rattle.std.specs.Prelude.{◌≤◌};

use std::alloc::{AllocError, Global};
use std::test;
use stm_io::{
    Fail, Gate, LoadError, Loader, MemLoader, MemSink, MemSource, OpenGate, PutError, Sink, Source,
    SureLoader, SureSink, SureSource, TakeError,
};

type Tested = Result<(), test::Fail>;

/// A schedule of one failure.
fn once(alloc: Global, call: u64, bytes: usize) -> Result<Vec<Fail>, AllocError> {
    let mut fails = Vec::new(alloc);
    fails.push(Fail { call, bytes })?;
    Ok(fails)
}

/// What so many calls answer: each line with a bar behind it, and a mark in place of it where the call failed.
fn taken<S: Source>(
    alloc: Global,
    source: &mut S,
    most: usize,
    calls: usize,
) -> Result<Vec<u8>, AllocError>
    requires { 1 ≤ most }
{
    let mut all = Vec::new(alloc);
    for _ in 0..calls {
        match source.take_line(most) {
            Ok(line) => all.extend_from_slice(line.as_slice())?,
            Err(TakeError::Failed) => all.push(b'!')?,
            Err(TakeError::OutOfMemory) => return Err(AllocError),
        }
        all.push(b'|')?;
    }
    Ok(all)
}

#[test]
fn takes_each_line(rt: HostRuntime) -> Tested {
    let table: [(&[u8], usize, usize, &[u8]); 9] = [
        (b"ab\ncd", 1, 6, b"a|b|\n|c|d||"),
        (b"ab\ncd", 2, 4, b"ab|\n|cd||"),
        (b"ab\ncd", 3, 3, b"ab\n|cd||"),
        (b"ab\ncd", 65536, 3, b"ab\n|cd||"),
        (b"", 1, 1, b"|"),
        (b"", 65536, 1, b"|"),
        (b"ab\n", 65536, 2, b"ab\n||"),
        (b"\nab", 1, 4, b"\n|a|b||"),
        (b"\n\nab", 65536, 4, b"\n|\n|ab||"),
    ];
    for (text, most, calls, wanted) in table {
        assert!(rt; most >= 1);
        let mut source = SureSource::new(rt.alloc(), Vec::from_slice(rt.alloc(), text)?);
        let all = taken(rt.alloc(), &mut source, most, calls)?;
        assert_eq!(rt; all.as_slice(), wanted);
        assert!(rt; source.ends() == 1 && source.faults() == 0);
    }
    Ok(())
}

/// What four calls answer where one call is to fail, and how many ends and failures are counted then.
fn taken_as_planned(
    alloc: Global,
    call: u64,
    bytes: usize,
) -> Result<(Vec<u8>, u64, u64), AllocError> {
    let text = Vec::from_slice(alloc, b"ab\ncd")?;
    let mut source = MemSource::new(alloc, text, once(alloc, call, bytes)?);
    let all = taken(alloc, &mut source, 65536, 4)?;
    Ok((all, source.ends(), source.faults()))
}

#[test]
fn a_source_fails_as_planned(rt: HostRuntime) -> Tested {
    let table: [(u64, usize, &[u8], u64, u64); 7] = [
        (1, 0, b"!|ab\n|cd||", 1, 1),
        (1, 1, b"!|b\n|cd||", 1, 1),
        (1, 6, b"!||||", 3, 1),
        (2, 0, b"ab\n|!|cd||", 1, 1),
        (2, 1, b"ab\n|!|d||", 1, 1),
        (2, 3, b"ab\n|!|||", 2, 1),
        (5, 0, b"ab\n|cd|||", 2, 0),
    ];
    for (call, bytes, wanted, ends, faults) in table {
        let (all, ended, failed) = taken_as_planned(rt.alloc(), call, bytes)?;
        assert_eq!(rt; all.as_slice(), wanted);
        assert!(rt; ended == ends && failed == faults, "{call} {bytes}");
    }
    Ok(())
}

/// A mark for each put, by whether it failed.
fn marks<S: Sink>(alloc: Global, sink: &mut S, pieces: &[&[u8]]) -> Result<Vec<u8>, AllocError> {
    let mut all = Vec::new(alloc);
    for piece in pieces {
        all.push(match sink.put(piece) {
            Ok(()) => b'.',
            Err(PutError::Failed) => b'!',
            Err(PutError::OutOfMemory) => return Err(AllocError),
        })?;
    }
    Ok(all)
}

/// What two puts answer where one call is to fail, with what is written then, and how many failures are counted.
fn put_as_planned(alloc: Global, call: u64, bytes: usize) -> Result<(Vec<u8>, u64), AllocError> {
    let mut sink = MemSink::new(alloc, once(alloc, call, bytes)?);
    let mut all = marks(alloc, &mut sink, &[b"ab", b"cd"])?;
    all.extend_from_slice(sink.written())?;
    Ok((all, sink.faults()))
}

#[test]
fn a_sink_fails_as_planned(rt: HostRuntime) -> Tested {
    let table: [(u64, usize, &[u8], u64); 7] = [
        (1, 0, b"!.cd", 1),
        (1, 1, b"!.acd", 1),
        (1, 3, b"!.abcd", 1),
        (2, 0, b".!ab", 1),
        (2, 1, b".!abc", 1),
        (2, 3, b".!abcd", 1),
        (3, 0, b"..abcd", 0),
    ];
    for (call, bytes, wanted, faults) in table {
        let (all, failed) = put_as_planned(rt.alloc(), call, bytes)?;
        assert_eq!(rt; all.as_slice(), wanted);
        assert!(rt; failed == faults, "{call} {bytes}");
    }
    Ok(())
}

#[test]
fn a_sure_sink_takes_all(rt: HostRuntime) -> Tested {
    let mut sink = SureSink::new(rt.alloc());
    assert_eq!(rt;
        marks(rt.alloc(), &mut sink, &[b"ab", b"", b"cd"])?.as_slice(),
        b"...".as_slice()
    );
    assert_eq!(rt; sink.written(), b"abcd".as_slice());
    assert_eq!(rt; sink.faults(), 0);
    OpenGate.enter(0, 1);
    Ok(())
}

/// What is loaded for each name, at most so many bytes of it, with a bar behind it, or a mark where the call failed.
fn loaded<L: Loader>(
    alloc: Global,
    loader: &mut L,
    names: &[&str],
    most: usize,
) -> Result<Vec<u8>, AllocError> {
    let mut all = Vec::new(alloc);
    for name in names {
        match loader.load(name, most) {
            Ok(text) => all.extend_from_slice(text.as_slice())?,
            Err(LoadError::Failed) => all.push(b'!')?,
            Err(LoadError::OutOfMemory) => return Err(AllocError),
        }
        all.push(b'|')?;
    }
    Ok(all)
}

/// What five calls answer where one is to fail and two are for other names, then the last name that was asked for.
fn loaded_as_planned(
    alloc: Global,
    call: u64,
    bytes: usize,
    most: usize,
) -> Result<(Vec<u8>, u64), AllocError> {
    let name = Vec::from_slice(alloc, b"a.py")?;
    let text = Vec::from_slice(alloc, b"xyz")?;
    let mut loader = MemLoader::new(alloc, name, text, once(alloc, call, bytes)?);
    let mut all = loaded(
        alloc,
        &mut loader,
        &["a.py", "a.py", "b.py", "a.py", "a.pyc"],
        most,
    )?;
    for name in loader.asked() {
        all.extend_from_slice(name.as_slice())?;
    }
    Ok((all, loader.faults()))
}

#[test]
fn a_loader_fails_as_planned(rt: HostRuntime) -> Tested {
    let table: [(u64, usize, usize, &[u8], u64); 7] = [
        (1, 0, 4, b"!|xyz|!|xyz|!|a.pya.pyb.pya.pya.pyc", 3),
        (1, 1, 3, b"!|xyz|!|xyz|!|a.pya.pyb.pya.pya.pyc", 3),
        (1, 4, 2, b"!|xy|!|xy|!|a.pya.pyb.pya.pya.pyc", 3),
        (2, 0, 4, b"xyz|!|!|xyz|!|a.pya.pyb.pya.pya.pyc", 3),
        (2, 1, 0, b"|!|!||!|a.pya.pyb.pya.pya.pyc", 3),
        (2, 4, 1, b"x|!|!|x|!|a.pya.pyb.pya.pya.pyc", 3),
        (9, 0, 4, b"xyz|xyz|!|xyz|!|a.pya.pyb.pya.pya.pyc", 2),
    ];
    for (call, bytes, most, wanted, faults) in table {
        let (all, failed) = loaded_as_planned(rt.alloc(), call, bytes, most)?;
        assert_eq!(rt; all.as_slice(), wanted);
        assert!(rt; failed == faults, "{call} {bytes}");
    }
    Ok(())
}

#[test]
fn a_sure_loader_knows_each_name(rt: HostRuntime) -> Tested {
    let mut loader = SureLoader::new(rt.alloc(), Vec::from_slice(rt.alloc(), b"xyz")?);
    let all = loaded(rt.alloc(), &mut loader, &["a.py", "b.py"], 2)?;
    assert_eq!(rt; all.as_slice(), b"xy|xy|".as_slice());
    assert!(rt; loader.asked().len() == 2 && loader.faults() == 0);
    Ok(())
}

/// A long line is taken at once, and short ones from a long text in as many steps as there are bytes.
#[test]
fn takes_long_texts_fast(rt: HostRuntime) -> Tested {
    let long = vec![in rt.alloc(); b'a'; 4194304]?;
    let mut source = SureSource::new(rt.alloc(), long);
    assert_eq!(rt; source.take_line(4194305)?.len(), 4194304);
    let short = vec![in rt.alloc(); b'\n'; 1000000]?;
    let mut source = MemSource::new(rt.alloc(), short, Vec::new(rt.alloc()));
    let all = taken(rt.alloc(), &mut source, 4194304, 1000000)?;
    assert_eq!(rt; all.len(), 2000000);
    assert_eq!(rt; source.ends(), 0);
    Ok(())
}
