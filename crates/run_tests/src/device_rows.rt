//! Devices that fail at each of their calls in turn, before their first byte and behind it: the status, what was
//! written up to then, the conflicts, and the steps of each turn, which are those before the step that failed.
//! Written by hand from the code of the scripts.
use py_data::NoMemory;
use std::alloc::Global;
use std::process::Abort;
use std::sync::Wait;
use std::test;
use std::thread::Threads;
use top_bench::{NO_FAILURE, Plan, lines_of, report_with, told, turns, words_in};

type Tested = Result<(), test::Fail>;

/// What a script of one thread leaves, alone and on four segments.
fn check<Rt: Abort + Threads + Wait + Sync>(
    rt: &Rt,
    alloc: Global,
    script: &str,
    plan: Plan,
    wanted: &str,
) -> Tested {
    for words in ["--segments 1 -", "--segments 4 -"] {
        let left = turns(rt, alloc, words, script, plan)?;
        assert_eq!(rt; left.as_str(), wanted, "{words}: {script}");
    }
    Ok(())
}

/// SETUP, two instructions for each item, one for each newline, and two at the end; a call for each item and for each
/// newline.
#[test]
fn output_fails_at_each_call(rt: HostRuntime) -> Tested {
    let rows = [
        (1, 0, "6~~pystm: cannot write the output;~0~ 2"),
        (1, 1, "6~a~pystm: cannot write the output;~0~ 2"),
        (2, 0, "6~ab~pystm: cannot write the output;~0~ 4"),
        (2, 1, "6~ab ~pystm: cannot write the output;~0~ 4"),
        (3, 0, "6~ab 7~pystm: cannot write the output;~0~ 5"),
        (3, 1, "6~ab 7;~pystm: cannot write the output;~0~ 5"),
        (4, 0, "6~ab 7;~pystm: cannot write the output;~0~ 7"),
        (4, 1, "6~ab 7;c~pystm: cannot write the output;~0~ 7"),
        (5, 0, "6~ab 7;c~pystm: cannot write the output;~0~ 8"),
        (5, 1, "6~ab 7;c;~pystm: cannot write the output;~0~ 8"),
        (6, 0, "0~ab 7;c;~~0~ 11"),
    ];
    for (puts, bytes, wanted) in rows {
        let plan = Plan {
            puts,
            bytes,
            ..NO_FAILURE
        };
        check(&rt, rt.alloc(), "print 'ab', 7;print 'c';", plan, wanted)?;
    }
    Ok(())
}

/// The line of a thread that dies is one call, and the step that writes it the thread's last; an instruction that
/// raises is done.
#[test]
fn error_output_fails_at_each_call(rt: HostRuntime) -> Tested {
    let script = "import thread;def f(): y;thread.start_new_thread(f, ());print 1;y;";
    let rows = [
        (1, 0, "7~1;~~0~ 15"),
        (1, 1, "7~1;~t~0~ 15"),
        (
            2,
            0,
            "7~1;~thread 0, line 5: NameError: name 'y' is not defined;~0~ 16 1",
        ),
        (
            2,
            1,
            "7~1;~thread 0, line 5: NameError: name 'y' is not defined;t~0~ 16 1",
        ),
        (
            3,
            0,
            "1~1;~thread 0, line 5: NameError: name 'y' is not defined;thread 1, line 2: NameError: name 'y' is not defined;~0~ 16 2",
        ),
    ];
    for (errs, bytes, wanted) in rows {
        let plan = Plan {
            errs,
            bytes,
            ..NO_FAILURE
        };
        check(&rt, rt.alloc(), script, plan, wanted)?;
    }
    Ok(())
}

/// The text of an answer that can't be told leaves the answer as it is.
#[test]
fn the_last_text_fails(rt: HostRuntime) -> Tested {
    for (bytes, wanted) in [(0, "3~~~0~"), (1, "3~~p~0~"), (6, "3~~pystm:~0~")] {
        let plan = Plan {
            errs: 1,
            bytes,
            ..NO_FAILURE
        };
        check(&rt, rt.alloc(), "print 1 1;", plan, wanted)?;
    }
    Ok(())
}

/// The script's two lines and its end are three calls of the source, and `raw_input` is the fourth, whose prompt is
/// written.
#[test]
fn input_fails_at_each_call(rt: HostRuntime) -> Tested {
    let script = "x = raw_input('?');print x;";
    let rows = [
        (1, 0, "5~~pystm: cannot read the input;~0~"),
        (1, 1, "5~~pystm: cannot read the input;~0~"),
        (2, 0, "5~~pystm: cannot read the input;~0~"),
        (2, 1, "5~~pystm: cannot read the input;~0~"),
        (3, 0, "5~~pystm: cannot read the input;~0~"),
        (3, 1, "5~~pystm: cannot read the input;~0~"),
        (4, 0, "5~?~pystm: cannot read the input;~0~ 3"),
        (4, 1, "5~?~pystm: cannot read the input;~0~ 3"),
        (
            5,
            0,
            "1~?~thread 0, line 1: EOFError: EOF when reading a line;~0~ 5",
        ),
    ];
    for (takes, bytes, wanted) in rows {
        let plan = Plan {
            takes,
            bytes,
            ..NO_FAILURE
        };
        check(&rt, rt.alloc(), script, plan, wanted)?;
    }
    Ok(())
}

/// A script that prints two items and asks for a line, prints that, and ends by an exception.
const ASKS: &str = "print 1, 2;x = raw_input('? ');print x;[][0];";

/// What that script answers as a file, where the source has one line.
fn asked<Rt: Abort + Threads + Wait + Sync>(
    rt: &Rt,
    alloc: Global,
    plan: Plan,
) -> Result<String, NoMemory> {
    let words = words_in(alloc, "FILE")?;
    let file = lines_of(alloc, ASKS)?;
    let left = report_with(rt, alloc, words.as_slice(), b"ab\n", file.as_slice(), plan)?;
    told(alloc, &left)
}

/// Its output is six calls: two items, a newline, the prompt, the item and a newline.
#[test]
fn each_output_of_a_script_that_asks_fails(rt: HostRuntime) -> Tested {
    let rows = [
        (1, 0, "6~~pystm: cannot write the output;"),
        (1, 1, "6~1~pystm: cannot write the output;"),
        (2, 0, "6~1~pystm: cannot write the output;"),
        (2, 1, "6~1 ~pystm: cannot write the output;"),
        (3, 0, "6~1 2~pystm: cannot write the output;"),
        (3, 1, "6~1 2;~pystm: cannot write the output;"),
        (4, 0, "6~1 2;~pystm: cannot write the output;"),
        (4, 1, "6~1 2;?~pystm: cannot write the output;"),
        (5, 0, "6~1 2;? ~pystm: cannot write the output;"),
        (5, 1, "6~1 2;? a~pystm: cannot write the output;"),
        (6, 0, "6~1 2;? ab~pystm: cannot write the output;"),
        (6, 1, "6~1 2;? ab;~pystm: cannot write the output;"),
    ];
    for (puts, bytes, wanted) in rows {
        let plan = Plan {
            puts,
            bytes,
            ..NO_FAILURE
        };
        let shown = asked(&rt, rt.alloc(), plan)?;
        assert_eq!(rt; shown.as_str(), wanted, "call {puts}, {bytes} bytes");
    }
    Ok(())
}

/// What that script answers where no device fails.
const ASKED: &str = "1~1 2;? ab;~thread 0, line 4: IndexError: index out of range;";

/// The other devices of that script fail at their first calls. A seventh call of the output and a second one of the
/// error output are never made.
#[test]
fn each_device_of_a_script_that_asks_fails(rt: HostRuntime) -> Tested {
    let none = NO_FAILURE;
    let rows = [
        (none, ASKED),
        (Plan { puts: 7, ..none }, ASKED),
        (Plan { errs: 2, ..none }, ASKED),
        (Plan { errs: 1, ..none }, "7~1 2;? ab;~"),
        (
            Plan { takes: 1, ..none },
            "5~1 2;? ~pystm: cannot read the input;",
        ),
        (
            Plan { loads: 1, ..none },
            "4~~pystm: cannot load the script;",
        ),
    ];
    for (plan, wanted) in rows {
        let shown = asked(&rt, rt.alloc(), plan)?;
        assert_eq!(rt; shown.as_str(), wanted);
    }
    Ok(())
}

/// A script that asks until there is no more line, and then once more.
const ASKS_ON: &str =
    "n = 0;try:;  while 1:;    raw_input();    n += 1;except EOFError:;  print n;raw_input();";

/// What it answers from the source or as a file, over a source that has these bytes, with the ends that the source
/// has counted.
fn asked_on<Rt: Abort + Threads + Wait + Sync>(
    rt: &Rt,
    alloc: Global,
    word: &str,
    source: &str,
    plan: Plan,
) -> Result<String, NoMemory> {
    let words = words_in(alloc, word)?;
    let input = lines_of(alloc, source)?;
    let file = lines_of(alloc, ASKS_ON)?;
    let left = report_with(
        rt,
        alloc,
        words.as_slice(),
        input.as_slice(),
        file.as_slice(),
        plan,
    )?;
    let shown = told(alloc, &left)?;
    format!(in alloc; "{shown}~{}", left.input.ends())
}

/// The source counts an end for each empty line that the run took, and one more where the script was the source's.
#[test]
fn a_run_counts_the_ends_of_its_input(rt: HostRuntime) -> Tested {
    let none = NO_FAILURE;
    let rows = [
        (
            "-",
            ASKS_ON,
            none,
            "1~0;~thread 0, line 8: EOFError: EOF when reading a line;~3",
        ),
        (
            "FILE",
            "a;b;",
            none,
            "1~2;~thread 0, line 8: EOFError: EOF when reading a line;~2",
        ),
        (
            "FILE",
            "a;b;",
            Plan { takes: 3, ..none },
            "5~~pystm: cannot read the input;~0",
        ),
        (
            "FILE",
            "a;b;",
            Plan { takes: 4, ..none },
            "5~2;~pystm: cannot read the input;~1",
        ),
    ];
    for (word, source, plan, wanted) in rows {
        let shown = asked_on(&rt, rt.alloc(), word, source, plan)?;
        assert_eq!(rt; shown.as_str(), wanted, "{word}");
    }
    Ok(())
}
