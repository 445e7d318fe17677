//! The top call over devices in memory. Written by hand, the outputs as Python 2.7 prints them.
use py_data::NoMemory;
use std::alloc::Global;
use std::process::Abort;
use std::sync::Wait;
use std::test;
use std::thread::Threads;
use stm_top::SCRIPT_LIMIT;
use top_bench::{
    NO_FAILURE, Plan, SCRIPTS, lines_of, report, report_with, source_word, told, turns, words_in,
};

type Tested = Result<(), test::Fail>;

/// What a script answers, in which `;` stands for a newline.
fn answer<Rt: Abort + Threads + Wait + Sync>(
    rt: &Rt,
    alloc: Global,
    script: &str,
    plan: Plan,
) -> Result<String, NoMemory> {
    let bytes = lines_of(alloc, script)?;
    let words = source_word(alloc)?;
    told(
        alloc,
        &report(rt, alloc, words.as_slice(), bytes.as_slice(), plan)?,
    )
}

fn check_scripts<Rt: Abort + Threads + Wait + Sync>(
    rt: &Rt,
    alloc: Global,
    rows: &str,
) -> Result<usize, test::Fail> {
    let mut count = 0usize;
    for row in rows.split('\n') {
        let (script, wanted) = row.split_once('|').ok_or("a row without an answer")?;
        let shown = answer(rt, alloc, script, NO_FAILURE)?;
        assert_eq!(rt; shown.as_str(), wanted, "{script}");
        count = count.saturating_add(1);
    }
    Ok(count)
}

#[test]
fn runs_scripts(rt: HostRuntime) -> Tested {
    assert_eq!(rt; check_scripts(&rt, rt.alloc(), SCRIPTS)?, 18);
    Ok(())
}

/// What words answer that are separated by spaces, with what was asked of the loader and of the source.
fn word_answer<Rt: Abort + Threads + Wait + Sync>(
    rt: &Rt,
    alloc: Global,
    text: &str,
    plan: Plan,
) -> Result<String, NoMemory> {
    let words = words_in(alloc, text)?;
    let left = report(rt, alloc, words.as_slice(), b"print 2\n", plan)?;
    let told = told(alloc, &left)?;
    let asked = left.loader.asked().len();
    format!(in alloc; "{told}~{asked}~{}", left.input.ends())
}

#[test]
fn words_are_refused(rt: HostRuntime) -> Tested {
    let usage =
        "2~~pystm: usage: pystm [--segments N] [--length N] [--pages N] [--budget N] FILE, - or --demo N;~0~0";
    for text in [
        "",
        "a b",
        "- -",
        "--demo",
        "--segments 9 a",
        "--pages +4 a",
        "--demo 7 a",
        "-h",
    ] {
        let shown = word_answer(&rt, rt.alloc(), text, NO_FAILURE)?;
        assert_eq!(rt; shown.as_str(), usage, "{text:?}");
    }
    Ok(())
}

/// A script comes from the source, or from the file of the one name that the loader knows.
#[test]
fn words_name_scripts(rt: HostRuntime) -> Tested {
    for text in ["-", "-- -", "--segments 4 -", "--length=1 --pages 2 -"] {
        let shown = word_answer(&rt, rt.alloc(), text, NO_FAILURE)?;
        assert_eq!(rt; shown.as_str(), "0~2;~~0~1", "{text:?}");
    }
    for text in ["FILE", "-- FILE", "FILE --segments=1"] {
        let shown = word_answer(&rt, rt.alloc(), text, NO_FAILURE)?;
        assert_eq!(rt; shown.as_str(), "0~1;~~1~0", "{text:?}");
    }
    let other = word_answer(&rt, rt.alloc(), "OTHER", NO_FAILURE)?;
    assert_eq!(rt; other.as_str(), "4~~pystm: cannot load the script;~1~0");
    let plan = Plan {
        loads: 1,
        ..NO_FAILURE
    };
    let failed = word_answer(&rt, rt.alloc(), "FILE", plan)?;
    assert_eq!(rt; failed.as_str(), "4~~pystm: cannot load the script;~1~0");
    Ok(())
}

/// A turn has at most the length's steps, and with the budget's steps no turn begins any more.
#[test]
fn budget_is_spent(rt: HostRuntime) -> Tested {
    let shown = turns(
        &rt,
        rt.alloc(),
        "--budget 5000 -",
        "while 1: pass;",
        NO_FAILURE,
    )?;
    assert_eq!(rt;
        shown.as_str(),
        "10~~pystm: budget spent: 5000 steps;~0~ 1000 1000 1000 1000 1000"
    );
    let shown = turns(
        &rt,
        rt.alloc(),
        "--budget 5 --length 2 --segments 1 -",
        "while 1: pass;",
        NO_FAILURE,
    )?;
    assert_eq!(rt;
        shown.as_str(),
        "10~~pystm: budget spent: 6 steps;~0~ 2 2 2"
    );
    let shown = turns(&rt, rt.alloc(), "-", "", NO_FAILURE)?;
    assert_eq!(rt; shown.as_str(), "0~~~0~ 3");
    Ok(())
}

/// What a script of so many times this piece answers.
fn pieces<Rt: Abort + Threads + Wait + Sync>(
    rt: &Rt,
    alloc: Global,
    piece: &[u8],
    count: usize,
) -> Result<String, NoMemory> {
    let mut script = Vec::new(alloc);
    for _ in 0..count {
        script.extend_from_slice(piece)?;
    }
    let words = source_word(alloc)?;
    told(
        alloc,
        &report(rt, alloc, words.as_slice(), script.as_slice(), NO_FAILURE)?,
    )
}

/// With SETUP and the last two, as many instructions as a code may have, and then two more.
#[test]
fn code_has_a_limit(rt: HostRuntime) -> Tested {
    let most = pieces(&rt, rt.alloc(), b"a = 1\n", 32_766)?;
    assert_eq!(rt; most.as_str(), "0~~");
    let over = pieces(&rt, rt.alloc(), b"a = 1\n", 32_767)?;
    assert_eq!(rt; over.as_str(), "3~~pystm: line 1: refusal 11: too large;");
    Ok(())
}

/// What a file of so many spaces answers.
fn file_of<Rt: Abort + Threads + Wait + Sync>(
    rt: &Rt,
    alloc: Global,
    count: usize,
) -> Result<String, NoMemory> {
    let mut file = Vec::new(alloc);
    for _ in 0..count {
        file.push(b' ')?;
    }
    let words = words_in(alloc, "FILE")?;
    told(
        alloc,
        &report_with(
            rt,
            alloc,
            words.as_slice(),
            b"",
            file.as_slice(),
            NO_FAILURE,
        )?,
    )
}

#[test]
fn file_has_a_limit(rt: HostRuntime) -> Tested {
    let most = file_of(&rt, rt.alloc(), SCRIPT_LIMIT)?;
    assert_eq!(rt; most.as_str(), "0~~");
    let over = file_of(&rt, rt.alloc(), SCRIPT_LIMIT + 1)?;
    assert_eq!(rt;
        over.as_str(),
        "12~~pystm: script longer than 4194304 bytes;"
    );
    Ok(())
}

#[test]
fn script_has_a_limit(rt: HostRuntime) -> Tested {
    let most = pieces(&rt, rt.alloc(), b" ", SCRIPT_LIMIT)?;
    assert_eq!(rt; most.as_str(), "0~~");
    let over = pieces(&rt, rt.alloc(), b" ", SCRIPT_LIMIT + 1)?;
    assert_eq!(rt;
        over.as_str(),
        "12~~pystm: script longer than 4194304 bytes;"
    );
    Ok(())
}
