//! What words give, row by row, and the texts of workloads.
use crate::{Options, Script, WordsError, demo_text, read_words};
use std::alloc::{AllocError, Global};
use std::test;

type Tested = Result<(), test::Fail>;

/// How many rows the table has.
const ROWS: usize = 134;

/// A row a line: the words, each behind a bar, and the options that they give, or `usage`.
const TABLE: &str = " => usage
|- => source 4 1000 16384 1000000000000
|script.py => file script.py 4 1000 16384 1000000000000
| => usage
|--demo|7 => demo 7 4 1000 16384 1000000000000
|--demo=7 => demo 7 4 1000 16384 1000000000000
|--demo|0 => demo 0 4 1000 16384 1000000000000
|--demo|1000000 => demo 1000000 4 1000 16384 1000000000000
|--demo|1000001 => usage
|--demo=1000001 => usage
|--demo| => usage
|--demo= => usage
|--demo => usage
|--demo|7|- => usage
|-|--demo|7 => usage
|--demo=7|script.py => usage
|--demo=7|--demo=7 => usage
|--demo|7|--demo|7 => usage
|--demo|7|--|- => usage
|--demo|7| => usage
|--demo|7|-- => demo 7 4 1000 16384 1000000000000
|--demo|-7 => usage
|--demo|- => usage
|--demo=- => usage
|--demo=-7 => usage
|--demo=+7 => usage
|--demo|+7 => usage
|--demo| 7 => usage
|--demo=7  => usage
|--demo=7.0 => usage
|--demo=0x7 => usage
|--demo 7 => usage
|--demo=0000000000000007 => demo 7 4 1000 16384 1000000000000
|--demo=00000000000000007 => usage
|--demo=7|--segments=1 => demo 7 1 1000 16384 1000000000000
|--segments=8|--length=1|--pages=65536|--budget=1|- => source 8 1 65536 1
|-|--segments|1|--length|1000000|--pages|1|--budget|1000000000000000 => source 1 1000000 1 1000000000000000
|--segments|8|- => source 8 1000 16384 1000000000000
|--segments=0|- => usage
|--segments=9|- => usage
|--segments|0|- => usage
|--segments|9|- => usage
|--segments=00000000000000008|- => usage
|--segments=0000000000000008|- => source 8 1000 16384 1000000000000
|--segments=-1|- => usage
|--segments|-1|- => usage
|--segments=+1|- => usage
|--segments|+1|- => usage
|--segments= 1|- => usage
|--segments=1 |- => usage
|--segments=|- => usage
|--segments||- => usage
|--segments|- => usage
|--segments|-|- => usage
|-|--segments => usage
|--segments|--length|- => usage
|--segments|--length|5|- => usage
|--segments|--|- => usage
|--segments|-- => usage
|--segments=2|--segments=2|- => usage
|--segments|2|-|--segments|3 => usage
|--segments=2|--segments => usage
|--seg=1|- => usage
|--seg|1|- => usage
|--Segments=1|- => usage
|--SEGMENTS|1|- => usage
|--segment=1|- => usage
|--segmentss=1|- => usage
|-segments=1|- => usage
|-s|1|- => usage
|-d|7 => usage
|--segments=two|- => usage
|--segments=1=1|- => usage
|--segments==1|- => usage
|--length=0|- => usage
|--length=1000001|- => usage
|--length|1|- => source 4 1 16384 1000000000000
|--pages=0|- => usage
|--pages=65537|- => usage
|--pages=00001|a => file a 4 1000 1 1000000000000
|--budget=0|- => usage
|--budget=1000000000000001|- => usage
|--budget=9999999999999999|- => usage
|--budget=10000000000000000|- => usage
|--budget=1000000000000000|- => source 4 1000 16384 1000000000000000
|--|- => source 4 1000 16384 1000000000000
|--|-x => file -x 4 1000 16384 1000000000000
|--|--help => file --help 4 1000 16384 1000000000000
|--|-- => file -- 4 1000 16384 1000000000000
|--|--segments=1 => file --segments=1 4 1000 16384 1000000000000
|-- => usage
|--| => usage
|-x => usage
|--help => usage
|-h => usage
|--version => usage
|-V => usage
|--help=1 => usage
|--help|- => usage
|help => file help 4 1000 16384 1000000000000
|--|-|- => usage
|--|a|b => usage
|a|--|b => usage
|a|-- => file a 4 1000 16384 1000000000000
|-|-- => source 4 1000 16384 1000000000000
|a|b => usage
|-|- => usage
|a|- => usage
|-|a => usage
|a| => usage
||- => usage
|a=b => file a=b 4 1000 16384 1000000000000
|=a => file =a 4 1000 16384 1000000000000
|a b => file a b 4 1000 16384 1000000000000
|a- => file a- 4 1000 16384 1000000000000
|Grüße.py => file Grüße.py 4 1000 16384 1000000000000
|--|-ü => file -ü 4 1000 16384 1000000000000
|--größe=1|- => usage
|--segments=٣|- => usage
|-ü => usage
|--demo=７ => usage
|--ü => usage
|--=1|- => usage
|--= => usage
|---|- => usage
|---segments=1|- => usage
|--file=a => usage
|--file|a => usage
|--pystm|- => usage
|script.py|--segments|2 => file script.py 2 1000 16384 1000000000000
|--segments|2|--|script.py => file script.py 2 1000 16384 1000000000000
|script.py|--|--segments|2 => usage
|--demo|7|--length|5|--budget=6 => demo 7 4 5 16384 6
|--budget=6|--demo|7|--length|5 => demo 7 4 5 16384 6
";

/// The words of a row.
fn words_of(alloc: Global, row: &str) -> Result<Vec<String>, AllocError> {
    let mut words = Vec::new(alloc);
    for word in row.split('|').skip(1) {
        words.push(String::from_str(alloc, word)?)?;
    }
    Ok(words)
}

/// The script's text in a row.
fn script_text(alloc: Global, script: &Script) -> Result<String, AllocError> {
    match script {
        Script::Source => String::from_str(alloc, "source"),
        Script::File(name) => format!(in alloc; "file {}", name.as_text()),
        Script::Demo(n) => format!(in alloc; "demo {n}"),
    }
}

/// The options' text in a row.
fn options_text(alloc: Global, options: &Options) -> Result<String, AllocError> {
    let script = script_text(alloc, &options.script)?;
    let (segments, length) = (options.segments, options.length);
    let (pages, budget) = (options.pages, options.budget);
    format!(in alloc; "{script} {segments} {length} {pages} {budget}")
}

/// The text of what the words of a row give.
fn answer(alloc: Global, row: &str) -> Result<String, AllocError> {
    let words = words_of(alloc, row)?;
    match read_words(alloc, words.as_slice()) {
        Ok(options) => options_text(alloc, &options),
        Err(WordsError::Usage) => String::from_str(alloc, "usage"),
        Err(WordsError::OutOfMemory) => Err(AllocError),
    }
}

#[test]
fn reads_each_row(rt: HostRuntime) -> Tested {
    let mut rows = 0;
    for line in TABLE.lines() {
        if let Some((words, wanted)) = line.split_once(" => ") {
            let given = answer(rt.alloc(), words)?;
            assert!(rt; given.as_str() == wanted, "{words}");
            rows = usize::min(rows, ROWS) + 1;
        }
    }
    assert_eq!(rt; rows, ROWS);
    Ok(())
}

/// A workload's number, the length of its text, and the line with the number.
#[test]
fn writes_each_workload(rt: HostRuntime) -> Tested {
    let table: [(u32, usize, &[u8]); 3] = [
        (
            0,
            682,
            b"\n    t = threading.Thread(target=work, args=(0 + k, 2500))\n",
        ),
        (
            7,
            682,
            b"\n    t = threading.Thread(target=work, args=(7 + k, 2500))\n",
        ),
        (
            1_000_000,
            688,
            b"\n    t = threading.Thread(target=work, args=(1000000 + k, 2500))\n",
        ),
    ];
    for (n, length, line) in table {
        let text = demo_text(rt.alloc(), n)?;
        assert_eq!(rt; text.len(), length, "{n}");
        let found = text.as_slice().windows(line.len()).any(|part| part == line);
        assert!(rt; found, "{n}");
    }
    Ok(())
}
