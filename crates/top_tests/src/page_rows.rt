//! Scripts over few pages: where the heap is full, and what is told of it. Written by hand, from the words that
//! records take.
use py_data::NoMemory;
use std::alloc::Global;
use std::process::Abort;
use std::sync::Wait;
use std::test;
use std::thread::Threads;
use top_bench::{NO_FAILURE, lines_of, report, told, words_in};

type Tested = Result<(), test::Fail>;

/// A list that grows for ever.
const GROWS: &str = "print 'start';a = [];while 1:;    a.append(1);";

/// What a script answers with these words, with how many words of its store are taken, and how many there are at most.
fn answer<Rt: Abort + Threads + Wait + Sync>(
    rt: &Rt,
    alloc: Global,
    words: &str,
    script: &str,
) -> Result<String, NoMemory> {
    let words = words_in(alloc, words)?;
    let script = lines_of(alloc, script)?;
    let left = report(rt, alloc, words.as_slice(), script.as_slice(), NO_FAILURE)?;
    let told = told(alloc, &left)?;
    match &left.store {
        Some(store) => {
            let taken = store.reserved_words();
            let most = store.word_limit();
            format!(in alloc; "{told}~{taken} of {most}")
        }
        None => format!(in alloc; "{told}~no store"),
    }
}

/// What a list that grows answers where it can't: the words that are taken then, those that it needs, and those of
/// the pages.
fn full<Rt: Abort + Threads + Wait + Sync>(
    rt: &Rt,
    alloc: Global,
    pages: u64,
    taken: u64,
    need: u64,
) -> Tested {
    let words = format!(in alloc; "--pages {pages} -")?;
    let shown = answer(rt, alloc, words.as_str(), GROWS)?;
    let limit = pages.saturating_mul(512);
    let wanted = format!(in alloc;
        "8~start;~pystm: heap full: reserved {taken}, needed {need}, limit {limit} words;~{taken} of {limit}"
    )?;
    assert_eq!(rt; shown.as_str(), wanted.as_str());
    assert!(rt; taken.saturating_add(need) > limit, "{pages} pages");
    Ok(())
}

#[test]
fn a_list_fills_two_pages(rt: HostRuntime) -> Tested {
    full(&rt, rt.alloc(), 2, 916, 256)
}

#[test]
fn a_list_fills_three_pages(rt: HostRuntime) -> Tested {
    full(&rt, rt.alloc(), 3, 1_172, 512)
}

#[test]
fn a_list_fills_four_pages(rt: HostRuntime) -> Tested {
    full(&rt, rt.alloc(), 4, 1_684, 1_024)
}

#[test]
fn a_list_fills_five_pages(rt: HostRuntime) -> Tested {
    full(&rt, rt.alloc(), 5, 1_684, 1_024)
}

#[test]
fn a_list_fills_six_pages(rt: HostRuntime) -> Tested {
    full(&rt, rt.alloc(), 6, 2_708, 2_048)
}

#[test]
fn a_list_fills_seven_pages(rt: HostRuntime) -> Tested {
    full(&rt, rt.alloc(), 7, 2_708, 2_048)
}

#[test]
fn a_list_fills_eight_pages(rt: HostRuntime) -> Tested {
    full(&rt, rt.alloc(), 8, 2_708, 2_048)
}

/// One page doesn't hold what every program begins with: nothing is written.
#[test]
fn one_page_is_too_small(rt: HostRuntime) -> Tested {
    let shown = answer(&rt, rt.alloc(), "--pages 1 -", "print 1;")?;
    assert!(rt;
        shown.starts_with("8~~pystm: heap full: reserved "),
        "{shown}"
    );
    assert!(rt; shown.ends_with(" limit 512 words;~506 of 512"), "{shown}");
    Ok(())
}

/// A script that begins with an output doesn't come to it on one page.
#[test]
fn a_list_has_no_start_on_one_page(rt: HostRuntime) -> Tested {
    let shown = answer(&rt, rt.alloc(), "--pages 1 -", GROWS)?;
    assert!(rt;
        shown.starts_with("8~~pystm: heap full: reserved "),
        "{shown}"
    );
    assert!(rt; shown.ends_with(" limit 512 words;~506 of 512"), "{shown}");
    Ok(())
}

/// With pages enough the list grows to the most items that a list may have.
#[test]
fn a_list_grows_to_its_limit(rt: HostRuntime) -> Tested {
    let shown = answer(&rt, rt.alloc(), "--segments 1 -", GROWS)?;
    assert!(rt;
        shown.starts_with("1~start;~thread 0, line 4: MemoryError;~"),
        "{shown}"
    );
    let told =
        "print 'start';a = [];try:;    while 1:;        a.append(1);finally:;    print len(a);";
    let shown = answer(&rt, rt.alloc(), "--segments 1 -", told)?;
    assert!(rt;
        shown.starts_with("1~start;1048576;~thread 0, line 3: MemoryError;~"),
        "{shown}"
    );
    Ok(())
}

/// What was taken is given back where a transaction's records go, and is taken again: no more words are ever taken.
#[test]
fn a_script_that_makes_nothing_new_takes_nothing_more(rt: HostRuntime) -> Tested {
    let few = answer(
        &rt,
        rt.alloc(),
        "--pages 4 -",
        "i = 0;while i < 10:;    i += 1;",
    )?;
    let many = answer(
        &rt,
        rt.alloc(),
        "--pages 4 -",
        "i = 0;while i < 5000:;    i += 1;",
    )?;
    assert_eq!(rt; few.as_str(), many.as_str());
    Ok(())
}

/// The words say how many pages there are, and usually there are 16,384.
#[test]
fn pages_are_those_of_the_words(rt: HostRuntime) -> Tested {
    let shown = answer(&rt, rt.alloc(), "-", "")?;
    assert!(rt; shown.ends_with(" of 8388608"), "{shown}");
    let shown = answer(&rt, rt.alloc(), "--pages=65536 -", "")?;
    assert!(rt; shown.ends_with(" of 33554432"), "{shown}");
    let shown = answer(&rt, rt.alloc(), "--pages 0 -", "")?;
    assert!(rt; shown.ends_with("~no store"), "{shown}");
    Ok(())
}
