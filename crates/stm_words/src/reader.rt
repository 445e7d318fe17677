//! From what the words give to the options.
ghost use Rattle.std.specs.Prelude.{◌≡◌, ◌≤◌, IfOk, Err, Some, None, map, string_bytes};
ghost use Rattle.std.specs.Char.{is_ascii_digit};
ghost use Rattle.std.specs.List.{list_all};
ghost use Rattle.stm_words.specs.Options.{IsWithin, is_numeral, number, numeral, options_from, options_of, script_at, script_of, words_for};
ghost use Rattle.stm_words.specs.declared.call.Options.{Options as Choice};
ghost use Rattle.stm_words.specs.inner.Given.{given_of, listed, number_within};

use crate::call::{Name, Options, Script};
use crate::error::WordsError;
use crate::limits::{BUDGET, LENGTH, Limits, PAGES, SEGMENTS};
use crate::words::{Given, read_given};
use std::alloc::Global;

/// How many digits a number has at most.
const MOST_DIGITS: usize = 16;

/// The last workload's number.
const LAST_DEMO: u64 = 1_000_000;

/// The options that the words of a call give, by `docs/LANGUAGE.md`, "The words of a call". `words` are those behind
/// the program's name; one that isn't UTF-8 is to come as an empty word. Where they give none the answer is Usage.
pub fn read_words(alloc: Global, words: &[String]) -> Result<Options, WordsError>
    ensures options { IfOk result (λ o. options_of (map string_bytes words.now) ≡ Some o) }
    ensures usage { result ≡ Err WordsError.Usage → options_of (map string_bytes words.now) ≡ None }
    ensures within { IfOk result IsWithin }
{
    to_options(alloc, read_given(alloc, words)?)
}

/// Each choice of options with its numbers in their ranges has words that give it. With the clause `within` of
/// `read_words` these are all the options that words give. A call does nothing, and gives its caller's proof this fact.
pub fn words_law()
    ensures { (o : Choice) → IsWithin o → options_of (words_for o) ≡ Some o }
{}

/// The options, where each value that is given is right.
fn to_options(alloc: Global, given: Given<'_>) -> Result<Options, WordsError>
    ensures options { IfOk result (λ o. options_from (given_of given.entry) ≡ Some o) }
    ensures usage { result ≡ Err WordsError.Usage → options_from (given_of given.entry) ≡ None }
    ensures within { IfOk result IsWithin }
{
    Ok(Options {
        script: to_script(alloc, given.file, given.demo)?,
        segments: number_or(given.segments, SEGMENTS)? as u8,
        length: number_or(given.length, LENGTH)?,
        pages: number_or(given.pages, PAGES)? as u32,
        budget: number_or(given.budget, BUDGET)?,
    })
}

/// The script that the positional or the workload's number names. There is one of them, and not the other.
fn to_script(alloc: Global, file: Option<&str>, demo: Option<&str>) -> Result<Script, WordsError>
    ensures script { IfOk result (λ s. script_of (listed file.entry) (listed demo.entry) ≡ Some s) }
    ensures usage { result ≡ Err WordsError.Usage → script_of (listed file.entry) (listed demo.entry) ≡ None }
{
    match (file, demo) {
        (Some(text), None) => script_at(alloc, text),
        (None, Some(text)) => match number(text, 0, LAST_DEMO) {
            Some(n) => Ok(Script::Demo(n as u32)),
            None => Err(WordsError::Usage),
        },
        _ => Err(WordsError::Usage),
    }
}

/// The script that the positional names.
fn script_at(alloc: Global, text: &str) -> Result<Script, WordsError>
    ensures script { IfOk result (λ s. script_at text.now ≡ Some s) }
    ensures usage { result ≡ Err WordsError.Usage → script_at text.now ≡ None }
{
    match text {
        "" => Err(WordsError::Usage),
        "-" => Ok(Script::Source),
        _ => Ok(Script::File(Name::new(alloc, text)?)),
    }
}

/// The number of an option within its limits.
fn number_or(text: Option<&str>, limits: Limits) -> Result<u64, WordsError>
    ensures number { IfOk result (λ n. number_within limits (listed text.entry) ≡ Some n) }
    ensures usage { result ≡ Err WordsError.Usage → number_within limits (listed text.entry) ≡ None }
    ensures below { IfOk result (λ n. n ≤ limits.most) }
{
    match text {
        None => Ok(limits.usual),
        Some(text) => number(text, limits.least, limits.most).ok_or(WordsError::Usage),
    }
}

/// The number of an option, where it is in the range.
fn number(text: &str, least: u64, most: u64) -> Option<u64>
    ensures { result ≡ number least most text.now }
{
    let n = numeral(text)?;
    if least <= n && n <= most {
        Some(n)
    } else {
        None
    }
}

/// The number that one to sixteen decimal digits write.
fn numeral(text: &str) -> Option<u64>
    ensures { result ≡ numeral text.now }
{
    if has_digits(text.as_bytes()) {
        text.parse().ok()
    } else {
        None
    }
}

/// Whether these are one to sixteen decimal digits.
fn has_digits(text: &[u8]) -> bool
    ensures { result ≡ is_numeral text.now }
{
    are_digits(text) && 1 <= text.len() && text.len() <= MOST_DIGITS
}

fn are_digits(text: &[u8]) -> bool
    ensures { result ≡ list_all is_ascii_digit text.now }
{
    text.iter().all(u8::is_ascii_digit)
}
