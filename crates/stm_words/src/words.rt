//! The words of a call, read by `clap`.
ghost use Rattle.std.specs.Prelude.{◌≡◌, IfOk, Err, None, map, string_bytes, false};
ghost use Rattle.clap.specs.Words.{app_of, kind_of, rule_of};
ghost use Rattle.stm_words.specs.Options.{options_from, options_of};
ghost use Rattle.stm_words.specs.inner.Given.{error_of, given_of, option_rule, pystm_app};

use crate::error::WordsError;
use clap::error::ErrorKind;
use clap::{Arg, Command, Error};
use std::alloc::{AllocError, Global};

/// What the words give of the positional and of each option, where they give none of them twice.
#[derive(Clone, Copy, Debug, PartialEq, Eq)]
pub(crate) struct Given<'a> {
    pub file: Option<&'a str>,
    pub segments: Option<&'a str>,
    pub length: Option<&'a str>,
    pub pages: Option<&'a str>,
    pub budget: Option<&'a str>,
    pub demo: Option<&'a str>,
}

/// The option of that name, with a text as its value.
fn option<'a>(alloc: Global, name: &'a str) -> Arg<'a>
    ensures rule { rule_of result ≡ option_rule name.entry.now }
    ensures local { result.global ≡ false }
{
    Arg::new(alloc, name).long(name)
}

/// The command of the program: one positional and five options, all of which may be left out. Its words begin behind
/// the program's name.
fn command<'a>(alloc: Global) -> Result<Command<'a>, AllocError>
    ensures { IfOk result (λ c. app_of c ≡ pystm_app) }
{
    Command::new(alloc, "pystm")
        .no_binary_name(true)
        .disable_help_flag(true)
        .arg(option(alloc, "segments"))?
        .arg(option(alloc, "length"))?
        .arg(option(alloc, "pages"))?
        .arg(option(alloc, "budget"))?
        .arg(option(alloc, "demo"))?
        .arg(Arg::new(alloc, "file"))
}

/// Why there are no options, by the error of `clap`.
fn refusal(error: &Error) -> WordsError
    ensures { result ≡ error_of (kind_of error.now) }
{
    match error.kind() {
        ErrorKind::OutOfMemory => WordsError::OutOfMemory,
        _ => WordsError::Usage,
    }
}

/// What the words give. Of a value it says nothing, but that the words with it mean what the values mean.
pub(crate) fn read_given<'a>(alloc: Global, words: &'a [String]) -> Result<Given<'a>, WordsError>
    ensures given { IfOk result (λ g. options_from (given_of g) ≡ options_of (map string_bytes words.entry.now)) }
    ensures usage { result ≡ Err WordsError.Usage → options_of (map string_bytes words.entry.now) ≡ None }
{
    let matches = match command(alloc)?.try_get_matches_from(words) {
        Ok(matches) => matches,
        Err(error) => return Err(refusal(&error)),
    };
    Ok(Given {
        file: matches.get_str("file"),
        segments: matches.get_str("segments"),
        length: matches.get_str("length"),
        pages: matches.get_str("pages"),
        budget: matches.get_str("budget"),
        demo: matches.get_str("demo"),
    })
}
