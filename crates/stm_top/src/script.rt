//! The script of a call: from the source, from a file, or the text of a workload.
ghost use Rattle.std.specs.Prelude.{◌≡◌, ◌≤◌, [], ◌++◌, length, IfOk, IfErr, OnOk, OnErr, IfSome, Ok, None};
ghost use Rattle.stm_top.specs.Script.{TakenSoFar, ScriptTaken, TooMuchTaken, TakingStopped, Taken};
ghost use Rattle.stm_top.specs.inner.Ending.{NoScript};

use crate::answer::Answer;
use std::alloc::Global;
use stm_io::{LoadError, Loader, Source, TakeError};
use stm_words::{Name, Script, demo_text};

/// How many bytes a script may have.
pub const SCRIPT_LIMIT: usize = 4_194_304;

/// Takes the script, line by line, to the source's end: its bytes, or nothing where there are more than a script may
/// have. Of a longer text it takes one byte more than a script may have. The memory grows with the script.
#[tactic(auto, using(crate::proofs::Taking::stopped_there))]
fn take_lines<I: Source>(alloc: Global, input: &mut I) -> Result<Option<Vec<u8>>, TakeError>
    ensures whole { IfOk result (λ t. IfSome t
        (λ script. ScriptTaken script.items (I.state input.old) (I.state input.new))) }
    ensures long { result ≡ Ok None → TooMuchTaken (I.state input.old) (I.state input.new) }
    ensures stopped { IfErr result (λ e. TakingStopped e (I.state input.old) (I.state input.new)) }
{
    let mut script = Vec::new(alloc);
    'lines: while script.len() <= SCRIPT_LIMIT {
        let line = input.take_line(SCRIPT_LIMIT + 1 - script.len())?;
        if line.is_empty() {
            return Ok(Some(script));
        }
        script.extend_from_slice(line.as_slice())?;
    }
    Ok(None)
}

/// The script from the source.
fn take_source<L: Loader, I: Source>(
    alloc: Global,
    loader: &L,
    input: &mut I,
) -> Result<Vec<u8>, Answer>
    ensures taken { IfOk result (λ text. Taken Script.Source text.items
        (record { loader = L.state loader.now; input = I.state input.old })
        (record { loader = L.state loader.now; input = I.state input.new })) }
    ensures none { IfErr result (λ answer. NoScript answer Script.Source
        (record { loader = L.state loader.now; input = I.state input.old })
        (record { loader = L.state loader.now; input = I.state input.new })) }
{
    match take_lines(alloc, input) {
        Ok(Some(text)) => Ok(text),
        Ok(None) => Err(Answer::ScriptTooLong),
        Err(TakeError::Failed) => Err(Answer::InputFailed),
        Err(TakeError::OutOfMemory) => Err(Answer::OutOfMemory),
    }
}

/// The script from the file of that name. Of a longer file one byte more is loaded than a script may have.
fn load_file<L: Loader, I: Source>(
    loader: &mut L,
    input: &I,
    name: &Name,
) -> Result<Vec<u8>, Answer>
    ensures taken { IfOk result (λ text. Taken (Script.File name.now) text.items
        (record { loader = L.state loader.old; input = I.state input.now })
        (record { loader = L.state loader.new; input = I.state input.now })) }
    ensures none { IfErr result (λ answer. NoScript answer (Script.File name.now)
        (record { loader = L.state loader.old; input = I.state input.now })
        (record { loader = L.state loader.new; input = I.state input.now })) }
{
    match loader.load(name.as_text(), SCRIPT_LIMIT + 1) {
        Ok(text) => {
            if text.len() > SCRIPT_LIMIT {
                Err(Answer::ScriptTooLong)
            } else {
                Ok(text)
            }
        }
        Err(LoadError::Failed) => Err(Answer::LoaderFailed),
        Err(LoadError::OutOfMemory) => Err(Answer::OutOfMemory),
    }
}

/// Takes the script that the words name, whole, or says why there is none.
pub(crate) fn take_script<L: Loader, I: Source>(
    alloc: Global,
    script: &Script,
    loader: &mut L,
    input: &mut I,
) -> Result<Vec<u8>, Answer>
    ensures taken { IfOk result (λ text. Taken script.now text.items
        (record { loader = L.state loader.old; input = I.state input.old })
        (record { loader = L.state loader.new; input = I.state input.new })) }
    ensures none { IfErr result (λ answer. NoScript answer script.now
        (record { loader = L.state loader.old; input = I.state input.old })
        (record { loader = L.state loader.new; input = I.state input.new })) }
{
    match script {
        Script::Source => take_source(alloc, loader, input),
        Script::File(name) => load_file(loader, input, name),
        Script::Demo(n) => match demo_text(alloc, *n) {
            Ok(text) => Ok(text),
            Err(_) => Err(Answer::OutOfMemory),
        },
    }
}
