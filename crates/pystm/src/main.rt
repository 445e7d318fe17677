//! `pystm`: runs a script of a subset of Python 2.7. Here are the adapters over the real outside, and the process's
//! words and status. What a script means stands below.
#![tactic(auto)]

mod buffer;
mod loader;
mod sink;
#[cfg(test)]
mod slow;
mod source;
mod steady;
mod words;

ghost use Rattle.std.specs.Prelude.{◌≡◌, ◌≢◌, ℕ, List};
ghost use Rattle.stm_top.specs.TopCall.{bytes_of, devices_of};
ghost use Rattle.pystm.specs.Process.{IsAnswered};

use crate::loader::FileLoader;
use crate::sink::{StderrSink, StdoutSink};
use crate::source::StdinSource;
use crate::words::read_words;
use std::alloc::Global;
use std::process::ExitCode;
use std::rt::Env;
use std::sync::Wait;
use std::thread::Threads;
use stm_io::{Loader, OpenGate, Sink, Source};
use stm_top::run_words;

/// The status where the words find no memory.
const OUT_OF_MEMORY: u8 = 11;

/// Runs what these words say over these devices: the number of the top call's status.
fn run<
    Rt: Threads + Wait + Sync,
    L: Loader + Drop,
    I: Source + Send + Drop,
    O: Sink + Send + Drop,
    E: Sink + Send + Drop,
>(rt: &Rt, alloc: Global, words: &[String], loader: L, input: I, out: O, err: E) -> u8
    ensures { IsAnswered (bytes_of words.now)
        (devices_of L.state I.state O.state E.state loader input out err) result }
{
    let report = run_words(rt, alloc, words, loader, input, out, err, &OpenGate);
    report.status.number()
}

/// Runs what the process's words say over these devices: the status of the process, which is that of the top call's
/// answer, or 11 where the words find no memory.
fn status<
    Rt: Env + Threads + Wait + Sync,
    L: Loader + Drop,
    I: Source + Send + Drop,
    O: Sink + Send + Drop,
    E: Sink + Send + Drop,
>(rt: &Rt, alloc: Global, loader: L, input: I, out: O, err: E) -> u8
    ensures { result ≢ 11 → (words : List (List ℕ))
        × IsAnswered words (devices_of L.state I.state O.state E.state loader input out err) result }
{
    match read_words(rt, alloc) {
        Ok(words) => run(rt, alloc, words.as_slice(), loader, input, out, err),
        Err(_) => stop_for_memory(err),
    }
}

/// Says that there was no memory for the words. A failure of that write changes nothing.
fn stop_for_memory<E: Sink + Drop>(mut err: E) -> u8
    ensures { result ≡ 11 }
{
    let _ = err.put(b"pystm: out of memory\n");
    OUT_OF_MEMORY
}

/// Runs what the process's words say over the real outside, and ends with its status.
fn main(rt: HostRuntime) -> ExitCode {
    let alloc = rt.alloc();
    let input = StdinSource::new(alloc, rt.stdin());
    let out = StdoutSink::new(rt.stdout());
    let err = StderrSink::new(rt.stderr());
    let loader = FileLoader::new(&rt, alloc);
    ExitCode::from(status(&rt, alloc, loader, input, out, err))
}

#[cfg(test)]
mod tests {
    use super::*;
    use std::test::Fail;

    /// Uses each device through its trait alone, and asks that it can cross threads.
    fn used<L: Loader + Send + Drop, I: Source + Send + Drop, O: Sink + Send + Drop>(
        mut loader: L,
        mut input: I,
        mut out: O,
    ) -> bool {
        let loaded = loader.load("/dev/null", 1).is_ok() && loader.faults() == 0;
        let taken = input.take_line(1).is_ok() && input.faults() == 0;
        loaded && taken && out.put(b"").is_ok() && out.faults() == 0
    }

    #[test]
    fn devices_are_used_by_their_traits(rt: HostRuntime) -> Result<(), Fail> {
        let loader = FileLoader::new(&rt, rt.alloc());
        let input = StdinSource::new(rt.alloc(), rt.stdin());
        assert!(rt; used(loader, input, StdoutSink::new(rt.stdout())));
        Ok(())
    }
}
