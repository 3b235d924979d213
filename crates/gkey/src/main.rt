//! The program: it hands the words, the files and the streams to `run_gated`, and ends with its status. Where the error stream is a
//! terminal, a line there tells meanwhile how far a long run is.
//!
//! - `words`: the words that it is called with
//! - `searches`: the gate that counts searches
#![tactic(auto)]

mod searches;
mod words;

use crate::searches::Searches;
use crate::words::{NoWords, words};
use gk_base::Stop;
use gk_io::{DirShelf, OutSink};
use gkey_cmd::{NO_MEMORY, NO_WORDS, ProgramLimits, run_gated};
use progress::{CountedShelf, Counts, Line, LineSink};
use std::io::IsTerminal;
use std::process::ExitCode;
use std::thread;

fn main(rt: HostRuntime) -> ExitCode {
    match words(&rt, rt.alloc()) {
        Ok(words) => {
            let is_told = rt.stderr().is_terminal();
            let counts = Counts::new(is_told);
            let line = Line::new(&counts);
            let gate = Searches { counts: &counts };
            let mut shelf = CountedShelf::new(DirShelf::new(&rt), &counts);
            let mut out = LineSink::new(OutSink::new(rt.stdout()), &line, &rt);
            let mut err = LineSink::new(OutSink::new(rt.stderr()), &line, &rt);
            let status = thread::scope(thread::scope_env(), &rt, |scope| {
                if is_told {
                    // (without a second thread nothing is told)
                    let _ = scope.spawn(|| line.tell(&rt));
                }
                let limits = &ProgramLimits::STANDARD;
                let status = run_gated(
                    &rt,
                    rt.alloc(),
                    &words,
                    &mut shelf,
                    &mut out,
                    &mut err,
                    limits,
                    &gate,
                );
                line.end(&rt);
                status
            });
            ExitCode::from(status)
        }
        Err(Stop::NoMemory) => ExitCode::from(NO_MEMORY),
        Err(Stop::Fault(NoWords)) => ExitCode::from(NO_WORDS),
    }
}
