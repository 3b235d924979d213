//! The whole of a run: from the words to what is written at its end.

ghost use Rattle.std.specs.Prelude.{◌≡◌, ◌<◌, ◌^◌, ℕ, Some, MatchResult};
ghost use Rattle.gkey_cmd.specs.Commands.{Demonstrating, wanted};
ghost use Rattle.gkey_cmd.specs.Limits.{CanBeKept, AreProgramLimits, limits_for, standard_limits};
ghost use Rattle.gkey_cmd.specs.Endings.{Caused, LeavesShelf};
ghost use Rattle.gkey_cmd.specs.Run.{IsRun};

use crate::chased::ChaseOptions;
use crate::check_command::check_command;
use crate::convert_command::convert_command;
use crate::demo_command::demo_command;
use crate::ending::{Answer, Ending, finish};
use crate::grow_command::grow_command;
use crate::limits::ProgramLimits;
use crate::match_command::match_command;
use crate::merge_command::merge_command;
use crate::prove_command::prove_command;
use crate::texts::{help_text, version_text};
use crate::why_command::why_command;
use crate::words::{Command, WORKERS, read_words};
use gk_base::{Limits, NoMemory, Text};
use gk_io::{Shelf, Sink};
use std::alloc::Global;
use std::sync::Wait;
use std::thread::Threads;
use steal_pool::{Gate, OpenGate};

/// The ending of a command that has one answer and its text, or has none.
fn given(text: Result<Vec<u8>, Ending>) -> Ending
    ensures { MatchResult text (λ t. result ≡ Ending.Done Answer.Given t) (λ ending. result ≡ ending) }
{
    match text {
        Ok(text) => Ending::Done(Answer::Given, text),
        Err(ending) => ending,
    }
}

/// The ending of a command that has an answer and its text, or has none.
fn answered(answer: Result<(Answer, Vec<u8>), Ending>) -> Ending
    ensures { MatchResult answer (λ r. result ≡ Ending.Done r.0 r.1) (λ ending. result ≡ ending) }
{
    match answer {
        Ok((answer, text)) => Ending::Done(answer, text),
        Err(stop) => stop,
    }
}

/// The ending of a command that goes by no file, with its text, or with want of memory for it.
fn said(text: Result<Vec<u8>, NoMemory>) -> Ending
    ensures { MatchResult text (λ t. result ≡ Ending.Done Answer.Given t) (λ _. result ≡ Ending.NoMemory) }
{
    match text {
        Ok(words) => Ending::Done(Answer::Given, words),
        Err(NoMemory) => Ending::NoMemory,
    }
}

/// How a chase goes under these limits, with so many workers that pass this gate.
fn chase_options<'o, G>(limits: &'o Limits, workers: u32, gate: &'o G) -> ChaseOptions<'o, G>
    ensures limits { result.limits.now ≡ limits.now }
    ensures workers { result.workers ≡ workers }
    ensures gate { result.gate.now ≡ gate.now }
{
    ChaseOptions {
        limits,
        workers,
        gate,
    }
}

/// How a run ends before anything is written.
fn decide<Rt: Threads + Wait + Sync, S: Shelf, G: Gate>(
    rt: &Rt,
    alloc: Global,
    words: &[Text],
    shelf: &mut S,
    limits: &Limits,
    gate: &G,
) -> Ending
    requires kept { CanBeKept limits.now }
    requires counted { (n : ℕ) → wanted words.now ≡ Some (Demonstrating n) → limits.now.pairs < 2 ^ 32 }
    ensures caused { Caused S.Shelf shelf.old shelf.new (wanted words.now) limits.now result }
    ensures asks_no_files { LeavesShelf shelf.old shelf.new (wanted words.now) result }
{
    match read_words(words) {
        None => Ending::NoCommand,
        Some(Command::Match { workers, files }) => {
            let options = chase_options(limits, workers, gate);
            given(match_command(rt, alloc, shelf, &files, &options))
        }
        Some(Command::Prove { workers, files }) => {
            let options = chase_options(limits, workers, gate);
            given(prove_command(rt, alloc, shelf, &files, &options))
        }
        Some(Command::Check { files }) => {
            answered(check_command(rt, alloc, shelf, &files, limits))
        }
        Some(Command::Convert { proof }) => given(convert_command(alloc, shelf, proof, limits)),
        Some(Command::Demo { n }) => {
            let options = chase_options(limits, WORKERS, gate);
            given(demo_command(rt, alloc, n, &options))
        }
        Some(Command::Merge { workers, files }) => {
            let options = chase_options(limits, workers, gate);
            given(merge_command(rt, alloc, shelf, &files, &options))
        }
        Some(Command::Why { workers, words }) => {
            let options = chase_options(limits, workers, gate);
            answered(why_command(rt, alloc, shelf, &words, &options))
        }
        Some(Command::Grow { workers, files }) => {
            let options = chase_options(limits, workers, gate);
            given(grow_command(rt, alloc, shelf, &files, &options))
        }
        Some(Command::Help) => said(help_text(alloc)),
        Some(Command::Version) => said(version_text(alloc)),
    }
}

/// Does what the words ask for, with the limits that they ask for, of these, and gives the status. What it leaves at each
/// status, and why, is `IsRun` in `specs/Run.antt`.
///
/// The words are those after the program's name. The files are found and read in their order, up to the first that
/// fails or is refused; then the chase runs and its text is made; then it is written. A demo reads its own texts, and no
/// shelf; `--help` and `--version` read nothing. Each worker of the chase passes the gate before each search.
pub fn run_gated<Rt: Threads + Wait + Sync, S: Shelf, O: Sink, E: Sink, G: Gate>(
    rt: &Rt,
    alloc: Global,
    words: &[Text],
    shelf: &mut S,
    out: &mut O,
    err: &mut E,
    limits: &ProgramLimits,
    gate: &G,
) -> u8
    requires { AreProgramLimits limits.now }
    ensures { IsRun S.Shelf O.Sink E.Sink (wanted words.now) (limits_for words.now limits.now) shelf.old shelf.new out.old out.new err.old err.new result }
{
    let limits = &limits.of_words(words);
    let ending = decide(rt, alloc, words, shelf, limits, gate);
    finish(alloc, &ending, out, err)
}

/// Does all that the program does, with its own limits, and gives the status: 0 where it is done, 1 where a proof is not
/// accepted or two entities are not the same, 2 where an input is refused, 3 where a file could not be read, 4 where the
/// output could not be written, 5 for want of memory, 64 where the words ask for no command. What it leaves at each status,
/// and why, is `IsRun` in `specs/Run.antt`.
///
/// The words are those after the program's name. The files are found and read in their order, up to the first that
/// fails or is refused; then the chase runs and its text is made; then it is written. A demo reads its own texts, and no
/// shelf; `--help` and `--version` read nothing.
pub fn run<Rt: Threads + Wait + Sync, S: Shelf, O: Sink, E: Sink>(
    rt: &Rt,
    alloc: Global,
    words: &[Text],
    shelf: &mut S,
    out: &mut O,
    err: &mut E,
) -> u8
    ensures { IsRun S.Shelf O.Sink E.Sink (wanted words.now) (limits_for words.now standard_limits) shelf.old shelf.new out.old out.new err.old err.new result }
{
    run_gated(
        rt,
        alloc,
        words,
        shelf,
        out,
        err,
        &ProgramLimits::STANDARD,
        &OpenGate,
    )
}
