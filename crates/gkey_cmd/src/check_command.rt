//! `check`: the checker's verdict on a proof, from the files of a graph, its keys and the proof.

ghost use Rattle.std.specs.Prelude.{◌≡◌, ◌<◌, ◌^◌, length, List, IfOk, IfErr, IsSome, IfSome, MatchResult};
ghost use Rattle.gk_base.specs.declared.term.Triple.{Triple as AnyTriple};
ghost use Rattle.graph_rows.specs.Rows.{StandFor};
ghost use Rattle.proof_check.specs.Ready.{IsReady};
ghost use Rattle.gkey_cmd.specs.Commands.{Checking};
ghost use Rattle.gkey_cmd.specs.Check.{verdict_answer, verdict_text, IsChecked};
ghost use Rattle.gkey_cmd.specs.Limits.{CanBeKept};
ghost use Rattle.gkey_cmd.specs.Endings.{EndsAt, Stopped, ReadProof};

use crate::ending::{Answer, Ending};
use crate::file::File;
use crate::reading::{ReadFiles, read_keys, read_proof};
use crate::words::{CheckFiles, WORKERS};
use gk_base::{Limits, NoMemory, Text};
use gk_io::Shelf;
use graph_rows::read_rows;
use key_lang::KeyFile;
use proof_check::{Checker, Reason, Verdict, law_proof};
use proof_file::Proof;
use std::alloc::Global;
use std::sync::Wait;
use std::thread::{Threads, join_mut};

/// A graph of fewer rows is not worth a second thread.
const FEW_ROWS: usize = 4096;

/// A file to be read.
#[derive(Clone, Copy)]
struct Source<'s> {
    /// Its name.
    name: &'s Text,
    /// What it may hold.
    limits: &'s Limits,
}

/// The answer that goes with a verdict.
fn verdict_answer(verdict: Verdict) -> Answer
    ensures { result ≡ verdict_answer verdict }
{
    match verdict {
        Verdict::Accepted { .. } => Answer::Given,
        Verdict::Rejected { .. } => Answer::NotAccepted,
    }
}

/// The text of a proof with so many steps that is accepted.
fn accepted_text(alloc: Global, steps: u32) -> Result<Vec<u8>, NoMemory>
    ensures { IfOk result (λ text. text.items ≡ verdict_text (Verdict.Accepted steps)) }
{
    let mut text = b"accepted ".to_vec(alloc)?;
    text.extend_from_slice(steps.to_string(alloc)?.as_bytes())?;
    text.extend_from_slice(b"\n")?;
    Ok(text)
}

/// The text of a proof that is not accepted for this step.
fn rejected_text(alloc: Global, step: u32, reason: Reason) -> Result<Vec<u8>, NoMemory>
    ensures { IfOk result (λ text. text.items ≡ verdict_text (Verdict.Rejected step reason)) }
{
    let mut text = b"rejected ".to_vec(alloc)?;
    text.extend_from_slice(step.to_string(alloc)?.as_bytes())?;
    text.extend_from_slice(b": ")?;
    text.extend_from_slice(reason.text())?;
    text.extend_from_slice(b"\n")?;
    Ok(text)
}

/// The text of a verdict.
fn verdict_text(alloc: Global, verdict: Verdict) -> Result<Vec<u8>, NoMemory>
    ensures { IfOk result (λ text. text.items ≡ verdict_text verdict) }
{
    match verdict {
        Verdict::Accepted { steps } => accepted_text(alloc, steps),
        Verdict::Rejected { step, reason } => rejected_text(alloc, step, reason),
    }
}

/// What is said of a proof whose files are read, where the checker was made of the graph and the keys: whether it is accepted,
/// and the text. Only want of memory stops it.
fn check_text(
    alloc: Global,
    checker: Checker,
    keys: &KeyFile,
    proof: &Proof,
) -> Result<(Answer, Vec<u8>), NoMemory>
    requires { length proof.now < 2 ^ 32 }
    ensures { IfOk result (λ r. (triples : List AnyTriple) → IsReady checker triples keys.now → IsChecked triples keys.now proof.now r.0 r.1.items) }
{
    law_proof();
    let _keys = keys.keys();
    let verdict = checker.check(alloc, keys, proof)?;
    Ok((verdict_answer(verdict), verdict_text(alloc, verdict)?))
}

/// The checker for a graph and keys, and these keys.
fn checker_of(alloc: Global, read: ReadFiles) -> Result<(Checker, KeyFile), NoMemory>
    ensures ready { IfOk result (λ r. (triples : List AnyTriple) → StandFor read.rows triples → IsReady r.0 triples read.keys) }
    ensures keys { IfOk result (λ r. r.1 ≡ read.keys) }
{
    let ReadFiles { rows, keys } = read;
    let checker = Checker::new(alloc, rows.rows, rows.names, &keys)?;
    Ok((checker, keys))
}

/// The checker for a graph and keys, these keys, and the proof of the proof file, or the ending of a run that can't have them.
/// The checker is made in a second thread while the proof file is read and judged in the caller's. What stops the reading is the
/// ending, whatever became of the checker.
fn checker_and_proof_at_once<Rt: Threads, S: Shelf>(
    rt: &Rt,
    alloc: Global,
    shelf: &mut S,
    read: ReadFiles,
    proof: &Source<'_>,
) -> Result<(Checker, KeyFile, Proof), Ending>
    requires { CanBeKept proof.now.limits.now }
    ensures ready { IfOk result (λ r. (triples : List AnyTriple) → StandFor read.rows triples → IsReady r.0 triples read.keys) }
    ensures keys { IfOk result (λ r. r.1 ≡ read.keys) }
    ensures read { IfOk result (λ r. ReadProof S.Shelf shelf.old shelf.new proof.now.limits.now proof.now.name.now r.2) }
    ensures ends { IfErr result (EndsAt S.Shelf shelf.old shelf.new proof.now.limits.now File.Proof proof.now.name.now) }
{
    // Each closure lends an allocator of its own, so that no loan is in both.
    let own = alloc;
    let mut files = Some(read);
    let (made, told) = join_mut(
        rt,
        &mut || -> Result<(Checker, KeyFile), NoMemory>
            requires { IsSome files }
            ensures ready { IfOk result (λ r. IfSome files.entry (λ given.
                (triples : List AnyTriple) → StandFor given.rows triples → IsReady r.0 triples given.keys)) }
            ensures keys { IfOk result (λ r. IfSome files.entry (λ given. r.1 ≡ given.keys)) }
        { checker_of(own, files.take().unwrap()) },
        &mut || read_proof(alloc, shelf, proof.name, proof.limits),
    );
    let told = told?;
    let (checker, keys) = made?;
    Ok((checker, keys, told))
}

/// The same, but of a small graph the checker is made after the proof file is read.
fn checker_and_proof<Rt: Threads, S: Shelf>(
    rt: &Rt,
    alloc: Global,
    shelf: &mut S,
    read: ReadFiles,
    proof: &Source<'_>,
) -> Result<(Checker, KeyFile, Proof), Ending>
    requires { CanBeKept proof.now.limits.now }
    ensures ready { IfOk result (λ r. (triples : List AnyTriple) → StandFor read.rows triples → IsReady r.0 triples read.keys) }
    ensures keys { IfOk result (λ r. r.1 ≡ read.keys) }
    ensures read { IfOk result (λ r. ReadProof S.Shelf shelf.old shelf.new proof.now.limits.now proof.now.name.now r.2) }
    ensures ends { IfErr result (EndsAt S.Shelf shelf.old shelf.new proof.now.limits.now File.Proof proof.now.name.now) }
{
    if read.rows.rows.len() >= FEW_ROWS {
        return checker_and_proof_at_once(rt, alloc, shelf, read, proof);
    }
    let told = read_proof(alloc, shelf, proof.name, proof.limits)?;
    let (checker, keys) = checker_of(alloc, read)?;
    Ok((checker, keys, told))
}

/// The answer of `check` and its text, or the ending of a run that has none: the graph comes first, then the key file, then
/// the proof file, then the checker.
pub(crate) fn check_command<Rt: Threads + Wait + Sync, S: Shelf>(
    rt: &Rt,
    alloc: Global,
    shelf: &mut S,
    files: &CheckFiles<'_>,
    limits: &Limits,
) -> Result<(Answer, Vec<u8>), Ending>
    requires { CanBeKept limits.now }
    ensures { let Stops = Stopped S.Shelf shelf.old shelf.new (Checking files.now.graph.now files.now.keys.now files.now.proof.now) limits.now in
        MatchResult result (λ r. Stops (Ending.Done r.0 r.1)) Stops }
{
    let rows = read_rows(rt, alloc, WORKERS, shelf, files.graph, limits)?;
    let keys = read_keys(alloc, shelf, files.keys, limits)?;
    let read = ReadFiles { rows, keys };
    let proof = Source {
        name: files.proof,
        limits,
    };
    let (checker, keys, told) = checker_and_proof(rt, alloc, shelf, read, &proof)?;
    let answer = check_text(alloc, checker, &keys, &told)?;
    Ok(answer)
}
