//! The files of a command are read in their order, up to the first that fails or is refused.

ghost use Rattle.std.specs.Prelude.{◌≡◌, ◌<◌, ◌≤◌, ◌^◌, List, Ok, length, IfOk, IfErr, OnOk, IfSome};
ghost use Rattle.gk_base.specs.declared.term.Triple.{Triple as AnyTriple};
ghost use Rattle.gk_io.specs.Files.{bytes_of};
ghost use Rattle.gkey_cmd.specs.Commands.{Matching, Growing};
ghost use Rattle.gkey_cmd.specs.Reading.{KeyFileSays, ProofFileSays, left_by};
ghost use Rattle.gkey_cmd.specs.Limits.{CanBeKept};
ghost use Rattle.gkey_cmd.specs.HowFar.{KeysLeft, ProofLeft};
ghost use Rattle.graph_rows.specs.Rows.{StandFor, AreFew};
ghost use Rattle.gkey_cmd.specs.Endings.{EndsAt, Stopped, IsBeforeChase, ReadBoth, ReadThree};

use crate::chased::ChaseOptions;
use crate::ending::{Ending, more_ending};
use crate::file::File;
use crate::words::{GraphAndKeys, GrowFiles};
use gk_base::{Limits, Stop, Text};
use gk_io::{Failed, Shelf};
use graph_rows::{MoreRows, Rows, load, read_more_rows, read_rows};
use key_lang::KeyFile;
use proof_file::Proof;
use std::alloc::Global;
use std::sync::Wait;
use std::thread::Threads;
use steal_pool::Gate;

/// A graph and keys that were read.
#[derive(Drop)]
pub(crate) struct ReadFiles {
    /// The rows of the graph.
    pub(crate) rows: Rows,
    /// The keys.
    pub(crate) keys: KeyFile,
}

/// The keys of the key file, or the ending of a run that can't have them. It is loaded whole before it is judged.
pub(crate) fn read_keys<S: Shelf>(
    alloc: Global,
    shelf: &mut S,
    name: &Text,
    limits: &Limits,
) -> Result<KeyFile, Ending>
    requires { CanBeKept limits.now }
    ensures held { S.held shelf.new ≡ S.held shelf.old }
    ensures count { OnOk result (S.faults shelf.new ≡ S.faults shelf.old) }
    ensures says { IfOk result (λ keys. IfSome (S.held shelf.old) (λ files. KeyFileSays limits.now (bytes_of files name.now) (Ok keys))) }
    ensures left { OnOk result (KeysLeft S.Shelf shelf.old shelf.new limits.now name.now) }
    ensures ends { IfErr result (EndsAt S.Shelf shelf.old shelf.new limits.now File.Keys name.now) }
{
    let bytes = match load(alloc, shelf, name, limits.key_bytes) {
        Ok(bytes) => bytes,
        Err(Stop::NoMemory) => return Err(Ending::NoMemory),
        Err(Stop::Fault(Failed)) => return Err(Ending::Failed(File::Keys)),
    };
    Ok(key_lang::read_keys(alloc, &bytes, limits.key_bytes)?)
}

/// The proof of the proof file, or the ending of a run that can't have it. It is loaded whole before it is judged.
pub(crate) fn read_proof<S: Shelf>(
    alloc: Global,
    shelf: &mut S,
    name: &Text,
    limits: &Limits,
) -> Result<Proof, Ending>
    requires { CanBeKept limits.now }
    ensures held { S.held shelf.new ≡ S.held shelf.old }
    ensures count { OnOk result (S.faults shelf.new ≡ S.faults shelf.old) }
    ensures says { IfOk result (λ proof. IfSome (S.held shelf.old) (λ files. ProofFileSays limits.now (bytes_of files name.now) (Ok proof))) }
    ensures few { IfOk result (λ proof. length proof < 2 ^ 32) }
    ensures left { OnOk result (ProofLeft S.Shelf shelf.old shelf.new limits.now name.now) }
    ensures ends { IfErr result (EndsAt S.Shelf shelf.old shelf.new limits.now File.Proof name.now) }
{
    let bytes = match load(alloc, shelf, name, limits.bytes) {
        Ok(bytes) => bytes,
        Err(Stop::NoMemory) => return Err(Ending::NoMemory),
        Err(Stop::Fault(Failed)) => return Err(Ending::Failed(File::Proof)),
    };
    let proof = proof_file::read_proof(alloc, &bytes, limits.bytes)?;
    // Steps have numbers of 32 bits. No command has memory for a proof with more of them.
    if proof.steps.len() >= 1 << 32 {
        return Err(Ending::NoMemory);
    }
    Ok(proof)
}

/// The rows of the graph and the keys, or the ending of a run that can't have them: the graph comes first, then the key
/// file.
pub(crate) fn read_graph_and_keys<Rt: Threads + Wait + Sync, S: Shelf, G: Gate>(
    rt: &Rt,
    alloc: Global,
    shelf: &mut S,
    files: &GraphAndKeys<'_>,
    options: &ChaseOptions<'_, G>,
) -> Result<ReadFiles, Ending>
    requires { CanBeKept options.now.limits.now }
    ensures read { IfOk result (λ r. ReadBoth S.Shelf shelf.old shelf.new options.now.limits.now files.now.graph.now files.now.keys.now r.rows r.keys) }
    ensures few { IfOk result (λ r. AreFew r.rows) }
    ensures ends { IfErr result (Stopped S.Shelf shelf.old shelf.new (Matching files.now.graph.now files.now.keys.now) options.now.limits.now) }
    ensures before { IfErr result IsBeforeChase }
{
    let limits = options.limits;
    let rows = read_rows(rt, alloc, options.workers, shelf, files.graph, limits)?;
    let keys = read_keys(alloc, shelf, files.keys, limits)?;
    Ok(ReadFiles { rows, keys })
}

/// What the triples of these rows leave of the limits.
fn left_by(limits: &Limits, rows: &Rows) -> Limits
    requires { (triples : List AnyTriple) × StandFor rows.now triples × (length triples ≤ limits.now.triples) }
    ensures { (triples : List AnyTriple) → StandFor rows.now triples → result ≡ left_by limits.now triples }
{
    let count = rows.rows.as_slice().len() as u64;
    Limits {
        bytes: limits.bytes,
        key_bytes: limits.key_bytes,
        triples: limits.triples - count,
        pairs: limits.pairs,
    }
}

/// The rows of two graphs, those of the second behind those of the first, and the keys, or the ending of a run that can't have
/// them: the graph comes first, then the one that is added to it, under what the first leaves of the limits, then the key
/// file.
pub(crate) fn read_graphs_and_keys<Rt: Threads + Wait + Sync, S: Shelf, G: Gate>(
    rt: &Rt,
    alloc: Global,
    shelf: &mut S,
    files: &GrowFiles<'_>,
    options: &ChaseOptions<'_, G>,
) -> Result<(MoreRows, KeyFile), Ending>
    requires { CanBeKept options.now.limits.now }
    ensures read { IfOk result (λ r. ReadThree S.Shelf shelf.old shelf.new options.now.limits.now files.now.graph.now files.now.more.now files.now.keys.now r.0.rows r.1) }
    ensures few { IfOk result (λ r. AreFew r.0.rows) }
    ensures first { IfOk result (λ r. r.0.first ≤ length r.0.rows.rows.items) }
    ensures ends { IfErr result (Stopped S.Shelf shelf.old shelf.new (Growing files.now.graph.now files.now.more.now files.now.keys.now) options.now.limits.now) }
{
    let limits = options.limits;
    let threads = options.workers;
    let first = read_rows(rt, alloc, threads, shelf, files.graph, limits)?;
    let left = left_by(limits, &first);
    let both = match read_more_rows(rt, alloc, threads, shelf, files.more, &left, first) {
        Ok(both) => both,
        Err(stop) => return Err(more_ending(stop)),
    };
    let key_list = read_keys(alloc, shelf, files.keys, limits)?;
    Ok((both, key_list))
}
