//! `prove`: a proof of all that is the same, from the files of a graph and its keys.

ghost use Rattle.std.specs.Prelude.{◌≡◌, List, map, length, IfOk, MatchResult};
ghost use Rattle.gk_base.specs.declared.term.Triple.{Triple as AnyTriple};
ghost use Rattle.key_file.specs.KeyShape.{KeyShape};
ghost use Rattle.graph_rows.specs.Rows.{StandFor, AreFew};
ghost use Rattle.gkey_cmd.specs.Commands.{Proving};
ghost use Rattle.gkey_cmd.specs.ChaseOptions.{AreInRange};
ghost use Rattle.gkey_cmd.specs.Told.{IsFinished, TellsJournal};
ghost use Rattle.gkey_cmd.specs.ChaseEnds.{ProveEnds};
ghost use Rattle.gkey_cmd.specs.Endings.{Stopped};

use crate::chased::{ChaseOptions, chase_files};
use crate::ending::{Answer, Ending};
use crate::reading::{ReadFiles, read_graph_and_keys};
use crate::words::GraphAndKeys;
use chase_laws::all_valid;
use chase_laws::laws::{law_chase, law_rows};
use chase_ways::Finished;
use gk_base::{NoMemory, Text};
use gk_io::Shelf;
use key_file::KeyDef;
use proof_check::law_proof;
use proof_file::{law_proof_read_back, put_proof};
use proof_graph::build_proof;
use std::alloc::Global;
use std::sync::Wait;
use std::thread::Threads;
use steal_pool::Gate;
use term_table::Names;

/// The names of keys, in their order.
pub(crate) fn key_names(alloc: Global, keys: &[KeyDef]) -> Result<Vec<Text>, NoMemory>
    ensures { IfOk result (λ names. names.items ≡ map (λ (k : KeyShape). k.name) keys.now) }
{
    let mut names = Vec::with_capacity(alloc, keys.len())?;
    for key in keys {
        names.push(key.name.copy()?)?;
    }
    Ok(names)
}

/// The text of the proof that the journal of a finished chase is made into.
fn journal_text(
    alloc: Global,
    names: &Names,
    finished: &Finished,
    keys: &[KeyDef],
) -> Result<Vec<u8>, NoMemory>
    requires finished { IsFinished finished.now.ground finished.now.labels.items finished.now.journal.items }
    requires named { length finished.now.ground.graph.literal ≡ length names.now }
    requires one_each { length keys.now ≡ length finished.now.ground.patterns }
    ensures { IfOk result (λ text. TellsJournal finished.now.ground names.now (map (λ (k : KeyShape). k.name) keys.now) text.items) }
{
    law_proof_read_back();
    let patterns = finished.ground.patterns();
    all_valid(patterns);
    // For the proof alone: what a graph and its names are.
    let graph = finished.ground.graph();
    let _names = graph.names();
    let _distinct = names.len();
    let key_names = key_names(alloc, keys)?;
    let proof = build_proof(alloc, &finished.journal, names, patterns, &key_names)?;
    let mut text = Vec::new(alloc);
    put_proof(&mut text, &proof)?;
    Ok(text)
}

/// The proof of a chase whose files are read, or the ending of a run that has none.
fn prove_text<Rt: Threads + Wait + Sync, G: Gate>(
    rt: &Rt,
    alloc: Global,
    read: ReadFiles,
    options: &ChaseOptions<'_, G>,
) -> Result<Vec<u8>, Ending>
    requires few { AreFew read.rows }
    requires options { AreInRange options.now.limits.now options.now.workers }
    ensures { (triples : List AnyTriple) → StandFor read.rows triples → ProveEnds triples read.keys options.now.limits.now.pairs result }
{
    law_rows();
    law_chase();
    law_proof();
    let ReadFiles { rows, keys } = read;
    let (names, finished) = chase_files(rt, alloc, rows, &keys, options)?;
    let text = journal_text(alloc, &names, &finished, keys.keys())?;
    Ok(text)
}

/// The proof of `prove`, or the ending of a run that has none: the files come as for `match`, then the chase.
pub(crate) fn prove_command<Rt: Threads + Wait + Sync, S: Shelf, G: Gate>(
    rt: &Rt,
    alloc: Global,
    shelf: &mut S,
    files: &GraphAndKeys<'_>,
    options: &ChaseOptions<'_, G>,
) -> Result<Vec<u8>, Ending>
    requires { AreInRange options.now.limits.now options.now.workers }
    ensures { let Stops = Stopped S.Shelf shelf.old shelf.new (Proving files.now.graph.now files.now.keys.now) options.now.limits.now in
        MatchResult result (λ text. Stops (Ending.Done Answer.Given text)) Stops }
{
    let read = read_graph_and_keys(rt, alloc, shelf, files, options)?;
    prove_text(rt, alloc, read, options)
}
