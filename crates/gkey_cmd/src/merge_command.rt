//! `merge`: the graph in which each entity stands as the first member of its class, from the files of a graph and its keys.

ghost use Rattle.std.specs.Prelude.{◌≡◌, List, length, IfOk, MatchResult};
ghost use Rattle.gk_base.specs.declared.term.Triple.{Triple as AnyTriple};
ghost use Rattle.graph_rows.specs.Rows.{StandFor, AreFew};
ghost use Rattle.gkey_cmd.specs.Commands.{Merging};
ghost use Rattle.gkey_cmd.specs.ChaseOptions.{AreInRange};
ghost use Rattle.gkey_cmd.specs.Told.{IsFinished, TellsMerged};
ghost use Rattle.gkey_cmd.specs.ChaseEnds.{MergeEnds};
ghost use Rattle.gkey_cmd.specs.Endings.{Stopped};

use crate::chased::{ChaseOptions, chase_files};
use crate::ending::{Answer, Ending};
use crate::reading::{ReadFiles, read_graph_and_keys};
use crate::words::GraphAndKeys;
use chase_laws::all_valid;
use chase_laws::laws::{law_entities, law_rows};
use chase_ways::Finished;
use gk_base::NoMemory;
use gk_io::Shelf;
use merge_graph::merge;
use std::alloc::Global;
use std::sync::Wait;
use std::thread::Threads;
use steal_pool::Gate;
use term_table::Names;

/// The text of the graph that is merged by the labels of a finished chase.
fn graph_text(alloc: Global, names: &Names, finished: &Finished) -> Result<Vec<u8>, NoMemory>
    requires finished { IsFinished finished.now.ground finished.now.labels.items finished.now.journal.items }
    requires named { length finished.now.ground.graph.literal ≡ length names.now }
    ensures { IfOk result (λ text. TellsMerged finished.now.ground names.now text.items) }
{
    let graph = finished.ground.graph();
    // For the proof alone: rows are of names.
    let _names = graph.names();
    let text = merge(alloc, names, graph.rows(), &finished.labels)?;
    Ok(text.into_vec())
}

/// The text of a merge whose files are read, or the ending of a run that has none.
fn merge_text<Rt: Threads + Wait + Sync, G: Gate>(
    rt: &Rt,
    alloc: Global,
    read: ReadFiles,
    options: &ChaseOptions<'_, G>,
) -> Result<Vec<u8>, Ending>
    requires few { AreFew read.rows }
    requires options { AreInRange options.now.limits.now options.now.workers }
    ensures { (triples : List AnyTriple) → StandFor read.rows triples → MergeEnds triples read.keys options.now.limits.now.pairs result }
{
    law_rows();
    law_entities();
    let ReadFiles { rows, keys } = read;
    let (names, finished) = chase_files(rt, alloc, rows, &keys, options)?;
    // For the proof alone: patterns are valid.
    all_valid(finished.ground.patterns());
    let text = graph_text(alloc, &names, &finished)?;
    Ok(text)
}

/// The merged graph of `merge`, or the ending of a run that has none: the files come as for `match`, then the chase.
pub(crate) fn merge_command<Rt: Threads + Wait + Sync, S: Shelf, G: Gate>(
    rt: &Rt,
    alloc: Global,
    shelf: &mut S,
    files: &GraphAndKeys<'_>,
    options: &ChaseOptions<'_, G>,
) -> Result<Vec<u8>, Ending>
    requires { AreInRange options.now.limits.now options.now.workers }
    ensures { let Stops = Stopped S.Shelf shelf.old shelf.new (Merging files.now.graph.now files.now.keys.now) options.now.limits.now in
        MatchResult result (λ text. Stops (Ending.Done Answer.Given text)) Stops }
{
    let read = read_graph_and_keys(rt, alloc, shelf, files, options)?;
    merge_text(rt, alloc, read, options)
}
