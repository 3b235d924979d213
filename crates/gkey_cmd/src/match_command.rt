//! `match`: the report of the classes, from the files of a graph and its keys.

ghost use Rattle.std.specs.Prelude.{List, MatchResult};
ghost use Rattle.gk_base.specs.declared.term.Triple.{Triple as AnyTriple};
ghost use Rattle.graph_rows.specs.Rows.{StandFor, AreFew};
ghost use Rattle.gkey_cmd.specs.Commands.{Matching};
ghost use Rattle.gkey_cmd.specs.ChaseOptions.{AreInRange};
ghost use Rattle.gkey_cmd.specs.ChaseEnds.{MatchEnds};
ghost use Rattle.gkey_cmd.specs.Endings.{Stopped};

use crate::chased::{ChaseOptions, chase_files};
use crate::ending::{Answer, Ending};
use crate::reading::{ReadFiles, read_graph_and_keys};
use crate::words::GraphAndKeys;
use chase_laws::laws::law_rows;
use chase_ways::Finished;
use gk_io::Shelf;
use std::alloc::Global;
use std::sync::Wait;
use std::thread::Threads;
use steal_pool::Gate;
use term_text::report;

/// The report of a match whose files are read, or the ending of a run that has none.
fn match_text<Rt: Threads + Wait + Sync, G: Gate>(
    rt: &Rt,
    alloc: Global,
    read: ReadFiles,
    options: &ChaseOptions<'_, G>,
) -> Result<Vec<u8>, Ending>
    requires few { AreFew read.rows }
    requires options { AreInRange options.now.limits.now options.now.workers }
    ensures { (triples : List AnyTriple) → StandFor read.rows triples → MatchEnds triples read.keys options.now.limits.now.pairs result }
{
    law_rows();
    let ReadFiles { rows, keys } = read;
    let (names, finished) = chase_files(rt, alloc, rows, &keys, options)?;
    let Finished { ground, labels, .. } = finished;
    // What was chased is needed no more, and the texts of a report take much memory.
    drop(ground);
    let report = report(rt, alloc, options.workers, &names, &labels)?;
    Ok(report.into_vec())
}

/// The report of `match`, or the ending of a run that has none: the files are read, and then the chase runs, with so many
/// workers that pass the gate before each search.
pub(crate) fn match_command<Rt: Threads + Wait + Sync, S: Shelf, G: Gate>(
    rt: &Rt,
    alloc: Global,
    shelf: &mut S,
    files: &GraphAndKeys<'_>,
    options: &ChaseOptions<'_, G>,
) -> Result<Vec<u8>, Ending>
    requires { AreInRange options.now.limits.now options.now.workers }
    ensures { let Stops = Stopped S.Shelf shelf.old shelf.new (Matching files.now.graph.now files.now.keys.now) options.now.limits.now in
        MatchResult result (λ text. Stops (Ending.Done Answer.Given text)) Stops }
{
    let read = read_graph_and_keys(rt, alloc, shelf, files, options)?;
    match_text(rt, alloc, read, options)
}
