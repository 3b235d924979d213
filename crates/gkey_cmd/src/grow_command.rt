//! `grow`: the report of the classes of two graphs together, from the files of both and of their keys.

ghost use Rattle.std.specs.Prelude.{◌≤◌, List, length, MatchResult};
ghost use Rattle.gk_base.specs.declared.term.Triple.{Triple as AnyTriple};
ghost use Rattle.graph_rows.specs.Rows.{StandFor, AreFew};
ghost use Rattle.gkey_cmd.specs.Commands.{Growing};
ghost use Rattle.gkey_cmd.specs.ChaseOptions.{AreInRange};
ghost use Rattle.gkey_cmd.specs.ChaseEnds.{MatchEnds};
ghost use Rattle.gkey_cmd.specs.Endings.{Stopped};

use crate::chased::{ChaseOptions, chase_ending};
use crate::ending::{Answer, Ending};
use crate::reading::read_graphs_and_keys;
use crate::words::GrowFiles;
use chase_laws::laws::law_rows;
use chase_ways::chase_growth;
use gk_io::Shelf;
use graph_rows::{MoreRows, number_growth};
use key_lang::KeyFile;
use std::alloc::Global;
use std::sync::Wait;
use std::thread::Threads;
use steal_pool::Gate;
use term_text::report;

/// The report of two graphs together whose files are read, or the ending of a run that has none: by a chase of the first graph,
/// and then of both, from what is identified over the first, which is not searched again.
fn grow_text<Rt: Threads + Wait + Sync, G: Gate>(
    rt: &Rt,
    alloc: Global,
    both: MoreRows,
    keys: &KeyFile,
    options: &ChaseOptions<'_, G>,
) -> Result<Vec<u8>, Ending>
    requires few { AreFew both.rows }
    requires first { both.first ≤ length both.rows.rows.items }
    requires options { AreInRange options.now.limits.now options.now.workers }
    ensures { (triples : List AnyTriple) → StandFor both.rows triples → MatchEnds triples keys.now options.now.limits.now.pairs result }
{
    law_rows();
    let growth = number_growth(rt, alloc, options.workers, both.rows, both.first, keys)?;
    let chased = chase_growth(
        rt,
        alloc,
        options.workers,
        growth.first,
        growth.both,
        growth.patterns,
        options.limits.pairs,
        None,
        options.gate,
    );
    let grown = match chased {
        Ok(grown) => grown,
        Err(stop) => return Err(chase_ending(stop, options.limits.pairs)),
    };
    let report = report(rt, alloc, options.workers, &growth.names, &grown.now.labels)?;
    Ok(report.into_vec())
}

/// The report of `grow`, or the ending of a run that has none: the files are read, and then the first graph is chased, and the
/// two together from there on, with so many workers that pass the gate before each search.
pub(crate) fn grow_command<Rt: Threads + Wait + Sync, S: Shelf, G: Gate>(
    rt: &Rt,
    alloc: Global,
    shelf: &mut S,
    files: &GrowFiles<'_>,
    options: &ChaseOptions<'_, G>,
) -> Result<Vec<u8>, Ending>
    requires { AreInRange options.now.limits.now options.now.workers }
    ensures { let Stops = Stopped S.Shelf shelf.old shelf.new (Growing files.now.graph.now files.now.more.now files.now.keys.now) options.now.limits.now in
        MatchResult result (λ text. Stops (Ending.Done Answer.Given text)) Stops }
{
    let (both, keys) = read_graphs_and_keys(rt, alloc, shelf, files, options)?;
    grow_text(rt, alloc, both, &keys, options)
}
