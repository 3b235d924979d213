//! `demo`: how many triples, candidate pairs, classes and members there are, from the two texts that it makes.

ghost use Rattle.std.specs.Prelude.{◌<◌, ◌≤◌, ◌≡◌, ◌^◌, List, IfOk, MatchResult, length};
ghost use Rattle.gk_base.specs.declared.term.Triple.{Triple as AnyTriple};
ghost use Rattle.graph_rows.specs.Rows.{StandFor, AreFew};
ghost use Rattle.gkey_cmd.specs.ChaseOptions.{AreInRange};
ghost use Rattle.gkey_cmd.specs.Demo.{demo_files};
ghost use Rattle.gkey_cmd.specs.Told.{IsFinished, TellsCounts};
ghost use Rattle.gkey_cmd.specs.ChaseEnds.{DemoEnds};
ghost use Rattle.gkey_cmd.specs.Endings.{DemoStops};

use crate::chased::{ChaseOptions, chase_ending, chase_numbered};
use crate::ending::{Answer, Ending};
use crate::reading::{ReadFiles, read_graph_and_keys};
use crate::words::GraphAndKeys;
use chase_laws::laws::law_rows;
use chase_ways::Finished;
use demo_graph::{count_classes, demo_line, demo_texts};
use gk_base::{NoMemory, Text};
use gk_io::SureShelf;
use graph_rows::number;
use pair_seed::count_candidates;
use std::alloc::Global;
use std::sync::Wait;
use std::thread::Threads;
use steal_pool::Gate;

/// The name that a demo's graph goes by.
const DEMO_GRAPH: &[u8] = b"graph";

/// The name that a demo's keys go by.
const DEMO_KEYS: &[u8] = b"keys";

/// A demo's own two texts, as files.
fn demo_shelf(alloc: Global, n: u32) -> Result<SureShelf, NoMemory>
    requires { (0 < n) × (n ≤ 100000) }
    ensures { IfOk result (λ shelf. shelf.files ≡ demo_files n) }
{
    let (graph, keys) = demo_texts(alloc, n)?;
    let mut files = Vec::with_capacity(alloc, 2)?;
    files.push((Text::from_bytes(alloc, DEMO_GRAPH)?, graph))?;
    files.push((Text::from_bytes(alloc, DEMO_KEYS)?, keys))?;
    Ok(SureShelf::new(files))
}

/// The line with the number of a graph's rows, this number of candidate pairs, and the counts of a finished chase's classes.
fn line_of(alloc: Global, finished: &Finished, pairs: u64) -> Result<Vec<u8>, NoMemory>
    requires finished { IsFinished finished.now.ground finished.now.labels.items finished.now.journal.items }
    ensures { IfOk result (λ line. TellsCounts finished.now.ground (length finished.now.ground.graph.rows) pairs line.items) }
{
    let graph = finished.ground.graph();
    let _names = graph.names();
    let triples = graph.rows().len() as u64;
    let counts = count_classes(alloc, &finished.labels)?;
    demo_line(alloc, triples, pairs, counts)
}

/// The line of a demo whose texts are read, or the ending of a run that has none.
fn demo_text<Rt: Threads + Wait + Sync, G: Gate>(
    rt: &Rt,
    alloc: Global,
    read: ReadFiles,
    options: &ChaseOptions<'_, G>,
) -> Result<Vec<u8>, Ending>
    requires few { AreFew read.rows }
    requires options { AreInRange options.now.limits.now options.now.workers }
    requires counted { options.now.limits.now.pairs < 2 ^ 32 }
    ensures { (triples : List AnyTriple) → StandFor read.rows triples → DemoEnds triples read.keys options.now.limits.now.pairs result }
{
    law_rows();
    let ReadFiles { rows, keys } = read;
    let numbered = number(rt, alloc, options.workers, rows, &keys)?;
    let limit = options.limits.pairs;
    let pairs = match count_candidates(alloc, &numbered.graph, &numbered.patterns, limit) {
        Ok(pairs) => pairs,
        Err(stop) => return Err(chase_ending(stop, limit)),
    };
    let (_names, finished) = chase_numbered(rt, alloc, numbered, options)?;
    let _ascending = finished.ground.graph().rows();
    let line = line_of(alloc, &finished, pairs)?;
    Ok(line)
}

/// The line of `demo`, or the ending of a run that has none. Its own two texts are read as the files of `match` are, and then
/// the chase runs as there.
pub(crate) fn demo_command<Rt: Threads + Wait + Sync, G: Gate>(
    rt: &Rt,
    alloc: Global,
    n: u32,
    options: &ChaseOptions<'_, G>,
) -> Result<Vec<u8>, Ending>
    requires number { (0 < n) × (n ≤ 100000) }
    requires options { AreInRange options.now.limits.now options.now.workers }
    requires counted { options.now.limits.now.pairs < 2 ^ 32 }
    ensures { let Stops = DemoStops n options.now.limits.now in
        MatchResult result (λ text. Stops (Ending.Done Answer.Given text)) Stops }
{
    let graph = Text::from_bytes(alloc, DEMO_GRAPH)?;
    let keys = Text::from_bytes(alloc, DEMO_KEYS)?;
    let files = GraphAndKeys {
        graph: &graph,
        keys: &keys,
    };
    let mut shelf = demo_shelf(alloc, n)?;
    let read = read_graph_and_keys(rt, alloc, &mut shelf, &files, options)?;
    demo_text(rt, alloc, read, options)
}
