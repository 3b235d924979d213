//! The chase of a command's files: from the rows of the graph and the keys to what is the same.

ghost use Rattle.std.specs.Prelude.{◌≡◌, ◌<◌, ◌^◌, List, IfOk, IfErr, OnOk, length};
ghost use Rattle.gk_base.specs.declared.term.Triple.{Triple as AnyTriple};
ghost use Rattle.pair_seed.specs.Pairs.{HasMoreCandidates};
ghost use Rattle.graph_rows.specs.Rows.{StandFor, AreFew};
ghost use Rattle.gkey_cmd.specs.Match.{HasTooManyPairs};
ghost use Rattle.gkey_cmd.specs.ChaseOptions.{AreInRange};
ghost use Rattle.gkey_cmd.specs.Told.{AreOfFiles, IsFinished};
ghost use Rattle.gkey_cmd.specs.ChaseEnds.{chase_ending, IsStopped, IsChaseEnding};

use crate::ending::{Ending, Refusal};
use chase_laws::laws::law_rows;
use chase_ways::{Finished, chase_graph};
use gk_base::{Limits, Stop};
use graph_rows::{Numbered, Rows, number};
use key_lang::KeyFile;
use pair_seed::SeedStop;
use std::alloc::Global;
use std::sync::Wait;
use std::thread::Threads;
use steal_pool::Gate;
use term_table::Names;

/// How a command that chases goes.
#[derive(Drop)]
pub struct ChaseOptions<'o, G> {
    /// What the files and the candidate pairs of a run may be at most.
    pub limits: &'o Limits,
    /// How many threads may be used, 1 to 64. Where candidate pairs are searched, as many workers search them.
    pub workers: u32,
    /// What each worker passes before a search.
    pub gate: &'o G,
}

/// The ending of a run whose chase was stopped, or whose candidate pairs are more than this limit.
pub(crate) fn chase_ending(stop: SeedStop, limit: u64) -> Ending
    ensures { result ≡ chase_ending limit stop }
{
    match stop {
        Stop::NoMemory => Ending::NoMemory,
        Stop::Fault(_) => Ending::Refused(Refusal::MorePairsThan(limit)),
    }
}

/// The names of a graph and its keys in numbers, and the finished chase over it, or the ending of a run that has none:
/// `MorePairsThan` exactly where there are more candidate pairs than the limit, and `NoMemory` where memory ran out.
pub(crate) fn chase_numbered<Rt: Threads + Wait + Sync, G: Gate>(
    rt: &Rt,
    alloc: Global,
    numbered: Numbered,
    options: &ChaseOptions<'_, G>,
) -> Result<(Names, Finished), Ending>
    requires few { length numbered.patterns.items < 2 ^ 32 }
    requires options { AreInRange options.now.limits.now options.now.workers }
    ensures names { IfOk result (λ r. r.0 ≡ numbered.names) }
    ensures graph { IfOk result (λ r. r.1.ground.graph ≡ numbered.graph) }
    ensures patterns { IfOk result (λ r. r.1.ground.patterns ≡ numbered.patterns.items) }
    ensures finished { IfOk result (λ r. IsFinished r.1.ground r.1.labels.items r.1.journal.items) }
    ensures no_more { OnOk result (¬ (HasMoreCandidates numbered.graph numbered.patterns.items options.now.limits.now.pairs)) }
    ensures ends { IfErr result (IsStopped numbered.graph numbered.patterns.items options.now.limits.now.pairs) }
{
    let Numbered {
        names,
        graph,
        patterns,
    } = numbered;
    let chased = chase_graph(
        rt,
        alloc,
        options.workers,
        graph,
        patterns,
        options.limits.pairs,
        None,
        options.gate,
    );
    match chased {
        Ok(finished) => Ok((names, finished)),
        Err(stop) => Err(chase_ending(stop, options.limits.pairs)),
    }
}

/// The same from the rows of the graph and the keys.
pub(crate) fn chase_files<Rt: Threads + Wait + Sync, G: Gate>(
    rt: &Rt,
    alloc: Global,
    rows: Rows,
    keys: &KeyFile,
    options: &ChaseOptions<'_, G>,
) -> Result<(Names, Finished), Ending>
    requires few { AreFew rows }
    requires options { AreInRange options.now.limits.now options.now.workers }
    ensures of_files { IfOk result (λ r. (triples : List AnyTriple) → StandFor rows triples → AreOfFiles r.0 r.1.ground triples keys.now) }
    ensures finished { IfOk result (λ r. IsFinished r.1.ground r.1.labels.items r.1.journal.items) }
    ensures no_more { OnOk result ((triples : List AnyTriple) → StandFor rows triples → ¬ (HasTooManyPairs triples keys.now options.now.limits.now.pairs)) }
    ensures ends { IfErr result (λ ending. (triples : List AnyTriple) → StandFor rows triples → IsChaseEnding triples keys.now options.now.limits.now.pairs ending) }
{
    law_rows();
    let numbered = number(rt, alloc, options.workers, rows, keys)?;
    chase_numbered(rt, alloc, numbered, options)
}
