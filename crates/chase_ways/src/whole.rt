//! The chase of a graph.

ghost use Rattle.std.specs.Prelude.{◌≡◌, ◌<◌, ◌≤◌, ◌^◌, ◌++◌, List, IfErr, IfOk, IfSome, OnOk, length};
ghost use Rattle.chase_laws.specs.declared.entry.Entry.{Entry};
ghost use Rattle.chase_laws.specs.Chase.{IsDerivation, IsLean};
ghost use Rattle.chase_ways.specs.Limit.{CanBeKept};
ghost use Rattle.match_run.specs.Classes.{AreClasses, IsFinishedJournal};
ghost use Rattle.pair_seed.specs.Pairs.{HasMoreCandidates};
ghost use Rattle.pair_seed.specs.Stop.{IsRightStop};

use crate::ground::Ground;
use crate::way::{Way, check_limit, is_counted, most_rows, way_for};
use chase_core::Matched;
use chase_laws::{Entry, Pattern, all_valid};
use gk_base::NoMemory;
use key_valuations::list_valuations;
use match_run::{Prepared, chase_setup, prepare_graph};
use pair_seed::{SeedStop, bound_candidates};
use signature_chase::{Chased, chase_by_signatures};
use std::alloc::Global;
use std::sync::Wait;
use std::thread::Threads;
use steal_pool::Gate;
use typed_graph::Graph;

/// What a whole chase comes to.
#[derive(Drop)]
pub struct Finished {
    /// What was chased.
    pub ground: Ground,
    /// One label for each name, equal exactly where two names are the same.
    pub labels: Vec<u32>,
    /// What was identified, in order.
    pub journal: Vec<Entry>,
}

/// The chase of a graph by signatures, which begins with what is given. None where the valuations are more than `most`, or may be.
pub(crate) fn by_signatures<R: Threads + Sync>(
    rt: &R,
    alloc: Global,
    threads: u32,
    graph: &Graph,
    patterns: &[Pattern],
    given: &[Entry],
    most: u64,
) -> Result<Option<Chased>, NoMemory>
    requires derivation { IsDerivation graph.now patterns.now given.now }
    requires lean { IsLean given.now }
    ensures begins { IfOk result (λ answer. IfSome answer (λ c. (more : List Entry) × (c.journal.items ≡ given.now ++ more))) }
    ensures journal { IfOk result (λ answer. IfSome answer (λ c. IsFinishedJournal graph.now patterns.now c.journal.items)) }
    ensures classes { IfOk result (λ answer. IfSome answer (λ c. AreClasses graph.now patterns.now c.labels.items)) }
{
    // A fact for the proof: patterns are valid.
    all_valid(patterns);
    let Some(groups) = list_valuations(rt, alloc, threads, graph, patterns, most)? else {
        return Ok(None);
    };
    let chased = chase_by_signatures(alloc, graph, patterns, &groups, given)?;
    Ok(Some(chased))
}

/// The chase of a graph by candidate pairs.
fn chase_pairs<R: Threads + Wait + Sync, G: Gate>(
    rt: &R,
    alloc: Global,
    workers: u32,
    graph: Graph,
    patterns: Vec<Pattern>,
    limit: u64,
    gate: &G,
) -> Result<Finished, SeedStop>
    requires limit { limit < 2 ^ 32 }
    requires few { length patterns.items < 2 ^ 32 }
    requires workers { (0 < workers) × (workers ≤ 64) }
    ensures graph { IfOk result (λ f. f.ground.graph ≡ graph) }
    ensures patterns { IfOk result (λ f. f.ground.patterns ≡ patterns.items) }
    ensures journal { IfOk result (λ f. IsFinishedJournal graph patterns.items f.journal.items) }
    ensures classes { IfOk result (λ f. AreClasses graph patterns.items f.labels.items) }
    ensures no_more { OnOk result (¬ (HasMoreCandidates graph patterns.items limit)) }
    ensures stop { IfErr result (IsRightStop graph patterns.items limit) }
{
    let Prepared { setup, .. } = prepare_graph(rt, alloc, workers, graph, patterns, limit)?;
    let Matched { labels, journal } = chase_setup(rt, alloc, &setup, workers, gate)?;
    let ground = Ground::of_setup(setup);
    Ok(Finished {
        ground,
        labels,
        journal,
    })
}

/// The chase of a graph by signatures, where at most so many candidate pairs are known to be. None where the valuations are more
/// than `rows`, or may be.
fn chase_signatures<R: Threads + Sync>(
    rt: &R,
    alloc: Global,
    threads: u32,
    graph: &Graph,
    patterns: &[Pattern],
    most: Option<u64>,
    limit: u64,
    rows: u64,
) -> Result<Option<Chased>, SeedStop>
    requires limit { limit < 2 ^ 32 }
    requires most { IfSome most (λ n. ¬ (HasMoreCandidates graph.now patterns.now limit)) }
    ensures journal { IfOk result (λ answer. IfSome answer (λ c. IsFinishedJournal graph.now patterns.now c.journal.items)) }
    ensures classes { IfOk result (λ answer. IfSome answer (λ c. AreClasses graph.now patterns.now c.labels.items)) }
    ensures no_more { OnOk result (¬ (HasMoreCandidates graph.now patterns.now limit)) }
    ensures stop { IfErr result (IsRightStop graph.now patterns.now limit) }
{
    check_limit(alloc, graph, patterns, most, limit)?;
    let chased = by_signatures(rt, alloc, threads, graph, patterns, &[], rows)?;
    Ok(chased)
}

/// The chase of a graph by signatures, whatever the number of candidate pairs. Only want of memory stops it.
fn chase_uncounted<R: Threads + Sync>(
    rt: &R,
    alloc: Global,
    threads: u32,
    graph: Graph,
    patterns: Vec<Pattern>,
) -> Result<Finished, NoMemory>
    ensures graph { IfOk result (λ f. f.ground.graph ≡ graph) }
    ensures patterns { IfOk result (λ f. f.ground.patterns ≡ patterns.items) }
    ensures journal { IfOk result (λ f. IsFinishedJournal graph patterns.items f.journal.items) }
    ensures classes { IfOk result (λ f. AreClasses graph patterns.items f.labels.items) }
{
    let chased = by_signatures(rt, alloc, threads, &graph, &patterns, &[], u64::MAX)?;
    // No machine has memory for so many valuations.
    let Some(Chased { labels, journal }) = chased else {
        return Err(NoMemory);
    };
    let ground = Ground::new(graph, patterns);
    Ok(Finished {
        ground,
        labels,
        journal,
    })
}

/// Chases a graph by the keys' patterns to its end, in the way that is asked for, or where none is in the one that serves the
/// graph. A chase by signatures goes on by pairs where there are too many valuations, unless signatures are asked for. The labels
/// are equal exactly where two names are the same, and the journal is a lean derivation beyond which no step goes. `workers` says
/// how many threads may be used, 1 to 64; by pairs as many workers chase, each of which passes the gate before each search, and
/// by signatures none passes it.
///
/// With the limit `u64::MAX` no pair is counted, and the chase goes by signatures, also where pairs are asked for.
///
/// `TooManyPairs` comes exactly where there are more candidate pairs than `limit`, so never with that largest one, and `NoMemory`
/// where memory ran out.
pub fn chase_graph<R: Threads + Wait + Sync, G: Gate>(
    rt: &R,
    alloc: Global,
    workers: u32,
    graph: Graph,
    patterns: Vec<Pattern>,
    limit: u64,
    way: Option<Way>,
    gate: &G,
) -> Result<Finished, SeedStop>
    requires limit { CanBeKept limit }
    requires few { length patterns.items < 2 ^ 32 }
    requires workers { (0 < workers) × (workers ≤ 64) }
    ensures graph { IfOk result (λ f. f.ground.graph ≡ graph) }
    ensures patterns { IfOk result (λ f. f.ground.patterns ≡ patterns.items) }
    ensures journal { IfOk result (λ f. IsFinishedJournal graph patterns.items f.journal.items) }
    ensures classes { IfOk result (λ f. AreClasses graph patterns.items f.labels.items) }
    ensures no_more { OnOk result (¬ (HasMoreCandidates graph patterns.items limit)) }
    ensures stop { IfErr result (IsRightStop graph patterns.items limit) }
{
    if !is_counted(&graph, &patterns, limit) {
        return Ok(chase_uncounted(rt, alloc, workers, graph, patterns)?);
    }
    let most = bound_candidates(alloc, &graph, &patterns, limit)?;
    if let Way::Signatures = way.unwrap_or(way_for(graph.names(), most)) {
        let rows = most_rows(graph.names(), most, way);
        let chased = chase_signatures(rt, alloc, workers, &graph, &patterns, most, limit, rows)?;
        if let Some(Chased { labels, journal }) = chased {
            let ground = Ground::new(graph, patterns);
            return Ok(Finished {
                ground,
                labels,
                journal,
            });
        }
    }
    chase_pairs(rt, alloc, workers, graph, patterns, limit, gate)
}
