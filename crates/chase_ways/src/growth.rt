//! The chase of a graph, and of the graph with more rows from there on.

ghost use Rattle.std.specs.Prelude.{◌≡◌, ◌<◌, ◌≤◌, ◌^◌, ◌++◌, List, IfErr, IfOk, IfSome, OnOk, length};
ghost use Rattle.chase_laws.specs.declared.entry.Entry.{Entry};
ghost use Rattle.chase_laws.specs.SameRows.{HasRowsOf};
ghost use Rattle.chase_ways.specs.Limit.{CanBeKept};
ghost use Rattle.match_run.specs.Classes.{AreClasses, IsFinishedJournal};
ghost use Rattle.pair_seed.specs.Pairs.{HasMoreCandidates};
ghost use Rattle.pair_seed.specs.Stop.{IsRightStop};

use crate::way::{Way, check_limit, is_counted, most_rows, way_for};
use crate::whole::by_signatures;
use chase_core::Matched;
use chase_laws::Pattern;
use chase_laws::laws::law_rows;
use gk_base::{NoMemory, Stop};
use grow_match::{Grown, grow};
use pair_seed::{SeedStop, bound_candidates};
use signature_chase::Chased;
use std::alloc::Global;
use std::sync::Wait;
use std::thread::Threads;
use steal_pool::Gate;
use typed_graph::Graph;

/// What `chase_growth` promises, by signatures and whatever the number of candidate pairs. None where the valuations over one of
/// the graphs are more than `rows`, or may be. Only want of memory stops it.
fn grow_signatures<R: Threads + Sync>(
    rt: &R,
    alloc: Global,
    threads: u32,
    first: &Graph,
    both: &Graph,
    patterns: &[Pattern],
    rows: u64,
) -> Result<Option<Grown>, NoMemory>
    requires { HasRowsOf patterns.now first.now both.now }
    ensures old { IfOk result (λ answer. IfSome answer (λ g. IsFinishedJournal first.now patterns.now g.old.items)) }
    ensures begins { IfOk result (λ answer. IfSome answer (λ g. (more : List Entry) × (g.now.journal.items ≡ g.old.items ++ more))) }
    ensures journal { IfOk result (λ answer. IfSome answer (λ g. IsFinishedJournal both.now patterns.now g.now.journal.items)) }
    ensures classes { IfOk result (λ answer. IfSome answer (λ g. AreClasses both.now patterns.now g.now.labels.items)) }
{
    // A fact for the proof: a derivation over some rows is one over more.
    law_rows();
    let before = by_signatures(rt, alloc, threads, first, patterns, &[], rows)?;
    let Some(Chased { journal: old, .. }) = before else {
        return Ok(None);
    };
    let after = by_signatures(rt, alloc, threads, both, patterns, &old, rows)?;
    let Some(Chased { labels, journal }) = after else {
        return Ok(None);
    };
    let now = Matched { labels, journal };
    Ok(Some(Grown { old, now }))
}

/// Chases a graph, and then a graph that has all rows of the first and is else equal, from what was identified over the first:
/// as `grow_match::grow` promises it, in the way that is asked for, or where none is in the one that serves the whole graph. By
/// signatures it goes on by pairs where there are too many valuations, unless signatures are asked for.
///
/// With the limit `u64::MAX` no pair is counted, and both chases go by signatures, also where pairs are asked for.
///
/// `TooManyPairs` comes exactly where the whole graph has more candidate pairs than `limit`, so never with that largest one, and
/// `NoMemory` where memory ran out.
pub fn chase_growth<R: Threads + Wait + Sync, G: Gate>(
    rt: &R,
    alloc: Global,
    workers: u32,
    first: Graph,
    both: Graph,
    patterns: Vec<Pattern>,
    limit: u64,
    way: Option<Way>,
    gate: &G,
) -> Result<Grown, SeedStop>
    requires rows { HasRowsOf patterns.items first both }
    requires limit { CanBeKept limit }
    requires few { length patterns.items < 2 ^ 32 }
    requires workers { (0 < workers) × (workers ≤ 64) }
    ensures old { IfOk result (λ g. IsFinishedJournal first patterns.items g.old.items) }
    ensures begins { IfOk result (λ g. (more : List Entry) × (g.now.journal.items ≡ g.old.items ++ more)) }
    ensures journal { IfOk result (λ g. IsFinishedJournal both patterns.items g.now.journal.items) }
    ensures classes { IfOk result (λ g. AreClasses both patterns.items g.now.labels.items) }
    ensures no_more { OnOk result (¬ (HasMoreCandidates both patterns.items limit)) }
    ensures stop { IfErr result (IsRightStop both patterns.items limit) }
{
    if !is_counted(&both, &patterns, limit) {
        // No machine has memory for so many valuations.
        let grown = grow_signatures(rt, alloc, workers, &first, &both, &patterns, u64::MAX)?;
        return grown.ok_or(Stop::NoMemory);
    }
    let most = bound_candidates(alloc, &both, &patterns, limit)?;
    if let Way::Signatures = way.unwrap_or(way_for(both.names(), most)) {
        check_limit(alloc, &both, &patterns, most, limit)?;
        let rows = most_rows(both.names(), most, way);
        let grown = grow_signatures(rt, alloc, workers, &first, &both, &patterns, rows)?;
        if let Some(grown) = grown {
            return Ok(grown);
        }
    }
    grow(rt, alloc, first, both, patterns, limit, workers, gate)
}
