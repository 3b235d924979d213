//! How many candidate pairs there are, without a list of them.

ghost use Rattle.std.specs.Prelude.{◌<◌, ◌≤◌, ◌^◌, IfOk, IfErr, OnOk};
ghost use Rattle.chase_laws.specs.Candidate.{IsCandidateCount};
ghost use Rattle.pair_seed.specs.Pairs.{HasMoreCandidates};
ghost use Rattle.pair_seed.specs.Stop.{IsRightStop};

use crate::folds::table_for;
use crate::gather::partners;
use crate::{SeedStop, TooManyPairs};
use chase_laws::{Pattern, all_valid};
use std::alloc::Global;
use typed_graph::Graph;

/// How many candidate pairs there are, counted one by one: those that `seed` lists. It takes no memory for them, and as long
/// as `seed` in one thread.
///
/// The fault, `TooManyPairs`, comes where there are more than `limit`, and `NoMemory` where memory ran out.
pub fn count_candidates(
    alloc: Global,
    graph: &Graph,
    patterns: &[Pattern],
    limit: u64,
) -> Result<u64, SeedStop>
    requires { limit < 2 ^ 32 }
    ensures count { IfOk result (λ n. IsCandidateCount graph.now patterns.now n) }
    ensures few { IfOk result (λ n. n ≤ limit) }
    ensures no_more { OnOk result (¬ (HasMoreCandidates graph.now patterns.now limit)) }
    ensures stop { IfErr result (IsRightStop graph.now patterns.now limit) }
{
    // A fact for the proof: patterns are valid.
    all_valid(patterns);
    let folds = table_for(alloc, graph, patterns)?;
    let mut near = Vec::new(alloc);
    let mut count: u64 = 0;
    for a in 0..graph.names() {
        partners(graph, &folds, patterns, a, &mut near)?;
        if near.len() as u64 > limit - count {
            return Err(SeedStop::Fault(TooManyPairs { found: limit + 1 }));
        }
        count += near.len() as u64;
    }
    Ok(count)
}
