//! All candidate pairs by threads: the names are cut into runs.

ghost use Rattle.std.specs.Prelude.{◌≡◌, ◌<◌, ◌≤◌, ◌^◌, ◌↔◌, ℕ, Some, All, Contains, IfOk, IfErr, OnOk, length, slice_get};
ghost use Rattle.std.specs.Thread.{IsSync};
ghost use Rattle.chase_laws.specs.Candidate.{IsCandidate, AreAscending};
ghost use Rattle.chase_laws.specs.Chase.{IsAble};
ghost use Rattle.chase_laws.specs.Shape.{Shape};
ghost use Rattle.pair_seed.specs.Folds.{Serves};
ghost use Rattle.pair_seed.specs.Gathered.{AreCandidatesFrom};
ghost use Rattle.pair_seed.specs.Pairs.{HasMoreCandidates};
ghost use Rattle.pair_seed.specs.Stop.{IsRightStop};

use crate::candidates::pairs_in_turn;
use crate::folds::table_for;
use crate::{SeedStop, TooManyPairs};
use chase_laws::laws::law_able;
use chase_laws::{Pattern, all_valid};
use std::alloc::Global;
use std::thread::{Threads, join};
use typed_graph::{Graph, Index};

/// For a run of fewer names a thread costs more than it saves.
const FEW_NAMES: u32 = 4096;

/// The candidate pairs whose lower name is in the run `from..to`. With two threads or more a longer run is cut in two halves,
/// and the threads are shared out among them.
#[cycle(halves)]
fn pairs_in_threads<R: Threads + Sync>(
    rt: &R,
    alloc: Global,
    threads: u32,
    graph: &Graph,
    folds: &Index,
    patterns: &[Pattern],
    from: u32,
    to: u32,
    limit: u64,
) -> Result<Vec<(u32, u32)>, SeedStop>
    requires folds { (key : ℕ) (Q : Shape) → slice_get patterns.now key ≡ Some Q → Serves graph.now folds.now Q }
    requires run { from ≤ to }
    requires limit { limit < 2 ^ 32 }
    ensures pairs { IfOk result (λ v. AreCandidatesFrom graph.now patterns.now from to v.items) }
    ensures few { IfOk result (λ v. length v.items ≤ limit) }
    ensures stop { IfErr result (IsRightStop graph.now patterns.now limit) }
{
    if threads < 2 || to - from < FEW_NAMES {
        return pairs_in_turn(alloc, graph, folds, patterns, from, to, limit);
    }
    let middle = from + (to - from) / 2;
    let theirs = threads / 2;
    let ours = threads - theirs;
    let lower = move || -> Result<Vec<(u32, u32)>, SeedStop>
        requires { IsSync R.row × (from ≤ middle) × (limit < 2 ^ 32) × ((key : ℕ) (Q : Shape) → slice_get patterns.now key ≡ Some Q → Serves graph.now folds.now Q) }
        ensures { IfOk result (λ v. AreCandidatesFrom graph.entry.now patterns.entry.now from middle v.items × (length v.items ≤ limit)) × IfErr result (IsRightStop graph.entry.now patterns.entry.now limit) }
    {
        pairs_in_threads(
            rt, alloc, theirs, graph, folds, patterns, from, middle, limit,
        )
    };
    let upper = move || -> Result<Vec<(u32, u32)>, SeedStop>
        requires { IsSync R.row × (middle ≤ to) × (limit < 2 ^ 32) × ((key : ℕ) (Q : Shape) → slice_get patterns.now key ≡ Some Q → Serves graph.now folds.now Q) }
        ensures { IfOk result (λ v. AreCandidatesFrom graph.entry.now patterns.entry.now middle to v.items × (length v.items ≤ limit)) × IfErr result (IsRightStop graph.entry.now patterns.entry.now limit) }
    { pairs_in_threads(rt, alloc, ours, graph, folds, patterns, middle, to, limit) };
    let (low, high) = join(rt, lower, upper);
    let mut pairs = low?;
    let mut above = high?;
    if above.len() as u64 > limit - pairs.len() as u64 {
        return Err(SeedStop::Fault(TooManyPairs { found: limit + 1 }));
    }
    pairs.append(&mut above)?;
    Ok(pairs)
}

/// The candidate pairs, as `seed` gives them. `threads` says how many threads may be used, the caller's among them: the names
/// are cut into at most as many runs, none of them so short that a thread costs more than it saves; a thread finds the pairs
/// whose lower name is in its run, and they are joined in order. The answer is the same whatever the number of threads.
///
/// The fault, `TooManyPairs`, comes where there are more than `limit`, and `NoMemory` where memory ran out.
pub fn seed_in_threads<R: Threads + Sync>(
    rt: &R,
    alloc: Global,
    threads: u32,
    graph: &Graph,
    patterns: &[Pattern],
    limit: u64,
) -> Result<Vec<(u32, u32)>, SeedStop>
    requires { limit < 2 ^ 32 }
    ensures pairs { IfOk result (λ v. (a b : ℕ) → Contains v.items (a, b) ↔ IsCandidate graph.now patterns.now a b) }
    ensures ascending { IfOk result (λ v. AreAscending v.items) }
    ensures few { IfOk result (λ v. length v.items ≤ limit) }
    ensures able { IfOk result (λ v. (a b : ℕ) → IsAble graph.now patterns.now a b → Contains v.items (a, b)) }
    ensures named { IfOk result (λ v. All (λ x. (x.0 < x.1) × (x.1 < length graph.now.literal)) v.items) }
    ensures no_more { OnOk result (¬ (HasMoreCandidates graph.now patterns.now limit)) }
    ensures stop { IfErr result (IsRightStop graph.now patterns.now limit) }
{
    // Two facts for the proof: able pairs are candidates, and patterns are valid.
    law_able();
    all_valid(patterns);
    let folds = table_for(alloc, graph, patterns)?;
    let pairs = pairs_in_threads(
        rt,
        alloc,
        threads,
        graph,
        &folds,
        patterns,
        0,
        graph.names(),
        limit,
    )?;
    Ok(pairs)
}
