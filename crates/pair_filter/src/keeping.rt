//! Which candidate pairs are kept.

ghost use Rattle.std.specs.Prelude.{◌≤◌, ◌↔◌, ℕ, Contains, IfOk, length};
ghost use Rattle.std.specs.List.{AllZip};
ghost use Rattle.chase_laws.specs.Candidate.{AreAscending};
ghost use Rattle.chase_laws.specs.Chase.{IsAble};
ghost use Rattle.chase_laws.specs.Pairing.{ArePairedBy};
ghost use Rattle.pair_filter.specs.Depth.{filter_depth};
ghost use Rattle.pair_filter.specs.Keys.{AreKeysOf};
ghost use Rattle.pair_filter.specs.Selection.{IsSelection};

use crate::dealing::keep_in_threads;
use chase_laws::Pattern;
use chase_laws::laws::law_paired;
use gk_base::NoMemory;
use paired_search::KeyRange;
use rayon::current_num_threads;
use std::alloc::Global;
use std::thread::Threads;
use typed_graph::Graph;

/// Pairs that are kept, and at the same places the keys that may identify each.
#[derive(Drop)]
pub struct KeptPairs {
    pub pairs: Vec<(u32, u32)>,
    pub keys: Vec<KeyRange>,
}

/// Of some pairs, in their order, exactly those that `keep` keeps, and for each of them which keys may identify it: a key
/// outside of its range does not, whatever else is the same, and the range begins and ends with a key that pairs the two,
/// where it tells these places. `threads` says how many threads may be used, the caller's among them.
///
/// Fails only for want of memory. The answer is the same whatever the number of threads.
pub fn keep_with_keys<R: Threads + Sync>(
    rt: &R,
    alloc: Global,
    threads: u32,
    graph: &Graph,
    patterns: &[Pattern],
    pairs: &[(u32, u32)],
) -> Result<KeptPairs, NoMemory>
    ensures kept { IfOk result (λ v. IsSelection (λ x. ArePairedBy graph.now patterns.now filter_depth x.0 x.1) pairs.now v.pairs.items) }
    ensures exact { IfOk result (λ v. (a b : ℕ) → Contains v.pairs.items (a, b) ↔ (Contains pairs.now (a, b) × ArePairedBy graph.now patterns.now filter_depth a b)) }
    ensures able { IfOk result (λ v. (a b : ℕ) → IsAble graph.now patterns.now a b → Contains pairs.now (a, b) → Contains v.pairs.items (a, b)) }
    ensures few { IfOk result (λ v. length v.pairs.items ≤ length pairs.now) }
    ensures ascending { IfOk result (λ v. AreAscending pairs.now → AreAscending v.pairs.items) }
    ensures keys { IfOk result (λ v. AllZip (λ x range. AreKeysOf graph.now patterns.now range x.0 x.1) v.pairs.items v.keys.items) }
{
    // A fact for the proof: able pairs are paired.
    law_paired();
    let kept = keep_in_threads(rt, alloc, threads, graph, patterns, pairs)?;
    Ok(kept)
}

/// Of some pairs, in their order, exactly those that some key pairs to depth 2: it designates a type of both names, and for
/// each of its edges at slot 0 rows lead from them to two names that are fit for the edge's other end, can go together there,
/// and for each edge there have such rows again. A pair that a step can identify, whatever else is the same, stays.
///
/// Fails only for want of memory. The answer is the same whatever the number of threads.
pub fn keep<R: Threads + Sync>(
    rt: &R,
    alloc: Global,
    graph: &Graph,
    patterns: &[Pattern],
    pairs: &[(u32, u32)],
) -> Result<Vec<(u32, u32)>, NoMemory>
    ensures kept { IfOk result (λ v. IsSelection (λ x. ArePairedBy graph.now patterns.now filter_depth x.0 x.1) pairs.now v.items) }
    ensures exact { IfOk result (λ v. (a b : ℕ) → Contains v.items (a, b) ↔ (Contains pairs.now (a, b) × ArePairedBy graph.now patterns.now filter_depth a b)) }
    ensures able { IfOk result (λ v. (a b : ℕ) → IsAble graph.now patterns.now a b → Contains pairs.now (a, b) → Contains v.items (a, b)) }
    ensures few { IfOk result (λ v. length v.items ≤ length pairs.now) }
    ensures ascending { IfOk result (λ v. AreAscending pairs.now → AreAscending v.items) }
{
    let threads = u32::try_from(current_num_threads(rt)).unwrap_or(u32::MAX);
    let kept = keep_with_keys(rt, alloc, threads, graph, patterns, pairs)?;
    Ok(kept.pairs)
}
