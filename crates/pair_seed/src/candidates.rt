//! All candidate pairs: entity by entity, up to a limit.

ghost use Rattle.std.specs.Prelude.{◌≡◌, ◌<◌, ◌≤◌, ◌^◌, ◌↔◌, ◌++◌, ℕ, Some, All, Contains, IfOk, IfErr, OnOk, length, map, slice_get};
ghost use Rattle.chase_laws.specs.Candidate.{IsCandidate, AreAscending};
ghost use Rattle.chase_laws.specs.Chase.{IsAble};
ghost use Rattle.chase_laws.specs.Shape.{Shape};
ghost use Rattle.pair_seed.specs.Folds.{Serves};
ghost use Rattle.pair_seed.specs.Gathered.{AreCandidatesFrom};
ghost use Rattle.pair_seed.specs.Pairs.{HasMoreCandidates};
ghost use Rattle.pair_seed.specs.Stop.{IsRightStop};

use crate::folds::table_for;
use crate::gather::partners;
use crate::{SeedStop, TooManyPairs};
use chase_laws::laws::law_able;
use chase_laws::{Pattern, all_valid};
use gk_base::NoMemory;
use std::alloc::Global;
use typed_graph::{Graph, Index};

/// Adds the pairs of one entity with its partners.
fn push_all(pairs: &mut Vec<(u32, u32)>, a: u32, bs: &[u32]) -> Result<(), NoMemory>
    ensures { IfOk result (λ _. pairs.new.items ≡ pairs.old.items ++ map (λ b. (a, b)) bs.now) }
{
    for b in bs {
        pairs.push((a, *b))?;
    }
    Ok(())
}

/// The candidate pairs whose lower name is in the run `from..to`.
pub(crate) fn pairs_in_turn(
    alloc: Global,
    graph: &Graph,
    folds: &Index,
    patterns: &[Pattern],
    from: u32,
    to: u32,
    limit: u64,
) -> Result<Vec<(u32, u32)>, SeedStop>
    requires folds { (key : ℕ) (Q : Shape) → slice_get patterns.now key ≡ Some Q → Serves graph.now folds.now Q }
    requires run { from ≤ to }
    requires limit { limit < 2 ^ 32 }
    ensures pairs { IfOk result (λ v. AreCandidatesFrom graph.now patterns.now from to v.items) }
    ensures few { IfOk result (λ v. length v.items ≤ limit) }
    ensures stop { IfErr result (IsRightStop graph.now patterns.now limit) }
{
    let mut near = Vec::new(alloc);
    let mut pairs = Vec::new(alloc);
    for a in from..to {
        partners(graph, folds, patterns, a, &mut near)?;
        if near.len() as u64 > limit - pairs.len() as u64 {
            return Err(SeedStop::Fault(TooManyPairs { found: limit + 1 }));
        }
        push_all(&mut pairs, a, &near)?;
    }
    Ok(pairs)
}

/// The candidate pairs, lower number first, each once, in ascending order: those (a, b) for which some key designates a
/// type of both, and for each of its edges from slot 0 to a value variable they share a literal under its predicate, or
/// where the variable is folded two literals that are alike.
///
/// The fault, `TooManyPairs`, comes where there are more than `limit`, and `NoMemory` where memory ran out.
pub fn seed(
    alloc: Global,
    graph: &Graph,
    patterns: &[Pattern],
    limit: u64,
) -> Result<Vec<(u32, u32)>, SeedStop>
    requires { limit < 2 ^ 32 }
    ensures pairs { IfOk result (λ v. (a b : ℕ) → Contains v.items (a, b) ↔ IsCandidate graph.now patterns.now a b) }
    ensures ascending { IfOk result (λ v. AreAscending v.items) }
    ensures few { IfOk result (λ v. length v.items ≤ limit) }
    ensures able { IfOk result (λ v. (a b : ℕ) → IsAble graph.now patterns.now a b → Contains v.items (a, b)) }
    ensures named { IfOk result (λ v. All (λ x. (x.0 < x.1) × (x.1 < length graph.now.literal)) v.items) }
    ensures no_more { OnOk result (¬ (HasMoreCandidates graph.now patterns.now limit)) }
    ensures stop { IfErr result (IsRightStop graph.now patterns.now limit) }
{
    // Two facts for the proof: able pairs are candidates, and patterns are valid.
    law_able();
    all_valid(patterns);
    let folds = table_for(alloc, graph, patterns)?;
    let pairs = pairs_in_turn(alloc, graph, &folds, patterns, 0, graph.names(), limit)?;
    Ok(pairs)
}
