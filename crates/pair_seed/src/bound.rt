//! How many candidate pairs there are at most, by what names share one value, with no pair looked at.

ghost use Rattle.std.specs.Prelude.{◌≡◌, ◌<◌, ◌≤◌, ◌^◌, ℕ, Some, true, IfOk, IfSome, length, slice_get};
ghost use Rattle.chase_laws.specs.Shape.{Shape};
ghost use Rattle.chase_laws.specs.Graph.{IsLiteral};
ghost use Rattle.chase_laws.specs.Candidate.{IsCandidate, IsCandidateUnder};
ghost use Rattle.pair_seed.specs.Bounds.{AreAtMost, IsLedTo};
ghost use Rattle.pair_seed.specs.Folds.{Holds, IsFoldTable, Serves};
ghost use Rattle.pair_seed.specs.Pairs.{HasMoreCandidates};

use crate::folds::table_for;
use crate::lead::{Lead, choose};
use crate::share::designates;
use chase_laws::{Pattern, all_valid};
use gk_base::NoMemory;
use std::alloc::Global;
use typed_graph::ascending::above;
use typed_graph::{Graph, Index};

/// How many names above `a` have a literal of `a`, or one that is alike to it.
fn above_by_literal(graph: &Graph, folds: &Index, lead: Lead, a: u32, l: u32) -> usize
    requires folds { lead.folded ≡ true → IsFoldTable graph.now folds.now }
    requires named { l < length graph.now.literal }
    ensures { AreAtMost (λ b. (a < b) × IsLiteral graph.now l × Holds graph.now lead.folded b lead.pred l) result }
{
    if !graph.is_literal(l) {
        return 0;
    }
    above(lead.holders(graph, folds, l), a).len()
}

/// How many names above `a` its literals under the lead's predicate lead to, if they are no more than `room`.
fn above_by_lead(graph: &Graph, folds: &Index, lead: Lead, a: u32, room: u64) -> Option<u64>
    requires folds { lead.folded ≡ true → IsFoldTable graph.now folds.now }
    requires room { room < 2 ^ 32 }
    ensures { IfSome result (λ n. (n ≤ room) × AreAtMost (λ b. (a < b) × IsLedTo graph.now lead.folded a lead.pred b) n) }
{
    let mut all: u64 = 0;
    for l in graph.outgoing(a, lead.pred) {
        let more = above_by_literal(graph, folds, lead, a, *l) as u64;
        if more > room - all {
            return None;
        }
        all += more;
    }
    Some(all)
}

/// How many names above `a` have the key's type, if they are no more than `room`.
fn above_by_type(graph: &Graph, pattern: &Pattern, a: u32, room: u64) -> Option<u64>
    ensures { IfSome result (λ n. (n ≤ room) × AreAtMost (λ b. (a < b) × IsCandidateUnder graph.now pattern.now a b) n) }
{
    let all = above(graph.with_type(pattern.designated_type()), a).len() as u64;
    if all > room {
        return None;
    }
    Some(all)
}

/// At most so many names above `a` make a candidate with it under the key, if they are no more than `room`.
fn above_by_key(graph: &Graph, folds: &Index, pattern: &Pattern, a: u32, room: u64) -> Option<u64>
    requires folds { Serves graph.now folds.now pattern.now }
    requires room { room < 2 ^ 32 }
    ensures { IfSome result (λ n. (n ≤ room) × AreAtMost (λ b. (a < b) × IsCandidateUnder graph.now pattern.now a b) n) }
{
    if !designates(graph, pattern, a) {
        return Some(0);
    }
    match choose(graph, folds, pattern, a) {
        Some(lead) => above_by_lead(graph, folds, lead, a, room),
        None => above_by_type(graph, pattern, a, room),
    }
}

/// At most so many names make a candidate with `a` as the lower one, if they are no more than `room`.
fn above_by_keys(
    graph: &Graph,
    folds: &Index,
    patterns: &[Pattern],
    a: u32,
    room: u64,
) -> Option<u64>
    requires folds { (key : ℕ) (Q : Shape) → slice_get patterns.now key ≡ Some Q → Serves graph.now folds.now Q }
    requires room { room < 2 ^ 32 }
    ensures { IfSome result (λ n. (n ≤ room) × AreAtMost (λ b. IsCandidate graph.now patterns.now a b) n) }
{
    let mut all: u64 = 0;
    for pattern in patterns {
        let more = above_by_key(graph, folds, pattern, a, room - all)?;
        all += more;
    }
    Some(all)
}

/// A number that there are no more candidate pairs than: of each name and key those above it are counted that share one value
/// with it, under the predicate where these are the fewest. None where that comes to more than `limit`; there may be fewer
/// candidate pairs all the same. It takes time with the rows, not with the pairs, and fails only for want of memory.
pub fn bound_candidates(
    alloc: Global,
    graph: &Graph,
    patterns: &[Pattern],
    limit: u64,
) -> Result<Option<u64>, NoMemory>
    requires { limit < 2 ^ 32 }
    ensures { IfOk result (λ bound. IfSome bound (λ n. (n ≤ limit) × ¬ (HasMoreCandidates graph.now patterns.now n))) }
{
    // A fact for the proof: patterns are valid.
    all_valid(patterns);
    let folds = table_for(alloc, graph, patterns)?;
    let mut all: u64 = 0;
    for a in 0..graph.names() {
        let Some(more) = above_by_keys(graph, &folds, patterns, a, limit - all) else {
            return Ok(None);
        };
        all += more;
    }
    Ok(Some(all))
}
