//! The two ways, and which one serves a graph.

ghost use Rattle.std.specs.Prelude.{◌<◌, ◌^◌, IfErr, IfOk, IfSome, IsNone, IsFalse, IsTrue, ◌⊎◌};
ghost use Rattle.chase_ways.specs.Limit.{CanBeKept};
ghost use Rattle.pair_seed.specs.Pairs.{HasMoreCandidates};
ghost use Rattle.pair_seed.specs.Stop.{IsRightStop};

use chase_laws::{Pattern, all_valid};
use pair_seed::{SeedStop, count_candidates};
use std::alloc::Global;
use typed_graph::Graph;

/// In which way a graph is chased. What comes of it is the same.
#[derive(Clone, Copy, Debug)]
pub enum Way {
    /// Candidate pairs are found, filtered and searched by workers.
    Pairs,
    /// Valuations are listed once, and those of one signature identify their names.
    Signatures,
}

/// Where the way is not asked for, a chase by signatures may list so many valuations a name, and more where there are many pairs.
const ROWS_A_NAME: u64 = 16;

/// So many more a candidate pair: about as many as are listed in the time in which a pair is found, filtered and searched.
const ROWS_A_PAIR: u64 = 4;

/// That many more at most.
const MORE_ROWS: u64 = 1 << 20;

/// Whether candidate pairs are counted up to this limit. Where they are not, no graph has more.
pub(crate) fn is_counted(graph: &Graph, patterns: &[Pattern], limit: u64) -> bool
    requires limit { CanBeKept limit }
    ensures counted { IsTrue result → limit < 2 ^ 32 }
    ensures no_more { IsFalse result → ¬ (HasMoreCandidates graph.now patterns.now limit) }
{
    // Facts for the proof: patterns are valid, and names have numbers of 32 bits.
    all_valid(patterns);
    let _ = graph.names();
    limit < 1 << 32
}

/// The way that serves a graph with so many names, in which there are at most so many candidate pairs, or too many to say. With
/// more pairs than names signatures take less time, by one worker and by several.
pub(crate) fn way_for(names: u32, most: Option<u64>) -> Way {
    match most {
        Some(pairs) if pairs <= u64::from(names) => Way::Pairs,
        _ => Way::Signatures,
    }
}

/// How many valuations may be listed of such a graph. Where a way is asked for, there is no end to it.
pub(crate) fn most_rows(names: u32, most: Option<u64>, way: Option<Way>) -> u64 {
    if way.is_some() {
        return u64::MAX;
    }
    let more = match most {
        Some(pairs) => pairs.saturating_mul(ROWS_A_PAIR).min(MORE_ROWS),
        None => MORE_ROWS,
    };
    ROWS_A_NAME * u64::from(names) + more
}

/// Stops where there are more candidate pairs than `limit`. They are counted only where it is not known that there are at most
/// so many.
pub(crate) fn check_limit(
    alloc: Global,
    graph: &Graph,
    patterns: &[Pattern],
    most: Option<u64>,
    limit: u64,
) -> Result<(), SeedStop>
    requires limit { limit < 2 ^ 32 }
    requires most { IfSome most (λ n. ¬ (HasMoreCandidates graph.now patterns.now limit)) }
    ensures no_more { IfOk result (λ _. ¬ (HasMoreCandidates graph.now patterns.now limit)) }
    ensures stop { IfErr result (IsRightStop graph.now patterns.now limit) }
{
    match most {
        Some(_) => Ok(()),
        None => {
            count_candidates(alloc, graph, patterns, limit)?;
            Ok(())
        }
    }
}
