//! Makes what a chase works on from a graph and keys.

ghost use Rattle.std.specs.Prelude.{◌≡◌, ◌<◌, ◌^◌, ◌↔◌, ℕ, All, Contains, length, IfOk, IfErr, OnOk};
ghost use Rattle.std.specs.Option.{ForSome};
ghost use Rattle.chase_laws.specs.Candidate.{IsCandidate, IsCandidateCount};
ghost use Rattle.chase_laws.specs.Graph.{IsFolding};
ghost use Rattle.chase_laws.specs.Pairing.{ArePairedBy};
ghost use Rattle.pair_filter.specs.Depth.{filter_depth};
ghost use Rattle.pair_seed.specs.Pairs.{HasMoreCandidates};
ghost use Rattle.pair_seed.specs.Stop.{IsRightStop};
ghost use Rattle.match_run.specs.Kept.{AreKept};
ghost use Rattle.match_run.specs.Parts.{graph_of_parts, HasPartsOf};

use chase_core::Setup;
use chase_laws::Pattern;
use chase_laws::laws::law_rows;
use pair_filter::{KeptPairs, keep_with_keys};
use pair_seed::{SeedStop, seed_in_threads};
use std::alloc::Global;
use std::thread::Threads;
use typed_graph::Graph;

/// What a chase works on, and how many candidate pairs there are, those that the filter rules out counted too.
#[derive(Drop)]
pub struct Prepared {
    pub setup: Setup,
    /// The number of candidate pairs.
    pub seeded: u64,
}

/// The candidate pairs that the filter keeps, and how many there were before.
#[derive(Drop)]
struct Candidates {
    kept: KeptPairs,
    /// The number of candidate pairs.
    seeded: u64,
}

/// Finds the candidate pairs, and keeps those that some key pairs to the depth of the filter. `threads` says how many threads may find and filter
/// them, the caller's among them.
fn kept_candidates<R: Threads + Sync>(
    rt: &R,
    alloc: Global,
    threads: u32,
    graph: &Graph,
    patterns: &[Pattern],
    limit: u64,
) -> Result<Candidates, SeedStop>
    requires { limit < 2 ^ 32 }
    ensures kept { IfOk result (λ c. AreKept graph.now patterns.now c.kept.pairs.items c.kept.keys.items c.seeded) }
    ensures no_more { OnOk result (¬ (HasMoreCandidates graph.now patterns.now limit)) }
    ensures stop { IfErr result (IsRightStop graph.now patterns.now limit) }
{
    let candidates = seed_in_threads(rt, alloc, threads, graph, patterns, limit)?;
    let seeded = candidates.len() as u64;
    let kept = keep_with_keys(rt, alloc, threads, graph, patterns, &candidates)?;
    Ok(Candidates { kept, seeded })
}

/// Prepares a chase of a graph under keys, over those of the candidate pairs that some key pairs to the depth of the filter. `threads` says how
/// many threads may find and filter the pairs, the caller's among them. The answer is the same.
///
/// `TooManyPairs` comes exactly where there are more candidate pairs than `limit`, and `NoMemory` where memory ran out.
pub fn prepare_graph<R: Threads + Sync>(
    rt: &R,
    alloc: Global,
    threads: u32,
    graph: Graph,
    patterns: Vec<Pattern>,
    limit: u64,
) -> Result<Prepared, SeedStop>
    requires limit { limit < 2 ^ 32 }
    requires few { length patterns.items < 2 ^ 32 }
    ensures graph { IfOk result (λ p. p.setup.task.graph ≡ graph) }
    ensures patterns { IfOk result (λ p. p.setup.task.patterns ≡ patterns.items) }
    ensures pairs { IfOk result (λ p. (a b : ℕ) → Contains p.setup.task.pairs (a, b) ↔ (IsCandidate graph patterns.items a b × ArePairedBy graph patterns.items filter_depth a b)) }
    ensures seeded { IfOk result (λ p. IsCandidateCount graph patterns.items p.seeded) }
    ensures no_more { OnOk result (¬ (HasMoreCandidates graph patterns.items limit)) }
    ensures stop { IfErr result (IsRightStop graph patterns.items limit) }
{
    let Candidates { kept, seeded } = kept_candidates(
        rt, alloc, threads, &graph, &patterns, limit,
    )?;
    let setup = Setup::with_keys(alloc, graph, patterns, kept.pairs, kept.keys)?;
    Ok(Prepared { setup, seeded })
}

/// Builds the graph of these rows, and prepares a chase of it under keys, as `prepare_graph` does one of a graph that is built.
/// `rows` may come in any order and with repeats; `names` is how many names there are, `literal` has a flag for each, `rdf_type`
/// is the number of `rdf:type` where that is a name, and `alike` says what each name is alike to. `threads` says how many threads
/// may be used, as `prepare_graph` uses them. The answer is the same.
///
/// `TooManyPairs` comes exactly where there are more candidate pairs than `limit`, and `NoMemory` where memory ran out.
pub fn prepare<R: Threads + Sync>(
    rt: &R,
    alloc: Global,
    threads: u32,
    rows: Vec<[u32; 3]>,
    names: u32,
    literal: Vec<bool>,
    rdf_type: Option<u32>,
    alike: Vec<u32>,
    patterns: Vec<Pattern>,
    limit: u64,
) -> Result<Prepared, SeedStop>
    requires named { All (λ row. All (λ n. n < names) row) rows.items }
    requires flags { length literal.items ≡ names }
    requires type_named { ForSome rdf_type (λ p. p < names) }
    requires folding { IsFolding (graph_of_parts rows.items literal.items rdf_type alike.items) }
    requires limit { limit < 2 ^ 32 }
    requires few { length patterns.items < 2 ^ 32 }
    ensures graph { IfOk result (λ p. HasPartsOf p.setup.task.graph (graph_of_parts rows.items literal.items rdf_type alike.items)) }
    ensures patterns { IfOk result (λ p. p.setup.task.patterns ≡ patterns.items) }
    ensures pairs { IfOk result (λ p. (a b : ℕ) → Contains p.setup.task.pairs (a, b) ↔
        (IsCandidate p.setup.task.graph patterns.items a b × ArePairedBy p.setup.task.graph patterns.items filter_depth a b)) }
    ensures seeded { IfOk result (λ p. IsCandidateCount p.setup.task.graph patterns.items p.seeded) }
    ensures no_more { OnOk result (¬ (HasMoreCandidates (graph_of_parts rows.items literal.items rdf_type alike.items) patterns.items limit)) }
    ensures stop { IfErr result (IsRightStop (graph_of_parts rows.items literal.items rdf_type alike.items) patterns.items limit) }
{
    // A fact for the proof: a graph's candidates don't depend on the order of its rows.
    law_rows();
    let graph = Graph::build_in_threads(rt, alloc, threads, rows, names, literal, rdf_type, alike)?;
    prepare_graph(rt, alloc, threads, graph, patterns, limit)
}
