//! Chases a graph, and then the graph with more rows from there on.

ghost use Rattle.std.specs.Prelude.{◌≡◌, ◌<◌, ◌≤◌, ◌^◌, ◌++◌, List, All, IfOk, IfErr, OnOk, length};
ghost use Rattle.chase_laws.specs.declared.entry.Entry.{Entry};
ghost use Rattle.chase_laws.specs.Chase.{IsDerivation, IsLean};
ghost use Rattle.chase_laws.specs.SameRows.{HasRowsOf};
ghost use Rattle.pair_seed.specs.Pairs.{HasMoreCandidates};
ghost use Rattle.pair_seed.specs.Stop.{IsRightStop};
ghost use Rattle.match_run.specs.Classes.{AreClasses, IsFinishedJournal};

use crate::replaying::replay;
use chase_core::{Chase, Matched, Setup, Woken};
use chase_laws::laws::law_rows;
use chase_laws::{Entry, Pattern};
use gk_base::NoMemory;
use match_run::{Prepared, chase_on, chase_setup, prepare_graph};
use pair_seed::SeedStop;
use paired_search::View;
use std::alloc::Global;
use std::sync::Wait;
use std::thread::Threads;
use steal_pool::Gate;
use typed_graph::Graph;

/// What the chase of a graph comes to, and then that of the graph with more rows.
#[derive(Drop)]
pub struct Grown {
    /// What was identified over the first graph, in order.
    pub old: Vec<Entry>,
    /// The labels and the journal over the whole graph. The journal begins with `old`.
    pub now: Matched,
}

/// The journal of a whole chase of a graph, with the patterns. All else that the chase took is given back.
fn first_chase<R: Threads + Wait + Sync, G: Gate>(
    rt: &R,
    alloc: Global,
    graph: Graph,
    patterns: Vec<Pattern>,
    limit: u64,
    workers: u32,
    gate: &G,
) -> Result<(Vec<Entry>, Vec<Pattern>), SeedStop>
    requires limit { limit < 2 ^ 32 }
    requires few { length patterns.items < 2 ^ 32 }
    requires workers { (0 < workers) × (workers ≤ 64) }
    ensures journal { IfOk result (λ r. IsFinishedJournal graph patterns.items r.0.items) }
    ensures below { IfOk result (λ r. All (λ e. e.a < e.b) r.0.items) }
    ensures patterns { IfOk result (λ r. r.1.items ≡ patterns.items) }
    ensures stop { IfErr result (IsRightStop graph patterns.items limit) }
{
    let Prepared { setup, .. } = prepare_graph(rt, alloc, workers, graph, patterns, limit)?;
    let Matched { journal, .. } = chase_setup(rt, alloc, &setup, workers, gate)?;
    Ok((journal, setup.into_patterns()))
}

/// A chase of a setup in which these identifications are entered, and nothing else.
fn resumed<'a>(alloc: Global, setup: &'a Setup, journal: &[Entry]) -> Result<Chase<'a>, NoMemory>
    requires derivation { IsDerivation setup.now.task.graph setup.now.task.patterns journal.now }
    requires lean { IsLean journal.now }
    requires below { All (λ e. e.a < e.b) journal.now }
    ensures setup { IfOk result (λ c. c.setup ≡ setup.now) }
    ensures journal { IfOk result (λ c. c.book.journal ≡ journal.now) }
{
    // For the proof alone: every able pair is among the pairs of a setup.
    let _ = setup.pairs();
    let mut view = View::new(alloc, setup.widest())?;
    let mut woken = Woken::new(alloc, 0)?;
    let mut chase = Chase::new(alloc, setup)?;
    replay(&mut chase, journal, &mut view, &mut woken);
    Ok(chase)
}

/// The chase of a setup to its end, in which these identifications are entered and are not searched.
fn chase_from<R: Threads + Wait + Sync, G: Gate>(
    rt: &R,
    alloc: Global,
    setup: &Setup,
    old: &[Entry],
    workers: u32,
    gate: &G,
) -> Result<Matched, NoMemory>
    requires derivation { IsDerivation setup.now.task.graph setup.now.task.patterns old.now }
    requires lean { IsLean old.now }
    requires below { All (λ e. e.a < e.b) old.now }
    requires workers { (0 < workers) × (workers ≤ 64) }
    ensures begins { IfOk result (λ m. (more : List Entry) × (m.journal.items ≡ old.now ++ more)) }
    ensures journal { IfOk result (λ m. IsFinishedJournal setup.now.task.graph setup.now.task.patterns m.journal.items) }
    ensures classes { IfOk result (λ m. AreClasses setup.now.task.graph setup.now.task.patterns m.labels.items) }
{
    let chase = resumed(alloc, setup, old)?;
    chase_on(rt, alloc, chase, workers, gate)
}

/// The whole chase of a graph with the patterns, in which these identifications are entered and are not searched.
fn second_chase<R: Threads + Wait + Sync, G: Gate>(
    rt: &R,
    alloc: Global,
    both: Graph,
    patterns: Vec<Pattern>,
    limit: u64,
    old: &[Entry],
    workers: u32,
    gate: &G,
) -> Result<Matched, SeedStop>
    requires limit { limit < 2 ^ 32 }
    requires few { length patterns.items < 2 ^ 32 }
    requires derivation { IsDerivation both patterns.items old.now }
    requires lean { IsLean old.now }
    requires below { All (λ e. e.a < e.b) old.now }
    requires workers { (0 < workers) × (workers ≤ 64) }
    ensures begins { IfOk result (λ m. (more : List Entry) × (m.journal.items ≡ old.now ++ more)) }
    ensures journal { IfOk result (λ m. IsFinishedJournal both patterns.items m.journal.items) }
    ensures classes { IfOk result (λ m. AreClasses both patterns.items m.labels.items) }
    ensures no_more { OnOk result (¬ (HasMoreCandidates both patterns.items limit)) }
    ensures stop { IfErr result (IsRightStop both patterns.items limit) }
{
    let Prepared { setup, .. } = prepare_graph(rt, alloc, workers, both, patterns, limit)?;
    Ok(chase_from(rt, alloc, &setup, old, workers, gate)?)
}

/// Chases a graph, and then a graph that has all rows of the first and is else equal: what was identified over the first is
/// entered again and is not searched, and the chase goes on from there. So the whole journal begins with the old one, and
/// each of the two is a lean derivation over its graph that no step goes beyond. The labels are equal exactly where the
/// whole graph makes two names the same. At most so many workers chase, 1 to 64, each in a thread of its own, and each
/// passes the gate before each search, of the first graph and of the whole.
///
/// `TooManyPairs` comes exactly where the whole graph has more candidate pairs than `limit`, and `NoMemory` where memory ran
/// out.
pub fn grow<R: Threads + Wait + Sync, G: Gate>(
    rt: &R,
    alloc: Global,
    first: Graph,
    both: Graph,
    patterns: Vec<Pattern>,
    limit: u64,
    workers: u32,
    gate: &G,
) -> Result<Grown, SeedStop>
    requires rows { HasRowsOf patterns.items first both }
    requires limit { limit < 2 ^ 32 }
    requires few { length patterns.items < 2 ^ 32 }
    requires workers { (0 < workers) × (workers ≤ 64) }
    ensures old { IfOk result (λ g. IsFinishedJournal first patterns.items g.old.items) }
    ensures begins { IfOk result (λ g. (more : List Entry) × (g.now.journal.items ≡ g.old.items ++ more)) }
    ensures journal { IfOk result (λ g. IsFinishedJournal both patterns.items g.now.journal.items) }
    ensures classes { IfOk result (λ g. AreClasses both patterns.items g.now.labels.items) }
    ensures no_more { OnOk result (¬ (HasMoreCandidates both patterns.items limit)) }
    ensures stop { IfErr result (IsRightStop both patterns.items limit) }
{
    law_rows();
    let (old, patterns) = first_chase(rt, alloc, first, patterns, limit, workers, gate)?;
    let now = second_chase(rt, alloc, both, patterns, limit, &old, workers, gate)?;
    Ok(Grown { old, now })
}
