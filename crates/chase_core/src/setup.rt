//! `Setup`: what a chase works on, and does not change.

ghost use Rattle.std.specs.Prelude.{◌≡◌, ◌<◌, ◌+◌, ◌^◌, ◌↔◌, ℕ, All, Contains, IfOk, length};
ghost use Rattle.std.specs.List.Sorted.{IsStrictlyIncreasing};
ghost use Rattle.chase_laws.specs.Candidate.{AreAscending};
ghost use Rattle.chase_laws.specs.Chase.{IsAble};
ghost use Rattle.chase_laws.specs.Core.{IsTask, name_count};
ghost use Rattle.paired_search.specs.KeyRange.{AreIdleOutside};
ghost use Rattle.paired_search.specs.Plans.{ArePlans};
ghost use Rattle.near_lists.specs.Neighbourhoods.{AreNearNames};
ghost use Rattle.near_lists.specs.Turning.{HasEnd};
ghost use Rattle.chase_core.specs.Setup.{AreRangesFor, IsMost, IsWidest};

use crate::Ticket;
use chase_laws::{Pattern, all_valid};
use gk_base::NoMemory;
use key_plan::Plan;
use near_lists::{Near, Rows, pairs_by_end};
use paired_search::{KeyRange, plan_all};
use std::alloc::Global;
use std::marker::Model;
use typed_graph::Graph;

/// A graph, keys, and the pairs of names that a chase searches, with what is near to each name. The pairs have
/// numbers by their places. Contracts see the three as a task, the keys' plans, what is near, and the widest view. Which keys
/// are searched for a pair they do not see: it changes no answer.
#[derive(Drop)]
pub struct Setup {
    graph: Graph,
    patterns: Vec<Pattern>,
    plans: Vec<Plan>,
    near: Near,
    pairs: Vec<(u32, u32)>,
    /// The keys that may identify the pair at each place; any may where this ends before.
    keys: Vec<KeyRange>,
    /// The numbers of each name's pairs.
    ends: Rows,
    widest: u32,
}

impl Model for Setup {
    ghost use Rattle.chase_core.specs.Setup.{Preparation};
    ghost use Rattle.chase_core.specs.Inner.{IsPreparation};

    ghost Value = { Preparation };

    ghost use Rattle.chase_core.specs.Kept.{preparation_of};

    ghost view = { preparation_of };

    ghost invariant = { λ s. IsPreparation (preparation_of s) s.keys.items s.ends };
}

/// The greatest number of names near to the ends of one of the pairs.
fn most_near(near: &Near, pairs: &[(u32, u32)]) -> u64
    requires { All (λ p. (p.0 < length near.now.near) × (p.1 < length near.now.near)) pairs.now }
    ensures { IsMost near.now.near pairs.now result }
{
    let mut most = 0u64;
    for (a, b) in pairs {
        let count = near.near(*a).len() as u64 + near.near(*b).len() as u64;
        most = most.max(count);
    }
    most
}

impl Setup {
    /// Prepares a chase: it makes the keys' plans and finds what is near to each name. Each pair is of a name and a
    /// greater one, and the pairs ascend without repeats; every pair that some key could identify has to be among
    /// them. Fails only for want of memory.
    pub fn new(
        alloc: Global,
        graph: Graph,
        patterns: Vec<Pattern>,
        pairs: Vec<(u32, u32)>,
    ) -> Result<Setup, NoMemory>
        requires few_patterns { length patterns.items < 2 ^ 32 }
        requires few_pairs { length pairs.items < 2 ^ 32 }
        requires ascend { AreAscending pairs.items }
        requires named { All (λ p. (p.0 < p.1) × (p.1 < length graph.literal)) pairs.items }
        requires able { (a b : ℕ) → IsAble graph patterns.items a b → Contains pairs.items (a, b) }
        ensures { IfOk result (λ s. s.task ≡ record { graph = graph; patterns = patterns.items; pairs = pairs.items }) }
    {
        Setup::with_keys(alloc, graph, patterns, pairs, Vec::new(alloc))
    }

    /// Prepares a chase as `new` does, in which only the keys of its range are searched for a pair: those outside of it can't
    /// identify the pair, whatever is the same. For a pair without a range all keys are searched.
    pub fn with_keys(
        alloc: Global,
        graph: Graph,
        patterns: Vec<Pattern>,
        pairs: Vec<(u32, u32)>,
        keys: Vec<KeyRange>,
    ) -> Result<Setup, NoMemory>
        requires few_patterns { length patterns.items < 2 ^ 32 }
        requires few_pairs { length pairs.items < 2 ^ 32 }
        requires ascend { AreAscending pairs.items }
        requires named { All (λ p. (p.0 < p.1) × (p.1 < length graph.literal)) pairs.items }
        requires able { (a b : ℕ) → IsAble graph patterns.items a b → Contains pairs.items (a, b) }
        requires keys { AreRangesFor graph patterns.items pairs.items keys.items }
        ensures { IfOk result (λ s. s.task ≡ record { graph = graph; patterns = patterns.items; pairs = pairs.items }) }
    {
        let names = graph.names();
        all_valid(&patterns);
        let plans = plan_all(alloc, &patterns)?;
        let near = Near::build(alloc, &graph, &patterns)?;
        let ends = pairs_by_end(alloc, &pairs, names)?;
        let widest = most_near(&near, &pairs).min(u64::from(names)) as u32;
        Ok(Setup {
            graph,
            patterns,
            plans,
            near,
            pairs,
            keys,
            ends,
            widest,
        })
    }

    /// The graph.
    pub fn graph(&self) -> &Graph
        ensures graph { result.now ≡ self.now.task.graph }
        ensures task { IsTask self.now.task }
    {
        &self.graph
    }

    /// The keys' patterns.
    pub fn patterns(&self) -> &[Pattern]
        ensures patterns { result.now ≡ self.now.task.patterns }
        ensures few { length self.now.task.patterns < 2 ^ 32 }
    {
        &self.patterns
    }

    /// The plan of each pattern, at its place.
    pub fn plans(&self) -> &[Plan]
        ensures plans { result.now ≡ self.now.plans }
        ensures are_plans { ArePlans self.now.task.patterns self.now.plans }
    {
        &self.plans
    }

    /// What is near to each name.
    pub fn near(&self) -> &Near
        ensures near { result.now ≡ self.now.near }
        ensures exact { AreNearNames self.now.task.graph self.now.task.patterns self.now.near.near }
        ensures widest { IsWidest self.now }
    {
        &self.near
    }

    /// The pairs, ascending without repeats.
    pub fn pairs(&self) -> &[(u32, u32)]
        ensures pairs { result.now ≡ self.now.task.pairs }
        ensures few { length self.now.task.pairs < 2 ^ 32 }
        ensures ascend { AreAscending self.now.task.pairs }
        ensures task { IsTask self.now.task }
    {
        &self.pairs
    }

    /// The numbers of the pairs that have a name as an end, ascending.
    pub fn pairs_of(&self, e: u32) -> &[u32]
        requires { e < name_count self.now.task }
        ensures ascending { IsStrictlyIncreasing result.now }
        ensures exact { (p : ℕ) → Contains result.now p ↔ HasEnd self.now.task.pairs p e }
    {
        self.ends.of(e as usize)
    }

    /// A room that suffices for the view of any pair: the greatest number of names near to the ends of a pair, those
    /// near to both counted twice, or the number of names where that is less.
    pub fn widest(&self) -> u32
        ensures widest { result ≡ self.now.widest }
        ensures exact { IsWidest self.now }
    {
        self.widest
    }

    /// The keys that are searched for a pair: those of its range, and all where the ticket is not that of a pair with a range.
    pub(crate) fn keys_for(&self, ticket: &Ticket) -> KeyRange
        ensures { AreIdleOutside self.now.task.graph self.now.task.patterns result ticket.now.a ticket.now.b }
    {
        let pair = ticket.pair as usize;
        if pair >= self.keys.len() || pair >= self.pairs.len() {
            return KeyRange::ALL;
        }
        let ends = self.pairs[pair];
        if ends.0 != ticket.a || ends.1 != ticket.b {
            return KeyRange::ALL;
        }
        self.keys[pair]
    }

    /// The keys' patterns, for a setup over another graph. It gives up all else, and takes no memory.
    pub fn into_patterns(self) -> Vec<Pattern>
        ensures { result.items ≡ self.task.patterns }
    {
        let Setup { patterns, .. } = self;
        patterns
    }

    /// Says for proofs what holds of every setup. It does nothing.
    pub(crate) fn prepared(&self)
        ensures task { IsTask self.now.task }
        ensures near { AreNearNames self.now.task.graph self.now.task.patterns self.now.near.near }
        ensures plans { ArePlans self.now.task.patterns self.now.plans }
        ensures few_pairs { length self.now.task.pairs < 2 ^ 32 }
    {
        let _ = &self.pairs;
    }
}
