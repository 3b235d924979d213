//! The edge from whose literals an entity's partners are found.

ghost use Rattle.std.specs.Prelude.{◌≡◌, ◌<◌, ◌↔◌, ◌⊎◌, ℕ, Contains, IfSome, Some, true, length};
ghost use Rattle.std.specs.List.Sorted.{IsStrictlyIncreasing};
ghost use Rattle.pair_seed.specs.Folds.{Holds, IsFoldTable, Serves};
ghost use Rattle.pair_seed.specs.Key.{IsLead};

use crate::parts::{edge_at, edge_count, slot_at};
use chase_laws::{Pattern, Slot};
use typed_graph::{Graph, Index};

/// An edge of a pattern from slot 0 to a value variable.
#[derive(Clone, Copy)]
pub(crate) struct Lead {
    /// The edge's place in the pattern.
    pub(crate) place: usize,
    /// The edge's predicate.
    pub(crate) pred: u32,
    /// Whether values are folded there.
    pub(crate) folded: bool,
}

/// An edge, and how many names it leads to.
#[derive(Clone, Copy)]
struct Choice {
    lead: Lead,
    names: u64,
}

impl Lead {
    /// The names that have a literal l of an entity under the lead's predicate, or where values are folded one that is
    /// alike to it.
    pub(crate) fn holders<'a>(self, graph: &'a Graph, folds: &'a Index, l: u32) -> &'a [u32]
        requires folds { self.folded ≡ true → IsFoldTable graph.now folds.now }
        requires named { l < length graph.now.literal }
        ensures ascending { IsStrictlyIncreasing result.now }
        ensures exact { (b : ℕ) → Contains result.now b ↔ Holds graph.now self.folded b self.pred l }
    {
        if self.folded {
            folds.find(graph.alike(l), self.pred)
        } else {
            graph.incoming(l, self.pred)
        }
    }

    /// How many names an entity's literals lead to, each as often as it is led to.
    fn count(self, graph: &Graph, folds: &Index, a: u32) -> u64
        requires { self.folded ≡ true → IsFoldTable graph.now folds.now }
    {
        let mut total: u64 = 0;
        for l in graph.outgoing(a, self.pred) {
            if graph.is_literal(*l) {
                total = total.saturating_add(self.holders(graph, folds, *l).len() as u64);
            }
        }
        total
    }
}

/// The edge at a place, if it leads from slot 0 to a value variable.
fn lead_at(pattern: &Pattern, place: usize) -> Option<Lead>
    requires { place < length pattern.now.edges }
    ensures { IfSome result (λ lead. IsLead pattern.now lead) }
{
    let edge = edge_at(pattern, place);
    if edge.from != 0 {
        return None;
    }
    let pred = edge.pred;
    match slot_at(pattern, edge.to as usize) {
        Slot::Value => Some(Lead {
            place,
            pred,
            folded: false,
        }),
        Slot::Folded => Some(Lead {
            place,
            pred,
            folded: true,
        }),
        Slot::Entity(_) | Slot::Any(_) | Slot::Fixed(_) => None,
    }
}

/// The one of the two that leads to fewer names.
fn better(best: Option<Choice>, other: Choice) -> Choice
    ensures { (best ≡ Some result) ⊎ (result ≡ other) }
{
    match best {
        Some(choice) if choice.names <= other.names => choice,
        _ => other,
    }
}

/// Of a pattern's edges from slot 0 to a value variable the one that leads from `a` to the fewest names.
pub(crate) fn choose(graph: &Graph, folds: &Index, pattern: &Pattern, a: u32) -> Option<Lead>
    requires { Serves graph.now folds.now pattern.now }
    ensures { IfSome result (λ lead. IsLead pattern.now lead) }
{
    let mut best = None;
    for place in 0..edge_count(pattern) {
        if let Some(lead) = lead_at(pattern, place) {
            let names = lead.count(graph, folds, a);
            best = Some(better(best, Choice { lead, names }));
        }
    }
    match best {
        Some(choice) => Some(choice.lead),
        None => None,
    }
}
