//! Which names may come next at a slot.

ghost use Rattle.std.specs.Prelude.{◌≡◌, ◌<◌, ◌++◌, [], ◌∷◌, ◌⊎◌, ◌↔◌, ℕ, Option, All, Contains, length, slice_index_or};
ghost use Rattle.chase_laws.specs.declared.pattern.Edge.{Edge};
ghost use Rattle.chase_laws.specs.declared.pattern.Slot.{Slot};
ghost use Rattle.chase_laws.specs.Graph.{NumberedGraph};
ghost use Rattle.key_plan.specs.Route.{IsProper};
ghost use Rattle.key_valuations.specs.Part.{EdgeHolds, HoldsAt};
ghost use Rattle.key_valuations.specs.Marks.{Covers, CoversMarked, OnlyOne};

use chase_laws::{Edge, Places, Slot};
use typed_graph::Graph;

/// Names that may come next at a slot. The edge at `place` of the slot's block is known to be a row for each of them; where
/// `place` is behind the block's end, no edge is.
#[derive(Clone, Copy)]
pub(crate) struct Choice<'a> {
    pub names: &'a [u32],
    pub place: usize,
}

/// The names to which an edge leads from a name of the list, or from which it leads to one.
fn reach<'a>(graph: &'a Graph, edge: Edge, places: &Places) -> &'a [u32]
    requires { IsProper (length places.now) edge }
    ensures { (m : ℕ) → Contains result.now m ↔ EdgeHolds graph.now (places.now ++ m ∷ []) edge }
{
    let from = edge.from as usize;
    let to = edge.to as usize;
    if from < places.len() {
        graph.outgoing(places.get(from), edge.pred)
    } else {
        graph.incoming(places.get(to), edge.pred)
    }
}

/// The fewest names that one of a block's edges leads to.
fn nearest<'a>(graph: &'a Graph, block: &[Edge], places: &Places) -> Choice<'a>
    requires some { 0 < length block.now }
    requires leads { (d : Edge) → IsProper (length places.now) (slice_index_or block.now 0 d) }
    requires ends { All (λ e. IsProper (length places.now) e ⊎ ((e.from ≡ length places.now) × (e.to ≡ length places.now))) block.now }
    ensures covers { Covers graph.now places.now block.now result.names.now }
    ensures holds { (m : ℕ) → Contains result.names.now m → HoldsAt graph.now places.now block.now result.place m }
{
    let mut names = reach(graph, block[0], places);
    let mut chosen = 0;
    for place in 1..block.len() {
        let edge = block[place];
        if edge.from != edge.to {
            let other = reach(graph, edge, places);
            if other.len() < names.len() {
                names = other;
                chosen = place;
            }
        }
    }
    Choice {
        names,
        place: chosen,
    }
}

/// The only name that a slot and its mark allow, in a list, where there is one: a constant, and the given name at an entity or
/// a value variable.
pub(crate) fn only_one(slot: Slot, mark: Option<u32>) -> Option<[u32; 1]>
    ensures { (G : NumberedGraph) → OnlyOne G slot mark result }
{
    match slot {
        Slot::Fixed(c) => Some([c]),
        Slot::Entity(_) | Slot::Value => match mark {
            Some(k) => Some([k]),
            None => None,
        },
        Slot::Any(_) | Slot::Folded => None,
    }
}

/// The names to be tried at a slot behind the list: the only one, where there is one, and else the fewest that an edge leads to.
pub(crate) fn choices<'a>(
    graph: &'a Graph,
    block: &[Edge],
    only: &'a Option<[u32; 1]>,
    places: &Places,
) -> Choice<'a>
    requires some { 0 < length block.now }
    requires leads { (d : Edge) → IsProper (length places.now) (slice_index_or block.now 0 d) }
    requires ends { All (λ e. IsProper (length places.now) e ⊎ ((e.from ≡ length places.now) × (e.to ≡ length places.now))) block.now }
    ensures covers { (slot : Slot) (mark : Option ℕ) → OnlyOne graph.now slot mark only.now → CoversMarked graph.now slot mark places.now block.now result.names.now }
    ensures holds { (m : ℕ) → Contains result.names.now m → HoldsAt graph.now places.now block.now result.place m }
{
    match only {
        Some(own) => Choice {
            names: own,
            place: block.len(),
        },
        None => nearest(graph, block, places),
    }
}
