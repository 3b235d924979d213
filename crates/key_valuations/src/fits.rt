//! What one more name has to be, for a list that is part of a valuation to stay so.

ghost use Rattle.std.specs.Prelude.{◌≡◌, ◌≢◌, ◌<◌, ◌≤◌, ◌++◌, [], ◌∷◌, ◌↔◌, ℕ, All, IsTrue, Some, length, slice_get, slice_index};
ghost use Rattle.key_plan.specs.Route.{IsBlock};
ghost use Rattle.key_valuations.specs.Part.{EdgeHolds, HoldsAt, IsPart};
ghost use Rattle.key_valuations.specs.Marks.{IsMarkedPart};

use crate::marks::has_mark;
use chase_laws::{Edge, Places, Slot};
use key_plan::Plan;
use typed_graph::Graph;

/// Whether a name is none of the list.
fn is_new(places: &Places, m: u32) -> bool
    ensures { IsTrue result ↔ ((k : ℕ) → k < length places.now → slice_index places.now k ≢ m) }
{
    for k in 0..places.len() {
        if places.get(k) == m {
            return false;
        }
    }
    true
}

/// The name at a slot of the list with one more name.
fn name_at(places: &Places, m: u32, slot: usize) -> u32
    requires { slot ≤ length places.now }
    ensures { result ≡ slice_index (places.now ++ m ∷ []) slot }
{
    if slot < places.len() {
        places.get(slot)
    } else {
        m
    }
}

/// Whether an edge between names of the list with one more name is a row.
fn edge_holds(graph: &Graph, edge: Edge, places: &Places, m: u32) -> bool
    requires from { edge.from ≤ length places.now }
    requires to { edge.to ≤ length places.now }
    ensures { IsTrue result ↔ EdgeHolds graph.now (places.now ++ m ∷ []) edge }
{
    let from = name_at(places, m, edge.from as usize);
    let to = name_at(places, m, edge.to as usize);
    graph.has(from, edge.pred, to)
}

/// Whether each edge of a block is. Of the one at place `known` it is known.
fn edges_hold(graph: &Graph, block: &[Edge], known: usize, places: &Places, m: u32) -> bool
    requires ends { All (λ e. (e.from ≤ length places.now) × (e.to ≤ length places.now)) block.now }
    requires known { HoldsAt graph.now places.now block.now known m }
    ensures { IsTrue result ↔ All (EdgeHolds graph.now (places.now ++ m ∷ [])) block.now }
{
    for place in 0..block.len() {
        if place != known && !edge_holds(graph, block[place], places, m) {
            return false;
        }
    }
    true
}

/// Whether a list that is part of a valuation stays so with one more name: whether the name is new, fit for its slot,
/// and joined to the names before it as the block's edges ask. The edge at place `known` is known to be a row.
fn goes_on(
    graph: &Graph,
    plan: &Plan,
    block: &[Edge],
    known: usize,
    slot: Slot,
    places: &Places,
    m: u32,
) -> bool
    requires part { IsPart graph.now plan.now.shape places.now }
    requires block { IsBlock plan.now.shape (length places.now) block.now }
    requires slot { slice_get plan.now.shape.slots (length places.now) ≡ Some slot }
    requires known { HoldsAt graph.now places.now block.now known m }
    ensures { IsTrue result ↔ IsPart graph.now plan.now.shape (places.now ++ m ∷ []) }
{
    // Only the contract speaks of the plan: its pattern is the one that the list is part of a valuation of.
    let _ = plan;
    if !is_new(places, m) || !graph.fits_slot(slot, m) {
        return false;
    }
    edges_hold(graph, block, known, places, m)
}

/// Whether it stays so and the name has its mark, too.
pub(crate) fn goes_on_marked(
    graph: &Graph,
    plan: &Plan,
    marks: &[Option<u32>],
    block: &[Edge],
    known: usize,
    slot: Slot,
    places: &Places,
    m: u32,
) -> bool
    requires part { IsMarkedPart graph.now plan.now.shape marks.now places.now }
    requires within { length places.now < length marks.now }
    requires block { IsBlock plan.now.shape (length places.now) block.now }
    requires slot { slice_get plan.now.shape.slots (length places.now) ≡ Some slot }
    requires known { HoldsAt graph.now places.now block.now known m }
    ensures { IsTrue result ↔ IsMarkedPart graph.now plan.now.shape marks.now (places.now ++ m ∷ []) }
{
    if !goes_on(graph, plan, block, known, slot, places, m) {
        return false;
    }
    has_mark(graph, slot, marks[places.len()], m)
}
