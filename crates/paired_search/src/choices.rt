//! Which names may come next at a slot, on the left and on the right.

ghost use Rattle.std.specs.Prelude.{◌≡◌, ◌≢◌, ◌<◌, ◌++◌, [], ◌∷◌, ◌⊎◌, ◌↔◌, ℕ, All, Contains, Some, length, slice_index, slice_index_or};
ghost use Rattle.std.specs.List.Sorted.{IsStrictlyIncreasing};
ghost use Rattle.chase_laws.specs.declared.pattern.Edge.{Edge};
ghost use Rattle.chase_laws.specs.Valuation.{FitsSlot, AgreeAt};
ghost use Rattle.key_plan.specs.Route.{IsProper};
ghost use Rattle.paired_search.specs.Part.{EdgeHolds, HoldsAt, AreTwins, Covers, CoversFit, IsConstantOf};

use crate::Sameness;
use crate::fits::agree;
use chase_laws::{Edge, Places, Slot};
use typed_graph::Graph;
use typed_graph::ascending::holds;

/// Names that may come next at a slot, ascending. The edge at `place` of the slot's block is known to be a row for each
/// of them; where `place` is behind the block's end, no edge is.
#[derive(Clone, Copy)]
pub struct Choice<'a> {
    pub names: &'a [u32],
    pub place: usize,
}

/// The names to which an edge leads from a name of the list, or from which it leads to one.
fn reach<'a>(graph: &'a Graph, edge: Edge, places: &Places) -> &'a [u32]
    requires { IsProper (length places.now) edge }
    ensures exact { (m : ℕ) → Contains result.now m ↔ EdgeHolds graph.now (places.now ++ m ∷ []) edge }
    ensures ascending { IsStrictlyIncreasing result.now }
{
    let from = edge.from as usize;
    let to = edge.to as usize;
    if from < places.len() {
        graph.outgoing(places.get(from), edge.pred)
    } else {
        graph.incoming(places.get(to), edge.pred)
    }
}

/// The fewest names that one of a block's edges leads to.
fn nearest<'a>(graph: &'a Graph, block: &[Edge], places: &Places) -> Choice<'a>
    requires some { 0 < length block.now }
    requires leads { (d : Edge) → IsProper (length places.now) (slice_index_or block.now 0 d) }
    requires ends { All (λ e. IsProper (length places.now) e ⊎ ((e.from ≡ length places.now) × (e.to ≡ length places.now))) block.now }
    ensures covers { Covers graph.now places.now block.now result.names.now }
    ensures holds { (m : ℕ) → Contains result.names.now m → HoldsAt graph.now places.now block.now result.place m }
    ensures ascending { IsStrictlyIncreasing result.names.now }
{
    let mut names = reach(graph, block[0], places);
    let mut chosen = 0;
    for place in 1..block.len() {
        let edge = block[place];
        if edge.from != edge.to {
            let other = reach(graph, edge, places);
            if other.len() < names.len() {
                names = other;
                chosen = place;
            }
        }
    }
    Choice {
        names,
        place: chosen,
    }
}

/// The name of a constant, and any number at another slot.
pub fn constant_of(slot: Slot) -> u32
    ensures { IsConstantOf slot result }
{
    match slot {
        Slot::Fixed(c) => c,
        _ => 0,
    }
}

/// The names to be tried at a slot behind the list: a constant alone, and else the fewest that an edge leads to.
pub fn choices<'a>(
    graph: &'a Graph,
    block: &[Edge],
    slot: Slot,
    constant: &'a [u32; 1],
    places: &Places,
) -> Choice<'a>
    requires some { 0 < length block.now }
    requires leads { (d : Edge) → IsProper (length places.now) (slice_index_or block.now 0 d) }
    requires ends { All (λ e. IsProper (length places.now) e ⊎ ((e.from ≡ length places.now) × (e.to ≡ length places.now))) block.now }
    requires constant { IsConstantOf slot (slice_index constant.now 0) }
    ensures covers { CoversFit graph.now slot places.now block.now result.names.now }
    ensures holds { (m : ℕ) → Contains result.names.now m → HoldsAt graph.now places.now block.now result.place m }
    ensures ascending { IsStrictlyIncreasing result.names.now }
{
    match slot {
        Slot::Fixed(_) => Choice {
            names: constant,
            place: block.len(),
        },
        _ => nearest(graph, block, places),
    }
}

/// The names to be gone through, and those to be tried beside each: the left ones and the right ones. Of a value, which
/// is the same on both sides, the shorter list is gone through.
pub fn sides<'a>(slot: Slot, lefts: &'a [u32], rights: &'a [u32]) -> (&'a [u32], &'a [u32])
    requires left { IsStrictlyIncreasing lefts.now }
    requires right { IsStrictlyIncreasing rights.now }
    ensures exact { (m n : ℕ) → AreTwins slot m n → (Contains result.0.now m × Contains result.1.now n) ↔ (Contains lefts.now m × Contains rights.now n) }
    ensures ascending { IsStrictlyIncreasing result.1.now }
{
    match slot {
        Slot::Value => {
            if rights.len() < lefts.len() {
                (rights, lefts)
            } else {
                (lefts, rights)
            }
        }
        _ => (lefts, rights),
    }
}

/// The names from the first one on that agrees with `m` at slot `s`.
fn agreeing<'a, S: Sameness>(
    graph: &Graph,
    view: &S,
    s: usize,
    slot: Slot,
    m: u32,
    names: &'a [u32],
) -> &'a [u32]
    ensures all { (n : ℕ) → Contains names.now n → FitsSlot graph.now slot m → FitsSlot graph.now slot n → AgreeAt graph.now (S.are_same view.now) s slot m n → Contains result.now n }
    ensures only { (n : ℕ) → Contains result.now n → Contains names.now n }
{
    for place in 0..names.len() {
        if agree(graph, view, s, slot, m, names[place]) {
            return &names[place..];
        }
    }
    &[]
}

/// The names that are to be tried beside one name at slot `s`: of a value this name alone, where it is among the
/// others, and else those from the first one on that agrees.
pub fn partners<'a, S: Sameness>(
    graph: &Graph,
    view: &S,
    s: usize,
    slot: Slot,
    own: &'a [u32; 1],
    others: &'a [u32],
) -> &'a [u32]
    requires { IsStrictlyIncreasing others.now }
    ensures all { (n : ℕ) → Contains others.now n → FitsSlot graph.now slot (slice_index own.now 0) → FitsSlot graph.now slot n →
        AgreeAt graph.now (S.are_same view.now) s slot (slice_index own.now 0) n → Contains result.now n }
    ensures only { (n : ℕ) → Contains result.now n → Contains others.now n × AreTwins slot (slice_index own.now 0) n }
{
    match slot {
        Slot::Value => { if holds(others, own[0]) { own } else { &[] } }
        _ => agreeing(graph, view, s, slot, own[0], others),
    }
}
