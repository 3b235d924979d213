//! The quick way at a slot from which no edge is asked on: to be paired there, names need only go together.

ghost use Rattle.std.specs.Prelude.{◌≡◌, ◌↔◌, ℕ, Contains, IsTrue, IsFalse};
ghost use Rattle.std.specs.List.Sorted.{IsStrictlyIncreasing};
ghost use Rattle.chase_laws.specs.Graph.{IsLiteral};
ghost use Rattle.pair_filter.specs.Along.{IsLeaf};

use crate::parts::{edge_at, edge_count, is_skipped};
use chase_laws::{Edge, Pattern};
use typed_graph::Graph;
use typed_graph::ascending::holds;

/// Whether an edge has an end at slot `s`.
fn has_end_at(edge: Edge, s: u8) -> bool
    ensures from { IsFalse result → ¬ (edge.from ≡ s) }
    ensures to { IsFalse result → ¬ (edge.to ≡ s) }
{
    if edge.from == s {
        return true;
    }
    edge.to == s
}

/// Whether no edge but the skipped one has an end at slot `s`, or names there are looked at to depth 0.
pub(crate) fn is_leaf(pattern: &Pattern, skipped: Option<usize>, depth: u8, s: u8) -> bool
    ensures { IsTrue result → IsLeaf pattern.now skipped depth s }
{
    if depth == 0 {
        return true;
    }
    for place in 0..edge_count(pattern) {
        if is_skipped(skipped, place) {
            continue;
        }
        if has_end_at(edge_at(pattern, place), s) {
            return false;
        }
    }
    true
}

/// Whether some of the first names is a literal among the second ones.
fn has_literal_among(graph: &Graph, us: &[u32], ws: &[u32]) -> bool
    requires { IsStrictlyIncreasing ws.now }
    ensures { IsTrue result ↔ ((l : ℕ) × Contains us.now l × Contains ws.now l × IsLiteral graph.now l) }
{
    for l in us {
        if !holds(ws, *l) {
            continue;
        }
        if graph.is_literal(*l) {
            return true;
        }
    }
    false
}

/// Whether both lists have one literal. The shorter one is gone through, the longer one searched.
pub(crate) fn share_literal(graph: &Graph, us: &[u32], ws: &[u32]) -> bool
    requires left { IsStrictlyIncreasing us.now }
    requires right { IsStrictlyIncreasing ws.now }
    ensures { IsTrue result ↔ ((l : ℕ) × Contains us.now l × Contains ws.now l × IsLiteral graph.now l) }
{
    if us.len() <= ws.len() {
        has_literal_among(graph, us, ws)
    } else {
        has_literal_among(graph, ws, us)
    }
}
