//! Whether a key pairs two names: by type, and edge by edge.

ghost use Rattle.std.specs.Prelude.{◌<◌, ◌↔◌, ℕ, Contains, IsTrue, length, slice_index};
ghost use Rattle.std.specs.List.Sorted.{IsStrictlyIncreasing};
ghost use Rattle.chase_laws.specs.Graph.{IsLiteral};
ghost use Rattle.chase_laws.specs.Candidate.{Shares, SharesAlong, IsCandidateUnder};
ghost use Rattle.chase_laws.specs.declared.pattern.Slot.TheVariants.{Value, Folded};
ghost use Rattle.pair_seed.specs.Folds.{HasAlike, IsFoldTable, Serves};
ghost use Rattle.chase_laws.specs.Valuation.{Designates};
ghost use Rattle.pair_seed.specs.Key.{SharesAtPlace};

use crate::parts::{edge_at, edge_count, slot_at};
use chase_laws::{Edge, Pattern, Slot};
use typed_graph::ascending::holds;
use typed_graph::{Graph, Index};

/// Whether the key designates a type of a name.
pub(crate) fn designates(graph: &Graph, pattern: &Pattern, n: u32) -> bool
    ensures { IsTrue result ↔ Designates graph.now pattern.now n }
{
    let t = pattern.designated_type();
    if graph.is_literal(n) {
        return false;
    }
    graph.has_type(n, t)
}

/// Whether a number is a literal among ascending numbers.
fn is_literal_in(graph: &Graph, ys: &[u32], l: u32) -> bool
    requires { IsStrictlyIncreasing ys.now }
    ensures { IsTrue result ↔ (IsLiteral graph.now l × Contains ys.now l) }
{
    graph.is_literal(l) && holds(ys, l)
}

/// Whether some of the first numbers is a literal among the second ones, which ascend.
fn has_common_literal(graph: &Graph, xs: &[u32], ys: &[u32]) -> bool
    requires { IsStrictlyIncreasing ys.now }
    ensures { IsTrue result ↔ ((l : ℕ) × IsLiteral graph.now l × Contains xs.now l × Contains ys.now l) }
{
    for l in xs {
        if is_literal_in(graph, ys, *l) {
            return true;
        }
    }
    false
}

/// Whether the two share a literal under p. The shorter list is gone through, the longer one searched.
fn share_value(graph: &Graph, p: u32, a: u32, b: u32) -> bool
    ensures { IsTrue result ↔ Shares graph.now Value p a b }
{
    let of_a = graph.outgoing(a, p);
    let of_b = graph.outgoing(b, p);
    if of_a.len() <= of_b.len() {
        has_common_literal(graph, of_a, of_b)
    } else {
        has_common_literal(graph, of_b, of_a)
    }
}

/// Whether l is a literal to which one that b has under p is alike.
fn is_folded_in(graph: &Graph, folds: &Index, p: u32, l: u32, b: u32) -> bool
    requires folds { IsFoldTable graph.now folds.now }
    requires named { l < length graph.now.literal }
    ensures { IsTrue result ↔ (IsLiteral graph.now l × HasAlike graph.now b p (slice_index graph.now.alike l)) }
{
    graph.is_literal(l) && holds(folds.find(graph.alike(l), p), b)
}

/// Whether the two have literals under p that are alike.
fn share_folded(graph: &Graph, folds: &Index, p: u32, a: u32, b: u32) -> bool
    requires { IsFoldTable graph.now folds.now }
    ensures { IsTrue result ↔ Shares graph.now Folded p a b }
{
    for l in graph.outgoing(a, p) {
        if is_folded_in(graph, folds, p, *l, b) {
            return true;
        }
    }
    false
}

/// Whether the two share what an edge asks for.
fn shares_at(graph: &Graph, folds: &Index, pattern: &Pattern, edge: Edge, a: u32, b: u32) -> bool
    requires edge { Contains pattern.now.edges edge }
    requires to { edge.to < length pattern.now.slots }
    requires folds { Serves graph.now folds.now pattern.now }
    ensures { IsTrue result ↔ SharesAlong graph.now pattern.now a b edge }
{
    if edge.from != 0 {
        return true;
    }
    match slot_at(pattern, edge.to as usize) {
        Slot::Value => share_value(graph, edge.pred, a, b),
        Slot::Folded => share_folded(graph, folds, edge.pred, a, b),
        Slot::Entity(_) | Slot::Any(_) | Slot::Fixed(_) => true,
    }
}

/// Whether the two share what each edge asks for, where they share what the edge at `lead` does.
fn shares_all(graph: &Graph, folds: &Index, pattern: &Pattern, lead: usize, a: u32, b: u32) -> bool
    requires folds { Serves graph.now folds.now pattern.now }
    requires lead { SharesAtPlace graph.now pattern.now lead a b }
    ensures { IsTrue result ↔ ((place : ℕ) → SharesAtPlace graph.now pattern.now place a b) }
{
    for place in 0..edge_count(pattern) {
        if place == lead {
            continue;
        }
        if !shares_at(graph, folds, pattern, edge_at(pattern, place), a, b) {
            return false;
        }
    }
    true
}

/// Whether the key, which designates a type of `a`, pairs it with `b`, where the two share what the edge at `lead` asks
/// for.
pub(crate) fn pairs_with(
    graph: &Graph,
    folds: &Index,
    pattern: &Pattern,
    lead: usize,
    a: u32,
    b: u32,
) -> bool
    requires folds { Serves graph.now folds.now pattern.now }
    requires left { Designates graph.now pattern.now a }
    requires lead { SharesAtPlace graph.now pattern.now lead a b }
    ensures { IsTrue result ↔ IsCandidateUnder graph.now pattern.now a b }
{
    designates(graph, pattern, b) && shares_all(graph, folds, pattern, lead, a, b)
}
