//! Whether a key pairs two names: edge by edge, down to a depth.

ghost use Rattle.std.specs.Prelude.{◌≡◌, ◌<◌, ◌↔◌, IsTrue, Some, IfSome, length, slice_get};
ghost use Rattle.std.specs.List.Sorted.{IsStrictlyIncreasing};
ghost use Rattle.chase_laws.specs.declared.pattern.Slot.TheVariants.{Value};
ghost use Rattle.chase_laws.specs.Pairing.{PairedHere};
ghost use Rattle.pair_filter.specs.Along.{ArePairedExcept, ArePairedForth, ArePairedBack, HavePaired, HasPartner, HasAlone, HaveCommon, HaveCommonPartner, IsValueEdge};

use crate::here::are_here;
use crate::leaf::{is_leaf, share_literal};
use crate::parts::{edge_at, edge_count, is_skipped, skipped_from, slot_at};
use chase_laws::{Edge, Pattern, Slot};
use typed_graph::Graph;
use typed_graph::ascending::holds;

/// Of lists no longer than this each name is tried with each: to look at names by themselves first would cost more than it
/// saves.
const SHORT: usize = 8;

/// Whether two names are paired to a depth at slot `s`, where the edge at the skipped place is not asked.
#[cycle(paired)]
fn are_paired(
    graph: &Graph,
    pattern: &Pattern,
    skipped: Option<usize>,
    depth: u8,
    s: u8,
    u: u32,
    w: u32,
) -> bool
    requires { s < length pattern.now.slots }
    ensures { IsTrue result ↔ ArePairedExcept graph.now pattern.now skipped depth s u w }
{
    if !are_here(graph, pattern, s, u, w) {
        return false;
    }
    are_paired_along(graph, pattern, skipped, depth, s, u, w)
}

/// Whether two names that can go together at slot `s` are paired there to a depth, where the edge at the skipped place is
/// not asked.
#[cycle(paired)]
pub(crate) fn are_paired_along(
    graph: &Graph,
    pattern: &Pattern,
    skipped: Option<usize>,
    depth: u8,
    s: u8,
    u: u32,
    w: u32,
) -> bool
    requires slot { s < length pattern.now.slots }
    requires here { PairedHere graph.now pattern.now s u w }
    ensures { IsTrue result ↔ ArePairedExcept graph.now pattern.now skipped depth s u w }
{
    if depth == 0 {
        return true;
    }
    for place in 0..edge_count(pattern) {
        if is_skipped(skipped, place) {
            continue;
        }
        let edge = edge_at(pattern, place);
        if !are_paired_forth(graph, pattern, depth - 1, place, edge, s, u, w) {
            return false;
        }
        if !are_paired_back(graph, pattern, depth - 1, place, edge, s, u, w) {
            return false;
        }
    }
    true
}

/// Whether two names are paired to a depth along the edge at a place, if that begins at slot `s`.
#[cycle(paired)]
fn are_paired_forth(
    graph: &Graph,
    pattern: &Pattern,
    depth: u8,
    place: usize,
    edge: Edge,
    s: u8,
    u: u32,
    w: u32,
) -> bool
    requires edge { slice_get pattern.now.edges place ≡ Some edge }
    requires to { edge.to < length pattern.now.slots }
    requires here { PairedHere graph.now pattern.now s u w }
    ensures { IsTrue result ↔ ArePairedForth graph.now pattern.now depth edge s u w }
{
    if edge.from != s {
        return true;
    }
    let skipped = skipped_from(depth, place, edge);
    let us = graph.outgoing(u, edge.pred);
    let ws = graph.outgoing(w, edge.pred);
    have_paired(graph, pattern, skipped, depth, edge.to, us, ws)
}

/// Whether they are, if the edge ends there.
#[cycle(paired)]
fn are_paired_back(
    graph: &Graph,
    pattern: &Pattern,
    depth: u8,
    place: usize,
    edge: Edge,
    s: u8,
    u: u32,
    w: u32,
) -> bool
    requires edge { slice_get pattern.now.edges place ≡ Some edge }
    requires from { edge.from < length pattern.now.slots }
    requires here { PairedHere graph.now pattern.now s u w }
    ensures { IsTrue result ↔ ArePairedBack graph.now pattern.now depth edge s u w }
{
    if edge.to != s {
        return true;
    }
    let skipped = skipped_from(depth, place, edge);
    let us = graph.incoming(u, edge.pred);
    let ws = graph.incoming(w, edge.pred);
    have_paired(graph, pattern, skipped, depth, edge.from, us, ws)
}

/// Whether a name of one list and a name of another are paired. At a value variable and at a constant the two are one name.
#[cycle(paired)]
fn have_paired(
    graph: &Graph,
    pattern: &Pattern,
    skipped: Option<usize>,
    depth: u8,
    s: u8,
    us: &[u32],
    ws: &[u32],
) -> bool
    requires slot { s < length pattern.now.slots }
    requires left { IsStrictlyIncreasing us.now }
    requires right { IsStrictlyIncreasing ws.now }
    ensures { IsTrue result ↔ HavePaired graph.now pattern.now skipped depth s us.now ws.now }
{
    match slot_at(pattern, s) {
        Slot::Value => have_value(graph, pattern, skipped, depth, s, us, ws),
        Slot::Fixed(_) => have_common(graph, pattern, skipped, depth, s, us, ws),
        Slot::Entity(_) | Slot::Any(_) | Slot::Folded => {
            have_any_paired(graph, pattern, skipped, depth, s, us, ws)
        }
    }
}

/// Whether there are such two at a value variable.
#[cycle(paired)]
fn have_value(
    graph: &Graph,
    pattern: &Pattern,
    skipped: Option<usize>,
    depth: u8,
    s: u8,
    us: &[u32],
    ws: &[u32],
) -> bool
    requires slot { s < length pattern.now.slots }
    requires value { slice_get pattern.now.slots s ≡ Some Value }
    requires left { IsStrictlyIncreasing us.now }
    requires right { IsStrictlyIncreasing ws.now }
    ensures { IsTrue result ↔ HavePaired graph.now pattern.now skipped depth s us.now ws.now }
{
    if is_leaf(pattern, skipped, depth, s) {
        return share_literal(graph, us, ws);
    }
    have_common(graph, pattern, skipped, depth, s, us, ws)
}

/// Whether a name that both lists have is paired with itself. The shorter list is gone through, the longer one searched.
#[cycle(paired)]
fn have_common(
    graph: &Graph,
    pattern: &Pattern,
    skipped: Option<usize>,
    depth: u8,
    s: u8,
    us: &[u32],
    ws: &[u32],
) -> bool
    requires slot { s < length pattern.now.slots }
    requires left { IsStrictlyIncreasing us.now }
    requires right { IsStrictlyIncreasing ws.now }
    ensures { IsTrue result ↔ HaveCommon graph.now pattern.now skipped depth s us.now ws.now }
{
    if us.len() <= ws.len() {
        has_common_among(graph, pattern, skipped, depth, s, us, ws)
    } else {
        has_common_among(graph, pattern, skipped, depth, s, ws, us)
    }
}

/// Whether a name of a list that is in another one, too, is paired with itself.
#[cycle(paired)]
fn has_common_among(
    graph: &Graph,
    pattern: &Pattern,
    skipped: Option<usize>,
    depth: u8,
    s: u8,
    names: &[u32],
    others: &[u32],
) -> bool
    requires slot { s < length pattern.now.slots }
    requires ascending { IsStrictlyIncreasing others.now }
    ensures { IsTrue result ↔ HaveCommon graph.now pattern.now skipped depth s names.now others.now }
{
    for n in names {
        if !holds(others, *n) {
            continue;
        }
        if are_paired(graph, pattern, skipped, depth, s, *n, *n) {
            return true;
        }
    }
    false
}

/// Whether a name of one list and a name of another are paired, whatever stands at the slot. In longer lists names that are not
/// even paired with themselves are passed over.
#[cycle(paired)]
fn have_any_paired(
    graph: &Graph,
    pattern: &Pattern,
    skipped: Option<usize>,
    depth: u8,
    s: u8,
    us: &[u32],
    ws: &[u32],
) -> bool
    requires slot { s < length pattern.now.slots }
    requires right { IsStrictlyIncreasing ws.now }
    ensures { IsTrue result ↔ HavePaired graph.now pattern.now skipped depth s us.now ws.now }
{
    if us.len() <= SHORT && ws.len() <= SHORT {
        return have_few_paired(graph, pattern, skipped, depth, s, us, ws);
    }
    if !has_alone(graph, pattern, skipped, depth, s, ws) {
        return false;
    }
    for u in us {
        if !are_paired(graph, pattern, skipped, depth, s, *u, *u) {
            continue;
        }
        if has_partner(graph, pattern, skipped, depth, s, *u, ws) {
            return true;
        }
    }
    false
}

/// Whether there are such two in short lists.
#[cycle(paired)]
fn have_few_paired(
    graph: &Graph,
    pattern: &Pattern,
    skipped: Option<usize>,
    depth: u8,
    s: u8,
    us: &[u32],
    ws: &[u32],
) -> bool
    requires { s < length pattern.now.slots }
    ensures { IsTrue result ↔ HavePaired graph.now pattern.now skipped depth s us.now ws.now }
{
    for u in us {
        if has_partner_in(graph, pattern, skipped, depth, s, *u, ws) {
            return true;
        }
    }
    false
}

/// Whether some name of a list is paired with itself.
#[cycle(paired)]
fn has_alone(
    graph: &Graph,
    pattern: &Pattern,
    skipped: Option<usize>,
    depth: u8,
    s: u8,
    names: &[u32],
) -> bool
    requires { s < length pattern.now.slots }
    ensures { IsTrue result ↔ HasAlone graph.now pattern.now skipped depth s names.now }
{
    for n in names {
        if are_paired(graph, pattern, skipped, depth, s, *n, *n) {
            return true;
        }
    }
    false
}

/// Whether some name of a list is paired with `u`. Where an edge leads from the slot to a value variable, only names that
/// share a value with `u` are looked at.
#[cycle(paired)]
fn has_partner(
    graph: &Graph,
    pattern: &Pattern,
    skipped: Option<usize>,
    depth: u8,
    s: u8,
    u: u32,
    ws: &[u32],
) -> bool
    requires slot { s < length pattern.now.slots }
    requires right { IsStrictlyIncreasing ws.now }
    ensures { IsTrue result ↔ HasPartner graph.now pattern.now skipped depth s u ws.now }
{
    if depth == 0 {
        return has_partner_in(graph, pattern, skipped, depth, s, u, ws);
    }
    match value_edge(pattern, skipped, s) {
        Some(edge) => has_partner_by(graph, pattern, skipped, depth, s, u, ws, edge),
        None => has_partner_in(graph, pattern, skipped, depth, s, u, ws),
    }
}

/// Whether one of them is, each of them being looked at.
#[cycle(paired)]
fn has_partner_in(
    graph: &Graph,
    pattern: &Pattern,
    skipped: Option<usize>,
    depth: u8,
    s: u8,
    u: u32,
    ws: &[u32],
) -> bool
    requires { s < length pattern.now.slots }
    ensures { IsTrue result ↔ HasPartner graph.now pattern.now skipped depth s u ws.now }
{
    for w in ws {
        if are_paired(graph, pattern, skipped, depth, s, u, *w) {
            return true;
        }
    }
    false
}

/// Whether one of them is, found by the values that it shares with `u` along an edge to a value variable.
#[cycle(paired)]
fn has_partner_by(
    graph: &Graph,
    pattern: &Pattern,
    skipped: Option<usize>,
    depth: u8,
    s: u8,
    u: u32,
    ws: &[u32],
    edge: Edge,
) -> bool
    requires slot { s < length pattern.now.slots }
    requires depth { 0 < depth }
    requires right { IsStrictlyIncreasing ws.now }
    requires edge { IsValueEdge pattern.now skipped s edge }
    ensures { IsTrue result ↔ HasPartner graph.now pattern.now skipped depth s u ws.now }
{
    for l in graph.outgoing(u, edge.pred) {
        let holders = graph.incoming(*l, edge.pred);
        if holders.len() > ws.len() {
            if has_partner_among(graph, pattern, skipped, depth, s, u, ws, holders) {
                return true;
            }
            continue;
        }
        if has_partner_among(graph, pattern, skipped, depth, s, u, holders, ws) {
            return true;
        }
    }
    false
}

/// Whether a name of a list that is in another one, too, is paired with `u`.
#[cycle(paired)]
fn has_partner_among(
    graph: &Graph,
    pattern: &Pattern,
    skipped: Option<usize>,
    depth: u8,
    s: u8,
    u: u32,
    names: &[u32],
    others: &[u32],
) -> bool
    requires slot { s < length pattern.now.slots }
    requires ascending { IsStrictlyIncreasing others.now }
    ensures { IsTrue result ↔ HaveCommonPartner graph.now pattern.now skipped depth s u names.now others.now }
{
    for w in names {
        if !holds(others, *w) {
            continue;
        }
        if are_paired(graph, pattern, skipped, depth, s, u, *w) {
            return true;
        }
    }
    false
}

/// An edge from slot `s` to a value variable, if there is one that is not skipped.
fn value_edge(pattern: &Pattern, skipped: Option<usize>, s: u8) -> Option<Edge>
    ensures { IfSome result (λ edge. IsValueEdge pattern.now skipped s edge) }
{
    for place in 0..edge_count(pattern) {
        if is_skipped(skipped, place) {
            continue;
        }
        let edge = edge_at(pattern, place);
        if leads_to_value(pattern, s, edge) {
            return Some(edge);
        }
    }
    None
}

/// Whether an edge leads from slot `s` to a value variable.
fn leads_to_value(pattern: &Pattern, s: u8, edge: Edge) -> bool
    requires { edge.to < length pattern.now.slots }
    ensures { IsTrue result → (edge.from ≡ s) × (slice_get pattern.now.slots edge.to ≡ Some Value) }
{
    if edge.from != s {
        return false;
    }
    match slot_at(pattern, edge.to) {
        Slot::Value => true,
        Slot::Entity(_) | Slot::Any(_) | Slot::Folded | Slot::Fixed(_) => false,
    }
}
