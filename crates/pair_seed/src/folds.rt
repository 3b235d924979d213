//! Who has a literal that is alike to a name: an index, which is made only where a key folds values at its first slot.

ghost use Rattle.std.specs.Prelude.{◌≡◌, ◌<◌, ◌↔◌, ℕ, [], ◌∷◌, All, Contains, IfOk, IsTrue, Some, length, slice_get, slice_index};
ghost use Rattle.chase_laws.specs.declared.pattern.Edge.{Edge};
ghost use Rattle.chase_laws.specs.Shape.{Shape};
ghost use Rattle.pair_seed.specs.Folds.{HasAlike, IsFoldTable, IsFoldedEdge, Serves};

use crate::parts::{edge_at, edge_count, slot_at};
use chase_laws::{Edge as PatternEdge, Pattern, Slot};
use gk_base::NoMemory;
use std::alloc::Global;
use typed_graph::{Graph, Index};

/// Whether an edge leads from slot 0 to a folded value variable.
fn is_folded(pattern: &Pattern, edge: PatternEdge) -> bool
    requires { edge.to < length pattern.now.slots }
    ensures { IsTrue result ↔ IsFoldedEdge pattern.now edge }
{
    if edge.from != 0 {
        return false;
    }
    match slot_at(pattern, edge.to as usize) {
        Slot::Folded => true,
        Slot::Entity(_) | Slot::Any(_) | Slot::Value | Slot::Fixed(_) => false,
    }
}

/// Whether a pattern has such an edge.
fn has_folded(pattern: &Pattern) -> bool
    ensures { (e : Edge) → Contains pattern.now.edges e → IsFoldedEdge pattern.now e → IsTrue result }
{
    for place in 0..edge_count(pattern) {
        if is_folded(pattern, edge_at(pattern, place)) {
            return true;
        }
    }
    false
}

/// Whether some pattern has such an edge.
fn any_folded(patterns: &[Pattern]) -> bool
    ensures { (key : ℕ) (Q : Shape) (e : Edge) → slice_get patterns.now key ≡ Some Q → Contains Q.edges e → IsFoldedEdge Q e → IsTrue result }
{
    for pattern in patterns {
        if has_folded(pattern) {
            return true;
        }
    }
    false
}

/// For each row whose object is a literal: what that is alike to, the predicate and the subject.
fn folded_rows(alloc: Global, graph: &Graph) -> Result<Vec<[u32; 3]>, NoMemory>
    ensures rows { IfOk result (λ v. (c p n : ℕ) → Contains v.items (c ∷ p ∷ n ∷ []) ↔ HasAlike graph.now n p c) }
    ensures named { IfOk result (λ v. All (λ row. slice_index row 0 < length graph.now.literal) v.items) }
{
    let mut out = Vec::new(alloc);
    for row in graph.rows() {
        if graph.is_literal(row[2]) {
            out.push([graph.alike(row[2]), row[1], row[0]])?;
        }
    }
    Ok(out)
}

/// The table of those rows.
fn folded_table(alloc: Global, graph: &Graph) -> Result<Index, NoMemory>
    ensures { IfOk result (λ t. IsFoldTable graph.now t) }
{
    let rows = folded_rows(alloc, graph)?;
    Index::build(alloc, rows, graph.names())
}

/// The table that the patterns need.
pub(crate) fn table_for(
    alloc: Global,
    graph: &Graph,
    patterns: &[Pattern],
) -> Result<Index, NoMemory>
    ensures { IfOk result (λ t. (key : ℕ) (Q : Shape) → slice_get patterns.now key ≡ Some Q → Serves graph.now t Q) }
{
    if any_folded(patterns) {
        let table = folded_table(alloc, graph)?;
        return Ok(table);
    }
    let table = Index::build(alloc, Vec::new(alloc), 0)?;
    Ok(table)
}
