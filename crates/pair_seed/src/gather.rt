//! The partners of one entity: gathered key by key, then sorted, each once.

ghost use Rattle.std.specs.Prelude.{◌≡◌, ◌<◌, ◌↔◌, ℕ, [], ◌∷◌, ⊤, Contains, IfOk, length, slice_get, Some};
ghost use Rattle.std.specs.List.Sorted.{IsStrictlyIncreasing};
ghost use Rattle.chase_laws.specs.Shape.{Shape};
ghost use Rattle.chase_laws.specs.Graph.{IsLiteral};
ghost use Rattle.pair_seed.specs.Folds.{Holds, Serves};
ghost use Rattle.chase_laws.specs.Valuation.{Designates};
ghost use Rattle.pair_seed.specs.Key.{SharesAtPlace, IsLead};
ghost use Rattle.pair_seed.specs.Gathered.{Gathered, Found, ArePartners};

use crate::lead::{Lead, choose};
use crate::parts::edge_count;
use crate::share::{designates, pairs_with};
use chase_laws::Pattern;
use gk_base::NoMemory;
use typed_graph::ascending::above;
use typed_graph::{Graph, Index};

/// Adds those of some numbers above `a` that the key pairs with it. They share with it what the edge at `lead` asks for.
fn gather(
    graph: &Graph,
    folds: &Index,
    pattern: &Pattern,
    lead: usize,
    a: u32,
    bs: &[u32],
    near: &mut Vec<u32>,
) -> Result<(), NoMemory>
    requires folds { Serves graph.now folds.now pattern.now }
    requires left { Designates graph.now pattern.now a }
    requires lead { (b : ℕ) → Contains bs.now b → SharesAtPlace graph.now pattern.now lead a b }
    requires above { (b : ℕ) → Contains bs.now b → a < b }
    ensures { IfOk result (λ _. Gathered graph.now pattern.now a near.old.items near.new.items (λ b. Contains bs.now b)) }
{
    for b in bs {
        if pairs_with(graph, folds, pattern, lead, a, *b) {
            near.push(*b)?;
        }
    }
    Ok(())
}

/// Adds those above `a` that the key pairs with it and that a literal of `a` leads to.
fn gather_literal(
    graph: &Graph,
    folds: &Index,
    pattern: &Pattern,
    lead: Lead,
    a: u32,
    l: u32,
    near: &mut Vec<u32>,
) -> Result<(), NoMemory>
    requires folds { Serves graph.now folds.now pattern.now }
    requires left { Designates graph.now pattern.now a }
    requires lead { IsLead pattern.now lead }
    requires row { Contains graph.now.rows (a ∷ lead.pred ∷ l ∷ []) }
    requires named { l < length graph.now.literal }
    ensures { IfOk result (λ _. Gathered graph.now pattern.now a near.old.items near.new.items (λ b. IsLiteral graph.now l × Holds graph.now lead.folded b lead.pred l)) }
{
    if graph.is_literal(l) {
        let bs = above(lead.holders(graph, folds, l), a);
        gather(graph, folds, pattern, lead.place, a, bs, near)?;
    }
    Ok(())
}

/// Adds those above `a` that the key pairs with it, where the key has the edge `lead`.
fn gather_lead(
    graph: &Graph,
    folds: &Index,
    pattern: &Pattern,
    lead: Lead,
    a: u32,
    near: &mut Vec<u32>,
) -> Result<(), NoMemory>
    requires folds { Serves graph.now folds.now pattern.now }
    requires left { Designates graph.now pattern.now a }
    requires lead { IsLead pattern.now lead }
    ensures { IfOk result (λ _. Gathered graph.now pattern.now a near.old.items near.new.items (λ b. ⊤)) }
{
    for l in graph.outgoing(a, lead.pred) {
        gather_literal(graph, folds, pattern, lead, a, *l, near)?;
    }
    Ok(())
}

/// Adds those above `a` that the key pairs with it, out of all that have the type.
fn gather_type(
    graph: &Graph,
    folds: &Index,
    pattern: &Pattern,
    a: u32,
    near: &mut Vec<u32>,
) -> Result<(), NoMemory>
    requires folds { Serves graph.now folds.now pattern.now }
    requires left { Designates graph.now pattern.now a }
    ensures { IfOk result (λ _. Gathered graph.now pattern.now a near.old.items near.new.items (λ b. ⊤)) }
{
    let bs = above(graph.with_type(pattern.designated_type()), a);
    gather(graph, folds, pattern, edge_count(pattern), a, bs, near)?;
    Ok(())
}

/// Adds those above `a` that the key pairs with it.
fn gather_key(
    graph: &Graph,
    folds: &Index,
    pattern: &Pattern,
    a: u32,
    near: &mut Vec<u32>,
) -> Result<(), NoMemory>
    requires { Serves graph.now folds.now pattern.now }
    ensures { IfOk result (λ _. Gathered graph.now pattern.now a near.old.items near.new.items (λ b. ⊤)) }
{
    if !designates(graph, pattern, a) {
        return Ok(());
    }
    match choose(graph, folds, pattern, a) {
        Some(lead) => {
            gather_lead(graph, folds, pattern, lead, a, near)?;
            Ok(())
        }
        None => {
            gather_type(graph, folds, pattern, a, near)?;
            Ok(())
        }
    }
}

/// What goes with `a` above it, as often as it is found.
fn find(
    graph: &Graph,
    folds: &Index,
    patterns: &[Pattern],
    a: u32,
    near: &mut Vec<u32>,
) -> Result<(), NoMemory>
    requires { (key : ℕ) (Q : Shape) → slice_get patterns.now key ≡ Some Q → Serves graph.now folds.now Q }
    ensures { IfOk result (λ _. Found graph.now patterns.now a (length patterns.now) near.new.items) }
{
    near.clear();
    for pattern in patterns {
        gather_key(graph, folds, pattern, a, near)?;
    }
    Ok(())
}

/// Puts numbers in ascending order, each once.
fn put_in_order(near: &mut Vec<u32>) -> Result<(), NoMemory>
    ensures ascending { IfOk result (λ _. IsStrictlyIncreasing near.new.items) }
    ensures same { IfOk result (λ _. (b : ℕ) → Contains near.new.items b ↔ Contains near.old.items b) }
{
    // None or one are in order, and most names go with no more.
    if near.len() > 1 {
        // What one literal leads to ascends, so these are some ascending runs, which a stable sort merges.
        near.sort()?;
        near.dedup();
    }
    Ok(())
}

/// Puts into `near` what makes a candidate with `a`, which is the lower one, ascending.
pub(crate) fn partners(
    graph: &Graph,
    folds: &Index,
    patterns: &[Pattern],
    a: u32,
    near: &mut Vec<u32>,
) -> Result<(), NoMemory>
    requires { (key : ℕ) (Q : Shape) → slice_get patterns.now key ≡ Some Q → Serves graph.now folds.now Q }
    ensures { IfOk result (λ _. ArePartners graph.now patterns.now a near.new.items) }
{
    find(graph, folds, patterns, a, near)?;
    put_in_order(near)?;
    Ok(())
}
