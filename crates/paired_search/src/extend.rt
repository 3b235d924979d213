//! Two valuations, extended slot by slot.

ghost use Rattle.std.specs.Prelude.{◌≡◌, ◌<◌, ◌++◌, [], ◌∷◌, ◌↔◌, List, ℕ, IsTrue, IsFalse, Some, length, slice_get};
ghost use Rattle.key_plan.specs.Route.{IsBlock};
ghost use Rattle.paired_search.specs.Part.{HoldsAt, IsPart, IsPair, IsReady, AreCompletedBy};

use crate::Sameness;
use crate::choices::{choices, constant_of, partners, sides};
use crate::complete::{are_bare, complete_each};
use crate::fits::{agree, goes_on};
use chase_laws::{Edge, Places, Slot};
use key_plan::Plan;
use typed_graph::Graph;

/// Whether two lists go on with one more name each, of which the left one is known to do. On the right the edge at place
/// `known` of the block is known to be a row.
pub fn joins<S: Sameness>(
    graph: &Graph,
    plan: &Plan,
    view: &S,
    block: &[Edge],
    known: usize,
    slot: Slot,
    left: &Places,
    right: &Places,
    m: u32,
    n: u32,
) -> bool
    requires pair { IsPair graph.now plan.now.shape (S.are_same view.now) left.now right.now }
    requires block { IsBlock plan.now.shape (length left.now) block.now }
    requires slot { slice_get plan.now.shape.slots (length left.now) ≡ Some slot }
    requires known { HoldsAt graph.now right.now block.now known n }
    requires left { IsPart graph.now plan.now.shape (left.now ++ m ∷ []) }
    ensures { IsTrue result ↔ IsPair graph.now plan.now.shape (S.are_same view.now) (left.now ++ m ∷ []) (right.now ++ n ∷ []) }
{
    if !agree(graph, view, left.len(), slot, m, n) {
        return false;
    }
    goes_on(graph, plan, block, known, slot, right, n)
}

/// Whether there are two valuations that coincide and begin with these lists. The lists become such valuations then,
/// and else are as before.
pub fn extend<S: Sameness>(
    graph: &Graph,
    plan: &Plan,
    view: &S,
    left: &mut Places,
    right: &mut Places,
) -> bool
    requires ready { IsReady plan.now.shape }
    requires begun { 0 < length left.old }
    requires pair { IsPair graph.now plan.now.shape (S.are_same view.now) left.old right.old }
    ensures found { IsTrue result → AreCompletedBy graph.now plan.now.shape (S.are_same view.now) left.old right.old left.new right.new }
    ensures none { IsFalse result → (v w : List ℕ) → ¬ (AreCompletedBy graph.now plan.now.shape (S.are_same view.now) left.old right.old v w) }
    ensures kept { IsFalse result → (left.new ≡ left.old) × (right.new ≡ right.old) }
{
    let s = left.len();
    if are_bare(plan, s) {
        return complete_each(graph, plan, left, right);
    }
    let slot = plan.slot(s);
    let block = plan.block(s);
    let constant = [constant_of(slot)];
    let lefts = choices(graph, block, slot, &constant, left);
    let rights = choices(graph, block, slot, &constant, right);
    let known = rights.place;
    let (tried, others) = sides(slot, lefts.names, rights.names);
    for m in tried {
        let own = [*m];
        let beside = partners(graph, view, s, slot, &own, others);
        if !beside.is_empty() && goes_on(graph, plan, block, lefts.place, slot, left, *m) {
            for n in beside {
                if joins(graph, plan, view, block, known, slot, left, right, *m, *n) {
                    left.push(*m);
                    right.push(*n);
                    if extend(graph, plan, view, left, right) {
                        return true;
                    }
                    left.pop();
                    right.pop();
                }
            }
        }
    }
    false
}
