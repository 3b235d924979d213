//! Valuations that begin with given lists, where each list is completed by itself.

ghost use Rattle.std.specs.Prelude.{◌≡◌, ◌<◌, List, ℕ, IsTrue, IsFalse, length};
ghost use Rattle.paired_search.specs.Part.{IsPart, IsReady, IsBare, AreBareFrom, IsCompletedBy};

use crate::choices::{choices, constant_of};
use crate::fits::goes_on;
use chase_laws::{Places, Slot};
use key_plan::Plan;
use typed_graph::Graph;

/// Whether nothing is asked of two names at a slot.
fn is_bare(slot: Slot) -> bool
    ensures { IsTrue result → IsBare slot }
{
    match slot {
        Slot::Any(_) | Slot::Fixed(_) => true,
        Slot::Entity(_) | Slot::Value | Slot::Folded => false,
    }
}

/// Whether all slots from a place on are wildcards and constants. Behind the last slot there are none.
pub(crate) fn are_bare(plan: &Plan, from: usize) -> bool
    ensures bare { IsTrue result → AreBareFrom plan.now.shape from }
    ensures some { IsFalse result → from < length plan.now.shape.slots }
{
    for place in from..plan.len() {
        if !is_bare(plan.slot(place)) {
            return false;
        }
    }
    true
}

/// Whether there is a valuation that begins with this list. The list becomes such a valuation then, and else is as before.
fn complete(graph: &Graph, plan: &Plan, places: &mut Places) -> bool
    requires ready { IsReady plan.now.shape }
    requires begun { 0 < length places.old }
    requires part { IsPart graph.now plan.now.shape places.old }
    ensures found { IsTrue result → IsCompletedBy graph.now plan.now.shape places.old places.new }
    ensures none { IsFalse result → (v : List ℕ) → ¬ (IsCompletedBy graph.now plan.now.shape places.old v) }
    ensures kept { IsFalse result → places.new ≡ places.old }
{
    let s = places.len();
    if s >= plan.len() {
        return true;
    }
    let slot = plan.slot(s);
    let block = plan.block(s);
    let constant = [constant_of(slot)];
    let choice = choices(graph, block, slot, &constant, places);
    let known = choice.place;
    let names = choice.names;
    for m in names {
        if goes_on(graph, plan, block, known, slot, places, *m) {
            places.push(*m);
            if complete(graph, plan, places) {
                return true;
            }
            places.pop();
        }
    }
    false
}

/// Whether for each of two lists there is a valuation that begins with it. The lists become such valuations then, and else
/// are as before.
pub(crate) fn complete_each(
    graph: &Graph,
    plan: &Plan,
    left: &mut Places,
    right: &mut Places,
) -> bool
    requires ready { IsReady plan.now.shape }
    requires begun_left { 0 < length left.old }
    requires begun_right { 0 < length right.old }
    requires part_left { IsPart graph.now plan.now.shape left.old }
    requires part_right { IsPart graph.now plan.now.shape right.old }
    ensures found_left { IsTrue result → IsCompletedBy graph.now plan.now.shape left.old left.new }
    ensures found_right { IsTrue result → IsCompletedBy graph.now plan.now.shape right.old right.new }
    ensures none { IsFalse result → (v w : List ℕ) → IsCompletedBy graph.now plan.now.shape left.old v → ¬ (IsCompletedBy graph.now plan.now.shape right.old w) }
    ensures kept { IsFalse result → (left.new ≡ left.old) × (right.new ≡ right.old) }
{
    let mut whole = *left;
    if !complete(graph, plan, &mut whole) || !complete(graph, plan, right) {
        return false;
    }
    *left = whole;
    true
}
