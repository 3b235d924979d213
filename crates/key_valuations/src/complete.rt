//! One valuation that begins with a list.

ghost use Rattle.std.specs.Prelude.{◌≡◌, ◌<◌, ◌≤◌, List, ℕ, IsTrue, IsFalse, length};
ghost use Rattle.key_valuations.specs.Part.{IsReady};
ghost use Rattle.key_valuations.specs.Marks.{IsMarkedPart, IsCompletedBy};

use crate::choices::{choices, only_one};
use crate::fits::goes_on_marked;
use crate::marks::mark_of;
use chase_laws::Places;
use key_plan::Plan;
use typed_graph::Graph;

/// Whether there is a valuation that begins with this list and has the given marks. The list becomes such a valuation then,
/// and else is as before.
pub(crate) fn complete(
    graph: &Graph,
    plan: &Plan,
    marks: &[Option<u32>],
    places: &mut Places,
) -> bool
    requires ready { IsReady plan.now.shape }
    requires marks { length plan.now.shape.slots ≤ length marks.now }
    requires begun { 0 < length places.old }
    requires part { IsMarkedPart graph.now plan.now.shape marks.now places.old }
    ensures found { IsTrue result → IsCompletedBy graph.now plan.now.shape marks.now places.old places.new }
    ensures none { IsFalse result → (v : List ℕ) → ¬ (IsCompletedBy graph.now plan.now.shape marks.now places.old v) }
    ensures kept { IsFalse result → places.new ≡ places.old }
{
    let s = places.len();
    if s >= plan.len() {
        return true;
    }
    let slot = plan.slot(s);
    let block = plan.block(s);
    let mark = mark_of(marks, s);
    let only = only_one(slot, mark);
    let choice = choices(graph, block, &only, places);
    let known = choice.place;
    let names = choice.names;
    for m in names {
        if goes_on_marked(graph, plan, marks, block, known, slot, places, *m) {
            places.push(*m);
            if complete(graph, plan, marks, places) {
                return true;
            }
            places.pop();
        }
    }
    false
}
