//! One valuation with given parts.

ghost use Rattle.std.specs.Prelude.{◌≡◌, ◌<◌, ◌≤◌, ◌↔◌, [], ◌∷◌, List, ℕ, IsTrue, IsFalse, IfSome, IfNone, length, slice_index};
ghost use Rattle.key_plan.specs.Route.{IsPlanOf};
ghost use Rattle.key_valuations.specs.Parts.{HasParts};
ghost use Rattle.key_valuations.specs.Part.{IsPlaced, IsReady};
ghost use Rattle.key_valuations.specs.Marks.{IsMarkedPart};

use crate::complete::complete;
use crate::fits::goes_on_marked;
use crate::marks::marks_of;
use chase_laws::{Pattern, Places};
use key_plan::Plan;
use typed_graph::Graph;

/// A list by slots, from one in the order of the plan.
pub(crate) fn by_slots(plan: &Plan, places: &Places) -> Places
    requires long { length places.now ≡ length plan.now.place }
    requires few { length plan.now.place ≤ 16 }
    requires within { (s : ℕ) → s < length plan.now.place → slice_index plan.now.place s < length plan.now.place }
    ensures { IsPlaced plan.now.place places.now result }
{
    let mut list = Places::empty();
    for slot in 0..places.len() {
        list.push(places.get(plan.place(slot)));
    }
    list
}

/// Whether a name may stand at slot 0 and has the mark that is given there, if one is. It becomes the first of the empty list
/// then, which else stays empty.
pub(crate) fn begin(
    graph: &Graph,
    plan: &Plan,
    marks: &[Option<u32>],
    name: u32,
    places: &mut Places,
) -> bool
    requires ready { IsReady plan.now.shape }
    requires begins { 0 < length plan.now.shape.slots }
    requires marks { length plan.now.shape.slots ≤ length marks.now }
    requires empty { places.old ≡ [] }
    ensures exact { IsTrue result ↔ IsMarkedPart graph.now plan.now.shape marks.now (name ∷ []) }
    ensures begun { IsTrue result → places.new ≡ name ∷ [] }
    ensures kept { IsFalse result → places.new ≡ [] }
{
    let block = plan.block(0);
    if !goes_on_marked(
        graph,
        plan,
        marks,
        block,
        block.len(),
        plan.slot(0),
        places,
        name,
    ) {
        return false;
    }
    places.push(name);
    true
}

/// A valuation of a key with this name at slot 0, these values and these images, in the order of the pattern's slots: of a
/// folded value variable the value is what its literal is alike to. None comes exactly where no valuation has them, whatever
/// numbers they are. The plan has to be that of the pattern. It takes no memory.
pub fn find_valuation(
    graph: &Graph,
    pattern: &Pattern,
    plan: &Plan,
    name: u32,
    values: &[u32],
    images: &[u32],
) -> Option<Places>
    requires { IsPlanOf pattern.now plan.now }
    ensures found { IfSome result (λ v. HasParts graph.now pattern.now name values.now images.now v) }
    ensures none { IfNone result ((v : List ℕ) → ¬ (HasParts graph.now pattern.now name values.now images.now v)) }
{
    // For the proof alone: the pattern is valid.
    let _ = pattern.slots();
    let marks = marks_of(pattern, plan, values, images)?;
    let mut places = Places::empty();
    if !begin(graph, plan, &marks, name, &mut places) {
        return None;
    }
    if !complete(graph, plan, &marks, &mut places) {
        return None;
    }
    Some(by_slots(plan, &places))
}
