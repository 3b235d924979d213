//! All choices of values and images at the slots behind a list.

ghost use Rattle.std.specs.Prelude.{◌≡◌, ◌<◌, ◌≤◌, IsTrue, OnOk, length};
ghost use Rattle.key_plan.specs.Route.{IsPlanOf};
ghost use Rattle.key_valuations.specs.Counts.{HasCounts};
ghost use Rattle.key_valuations.specs.Listing.{AreBareFrom, IsBare, AddsParts, IsReached};
ghost use Rattle.key_valuations.specs.Marks.{IsMarkedPart};

use crate::budget::RowStop;
use crate::choices::{choices, only_one};
use crate::complete::complete;
use crate::find::by_slots;
use crate::fits::goes_on_marked;
use crate::marks::mark_of;
use crate::parts::{Lists, add_row};
use chase_laws::{Pattern, Places, Slot};
use key_plan::Plan;
use typed_graph::Graph;
use valuation_groups::ValuationRows;

/// Whether a slot gives no value and no image.
fn is_bare(slot: Slot) -> bool
    ensures { IsTrue result → IsBare slot }
{
    match slot {
        Slot::Any(_) | Slot::Fixed(_) => true,
        Slot::Entity(_) | Slot::Value | Slot::Folded => false,
    }
}

/// The first place from which on all slots are wildcards and constants.
pub(crate) fn bare_from(plan: &Plan) -> usize
    ensures { AreBareFrom plan.now.shape result }
{
    let mut place = plan.len();
    while place > 0 {
        if !is_bare(plan.slot(place - 1)) {
            return place;
        }
        place -= 1;
    }
    place
}

/// Adds the parts of a valuation that begins with the list, if there is one. All that do have the same parts, as only bare
/// slots are behind the list.
fn add_completion(
    graph: &Graph,
    pattern: &Pattern,
    plan: &Plan,
    marks: &[Option<u32>],
    places: &Places,
    lists: &mut Lists<'_>,
    rows: &mut ValuationRows,
) -> Result<(), RowStop>
    requires plan { IsPlanOf pattern.now plan.now }
    requires marks { length plan.now.shape.slots ≤ length marks.now }
    requires begun { 0 < length places.now }
    requires part { IsMarkedPart graph.now plan.now.shape marks.now places.now }
    requires bare { AreBareFrom plan.now.shape (length places.now) }
    requires counts { HasCounts pattern.now rows.old.value_count rows.old.image_count }
    ensures { OnOk result (AddsParts graph.now pattern.now (IsReached graph.now plan.now marks.now places.now) rows.old rows.new) }
{
    // For the proof alone: the pattern is valid.
    let _ = pattern.slots();
    let mut whole = *places;
    if !complete(graph, plan, marks, &mut whole) {
        return Ok(());
    }
    let valuation = by_slots(plan, &whole);
    add_row(graph, pattern, &valuation, lists, rows)?;
    Ok(())
}

/// Adds a row for each choice of values and images of the valuations that begin with this list and have the given marks. From
/// the place `bare` on all slots are wildcards and constants. The list is as before.
pub(crate) fn extend_all(
    graph: &Graph,
    pattern: &Pattern,
    plan: &Plan,
    marks: &[Option<u32>],
    bare: usize,
    places: &mut Places,
    lists: &mut Lists<'_>,
    rows: &mut ValuationRows,
) -> Result<(), RowStop>
    requires plan { IsPlanOf pattern.now plan.now }
    requires marks { length plan.now.shape.slots ≤ length marks.now }
    requires begun { 0 < length places.old }
    requires part { IsMarkedPart graph.now plan.now.shape marks.now places.old }
    requires bare { AreBareFrom plan.now.shape bare }
    requires counts { HasCounts pattern.now rows.old.value_count rows.old.image_count }
    ensures kept { OnOk result (places.new ≡ places.old) }
    ensures added { OnOk result (AddsParts graph.now pattern.now (IsReached graph.now plan.now marks.now places.old) rows.old rows.new) }
{
    let s = places.len();
    if s >= bare || s >= plan.len() {
        add_completion(graph, pattern, plan, marks, places, lists, rows)?;
        return Ok(());
    }
    let slot = plan.slot(s);
    let block = plan.block(s);
    let mark = mark_of(marks, s);
    let only = only_one(slot, mark);
    let choice = choices(graph, block, &only, places);
    let known = choice.place;
    let names = choice.names;
    for m in names {
        if goes_on_marked(graph, plan, marks, block, known, slot, places, *m) {
            places.push(*m);
            extend_all(graph, pattern, plan, marks, bare, places, lists, rows)?;
            places.pop();
        }
    }
    Ok(())
}
