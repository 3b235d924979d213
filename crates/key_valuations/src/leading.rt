//! Leading values: those at slots next to slot 0. They are looked up at each name first, and most names whose leading values no
//! other name has are left out before anything else is looked at.

ghost use Rattle.std.specs.Prelude.{◌≡◌, ◌≤◌, ◌<◌, ℕ, List, Some, All, Contains, cond, IfOk, IfSome, IsFalse, IsTrue, OnOk, length, slice_get, slice_index};
ghost use Rattle.chase_laws.specs.declared.pattern.Slot.TheVariants.{Value, Folded};
ghost use Rattle.chase_laws.specs.declared.pattern.Edge.{Edge};
ghost use Rattle.chase_laws.specs.Graph.{NumberedGraph, IsLiteral};
ghost use Rattle.key_plan.specs.Route.{IsPlanOf};
ghost use Rattle.key_valuations.specs.Leading.{IsLeading, leading_value, leading_values, leading_parts, IsLed, IsLedBy, IsAloneAt, AddsLed};
ghost use Rattle.key_valuations.specs.Marks.{AreMarkedBySlots};
ghost use Rattle.key_valuations.specs.Search.{IsSearch, AreLeadsOf};

use crate::budget::{Budget, RowStop};
use crate::marks::{no_marks, slot_at};
use crate::search::KeySearch;
use chase_laws::{Pattern, Slot};
use gk_base::NoMemory;
use key_plan::Plan;
use std::alloc::Global;
use typed_graph::Graph;
use valuation_groups::ValuationRows;

/// A value variable next to slot 0, and the predicate of an edge that leads to it.
#[derive(Clone, Copy)]
pub(crate) struct Leading {
    slot: usize,
    folded: bool,
    pred: u32,
}

/// The predicate of an edge that leads from slot 0 to slot `s`, if there is one.
fn edge_to(pattern: &Pattern, s: usize) -> Option<u32>
    ensures { IfSome result (λ p. (e : Edge) × Contains pattern.now.edges e × (e.from ≡ 0) × (e.pred ≡ p) × (e.to ≡ s)) }
{
    for edge in pattern.edges() {
        if edge.from == 0 && edge.to as usize == s {
            return Some(edge.pred);
        }
    }
    None
}

/// Whether the literals at a value variable are folded; None at another slot.
fn folded_at(slot: Slot) -> Option<bool>
    ensures { IfSome result (λ folded. slot ≡ cond folded Folded Value) }
{
    match slot {
        Slot::Value => Some(false),
        Slot::Folded => Some(true),
        Slot::Entity(_) | Slot::Any(_) | Slot::Fixed(_) => None,
    }
}

/// What slot `s` is as a leading one, if it is one.
fn leading_at(pattern: &Pattern, s: usize) -> Option<Leading>
    requires { s < length pattern.now.slots }
    ensures { IfSome result (IsLeading pattern.now) }
{
    let Some(folded) = folded_at(slot_at(pattern, s)) else {
        return None;
    };
    let Some(pred) = edge_to(pattern, s) else {
        return None;
    };
    Some(Leading {
        slot: s,
        folded,
        pred,
    })
}

/// The value variables next to slot 0, in the order of the slots.
pub(crate) fn leading_of(alloc: Global, pattern: &Pattern) -> Result<Vec<Leading>, NoMemory>
    ensures leading { IfOk result (λ leading. All (IsLeading pattern.now) leading.items) }
    ensures few { IfOk result (λ leading. length leading.items ≤ 16) }
{
    let count = pattern.slots().len();
    let mut leading = Vec::new(alloc);
    for s in 0..count {
        let Some(lead) = leading_at(pattern, s) else {
            continue;
        };
        leading.push(lead)?;
    }
    Ok(leading)
}

/// The leading slot at a place.
fn lead_at(leading: &[Leading], at: usize) -> Leading
    requires { at < length leading.now }
    ensures { slice_get leading.now at ≡ Some result }
{
    leading[at]
}

/// The value of a literal at a leading slot.
fn value_of(graph: &Graph, lead: Leading, literal: u32) -> u32
    requires { IsLiteral graph.now literal }
    ensures { result ≡ leading_value graph.now lead literal }
{
    // For the proof alone: a literal is a name.
    let _ = graph.is_literal(literal);
    if lead.folded {
        graph.alike(literal)
    } else {
        literal
    }
}

/// Whether another name may have the value of a literal at a leading slot. Of a plain literal the rows tell.
fn may_be_shared(graph: &Graph, lead: Leading, literal: u32) -> bool
    ensures literal { IsTrue result → IsLiteral graph.now literal }
    ensures alone { IsFalse result → IsLiteral graph.now literal → IsAloneAt graph.now lead literal }
{
    if !graph.is_literal(literal) {
        return false;
    }
    let folded = lead.folded;
    if folded {
        return true;
    }
    let names = graph.incoming(literal, lead.pred);
    if names.len() > 1 {
        return true;
    }
    false
}

/// Adds a row for each choice of leading values of a name that begins with these `at` values, but for choices that no other
/// name may have. The values are as before.
fn add_choices(
    graph: &Graph,
    pattern: &Pattern,
    leading: &[Leading],
    at: usize,
    name: u32,
    values: &mut Vec<u32>,
    budget: &Budget,
    rows: &mut ValuationRows,
) -> Result<(), RowStop>
    requires leading { All (IsLeading pattern.now) leading.now }
    requires at { at ≡ length values.old.items }
    requires within { at ≤ length leading.now }
    requires value_count { rows.old.value_count ≡ length leading.now }
    requires image_count { rows.old.image_count ≡ 0 }
    ensures kept { OnOk result (values.new.items ≡ values.old.items) }
    ensures added { OnOk result (AddsLed graph.now leading.now (IsLedBy graph.now pattern.now leading.now name values.old.items) rows.old rows.new) }
{
    // Only the contract speaks of the pattern.
    let _ = pattern;
    if at >= leading.len() {
        rows.push(values, name, &[])?;
        budget.count_batch(rows)?;
        return Ok(());
    }
    let lead = lead_at(leading, at);
    let literals = graph.outgoing(name, lead.pred);
    for literal in literals {
        if !may_be_shared(graph, lead, *literal) {
            continue;
        }
        let value = value_of(graph, lead, *literal);
        values.push(value)?;
        add_choices(graph, pattern, leading, at + 1, name, values, budget, rows)?;
        values.truncate(at);
    }
    Ok(())
}

/// Rows of leading values, one for each choice of them at each of some names, but for choices that no other name may have.
pub(crate) fn leading_rows(
    alloc: Global,
    search: &KeySearch<'_>,
    names: &[u32],
) -> Result<ValuationRows, RowStop>
    requires search { IsSearch search.now }
    ensures { IfOk result (AreLeadsOf search.now names.now) }
{
    let leading = search.leading;
    let budget = search.budget;
    let mut rows = ValuationRows::new(alloc, search.key, leading.len(), 0);
    let mut values = Vec::new(alloc);
    for name in names {
        add_choices(
            search.graph,
            search.pattern,
            leading,
            0,
            *name,
            &mut values,
            budget,
            &mut rows,
        )?;
    }
    budget.count_rest(&rows)?;
    Ok(rows)
}

/// The marks that valuations with these leading values have.
pub(crate) fn leading_marks(
    pattern: &Pattern,
    plan: &Plan,
    leading: &[Leading],
    values: &[u32],
) -> [Option<u32>; 16]
    requires plan { IsPlanOf pattern.now plan.now }
    requires leading { All (IsLeading pattern.now) leading.now }
    requires as_many { length values.now ≡ length leading.now }
    ensures long { length result ≡ 16 }
    ensures marked { (G : NumberedGraph) (v : List ℕ) → leading_values G leading.now v ≡ values.now → AreMarkedBySlots G pattern.now plan.now.place result v }
{
    // For the proof alone: a pattern has at most 16 slots.
    let _ = pattern.slots();
    let mut marks = no_marks();
    for at in 0..leading.len() {
        let lead = lead_at(leading, at);
        let place = plan.place(lead.slot);
        marks[place] = Some(values[at]);
    }
    marks
}
