//! Marks: what the names at some places of a plan have to be.

ghost use Rattle.std.specs.Prelude.{◌≡◌, ◌<◌, ◌↔◌, ℕ, IsTrue, IfSome, IfNone, List, None, Some, length, slice_get, slice_index};
ghost use Rattle.chase_laws.specs.Graph.{NumberedGraph, IsLiteral};
ghost use Rattle.chase_laws.specs.Valuation.{FitsSlot};
ghost use Rattle.key_plan.specs.Route.{IsPlanOf};
ghost use Rattle.key_valuations.specs.Marks.{mark_at, IsMarked, IsNextMark, IsUsedUp, AreMarksOf, HasGiven};

use chase_laws::{Pattern, Slot};
use key_plan::Plan;
use typed_graph::Graph;

/// Whether a name is a literal that is alike to a name.
fn is_alike_to(graph: &Graph, n: u32, k: u32) -> bool
    ensures { IsTrue result ↔ (IsLiteral graph.now n × (slice_index graph.now.alike n ≡ k)) }
{
    graph.is_literal(n) && graph.alike(n) == k
}

/// Whether a name that is fit for a slot has the mark that is given there, if one is.
pub(crate) fn has_mark(graph: &Graph, slot: Slot, mark: Option<u32>, n: u32) -> bool
    ensures yes { IsTrue result → IsMarked graph.now slot mark n }
    ensures no { FitsSlot graph.now slot n → IsMarked graph.now slot mark n → IsTrue result }
{
    let Some(k) = mark else {
        return true;
    };
    match slot {
        Slot::Entity(_) | Slot::Value => n == k,
        Slot::Folded => is_alike_to(graph, n, k),
        Slot::Any(_) | Slot::Fixed(_) => true,
    }
}

/// The slot of a pattern at a place.
pub(crate) fn slot_at(pattern: &Pattern, s: usize) -> Slot
    requires { s < length pattern.now.slots }
    ensures { slice_get pattern.now.slots s ≡ Some result }
{
    pattern.slots()[s]
}

/// No mark for any place.
pub(crate) fn no_marks() -> [Option<u32>; 16]
    ensures none { (place : ℕ) → mark_at result place ≡ None }
    ensures long { length result ≡ 16 }
{
    [None; 16]
}

/// The mark that is given for a place, if one is.
pub(crate) fn mark_of(marks: &[Option<u32>], place: usize) -> Option<u32>
    requires { place < length marks.now }
    ensures { result ≡ mark_at marks.now place }
{
    marks[place]
}

/// The mark at a slot, and the values and images that are given for the slots behind it.
#[derive(Clone, Copy)]
struct Next<'a> {
    mark: Option<u32>,
    values: &'a [u32],
    images: &'a [u32],
}

/// The mark at slot `s`, by the values and images that are given for it and those behind it. None where there are too few.
fn next_mark<'a>(slot: Slot, s: usize, values: &'a [u32], images: &'a [u32]) -> Option<Next<'a>>
    ensures some { IfSome result (λ next. IsNextMark slot s values.now images.now next.mark next.values.now next.images.now) }
    ensures none { IfNone result (IsUsedUp slot s values.now images.now) }
{
    match slot {
        Slot::Value | Slot::Folded => match values {
            [first, rest @ ..] => Some(Next {
                mark: Some(*first),
                values: rest,
                images,
            }),
            [] => None,
        },
        Slot::Entity(_) if s != 0 => match images {
            [first, rest @ ..] => Some(Next {
                mark: Some(*first),
                values,
                images: rest,
            }),
            [] => None,
        },
        Slot::Entity(_) | Slot::Any(_) | Slot::Fixed(_) => Some(Next {
            mark: None,
            values,
            images,
        }),
    }
}

/// The marks, by places of the plan, that exactly the valuations with these values and images have. None where too few or too
/// many are given for any valuation.
pub(crate) fn marks_of(
    pattern: &Pattern,
    plan: &Plan,
    values: &[u32],
    images: &[u32],
) -> Option<[Option<u32>; 16]>
    requires { IsPlanOf pattern.now plan.now }
    ensures long { IfSome result (λ marks. length marks ≡ 16) }
    ensures some { IfSome result (λ marks. AreMarksOf pattern.now plan.now.place values.now images.now marks) }
    ensures none { IfNone result ((G : NumberedGraph) (v : List ℕ) → ¬ (HasGiven G pattern.now values.now images.now v)) }
{
    let count = pattern.slots().len();
    let mut marks = [None; 16];
    let mut values_left = values;
    let mut images_left = images;
    for s in 0..count {
        let slot = slot_at(pattern, s);
        let Some(next) = next_mark(slot, s, values_left, images_left) else {
            return None;
        };
        marks[plan.place(s)] = next.mark;
        values_left = next.values;
        images_left = next.images;
    }
    if !values_left.is_empty() {
        return None;
    }
    if !images_left.is_empty() {
        return None;
    }
    Some(marks)
}
