//! The search over the keys of a range, or all, and the search for one of them.

ghost use Rattle.std.specs.Prelude.{◌≡◌, ◌<◌, ◌≤◌, ◌^◌, ◌↔◌, [], ℕ, List, IsTrue, IsFalse, Some, IfSome, IfNone, length, slice_get, slice_index};
ghost use Rattle.chase_laws.specs.Shape.{Shape};
ghost use Rattle.chase_laws.specs.Graph.{HasType};
ghost use Rattle.chase_laws.specs.Valuation.{IsMatch, Matches};
ghost use Rattle.key_plan.specs.Route.{IsPlanOf};
ghost use Rattle.paired_search.specs.KeyRange.{IsWithin};
ghost use Rattle.paired_search.specs.Part.{IsPlaced, IsReady};
ghost use Rattle.paired_search.specs.Plans.{ArePlans};

use crate::extend::{extend, joins};
use crate::fits::goes_on;
use crate::{KeyRange, Sameness};
use chase_laws::{Pattern, Places};
use key_plan::Plan;
use typed_graph::Graph;

/// What `search` found: a key, by its place among the patterns, and its valuations at the two names, by slots.
#[derive(Clone, Copy)]
pub struct Finding {
    pub key: u32,
    pub left: Places,
    pub right: Places,
}

/// Whether there are two valuations at `a` and `b` that coincide. The empty lists become such valuations then, in the
/// order of the plan, and else stay empty.
fn search_placed<S: Sameness>(
    graph: &Graph,
    plan: &Plan,
    view: &S,
    a: u32,
    b: u32,
    left: &mut Places,
    right: &mut Places,
) -> bool
    requires ready { IsReady plan.now.shape }
    requires begins { 0 < length plan.now.shape.slots }
    requires empty_left { left.old ≡ [] }
    requires empty_right { right.old ≡ [] }
    ensures found { IsTrue result → IsMatch graph.now plan.now.shape (S.are_same view.now) a b left.new right.new }
    ensures none { IsFalse result → (v w : List ℕ) → ¬ (IsMatch graph.now plan.now.shape (S.are_same view.now) a b v w) }
    ensures kept { IsFalse result → (left.new ≡ []) × (right.new ≡ []) }
{
    let slot = plan.slot(0);
    let block = plan.block(0);
    let known = block.len();
    if !goes_on(graph, plan, block, known, slot, left, a) {
        return false;
    }
    if !joins(graph, plan, view, block, known, slot, left, right, a, b) {
        return false;
    }
    left.push(a);
    right.push(b);
    if extend(graph, plan, view, left, right) {
        return true;
    }
    left.pop();
    right.pop();
    false
}

/// A list by slots, from one in the order of the plan.
fn by_slots(plan: &Plan, places: &Places) -> Places
    requires long { length places.now ≡ length plan.now.place }
    requires few { length plan.now.place ≤ 16 }
    requires within { (s : ℕ) → s < length plan.now.place → slice_index plan.now.place s < length plan.now.place }
    ensures { IsPlaced plan.now.place places.now result }
{
    let mut list = Places::empty();
    for slot in 0..places.len() {
        list.push(places.get(plan.place(slot)));
    }
    list
}

/// Two valuations of one key at `a` and `b` that coincide up to the view; None exactly where there are none. The lists
/// are empty, and are so again after None.
fn search_key<S: Sameness>(
    graph: &Graph,
    pattern: &Pattern,
    plan: &Plan,
    view: &S,
    a: u32,
    b: u32,
    left: &mut Places,
    right: &mut Places,
) -> Option<(Places, Places)>
    requires plan { IsPlanOf pattern.now plan.now }
    requires empty_left { left.old ≡ [] }
    requires empty_right { right.old ≡ [] }
    ensures found { IfSome result (λ f. IsMatch graph.now pattern.now (S.are_same view.now) a b f.0 f.1) }
    ensures none { IfNone result ((v w : List ℕ) → ¬ (IsMatch graph.now pattern.now (S.are_same view.now) a b v w)) }
    ensures kept { IfNone result ((left.new ≡ []) × (right.new ≡ [])) }
{
    // For the proof alone: the pattern is valid.
    let _ = pattern.slots();
    if search_placed(graph, plan, view, a, b, left, right) {
        return Some((by_slots(plan, left), by_slots(plan, right)));
    }
    None
}

/// Whether two names have a type.
fn have_type(graph: &Graph, t: u32, a: u32, b: u32) -> bool
    ensures { IsTrue result ↔ (HasType graph.now a t × HasType graph.now b t) }
{
    graph.has_type(a, t) && graph.has_type(b, t)
}

/// Looks among the keys of a range for one with two valuations at `a` and `b` that coincide up to the names that are the
/// same by the view, and gives the first that has some. None comes exactly where no key of the range has any, whatever
/// numbers `a` and `b` are. The plan at each place has to be that of the pattern there. It takes no memory. Of keys behind
/// one another that designate one type, the type is tested once where it is missing.
pub fn search_within<S: Sameness>(
    graph: &Graph,
    patterns: &[Pattern],
    plans: &[Plan],
    range: KeyRange,
    a: u32,
    b: u32,
    view: &S,
) -> Option<Finding>
    requires few { length patterns.now < 2 ^ 32 }
    requires plans { ArePlans patterns.now plans.now }
    ensures found { IfSome result (λ f. (Q : Shape) × (slice_get patterns.now f.key ≡ Some Q)
        × IsMatch graph.now Q (S.are_same view.now) a b f.left f.right) }
    ensures within { IfSome result (λ f. IsWithin range f.key) }
    ensures first { IfSome result (λ f. (k : ℕ) (Q : Shape) (v w : List ℕ) → k < f.key → IsWithin range k →
        slice_get patterns.now k ≡ Some Q → ¬ (IsMatch graph.now Q (S.are_same view.now) a b v w)) }
    ensures none { IfNone result ((k : ℕ) (Q : Shape) (v w : List ℕ) → IsWithin range k →
        slice_get patterns.now k ≡ Some Q → ¬ (IsMatch graph.now Q (S.are_same view.now) a b v w)) }
{
    let mut left = Places::empty();
    let mut right = Places::empty();
    let mut missing = None;
    let first = range.first as usize;
    let end = range.end_among(patterns.len());
    for key in first..end {
        let pattern = &patterns[key];
        let plan = &plans[key];
        let designated = pattern.designated_type();
        if missing == Some(designated) {
            continue;
        }
        if !have_type(graph, designated, a, b) {
            missing = Some(designated);
            continue;
        }
        let found = search_key(graph, pattern, plan, view, a, b, &mut left, &mut right);
        if let Some(found) = found {
            return Some(Finding {
                key: key as u32,
                left: found.0,
                right: found.1,
            });
        }
    }
    None
}

/// Looks for a key with two valuations at `a` and `b` that coincide up to the names that are the same by the view, and
/// gives the first key that has some. None comes exactly where no key has any, whatever numbers `a` and `b` are. The
/// plan at each place has to be that of the pattern there. It takes no memory. Of keys behind one another that designate one
/// type, the type is tested once where it is missing.
pub fn search<S: Sameness>(
    graph: &Graph,
    patterns: &[Pattern],
    plans: &[Plan],
    a: u32,
    b: u32,
    view: &S,
) -> Option<Finding>
    requires few { length patterns.now < 2 ^ 32 }
    requires plans { ArePlans patterns.now plans.now }
    ensures found { IfSome result (λ f. (Q : Shape) × (slice_get patterns.now f.key ≡ Some Q)
        × IsMatch graph.now Q (S.are_same view.now) a b f.left f.right) }
    ensures first { IfSome result (λ f. (k : ℕ) (Q : Shape) (v w : List ℕ) → k < f.key → slice_get patterns.now k ≡ Some Q →
        ¬ (IsMatch graph.now Q (S.are_same view.now) a b v w)) }
    ensures none { IfNone result (¬ (Matches graph.now patterns.now (S.are_same view.now) a b)) }
{
    search_within(graph, patterns, plans, KeyRange::ALL, a, b, view)
}
