//! The least reason against a step.

ghost use Rattle.std.specs.Prelude.{◌≡◌, ◌<◌, ◌&&◌, IfOk, All, true, nat_eq, length};
ghost use Rattle.std.specs.List.{list_all};
ghost use Rattle.key_file.specs.Key.{all_differ};
ghost use Rattle.proof_file.specs.Tells.{are_earlier};
ghost use Rattle.proof_check.specs.NumberVerdict.{numbers_have_shape, numbers_are_known, numbers_have_kinds, numbers_have_images, numbers_are_constants, reason_from_supports, reason_from_values, reason_from_kinds, number_reason};
ghost use Rattle.proof_check.specs.Rows.{HasPlaces, AreEarlier};
ghost use Rattle.proof_check.specs.Ready.{with_sides};

use crate::checker::Checker;
use crate::reason::Reason;
use crate::rows::SortedRows;
use crate::side::{are_constants, are_different, are_known, have_images, have_kinds};
use crate::sides::Sides;
use crate::supports::{all_lead, are_earlier, are_supports};
use crate::values::all_agree;
use chase_laws::laws::law_pattern;
use chase_laws::{Edge, Pattern, Slot};
use gk_base::NoMemory;
use proof_file::ProofStep;
use std::alloc::Global;
use term_table::Names;

/// Whether a step has one number for each slot on either side, and the supports that its pattern asks for.
fn has_shape(pattern: &Pattern, step: &ProofStep, sides: &Sides) -> bool
    ensures { result ≡ numbers_have_shape pattern.now (with_sides step.now sides.now) }
{
    sides.left.len() == pattern.slots.len()
        && sides.right.len() == pattern.slots.len()
        && are_supports(&pattern.slots, &step.supports)
}

/// What the test of a step's shape says, for the proofs of the tests after it.
fn shape_tells(pattern: &Pattern, step: &ProofStep, sides: &Sides)
    requires { numbers_have_shape pattern.now (with_sides step.now sides.now) ≡ true }
    ensures { HasPlaces pattern.now (with_sides step.now sides.now) }
{
    let _slots = pattern.slots.len();
    let _supports = step.supports.len();
    let _left = sides.left.len();
    law_pattern();
}

/// What the test that supports are earlier says, for the proof of the test after it.
fn earlier_tells(count: usize, step: &ProofStep)
    requires { list_all (are_earlier count) step.now.supports ≡ true }
    ensures { AreEarlier count step.now }
{
    let _steps = step.left.len();
}

/// Whether each number of the two sides is that of a term that is subject or object of a triple.
fn are_both_known(known: &[bool], left: &[u32], right: &[u32]) -> bool
    ensures { result ≡ (numbers_are_known known.now left.now && numbers_are_known known.now right.now) }
{
    are_known(known, left) && are_known(known, right)
}

/// Whether no number stands twice on one side.
fn are_both_different(left: &[u32], right: &[u32]) -> bool
    ensures { result ≡ (all_differ nat_eq left.now && all_differ nat_eq right.now) }
{
    are_different(left) && are_different(right)
}

/// Whether each number of the two sides has the kind and the type of its slot. `kind` is the number of rdf:type.
fn have_both_kinds(
    rows: &SortedRows,
    names: &Names,
    kind: u32,
    slots: &[Slot],
    left: &[u32],
    right: &[u32],
) -> bool
    requires left { All (λ n. n < length names.now) left.now }
    requires right { All (λ n. n < length names.now) right.now }
    requires left_count { length left.now ≡ length slots.now }
    requires right_count { length right.now ≡ length slots.now }
    ensures { result ≡ (numbers_have_kinds rows.now names.now kind slots.now left.now && numbers_have_kinds rows.now names.now kind slots.now right.now) }
{
    have_kinds(rows, names, kind, slots, left) && have_kinds(rows, names, kind, slots, right)
}

/// Whether the image of each edge on either side is a row.
fn have_both_images(rows: &SortedRows, edges: &[Edge], left: &[u32], right: &[u32]) -> bool
    requires left { All (λ e. (e.from < length left.now) × (e.to < length left.now)) edges.now }
    requires right { All (λ e. (e.from < length right.now) × (e.to < length right.now)) edges.now }
    ensures { result ≡ (numbers_have_images rows.now edges.now left.now && numbers_have_images rows.now edges.now right.now) }
{
    have_images(rows, edges, left) && have_images(rows, edges, right)
}

/// Whether each constant has its own number on both sides.
fn are_both_constants(slots: &[Slot], left: &[u32], right: &[u32]) -> bool
    requires left_count { length left.now ≡ length slots.now }
    requires right_count { length right.now ≡ length slots.now }
    ensures { result ≡ (numbers_are_constants slots.now left.now && numbers_are_constants slots.now right.now) }
{
    are_constants(slots, left) && are_constants(slots, right)
}

/// The least reason against a step from the tests of its supports on.
fn reason_from_supports(step: &ProofStep, sides: &Sides, ends: &[(u32, u32)]) -> Option<Reason>
    requires left { All (λ s. s.slot < length sides.now.left.items) step.now.supports }
    requires right { All (λ s. s.slot < length sides.now.right.items) step.now.supports }
    ensures { result ≡ reason_from_supports ends.now (with_sides step.now sides.now) }
{
    if !are_earlier(ends.len(), &step.supports) {
        return Some(Reason::SupportNotEarlier);
    }
    earlier_tells(ends.len(), step);
    if !all_lead(ends, &sides.left, &sides.right, &step.supports) {
        return Some(Reason::SupportDoesNotLeadThere);
    }
    None
}

/// The least reason against a step with this pattern from the test of its values on.
fn reason_from_values(
    alloc: Global,
    names: &Names,
    pattern: &Pattern,
    step: &ProofStep,
    sides: &Sides,
    ends: &[(u32, u32)],
) -> Result<Option<Reason>, NoMemory>
    requires left { All (λ n. n < length names.now) sides.now.left.items }
    requires right { All (λ n. n < length names.now) sides.now.right.items }
    requires places { HasPlaces pattern.now (with_sides step.now sides.now) }
    ensures { IfOk result (λ reason. reason ≡ reason_from_values names.now ends.now (with_sides step.now sides.now) pattern.now) }
{
    if !all_agree(alloc, names, &pattern.slots, &sides.left, &sides.right)? {
        return Ok(Some(Reason::ValueDiffers));
    }
    Ok(reason_from_supports(step, sides, ends))
}

/// The least reason against a step with this pattern from the test of kinds on.
fn reason_from_kinds(
    alloc: Global,
    checker: &Checker,
    pattern: &Pattern,
    step: &ProofStep,
    sides: &Sides,
    ends: &[(u32, u32)],
) -> Result<Option<Reason>, NoMemory>
    requires left { All (λ n. n < length checker.now.names) sides.now.left.items }
    requires right { All (λ n. n < length checker.now.names) sides.now.right.items }
    requires places { HasPlaces pattern.now (with_sides step.now sides.now) }
    ensures { IfOk result (λ reason. reason ≡ reason_from_kinds checker.now.rows checker.now.names checker.now.kind ends.now
        (with_sides step.now sides.now) pattern.now) }
{
    let (slots, edges) = (pattern.slots.as_slice(), pattern.edges.as_slice());
    let (left, right) = (sides.left.as_slice(), sides.right.as_slice());
    let (names, rows) = (&checker.names, &checker.rows);
    if !have_both_kinds(rows, names, checker.kind, slots, left, right) {
        return Ok(Some(Reason::WrongKindOrType));
    }
    if !have_both_images(rows, edges, left, right) {
        return Ok(Some(Reason::TripleMissing));
    }
    if !are_both_constants(slots, left, right) {
        return Ok(Some(Reason::ConstantDiffers));
    }
    reason_from_values(alloc, names, pattern, step, sides, ends)
}

/// The least reason against a step with this pattern and these sides, where the earlier steps have these ends.
pub(crate) fn least_reason(
    alloc: Global,
    checker: &Checker,
    pattern: &Pattern,
    step: &ProofStep,
    sides: &Sides,
    ends: &[(u32, u32)],
) -> Result<Option<Reason>, NoMemory>
    requires left { All (λ n. n < length checker.now.names) sides.now.left.items }
    requires right { All (λ n. n < length checker.now.names) sides.now.right.items }
    ensures { IfOk result (λ reason. reason ≡ number_reason checker.now.rows checker.now.known.items checker.now.names checker.now.kind ends.now
        (with_sides step.now sides.now) pattern.now) }
{
    if !has_shape(pattern, step, sides) {
        return Ok(Some(Reason::WrongShape));
    }
    shape_tells(pattern, step, sides);
    if !are_both_known(&checker.known, &sides.left, &sides.right) {
        return Ok(Some(Reason::TermNotInTheGraph));
    }
    if !are_both_different(&sides.left, &sides.right) {
        return Ok(Some(Reason::TermTwice));
    }
    reason_from_kinds(alloc, checker, pattern, step, sides, ends)
}
