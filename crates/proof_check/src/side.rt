//! The tests of one side of a step, over numbers of terms.

ghost use Rattle.std.specs.Prelude.{◌≡◌, ◌<◌, All, false, nat_eq, length, slice_index_or};
ghost use Rattle.key_file.specs.Key.{all_differ};
ghost use Rattle.proof_check.specs.NumberVerdict.{has_row, numbers_are_known, number_has_kind, numbers_have_kinds, numbers_have_images, number_is_constant, numbers_are_constants};

use crate::rows::SortedRows;
use chase_laws::{Edge, Slot};
use term_table::Names;

/// Whether there is the row of these three numbers.
fn holds(rows: &SortedRows, s: u32, p: u32, o: u32) -> bool
    ensures { result ≡ has_row rows.now s p o }
{
    rows.has(s, p, o)
}

/// Whether a number has its flag set. One without a flag has not.
fn is_known(known: &[bool], n: u32) -> bool
    ensures { result ≡ slice_index_or known.now n false }
{
    match known.get(n as usize) {
        Some(is) => *is,
        None => false,
    }
}

/// Whether each number is that of a term that is subject or object of a triple.
pub(crate) fn are_known(known: &[bool], side: &[u32]) -> bool
    ensures { result ≡ numbers_are_known known.now side.now }
{
    side.iter().all(|n| is_known(known, *n))
}

/// Whether no number stands twice.
pub(crate) fn are_different(side: &[u32]) -> bool
    ensures { result ≡ all_differ nat_eq side.now }
{
    for at in 0..side.len() {
        if side[at + 1..].contains(&side[at]) {
            return false;
        }
    }
    true
}

/// Whether a number has the kind and the type of a slot.
fn has_kind(rows: &SortedRows, names: &Names, kind: u32, slot: Slot, n: u32) -> bool
    requires { n < length names.now }
    ensures { result ≡ number_has_kind rows.now names.now kind slot n }
{
    let is_literal = names.term(n).is_literal();
    match slot {
        Slot::Entity(t) | Slot::Any(t) => !is_literal && holds(rows, n, kind, t),
        Slot::Value | Slot::Folded => is_literal,
        Slot::Fixed(_) => true,
    }
}

/// Whether each number has the kind and the type of its slot. `kind` is the number of rdf:type.
pub(crate) fn have_kinds(
    rows: &SortedRows,
    names: &Names,
    kind: u32,
    slots: &[Slot],
    side: &[u32],
) -> bool
    requires named { All (λ n. n < length names.now) side.now }
    requires count { length side.now ≡ length slots.now }
    ensures { result ≡ numbers_have_kinds rows.now names.now kind slots.now side.now }
{
    for at in 0..slots.len() {
        if !has_kind(rows, names, kind, slots[at], side[at]) {
            return false;
        }
    }
    true
}

/// Whether the image of each edge is a row.
pub(crate) fn have_images(rows: &SortedRows, edges: &[Edge], side: &[u32]) -> bool
    requires { All (λ e. (e.from < length side.now) × (e.to < length side.now)) edges.now }
    ensures { result ≡ numbers_have_images rows.now edges.now side.now }
{
    edges.iter().all(|edge| holds(
        rows,
        side[edge.from as usize],
        edge.pred,
        side[edge.to as usize],
    ))
}

/// Whether a number is that of the constant, where the slot is one.
fn is_constant(slot: Slot, n: u32) -> bool
    ensures { result ≡ number_is_constant slot n }
{
    match slot {
        Slot::Fixed(constant) => n == constant,
        Slot::Entity(_) | Slot::Any(_) | Slot::Value | Slot::Folded => true,
    }
}

/// Whether each constant has its own number.
pub(crate) fn are_constants(slots: &[Slot], side: &[u32]) -> bool
    requires { length side.now ≡ length slots.now }
    ensures { result ≡ numbers_are_constants slots.now side.now }
{
    for at in 0..slots.len() {
        if !is_constant(slots[at], side[at]) {
            return false;
        }
    }
    true
}
