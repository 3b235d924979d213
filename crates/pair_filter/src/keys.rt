//! Which keys may identify two names: those from the first that pairs them to the last.

ghost use Rattle.std.specs.Prelude.{◌≡◌, ◌<◌, ◌≤◌, ◌-◌, ◌↔◌, ℕ, IsTrue, IsFalse, IsSome, IfSome, IfNone, Some, length, slice_get};
ghost use Rattle.chase_laws.specs.declared.pattern.Slot.TheVariants.{Entity};
ghost use Rattle.chase_laws.specs.Shape.{Shape};
ghost use Rattle.chase_laws.specs.Pairing.{ArePairedBy};
ghost use Rattle.chase_laws.specs.Valuation.{FitsSlot};
ghost use Rattle.paired_search.specs.KeyRange.{IsIdle, IsWithin};
ghost use Rattle.pair_filter.specs.Depth.{filter_depth};
ghost use Rattle.pair_filter.specs.Keys.{ArePairedAt, IsRuledOut, AreKeysOf};

use crate::paired::are_paired_along;
use chase_laws::{Pattern, Slot};
use paired_search::KeyRange;
use typed_graph::Graph;

/// How many edges away from its two names a pair is looked at. In specs it is `filter_depth`.
const DEPTH: u8 = 2;

/// Whether two names are entities of a type.
fn have_type(graph: &Graph, t: u32, pair: (u32, u32)) -> bool
    ensures { IsTrue result ↔ (FitsSlot graph.now (Entity t) pair.0 × FitsSlot graph.now (Entity t) pair.1) }
{
    graph.fits_slot(Slot::Entity(t), pair.0) && graph.fits_slot(Slot::Entity(t), pair.1)
}

/// Whether the key at a place pairs two names. Where it does not, no two valuations of it at them coincide. Of most keys their
/// type alone says no.
fn are_paired_at(graph: &Graph, patterns: &[Pattern], key: usize, pair: (u32, u32)) -> bool
    requires { key < length patterns.now }
    ensures paired { IsTrue result → ArePairedAt graph.now patterns.now key pair.0 pair.1 }
    ensures ruled_out { IsFalse result → (Q : Shape) → slice_get patterns.now key ≡ Some Q → IsRuledOut graph.now Q pair.0 pair.1 }
{
    let pattern = &patterns[key];
    if !have_type(graph, pattern.designated_type(), pair) {
        return false;
    }
    are_paired_along(graph, pattern, None, DEPTH, 0, pair.0, pair.1)
}

/// The place of the first key that pairs two names.
fn first_key(graph: &Graph, patterns: &[Pattern], pair: (u32, u32)) -> Option<usize>
    ensures paired { IfSome result (λ key. ArePairedAt graph.now patterns.now key pair.0 pair.1) }
    ensures first { IfSome result (λ first. (key : ℕ) (Q : Shape) → key < first → slice_get patterns.now key ≡ Some Q → IsIdle graph.now Q pair.0 pair.1) }
    ensures none { IfNone result (¬ (ArePairedBy graph.now patterns.now filter_depth pair.0 pair.1)) }
{
    for key in 0..patterns.len() {
        if are_paired_at(graph, patterns, key, pair) {
            return Some(key);
        }
    }
    None
}

/// The place behind the last key that pairs two names, where the first is known. It is looked for from the back.
fn end_key(graph: &Graph, patterns: &[Pattern], pair: (u32, u32), first: usize) -> usize
    requires first { ArePairedAt graph.now patterns.now first pair.0 pair.1 }
    ensures behind { first < result }
    ensures paired { ArePairedAt graph.now patterns.now (result - 1) pair.0 pair.1 }
    ensures last { (key : ℕ) (Q : Shape) → result ≤ key → slice_get patterns.now key ≡ Some Q → IsIdle graph.now Q pair.0 pair.1 }
{
    let behind = first + 1;
    for key in (behind..patterns.len()).rev() {
        if are_paired_at(graph, patterns, key, pair) {
            return key + 1;
        }
    }
    behind
}

/// The keys from a place on up to another, as a range tells them: a place above 255 is 255.
fn range_from(first: usize, end: usize) -> KeyRange
    ensures first { result.first ≤ first }
    ensures first_told { result.first < 255 → result.first ≡ first }
    ensures end { (key : ℕ) → first ≤ key → key < end → IsWithin result key }
    ensures end_told { result.end < 255 → result.end ≡ end }
{
    KeyRange {
        first: first.min(255) as u8,
        end: end.min(255) as u8,
    }
}

/// The keys that may identify two names: a range from the first that pairs them to the last. None where no key does.
pub(crate) fn keys_of(graph: &Graph, patterns: &[Pattern], pair: (u32, u32)) -> Option<KeyRange>
    ensures paired { IsSome result ↔ ArePairedBy graph.now patterns.now filter_depth pair.0 pair.1 }
    ensures keys { IfSome result (λ range. AreKeysOf graph.now patterns.now range pair.0 pair.1) }
{
    let first = first_key(graph, patterns, pair)?;
    let end = end_key(graph, patterns, pair, first);
    Some(range_from(first, end))
}
