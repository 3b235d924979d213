//! The slots and edges of a pattern by their places, with what a pattern keeps of them, and which edges are skipped.

ghost use Rattle.std.specs.Prelude.{◌≡◌, ◌<◌, ◌↔◌, IsTrue, Some, length, slice_get};
ghost use Rattle.pair_filter.specs.Along.{MaySkip};

use chase_laws::{Edge, Pattern, Slot};

/// The slot at a place.
pub(crate) fn slot_at(pattern: &Pattern, place: u8) -> Slot
    requires { place < length pattern.now.slots }
    ensures { slice_get pattern.now.slots place ≡ Some result }
{
    pattern.slots()[place as usize]
}

/// How many edges there are.
pub(crate) fn edge_count(pattern: &Pattern) -> usize
    ensures { result ≡ length pattern.now.edges }
{
    pattern.edges().len()
}

/// The edge at a place.
pub(crate) fn edge_at(pattern: &Pattern, place: usize) -> Edge
    requires { place < length pattern.now.edges }
    ensures edge { slice_get pattern.now.edges place ≡ Some result }
    ensures from { result.from < length pattern.now.slots }
    ensures to { result.to < length pattern.now.slots }
{
    pattern.edges()[place]
}

/// The place of an edge, if that need not be asked at the names which it leads to and which are looked at to a depth.
pub(crate) fn skipped_from(depth: u8, place: usize, edge: Edge) -> Option<usize>
    ensures { MaySkip result depth place edge }
{
    if depth == 1 && edge.from != edge.to {
        Some(place)
    } else {
        None
    }
}

/// Whether the edge at a place is skipped.
pub(crate) fn is_skipped(skipped: Option<usize>, place: usize) -> bool
    ensures { IsTrue result ↔ skipped ≡ Some place }
{
    match skipped {
        Some(other) => other == place,
        None => false,
    }
}
