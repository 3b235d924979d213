//! How far each slot is from slot 0, and the greatest of these distances.

ghost use Rattle.std.specs.Prelude.{◌≡◌, ◌||◌, ◌≤◌, ◌<◌, ℕ, false, IfOk, length, map, replicate, slice_index_or};
ghost use Rattle.std.specs.List.{list_any, range_with_len};
ghost use Rattle.chase_laws.specs.Shape.{marks, touches, IsRadius};
ghost use Rattle.key_plan.specs.Distance.{AreDistances};
ghost use Rattle.key_plan.specs.Making.{AreRaised, IsGreatest};

use chase_laws::{Edge, Pattern};
use gk_base::NoMemory;
use std::alloc::Global;

/// Whether a slot is marked.
fn is_marked(marks: &[bool], slot: u8) -> bool
    ensures { result ≡ slice_index_or marks.now slot false }
{
    let at = slot as usize;
    at < marks.len() && marks[at]
}

/// Whether an edge joins the slot with a marked one.
fn joins(edge: Edge, marks: &[bool], slot: usize) -> bool
    ensures { result ≡ touches marks.now slot edge }
{
    (edge.to as usize == slot && is_marked(marks, edge.from))
        || (edge.from as usize == slot && is_marked(marks, edge.to))
}

/// Whether some edge does.
pub fn is_joined(edges: &[Edge], marks: &[bool], slot: usize) -> bool
    ensures { result ≡ list_any (touches marks.now slot) edges.now }
{
    edges.iter().any(|edge| joins(*edge, marks, slot))
}

/// Whether the slot is marked, or an edge joins it with a marked one.
fn is_within(edges: &[Edge], marks: &[bool], slot: usize) -> bool
    requires { slot < length marks.now }
    ensures { result ≡ (slice_index_or marks.now slot false || list_any (touches marks.now slot) edges.now) }
{
    marks[slot] || is_joined(edges, marks, slot)
}

/// A mark for slot 0 alone.
pub fn first_marks(alloc: Global, pattern: &Pattern) -> Result<Vec<bool>, NoMemory>
    ensures { IfOk result (λ v. v.items ≡ marks pattern.now 0) }
{
    let count = pattern.slots().len();
    let mut first = Vec::with_capacity(alloc, count)?;
    for slot in 0..count {
        first.push(slot == 0)?;
    }
    Ok(first)
}

/// A mark for each slot that is marked already or that an edge joins with a marked one.
fn wider_marks(alloc: Global, edges: &[Edge], before: &[bool]) -> Result<Vec<bool>, NoMemory>
    ensures { IfOk result (λ v. v.items ≡
        map (λ s. slice_index_or before.now s false || list_any (touches before.now s) edges.now) (range_with_len 0 (length before.now))) }
{
    let mut wider = Vec::with_capacity(alloc, before.len())?;
    for slot in 0..before.len() {
        wider.push(is_within(edges, before, slot))?;
    }
    Ok(wider)
}

/// Sets the distance of each slot that is not marked.
fn set_unmarked(distances: &mut [u8], marks: &[bool], distance: u8)
    requires { length distances.old ≡ length marks.now }
    ensures { AreRaised marks.now distance distances.old distances.new }
{
    for slot in 0..marks.len() {
        if !marks[slot] {
            distances[slot] = distance;
        }
    }
}

/// As many zeros.
pub fn zeros(alloc: Global, len: usize) -> Result<Vec<u8>, NoMemory>
    ensures { IfOk result (λ v. v.items ≡ replicate len 0) }
{
    Ok(vec![in alloc; 0u8; len]?)
}

/// The undirected distance of each slot from slot 0.
pub fn distances(alloc: Global, pattern: &Pattern) -> Result<Vec<u8>, NoMemory>
    ensures { IfOk result (λ v. AreDistances pattern.now v.items) }
{
    let count = pattern.slots().len();
    let mut marks = first_marks(alloc, pattern)?;
    let mut distances = zeros(alloc, count)?;
    for level in 0..count as u8 {
        set_unmarked(&mut distances, &marks, level + 1);
        let wider = wider_marks(alloc, pattern.edges(), &marks)?;
        marks = wider;
    }
    Ok(distances)
}

/// The greatest of the distances.
pub fn greatest(distances: &[u8]) -> u32
    ensures { IsGreatest distances.now result }
{
    let mut most = 0u32;
    for distance in distances {
        most = most.max(u32::from(*distance));
    }
    most
}
