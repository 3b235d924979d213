//! Which slots stand on an edge, and whether walks lead to all of them.

ghost use Rattle.std.specs.Prelude.{List, IsTrue, ◌↔◌, ◌≡◌, ◌≤◌, false, slice_index_or};
ghost use Rattle.std.specs.List.{list_all};
ghost use Rattle.chase_laws.specs.Shape.{IsConnected};
ghost use Rattle.key_file.specs.declared.edge.KeyEdge.{KeyEdge};
ghost use Rattle.key_file.specs.Key.{is_used, is_connected, outline};
ghost use Rattle.key_file.specs.Walks.{AreMarks, IsMarked, IsPassed, AreWider};

use crate::KeyEdge;
use chase_laws::laws::law_pattern;

/// Whether some edge has this slot as an end.
pub fn is_used(edges: &[KeyEdge], slot: usize) -> bool
    ensures { result ≡ is_used edges.now slot }
{
    edges.iter().any(|edge| edge.from as usize == slot || edge.to as usize == slot)
}

/// Whether a slot is marked.
fn is_marked(marks: &[bool; 16], slot: u8) -> bool
    ensures { result ≡ slice_index_or marks.now slot false }
{
    let at = slot as usize;
    at < 16 && marks[at]
}

/// Marks a slot, where it is one of so many and is reached.
fn mark(marks: &mut [bool; 16], slots: usize, slot: u8, is_reached: bool)
    requires { slots ≤ 16 }
    ensures { IsMarked slots slot is_reached marks.old marks.new }
{
    let at = slot as usize;
    if is_reached && at < slots {
        marks[at] = true;
    }
}

/// Marks the slots that an edge joins with one that was marked at first.
fn pass(marks: &mut [bool; 16], first: &[bool; 16], slots: usize, edge: &KeyEdge)
    requires { slots ≤ 16 }
    ensures { IsPassed slots edge.now first.now marks.old marks.new }
{
    mark(marks, slots, edge.to, is_marked(first, edge.from));
    mark(marks, slots, edge.from, is_marked(first, edge.to));
}

/// A mark for slot 0 alone, where there is a slot.
fn first_marks(slots: usize) -> [bool; 16]
    requires { slots ≤ 16 }
    ensures { (edges : List KeyEdge) → AreMarks slots edges 0 result }
{
    let mut marks = [false; 16];
    if slots > 0 {
        marks[0] = true;
    }
    marks
}

/// A mark for each slot that is marked already or that an edge joins with a marked one.
fn wider_marks(first: &[bool; 16], slots: usize, edges: &[KeyEdge]) -> [bool; 16]
    requires { slots ≤ 16 }
    ensures { AreWider slots edges.now first.now result }
{
    let mut marks = *first;
    for edge in edges {
        pass(&mut marks, first, slots, edge);
    }
    marks
}

/// Whether all of these marks stand.
fn are_all(marks: &[bool]) -> bool
    ensures { result ≡ list_all (λ m. m) marks.now }
{
    marks.iter().all(|is_marked| *is_marked)
}

/// Whether a walk leads from slot 0 to each of so many slots. It passes edges in either direction, and a constant is a
/// slot as any other. At most 16 slots.
pub fn is_connected(slots: usize, edges: &[KeyEdge]) -> bool
    requires { slots ≤ 16 }
    ensures test { result ≡ is_connected slots edges.now }
    ensures walks { IsTrue result ↔ IsConnected (outline slots edges.now) }
{
    law_pattern();
    let mut marks = first_marks(slots);
    for _walk in 0..slots {
        marks = wider_marks(&marks, slots, edges);
    }
    are_all(&marks[..slots])
}
