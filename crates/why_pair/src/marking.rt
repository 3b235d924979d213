//! Which entries of a journal are needed.

ghost use Rattle.std.specs.Prelude.{◌≡◌, ℕ, ◌+◌, ◌<◌, List, Some, IfOk, OnOk, All, false, length, replicate};
ghost use Rattle.chase_laws.specs.Shape.{is_entity};
ghost use Rattle.proof_graph.specs.Built.{IsJoinedAt};
ghost use Rattle.why_pair.specs.Needed.{needs_of};
ghost use Rattle.why_pair.specs.Marking.{with_marks, MarksFrom, CanBeTold};

use chase_laws::{Entry, Pattern, Slot};
use gk_base::NoMemory;
use proof_graph::Ways;
use std::alloc::Global;

/// Whether a slot is an entity variable.
fn is_entity(slot: Slot) -> bool
    ensures { result ≡ is_entity (Some slot) }
{
    matches!(slot, Slot::Entity(_))
}

/// The places of the entries that an entry needs: those on the ways between its images at the entity variables but the first.
fn needs(
    alloc: Global,
    ways: &Ways<'_>,
    slots: &[Slot],
    entry: &Entry,
) -> Result<Vec<u32>, NoMemory>
    requires left { length entry.now.left ≡ length slots.now }
    requires right { length entry.now.right ≡ length slots.now }
    requires joined { IsJoinedAt ways.now slots.now entry.now }
    ensures { IfOk result (λ places. places.items ≡ needs_of ways.now slots.now entry.now) }
{
    let mut places = Vec::new(alloc);
    for at in 1..slots.len() {
        if is_entity(slots[at]) {
            ways.put(alloc, entry.left.get(at), entry.right.get(at), &mut places)?;
        }
    }
    Ok(places)
}

/// Marks these places.
fn mark(marks: &mut [bool], places: &[u32])
    requires { All (λ p. p < length marks.old) places.now }
    ensures { marks.new ≡ with_marks marks.old places.now }
{
    for place in places {
        marks[*place as usize] = true;
    }
}

/// Marks what the entry at a place needs, where it is marked itself.
fn mark_needs(
    alloc: Global,
    ways: &Ways<'_>,
    journal: &[Entry],
    patterns: &[Pattern],
    at: usize,
    marks: &mut [bool],
) -> Result<(), NoMemory>
    requires ways_are { ways.now ≡ journal.now }
    requires told { CanBeTold patterns.now journal.now }
    requires inside { at < length journal.now }
    requires count { length marks.old ≡ length journal.now }
    ensures { OnOk result ((goal : List ℕ) → MarksFrom patterns.now journal.now goal (at + 1) marks.old → MarksFrom patterns.now journal.now goal at marks.new) }
{
    if marks[at] {
        let entry = &journal[at];
        let pattern = &patterns[entry.key as usize];
        let places = needs(alloc, ways, pattern.slots(), entry)?;
        mark(marks, &places);
    }
    Ok(())
}

/// Marks the goal's places, and then what entries that are marked need, from the last entry to the first.
fn mark_all(
    alloc: Global,
    ways: &Ways<'_>,
    journal: &[Entry],
    patterns: &[Pattern],
    goal: &[u32],
    marks: &mut [bool],
) -> Result<(), NoMemory>
    requires ways_are { ways.now ≡ journal.now }
    requires told { CanBeTold patterns.now journal.now }
    requires goal { All (λ p. p < length journal.now) goal.now }
    requires count { length marks.old ≡ length journal.now }
    requires none { marks.old ≡ replicate (length journal.now) false }
    ensures { OnOk result (MarksFrom patterns.now journal.now goal.now 0 marks.new) }
{
    mark(marks, goal);
    let mut at = journal.len();
    while 0 < at {
        at -= 1;
        mark_needs(alloc, ways, journal, patterns, at, marks)?;
    }
    Ok(())
}

/// A mark for each entry: whether it stands at one of the goal's places, or is needed by an entry that has the mark.
pub(crate) fn marks(
    alloc: Global,
    ways: &Ways<'_>,
    journal: &[Entry],
    patterns: &[Pattern],
    goal: &[u32],
) -> Result<Vec<bool>, NoMemory>
    requires ways_are { ways.now ≡ journal.now }
    requires told { CanBeTold patterns.now journal.now }
    requires goal { All (λ p. p < length journal.now) goal.now }
    ensures { IfOk result (λ marks. MarksFrom patterns.now journal.now goal.now 0 marks.items) }
{
    let mut marks = vec![in alloc; false; journal.len()]?;
    mark_all(alloc, ways, journal, patterns, goal, &mut marks)?;
    Ok(marks)
}
