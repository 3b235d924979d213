//! Whether a proof can be made of a journal: the test of what `why` asks of it.

ghost use Rattle.std.specs.Prelude.{◌≡◌, ◌<◌, ◌^◌, true, Some, IfOk, All, length};
ghost use Rattle.chase_laws.specs.Shape.{is_entity};
ghost use Rattle.proof_graph.specs.Built.{IsJoinedAt};
ghost use Rattle.proof_file.specs.Tells.{IsSupported, AreSupported};

use chase_laws::{Entry, Pattern, Places, Slot};
use gk_base::NoMemory;
use proof_graph::Ways;
use std::alloc::Global;
use term_table::Names;

/// Whether a slot is an entity variable.
fn is_entity(slot: Slot) -> bool
    ensures { result ≡ is_entity (Some slot) }
{
    matches!(slot, Slot::Entity(_))
}

/// Whether a journal joins the images of an entry at each entity variable but the first.
fn are_joined(ways: &Ways<'_>, slots: &[Slot], entry: &Entry) -> bool
    requires left { length entry.now.left ≡ length slots.now }
    requires right { length entry.now.right ≡ length slots.now }
    ensures { result ≡ true → IsJoinedAt ways.now slots.now entry.now }
{
    for at in 1..slots.len() {
        if is_entity(slots[at]) && !ways.joins(entry.left.get(at), entry.right.get(at)) {
            return false;
        }
    }
    true
}

/// Whether there are so many names at least that all these are among them.
fn are_named(places: &Places, count: u32) -> bool
    ensures { result ≡ true → All (λ n. n < count) places.now }
{
    for at in 0..places.len() {
        if places.get(at) >= count {
            return false;
        }
    }
    true
}

/// Whether an entry is supported by those before it.
fn is_supported(
    alloc: Global,
    names: &Names,
    patterns: &[Pattern],
    before: &[Entry],
    entry: &Entry,
) -> Result<bool, NoMemory>
    requires { length before.now < 2 ^ 32 }
    ensures { IfOk result (λ is. is ≡ true → IsSupported (length names.now) patterns.now before.now entry.now) }
{
    if entry.key as usize >= patterns.len() {
        return Ok(false);
    }
    let slots = patterns[entry.key as usize].slots();
    if entry.left.len() != slots.len() || entry.right.len() != slots.len() {
        return Ok(false);
    }
    if entry.left.get(0) != entry.a || entry.right.get(0) != entry.b {
        return Ok(false);
    }
    if !are_named(&entry.left, names.len()) || !are_named(&entry.right, names.len()) {
        return Ok(false);
    }
    let ways = Ways::new(alloc, before)?;
    Ok(are_joined(&ways, slots, entry))
}

/// Whether each entry of a journal is supported by those before it. A journal has fewer than 2 ^ 32 entries here.
pub fn are_supported(
    alloc: Global,
    names: &Names,
    patterns: &[Pattern],
    journal: &[Entry],
) -> Result<bool, NoMemory>
    ensures { IfOk result (λ are. are ≡ true → AreSupported (length names.now) patterns.now journal.now) }
{
    if journal.len() > 1000 {
        return Ok(false);
    }
    for at in 0..journal.len() {
        if !is_supported(alloc, names, patterns, &journal[..at], &journal[at])? {
            return Ok(false);
        }
    }
    Ok(true)
}
