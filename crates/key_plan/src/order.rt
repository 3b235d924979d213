//! The slots in the order of a search, and the place of each in it.

ghost use Rattle.std.specs.Prelude.{◌≡◌, ◌<◌, ◌↔◌, ◌⊎◌, ℕ, false, true, IfOk, IfSome, IsTrue, Some, length, slice_index_or};
ghost use Rattle.key_plan.specs.Order.{rank_of, ComesFirst, IsOrder};
ghost use Rattle.key_plan.specs.Making.{IsOpen, IsFirstBelow, IsListing};
ghost use Rattle.key_plan.specs.Route.{AreInverse};

use crate::distance::{first_marks, is_joined, zeros};
use chase_laws::{Pattern, Slot};
use gk_base::NoMemory;
use std::alloc::Global;

/// How late a slot comes where several may come next. What leaves the least choice is first; a wildcard is last, as it is never
/// held against another name's.
fn rank(slot: Slot) -> u8
    ensures { result ≡ rank_of (Some slot) }
{
    match slot {
        Slot::Fixed(_) => 0,
        Slot::Value | Slot::Folded => 1,
        Slot::Entity(_) => 2,
        Slot::Any(_) => 3,
    }
}

/// Of a slot and one with a smaller number, if there is one, the one that comes first.
fn first_of(pattern: &Pattern, slot: u8, other: Option<u8>) -> u8
    requires slot { slot < length pattern.now.slots }
    requires other { IfSome other (λ o. o < slot) }
    ensures one { (result ≡ slot) ⊎ (other ≡ Some result) }
    ensures first { ComesFirst pattern.now result slot }
    ensures before { IfSome other (ComesFirst pattern.now result) }
{
    let slots = pattern.slots();
    match other {
        Some(before) if rank(slots[before as usize]) <= rank(slots[slot as usize]) => before,
        _ => slot,
    }
}

/// Whether a slot may come next: it has no mark, and an edge joins it with one that has.
fn is_open(pattern: &Pattern, marks: &[bool], slot: u8) -> bool
    requires marks { length marks.now ≡ length pattern.now.slots }
    requires slot { slot < length pattern.now.slots }
    ensures { IsTrue result ↔ IsOpen pattern.now marks.now slot }
{
    !marks[slot as usize] && is_joined(pattern.edges(), marks, slot as usize)
}

/// The slot that comes next behind those that are marked.
fn next_slot(pattern: &Pattern, marks: &[bool]) -> u8
    requires marks { length marks.now ≡ length pattern.now.slots }
    requires begun { slice_index_or marks.now 0 false ≡ true }
    requires left { ¬ ((s : ℕ) → s < length pattern.now.slots → slice_index_or marks.now s false ≡ true) }
    ensures { IsFirstBelow pattern.now marks.now (length pattern.now.slots) (Some result) }
{
    let mut next = None;
    for slot in 0..pattern.slots().len() as u8 {
        if is_open(pattern, marks, slot) {
            next = Some(first_of(pattern, slot, next));
        }
    }
    next.unwrap()
}

/// The slots of a pattern in the order of a search: slot 0, and then always, of those that an edge joins with one before, the
/// one of the least rank, and of these the one with the least number.
pub fn slot_order(alloc: Global, pattern: &Pattern) -> Result<Vec<u8>, NoMemory>
    ensures order { IfOk result (λ v. IsOrder pattern.now v.items) }
    ensures listing { IfOk result (λ v. IsListing v.items) }
{
    let count = pattern.slots().len();
    let mut order = Vec::with_capacity(alloc, count)?;
    let mut marks = first_marks(alloc, pattern)?;
    order.push(0)?;
    while order.len() < count {
        let slot = next_slot(pattern, &marks);
        marks[slot as usize] = true;
        order.push(slot)?;
    }
    Ok(order)
}

/// The place of each slot in an order.
pub fn places(alloc: Global, order: &[u8]) -> Result<Vec<u8>, NoMemory>
    requires { IsListing order.now }
    ensures { IfOk result (λ v. AreInverse order.now v.items) }
{
    let mut places = zeros(alloc, order.len())?;
    for place in 0..order.len() {
        places[order[place] as usize] = place as u8;
    }
    Ok(places)
}
