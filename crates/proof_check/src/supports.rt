//! The tests of the supports of a step.

ghost use Rattle.std.specs.Prelude.{nat_lt, ◌≡◌, ◌<◌, ◌≤◌, ◌&&◌, ◌==◌, Some, All, nat_eq, bytes_eq, length, map, slice_index};
ghost use Rattle.std.specs.List.{list_all};
ghost use Rattle.chase_laws.specs.Shape.{is_entity};
ghost use Rattle.proof_file.specs.Leads.{other_end, links_lead};
ghost use Rattle.proof_file.specs.Tells.{supported_slots, are_earlier, places_of};

use chase_laws::Slot;
use proof_file::Support;

/// Whether the support at a place is that of a slot.
fn is_support_of(supports: &[Support], place: usize, slot: usize) -> bool
    ensures { result ≡ (nat_lt place (length supports.now) && slice_index (map (λ s. s.slot) supports.now) place == slot) }
{
    if place >= supports.len() {
        return false;
    }
    let support = &supports[place];
    support.slot as usize == slot
}

/// Whether a slot is an entity variable.
fn is_entity(slot: Slot) -> bool
    ensures { result ≡ is_entity (Some slot) }
{
    matches!(slot, Slot::Entity(_))
}

/// Whether the supports are those of the entity variables but the first, ascending.
pub(crate) fn are_supports(slots: &[Slot], supports: &[Support]) -> bool
    ensures { result ≡ bytes_eq (map (λ s. s.slot) supports.now) (supported_slots slots.now) }
{
    if slots.is_empty() {
        return supports.is_empty();
    }
    let mut next = 0;
    for at in 1..slots.len() {
        if is_entity(slots[at]) {
            if !is_support_of(supports, next, at) {
                return false;
            }
            next += 1;
        }
    }
    next == supports.len()
}

/// Whether a support names earlier steps only, of which there are so many.
fn is_earlier(count: usize, support: &Support) -> bool
    ensures { result ≡ are_earlier count support.now }
{
    support
        .steps
        .iter()
        .all(|n| 1 <= *n && *n as usize <= count)
}

/// Whether each support names earlier steps only.
pub(crate) fn are_earlier(count: usize, supports: &[Support]) -> bool
    ensures { result ≡ list_all (are_earlier count) supports.now }
{
    supports.iter().all(|support| is_earlier(count, support))
}

/// The other end of a link, where the number is one of its ends.
fn other_end(link: (u32, u32), at: u32) -> Option<u32>
    ensures { result ≡ other_end nat_eq (Some link) at }
{
    if at == link.0 {
        Some(link.1)
    } else if at == link.1 {
        Some(link.0)
    } else {
        None
    }
}

/// Whether steps lead from one number to another, where all earlier steps have these ends.
fn lead(ends: &[(u32, u32)], steps: &[u32], from: u32, to: u32) -> bool
    requires { All (λ n. (1 ≤ n) × (n ≤ length ends.now)) steps.now }
    ensures { result ≡ links_lead nat_eq ends.now (places_of steps.now) from to }
{
    let mut at = from;
    for n in steps {
        match other_end(ends[*n as usize - 1], at) {
            Some(next) => at = next,
            None => return false,
        }
    }
    at == to
}

/// Whether each support leads from its left to its right number.
pub(crate) fn all_lead(
    ends: &[(u32, u32)],
    left: &[u32],
    right: &[u32],
    supports: &[Support],
) -> bool
    requires left { All (λ s. s.slot < length left.now) supports.now }
    requires right { All (λ s. s.slot < length right.now) supports.now }
    requires earlier { All (λ s. All (λ n. (1 ≤ n) × (n ≤ length ends.now)) s.steps) supports.now }
    ensures { result ≡ list_all (λ s. links_lead nat_eq ends.now (places_of s.steps) (slice_index left.now s.slot) (slice_index right.now s.slot)) supports.now }
{
    supports.iter().all(|support| {
        let slot = support.slot as usize;
        lead(ends, &support.steps, left[slot], right[slot])
    })
}
