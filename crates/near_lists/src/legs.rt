//! The legs of walks along a pattern. A walk begins at slot 0, and each leg leads one edge further away from it; only
//! legs that lead on to an entity variable are kept.

ghost use Rattle.std.specs.Prelude.{[], ◌≡◌, ◌≤◌, ◌<◌, ◌+◌, ◌↔◌, ℕ, All, Contains, IfOk, IsTrue, OnOk, Some, length, slice_get, slice_index};
ghost use Rattle.chase_laws.specs.Shape.{is_entity};
ghost use Rattle.key_plan.specs.Distance.{AreDistances};
ghost use Rattle.near_lists.specs.declared.legs.Leg.{Leg};
ghost use Rattle.near_lists.specs.Adding.{Adds};
ghost use Rattle.near_lists.specs.Legs.{edge_along, IsAtLevel, IsLegAt, IsLegOf, RiseTo, AreAllLegs, AreOrdered, LeadsOn, AreUseful, AreLegs};

use chase_laws::{Edge, Pattern, Slot};
use gk_base::NoMemory;
use key_plan::distances;
use std::alloc::Global;

/// A step of a walk along an edge of a pattern, from a slot to one that is further from slot 0.
#[derive(Clone, Copy)]
pub struct Leg {
    /// The slot where it begins.
    pub near: u8,
    pub pred: u32,
    /// The slot where it ends.
    pub far: u8,
    /// What that slot is.
    pub slot: Slot,
    /// Whether the edge leads from the nearer slot to the further one.
    pub forward: bool,
}

/// The leg along an edge, forward or backward.
fn leg_along(slots: &[Slot], edge: Edge, forward: bool) -> Leg
    requires from { edge.from < length slots.now }
    requires to { edge.to < length slots.now }
    ensures along { edge_along result ≡ edge }
    ensures forward { result.forward ≡ forward }
    ensures slot { slice_get slots.now result.far ≡ Some result.slot }
{
    if forward {
        Leg {
            near: edge.from,
            pred: edge.pred,
            far: edge.to,
            slot: slots[edge.to as usize],
            forward: true,
        }
    } else {
        Leg {
            near: edge.to,
            pred: edge.pred,
            far: edge.from,
            slot: slots[edge.from as usize],
            forward: false,
        }
    }
}

/// Adds a leg, if it leads from a slot at a distance to one at the next.
fn push_leg(distances: &[u8], level: u8, leg: Leg, legs: &mut Vec<Leg>) -> Result<(), NoMemory>
    requires near { leg.near < length distances.now }
    requires far { leg.far < length distances.now }
    requires level { level < 16 }
    requires rise { RiseTo distances.now level legs.old.items }
    ensures added { OnOk result (Adds legs.old.items legs.new.items (λ l. (leg ≡ l) × IsAtLevel distances.now level leg)) }
    ensures rise { OnOk result (RiseTo distances.now level legs.new.items) }
{
    if distances[leg.near as usize] == level && distances[leg.far as usize] == level + 1 {
        legs.push(leg)?;
    }
    Ok(())
}

/// Adds the leg along an edge that leads from a slot at a distance to one at the next, if there is one.
fn push_along(
    slots: &[Slot],
    distances: &[u8],
    level: u8,
    edge: Edge,
    legs: &mut Vec<Leg>,
) -> Result<(), NoMemory>
    requires from { edge.from < length slots.now }
    requires to { edge.to < length slots.now }
    requires distances { length distances.now ≡ length slots.now }
    requires level { level < 16 }
    requires rise { RiseTo distances.now level legs.old.items }
    ensures added { OnOk result (Adds legs.old.items legs.new.items (IsLegAt slots.now distances.now level edge)) }
    ensures rise { OnOk result (RiseTo distances.now level legs.new.items) }
{
    let forth = leg_along(slots, edge, true);
    push_leg(distances, level, forth, legs)?;
    let back = leg_along(slots, edge, false);
    push_leg(distances, level, back, legs)?;
    Ok(())
}

/// Adds the legs from slots at a distance.
fn push_level(
    pattern: &Pattern,
    distances: &[u8],
    level: u8,
    legs: &mut Vec<Leg>,
) -> Result<(), NoMemory>
    requires distances { length distances.now ≡ length pattern.now.slots }
    requires level { level < 16 }
    requires rise { RiseTo distances.now level legs.old.items }
    ensures added { OnOk result (Adds legs.old.items legs.new.items (IsLegOf pattern.now distances.now level)) }
    ensures rise { OnOk result (RiseTo distances.now level legs.new.items) }
{
    for edge in pattern.edges() {
        push_along(pattern.slots(), distances, level, *edge, legs)?;
    }
    Ok(())
}

/// All legs of a pattern, those from nearer slots first.
fn all_legs(alloc: Global, pattern: &Pattern) -> Result<Vec<Leg>, NoMemory>
    ensures { IfOk result (λ v. AreAllLegs pattern.now v.items) }
{
    let distances = distances(alloc, pattern)?;
    let mut legs = Vec::new(alloc);
    for level in 0..pattern.slots().len() as u8 {
        push_level(pattern, &distances, level, &mut legs)?;
    }
    Ok(legs)
}

/// Whether a slot is an entity variable.
pub fn is_entity(slot: Slot) -> bool
    ensures { result ≡ is_entity (Some slot) }
{
    match slot {
        Slot::Entity(_) => true,
        Slot::Any(_) | Slot::Value | Slot::Folded | Slot::Fixed(_) => false,
    }
}

/// Whether a leg ends at an entity variable, or where one of the legs begins.
fn leads_on(legs: &[Leg], leg: Leg) -> bool
    ensures { IsTrue result ↔ LeadsOn legs.now leg }
{
    is_entity(leg.slot) || legs.iter().any(|other| other.near == leg.far)
}

/// Those of the legs that lead on to entity variables. The legs that a leg leads on to stand behind it, so the last one
/// is looked at first.
fn useful(alloc: Global, all: &[Leg]) -> Result<Vec<Leg>, NoMemory>
    requires { AreOrdered all.now }
    ensures { IfOk result (λ v. AreUseful all.now v.items) }
{
    let mut legs = Vec::new(alloc);
    let mut place = all.len();
    while place > 0 {
        place -= 1;
        let leg = all[place];
        if leads_on(&legs, leg) {
            legs.insert(0, leg)?;
        }
    }
    Ok(legs)
}

/// The legs of a pattern that lead on to entity variables, those from nearer slots first.
pub fn legs_of(alloc: Global, pattern: &Pattern) -> Result<Vec<Leg>, NoMemory>
    ensures { IfOk result (λ v. AreLegs pattern.now v.items) }
{
    let all = all_legs(alloc, pattern)?;
    let legs = useful(alloc, &all)?;
    Ok(legs)
}
