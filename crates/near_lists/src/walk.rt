//! Walks along the legs of a pattern. A walk takes one leg after another, and makes a list for each: where the leg leads
//! to from the names at the slot where it begins. At slot 0 that is one name; elsewhere it is all that stands in the lists
//! of the earlier legs that end there.

ghost use Rattle.std.specs.Prelude.{[], ◌≡◌, ◌≤◌, ◌↔◌, ℕ, Contains, IsTrue, OnOk, Some, length, slice_get};
ghost use Rattle.std.specs.List.Sorted.{IsStrictlyIncreasing};
ghost use Rattle.chase_laws.specs.Shape.{is_entity};
ghost use Rattle.chase_laws.specs.Valuation.{FitsSlot};
ghost use Rattle.chase_laws.specs.Near.{IsInReach};
ghost use Rattle.near_lists.specs.declared.legs.Leg.{Leg};
ghost use Rattle.list_pool.specs.Pool.{list_at};
ghost use Rattle.near_lists.specs.Adding.{Adds};
ghost use Rattle.near_lists.specs.Legs.{AreLegs};
ghost use Rattle.near_lists.specs.Walks.{HasRowBy, Leads, Brings, IsFound};

use crate::legs::{Leg, is_entity};
use crate::rows::Rows;
use chase_laws::{Pattern, Slot};
use gk_base::NoMemory;
use std::alloc::Global;
use typed_graph::Graph;

/// Adds those of the names that fit a slot.
fn push_fitting(
    graph: &Graph,
    slot: Slot,
    names: &[u32],
    found: &mut Vec<u32>,
) -> Result<(), NoMemory>
    ensures { OnOk result (Adds found.old.items found.new.items (λ n. Contains names.now n × FitsSlot graph.now slot n)) }
{
    for n in names {
        if graph.fits_slot(slot, *n) {
            found.push(*n)?;
        }
    }
    Ok(())
}

/// Where the rows of a leg lead from a name.
fn next(graph: &Graph, leg: Leg, m: u32) -> &[u32]
    ensures { (n : ℕ) → Contains result.now n ↔ HasRowBy graph.now leg.forward m leg.pred n }
{
    if leg.forward {
        graph.outgoing(m, leg.pred)
    } else {
        graph.incoming(m, leg.pred)
    }
}

/// Adds what a leg leads to from a name.
fn push_next(graph: &Graph, leg: Leg, m: u32, found: &mut Vec<u32>) -> Result<(), NoMemory>
    ensures { OnOk result (Adds found.old.items found.new.items (Leads graph.now leg m)) }
{
    push_fitting(graph, leg.slot, next(graph, leg, m), found)?;
    Ok(())
}

/// Adds what a leg leads to from each of the names.
fn push_each(graph: &Graph, leg: Leg, names: &[u32], found: &mut Vec<u32>) -> Result<(), NoMemory>
    ensures { OnOk result (Adds found.old.items found.new.items
        (λ n. (m : ℕ) × Contains names.now m × Leads graph.now leg m n)) }
{
    for m in names {
        push_next(graph, leg, *m, found)?;
    }
    Ok(())
}

/// Adds what a leg leads to from the list of an earlier leg, if that one ends where it begins.
fn push_behind(
    graph: &Graph,
    leg: Leg,
    before: Leg,
    names: &[u32],
    found: &mut Vec<u32>,
) -> Result<(), NoMemory>
    ensures { OnOk result (Adds found.old.items found.new.items
        (λ n. (before.far ≡ leg.near) × ((m : ℕ) × Contains names.now m × Leads graph.now leg m n))) }
{
    if before.far == leg.near {
        push_each(graph, leg, names, found)?;
    }
    Ok(())
}

/// Adds what a leg leads to from a name, if it begins at slot 0.
fn push_first(graph: &Graph, leg: Leg, start: u32, found: &mut Vec<u32>) -> Result<(), NoMemory>
    ensures { OnOk result (Adds found.old.items found.new.items (λ n. (leg.near ≡ 0) × Leads graph.now leg start n)) }
{
    if leg.near == 0 {
        push_next(graph, leg, start, found)?;
    }
    Ok(())
}

/// Adds what a leg leads to from all that stands where it begins.
fn push_leg(
    graph: &Graph,
    legs: &[Leg],
    leg: Leg,
    start: u32,
    lists: &Rows,
    found: &mut Vec<u32>,
) -> Result<(), NoMemory>
    requires { length lists.now ≤ length legs.now }
    ensures { OnOk result (Adds found.old.items found.new.items
        (λ n. (m : ℕ) × IsFound legs.now lists.now start leg.near m × Leads graph.now leg m n)) }
{
    push_first(graph, leg, start, found)?;
    for place in 0..lists.len() {
        push_behind(graph, leg, legs[place], lists.of(place), found)?;
    }
    Ok(())
}

/// The numbers ascending, each once.
pub fn sort_once(numbers: &mut Vec<u32>)
    ensures ascending { IsStrictlyIncreasing numbers.new.items }
    ensures same { (n : ℕ) → Contains numbers.new.items n ↔ Contains numbers.old.items n }
{
    numbers.sort_unstable();
    numbers.dedup();
}

/// What a walk keeps: the list of each leg that it has taken, and the one that it is making. Each walk uses the room of
/// the one before again.
#[derive(Drop)]
pub struct Walk {
    lists: Rows,
    found: Vec<u32>,
}

impl Walk {
    /// A walk that has taken no leg.
    pub fn new(alloc: Global) -> Result<Walk, NoMemory> {
        Ok(Walk {
            lists: Rows::new(alloc)?,
            found: Vec::new(alloc),
        })
    }
}

/// Makes the list of what a leg leads to.
fn take_leg(
    graph: &Graph,
    legs: &[Leg],
    leg: Leg,
    start: u32,
    walk: &mut Walk,
) -> Result<(), NoMemory>
    requires { length walk.old.lists ≤ length legs.now }
    ensures lists { walk.new.lists ≡ walk.old.lists }
    ensures exact { OnOk result ((n : ℕ) → Contains walk.new.found.items n ↔
        ((m : ℕ) × IsFound legs.now walk.old.lists start leg.near m × Leads graph.now leg m n)) }
{
    walk.found.clear();
    push_leg(graph, legs, leg, start, &walk.lists, &mut walk.found)?;
    sort_once(&mut walk.found);
    Ok(())
}

/// Takes one leg after another.
fn take_legs(graph: &Graph, legs: &[Leg], start: u32, walk: &mut Walk) -> Result<(), NoMemory>
    ensures one_each { OnOk result (length walk.new.lists ≡ length legs.now) }
    ensures exact { OnOk result ((s n : ℕ) →
        IsFound legs.now walk.new.lists start s n ↔ Brings graph.now legs.now start (length legs.now) s n) }
{
    walk.lists.clear();
    for place in 0..legs.len() {
        take_leg(graph, legs, legs[place], start, walk)?;
        walk.lists.push(&walk.found)?;
    }
    Ok(())
}

/// Adds a list, if a slot is an entity variable.
fn push_list(slot: Slot, list: &[u32], entities: &mut Vec<u32>) -> Result<(), NoMemory>
    ensures { OnOk result (Adds entities.old.items entities.new.items
        (λ n. IsTrue (is_entity (Some slot)) × Contains list.now n)) }
{
    if is_entity(slot) {
        entities.extend_from_slice(list)?;
    }
    Ok(())
}

/// Adds the lists of the legs that lead to entity variables.
fn push_entities(legs: &[Leg], lists: &Rows, entities: &mut Vec<u32>) -> Result<(), NoMemory>
    requires { length lists.now ≤ length legs.now }
    ensures { OnOk result (Adds entities.old.items entities.new.items
        (λ n. (j : ℕ) × ((leg : Leg) × (slice_get legs.now j ≡ Some leg) × IsTrue (is_entity (Some leg.slot)) × Contains (list_at lists.now j) n))) }
{
    for place in 0..lists.len() {
        push_list(legs[place].slot, lists.of(place), entities)?;
    }
    Ok(())
}

/// Adds the entities that a key can look at from a name: none, if the key does not designate a type of it.
pub fn push_near(
    graph: &Graph,
    pattern: &Pattern,
    legs: &[Leg],
    start: u32,
    walk: &mut Walk,
    entities: &mut Vec<u32>,
) -> Result<(), NoMemory>
    requires { AreLegs pattern.now legs.now }
    ensures { OnOk result (Adds entities.old.items entities.new.items (IsInReach graph.now pattern.now start)) }
{
    if graph.fits_slot(Slot::Entity(pattern.designated_type()), start) {
        entities.push(start)?;
        take_legs(graph, legs, start, walk)?;
        push_entities(legs, &walk.lists, entities)?;
    }
    Ok(())
}
