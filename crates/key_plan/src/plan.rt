//! A plan: the slots of a pattern in the order of a search, and for each the edges that lead back.

ghost use Rattle.std.specs.Prelude.{◌≡◌, ◌<◌, ◌≤◌, ℕ, IfOk, Some, length, slice_get, slice_index};
ghost use Rattle.key_plan.specs.Route.{IsPlanOf, IsBlock};

use crate::distance::{distances, greatest};
use crate::order::{places, slot_order};
use crate::renumber::{blocks, moved_edges, moved_slots};
use chase_laws::{Edge, Pattern, Slot};
use gk_base::NoMemory;
use std::alloc::Global;
use std::marker::Model;

/// In which order a search goes through the slots of a pattern: slot 0, and then always, of those that an edge joins with one
/// before, a constant before a value variable, that before an entity variable, that before a wildcard, and else the one with the
/// least number. A plan holds the pattern with its slots numbered by their places in that order; contracts see it as that
/// pattern, the order, the places and the radius.
#[derive(Drop)]
pub struct Plan {
    slots: Vec<Slot>,
    edges: Vec<Edge>,
    blocks: Vec<Vec<Edge>>,
    order: Vec<u8>,
    place: Vec<u8>,
    radius: u32,
}

impl Model for Plan {
    ghost use Rattle.key_plan.specs.Route.{Route};

    ghost Value = { Route };

    ghost use Rattle.key_plan.specs.Inner.{route_of, IsInner};

    ghost view = { route_of };

    ghost invariant = { IsInner };
}

impl Plan {
    /// The plan of a pattern.
    pub fn new(alloc: Global, pattern: &Pattern) -> Result<Plan, NoMemory>
        ensures { IfOk result (λ plan. IsPlanOf pattern.now plan) }
    {
        let distances = distances(alloc, pattern)?;
        let order = slot_order(alloc, pattern)?;
        let place = places(alloc, &order)?;
        let slots = moved_slots(alloc, pattern.slots(), &order)?;
        let edges = moved_edges(alloc, pattern.edges(), &place)?;
        let blocks = blocks(alloc, &edges, slots.len())?;
        let radius = greatest(&distances);
        Ok(Plan {
            slots,
            edges,
            blocks,
            order,
            place,
            radius,
        })
    }

    /// The greatest undirected distance of a slot from slot 0: how many rows away from an entity the key can look.
    pub fn radius(&self) -> u32
        ensures { result ≡ self.now.radius }
    {
        self.radius
    }

    /// The slots in the order of a search.
    pub fn order(&self) -> &[u8]
        ensures { result.now ≡ self.now.order }
    {
        &self.order
    }

    /// How many slots there are: at most 16.
    pub fn len(&self) -> usize
        ensures length { result ≡ length self.now.shape.slots }
        ensures few { result ≤ 16 }
    {
        self.slots.len()
    }

    /// The place of a slot in the order.
    pub fn place(&self, slot: usize) -> usize
        requires { slot < length self.now.place }
        ensures { result ≡ slice_index self.now.place slot }
    {
        self.place[slot] as usize
    }

    /// The slot at a place of the order.
    pub fn slot(&self, place: usize) -> Slot
        requires { place < length self.now.shape.slots }
        ensures { slice_get self.now.shape.slots place ≡ Some result }
    {
        self.slots[place]
    }

    /// The edges between this place and itself or a place before it. Their ends are places.
    pub fn block(&self, place: usize) -> &[Edge]
        requires { place < length self.now.shape.slots }
        ensures { IsBlock self.now.shape place result.now }
    {
        &self.blocks[place]
    }
}
