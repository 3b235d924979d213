//! A pattern's slots and edges under other numbers, and the edges that a place adds.

ghost use Rattle.std.specs.Prelude.{◌≡◌, ◌<◌, ℕ, List, All, IfOk, map, length, slice_get, slice_index, slice_index_or};
ghost use Rattle.chase_laws.specs.declared.pattern.Edge.{Edge};
ghost use Rattle.key_plan.specs.Making.{is_proper, is_loop, block_of};
ghost use Rattle.key_plan.specs.Route.{moved};

use chase_laws::{Edge, Slot};
use gk_base::NoMemory;
use std::alloc::Global;

/// An edge between the places of its slots.
fn moved(edge: Edge, places: &[u8]) -> Edge
    requires from { edge.from < length places.now }
    requires to { edge.to < length places.now }
    ensures { result ≡ moved places.now edge }
{
    Edge {
        from: places[edge.from as usize],
        pred: edge.pred,
        to: places[edge.to as usize],
    }
}

/// The edges between the places of their slots.
pub fn moved_edges(alloc: Global, edges: &[Edge], places: &[u8]) -> Result<Vec<Edge>, NoMemory>
    requires { All (λ e. (e.from < length places.now) × (e.to < length places.now)) edges.now }
    ensures { IfOk result (λ v. v.items ≡ map (moved places.now) edges.now) }
{
    let mut list = Vec::with_capacity(alloc, edges.len())?;
    for edge in edges {
        list.push(moved(*edge, places))?;
    }
    Ok(list)
}

/// The slots in an order.
pub fn moved_slots(alloc: Global, slots: &[Slot], order: &[u8]) -> Result<Vec<Slot>, NoMemory>
    requires { All (λ s. s < length slots.now) order.now }
    ensures long { IfOk result (λ v. length v.items ≡ length order.now) }
    ensures each { IfOk result (λ v. (k : ℕ) → k < length order.now →
        slice_get v.items k ≡ slice_get slots.now (slice_index order.now k)) }
{
    let mut list = Vec::with_capacity(alloc, order.len())?;
    for slot in order {
        list.push(slots[*slot as usize])?;
    }
    Ok(list)
}

/// Whether an edge leads from this place to an earlier one, or the other way round.
fn is_proper(edge: Edge, place: usize) -> bool
    ensures { result ≡ is_proper place edge }
{
    let from = edge.from as usize;
    let to = edge.to as usize;
    (from == place && to < place) || (from < place && to == place)
}

/// Whether an edge leads from this place to itself.
fn is_loop(edge: Edge, place: usize) -> bool
    ensures { result ≡ is_loop place edge }
{
    edge.from as usize == place && edge.to as usize == place
}

/// The edges that a place adds: those to and from earlier places, and then the loops.
fn block(alloc: Global, edges: &[Edge], place: usize) -> Result<Vec<Edge>, NoMemory>
    ensures { IfOk result (λ v. v.items ≡ block_of edges.now place) }
{
    let mut block = Vec::new(alloc);
    for edge in edges {
        if is_proper(*edge, place) {
            block.push(*edge)?;
        }
    }
    for edge in edges {
        if is_loop(*edge, place) {
            block.push(*edge)?;
        }
    }
    Ok(block)
}

/// The edges that each place adds.
pub fn blocks(alloc: Global, edges: &[Edge], count: usize) -> Result<Vec<Vec<Edge>>, NoMemory>
    ensures long { IfOk result (λ v. length v.items ≡ count) }
    ensures each { IfOk result (λ v. (s : ℕ) → s < count → (d : _) → (slice_index_or v.items s d).items ≡ block_of edges.now s) }
{
    let mut blocks = Vec::with_capacity(alloc, count)?;
    for place in 0..count {
        blocks.push(block(alloc, edges, place)?)?;
    }
    Ok(blocks)
}
