//! The parts of a valuation as a row: its values, its name and its images.

ghost use Rattle.std.specs.Prelude.{◌≡◌, ◌≤◌, ◌+◌, ◌++◌, [], ◌∷◌, ℕ, OnOk, Some, length};
ghost use Rattle.chase_laws.specs.Graph.{NumberedGraph};
ghost use Rattle.chase_laws.specs.Valuation.{FitsSlot, IsValuation};
ghost use Rattle.chase_laws.specs.Signature.{value_at, image_at, parts_of};
ghost use Rattle.key_valuations.specs.Counts.{HasCounts};

use crate::budget::{Budget, RowStop};
use crate::marks::slot_at;
use chase_laws::{Pattern, Places, Slot};
use gk_base::NoMemory;
use std::alloc::Global;
use typed_graph::Graph;
use valuation_groups::ValuationRows;

/// Values and images of one valuation, which are made again for each row, and the count of the rows.
#[derive(Drop)]
pub(crate) struct Lists<'a> {
    values: Vec<u32>,
    images: Vec<u32>,
    budget: &'a Budget,
}

impl<'a> Lists<'a> {
    /// Empty lists.
    pub(crate) fn new(alloc: Global, budget: &'a Budget) -> Lists<'a> {
        Lists {
            values: Vec::new(alloc),
            images: Vec::new(alloc),
            budget,
        }
    }
}

/// How many values and how many images each valuation of a pattern has.
#[derive(Clone, Copy)]
pub(crate) struct Counts {
    pub values: usize,
    pub images: usize,
}

/// How many values and images a slot gives.
fn counts_at(slot: Slot, s: usize) -> Counts
    ensures values { (G : NumberedGraph) (n : ℕ) → length (value_at G (Some slot) n) ≡ result.values }
    ensures images { (n : ℕ) → length (image_at s (Some slot) n) ≡ result.images }
    ensures few { result.values + result.images ≤ 1 }
{
    match slot {
        Slot::Value | Slot::Folded => Counts {
            values: 1,
            images: 0,
        },
        Slot::Entity(_) if s != 0 => Counts {
            values: 0,
            images: 1,
        },
        Slot::Entity(_) | Slot::Any(_) | Slot::Fixed(_) => Counts {
            values: 0,
            images: 0,
        },
    }
}

/// How many values and images each valuation of a pattern has: at most 16 together.
pub(crate) fn counts_of(pattern: &Pattern) -> Counts
    ensures exact { HasCounts pattern.now result.values result.images }
    ensures few { result.values + result.images ≤ 16 }
{
    let count = pattern.slots().len();
    let mut values = 0;
    let mut images = 0;
    for s in 0..count {
        let here = counts_at(slot_at(pattern, s), s);
        values += here.values;
        images += here.images;
    }
    Counts { values, images }
}

/// Adds the value and the image of a name at slot `s`, as far as there are.
fn add_part(
    graph: &Graph,
    slot: Slot,
    s: usize,
    n: u32,
    lists: &mut Lists<'_>,
) -> Result<(), NoMemory>
    requires { FitsSlot graph.now slot n }
    ensures values { OnOk result (lists.new.values.items ≡ lists.old.values.items ++ value_at graph.now (Some slot) n) }
    ensures images { OnOk result (lists.new.images.items ≡ lists.old.images.items ++ image_at s (Some slot) n) }
{
    match slot {
        Slot::Value => lists.values.push(n)?,
        Slot::Folded => {
            // For the proof alone: a literal is a name.
            let _ = graph.is_literal(n);
            lists.values.push(graph.alike(n))?;
        }
        Slot::Entity(_) if s != 0 => lists.images.push(n)?,
        Slot::Entity(_) | Slot::Any(_) | Slot::Fixed(_) => {}
    }
    Ok(())
}

/// Adds a row of the parts of a valuation, and counts it. What stood in the lists before is dropped.
pub(crate) fn add_row(
    graph: &Graph,
    pattern: &Pattern,
    valuation: &Places,
    lists: &mut Lists<'_>,
    rows: &mut ValuationRows,
) -> Result<(), RowStop>
    requires valuation { IsValuation graph.now pattern.now valuation.now }
    requires counts { HasCounts pattern.now rows.old.value_count rows.old.image_count }
    ensures { OnOk result (rows.new ≡ record rows.old { parts = rows.old.parts ++ parts_of graph.now rows.old.key pattern.now valuation.now ∷ [] }) }
{
    let count = pattern.slots().len();
    lists.values.clear();
    lists.images.clear();
    for s in 0..count {
        add_part(graph, slot_at(pattern, s), s, valuation.get(s), lists)?;
    }
    rows.push(&lists.values, valuation.get(0), &lists.images)?;
    lists.budget.count_batch(rows)?;
    Ok(())
}
