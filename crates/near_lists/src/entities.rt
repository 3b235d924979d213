//! The entities that walks by all keys reach from each name.

ghost use Rattle.std.specs.Prelude.{◌≡◌, ◌↔◌, ℕ, All, Contains, IfOk, OnOk, length};
ghost use Rattle.std.specs.List.Sorted.{IsStrictlyIncreasing};
ghost use Rattle.chase_laws.specs.Near.{IsNear};
ghost use Rattle.near_lists.specs.Legs.{AreLegs, AreTours};
ghost use Rattle.near_lists.specs.Neighbourhoods.{AreNearOfFirst};

use crate::legs::{Leg, legs_of};
use crate::rows::Rows;
use crate::walk::{Walk, push_near, sort_once};
use chase_laws::Pattern;
use gk_base::NoMemory;
use std::alloc::Global;
use std::marker::Model;
use typed_graph::Graph;

/// The legs of walks along one pattern. Contracts see the list.
#[derive(Drop)]
pub(crate) struct Tour {
    legs: Vec<Leg>,
}

impl Model for Tour {
    ghost use Rattle.std.specs.Prelude.{List};
    ghost use Rattle.near_lists.specs.declared.legs.Leg.{Leg};

    ghost Value = { List Leg };

    ghost view = { λ t. t.legs.items };
}

impl Tour {
    /// The legs of a pattern that lead on to entity variables.
    fn new(alloc: Global, pattern: &Pattern) -> Result<Tour, NoMemory>
        ensures { IfOk result (λ t. AreLegs pattern.now t) }
    {
        let legs = legs_of(alloc, pattern)?;
        Ok(Tour { legs })
    }

    /// The legs.
    fn legs(&self) -> &[Leg]
        ensures { result.now ≡ self.now }
    {
        &self.legs
    }
}

/// The tour of each pattern.
pub(crate) fn tours(alloc: Global, patterns: &[Pattern]) -> Result<Vec<Tour>, NoMemory>
    ensures { IfOk result (λ v. AreTours patterns.now v.items) }
{
    let mut tours = Vec::new(alloc);
    for pattern in patterns {
        tours.push(Tour::new(alloc, pattern)?)?;
    }
    Ok(tours)
}

/// Finds the entities near to a name, ascending.
fn find(
    graph: &Graph,
    patterns: &[Pattern],
    tours: &[Tour],
    e: u32,
    walk: &mut Walk,
    entities: &mut Vec<u32>,
) -> Result<(), NoMemory>
    requires tours { AreTours patterns.now tours.now }
    ensures ascending { OnOk result (IsStrictlyIncreasing entities.new.items) }
    ensures exact { OnOk result ((n : ℕ) → Contains entities.new.items n ↔ IsNear graph.now patterns.now e n) }
{
    entities.clear();
    for key in 0..patterns.len() {
        push_near(graph, &patterns[key], tours[key].legs(), e, walk, entities)?;
    }
    sort_once(entities);
    Ok(())
}

/// The entities near to each of the first so many names, ascending.
pub(crate) fn rows_along(
    alloc: Global,
    graph: &Graph,
    patterns: &[Pattern],
    tours: &[Tour],
    names: u32,
) -> Result<Rows, NoMemory>
    requires tours { AreTours patterns.now tours.now }
    ensures one_each { IfOk result (λ r. length r ≡ names) }
    ensures ascending { IfOk result (All IsStrictlyIncreasing) }
    ensures exact { IfOk result (AreNearOfFirst graph.now patterns.now) }
{
    let mut walk = Walk::new(alloc)?;
    let mut entities = Vec::new(alloc);
    let mut near = Rows::new(alloc)?;
    for e in 0..names {
        find(graph, patterns, tours, e, &mut walk, &mut entities)?;
        near.push(&entities)?;
    }
    Ok(near)
}
