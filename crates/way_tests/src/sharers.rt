//! A graph of any size, in which few values are shared.

ghost use Rattle.std.specs.Prelude.{◌<◌, ◌≤◌};

use chase_laws::{Pattern, Slot};
use fixtures::{GraphTable, PatternTable, TableStop, patterns_of};
use std::alloc::Global;
use typed_graph::Graph;

/// How many values there are.
const VALUES: u32 = 8;

/// Entities of type 1 with one value, under 2, that lead to the same one, under 3.
static VALUE_AND_NEXT: [PatternTable<'static>; 1] = [PatternTable {
    slots: &[Slot::Entity(1), Slot::Value, Slot::Entity(1)],
    edges: &[(0, 2, 1), (0, 3, 2)],
}];

// Behind a function, so that no proof sees it.
fn value_and_next() -> &'static [PatternTable<'static>] {
    &VALUE_AND_NEXT
}

/// The key of the graph.
pub fn key(alloc: Global) -> Result<Vec<Pattern>, TableStop> {
    patterns_of(alloc, value_and_next())
}

/// So many entities, from 12 on, all of type 1. Each has the value of that eight places before it, the first eight one each, and
/// leads to the one behind it, the last to the first. The values are 4 to 11.
pub fn sharers(alloc: Global, entities: u32) -> Result<Graph, TableStop>
    requires some { 0 < entities }
    requires few { entities ≤ 20000 }
{
    let mut rows = Vec::new(alloc);
    for place in 0..entities {
        let entity = 12 + place;
        rows.push([entity, 0, 1])?;
        rows.push([entity, 2, 4 + place % VALUES])?;
        rows.push([entity, 3, 12 + (place + 1) % entities])?;
    }
    let table = GraphTable {
        names: 12 + entities,
        rows: &rows,
        literals: &[4, 5, 6, 7, 8, 9, 10, 11],
        rdf_type: Some(0),
        alike: &[],
    };
    table.build(alloc)
}
