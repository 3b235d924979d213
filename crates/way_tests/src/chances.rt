//! Graphs by chance, and keys over them. The names are 0 for `rdf:type`, 1 and 2 for types, 3 to 5 for predicates, 6 to 17 for
//! entities, and 18 to 25 for literals, of which some are alike.

ghost use Rattle.std.specs.Prelude.{◌<◌, ◌^◌, IfOk, length};

use chase_laws::{Pattern, Slot};
use fixtures::{GraphTable, PatternTable, TableStop, patterns_of};
use std::alloc::Global;
use typed_graph::Graph;

/// Numbers that follow one another as by chance.
#[derive(Drop)]
struct Chance {
    state: u64,
}

impl Chance {
    /// The next number below `end`.
    fn below(&mut self, end: u32) -> u32
        requires { 0 < end }
        ensures { result < end }
    {
        self.state = self
            .state
            .wrapping_mul(6_364_136_223_846_793_005)
            .wrapping_add(1_442_695_040_888_963_407);
        (self.state / (1 << 32)) as u32 % end
    }
}

/// Entities of the first type with one value that lead to the same one; of the second with one folded value that lead to
/// something that leads to the constant; of the first with one folded value that lead to the constant; of the second to which
/// the same one leads, which has a value; and of the second with one value to which the same one of the first leads.
static KEYS: [PatternTable<'static>; 5] = [
    PatternTable {
        slots: &[Slot::Entity(1), Slot::Value, Slot::Entity(1)],
        edges: &[(0, 3, 1), (0, 4, 2)],
    },
    PatternTable {
        slots: &[Slot::Entity(2), Slot::Folded, Slot::Any(1), Slot::Fixed(7)],
        edges: &[(0, 3, 1), (0, 4, 2), (2, 4, 3)],
    },
    PatternTable {
        slots: &[Slot::Entity(1), Slot::Folded, Slot::Fixed(7)],
        edges: &[(0, 3, 1), (0, 4, 2)],
    },
    PatternTable {
        slots: &[Slot::Entity(2), Slot::Entity(1), Slot::Value],
        edges: &[(1, 4, 0), (1, 3, 2)],
    },
    PatternTable {
        slots: &[Slot::Entity(2), Slot::Value, Slot::Entity(1)],
        edges: &[(0, 3, 1), (2, 5, 0)],
    },
];

// Behind a function, so that no proof sees them.
fn keys_in_tables() -> &'static [PatternTable<'static>] {
    &KEYS
}

/// The keys.
pub fn keys(alloc: Global) -> Result<Vec<Pattern>, TableStop>
    ensures { IfOk result (λ v. length v.items < 2 ^ 32) }
{
    patterns_of(alloc, keys_in_tables())
}

/// The rows of a graph: each entity has one type or both, some values, and some edges to entities.
fn rows_by(alloc: Global, chance: &mut Chance) -> Result<Vec<[u32; 3]>, TableStop> {
    let mut rows = Vec::new(alloc);
    for entity in 6..18 {
        rows.push([entity, 0, 1 + chance.below(2)])?;
        rows.push([entity, 0, 1 + chance.below(2)])?;
    }
    for _ in 0..24 {
        rows.push([6 + chance.below(12), 3, 18 + chance.below(8)])?;
        rows.push([6 + chance.below(12), 4, 6 + chance.below(12)])?;
        rows.push([6 + chance.below(12), 5, 6 + chance.below(12)])?;
    }
    Ok(rows)
}

/// The graph of a number: each number has its own.
pub fn graph_of(alloc: Global, number: u64) -> Result<Graph, TableStop> {
    let mut chance = Chance { state: number };
    let rows = rows_by(alloc, &mut chance)?;
    let table = GraphTable {
        names: 26,
        rows: &rows,
        literals: &[18, 19, 20, 21, 22, 23, 24, 25],
        rdf_type: Some(0),
        alike: &[(19, 18), (21, 20)],
    };
    table.build(alloc)
}
