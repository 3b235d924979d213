//! Which pairs are candidates.

use crate::FIT;
use chase_laws::Slot;
use fixtures::worked_graphs::folded_values;
use fixtures::worked_patterns::{FOLDED, NAME_AND_CODE, NAME_AND_NEXT, VALUE};
use fixtures::{GraphTable, PatternTable, patterns_of};
use pair_seed::{SeedStop, TooManyPairs, seed};
use std::alloc::Global;
use std::process::Abort;

/// Entities of type 12 with one value under 4.
const VALUE_OF_TWELVE: PatternTable<'static> = PatternTable {
    slots: &[Slot::Entity(12), Slot::Value],
    edges: &[(0, 4, 1)],
};

/// Entities of type 2 with two values under 4.
const TWO_VALUES: PatternTable<'static> = PatternTable {
    slots: &[Slot::Entity(2), Slot::Value, Slot::Value],
    edges: &[(0, 4, 1), (0, 4, 2)],
};

/// Entities of type 2 with a value and a folded value under 4.
const VALUE_AND_FOLDED: PatternTable<'static> = PatternTable {
    slots: &[Slot::Entity(2), Slot::Value, Slot::Folded],
    edges: &[(0, 4, 1), (0, 4, 2)],
};

/// Entities of type 2 with one value under 4, and one folded value under 6.
const NAME_AND_FOLDED_CODE: PatternTable<'static> = PatternTable {
    slots: &[Slot::Entity(2), Slot::Value, Slot::Folded],
    edges: &[(0, 4, 1), (0, 6, 2)],
};

/// Entities of type 2 that lead to the same one under 4.
const LEADS_TO_ENTITY: PatternTable<'static> = PatternTable {
    slots: &[Slot::Entity(2), Slot::Entity(2)],
    edges: &[(0, 4, 1)],
};

/// Entities of type 2 that lead to one of type 12 under 4.
const LEADS_TO_ANY: PatternTable<'static> = PatternTable {
    slots: &[Slot::Entity(2), Slot::Any(12)],
    edges: &[(0, 4, 1)],
};

/// Entities of type 2 that have the literal 5 under 4.
const HAS_FIVE: PatternTable<'static> = PatternTable {
    slots: &[Slot::Entity(2), Slot::Fixed(5)],
    edges: &[(0, 4, 1)],
};

/// Entities of type 2 whose next one, under 11, has one value under 4.
const VALUE_OF_NEXT: PatternTable<'static> = PatternTable {
    slots: &[Slot::Entity(2), Slot::Entity(2), Slot::Value],
    edges: &[(0, 11, 1), (1, 4, 2)],
};

/// Rows over the names 0 to 15, keys, a limit, and the pairs or what `found` is. `ALIKE` leaves the rows to a graph.
struct Case {
    rows: &'static [[u32; 3]],
    keys: &'static [PatternTable<'static>],
    limit: u32,
    wanted: Result<&'static [(u32, u32)], u64>,
}

/// A graph of these rows over the names of the cases. 1 is `rdf:type`, 2 and 12 are types, 4, 6 and 11 predicates, 0, 3, 8, 9 and 15
/// entities, and 5, 7, 10, 13 and 14 literals, of which 13 is alike to 5.
fn world(rows: &[[u32; 3]]) -> GraphTable<'_> {
    GraphTable {
        names: 16,
        rows,
        literals: &[5, 7, 10, 13, 14],
        rdf_type: Some(1),
        alike: &[(13, 5)],
    }
}

/// The candidate pairs in a graph by the keys and the limit of a case, or why there are none.
fn seeded(
    rt: &impl Abort,
    alloc: Global,
    table: &GraphTable<'_>,
    case: &Case,
) -> Result<Vec<(u32, u32)>, SeedStop> {
    let graph = table.build(alloc).expect(rt, FIT);
    let keys = patterns_of(alloc, case.keys).expect(rt, FIT);
    seed(alloc, &graph, &keys, u64::from(case.limit))
}

/// Whether the candidate pairs in a graph are those that a case names, or are too many as it says.
fn holds(rt: &impl Abort, alloc: Global, table: &GraphTable<'_>, case: &Case) -> bool {
    match (seeded(rt, alloc, table, case), case.wanted) {
        (Ok(pairs), Ok(wanted)) => pairs.as_slice() == wanted,
        (Err(stop), Err(found)) => stop == SeedStop::Fault(TooManyPairs { found }),
        (Ok(_), Err(_)) | (Err(_), Ok(_)) => false,
    }
}

/// What a key asks for, and then order, repeats and limits.
static CASES: [Case; 30] = [
    Case {
        rows: &[],
        keys: &[VALUE],
        limit: 9,
        wanted: Ok(&[]),
    },
    // a shared literal, and one alone
    Case {
        rows: &[[0, 1, 2], [3, 1, 2], [0, 4, 5], [3, 4, 5]],
        keys: &[VALUE],
        limit: 9,
        wanted: Ok(&[(0, 3)]),
    },
    Case {
        rows: &[[0, 1, 2], [0, 4, 5]],
        keys: &[VALUE],
        limit: 9,
        wanted: Ok(&[]),
    },
    // types that overlap
    Case {
        rows: &[
            [0, 1, 2],
            [3, 1, 2],
            [3, 1, 12],
            [8, 1, 12],
            [0, 4, 5],
            [3, 4, 5],
            [8, 4, 5],
        ],
        keys: &[VALUE, VALUE_OF_TWELVE],
        limit: 9,
        wanted: Ok(&[(0, 3), (3, 8)]),
    },
    // two literals of one predicate shared
    Case {
        rows: &[
            [0, 1, 2],
            [3, 1, 2],
            [0, 4, 5],
            [0, 4, 7],
            [3, 4, 5],
            [3, 4, 7],
        ],
        keys: &[VALUE],
        limit: 1,
        wanted: Ok(&[(0, 3)]),
    },
    // literals that are alike, folded and not, the same one, and two that are not alike
    Case {
        rows: &[[0, 1, 2], [3, 1, 2], [0, 4, 5], [3, 4, 13]],
        keys: &[FOLDED],
        limit: 9,
        wanted: Ok(&[(0, 3)]),
    },
    Case {
        rows: &[[0, 1, 2], [3, 1, 2], [0, 4, 5], [3, 4, 13]],
        keys: &[VALUE],
        limit: 9,
        wanted: Ok(&[]),
    },
    Case {
        rows: &[[0, 1, 2], [3, 1, 2], [0, 4, 13], [3, 4, 13]],
        keys: &[FOLDED],
        limit: 9,
        wanted: Ok(&[(0, 3)]),
    },
    Case {
        rows: &[[0, 1, 2], [3, 1, 2], [0, 4, 5], [3, 4, 7]],
        keys: &[FOLDED],
        limit: 9,
        wanted: Ok(&[]),
    },
    // two value edges of one predicate
    Case {
        rows: &[[0, 1, 2], [3, 1, 2], [0, 4, 5], [3, 4, 5]],
        keys: &[TWO_VALUES],
        limit: 9,
        wanted: Ok(&[(0, 3)]),
    },
    Case {
        rows: &[[0, 1, 2], [3, 1, 2], [0, 4, 5], [3, 4, 13]],
        keys: &[VALUE_AND_FOLDED],
        limit: 9,
        wanted: Ok(&[]),
    },
    // no value edge at slot 0: all pairs of the type
    Case {
        rows: &[[0, 1, 2], [3, 1, 2], [8, 1, 2], [9, 1, 12]],
        keys: &[LEADS_TO_ENTITY],
        limit: 9,
        wanted: Ok(&[(0, 3), (0, 8), (3, 8)]),
    },
    Case {
        rows: &[[0, 1, 2], [3, 1, 2]],
        keys: &[LEADS_TO_ANY],
        limit: 9,
        wanted: Ok(&[(0, 3)]),
    },
    Case {
        rows: &[[0, 1, 2], [3, 1, 2]],
        keys: &[HAS_FIVE],
        limit: 9,
        wanted: Ok(&[(0, 3)]),
    },
    Case {
        rows: &[[8, 1, 2], [3, 1, 2]],
        keys: &[VALUE_OF_NEXT],
        limit: 9,
        wanted: Ok(&[(3, 8)]),
    },
    // several keys that give the same pair
    Case {
        rows: &[[0, 1, 2], [3, 1, 2], [0, 4, 5], [3, 4, 5]],
        keys: &[VALUE, FOLDED, VALUE_AND_FOLDED],
        limit: 1,
        wanted: Ok(&[(0, 3)]),
    },
    // two values, of which the one or the other is shared by many
    Case {
        rows: &[
            [0, 1, 2],
            [3, 1, 2],
            [8, 1, 2],
            [0, 4, 5],
            [3, 4, 5],
            [8, 4, 5],
            [0, 6, 7],
            [8, 6, 7],
        ],
        keys: &[NAME_AND_CODE],
        limit: 9,
        wanted: Ok(&[(0, 8)]),
    },
    Case {
        rows: &[
            [0, 1, 2],
            [3, 1, 2],
            [8, 1, 2],
            [0, 6, 7],
            [3, 6, 7],
            [8, 6, 7],
            [3, 4, 5],
            [8, 4, 5],
        ],
        keys: &[NAME_AND_CODE],
        limit: 9,
        wanted: Ok(&[(3, 8)]),
    },
    Case {
        rows: &[
            [0, 1, 2],
            [3, 1, 2],
            [0, 4, 5],
            [3, 4, 5],
            [0, 6, 5],
            [3, 6, 13],
        ],
        keys: &[NAME_AND_FOLDED_CODE],
        limit: 9,
        wanted: Ok(&[(0, 3)]),
    },
    // a shared name that is no literal, and a literal under another predicate
    Case {
        rows: &[[0, 1, 2], [3, 1, 2], [0, 4, 9], [3, 4, 9]],
        keys: &[VALUE],
        limit: 9,
        wanted: Ok(&[]),
    },
    Case {
        rows: &[[0, 1, 2], [3, 1, 2], [0, 4, 5], [3, 6, 5]],
        keys: &[VALUE],
        limit: 9,
        wanted: Ok(&[]),
    },
    Case {
        rows: &[
            [8, 1, 2],
            [9, 1, 2],
            [15, 1, 2],
            [0, 1, 2],
            [9, 4, 7],
            [8, 4, 7],
            [15, 4, 5],
            [0, 4, 5],
        ],
        keys: &[VALUE],
        limit: 9,
        wanted: Ok(&[(0, 15), (8, 9)]),
    },
    Case {
        rows: &[
            [0, 1, 2],
            [3, 1, 2],
            [8, 1, 2],
            [0, 4, 5],
            [3, 4, 5],
            [8, 4, 5],
        ],
        keys: &[],
        limit: 9,
        wanted: Ok(&[]),
    },
    // limits at, below and above the number
    Case {
        rows: &[
            [0, 1, 2],
            [3, 1, 2],
            [8, 1, 2],
            [0, 4, 5],
            [3, 4, 5],
            [8, 4, 5],
        ],
        keys: &[VALUE],
        limit: 3,
        wanted: Ok(&[(0, 3), (0, 8), (3, 8)]),
    },
    Case {
        rows: &[
            [0, 1, 2],
            [3, 1, 2],
            [8, 1, 2],
            [0, 4, 5],
            [3, 4, 5],
            [8, 4, 5],
        ],
        keys: &[VALUE],
        limit: 4,
        wanted: Ok(&[(0, 3), (0, 8), (3, 8)]),
    },
    Case {
        rows: &[
            [0, 1, 2],
            [3, 1, 2],
            [8, 1, 2],
            [0, 4, 5],
            [3, 4, 5],
            [8, 4, 5],
        ],
        keys: &[VALUE],
        limit: 2,
        wanted: Err(3),
    },
    Case {
        rows: &[
            [0, 1, 2],
            [3, 1, 2],
            [8, 1, 2],
            [0, 4, 5],
            [3, 4, 5],
            [8, 4, 5],
        ],
        keys: &[VALUE],
        limit: 0,
        wanted: Err(1),
    },
    Case {
        rows: &[
            [0, 1, 2],
            [3, 1, 2],
            [8, 1, 2],
            [0, 4, 5],
            [3, 4, 5],
            [8, 4, 5],
        ],
        keys: &[VALUE_OF_TWELVE],
        limit: 0,
        wanted: Ok(&[]),
    },
    // two keys, of which one follows an edge to an entity
    Case {
        rows: &[
            [0, 1, 2],
            [3, 1, 2],
            [0, 4, 5],
            [3, 4, 5],
            [0, 6, 7],
            [3, 6, 7],
            [8, 1, 2],
            [9, 1, 2],
            [8, 4, 10],
            [9, 4, 10],
            [8, 11, 0],
            [9, 11, 3],
        ],
        keys: &[NAME_AND_CODE, NAME_AND_NEXT],
        limit: 2,
        wanted: Ok(&[(0, 3), (8, 9)]),
    },
    Case {
        rows: &[
            [0, 1, 2],
            [3, 1, 2],
            [0, 4, 5],
            [3, 4, 5],
            [0, 6, 7],
            [3, 6, 7],
            [8, 1, 2],
            [9, 1, 2],
            [8, 4, 10],
            [9, 4, 10],
            [8, 11, 0],
            [9, 11, 3],
        ],
        keys: &[NAME_AND_CODE, NAME_AND_NEXT],
        limit: 1,
        wanted: Err(2),
    },
];

/// The cases, behind a function, so that the test's proof does not see them.
fn cases() -> &'static [Case] {
    &CASES
}

#[test]
fn pairs_are_those_that_share_what_a_key_asks_for(rt: HostRuntime) {
    for (place, case) in cases().iter().enumerate() {
        let is = holds(&rt, rt.alloc(), &world(case.rows), case);
        assert!(rt; is, "case {place}");
    }
}

/// A folded value, a value, and a folded value where nothing has a type. The rows are those of `folded_values`.
static ALIKE: [Case; 3] = [
    Case {
        rows: &[],
        keys: &[FOLDED],
        limit: 10,
        wanted: Ok(&[(0, 3)]),
    },
    Case {
        rows: &[],
        keys: &[VALUE],
        limit: 10,
        wanted: Ok(&[]),
    },
    Case {
        rows: &[],
        keys: &[FOLDED],
        limit: 10,
        wanted: Ok(&[]),
    },
];

fn alike() -> [&'static Case; 3] {
    [&ALIKE[0], &ALIKE[1], &ALIKE[2]]
}

#[test]
fn folded_values_pair_what_is_alike(rt: HostRuntime) {
    let typed = folded_values();
    let [folded, value, _] = alike();
    assert!(rt; holds(&rt, rt.alloc(), &typed, folded));
    assert!(rt; holds(&rt, rt.alloc(), &typed, value));
}

#[test]
fn what_has_no_type_is_not_paired(rt: HostRuntime) {
    let untyped = GraphTable {
        rdf_type: None,
        ..folded_values()
    };
    let [_, _, without_types] = alike();
    assert!(rt; holds(&rt, rt.alloc(), &untyped, without_types));
}
