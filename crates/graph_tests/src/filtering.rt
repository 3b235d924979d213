//! Which candidate pairs a filter keeps.

use crate::{ENOUGH, FIT};
use chase_laws::Slot;
use fixtures::worked_graphs::{albums, folded_values, two_pairs};
use fixtures::worked_patterns::{ALBUM_BY, ARTIST, FOLDED, NAME_AND_CODE, NAME_AND_NEXT, VALUE};
use fixtures::{GraphTable, PatternTable, patterns_of};
use pair_filter::keep;
use std::alloc::{AllocError, Global};
use std::process::Abort;
use std::thread::Threads;

/// Entities of type 2 whose next one, under 11, has one value under 4.
const VALUE_OF_NEXT: PatternTable<'static> = PatternTable {
    slots: &[Slot::Entity(2), Slot::Entity(2), Slot::Value],
    edges: &[(0, 11, 1), (1, 4, 2)],
};

/// The same, compared without regard to case.
const FOLDED_OF_NEXT: PatternTable<'static> = PatternTable {
    slots: &[Slot::Entity(2), Slot::Entity(2), Slot::Folded],
    edges: &[(0, 11, 1), (1, 4, 2)],
};

/// The value stands one edge further.
const VALUE_OF_SECOND: PatternTable<'static> = PatternTable {
    slots: &[Slot::Entity(2), Slot::Entity(2), Slot::Any(2), Slot::Value],
    edges: &[(0, 11, 1), (1, 11, 2), (2, 4, 3)],
};

/// Entities of type 2 to which one of type 12 leads under 6, which has one value under 4.
const VALUE_OF_MAKER: PatternTable<'static> = PatternTable {
    slots: &[Slot::Entity(2), Slot::Any(12), Slot::Value],
    edges: &[(1, 6, 0), (1, 4, 2)],
};

/// Entities of type 2 that have the literal 5 under 4.
const HAS_FIVE: PatternTable<'static> = PatternTable {
    slots: &[Slot::Entity(2), Slot::Fixed(5)],
    edges: &[(0, 4, 1)],
};

/// Entities of type 2 whose next one has the literal 5 under 4.
const NEXT_HAS_FIVE: PatternTable<'static> = PatternTable {
    slots: &[Slot::Entity(2), Slot::Entity(2), Slot::Fixed(5)],
    edges: &[(0, 11, 1), (1, 4, 2)],
};

/// Entities of type 2 that lead to themselves under 11.
const LEADS_TO_ITSELF: PatternTable<'static> = PatternTable {
    slots: &[Slot::Entity(2)],
    edges: &[(0, 11, 0)],
};

/// Rows over the names 0 to 15, keys, pairs, and which of them are kept.
struct Case {
    rows: &'static [[u32; 3]],
    keys: &'static [PatternTable<'static>],
    pairs: &'static [(u32, u32)],
    kept: &'static [(u32, u32)],
}

/// A graph of these rows over the names of the cases. 1 is `rdf:type`, 2 and 12 are types, 4, 6 and 11 predicates, 0, 3, 8, 9 and 15
/// entities, and 5, 7, 10, 13 and 14 literals, of which 13 is alike to 5.
fn world(rows: &[[u32; 3]]) -> GraphTable<'_> {
    GraphTable {
        names: 16,
        rows,
        literals: &[5, 7, 10, 13, 14],
        rdf_type: Some(1),
        alike: &[(13, 5)],
    }
}

/// Whether these are kept of some pairs in a graph by some keys.
fn are_kept<R: Threads + Sync + Abort>(
    rt: &R,
    alloc: Global,
    table: &GraphTable<'_>,
    keys: &[PatternTable<'_>],
    pairs: &[(u32, u32)],
    wanted: &[(u32, u32)],
) -> bool {
    let graph = table.build(alloc).expect(rt, FIT);
    let keys = patterns_of(alloc, keys).expect(rt, FIT);
    let kept = keep(rt, alloc, &graph, &keys, pairs).expect(rt, ENOUGH);
    kept.as_slice() == wanted
}

/// Whether what is kept in a graph is what a case names.
fn holds<R: Threads + Sync + Abort>(
    rt: &R,
    alloc: Global,
    table: &GraphTable<'_>,
    case: &Case,
) -> bool {
    are_kept(rt, alloc, table, case.keys, case.pairs, case.kept)
}

/// What is asked of the names themselves, along one edge, and along two; then order, repeats and what is no name.
static CASES: [Case; 21] = [
    // a shared value, none, and one that is no literal
    Case {
        rows: &[
            [0, 1, 2],
            [3, 1, 2],
            [8, 1, 2],
            [0, 4, 5],
            [3, 4, 5],
            [8, 4, 7],
        ],
        keys: &[VALUE],
        pairs: &[(0, 3), (0, 8), (3, 8)],
        kept: &[(0, 3)],
    },
    Case {
        rows: &[[0, 1, 2], [3, 1, 2], [0, 4, 9], [3, 4, 9]],
        keys: &[VALUE],
        pairs: &[(0, 3)],
        kept: &[],
    },
    // literals that are alike, folded and not
    Case {
        rows: &[[0, 1, 2], [3, 1, 2], [0, 4, 5], [3, 4, 13]],
        keys: &[FOLDED],
        pairs: &[(0, 3)],
        kept: &[(0, 3)],
    },
    Case {
        rows: &[[0, 1, 2], [3, 1, 2], [0, 4, 5], [3, 4, 13]],
        keys: &[VALUE],
        pairs: &[(0, 3)],
        kept: &[],
    },
    // a type of one of them alone, and a type by another key
    Case {
        rows: &[[0, 1, 2], [3, 1, 12], [0, 4, 5], [3, 4, 5]],
        keys: &[VALUE, FOLDED],
        pairs: &[(0, 3)],
        kept: &[],
    },
    // a constant that both have, and one that one has
    Case {
        rows: &[
            [0, 1, 2],
            [3, 1, 2],
            [8, 1, 2],
            [0, 4, 5],
            [3, 4, 5],
            [8, 4, 7],
        ],
        keys: &[HAS_FIVE],
        pairs: &[(0, 3), (0, 8)],
        kept: &[(0, 3)],
    },
    // two keys, of which each pairs one pair
    Case {
        rows: &[
            [0, 1, 2],
            [3, 1, 2],
            [8, 1, 2],
            [0, 4, 5],
            [3, 4, 5],
            [0, 11, 0],
            [8, 11, 8],
        ],
        keys: &[VALUE, LEADS_TO_ITSELF],
        pairs: &[(0, 3), (0, 8), (3, 8)],
        kept: &[(0, 3), (0, 8)],
    },
    // the next ones share a value, or do not
    Case {
        rows: &[
            [0, 1, 2],
            [3, 1, 2],
            [8, 1, 2],
            [9, 1, 2],
            [0, 4, 5],
            [3, 4, 5],
            [8, 11, 0],
            [9, 11, 3],
        ],
        keys: &[VALUE_OF_NEXT],
        pairs: &[(8, 9), (0, 3)],
        kept: &[(8, 9)],
    },
    Case {
        rows: &[
            [0, 1, 2],
            [3, 1, 2],
            [8, 1, 2],
            [9, 1, 2],
            [0, 4, 5],
            [3, 4, 7],
            [8, 11, 0],
            [9, 11, 3],
        ],
        keys: &[VALUE_OF_NEXT],
        pairs: &[(8, 9)],
        kept: &[],
    },
    // of several next ones some two share a value that is shared by many
    Case {
        rows: &[
            [0, 1, 2],
            [3, 1, 2],
            [8, 1, 2],
            [9, 1, 2],
            [15, 1, 2],
            [0, 4, 7],
            [3, 4, 5],
            [15, 4, 5],
            [8, 4, 5],
            [9, 4, 5],
            [8, 11, 0],
            [8, 11, 3],
            [9, 11, 15],
        ],
        keys: &[VALUE_OF_NEXT],
        pairs: &[(8, 9)],
        kept: &[(8, 9)],
    },
    Case {
        rows: &[
            [0, 1, 2],
            [3, 1, 2],
            [8, 1, 2],
            [9, 1, 2],
            [15, 1, 2],
            [0, 4, 7],
            [3, 4, 5],
            [15, 4, 10],
            [8, 11, 0],
            [8, 11, 3],
            [9, 11, 15],
        ],
        keys: &[VALUE_OF_NEXT],
        pairs: &[(8, 9)],
        kept: &[],
    },
    // next ones whose values are alike
    Case {
        rows: &[
            [0, 1, 2],
            [3, 1, 2],
            [8, 1, 2],
            [9, 1, 2],
            [0, 4, 5],
            [3, 4, 13],
            [8, 11, 0],
            [9, 11, 3],
        ],
        keys: &[FOLDED_OF_NEXT],
        pairs: &[(8, 9)],
        kept: &[(8, 9)],
    },
    Case {
        rows: &[
            [0, 1, 2],
            [3, 1, 2],
            [8, 1, 2],
            [9, 1, 2],
            [0, 4, 5],
            [3, 4, 7],
            [8, 11, 0],
            [9, 11, 3],
        ],
        keys: &[FOLDED_OF_NEXT],
        pairs: &[(8, 9)],
        kept: &[],
    },
    // next ones with the constant
    Case {
        rows: &[
            [0, 1, 2],
            [3, 1, 2],
            [8, 1, 2],
            [9, 1, 2],
            [0, 4, 5],
            [3, 4, 5],
            [8, 11, 0],
            [9, 11, 3],
        ],
        keys: &[NEXT_HAS_FIVE],
        pairs: &[(8, 9)],
        kept: &[(8, 9)],
    },
    Case {
        rows: &[
            [0, 1, 2],
            [3, 1, 2],
            [8, 1, 2],
            [9, 1, 2],
            [0, 4, 5],
            [3, 4, 7],
            [8, 11, 0],
            [9, 11, 3],
        ],
        keys: &[NEXT_HAS_FIVE],
        pairs: &[(8, 9)],
        kept: &[],
    },
    // values three edges away are not looked at
    Case {
        rows: &[
            [0, 1, 2],
            [3, 1, 2],
            [8, 1, 2],
            [9, 1, 2],
            [8, 11, 0],
            [9, 11, 3],
            [0, 11, 0],
            [3, 11, 3],
            [0, 4, 5],
            [3, 4, 7],
        ],
        keys: &[VALUE_OF_SECOND],
        pairs: &[(8, 9), (0, 3)],
        kept: &[(8, 9), (0, 3)],
    },
    // edges that lead to slot 0, from makers that share a value, that share none, and of which one is missing
    Case {
        rows: &[
            [0, 1, 2],
            [3, 1, 2],
            [8, 1, 12],
            [9, 1, 12],
            [8, 6, 0],
            [9, 6, 3],
            [8, 4, 5],
            [9, 4, 5],
        ],
        keys: &[VALUE_OF_MAKER],
        pairs: &[(0, 3)],
        kept: &[(0, 3)],
    },
    Case {
        rows: &[
            [0, 1, 2],
            [3, 1, 2],
            [8, 1, 12],
            [9, 1, 12],
            [8, 6, 0],
            [9, 6, 3],
            [8, 4, 5],
            [9, 4, 7],
        ],
        keys: &[VALUE_OF_MAKER],
        pairs: &[(0, 3)],
        kept: &[],
    },
    Case {
        rows: &[[0, 1, 2], [3, 1, 2], [8, 1, 12], [8, 6, 0], [8, 4, 5]],
        keys: &[VALUE_OF_MAKER],
        pairs: &[(0, 3)],
        kept: &[],
    },
    // order, repeats, a name with itself, a literal, and a number that is no name
    Case {
        rows: &[[0, 1, 2], [3, 1, 2], [0, 4, 5], [3, 4, 5]],
        keys: &[VALUE],
        pairs: &[(3, 0), (5, 5), (0, 3), (0, 0), (0, 99), (0, 3), (99, 99)],
        kept: &[(3, 0), (0, 3), (0, 0), (0, 3)],
    },
    // no keys
    Case {
        rows: &[[0, 1, 2], [3, 1, 2], [0, 4, 5], [3, 4, 5]],
        keys: &[],
        pairs: &[(0, 3)],
        kept: &[],
    },
];

/// The cases, behind a function, so that the test's proof does not see them.
fn cases() -> &'static [Case] {
    &CASES
}

#[test]
fn pairs_are_kept_that_two_edges_tell_nothing_against(rt: HostRuntime) {
    for (place, case) in cases().iter().enumerate() {
        let is = holds(&rt, rt.alloc(), &world(case.rows), case);
        assert!(rt; is, "case {place}");
    }
}

/// Cases whose rows are those of worked graphs: `two_pairs` by two keys and by the second alone, `folded_values` by a
/// folded value and by a value, and `albums` by keys that go from albums to artists and back.
static WORKED: [Case; 5] = [
    Case {
        rows: &[],
        keys: &[NAME_AND_CODE, NAME_AND_NEXT],
        pairs: &[(0, 3), (8, 9)],
        kept: &[(0, 3), (8, 9)],
    },
    Case {
        rows: &[],
        keys: &[NAME_AND_NEXT],
        pairs: &[(0, 3), (8, 9)],
        kept: &[(8, 9)],
    },
    Case {
        rows: &[],
        keys: &[FOLDED],
        pairs: &[(0, 3)],
        kept: &[(0, 3)],
    },
    Case {
        rows: &[],
        keys: &[VALUE],
        pairs: &[(0, 3)],
        kept: &[],
    },
    Case {
        rows: &[],
        keys: &[ALBUM_BY, ARTIST],
        pairs: &[(0, 3), (0, 8), (8, 9), (13, 14)],
        kept: &[(0, 3), (8, 9), (13, 14)],
    },
];

fn worked() -> [&'static Case; 5] {
    [&WORKED[0], &WORKED[1], &WORKED[2], &WORKED[3], &WORKED[4]]
}

#[test]
fn a_pair_is_kept_where_some_key_pairs_its_names(rt: HostRuntime) {
    let [both, next, _, _, _] = worked();
    assert!(rt; holds(&rt, rt.alloc(), &two_pairs(), both));
    assert!(rt; holds(&rt, rt.alloc(), &two_pairs(), next));
}

#[test]
fn what_is_alike_is_kept_by_a_folded_value_alone(rt: HostRuntime) {
    let [_, _, folded, value, _] = worked();
    assert!(rt; holds(&rt, rt.alloc(), &folded_values(), folded));
    assert!(rt; holds(&rt, rt.alloc(), &folded_values(), value));
}

#[test]
fn albums_and_artists_are_filtered(rt: HostRuntime) {
    let [_, _, _, _, made] = worked();
    assert!(rt; holds(&rt, rt.alloc(), &albums(), made));
}

/// How many times three pairs are handed in together: enough for several threads.
const TIMES: u32 = 3000;

/// The three pairs that often, of which the second is not kept: all of them, and those that are kept, in order.
fn many(alloc: Global) -> Result<(Vec<(u32, u32)>, Vec<(u32, u32)>), AllocError> {
    let mut pairs = Vec::new(alloc);
    let mut kept = Vec::new(alloc);
    for _ in 0..TIMES {
        pairs.push((8, 9))?;
        pairs.push((0, 3))?;
        pairs.push((9, 8))?;
        kept.push((8, 9))?;
        kept.push((9, 8))?;
    }
    Ok((pairs, kept))
}

#[test]
fn many_pairs_stay_in_order(rt: HostRuntime) {
    let alloc = rt.alloc();
    let (pairs, wanted) = many(alloc).expect(&rt, ENOUGH);
    let are = are_kept(&rt, alloc, &two_pairs(), worked()[1].keys, &pairs, &wanted);
    assert!(rt; are);
}
