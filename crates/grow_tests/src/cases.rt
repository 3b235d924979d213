//! Graphs that grow, and what has to come of them. In most of them the names are 0 for `rdf:type`, 1 for the type T, 2 and 3
//! for the predicates p and q, 4 to 7 for the entities c, d, f and g, and 8 to 11 for the literals "1" to "4".

use chase_laws::Slot;
use fixtures::worked_graphs::two_pairs;
use fixtures::worked_patterns::{NAME_AND_CODE, NAME_AND_NEXT};
use fixtures::{GraphTable, PatternTable};

/// A graph, the rows that are added, and keys.
#[derive(Clone, Copy)]
pub struct Case {
    pub first: GraphTable<'static>,
    pub added: &'static [[u32; 3]],
    pub keys: &'static [PatternTable<'static>],
    /// How many candidate pairs the whole graph has.
    pub limit: u32,
    /// What one worker identifies over the first graph: two names and the place of the key.
    pub old: &'static [(u32, u32, u32)],
    /// What one worker identifies over the whole graph.
    pub now: &'static [(u32, u32, u32)],
    /// The labels over the whole graph are equal exactly where these numbers are.
    pub labels: &'static [u32],
    /// How often one worker passes the gate, over both graphs.
    pub passes: u32,
}

/// Entities of type T with one value under p and another one under q.
static TWO_VALUES: [PatternTable<'static>; 1] = [PatternTable {
    slots: &[Slot::Entity(1), Slot::Value, Slot::Value],
    edges: &[(0, 2, 1), (0, 3, 2)],
}];

static BY_CODE_OR_NEXT: [PatternTable<'static>; 2] = [NAME_AND_CODE, NAME_AND_NEXT];

// The keys, behind functions, so that the proofs of the tests do not see them.

fn two_values() -> &'static [PatternTable<'static>] {
    &TWO_VALUES
}

fn by_code_or_next() -> &'static [PatternTable<'static>] {
    &BY_CODE_OR_NEXT
}

/// A graph of c, d, f and g.
fn of_four(rows: &'static [[u32; 3]]) -> GraphTable<'static> {
    GraphTable {
        names: 12,
        rows,
        literals: &[8, 9, 10, 11],
        rdf_type: Some(0),
        alike: &[],
    }
}

/// c and d have "2" under p and "3" under q, and f and g have "1" under both, which are not two values: so f and g are
/// searched in vain, until both have "4" under p too.
pub fn failed_pair() -> Case {
    Case {
        first: of_four(&[
            [4, 0, 1],
            [5, 0, 1],
            [6, 0, 1],
            [7, 0, 1],
            [4, 2, 9],
            [5, 2, 9],
            [4, 3, 10],
            [5, 3, 10],
            [6, 2, 8],
            [7, 2, 8],
            [6, 3, 8],
            [7, 3, 8],
        ]),
        added: &[[6, 2, 11], [7, 2, 11]],
        keys: two_values(),
        limit: 2,
        old: &[(4, 5, 0)],
        now: &[(4, 5, 0), (6, 7, 0)],
        labels: &[0, 1, 2, 3, 4, 4, 6, 6, 8, 9, 10, 11],
        passes: 3,
    }
}

/// The same first graph, and nothing more.
pub fn nothing_added() -> Case {
    Case {
        added: &[],
        now: &[(4, 5, 0)],
        labels: &[0, 1, 2, 3, 4, 4, 6, 7, 8, 9, 10, 11],
        ..failed_pair()
    }
}

/// The same rows, of which some come again, in the first graph and in the addition.
pub fn rows_again() -> Case {
    Case {
        first: of_four(&[
            [7, 3, 8],
            [6, 3, 8],
            [7, 2, 8],
            [6, 2, 8],
            [5, 3, 10],
            [4, 3, 10],
            [5, 2, 9],
            [4, 2, 9],
            [7, 0, 1],
            [6, 0, 1],
            [5, 0, 1],
            [4, 0, 1],
            [7, 3, 8],
            [4, 2, 9],
        ]),
        added: &[[4, 2, 9], [7, 2, 11], [6, 2, 11], [6, 2, 11], [7, 0, 1]],
        ..failed_pair()
    }
}

/// All rows are added to a graph that has none.
pub fn from_nothing() -> Case {
    Case {
        first: of_four(&[]),
        added: &[
            [4, 0, 1],
            [5, 0, 1],
            [6, 0, 1],
            [7, 0, 1],
            [4, 2, 9],
            [5, 2, 9],
            [4, 3, 10],
            [5, 3, 10],
            [6, 2, 11],
            [7, 2, 11],
            [6, 3, 8],
            [7, 3, 8],
        ],
        old: &[],
        now: &[(6, 7, 0), (4, 5, 0)],
        passes: 2,
        ..failed_pair()
    }
}

/// f and g have two values each, but g has its type only later.
pub fn late_type() -> Case {
    Case {
        first: of_four(&[
            [4, 0, 1],
            [5, 0, 1],
            [6, 0, 1],
            [4, 2, 9],
            [5, 2, 9],
            [4, 3, 10],
            [5, 3, 10],
            [6, 2, 11],
            [7, 2, 11],
            [6, 3, 8],
            [7, 3, 8],
        ]),
        added: &[[7, 0, 1]],
        passes: 2,
        ..failed_pair()
    }
}

/// The pairs of `two_pairs`: 0 and 3, which have one name and one code, and 8 and 9, which have one name and lead to 0 and 3.
fn of_two_pairs(rows: &'static [[u32; 3]], added: &'static [[u32; 3]]) -> Case {
    Case {
        first: GraphTable {
            rows,
            ..two_pairs()
        },
        added,
        keys: by_code_or_next(),
        limit: 2,
        old: &[(0, 3, 0)],
        now: &[(0, 3, 0), (8, 9, 1)],
        labels: &[0, 1, 2, 0, 4, 5, 6, 7, 8, 8, 10, 11],
        passes: 2,
    }
}

/// That 8 and 9 lead to 0 and 3 comes later: what is kept makes them the same.
pub fn late_next() -> Case {
    of_two_pairs(
        &[
            [0, 1, 2],
            [3, 1, 2],
            [0, 4, 5],
            [3, 4, 5],
            [0, 6, 7],
            [3, 6, 7],
            [8, 1, 2],
            [9, 1, 2],
            [8, 4, 10],
            [9, 4, 10],
        ],
        &[[8, 11, 0], [9, 11, 3]],
    )
}

/// The codes come later: nothing is kept, and 8 and 9, which are searched first, are searched again once 0 and 3 are found.
pub fn late_code() -> Case {
    Case {
        old: &[],
        passes: 4,
        ..of_two_pairs(
            &[
                [0, 1, 2],
                [3, 1, 2],
                [0, 4, 5],
                [3, 4, 5],
                [8, 1, 2],
                [9, 1, 2],
                [8, 4, 10],
                [9, 4, 10],
                [8, 11, 0],
                [9, 11, 3],
            ],
            &[[0, 6, 7], [3, 6, 7]],
        )
    }
}
