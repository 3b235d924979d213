//! Chases whose entries wake some Missed pairs and leave others. In each graph entities of type 2 have names, codes and next
//! ones, under 4, 6 and 11, and name 1 is `rdf:type`.

use crate::hands::Step;
use crate::plays::{LEFT, Play, plays, setup_of};
use chase_core::{PairState, Settled};
use fixtures::GraphTable;
use fixtures::worked_graphs::star;

/// Four pairs of one name each, 5, 10, 14 and 17, of which each leads to the one before. The first, 0 and 3, have one
/// code, 7.
fn chain() -> GraphTable<'static> {
    GraphTable {
        names: 18,
        rows: &[
            [0, 1, 2],
            [3, 1, 2],
            [0, 4, 5],
            [3, 4, 5],
            [0, 6, 7],
            [3, 6, 7],
            [8, 1, 2],
            [9, 1, 2],
            [8, 4, 10],
            [9, 4, 10],
            [8, 11, 0],
            [9, 11, 3],
            [12, 1, 2],
            [13, 1, 2],
            [12, 4, 14],
            [13, 4, 14],
            [12, 11, 8],
            [13, 11, 9],
            [15, 1, 2],
            [16, 1, 2],
            [15, 4, 17],
            [16, 4, 17],
            [15, 11, 12],
            [16, 11, 13],
        ],
        literals: &[5, 7, 10, 14, 17],
        rdf_type: Some(1),
        alike: &[],
    }
}

/// Pairs 3, 2 and 1 are missed, and each entry wakes the pair that leads to it, and no other.
static ALONG_A_CHAIN: Play = Play {
    room: 4,
    steps: &[
        (LEFT, Step::Take(Some(3), Some(3))),
        (LEFT, Step::Settle(Settled::Missed, None, None)),
        (LEFT, Step::Take(Some(2), Some(2))),
        (LEFT, Step::Settle(Settled::Missed, None, None)),
        (LEFT, Step::Take(Some(1), Some(1))),
        (LEFT, Step::Settle(Settled::Missed, None, None)),
        (LEFT, Step::Take(None, Some(0))),
        (LEFT, Step::Settle(Settled::Entered(0), Some(1), None)),
        (LEFT, Step::Stands(2, PairState::Missed)),
        (LEFT, Step::Take(None, Some(1))),
        (LEFT, Step::Settle(Settled::Entered(1), Some(2), None)),
        (LEFT, Step::Stands(3, PairState::Missed)),
        (LEFT, Step::Take(None, Some(2))),
        (LEFT, Step::Settle(Settled::Entered(2), Some(3), None)),
        (LEFT, Step::Take(None, Some(3))),
        (LEFT, Step::Settle(Settled::Entered(3), None, None)),
        (LEFT, Step::Take(None, None)),
    ],
    entries: 4,
    labels: &[(3, 0), (9, 8), (13, 12), (16, 15)],
};

fn along_a_chain() -> &'static Play {
    &ALONG_A_CHAIN
}

/// The pairs around are missed before the centre, pair 0, is identified, which wakes all three.
static CENTRE_LAST: Play = Play {
    room: 2,
    steps: &[
        (LEFT, Step::Take(Some(3), Some(3))),
        (LEFT, Step::Settle(Settled::Missed, None, None)),
        (LEFT, Step::Take(Some(1), Some(1))),
        (LEFT, Step::Settle(Settled::Missed, None, None)),
        (LEFT, Step::Take(Some(2), Some(2))),
        (LEFT, Step::Settle(Settled::Missed, None, None)),
        (LEFT, Step::Take(None, Some(0))),
        (LEFT, Step::Settle(Settled::Entered(0), Some(1), Some(2))),
        (LEFT, Step::Stands(3, PairState::Ready)),
        (LEFT, Step::Take(None, Some(1))),
        (LEFT, Step::Settle(Settled::Entered(1), None, None)),
        (LEFT, Step::Take(None, Some(2))),
        (LEFT, Step::Settle(Settled::Entered(2), None, None)),
        (LEFT, Step::Take(None, Some(3))),
        (LEFT, Step::Settle(Settled::Entered(3), None, None)),
        (LEFT, Step::Take(None, None)),
    ],
    entries: 4,
    labels: &[(3, 0), (9, 8), (13, 12), (16, 15)],
};

fn centre_last() -> &'static Play {
    &CENTRE_LAST
}

/// Three entities of one name, 5, and two pairs that lead to each other. 0 and 3 have the code 8, and 3 and 7 the code 9.
/// 10 and 12 have the name 13, and lead to 0 and 7 and to 14 and 15; these have the name 16, and lead to 10 and 12.
fn third_class() -> GraphTable<'static> {
    GraphTable {
        names: 17,
        rows: &[
            [0, 1, 2],
            [3, 1, 2],
            [7, 1, 2],
            [0, 4, 5],
            [3, 4, 5],
            [7, 4, 5],
            [0, 6, 8],
            [3, 6, 8],
            [3, 6, 9],
            [7, 6, 9],
            [10, 1, 2],
            [12, 1, 2],
            [10, 4, 13],
            [12, 4, 13],
            [10, 11, 0],
            [12, 11, 7],
            [10, 11, 14],
            [12, 11, 15],
            [14, 1, 2],
            [15, 1, 2],
            [14, 4, 16],
            [15, 4, 16],
            [14, 11, 10],
            [15, 11, 12],
        ],
        literals: &[5, 8, 9, 13, 16],
        rdf_type: Some(1),
        alike: &[],
    }
}

/// The pairs are (0, 3), (0, 7), (3, 7), (10, 12) and (14, 15). When 3 and 7 become one, 7 has another label, but no pair
/// is woken: pairs 1 and 3 look at 7 from one end, and at 0 from the other. When 0 and 3 become one, both are woken, and
/// pair 3 by no end of the entry but by 0 and 7. Pair 1 is joined by then. Pair 3 wakes pair 4, which looks back at it.
static BY_A_THIRD: Play = Play {
    room: 4,
    steps: &[
        (LEFT, Step::Take(Some(4), Some(4))),
        (LEFT, Step::Settle(Settled::Missed, None, None)),
        (LEFT, Step::Take(Some(3), Some(3))),
        (LEFT, Step::Settle(Settled::Missed, None, None)),
        (LEFT, Step::Take(Some(1), Some(1))),
        (LEFT, Step::Settle(Settled::Missed, None, None)),
        (LEFT, Step::Take(Some(2), Some(2))),
        (LEFT, Step::Settle(Settled::Entered(0), None, None)),
        (LEFT, Step::Stands(1, PairState::Missed)),
        (LEFT, Step::Stands(3, PairState::Missed)),
        (LEFT, Step::Take(None, Some(0))),
        (LEFT, Step::Settle(Settled::Entered(1), Some(1), Some(3))),
        (LEFT, Step::Stands(4, PairState::Missed)),
        (LEFT, Step::Take(None, Some(3))),
        (LEFT, Step::Stands(1, PairState::Joined)),
        (LEFT, Step::Settle(Settled::Entered(2), Some(4), None)),
        (LEFT, Step::Take(None, Some(4))),
        (LEFT, Step::Settle(Settled::Entered(3), None, None)),
        (LEFT, Step::Take(None, None)),
    ],
    entries: 4,
    labels: &[(0, 3), (3, 3), (7, 3), (12, 10), (15, 14)],
};

fn by_a_third() -> &'static Play {
    &BY_A_THIRD
}

/// Six entities of one name, 7, and one code, 8: 20 to 25. Four more of one name, 9, lead to some of them: 30 to 20, 31 to
/// 21, 32 to 23, and 33 to 24.
fn large_class() -> GraphTable<'static> {
    GraphTable {
        names: 34,
        rows: &[
            [20, 1, 2],
            [21, 1, 2],
            [22, 1, 2],
            [23, 1, 2],
            [24, 1, 2],
            [25, 1, 2],
            [20, 4, 7],
            [21, 4, 7],
            [22, 4, 7],
            [23, 4, 7],
            [24, 4, 7],
            [25, 4, 7],
            [20, 6, 8],
            [21, 6, 8],
            [22, 6, 8],
            [23, 6, 8],
            [24, 6, 8],
            [25, 6, 8],
            [30, 1, 2],
            [31, 1, 2],
            [32, 1, 2],
            [33, 1, 2],
            [30, 4, 9],
            [31, 4, 9],
            [32, 4, 9],
            [33, 4, 9],
            [30, 11, 20],
            [31, 11, 21],
            [32, 11, 23],
            [33, 11, 24],
        ],
        literals: &[7, 8, 9],
        rdf_type: Some(1),
        alike: &[],
    }
}

/// Pairs 0 to 14 are those of the six, (20, 21) to (24, 25), and 15 to 20 those of the four: (30, 31), (30, 32), (30, 33),
/// (31, 32), (31, 33) and (32, 33), which are missed first. An entry wakes those of them that look at one of its classes
/// from each end, and the last of the six all four that look across.
static AT_A_LARGE_CLASS: Play = Play {
    room: 8,
    steps: &[
        (LEFT, Step::Take(Some(20), Some(20))),
        (LEFT, Step::Settle(Settled::Missed, None, None)),
        (LEFT, Step::Take(Some(19), Some(19))),
        (LEFT, Step::Settle(Settled::Missed, None, None)),
        (LEFT, Step::Take(Some(18), Some(18))),
        (LEFT, Step::Settle(Settled::Missed, None, None)),
        (LEFT, Step::Take(Some(17), Some(17))),
        (LEFT, Step::Settle(Settled::Missed, None, None)),
        (LEFT, Step::Take(Some(16), Some(16))),
        (LEFT, Step::Settle(Settled::Missed, None, None)),
        (LEFT, Step::Take(Some(15), Some(15))),
        (LEFT, Step::Settle(Settled::Missed, None, None)),
        (LEFT, Step::Take(Some(1), Some(1))),
        (LEFT, Step::Settle(Settled::Entered(0), None, None)),
        (LEFT, Step::Take(Some(0), Some(0))),
        (LEFT, Step::Settle(Settled::Entered(1), Some(15), None)),
        (LEFT, Step::Take(Some(12), Some(12))),
        (LEFT, Step::Settle(Settled::Entered(2), Some(20), None)),
        (LEFT, Step::Take(Some(13), Some(13))),
        (LEFT, Step::Settle(Settled::Entered(3), None, None)),
        (LEFT, Step::Stands(16, PairState::Missed)),
        (LEFT, Step::Take(Some(9), Some(9))),
        (LEFT, Step::Settle(Settled::Entered(4), Some(16), Some(17))),
        (LEFT, Step::Stands(18, PairState::Ready)),
        (LEFT, Step::Stands(19, PairState::Ready)),
        (LEFT, Step::Take(None, Some(15))),
        (LEFT, Step::Settle(Settled::Entered(5), None, None)),
        (LEFT, Step::Take(None, Some(20))),
        (LEFT, Step::Settle(Settled::Entered(6), None, None)),
        (LEFT, Step::Take(None, Some(16))),
        (LEFT, Step::Settle(Settled::Entered(7), None, None)),
        (LEFT, Step::Take(None, None)),
        (LEFT, Step::Stands(19, PairState::Joined)),
    ],
    entries: 8,
    labels: &[(21, 20), (25, 20), (31, 30), (33, 30)],
};

fn at_a_large_class() -> &'static Play {
    &AT_A_LARGE_CLASS
}

#[test]
fn each_entry_wakes_the_pair_that_leads_to_it(rt: HostRuntime) {
    let alloc = rt.alloc();
    plays(&rt, alloc, &setup_of(&rt, alloc, &chain()), along_a_chain());
}

#[test]
fn an_entry_wakes_all_pairs_that_lead_to_it(rt: HostRuntime) {
    let alloc = rt.alloc();
    plays(&rt, alloc, &setup_of(&rt, alloc, &star()), centre_last());
}

#[test]
fn an_entry_wakes_the_pairs_whose_ends_it_brings_together(rt: HostRuntime) {
    let alloc = rt.alloc();
    let setup = setup_of(&rt, alloc, &third_class());
    plays(&rt, alloc, &setup, by_a_third());
}

#[test]
fn an_entry_of_a_large_class_wakes_those_that_look_at_it_from_each_end(rt: HostRuntime) {
    let alloc = rt.alloc();
    let setup = setup_of(&rt, alloc, &large_class());
    plays(&rt, alloc, &setup, at_a_large_class());
}
