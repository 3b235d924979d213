//! What is near to what. A list is said by pairs: a name, and one near to it. The cases stand behind functions, so that the
//! proofs of the tests do not see them.

use crate::{ENOUGH, FIT};
use chase_laws::Slot;
use fixtures::worked_graphs::{places, two_pairs};
use fixtures::worked_patterns::{NAME_AND_CODE, NAME_AND_NEXT};
use fixtures::{PatternTable, patterns_of};
use near_lists::Near;
use std::alloc::Global;
use std::process::Abort;
use typed_graph::Graph;

/// The place behind the pairs of a name with each of these, if they stand from a place on.
fn behind(wanted: &[(u32, u32)], from: usize, name: u32, list: &[u32]) -> Option<usize> {
    let mut at = from;
    for other in list {
        if at >= wanted.len() || wanted[at].0 != name || wanted[at].1 != *other {
            return None;
        }
        at += 1;
    }
    Some(at)
}

/// Whether these are all pairs of a name and one near to it.
fn are_near(near: &Near, wanted: &[(u32, u32)]) -> bool {
    let mut at = 0;
    for e in 0..near.names() {
        match behind(wanted, at, e, near.near(e)) {
            Some(next) => at = next,
            None => return false,
        }
    }
    at == wanted.len()
}

/// Whether these are all pairs of a name and one that it is near to.
fn are_owned(near: &Near, wanted: &[(u32, u32)]) -> bool {
    let mut at = 0;
    for n in 0..near.names() {
        match behind(wanted, at, n, near.owners(n)) {
            Some(next) => at = next,
            None => return false,
        }
    }
    at == wanted.len()
}

/// Keys, and what is near to what by them.
struct Case {
    keys: &'static [PatternTable<'static>],
    wanted: &'static [(u32, u32)],
}

/// What is near in a graph by some keys.
fn near_by(rt: &impl Abort, alloc: Global, graph: &Graph, keys: &[PatternTable<'_>]) -> Near {
    let keys = patterns_of(alloc, keys).expect(rt, FIT);
    Near::build(alloc, graph, &keys).expect(rt, ENOUGH)
}

/// Asserts what is near in a graph by the keys of each case.
fn assert_near(rt: &impl Abort, alloc: Global, graph: &Graph, cases: &[Case]) {
    for (place, case) in cases.iter().enumerate() {
        let near = near_by(rt, alloc, graph, case.keys);
        assert!(rt; are_near(&near, case.wanted), "case {place}");
    }
}

/// Two keys, of which one follows an edge as it goes and no key goes back, and one that goes back.
static NEXT: [Case; 2] = [
    Case {
        keys: &[NAME_AND_CODE, NAME_AND_NEXT],
        wanted: &[(0, 0), (3, 3), (8, 0), (8, 8), (9, 3), (9, 9)],
    },
    Case {
        keys: &[LED_TO_BY_NEXT],
        wanted: &[(0, 0), (0, 8), (3, 3), (3, 9), (8, 8), (9, 9)],
    },
];

fn next() -> &'static [Case] {
    &NEXT
}

/// By the first keys of `NEXT`: a name, and one that it is near to.
static OWNED: Case = Case {
    keys: &[NAME_AND_CODE, NAME_AND_NEXT],
    wanted: &[(0, 0), (0, 8), (3, 3), (3, 9), (8, 8), (9, 9)],
};

fn owned() -> &'static Case {
    &OWNED
}

/// Entities of type 2 to which one of type 2 leads under 11.
const LED_TO_BY_NEXT: PatternTable<'static> = PatternTable {
    slots: &[Slot::Entity(2), Slot::Entity(2)],
    edges: &[(1, 11, 0)],
};

#[test]
fn a_walk_goes_as_the_edge_does(rt: HostRuntime) {
    let graph = two_pairs().build(rt.alloc()).expect(&rt, FIT);
    assert_near(&rt, rt.alloc(), &graph, next());
}

#[test]
fn each_name_has_those_that_it_is_near_to(rt: HostRuntime) {
    let graph = two_pairs().build(rt.alloc()).expect(&rt, FIT);
    let owned = owned();
    let near = near_by(&rt, rt.alloc(), &graph, owned.keys);
    assert!(rt; near.names() == 12);
    assert!(rt; are_owned(&near, owned.wanted));
}

const ITSELF: &[(u32, u32)] = &[(8, 8), (9, 9), (10, 10)];

/// Entities of type 2 at a place of type 3.
const AT_A_PLACE: PatternTable<'static> = PatternTable {
    slots: &[Slot::Entity(2), Slot::Any(3)],
    edges: &[(0, 4, 1)],
};

/// Entities of type 2 with a neighbour: one at the same place, of type 3.
const AT_ONE_PLACE: PatternTable<'static> = PatternTable {
    slots: &[Slot::Entity(2), Slot::Any(3), Slot::Entity(2)],
    edges: &[(0, 4, 1), (2, 4, 1)],
};

/// Entities of type 2 at a place of type 3 that is the same.
const AT_THE_PLACE: PatternTable<'static> = PatternTable {
    slots: &[Slot::Entity(2), Slot::Entity(3)],
    edges: &[(0, 4, 1)],
};

/// Places, of type 3, at which an entity of type 2 is.
const PLACE_OF_ONE: PatternTable<'static> = PatternTable {
    slots: &[Slot::Entity(3), Slot::Entity(2)],
    edges: &[(1, 4, 0)],
};

/// Shared places. Of the type of the last key is the place alone.
static HUBS: [Case; 4] = [
    Case {
        keys: &[AT_A_PLACE],
        wanted: ITSELF,
    },
    Case {
        keys: &[AT_ONE_PLACE],
        wanted: &[(8, 8), (8, 9), (9, 8), (9, 9), (10, 10)],
    },
    Case {
        keys: &[AT_THE_PLACE],
        wanted: &[(8, 7), (8, 8), (9, 7), (9, 9), (10, 10)],
    },
    Case {
        keys: &[PLACE_OF_ONE],
        wanted: &[(7, 7), (7, 8), (7, 9)],
    },
];

fn hubs() -> &'static [Case] {
    &HUBS
}

#[test]
fn a_shared_hub_is_passed_where_an_entity_lies_behind(rt: HostRuntime) {
    let graph = places().build(rt.alloc()).expect(&rt, FIT);
    assert_near(&rt, rt.alloc(), &graph, hubs());
}

/// Entities of type 2 that share a literal under 5 with another.
const WITH_ONE_VALUE: PatternTable<'static> = PatternTable {
    slots: &[Slot::Entity(2), Slot::Value, Slot::Entity(2)],
    edges: &[(0, 5, 1), (2, 5, 1)],
};

/// Entities of type 2 that share the literal 11 with another.
const WITH_ELEVEN: PatternTable<'static> = PatternTable {
    slots: &[Slot::Entity(2), Slot::Fixed(11), Slot::Entity(2)],
    edges: &[(0, 5, 1), (2, 5, 1)],
};

/// Entities of type 2 that share the literal 12 with another.
const WITH_TWELVE: PatternTable<'static> = PatternTable {
    slots: &[Slot::Entity(2), Slot::Fixed(12), Slot::Entity(2)],
    edges: &[(0, 5, 1), (2, 5, 1)],
};

const NEAR_ELEVEN: &[(u32, u32)] = &[(8, 8), (8, 10), (9, 9), (10, 8), (10, 10)];

static VALUES: [Case; 3] = [
    Case {
        keys: &[WITH_ONE_VALUE],
        wanted: NEAR_ELEVEN,
    },
    Case {
        keys: &[WITH_ELEVEN],
        wanted: NEAR_ELEVEN,
    },
    Case {
        keys: &[WITH_TWELVE],
        wanted: ITSELF,
    },
];

fn values() -> &'static [Case] {
    &VALUES
}

#[test]
fn a_walk_passes_literals_and_constants(rt: HostRuntime) {
    let graph = places().build(rt.alloc()).expect(&rt, FIT);
    assert_near(&rt, rt.alloc(), &graph, values());
}

/// Leads to itself and to one.
const LEADS_TO_ITSELF: PatternTable<'static> = PatternTable {
    slots: &[Slot::Entity(2), Slot::Entity(2)],
    edges: &[(0, 6, 0), (0, 6, 1)],
};

/// Leads to one at the same place.
const LEADS_INSIDE: PatternTable<'static> = PatternTable {
    slots: &[Slot::Entity(2), Slot::Entity(2), Slot::Any(3)],
    edges: &[(0, 6, 1), (0, 4, 2), (1, 4, 2)],
};

/// With one's place and one's value.
const WITH_PLACE_AND_VALUE: PatternTable<'static> = PatternTable {
    slots: &[Slot::Entity(2), Slot::Any(3), Slot::Value, Slot::Entity(2)],
    edges: &[(0, 4, 1), (0, 5, 2), (3, 4, 1), (3, 5, 2)],
};

const NEAR_LED: &[(u32, u32)] = &[(8, 8), (8, 9), (9, 9), (9, 10), (10, 10)];

/// The edge of slot 0 with itself is not asked. Nor is the edge that closes a cycle of three: 10 is not at the place of
/// 9. In a cycle of four two ways lead to the last slot: by the place and by the value.
static CYCLES: [Case; 3] = [
    Case {
        keys: &[LEADS_TO_ITSELF],
        wanted: NEAR_LED,
    },
    Case {
        keys: &[LEADS_INSIDE],
        wanted: NEAR_LED,
    },
    Case {
        keys: &[WITH_PLACE_AND_VALUE],
        wanted: &[(8, 8), (8, 9), (8, 10), (9, 8), (9, 9), (10, 8), (10, 10)],
    },
];

fn cycles() -> &'static [Case] {
    &CYCLES
}

#[test]
fn a_walk_passes_only_edges_that_lead_further(rt: HostRuntime) {
    let graph = places().build(rt.alloc()).expect(&rt, FIT);
    assert_near(&rt, rt.alloc(), &graph, cycles());
}

/// Leads to one.
const LEADS: PatternTable<'static> = PatternTable {
    slots: &[Slot::Entity(2), Slot::Entity(2)],
    edges: &[(0, 6, 1)],
};

/// Leads to one that leads to one.
const LEADS_FAR: PatternTable<'static> = PatternTable {
    slots: &[Slot::Entity(2), Slot::Entity(2), Slot::Entity(2)],
    edges: &[(0, 6, 1), (1, 6, 2)],
};

const NEAR_LED_FAR: &[(u32, u32)] = &[(8, 8), (8, 9), (8, 10), (9, 9), (9, 10), (10, 10)];

/// By one and two steps in both orders, by a key of places and a key of what leads to one, and by no key.
static SEVERAL: [Case; 4] = [
    Case {
        keys: &[LEADS, LEADS_FAR],
        wanted: NEAR_LED_FAR,
    },
    Case {
        keys: &[LEADS_FAR, LEADS],
        wanted: NEAR_LED_FAR,
    },
    Case {
        keys: &[PLACE_OF_ONE, LEADS],
        wanted: &[
            (7, 7),
            (7, 8),
            (7, 9),
            (8, 8),
            (8, 9),
            (9, 9),
            (9, 10),
            (10, 10),
        ],
    },
    Case {
        keys: &[],
        wanted: &[],
    },
];

fn several() -> &'static [Case] {
    &SEVERAL
}

#[test]
fn each_key_of_a_type_is_asked(rt: HostRuntime) {
    let graph = places().build(rt.alloc()).expect(&rt, FIT);
    assert_near(&rt, rt.alloc(), &graph, several());
}
