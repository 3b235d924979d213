//! What a search with a view finds.

ghost use Rattle.std.specs.Prelude.{◌≡◌, ◌<◌, ◌^◌, All, IfOk, length};

use crate::{ENOUGH, FIT};
use chase_laws::{Pattern, Places, Slot};
use fixtures::worked_graphs::{folded_values, two_pairs, woven};
use fixtures::worked_patterns::{self, FOLDED, NAME_AND_CODE, NAME_AND_NEXT, VALUE};
use fixtures::{GraphTable, PatternTable, patterns_of};
use gk_base::NoMemory;
use paired_search::{Finding, View, plan_all, search};
use std::alloc::Global;
use std::process::Abort;
use typed_graph::Graph;

/// A view with two names and room for one more.
fn two_labels(alloc: Global) -> Result<View, NoMemory>
    ensures room { IfOk result (λ v. v.room ≡ 3) }
    ensures names { IfOk result (λ v. length v.pairs ≡ 2) }
{
    let mut view = View::new(alloc, 3)?;
    view.push(2, 7);
    view.push(5, 1);
    Ok(view)
}

#[test]
fn a_view_finds_labels(rt: HostRuntime) {
    let view = two_labels(rt.alloc()).expect(&rt, ENOUGH);
    assert!(rt; view.label(2) == Some(7) && view.label(3) == None && view.label(5) == Some(1));
    assert!(rt; view.same(4, 4) && !view.same(2, 5) && !view.same(3, 6));
}

#[test]
fn a_view_goes_by_places_and_has_room(rt: HostRuntime) {
    let view = two_labels(rt.alloc()).expect(&rt, ENOUGH);
    assert!(rt; view.at(1) == (5, 1) && view.len() == 2 && view.room() == 3);
}

#[test]
fn a_cleared_view_keeps_its_room(rt: HostRuntime) {
    let mut view = two_labels(rt.alloc()).expect(&rt, ENOUGH);
    view.clear();
    view.push(0, 4);
    view.push(1, 4);
    assert!(rt; view.label(1) == Some(4) && view.same(0, 1) && view.len() == 2);
}

/// Whether a list has exactly these names.
fn is_list(places: &Places, names: &[u32]) -> bool {
    if places.len() != names.len() {
        return false;
    }
    for slot in 0..places.len() {
        if places.get(slot) != names[slot] {
            return false;
        }
    }
    true
}

/// What a search finds: a key by its place, and the two lists.
struct Wanted {
    key: u32,
    left: &'static [u32],
    right: &'static [u32],
}

/// Two names, and what a search for them has to find.
struct Look {
    a: u32,
    b: u32,
    wanted: Option<Wanted>,
}

/// Whether this was found.
fn is_finding(found: &Finding, wanted: &Wanted) -> bool {
    found.key == wanted.key
        && is_list(&found.left, wanted.left)
        && is_list(&found.right, wanted.right)
}

/// Whether a search finds what it has to.
fn finds(
    alloc: Global,
    graph: &Graph,
    patterns: &[Pattern],
    view: &View,
    look: &Look,
) -> Result<bool, NoMemory>
    requires { length patterns.now < 2 ^ 32 }
{
    let plans = plan_all(alloc, patterns)?;
    match (
        search(graph, patterns, &plans, look.a, look.b, view),
        &look.wanted,
    ) {
        (Some(found), Some(wanted)) => Ok(is_finding(&found, wanted)),
        (None, None) => Ok(true),
        (Some(_), None) | (None, Some(_)) => Ok(false),
    }
}

/// Asserts what searches by some keys and a view find.
fn assert_found(
    rt: &impl Abort,
    alloc: Global,
    graph: &Graph,
    keys: &[PatternTable<'_>],
    view: &View,
    looks: &[Look],
) {
    let patterns = patterns_of(alloc, keys).expect(rt, FIT);
    for (place, look) in looks.iter().enumerate() {
        let is = finds(alloc, graph, &patterns, view, look).expect(rt, ENOUGH);
        assert!(rt; is, "look {place}");
    }
}

// The keys, behind functions, so that the proofs of the tests do not see them.

fn by_code_and_next() -> &'static [PatternTable<'static>] {
    &CODE_AND_NEXT
}

static CODE_AND_NEXT: [PatternTable<'static>; 2] = [NAME_AND_CODE, NAME_AND_NEXT];

fn by_folded() -> &'static [PatternTable<'static>] {
    &FOLDED_ALONE
}

static FOLDED_ALONE: [PatternTable<'static>; 1] = [FOLDED];

fn by_value() -> &'static [PatternTable<'static>] {
    &VALUE_ALONE
}

static VALUE_ALONE: [PatternTable<'static>; 1] = [VALUE];

fn by_woven() -> &'static [PatternTable<'static>] {
    &WOVEN_ALONE
}

static WOVEN_ALONE: [PatternTable<'static>; 1] = [worked_patterns::WOVEN];

/// A view of 0, which has its own number as label, and of 3, which has this label, with room for two more.
fn view_of_first(alloc: Global, label_of_three: u32) -> Result<View, NoMemory>
    ensures room { IfOk result (λ v. v.room ≡ 4) }
    ensures two { IfOk result (λ v. length v.pairs ≡ 2) }
    ensures below { IfOk result (λ v. All (λ p. p.0 < 4) v.pairs) }
{
    let mut view = View::new(alloc, 4)?;
    view.push(0, 0);
    view.push(3, label_of_three);
    Ok(view)
}

/// A view of the four entities of `two_pairs`, where 3 has this label and each other one its own number.
fn view_with(alloc: Global, label_of_three: u32) -> Result<View, NoMemory> {
    let mut view = view_of_first(alloc, label_of_three)?;
    view.push(8, 8);
    view.push(9, 9);
    Ok(view)
}

/// Where no two entities have one label: the first key finds a pair, and the second none.
static WITH_OWN_LABELS: [Look; 2] = [
    Look {
        a: 8,
        b: 9,
        wanted: None,
    },
    Look {
        a: 0,
        b: 3,
        wanted: Some(Wanted {
            key: 0,
            left: &[0, 5, 7],
            right: &[3, 5, 7],
        }),
    },
];

fn with_own_labels() -> &'static [Look] {
    &WITH_OWN_LABELS
}

/// Where 0 and 3 have one label, and for a number that is no name.
static WITH_ONE_LABEL: [Look; 2] = [
    Look {
        a: 8,
        b: 9,
        wanted: Some(Wanted {
            key: 1,
            left: &[8, 0, 10],
            right: &[9, 3, 10],
        }),
    },
    Look {
        a: 8,
        b: 12,
        wanted: None,
    },
];

fn with_one_label() -> &'static [Look] {
    &WITH_ONE_LABEL
}

#[test]
fn neighbours_are_compared_by_the_view(rt: HostRuntime) {
    let alloc = rt.alloc();
    let graph = two_pairs().build(alloc).expect(&rt, FIT);
    let own = view_with(alloc, 3).expect(&rt, ENOUGH);
    assert_found(
        &rt,
        alloc,
        &graph,
        by_code_and_next(),
        &own,
        with_own_labels(),
    );
    let one = view_with(alloc, 0).expect(&rt, ENOUGH);
    assert_found(
        &rt,
        alloc,
        &graph,
        by_code_and_next(),
        &one,
        with_one_label(),
    );
}

/// Two literals that are alike, by a folded value.
static ALIKE: [Look; 1] = [Look {
    a: 0,
    b: 3,
    wanted: Some(Wanted {
        key: 0,
        left: &[0, 5],
        right: &[3, 6],
    }),
}];

fn alike() -> &'static [Look] {
    &ALIKE
}

/// The same by a value.
static NOT_EQUAL: [Look; 1] = [Look {
    a: 0,
    b: 3,
    wanted: None,
}];

fn not_equal() -> &'static [Look] {
    &NOT_EQUAL
}

#[test]
fn folded_values_are_alike_and_values_equal(rt: HostRuntime) {
    let alloc = rt.alloc();
    let graph = folded_values().build(alloc).expect(&rt, FIT);
    let view = View::new(alloc, 0).expect(&rt, ENOUGH);
    assert_found(&rt, alloc, &graph, by_folded(), &view, alike());
    assert_found(&rt, alloc, &graph, by_value(), &view, not_equal());
}

/// Constant, neighbour and wildcard are the same names on both sides, and then the wildcard is another. Then one side
/// has no wildcard of the type, and then it lacks one row, on either side.
static ONE_ROW_LESS: [Look; 15] = [
    Look {
        a: 12,
        b: 13,
        wanted: Some(Wanted {
            key: 0,
            left: &[12, 10, 9, 11],
            right: &[13, 10, 9, 11],
        }),
    },
    Look {
        a: 12,
        b: 20,
        wanted: Some(Wanted {
            key: 0,
            left: &[12, 10, 9, 11],
            right: &[20, 21, 9, 11],
        }),
    },
    Look {
        a: 12,
        b: 23,
        wanted: None,
    },
    Look {
        a: 12,
        b: 14,
        wanted: None,
    },
    Look {
        a: 14,
        b: 12,
        wanted: None,
    },
    Look {
        a: 12,
        b: 15,
        wanted: None,
    },
    Look {
        a: 15,
        b: 12,
        wanted: None,
    },
    Look {
        a: 12,
        b: 16,
        wanted: None,
    },
    Look {
        a: 16,
        b: 12,
        wanted: None,
    },
    Look {
        a: 12,
        b: 17,
        wanted: None,
    },
    Look {
        a: 17,
        b: 12,
        wanted: None,
    },
    Look {
        a: 12,
        b: 18,
        wanted: None,
    },
    Look {
        a: 18,
        b: 12,
        wanted: None,
    },
    Look {
        a: 12,
        b: 19,
        wanted: None,
    },
    Look {
        a: 19,
        b: 12,
        wanted: None,
    },
];

fn one_row_less() -> &'static [Look] {
    &ONE_ROW_LESS
}

#[test]
fn every_edge_and_kind_is_asked_for(rt: HostRuntime) {
    let alloc = rt.alloc();
    let graph = woven().build(alloc).expect(&rt, FIT);
    let view = View::new(alloc, 0).expect(&rt, ENOUGH);
    assert_found(&rt, alloc, &graph, by_woven(), &view, one_row_less());
}

/// Entities of type 2 that lead to one of three wildcards, which lead to one another in a ring.
static RING_ALONE: [PatternTable<'static>; 1] = [PatternTable {
    slots: &[Slot::Entity(2), Slot::Any(3), Slot::Any(3), Slot::Any(3)],
    edges: &[(0, 4, 1), (1, 5, 2), (2, 5, 3), (3, 5, 1)],
}];

fn by_ring() -> &'static [PatternTable<'static>] {
    &RING_ALONE
}

/// 0 and 6 lead to two names of one ring, 8, 9 and 10, and 7 to a name that leads into it and to which none leads back.
fn one_ring() -> GraphTable<'static> {
    GraphTable {
        names: 12,
        rows: &[
            [0, 1, 2],
            [6, 1, 2],
            [7, 1, 2],
            [8, 1, 3],
            [9, 1, 3],
            [10, 1, 3],
            [11, 1, 3],
            [0, 4, 8],
            [6, 4, 9],
            [7, 4, 11],
            [8, 5, 9],
            [9, 5, 10],
            [10, 5, 8],
            [11, 5, 8],
        ],
        literals: &[],
        rdf_type: Some(1),
        alike: &[],
    }
}

/// Both have a ring, and then the right one has none, and then the left one.
static RINGS: [Look; 3] = [
    Look {
        a: 0,
        b: 6,
        wanted: Some(Wanted {
            key: 0,
            left: &[0, 8, 9, 10],
            right: &[6, 9, 10, 8],
        }),
    },
    Look {
        a: 0,
        b: 7,
        wanted: None,
    },
    Look {
        a: 7,
        b: 0,
        wanted: None,
    },
];

fn rings() -> &'static [Look] {
    &RINGS
}

#[test]
fn each_side_needs_its_wildcards(rt: HostRuntime) {
    let alloc = rt.alloc();
    let graph = one_ring().build(alloc).expect(&rt, FIT);
    let view = View::new(alloc, 0).expect(&rt, ENOUGH);
    assert_found(&rt, alloc, &graph, by_ring(), &view, rings());
}
