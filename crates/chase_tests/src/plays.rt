//! Chases that are played step by step, with two pairs in hand at once.

use crate::ENOUGH;
use crate::hands::{Hand, Step, play};
use crate::wholes::has_pairs;
use chase_core::{Chase, Matched, PairState, Settled, Setup, Woken};
use fixtures::worked_graphs::{ring, star, two_pairs};
use fixtures::worked_patterns::{NAME_AND_CODE, NAME_AND_NEXT};
use fixtures::{GraphTable, PatternTable, patterns_of};
use pair_seed::seed;
use std::alloc::Global;
use std::process::Abort;
use std::test::Fail;

static KEYS: [PatternTable<'static>; 2] = [NAME_AND_CODE, NAME_AND_NEXT];

/// The two keys, behind a function, so that proofs do not see them.
fn keys() -> &'static [PatternTable<'static>] {
    &KEYS
}

/// The setup of a graph and two keys, by name and code and by name and next one, with its candidate pairs.
fn made(alloc: Global, table: &GraphTable<'_>) -> Result<Setup, Fail> {
    let graph = table.build(alloc)?;
    let patterns = patterns_of(alloc, keys())?;
    let pairs = seed(alloc, &graph, &patterns, 100)?;
    Ok(Setup::new(alloc, graph, patterns, pairs)?)
}

/// The same in a test, which ends where it can't be made.
pub(crate) fn setup_of(rt: &impl Abort, alloc: Global, table: &GraphTable<'_>) -> Setup {
    match made(alloc, table) {
        Ok(setup) => setup,
        Err(_) => panic!(rt; "no setup"),
    }
}

// What a setup has, by functions that promise nothing, so that the proofs of the tests have little to carry.

/// For how many names around a pair there has to be room.
fn width(setup: &Setup) -> u32 {
    setup.widest()
}

/// How many patterns a setup has, and how many plans.
fn pattern_counts(setup: &Setup) -> (usize, usize) {
    (setup.patterns().len(), setup.plans().len())
}

/// How many names the graph of a setup has, and how many its lists of what is near.
fn name_counts(setup: &Setup) -> (u32, u32) {
    (setup.graph().names(), setup.near().names())
}

/// Whether these are the owners of a name.
fn are_owners(setup: &Setup, name: u32, wanted: &[u32]) -> bool {
    let near = setup.near();
    name < near.names() && near.owners(name) == wanted
}

/// Whether these are the pairs that have a name as an end.
fn are_pairs_of(setup: &Setup, name: u32, wanted: &[u32]) -> bool {
    name < setup.graph().names() && setup.pairs_of(name) == wanted
}

#[test]
fn a_setup_has_its_pairs_and_their_width(rt: HostRuntime) {
    let setup = setup_of(&rt, rt.alloc(), &two_pairs());
    assert!(rt; has_pairs(&setup, &[(0, 3), (8, 9)]));
    assert_eq!(rt; width(&setup), 4);
}

#[test]
fn a_setup_has_a_plan_for_each_key(rt: HostRuntime) {
    let setup = setup_of(&rt, rt.alloc(), &two_pairs());
    assert_eq!(rt; pattern_counts(&setup), (2, 2));
}

#[test]
fn a_setup_tells_what_is_near(rt: HostRuntime) {
    let setup = setup_of(&rt, rt.alloc(), &two_pairs());
    assert_eq!(rt; name_counts(&setup), (12, 12));
    assert!(rt; are_owners(&setup, 3, &[3, 9]));
}

#[test]
fn a_setup_tells_the_pairs_of_a_name(rt: HostRuntime) {
    let setup = setup_of(&rt, rt.alloc(), &two_pairs());
    assert!(rt; are_pairs_of(&setup, 3, &[0]));
    assert!(rt; are_pairs_of(&setup, 8, &[1]));
    assert!(rt; are_pairs_of(&setup, 5, &[]));
}

/// Steps with a chase, and what it has to come to.
pub(crate) struct Play {
    /// For how many woken pairs there is room.
    pub(crate) room: u32,
    /// Each step with the hand that does it.
    pub(crate) steps: &'static [(bool, Step)],
    /// How many identifications there are in the end.
    pub(crate) entries: usize,
    /// Some names with their labels in the end.
    pub(crate) labels: &'static [(u32, u32)],
}

/// Whether a finished chase has so many identifications, and these names these labels.
fn is_matched(matched: &Matched, play: &Play) -> bool {
    let mut right = matched.journal.len() == play.entries;
    for (name, label) in play.labels {
        right = right && matched.labels.get(*name as usize).copied() == Some(*label);
    }
    right
}

/// Plays the steps on a new chase.
fn played<'a>(
    rt: &impl Abort,
    alloc: Global,
    setup: &'a Setup,
    steps: &Play,
) -> (Chase<'a>, Woken) {
    let mut chase = Chase::new(alloc, setup).expect(rt, ENOUGH);
    let mut left = Hand::new(alloc, setup).expect(rt, ENOUGH);
    let mut right = Hand::new(alloc, setup).expect(rt, ENOUGH);
    let mut woken = Woken::new(alloc, steps.room).expect(rt, ENOUGH);
    play(
        rt,
        &mut chase,
        &mut left,
        &mut right,
        &mut woken,
        steps.steps,
    );
    (chase, woken)
}

/// Plays the steps on a new chase and finishes it.
pub(crate) fn plays(rt: &impl Abort, alloc: Global, setup: &Setup, steps: &Play) {
    let (chase, _) = played(rt, alloc, setup, steps);
    assert!(rt; is_matched(&chase.finish(), steps));
}

/// Plays the steps on a new chase, calls all pairs back, drains the chase and finishes it.
fn drains(rt: &impl Abort, alloc: Global, setup: &Setup, steps: &Play) {
    let (mut chase, mut woken) = played(rt, alloc, setup, steps);
    chase.recall();
    chase.drain(&mut woken);
    assert!(rt; is_matched(&chase.finish(), steps));
}

pub(crate) const LEFT: bool = true;

const RIGHT: bool = false;

/// The second pair is missed, and woken by the first.
static MISSED_AND_WOKEN: Play = Play {
    room: 4,
    steps: &[
        (LEFT, Step::Take(None, Some(0))),
        (RIGHT, Step::Take(None, Some(1))),
        (LEFT, Step::Take(None, None)),
        (RIGHT, Step::Settle(Settled::Missed, None, None)),
        (RIGHT, Step::Stands(1, PairState::Missed)),
        (LEFT, Step::Settle(Settled::Entered(0), Some(1), None)),
        (LEFT, Step::Stands(0, PairState::Joined)),
        (RIGHT, Step::Stands(1, PairState::Ready)),
        (RIGHT, Step::Take(None, Some(1))),
        (RIGHT, Step::Settle(Settled::Entered(1), None, None)),
        (RIGHT, Step::Settle(Settled::Already, None, None)),
        (LEFT, Step::Take(None, None)),
        (LEFT, Step::Take(Some(0), None)),
    ],
    entries: 2,
    labels: &[(0, 0), (3, 0), (8, 8), (9, 8), (10, 10)],
};

fn missed_and_woken() -> &'static Play {
    &MISSED_AND_WOKEN
}

#[test]
fn a_missed_pair_is_woken_by_an_entry_near_to_it(rt: HostRuntime) {
    let setup = setup_of(&rt, rt.alloc(), &two_pairs());
    plays(&rt, rt.alloc(), &setup, missed_and_woken());
}

/// The label of 3 has changed since.
const OVERTAKEN: Settled = Settled::Reopened {
    node: 3,
    seen: 3,
    now: 0,
};

/// The first pair is entered while the second is searched.
static SEARCHED_MEANWHILE: Play = Play {
    room: 4,
    steps: &[
        (LEFT, Step::Take(None, Some(0))),
        (RIGHT, Step::Take(Some(1), Some(1))),
        (LEFT, Step::Settle(Settled::Entered(0), None, None)),
        (RIGHT, Step::Settle(OVERTAKEN, None, None)),
        (RIGHT, Step::Stands(1, PairState::Ready)),
        (RIGHT, Step::Take(Some(1), Some(1))),
        (RIGHT, Step::Take(Some(1), None)),
        (RIGHT, Step::Settle(Settled::Entered(1), None, None)),
    ],
    entries: 2,
    labels: &[(3, 0), (9, 8)],
};

fn searched_meanwhile() -> &'static Play {
    &SEARCHED_MEANWHILE
}

#[test]
fn a_search_that_was_overtaken_is_not_kept(rt: HostRuntime) {
    let setup = setup_of(&rt, rt.alloc(), &two_pairs());
    plays(&rt, rt.alloc(), &setup, searched_meanwhile());
}

/// Three pairs are missed and woken, and two of them handed out and called back.
static WOKEN_AND_RECALLED: Play = Play {
    room: 2,
    steps: &[
        (RIGHT, Step::Take(Some(3), Some(3))),
        (RIGHT, Step::Settle(Settled::Missed, None, None)),
        (RIGHT, Step::Take(Some(1), Some(1))),
        (RIGHT, Step::Settle(Settled::Missed, None, None)),
        (LEFT, Step::Take(None, Some(0))),
        (RIGHT, Step::Take(None, Some(2))),
        (RIGHT, Step::Settle(Settled::Missed, None, None)),
        (LEFT, Step::Settle(Settled::Entered(0), Some(1), Some(2))),
        (RIGHT, Step::Take(None, Some(1))),
        (LEFT, Step::Take(None, Some(2))),
        (LEFT, Step::Stands(1, PairState::Flying)),
        (LEFT, Step::Recall),
        (LEFT, Step::Stands(1, PairState::Ready)),
        (LEFT, Step::Stands(2, PairState::Ready)),
        (LEFT, Step::Take(None, Some(3))),
        (LEFT, Step::Settle(Settled::Entered(1), None, None)),
        (RIGHT, Step::Settle(Settled::Entered(2), None, None)),
        (RIGHT, Step::Take(None, Some(2))),
        (RIGHT, Step::Settle(Settled::Entered(3), None, None)),
    ],
    entries: 4,
    labels: &[(3, 0), (9, 8), (13, 12), (16, 15)],
};

fn woken_and_recalled() -> &'static Play {
    &WOKEN_AND_RECALLED
}

#[test]
fn woken_and_recalled_pairs_wait_in_order(rt: HostRuntime) {
    let setup = setup_of(&rt, rt.alloc(), &star());
    plays(&rt, rt.alloc(), &setup, woken_and_recalled());
}

/// No step is made.
static UNTOUCHED: Play = Play {
    room: 1,
    steps: &[],
    entries: 4,
    labels: &[(3, 0), (9, 8), (13, 12), (16, 15)],
};

fn untouched() -> &'static Play {
    &UNTOUCHED
}

/// One pair is missed, and two are handed out.
static BEGUN: Play = Play {
    room: 1,
    steps: &[
        (RIGHT, Step::Take(Some(3), Some(3))),
        (RIGHT, Step::Settle(Settled::Missed, None, None)),
        (LEFT, Step::Take(Some(2), Some(2))),
        (RIGHT, Step::Take(Some(0), Some(0))),
    ],
    entries: 4,
    labels: &[(3, 0), (9, 8), (13, 12), (16, 15)],
};

fn begun() -> &'static Play {
    &BEGUN
}

#[test]
fn a_drain_goes_on_from_any_state(rt: HostRuntime) {
    let setup = setup_of(&rt, rt.alloc(), &star());
    drains(&rt, rt.alloc(), &setup, untouched());
    drains(&rt, rt.alloc(), &setup, begun());
}

/// Two pairs are missed, of which the third pair wakes one, and that one the other.
static WAKES_IN_TURN: Play = Play {
    room: 4,
    steps: &[
        (LEFT, Step::Take(None, Some(0))),
        (LEFT, Step::Settle(Settled::Missed, None, None)),
        (RIGHT, Step::Take(None, Some(1))),
        (RIGHT, Step::Settle(Settled::Missed, None, None)),
        (LEFT, Step::Take(None, Some(2))),
        (LEFT, Step::Settle(Settled::Entered(0), Some(0), None)),
        (LEFT, Step::Stands(1, PairState::Missed)),
        (RIGHT, Step::Take(None, Some(0))),
        (RIGHT, Step::Settle(Settled::Entered(1), Some(1), None)),
        (LEFT, Step::Take(None, Some(1))),
        (LEFT, Step::Settle(Settled::Entered(2), None, None)),
    ],
    entries: 3,
    labels: &[(3, 0), (9, 8), (13, 12)],
};

fn wakes_in_turn() -> &'static Play {
    &WAKES_IN_TURN
}

#[test]
fn a_woken_pair_wakes_another(rt: HostRuntime) {
    let setup = setup_of(&rt, rt.alloc(), &ring());
    assert_eq!(rt; width(&setup), 6);
    plays(&rt, rt.alloc(), &setup, wakes_in_turn());
}
