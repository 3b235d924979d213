//! Pairs for which some of the keys are searched, and what the chase makes of them.

use crate::ENOUGH;
use crate::wholes::{are_labels, graph_and_keys, has_pairs, labels_by, prepared};
use chase_core::{Chase, Matched, Setup, Woken};
use chase_laws::Slot;
use fixtures::{GraphTable, PatternTable};
use pair_filter::{KeptPairs, keep_with_keys};
use pair_seed::seed;
use paired_search::KeyRange;
use std::alloc::Global;
use std::process::Abort;
use std::thread::Threads;

/// Five keys for entities of type 1: by a value under 2, 3, 4 or 6, and by the next one, under 5.
static KEYS: [PatternTable<'static>; 5] = [
    PatternTable {
        slots: &[Slot::Entity(1), Slot::Value],
        edges: &[(0, 2, 1)],
    },
    PatternTable {
        slots: &[Slot::Entity(1), Slot::Value],
        edges: &[(0, 3, 1)],
    },
    PatternTable {
        slots: &[Slot::Entity(1), Slot::Value],
        edges: &[(0, 4, 1)],
    },
    PatternTable {
        slots: &[Slot::Entity(1), Slot::Entity(1)],
        edges: &[(0, 5, 1)],
    },
    PatternTable {
        slots: &[Slot::Entity(1), Slot::Value],
        edges: &[(0, 6, 1)],
    },
];

/// The entities are 7 to 18, and the literals 19 to 25. 0 is `rdf:type`.
static ROWS: [[u32; 3]; 28] = [
    [7, 0, 1],
    [8, 0, 1],
    [9, 0, 1],
    [10, 0, 1],
    [11, 0, 1],
    [12, 0, 1],
    [13, 0, 1],
    [14, 0, 1],
    [15, 0, 1],
    [16, 0, 1],
    [17, 0, 1],
    [18, 0, 1],
    // by the first key, the third and the last
    [7, 2, 19],
    [8, 2, 19],
    [9, 4, 20],
    [10, 4, 20],
    [11, 6, 21],
    [12, 6, 21],
    // by the first and the last
    [13, 2, 22],
    [14, 2, 22],
    [13, 6, 23],
    [14, 6, 23],
    // by the third and the last
    [15, 4, 24],
    [16, 4, 24],
    [15, 6, 25],
    [16, 6, 25],
    // by the fourth, once 7 and 8 are the same
    [17, 5, 7],
    [18, 5, 8],
];

/// The pairs that are kept.
static PAIRS: [(u32, u32); 6] = [(7, 8), (9, 10), (11, 12), (13, 14), (15, 16), (17, 18)];

/// Their keys, each range by its first key and its end.
static RANGES: [(u8, u8); 6] = [(0, 1), (2, 3), (4, 5), (0, 5), (2, 5), (3, 4)];

/// By which key each is identified.
static FOUND: [(u32, u32, u32); 6] = [
    (7, 8, 0),
    (9, 10, 2),
    (11, 12, 4),
    (13, 14, 0),
    (15, 16, 2),
    (17, 18, 3),
];

/// The classes by numbers.
static WANTED: [u32; 26] = [
    0, 1, 2, 3, 4, 5, 6, 7, 7, 9, 9, 11, 11, 13, 13, 15, 15, 17, 17, 19, 20, 21, 22, 23, 24, 25,
];

/// The tables, behind functions, so that the proofs of the tests do not see them.
fn keys() -> &'static [PatternTable<'static>] {
    &KEYS
}

fn table() -> GraphTable<'static> {
    GraphTable {
        names: 26,
        rows: &ROWS,
        literals: &[19, 20, 21, 22, 23, 24, 25],
        rdf_type: Some(0),
        alike: &[],
    }
}

fn wanted() -> &'static [u32] {
    &WANTED
}

/// Whether these are pairs that are kept, in their order one time after another, and their keys.
fn are_narrowed(pairs: &[(u32, u32)], keys: &[KeyRange]) -> bool {
    let mut right = pairs.len() == keys.len();
    for (place, (pair, range)) in pairs.iter().zip(keys).enumerate() {
        let at = place % PAIRS.len();
        right = right && *pair == PAIRS[at];
        right = right && range.first == RANGES[at].0 && range.end == RANGES[at].1;
    }
    right
}

/// Whether these identifications were made, in this order.
fn are_found(matched: &Matched) -> bool {
    let mut right = matched.journal.len() == FOUND.len();
    for (entry, found) in matched.journal.iter().zip(&FOUND) {
        right = right && entry.a == found.0 && entry.b == found.1 && entry.key == found.2;
    }
    right
}

/// A chase over a setup, to its end.
fn matched(rt: &impl Abort, alloc: Global, setup: &Setup) -> Matched {
    let mut chase = Chase::new(alloc, setup).expect(rt, ENOUGH);
    let mut woken = Woken::new(alloc, 0).expect(rt, ENOUGH);
    // No pair is handed out: for the proof alone.
    chase.recall();
    chase.drain(&mut woken);
    chase.finish()
}

/// The setup over all candidate pairs, for which all keys are searched.
fn whole(rt: &impl Abort, alloc: Global) -> Setup {
    let (graph, patterns) = graph_and_keys(rt, alloc, &table(), keys());
    let pairs = seed(alloc, &graph, &patterns, 100).expect(rt, "pairs");
    Setup::new(alloc, graph, patterns, pairs).expect(rt, ENOUGH)
}

/// The setup over the pairs that are kept, for which the keys of their ranges are.
fn narrowed<R: Threads + Sync + Abort>(rt: &R, alloc: Global) -> Setup {
    prepared(rt, alloc, &table(), keys(), 100)
        .expect(rt, "pairs")
        .setup
}

/// The candidate pairs.
fn candidates(rt: &impl Abort, alloc: Global) -> Vec<(u32, u32)> {
    let (graph, patterns) = graph_and_keys(rt, alloc, &table(), keys());
    seed(alloc, &graph, &patterns, 100).expect(rt, "pairs")
}

/// Which of these pairs are kept, by so many threads, and their keys.
fn kept_of<R: Threads + Sync + Abort>(
    rt: &R,
    alloc: Global,
    threads: u32,
    pairs: &[(u32, u32)],
) -> KeptPairs {
    let (graph, patterns) = graph_and_keys(rt, alloc, &table(), keys());
    keep_with_keys(rt, alloc, threads, &graph, &patterns, pairs).expect(rt, ENOUGH)
}

#[test]
fn ranges_go_from_the_first_key_that_pairs_to_the_last(rt: HostRuntime) {
    let pairs = candidates(&rt, rt.alloc());
    assert_eq!(rt; pairs.len(), 66);
    let kept = kept_of(&rt, rt.alloc(), 1, &pairs);
    assert_eq!(rt; kept.pairs.len(), PAIRS.len());
    assert!(rt; are_narrowed(&kept.pairs, &kept.keys));
}

/// How many times the pairs are handed in together: enough for several threads.
const TIMES: u32 = 500;

/// The pairs that often.
fn many(rt: &impl Abort, alloc: Global) -> Vec<(u32, u32)> {
    let mut pairs = Vec::new(alloc);
    for _ in 0..TIMES {
        pairs.extend_from_slice(&PAIRS).expect(rt, ENOUGH);
    }
    pairs
}

#[test]
fn ranges_stay_beside_their_pairs_whatever_the_threads(rt: HostRuntime) {
    let pairs = many(&rt, rt.alloc());
    for threads in [0, 1, 2, 3, 8] {
        let kept = kept_of(&rt, rt.alloc(), threads, &pairs);
        let right = kept.pairs.len() == pairs.len() && are_narrowed(&kept.pairs, &kept.keys);
        assert!(rt; right, "{threads} threads");
    }
}

#[test]
fn a_chase_by_all_keys_finds_the_pairs(rt: HostRuntime) {
    let alloc = rt.alloc();
    let all = matched(&rt, alloc, &whole(&rt, alloc));
    assert!(rt; are_found(&all));
    assert!(rt; are_labels(&all.labels, wanted()));
}

#[test]
fn a_chase_by_the_ranges_comes_to_the_same(rt: HostRuntime) {
    let alloc = rt.alloc();
    let setup = narrowed(&rt, alloc);
    assert!(rt; has_pairs(&setup, &PAIRS));
    let some = matched(&rt, alloc, &setup);
    assert!(rt; are_found(&some));
    assert!(rt; are_labels(&some.labels, wanted()));
}

#[test]
fn a_whole_match_comes_to_the_same(rt: HostRuntime) {
    for workers in 1..3u32 {
        let labels = labels_by(&rt, rt.alloc(), &table(), keys(), 100, workers);
        assert!(rt; are_labels(&labels, wanted()), "{workers} workers");
    }
}
