//! Whole matches.

ghost use Rattle.std.specs.Prelude.{◌<◌, ◌≤◌, ◌^◌, length};

use crate::ENOUGH;
use chase_core::Setup;
use chase_laws::Pattern;
use fixtures::worked_graphs::{albums, two_pairs};
use fixtures::worked_patterns::{ALBUM_BY, ARTIST, NAME_AND_CODE, NAME_AND_NEXT};
use fixtures::{GraphTable, PatternTable, patterns_of};
use match_run::{Prepared, classes, prepare_graph};
use pair_seed::{SeedStop, TooManyPairs};
use std::alloc::Global;
use std::process::Abort;
use std::sync::Wait;
use std::thread::Threads;
use steal_pool::OpenGate;
use typed_graph::Graph;

/// Whether labels are equal exactly where these numbers are.
pub(crate) fn are_labels(labels: &[u32], wanted: &[u32]) -> bool {
    if labels.len() != wanted.len() {
        return false;
    }
    for (label, want) in labels.iter().zip(wanted) {
        for (other_label, other_want) in labels.iter().zip(wanted) {
            if (label == other_label) != (want == other_want) {
                return false;
            }
        }
    }
    true
}

/// A graph and patterns from tables.
pub(crate) fn graph_and_keys(
    rt: &impl Abort,
    alloc: Global,
    table: &GraphTable<'_>,
    keys: &[PatternTable<'_>],
) -> (Graph, Vec<Pattern>)
    ensures { length result.1.items < 2 ^ 32 }
{
    let graph = table.build(alloc).expect(rt, "a graph");
    let patterns = patterns_of(alloc, keys).expect(rt, "patterns");
    (graph, patterns)
}

/// The labels of a whole match of a graph under keys by so many workers. This and what follows promise nothing, so that the
/// proofs of their callers have little to carry.
pub(crate) fn labels_by<R: Threads + Wait + Sync + Abort>(
    rt: &R,
    alloc: Global,
    table: &GraphTable<'_>,
    keys: &[PatternTable<'_>],
    limit: u32,
    workers: u32,
) -> Vec<u32>
    requires { (0 < workers) × (workers ≤ 64) }
{
    let (graph, keys) = graph_and_keys(rt, alloc, table, keys);
    let Prepared { setup, .. } = prepare_graph(
        rt,
        alloc,
        workers,
        graph,
        keys,
        u64::from(limit),
    ).expect(rt, "a setup");
    classes(rt, alloc, setup, workers, &OpenGate).expect(rt, "classes")
}

/// What is prepared for a chase of a graph under keys.
pub(crate) fn prepared<R: Threads + Sync + Abort>(
    rt: &R,
    alloc: Global,
    table: &GraphTable<'_>,
    keys: &[PatternTable<'_>],
    limit: u32,
) -> Result<Prepared, SeedStop> {
    let (graph, keys) = graph_and_keys(rt, alloc, table, keys);
    prepare_graph(rt, alloc, 1, graph, keys, u64::from(limit))
}

/// Whether these are the pairs of a setup.
pub(crate) fn has_pairs(setup: &Setup, pairs: &[(u32, u32)]) -> bool {
    setup.pairs() == pairs
}

/// Whether the classes of a graph by a case's keys are those of the case, as one worker and as two find them.
fn has_classes<R: Threads + Wait + Sync + Abort>(
    rt: &R,
    alloc: Global,
    table: &GraphTable<'_>,
    case: &Case,
) -> bool {
    let mut right = true;
    for workers in 1..3u32 {
        let labels = labels_by(rt, alloc, table, case.keys, case.limit, workers);
        right = right && are_labels(&labels, case.wanted);
    }
    right
}

/// How many candidate pairs the albums have by all keys, or how many are told where there are too many.
fn seeded<R: Threads + Sync + Abort>(rt: &R, alloc: Global, limit: u32) -> Result<u64, u64> {
    match prepared(rt, alloc, &albums(), together().keys, limit) {
        Ok(prepared) => Ok(prepared.seeded),
        Err(SeedStop::Fault(TooManyPairs { found })) => Err(found),
        Err(SeedStop::NoMemory) => Err(0),
    }
}

/// Keys, and classes by numbers.
struct Case {
    keys: &'static [PatternTable<'static>],
    limit: u32,
    wanted: &'static [u32],
}

/// By all keys: the two pairs of albums and the pair of artists.
static TOGETHER: Case = Case {
    keys: &[ARTIST, ALBUM_BY, NAME_AND_CODE],
    limit: 3,
    wanted: &[0, 1, 2, 0, 4, 5, 6, 7, 8, 8, 10, 11, 12, 13, 13, 15],
};

/// Two keys that only support each other.
static APART: Case = Case {
    keys: &[ARTIST, ALBUM_BY],
    limit: 3,
    wanted: &[0, 1, 2, 3, 4, 5, 6, 7, 8, 9, 10, 11, 12, 13, 14, 15],
};

/// One key, which finds one pair of albums.
static BY_YEAR: Case = Case {
    keys: &[NAME_AND_CODE],
    limit: 1,
    wanted: &[0, 1, 2, 0, 4, 5, 6, 7, 8, 9, 10, 11, 12, 13, 14, 15],
};

static BY_NO_KEY: Case = Case {
    keys: &[],
    limit: 0,
    wanted: &[0, 1, 2, 3, 4, 5, 6, 7, 8, 9, 10, 11, 12, 13, 14, 15],
};

// The cases, behind functions, so that the proofs of the tests do not see them.

fn together() -> &'static Case {
    &TOGETHER
}

fn apart() -> &'static Case {
    &APART
}

fn by_year() -> &'static Case {
    &BY_YEAR
}

fn by_no_key() -> &'static Case {
    &BY_NO_KEY
}

#[test]
fn keys_support_one_another(rt: HostRuntime) {
    assert!(rt; has_classes(&rt, rt.alloc(), &albums(), together()));
}

#[test]
fn keys_support_one_another_in_another_order_of_rows(rt: HostRuntime) {
    let alloc = rt.alloc();
    let table = albums();
    let mut rows = table.rows.to_vec(alloc).expect(&rt, ENOUGH);
    rows.reverse();
    let reversed = GraphTable {
        rows: &rows,
        ..table
    };
    assert!(rt; has_classes(&rt, alloc, &reversed, together()));
}

#[test]
fn candidate_pairs_are_counted_against_the_limit(rt: HostRuntime) {
    for (limit, wanted) in [(4, Ok(3)), (3, Ok(3)), (2, Err(3)), (0, Err(1))] {
        let is = seeded(&rt, rt.alloc(), limit) == wanted;
        assert!(rt; is, "limit {limit}");
    }
}

/// One key, by which two pairs are candidates, of which one has no next ones.
static NEXT: [PatternTable<'static>; 1] = [NAME_AND_NEXT];

fn next() -> &'static [PatternTable<'static>] {
    &NEXT
}

#[test]
fn the_filter_comes_after_the_count(rt: HostRuntime) {
    let prepared = prepared(&rt, rt.alloc(), &two_pairs(), next(), 2).expect(&rt, "pairs");
    assert_eq!(rt; prepared.seeded, 2);
    assert!(rt; has_pairs(&prepared.setup, &[(8, 9)]));
}

#[test]
fn pairs_that_only_support_each_other_stay_apart(rt: HostRuntime) {
    assert!(rt; has_classes(&rt, rt.alloc(), &albums(), apart()));
}

#[test]
fn one_key_finds_its_own_pair(rt: HostRuntime) {
    assert!(rt; has_classes(&rt, rt.alloc(), &albums(), by_year()));
}

#[test]
fn no_key_finds_no_pair(rt: HostRuntime) {
    assert!(rt; has_classes(&rt, rt.alloc(), &albums(), by_no_key()));
}
