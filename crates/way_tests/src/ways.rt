//! Both ways over graphs by chance, and no limit of pairs.

ghost use Rattle.chase_ways.specs.Limit.{CanBeKept};

use crate::ENOUGH;
use crate::chances::{graph_of, keys};
use chase_ways::{Finished, Way, chase_graph};
use std::alloc::Global;
use std::process::Abort;
use std::sync::Wait;
use std::thread::Threads;
use steal_pool::OpenGate;

/// What the chase of a graph by chance comes to in one of the ways, with so many candidate pairs at most.
fn chased<R: Threads + Wait + Sync + Abort>(
    rt: &R,
    alloc: Global,
    number: u64,
    way: Way,
    limit: u64,
) -> Finished
    requires { CanBeKept limit }
{
    let graph = graph_of(alloc, number).expect(rt, ENOUGH);
    let patterns = keys(alloc).expect(rt, ENOUGH);
    chase_graph(rt, alloc, 2, graph, patterns, limit, Some(way), &OpenGate).expect(rt, "few pairs")
}

/// Whether labels are equal exactly where others are.
fn are_alike(labels: &[u32], others: &[u32]) -> bool {
    if labels.len() != others.len() {
        return false;
    }
    for (label, other) in labels.iter().zip(others) {
        for (next_label, next_other) in labels.iter().zip(others) {
            if (label == next_label) != (other == next_other) {
                return false;
            }
        }
    }
    true
}

/// Whether as much is identified, and the same.
fn is_same(finished: &Finished, other: &Finished) -> bool {
    are_alike(&finished.labels, &other.labels) && finished.journal.len() == other.journal.len()
}

/// How much is identified, where both ways identify as much, and the same, and so does a chase that counts no pairs.
fn found_alike<R: Threads + Wait + Sync + Abort>(
    rt: &R,
    alloc: Global,
    number: u64,
) -> Option<usize> {
    let pairs = chased(rt, alloc, number, Way::Pairs, 1_000);
    let signatures = chased(rt, alloc, number, Way::Signatures, 1_000);
    let uncounted = chased(rt, alloc, number, Way::Pairs, u64::MAX);
    (is_same(&pairs, &signatures) && is_same(&pairs, &uncounted)).then_some(pairs.journal.len())
}

#[test]
fn both_ways_give_the_same_classes_and_journals_that_end(rt: HostRuntime) {
    let mut all = 0usize;
    for number in 0..12 {
        let found = found_alike(&rt, rt.alloc(), number).expect(&rt, "the same");
        all = all.saturating_add(found);
    }
    assert!(rt; all > 12);
}
