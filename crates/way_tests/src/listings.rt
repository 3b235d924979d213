//! Valuations listed.

ghost use Rattle.std.specs.Prelude.{◌<◌, ◌≤◌};

use crate::ENOUGH;
use crate::sharers::{key, sharers};
use key_valuations::list_valuations;
use std::alloc::Global;
use std::process::Abort;
use std::thread::Threads;
use valuation_groups::{Group, ValuationGroups};

/// The groups of so many entities, by so many threads, where no more rows are made than so many.
fn listed<R: Threads + Sync + Abort>(
    rt: &R,
    alloc: Global,
    entities: u32,
    threads: u32,
    most: u64,
) -> Option<ValuationGroups>
    requires some { 0 < entities }
    requires few { entities ≤ 20000 }
{
    let graph = sharers(alloc, entities).expect(rt, ENOUGH);
    let patterns = key(alloc).expect(rt, ENOUGH);
    list_valuations(rt, alloc, threads, &graph, &patterns, most).expect(rt, ENOUGH)
}

/// Whether two groups are the same.
fn is_same(group: &Group<'_>, other: &Group<'_>) -> bool {
    if group.key() != other.key() || group.len() != other.len() {
        return false;
    }
    for row in 0..group.len() {
        if group.row(row) != other.row(row) {
            return false;
        }
    }
    group.values() == other.values()
}

/// Whether the groups are the same in the same order, and so many.
fn are_same(groups: &ValuationGroups, others: &ValuationGroups, count: usize) -> bool {
    if groups.len() != count || others.len() != count {
        return false;
    }
    for place in 0..count {
        if !is_same(&groups.group(place), &others.group(place)) {
            return false;
        }
    }
    true
}

#[test]
fn many_workers_make_valuations_at_once(rt: HostRuntime) {
    let alloc = rt.alloc();
    let one = listed(&rt, alloc, 9_000, 1, u64::MAX).expect(&rt, "groups");
    for threads in [2, 3, 4] {
        let more = listed(&rt, alloc, 9_000, threads, u64::MAX).expect(&rt, "groups");
        assert!(rt; are_same(&one, &more, 8));
    }
}

/// Whether so many rows at most are enough for sixteen entities.
fn are_enough<R: Threads + Sync + Abort>(rt: &R, alloc: Global, most: u64) -> bool {
    listed(rt, alloc, 16, 1, most).is_some()
}

#[test]
fn too_many_valuations_are_told(rt: HostRuntime) {
    // Sixteen rows of leading values, and sixteen of valuations.
    for (most, enough) in [(0, false), (1, false), (31, false), (32, true)] {
        let is = are_enough(&rt, rt.alloc(), most);
        assert_eq!(rt; is, enough);
    }
}
