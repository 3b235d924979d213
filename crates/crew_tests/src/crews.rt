//! What passes a crew's gate, and what its chase comes to.

ghost use Rattle.std.specs.Prelude.{◌<◌, ◌≤◌};

use crate::ENOUGH;
use crate::graphs::{Kind, prepared};
use chase_core::{Chase, Matched, Setup, Woken};
use gates::{Counts, Meeting};
use gk_base::NoMemory;
use match_run::{chase, chase_setup};
use std::alloc::Global;
use std::process::Abort;
use std::sync::Wait;
use std::sync::atomic::Ordering;
use std::thread::Threads;
use steal_pool::{Crew, Gate, OpenGate};

/// What a crew of so many workers comes to.
fn run<G: Gate, R: Threads + Wait + Sync + Abort>(
    rt: &R,
    alloc: Global,
    setup: &Setup,
    workers: u32,
    gate: &G,
) -> Matched
    requires { (0 < workers) × (workers ≤ 64) }
{
    let mut woken = Woken::new(alloc, 0).expect(rt, ENOUGH);
    let made = Chase::new(alloc, setup).expect(rt, ENOUGH);
    match Crew::new(alloc, made, workers) {
        Ok(crew) => chase(rt, crew, &mut woken, gate),
        Err((_, NoMemory)) => panic!(rt; "no memory"),
    }
}

/// What one thread comes to.
fn drained(rt: &impl Abort, alloc: Global, setup: &Setup) -> Matched {
    let mut woken = Woken::new(alloc, 0).expect(rt, ENOUGH);
    let mut alone = Chase::new(alloc, setup).expect(rt, ENOUGH);
    // No pair is handed out: for the proof alone.
    alone.recall();
    alone.drain(&mut woken);
    alone.finish()
}

/// Whether both make the same names the same.
fn are_alike(labels: &[u32], others: &[u32]) -> bool {
    if labels.len() != others.len() {
        return false;
    }
    for (label, other) in labels.iter().zip(others) {
        for (second, other_second) in labels.iter().zip(others) {
            if (label == second) != (other == other_second) {
                return false;
            }
        }
    }
    true
}

/// Whether a crew of so many workers, and a chase of the setup by as many, make the same names the same as these labels, and
/// identify as often as the count says.
fn find_the_same<R: Threads + Wait + Sync + Abort>(
    rt: &R,
    alloc: Global,
    setup: &Setup,
    workers: u32,
    alone: &[u32],
    count: usize,
) -> bool
    requires { (0 < workers) × (workers ≤ 64) }
{
    let crew = run(rt, alloc, setup, workers, &OpenGate);
    let whole = chase_setup(rt, alloc, setup, workers, &OpenGate).expect(rt, ENOUGH);
    are_alike(&crew.labels, alone)
        && are_alike(&whole.labels, alone)
        && whole.journal.len() == count
}

/// Asserts that crews of three sizes find the same of so many pairs as one thread.
fn assert_same_as_alone<R: Threads + Wait + Sync + Abort>(
    rt: &R,
    alloc: Global,
    kind: Kind,
    count: u32,
) {
    let prepared = prepared(rt, alloc, kind, count);
    let alone = drained(rt, alloc, &prepared.setup);
    for workers in [1, 2, 64] {
        let same = find_the_same(
            rt,
            alloc,
            &prepared.setup,
            workers,
            &alone.labels,
            count as usize,
        );
        assert!(rt; same);
    }
}

#[test]
fn crews_find_what_one_thread_finds(rt: HostRuntime) {
    for (kind, count) in [(Kind::Chain, 2), (Kind::Alone, 2), (Kind::Chain, 60)] {
        assert_same_as_alone(&rt, rt.alloc(), kind, count);
    }
}

/// How often a crew of so many workers identifies, of so many pairs that stand alone.
fn identified<G: Gate, R: Threads + Wait + Sync + Abort>(
    rt: &R,
    alloc: Global,
    count: u32,
    workers: u32,
    gate: &G,
) -> usize
    requires { (0 < workers) × (workers ≤ 64) }
{
    let prepared = prepared(rt, alloc, Kind::Alone, count);
    run(rt, alloc, &prepared.setup, workers, gate).journal.len()
}

#[test]
fn each_pair_passes_once(rt: HostRuntime) {
    let gate = Counts::new(rt.alloc(), 100).expect(&rt, ENOUGH);
    assert_eq!(&rt; identified(&rt, rt.alloc(), 100, 4, &gate), 100);
    for count in &gate.passed {
        assert_eq!(&rt; count.load(Ordering::SeqCst), 1);
    }
}

#[test]
fn one_worker_begins_with_its_last_hint(rt: HostRuntime) {
    let gate = Counts::new(rt.alloc(), 100).expect(&rt, ENOUGH);
    assert_eq!(&rt; identified(&rt, rt.alloc(), 100, 1, &gate), 100);
    assert_eq!(&rt; gate.first.load(Ordering::SeqCst), 99);
}

#[test]
fn two_workers_are_at_the_gate_at_once(rt: HostRuntime) {
    let gate = Meeting::new();
    assert_eq!(&rt; identified(&rt, rt.alloc(), 2, 2, &gate), 2);
    assert_eq!(&rt; gate.met.load(Ordering::SeqCst), 1);
}

/// Asserts that crews of four sizes identify each of so many pairs.
fn assert_all_found<R: Threads + Wait + Sync + Abort>(
    rt: &R,
    alloc: Global,
    kind: Kind,
    count: u32,
) {
    let prepared = prepared(rt, alloc, kind, count);
    for workers in [1, 2, 4, 64] {
        assert_eq!(rt;
            run(rt, alloc, &prepared.setup, workers, &OpenGate)
                .journal
                .len(),
            count as usize
        );
    }
}

#[test]
fn crews_of_all_sizes_come_to_the_same(rt: HostRuntime) {
    for count in [0, 1, 3, 1000] {
        for kind in [Kind::Alone, Kind::Chain] {
            assert_all_found(&rt, rt.alloc(), kind, count);
        }
    }
}
