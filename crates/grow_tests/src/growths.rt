//! Graphs that grow, chased by one worker and by several.

ghost use Rattle.std.specs.Prelude.{◌<◌, ◌≤◌};

use crate::alike::{are_labels, are_steps, begins_with};
use crate::cases::{
    Case, failed_pair, from_nothing, late_code, late_next, late_type, nothing_added, rows_again,
};
use crate::counting::no_passes;
use crate::graphs::graphs_of;
use fixtures::patterns_of;
use grow_match::{Grown, grow};
use pair_seed::{SeedStop, TooManyPairs};
use std::alloc::Global;
use std::process::Abort;
use std::sync::Wait;
use std::sync::atomic::Ordering;
use std::test::Fail;
use std::thread::Threads;
use steal_pool::{Gate, OpenGate};

/// What growth comes to, or how many candidate pairs are told where there are too many: 0 stands for no memory.
fn grown_or_told(made: Result<Grown, SeedStop>) -> Result<Grown, u64> {
    match made {
        Ok(grown) => Ok(grown),
        Err(SeedStop::Fault(TooManyPairs { found })) => Err(found),
        Err(SeedStop::NoMemory) => Err(0),
    }
}

/// What a case comes to under a limit, by so many workers; or how many candidate pairs are told where there are too many.
fn grown<R: Threads + Wait + Sync, G: Gate>(
    rt: &R,
    alloc: Global,
    case: &Case,
    limit: u32,
    workers: u32,
    gate: &G,
) -> Result<Result<Grown, u64>, Fail>
    requires { (0 < workers) × (workers ≤ 64) }
{
    let (first, both) = graphs_of(alloc, &case.first, case.added)?;
    let keys = patterns_of(alloc, case.keys)?;
    let made = grow(
        rt,
        alloc,
        first,
        both,
        keys,
        u64::from(limit),
        workers,
        gate,
    );
    Ok(grown_or_told(made))
}

/// Whether one worker finds what a case says, in this order and by so many searches, and keeps what it found first.
fn is_found<R: Threads + Wait + Sync>(rt: &R, alloc: Global, case: &Case) -> Result<bool, Fail> {
    let gate = no_passes();
    let Ok(grown) = grown(rt, alloc, case, case.limit, 1, &gate)? else {
        return Ok(false);
    };
    Ok(
        are_steps(&grown.old, case.old)
            && are_steps(&grown.now.journal, case.now)
            && begins_with(&grown.now.journal, &grown.old)
            && are_labels(&grown.now.labels, case.labels)
            && gate.count.load(Ordering::SeqCst) == u64::from(case.passes),
    )
}

/// Whether several workers find as much, and keep what they found first.
fn is_found_together<R: Threads + Wait + Sync>(
    rt: &R,
    alloc: Global,
    case: &Case,
) -> Result<bool, Fail> {
    let mut right = true;
    for workers in [2, 64] {
        let Ok(grown) = grown(rt, alloc, case, case.limit, workers, &OpenGate)? else {
            return Ok(false);
        };
        right = right
            && grown.old.len() == case.old.len()
            && grown.now.journal.len() == case.now.len()
            && begins_with(&grown.now.journal, &grown.old)
            && are_labels(&grown.now.labels, case.labels);
    }
    Ok(right)
}

/// Asserts that one worker and several find what a case says.
fn assert_found<R: Threads + Wait + Sync + Abort>(
    rt: &R,
    alloc: Global,
    case: &Case,
) -> Result<(), Fail> {
    assert!(rt; is_found(rt, alloc, case)?);
    assert!(rt; is_found_together(rt, alloc, case)?);
    Ok(())
}

#[test]
fn a_failed_pair_is_found_and_a_kept_pair_is_not_searched_again(
    rt: HostRuntime,
) -> Result<(), Fail> {
    let case = failed_pair();
    assert_eq!(rt; case.passes, 3);
    assert_found(&rt, rt.alloc(), &case)
}

#[test]
fn a_type_may_come_later(rt: HostRuntime) -> Result<(), Fail> {
    assert_found(&rt, rt.alloc(), &late_type())
}

#[test]
fn nothing_may_be_added(rt: HostRuntime) -> Result<(), Fail> {
    assert_found(&rt, rt.alloc(), &nothing_added())
}

#[test]
fn the_first_graph_may_be_empty(rt: HostRuntime) -> Result<(), Fail> {
    assert_found(&rt, rt.alloc(), &from_nothing())
}

#[test]
fn rows_may_come_again_and_in_any_order(rt: HostRuntime) -> Result<(), Fail> {
    assert_found(&rt, rt.alloc(), &rows_again())
}

#[test]
fn what_is_kept_leads_on(rt: HostRuntime) -> Result<(), Fail> {
    assert_found(&rt, rt.alloc(), &late_next())
}

#[test]
fn what_is_found_first_wakes_others(rt: HostRuntime) -> Result<(), Fail> {
    assert_found(&rt, rt.alloc(), &late_code())
}

/// How many candidate pairs are told where there are too many, and none where there are not.
fn told<R: Threads + Wait + Sync>(
    rt: &R,
    alloc: Global,
    case: &Case,
    limit: u32,
) -> Result<Option<u64>, Fail> {
    Ok(grown(rt, alloc, case, limit, 1, &OpenGate)?.err())
}

#[test]
fn candidate_pairs_of_the_whole_graph_are_counted(rt: HostRuntime) -> Result<(), Fail> {
    let alloc = rt.alloc();
    assert_eq!(rt; told(&rt, alloc, &late_type(), 2)?, None);
    assert_eq!(rt; told(&rt, alloc, &late_type(), 1)?, Some(2));
    assert_eq!(rt; told(&rt, alloc, &failed_pair(), 1)?, Some(2));
    assert_eq!(rt; told(&rt, alloc, &failed_pair(), 0)?, Some(1));
    Ok(())
}
