//! Graphs that grow, chased in both ways, and with no limit of pairs.

ghost use Rattle.chase_ways.specs.Limit.{CanBeKept};

use crate::alike::{are_labels, begins_with};
use crate::cases::{Case, failed_pair, from_nothing, late_code, late_next};
use crate::graphs::graphs_of;
use chase_ways::{Way, chase_growth};
use fixtures::patterns_of;
use std::alloc::Global;
use std::process::Abort;
use std::sync::Wait;
use std::test::Fail;
use std::thread::Threads;
use steal_pool::OpenGate;

/// Whether growth in one of the ways finds as much as a case says, and keeps what it found first, with so many candidate pairs
/// at most.
fn is_found_by<R: Threads + Wait + Sync>(
    rt: &R,
    alloc: Global,
    case: &Case,
    way: Way,
    limit: u64,
) -> Result<bool, Fail>
    requires { CanBeKept limit }
{
    let (first, both) = graphs_of(alloc, &case.first, case.added)?;
    let keys = patterns_of(alloc, case.keys)?;
    let made = chase_growth(rt, alloc, 2, first, both, keys, limit, Some(way), &OpenGate);
    let Ok(grown) = made else {
        return Ok(false);
    };
    Ok(
        grown.old.len() == case.old.len()
            && grown.now.journal.len() == case.now.len()
            && begins_with(&grown.now.journal, &grown.old)
            && are_labels(&grown.now.labels, case.labels),
    )
}

/// Asserts that both ways find what a case says, and also a chase that counts no pairs.
fn assert_found_by_both<R: Threads + Wait + Sync + Abort>(
    rt: &R,
    alloc: Global,
    case: &Case,
) -> Result<(), Fail> {
    let limit = u64::from(case.limit);
    assert!(rt; is_found_by(rt, alloc, case, Way::Pairs, limit)?);
    assert!(rt; is_found_by(rt, alloc, case, Way::Signatures, limit)?);
    assert!(rt; is_found_by(rt, alloc, case, Way::Pairs, u64::MAX)?);
    Ok(())
}

#[test]
fn growth_goes_both_ways(rt: HostRuntime) -> Result<(), Fail> {
    let alloc = rt.alloc();
    assert_found_by_both(&rt, alloc, &failed_pair())?;
    assert_found_by_both(&rt, alloc, &from_nothing())?;
    assert_found_by_both(&rt, alloc, &late_next())?;
    assert_found_by_both(&rt, alloc, &late_code())
}
