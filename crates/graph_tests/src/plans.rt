//! In which order a search goes through slots.

use crate::{ENOUGH, FIT};
use fixtures::PatternTable;
use fixtures::worked_patterns::{CHAINED, NAME_AND_NEXT};
use key_plan::Plan;
use std::alloc::Global;
use std::process::Abort;

/// The tables, behind a function, so that the test's proof does not see them.
fn tables() -> (PatternTable<'static>, PatternTable<'static>) {
    (NAME_AND_NEXT, CHAINED)
}

/// The plan of a pattern.
fn plan_of(rt: &impl Abort, alloc: Global, table: &PatternTable<'_>) -> Plan {
    let pattern = table.build(alloc).expect(rt, FIT);
    Plan::new(alloc, &pattern).expect(rt, ENOUGH)
}

#[test]
fn a_value_comes_before_an_entity(rt: HostRuntime) {
    let plan = plan_of(&rt, rt.alloc(), &tables().0);
    assert_eq!(rt; plan.radius(), 1);
    assert_eq!(rt; plan.order(), [0u8, 2, 1].as_slice());
}

#[test]
fn a_wildcard_comes_last(rt: HostRuntime) {
    let plan = plan_of(&rt, rt.alloc(), &tables().1);
    assert_eq!(rt; plan.radius(), 3);
    assert_eq!(rt; plan.order(), [0u8, 4, 3, 2, 1].as_slice());
    assert_eq!(rt; plan.len(), 5);
}
