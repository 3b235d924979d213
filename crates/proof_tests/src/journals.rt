//! Which entries of a journal lead from one name to another.

use chase_laws::{Entry, Places};
use gk_base::NoMemory;
use proof_graph::supports::support;
use std::alloc::Global;
use std::process::Abort;
use std::test::Fail;

/// The two names of each entry of a journal, how many entries count, two names, and the places of the entries that lead from
/// the one to the other.
type Leads = (&'static [(u32, u32)], u32, u32, u32, &'static [u32]);

static LEADS: [Leads; 8] = [
    (&[(0, 3), (8, 9)], 1, 0, 3, &[0]),
    (&[(0, 3), (8, 9)], 0, 0, 0, &[]),
    (&[(0, 3), (8, 9)], 2, 9, 8, &[1]),
    (&[(0, 1), (1, 2), (3, 2)], 3, 0, 3, &[0, 1, 2]),
    (&[(0, 1), (1, 2), (3, 2)], 3, 3, 0, &[2, 1, 0]),
    (&[(4, 5), (7, 5), (6, 7), (5, 9)], 4, 9, 6, &[3, 1, 2]),
    (&[(4, 5), (7, 5), (6, 7), (5, 9)], 3, 4, 6, &[0, 1, 2]),
    (&[], 0, 5, 5, &[]),
];

/// The same with two names that the entries do not join.
type Apart = (&'static [(u32, u32)], u32, u32, u32);

static APART: [Apart; 5] = [
    (&[(0, 3), (8, 9)], 0, 0, 3),
    (&[(0, 3), (8, 9)], 2, 3, 8),
    (&[(0, 1), (1, 2), (3, 2)], 2, 0, 3),
    (&[(0, 1)], 1, 0, 2),
    (&[], 0, 4, 5),
];

/// A journal whose entries have these names, and nothing more.
fn journal(alloc: Global, ends: &[(u32, u32)]) -> Result<Vec<Entry>, NoMemory> {
    let mut journal = Vec::new(alloc);
    for (a, b) in ends {
        journal.push(Entry {
            a: *a,
            b: *b,
            key: 0,
            left: Places::empty(),
            right: Places::empty(),
        })?;
    }
    Ok(journal)
}

/// The places of the entries that lead from the one name to the other, among so many entries of a journal with these names.
fn led(
    rt: &impl Abort,
    alloc: Global,
    ends: &[(u32, u32)],
    upto: u32,
    a: u32,
    b: u32,
) -> Result<Option<Vec<u32>>, NoMemory> {
    let journal = journal(alloc, ends)?;
    assert!(rt; upto as usize <= journal.len());
    support(alloc, &journal, upto, a, b)
}

#[test]
fn entries_lead_from_name_to_name(rt: HostRuntime) -> Result<(), Fail> {
    for (ends, upto, a, b, places) in &LEADS {
        let found = led(&rt, rt.alloc(), ends, *upto, *a, *b)?.ok_or("apart")?;
        assert!(rt; found.as_slice() == *places, "{ends:?}: {found:?}");
    }
    Ok(())
}

#[test]
fn entries_do_not_lead_to_names_apart(rt: HostRuntime) -> Result<(), Fail> {
    for (ends, upto, a, b) in &APART {
        let found = led(&rt, rt.alloc(), ends, *upto, *a, *b)?;
        assert!(rt; found.is_none(), "{ends:?}");
    }
    Ok(())
}
