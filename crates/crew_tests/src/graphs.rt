//! Graphs of so many pairs of names of type 1. Both names of a pair have one literal under 2, which no other has.

use crate::ENOUGH;
use chase_laws::Slot;
use fixtures::{GraphTable, PatternTable, patterns_of};
use match_run::{Prepared, prepare_graph};
use std::alloc::{AllocError, Global};
use std::process::Abort;
use std::thread::Threads;

/// How the pairs stand to one another.
#[derive(Clone, Copy)]
pub enum Kind {
    /// Each has its literal under 4 too, by which its names are found to be the same.
    Alone,
    /// Only the last has, and each other leads to the next under 3 and needs that to be the same.
    Chain,
}

// One literal under 4, or one under 2 and what is the same under 3.
static KEYS: [PatternTable<'static>; 2] = [
    PatternTable {
        slots: &[Slot::Entity(1), Slot::Value],
        edges: &[(0, 4, 1)],
    },
    PatternTable {
        slots: &[Slot::Entity(1), Slot::Entity(1), Slot::Value],
        edges: &[(0, 2, 2), (0, 3, 1)],
    },
];

/// The rows of a name with its pair's literal.
fn push_name(
    rows: &mut Vec<[u32; 3]>,
    name: u32,
    literal: u32,
    ends: bool,
) -> Result<(), AllocError> {
    let last = if ends {
        [name, 4, literal]
    } else {
        [name, 3, name.wrapping_add(3)]
    };
    rows.push([name, 0, 1])?;
    rows.push([name, 2, literal])?;
    rows.push(last)?;
    Ok(())
}

/// The rows of a pair, whose names are `first` and the next number, with its literal after them.
fn push_pair(rows: &mut Vec<[u32; 3]>, first: u32, ends: bool) -> Result<(), AllocError> {
    let literal = first.wrapping_add(2);
    push_name(rows, first, literal, ends)?;
    push_name(rows, first.wrapping_add(1), literal, ends)
}

/// Rows, their literals, and the number after the last name.
#[derive(Drop)]
struct Table {
    rows: Vec<[u32; 3]>,
    literals: Vec<u32>,
    names: u32,
}

/// So many pairs of this kind.
fn table_of(alloc: Global, kind: Kind, count: u32) -> Result<Table, AllocError> {
    let mut rows = Vec::new(alloc);
    let mut literals = Vec::new(alloc);
    let mut names = 5u32;
    for i in 0..count {
        let ends = match kind {
            Kind::Alone => true,
            Kind::Chain => i == count - 1,
        };
        push_pair(&mut rows, names, ends)?;
        literals.push(names.wrapping_add(2))?;
        names = names.wrapping_add(3);
    }
    Ok(Table {
        rows,
        literals,
        names,
    })
}

// The keys, behind a function, so that proofs do not see them.
fn keys() -> &'static [PatternTable<'static>] {
    &KEYS
}

/// A graph of this kind, prepared for a chase.
pub fn prepared<R: Threads + Sync + Abort>(
    rt: &R,
    alloc: Global,
    kind: Kind,
    count: u32,
) -> Prepared {
    let made = table_of(alloc, kind, count).expect(rt, ENOUGH);
    let table = GraphTable {
        names: made.names,
        rows: &made.rows,
        literals: &made.literals,
        rdf_type: Some(0),
        alike: &[],
    };
    let made = match (table.build(alloc), patterns_of(alloc, keys())) {
        (Ok(graph), Ok(keys)) => prepare_graph(rt, alloc, 4, graph, keys, 1_000_000),
        _ => panic!(rt; "no graph and keys"),
    };
    match made {
        Ok(prepared) => prepared,
        Err(_) => panic!(rt; "not prepared"),
    }
}
