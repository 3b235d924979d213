//! A graph and its look-ups.

use crate::{ENOUGH, FIT};
use fixtures::{GraphTable, TableStop, Unfit};
use gk_base::{NoMemory, Stop};
use std::alloc::Global;
use std::process::Abort;
use typed_graph::ascending::{above, holds};
use typed_graph::{Graph, Index};

/// Three rows, of which two are the same.
fn repeated() -> GraphTable<'static> {
    GraphTable {
        names: 4,
        rows: &[[0, 1, 3], [0, 1, 2], [0, 1, 2]],
        literals: &[2, 3],
        rdf_type: None,
        alike: &[],
    }
}

/// Its graph.
fn with_repeats(alloc: Global) -> Result<Graph, TableStop> {
    repeated().build(alloc)
}

#[test]
fn rows_are_sorted_and_each_is_kept_once(rt: HostRuntime) {
    let graph = with_repeats(rt.alloc()).expect(&rt, FIT);
    assert_eq!(rt; graph.rows(), [[0, 1, 2], [0, 1, 3]].as_slice());
    assert_eq!(rt; graph.names(), 4);
}

#[test]
fn rows_are_found_from_either_end(rt: HostRuntime) {
    let graph = with_repeats(rt.alloc()).expect(&rt, FIT);
    assert_eq!(rt; graph.outgoing(0, 1), [2, 3].as_slice());
    assert_eq!(rt; graph.incoming(2, 1), [0].as_slice());
}

#[test]
fn a_graph_without_types_has_entities(rt: HostRuntime) {
    let graph = with_repeats(rt.alloc()).expect(&rt, FIT);
    assert!(rt; !graph.is_entity(1) && graph.is_entity(0) && !graph.is_entity(2));
    assert!(rt; graph.with_type(1).is_empty() && !graph.has_type(0, 2));
}

/// Two entities of type 2 with two literals, which are alike.
fn typed() -> GraphTable<'static> {
    GraphTable {
        names: 7,
        rows: &[[3, 4, 6], [3, 1, 2], [0, 4, 5], [0, 1, 2]],
        literals: &[5, 6],
        rdf_type: Some(1),
        alike: &[(6, 5)],
    }
}

/// Whether nothing is said of a number that is no name.
fn is_no_name(graph: &Graph, n: u32) -> bool {
    graph.outgoing(n, 1).is_empty()
        && graph.outgoing(0, n).is_empty()
        && graph.incoming(n, 1).is_empty()
        && graph.with_type(n).is_empty()
        && !graph.has(n, 1, 2)
        && !graph.has_type(n, 2)
        && !graph.has_type(0, n)
        && !graph.is_entity(n)
        && !graph.is_literal(n)
}

/// The graph of `typed`.
fn with_types(alloc: Global) -> Result<Graph, TableStop> {
    typed().build(alloc)
}

#[test]
fn types_and_rows_are_those_of_the_table(rt: HostRuntime) {
    let graph = with_types(rt.alloc()).expect(&rt, FIT);
    assert_eq!(rt; graph.with_type(2), [0, 3].as_slice());
    assert!(rt; graph.has_type(3, 2) && !graph.has_type(2, 3) && !graph.has_type(5, 2));
    assert!(rt; graph.has(3, 4, 6) && !graph.has(3, 4, 5) && !graph.has(6, 4, 3));
}

#[test]
fn entities_and_literals_are_told_apart(rt: HostRuntime) {
    let graph = with_types(rt.alloc()).expect(&rt, FIT);
    assert!(rt;
        graph.is_entity(2) && !graph.is_entity(1) && !graph.is_entity(4) && !graph.is_entity(6)
    );
    assert!(rt; graph.is_literal(6) && !graph.is_literal(3));
}

#[test]
fn look_ups_answer_for_every_number(rt: HostRuntime) {
    let graph = with_types(rt.alloc()).expect(&rt, FIT);
    assert_eq!(rt; graph.names(), 7);
    assert_eq!(rt; graph.alike(6), 5);
    assert!(rt; is_no_name(&graph, 7) && is_no_name(&graph, 4_294_967_295));
}

/// A table that makes a graph.
const THREE: GraphTable<'static> = GraphTable {
    names: 3,
    rows: &[[0, 0, 1]],
    literals: &[1, 2],
    rdf_type: Some(2),
    alike: &[(2, 1)],
};

/// Tables that make none: a row, `rdf:type` or a literal that is no name, and a name that is alike to a later one, to
/// what is no literal, or to another though it is no literal.
static UNFIT: [GraphTable<'static>; 6] = [
    GraphTable {
        rows: &[[0, 0, 3]],
        ..THREE
    },
    GraphTable {
        rdf_type: Some(3),
        ..THREE
    },
    GraphTable {
        names: 2,
        rows: &[],
        rdf_type: None,
        alike: &[],
        ..THREE
    },
    GraphTable {
        alike: &[(1, 2)],
        ..THREE
    },
    GraphTable {
        alike: &[(1, 0)],
        ..THREE
    },
    GraphTable {
        names: 2,
        rows: &[],
        literals: &[],
        rdf_type: None,
        alike: &[(1, 0)],
    },
];

/// The tables that make a graph, and those that make none.
fn tables() -> (GraphTable<'static>, &'static [GraphTable<'static>]) {
    (THREE, &UNFIT)
}

/// Whether a table is unfit.
fn is_unfit(alloc: Global, table: &GraphTable<'_>) -> bool {
    match table.build(alloc) {
        Ok(_) => false,
        Err(stop) => stop == Stop::Fault(Unfit),
    }
}

#[test]
fn parts_that_make_no_graph_are_told(rt: HostRuntime) {
    let (fit, unfit) = tables();
    assert_eq!(rt; fit.build(rt.alloc()).expect(&rt, FIT).names(), 3);
    for (place, table) in unfit.iter().enumerate() {
        assert!(rt; is_unfit(rt.alloc(), table), "table {place}");
    }
}

/// An index of rows that begin with 0 and 2.
fn indexed(alloc: Global) -> Result<Index, NoMemory> {
    let rows = [[2, 9, 7], [0, 5, 8], [2, 9, 3], [2, 9, 7]];
    Ok(Index::build(alloc, rows.to_vec(alloc)?, 3)?)
}

#[test]
fn an_index_finds_rows_by_two_numbers(rt: HostRuntime) {
    let index = indexed(rt.alloc()).expect(&rt, ENOUGH);
    assert_eq!(rt; index.find(2, 9), [3, 7].as_slice());
    assert!(rt;
        index.find(2, 5).is_empty() && index.find(1, 9).is_empty() && index.find(3, 9).is_empty()
    );
    assert!(rt; index.begins(0) && !index.begins(1) && !index.begins(3));
}

#[test]
fn ascending_numbers_are_searched(rt: HostRuntime) {
    assert!(rt; holds(&[3, 7], 7) && !holds(&[3, 7], 5));
    assert_eq!(rt; above(&[3, 7, 9], 3), [7, 9].as_slice());
}
