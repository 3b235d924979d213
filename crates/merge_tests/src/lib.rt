//! Tests of `merge_graph`, on graphs as files of N-Triples. They stand here and not in that crate, since a crate with tests is
//! proved twice.
//!
//! - `merged`: graphs, the labels of their names, and the merged graphs
#![tactic(auto)]

#[cfg(test)]
mod merged;
