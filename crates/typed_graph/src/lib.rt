//! A graph in numbers, with indexes for every look-up that matching makes. `Graph` holds the rows in order, and two
//! sorted copies of them with offsets, one by subject and predicate and one by object and predicate, so that a look-up
//! is a slice of one array and takes no memory. Contracts see a `Graph` as the graph of the definitions, and each
//! look-up says which rows it answers by, for every number.
//!
//! - `graph`: the graph and its look-ups
//! - `index`: one sorted order of rows
//! - `ascending`: look-ups in ascending numbers
//! - `orders`: the two orders of the rows, one after the other or at once
//! - `rows`: lists of rows
//! - `types`: what is kept of each name's types
#![tactic(auto)]

pub mod ascending;
mod graph;
mod index;
mod orders;
mod rows;
mod types;

pub use graph::Graph;
pub use index::Index;
