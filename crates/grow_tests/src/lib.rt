//! Tests of growth: what is identified over a graph and over the graph with more rows, and how often a search is made for
//! it. They stand in a crate of their own, since a crate with tests is proved twice.
//!
//! - `graphs`: a graph, and the graph with more rows
//! - `cases`: graphs that grow, and what has to come of them
//! - `counting`: a gate that counts
//! - `alike`: journals and labels, compared
//! - `growths`: the tests
//! - `ways`: growth in both ways
#![tactic(auto)]

#[cfg(test)]
mod alike;
#[cfg(test)]
mod cases;
#[cfg(test)]
mod counting;
#[cfg(test)]
mod graphs;
#[cfg(test)]
mod growths;
#[cfg(test)]
mod ways;
