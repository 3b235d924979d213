//! Tests of graphs, plans, near lists, searches and candidate pairs with their filter, over the graphs and patterns of `fixtures`. They stand
//! in a crate of their own, since a crate with tests is proved twice.
//!
//! - `filtering`: which candidate pairs a filter keeps
//! - `graphs`: a graph and its look-ups
//! - `nearness`: what is near to what
//! - `plans`: in which order a search goes through slots
//! - `searching`: what a search with a view finds
//! - `seeding`: which pairs are candidates
#![tactic(auto)]

#[cfg(test)]
mod filtering;
#[cfg(test)]
mod graphs;
#[cfg(test)]
mod nearness;
#[cfg(test)]
mod plans;
#[cfg(test)]
mod searching;
#[cfg(test)]
mod seeding;

/// What a test ends with where there is no memory for it.
#[cfg(test)]
const ENOUGH: &str = "enough memory";

/// What a test ends with where a table makes no graph or no pattern.
#[cfg(test)]
const FIT: &str = "a table that fits";
