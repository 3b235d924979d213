//! Tests of crews: what passes their gates, and what their chases come to. They stand in a crate of their own, since a
//! crate with tests is proved twice.
//!
//! - `graphs`: graphs in which each pair stands alone, or needs the one before it
//! - `crews`: the tests
#![tactic(auto)]

#[cfg(test)]
mod crews;
#[cfg(test)]
mod graphs;

/// What a test ends with where there is no memory for it.
#[cfg(test)]
const ENOUGH: &str = "enough memory";
