//! Tests of the label board. They stand in a crate of their own, since a crate with tests is proved twice.
//!
//! - `posts`: entries that are posted, for the tests
//! - `boards`: the tests
#![tactic(auto)]

#[cfg(test)]
mod boards;
#[cfg(test)]
mod posts;
