//! Tests of `demo_graph`. They stand here and not there, since a crate with tests is proved twice.
//!
//! - `texts`: the graph and the keys
//! - `counts`: how many classes labels make, the line with all counts, and the number that a word spells
#![tactic(auto)]

#[cfg(test)]
mod counts;
#[cfg(test)]
mod texts;
