//! Tests of the two ways in which a graph is chased: valuations listed by threads and under a ceiling, and both ways over
//! graphs by chance. They stand in a crate of their own, since a crate with tests is proved twice.
//!
//! - `sharers`: a graph of any size
//! - `listings`: valuations listed
//! - `chances`: graphs by chance
//! - `ways`: both ways
#![tactic(auto)]

#[cfg(test)]
mod chances;
#[cfg(test)]
mod listings;
#[cfg(test)]
mod sharers;
#[cfg(test)]
mod ways;

/// What a test ends with where there is no memory for it.
#[cfg(test)]
const ENOUGH: &str = "enough memory";
