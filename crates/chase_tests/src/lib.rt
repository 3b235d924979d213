//! Tests of lists, books of classes, chases and whole matches, over the graphs and patterns of `fixtures`. They stand in a
//! crate of their own, since a crate with tests is proved twice.
//!
//! - `lists`: lists of cells
//! - `books`: a book of classes
//! - `hands`: pairs in hand, and steps with them
//! - `narrowed`: pairs for which some of the keys are searched
//! - `plays`: chases that are played step by step, with two pairs in hand at once
//! - `wakings`: chases whose entries wake some Missed pairs and leave others
//! - `wholes`: whole matches
#![tactic(auto)]

#[cfg(test)]
mod books;
#[cfg(test)]
mod hands;
#[cfg(test)]
mod lists;
#[cfg(test)]
mod narrowed;
#[cfg(test)]
mod plays;
#[cfg(test)]
mod wakings;
#[cfg(test)]
mod wholes;

/// What a test ends with where there is no memory for it.
#[cfg(test)]
const ENOUGH: &str = "enough memory";
