//! Tests of `why_pair`. They stand here and not in that crate, since a crate with tests is proved twice.
//!
//! - `supported`: whether a proof can be made of a journal
//! - `worked_journals`: journals, with their names and keys
//! - `pairs`: what is answered for pairs
#![tactic(auto)]

#[cfg(test)]
mod pairs;
pub mod supported;
#[cfg(test)]
mod worked_journals;
