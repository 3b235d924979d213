//! Tests of proofs: `proof_file`, `proof_graph` and `proof_check`. They stand here and not in those crates, since a crate with tests is proved
//! twice.
//!
//! - `files`: what is read from proof files, and what is written
//! - `judged`: what the checker says
//! - `journals`: which entries of a journal lead from one name to another
#![tactic(auto)]

#[cfg(test)]
mod files;
#[cfg(test)]
mod journals;
#[cfg(test)]
mod judged;
