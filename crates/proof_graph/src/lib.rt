//! Proofs of journals. The journal of a chase says how names came to be the same. Between two names that it joins there is one
//! way along its entries, which is found without a search, and from such ways the proof is made that a journal makes.
//!
//! - `build`: the proof that a journal makes
//! - `trees`: names in trees, by which it is seen which entries of a journal join them
//! - `meeting`: where two names come together in the trees
//! - `parts`: the way between two names, part by part
//! - `ways`: the ways along a journal
//! - `supports`: the way between two names of a journal
#![tactic(auto)]

mod build;
mod meeting;
mod parts;
pub mod supports;
mod trees;
mod ways;

pub use build::build_proof;
pub use ways::Ways;
