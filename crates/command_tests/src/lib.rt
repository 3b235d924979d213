//! Tests of the commands `merge`, `why` and `grow`: whole runs of `gkey_cmd` over files in memory. They stand in a crate of
//! their own, since a crate with tests is proved twice.
//!
//! - `runs`: a run, and what it is to leave
//! - `merges`: merged graphs
//! - `reasons`: proofs for two entities, and why there is none
//! - `grows`: graphs that grow
#![tactic(auto)]

#[cfg(test)]
mod grows;
#[cfg(test)]
mod merges;
#[cfg(test)]
mod reasons;
#[cfg(test)]
mod runs;
