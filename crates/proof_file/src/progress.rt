//! A proof file as far as it was read.

use crate::ProofStep;
use crate::stage::Stage;
use crate::version::Version;

/// What has come of a proof file. Its terms are kept apart, and stand here by their numbers.
#[derive(Drop)]
pub struct Known {
    pub version: Version,
    /// The terms that the file lists.
    pub listed: Vec<u32>,
    /// The steps that are done.
    pub steps: Vec<ProofStep>,
}

/// A proof file as far as it was read: what has come of it, and what may come next.
#[derive(Drop)]
pub struct Progress {
    pub known: Known,
    pub stage: Stage,
}
