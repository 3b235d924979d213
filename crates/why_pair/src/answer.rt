//! Why two names are the same.

use proof_file::Proof;

/// Why two names are the same: a proof, and the numbers of those of its steps that lead from the one name to the other, in
/// order. Steps are numbered from 1.
#[derive(Drop)]
pub struct Why {
    pub proof: Proof,
    pub goal: Vec<u32>,
}
