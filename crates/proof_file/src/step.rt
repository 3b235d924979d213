//! Steps of a proof.

use crate::Support;
use gk_base::Text;
use std::marker::Model;

/// A step of a proof: the name of its key, for each slot of the key a term on either side, and what joins the two terms
/// at each entity variable but the first. Terms are numbers, counted from 0.
#[derive(Drop)]
pub struct ProofStep {
    pub key: Text,
    pub left: Vec<u32>,
    pub right: Vec<u32>,
    pub supports: Vec<Support>,
}

impl Model for ProofStep {
    ghost use Rattle.proof_file.specs.Steps.{StepNumbers};

    ghost Value = { StepNumbers };

    ghost view = { λ s. record { key = s.key; left = s.left.items; right = s.right.items; supports = s.supports.items } };
}
