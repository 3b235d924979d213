//! Proofs.

use crate::ProofStep;
use std::marker::Model;
use term_list::Terms;

/// A proof: its terms, each once, and its steps, which have the terms by their numbers. Contracts see it as the list of the
/// steps, each with its terms.
///
/// The type keeps that `terms` are the distinct terms of the steps by first occurrence, each step's left ones before its
/// right ones, and no other, and that the numbers of the steps are places among them.
#[derive(Drop)]
pub struct Proof {
    pub terms: Terms,
    pub steps: Vec<ProofStep>,
}

impl Model for Proof {
    ghost use Rattle.std.specs.Prelude.{List, map};
    ghost use Rattle.proof_file.specs.Steps.{StepShape, step_with, IsProof};

    ghost Value = { List StepShape };

    ghost view = { λ p. map (step_with p.terms) p.steps.items };

    ghost invariant = { λ p. IsProof p.terms p.steps.items };
}
