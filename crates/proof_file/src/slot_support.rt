//! What joins the two terms of a step at a slot.

use std::marker::Model;

/// What joins the two terms of a step at one of its key's slots: the numbers of earlier steps, which lead from the left
/// term to the right one. Steps are numbered from 1.
#[derive(Drop)]
pub struct Support {
    pub slot: u8,
    pub steps: Vec<u32>,
}

impl Model for Support {
    ghost use Rattle.proof_file.specs.Steps.{SupportShape};

    ghost Value = { SupportShape };

    ghost view = { λ s. record { slot = s.slot; steps = s.steps.items } };
}
