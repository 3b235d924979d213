//! Whether the terms of steps come in the order of their numbers.

ghost use Rattle.std.specs.Prelude.{◌≡◌, ◌<◌, ◌+◌, ◌⊎◌, List, IsTrue, IfSome, length, map};
ghost use Rattle.gk_base.specs.declared.term.Term.{Term};
ghost use Rattle.term_table.specs.Numbering.{AreDistinct, names_of};
ghost use Rattle.proof_file.specs.Steps.{term_at, step_terms, steps_terms, step_with};
ghost use Rattle.proof_file.specs.InOrder.{ComeInOrder};

use crate::ProofStep;

/// How many terms have come after this one, where so many had before. A new one has the least number that had not come.
fn after_number(come: usize, number: u32) -> Option<usize>
    ensures { IfSome result (λ more. ((number < come) × (more ≡ come)) ⊎ ((number ≡ come) × (more ≡ come + 1))) }
{
    let number = number as usize;
    if number > come {
        return None;
    }
    if number == come {
        return Some(number + 1);
    }
    Some(come)
}

/// How many terms have come after those of a side.
fn after_side(come: usize, side: &[u32]) -> Option<usize>
    ensures { IfSome result (λ more. ComeInOrder come more (λ terms. map (term_at terms) side.now)) }
{
    let mut more = come;
    for number in side {
        match after_number(more, *number) {
            Some(next) => more = next,
            None => return None,
        }
    }
    Some(more)
}

/// How many terms have come after those of a step.
fn after_step(come: usize, step: &ProofStep) -> Option<usize>
    ensures { IfSome result (λ more. ComeInOrder come more (λ terms. step_terms (step_with terms step.now))) }
{
    match after_side(come, &step.left) {
        Some(more) => after_side(more, &step.right),
        None => None,
    }
}

/// Whether the terms of steps come in the order of their numbers, and are so many.
pub(crate) fn come_in_order(count: usize, steps: &[ProofStep]) -> bool
    ensures { IsTrue result → (terms : List Term) → AreDistinct terms → length terms ≡ count →
        terms ≡ names_of (steps_terms (map (step_with terms) steps.now)) }
{
    let mut come = 0;
    for step in steps {
        match after_step(come, step) {
            Some(more) => come = more,
            None => return false,
        }
    }
    come == count
}
