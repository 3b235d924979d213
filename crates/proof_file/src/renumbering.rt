//! The proof of steps whose terms have the numbers of a list.

ghost use Rattle.std.specs.Prelude.{◌≡◌, ◌<◌, ℕ, IsTrue, IfOk, OnOk, All, length, map, slice_index};
ghost use Rattle.term_table.specs.Numbering.{with_terms, AreDistinct};
ghost use Rattle.proof_file.specs.Steps.{step_terms, step_with, in_numbers, IsNumberedBelow};
ghost use Rattle.proof_file.specs.TermNumbers.{NotesPlaces, by_numbers};

use crate::in_order::come_in_order;
use crate::term_numbers::{MOST_TERMS, TermNumbers};
use crate::{Proof, ProofStep};
use gk_base::NoMemory;
use std::alloc::Global;
use term_list::Terms;
use term_table::Names;

/// Whether each number is that of its own place.
fn are_own_places(numbers: &[u32]) -> bool
    ensures { IsTrue result → (i : ℕ) → i < length numbers.now → slice_index numbers.now i ≡ i }
{
    for place in 0..numbers.len() {
        if numbers[place] as usize != place {
            return false;
        }
    }
    true
}

/// For the numbers of a side others.
fn side_by(alloc: Global, numbers: &[u32], side: &[u32]) -> Result<Vec<u32>, NoMemory>
    requires { All (λ n. n < length numbers.now) side.now }
    ensures { IfOk result (λ others. others.items ≡ map (slice_index numbers.now) side.now) }
{
    let mut others = Vec::with_capacity(alloc, side.len())?;
    for number in side {
        others.push(numbers[*number as usize])?;
    }
    Ok(others)
}

/// The step with other numbers for those of its terms.
fn step_by(alloc: Global, numbers: &[u32], step: ProofStep) -> Result<ProofStep, NoMemory>
    requires { IsNumberedBelow (length numbers.now) step }
    ensures { IfOk result (λ s. s ≡ by_numbers numbers.now step) }
{
    let ProofStep {
        key,
        left,
        right,
        supports,
    } = step;
    let left = side_by(alloc, numbers, &left)?;
    let right = side_by(alloc, numbers, &right)?;
    Ok(ProofStep {
        key,
        left,
        right,
        supports,
    })
}

/// The step with the numbers that its terms have in a proof.
fn renumbered_step(
    alloc: Global,
    names: &Names,
    numbers: &mut TermNumbers,
    step: ProofStep,
) -> Result<ProofStep, NoMemory>
    requires places { NotesPlaces names.now numbers.old.terms numbers.old.places.items }
    requires below { IsNumberedBelow (length names.now) step }
    requires distinct { AreDistinct names.now }
    ensures terms { OnOk result (numbers.new.terms ≡
        with_terms numbers.old.terms (step_terms (step_with names.now step))) }
    ensures step { IfOk result (λ s. s ≡ in_numbers numbers.new.terms (step_with names.now step)) }
    ensures places { OnOk result (NotesPlaces names.now numbers.new.terms numbers.new.places.items) }
{
    let ProofStep {
        key,
        left,
        right,
        supports,
    } = step;
    let left = numbers.numbers(alloc, names, &left)?;
    let right = numbers.numbers(alloc, names, &right)?;
    Ok(ProofStep {
        key,
        left,
        right,
        supports,
    })
}

/// The proof of these steps, whose terms are the names that these numbers give for their own.
fn renumbered(
    alloc: Global,
    names: &Names,
    numbers: &[u32],
    steps: Vec<ProofStep>,
) -> Result<Proof, NoMemory>
    requires below { All (IsNumberedBelow (length numbers.now)) steps.items }
    requires named { All (IsNumberedBelow (length names.now)) (map (by_numbers numbers.now) steps.items) }
    ensures { IfOk result (λ proof. proof ≡ map (step_with names.now) (map (by_numbers numbers.now) steps.items)) }
{
    let _distinct = names.len();
    let mut places = TermNumbers::new(alloc, names)?;
    let mut made = Vec::with_capacity(alloc, steps.len())?;
    for step in steps {
        let named = step_by(alloc, numbers, step)?;
        made.push(renumbered_step(alloc, names, &mut places, named)?)?;
    }
    Ok(Proof {
        terms: places.terms,
        steps: made,
    })
}

/// The proof of these steps, whose terms have the numbers of this list. Where the list has each term once, in the order in
/// which the steps come to them, it is kept as it is.
pub(crate) fn proof_of_steps(
    alloc: Global,
    terms: Terms,
    steps: Vec<ProofStep>,
) -> Result<Proof, NoMemory>
    requires { All (IsNumberedBelow (length terms)) steps.items }
    ensures { IfOk result (λ proof. proof ≡ map (step_with terms) steps.items) }
{
    let count = terms.len();
    if count > MOST_TERMS {
        return Err(NoMemory);
    }
    let mut names = Names::new(alloc);
    names.expect(count as u32);
    let numbers = names.intern_all(&terms)?;
    if are_own_places(&numbers) && come_in_order(count, &steps) {
        return Ok(Proof { terms, steps });
    }
    renumbered(alloc, &names, &numbers, steps)
}
