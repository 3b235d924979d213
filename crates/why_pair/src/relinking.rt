//! The supports of a proof, anew: each with the entries that are on the way along the whole journal, and no others.

ghost use Rattle.std.specs.Prelude.{◌≡◌, ℕ, true, Some, IfOk, All, length, map, slice_get};
ghost use Rattle.chase_laws.specs.Joined.{joined_by, links};
ghost use Rattle.chase_laws.specs.declared.entry.Entry.{Entry};
ghost use Rattle.proof_graph.specs.Way.{way};
ghost use Rattle.proof_file.specs.Steps.{StepShape};
ghost use Rattle.why_pair.specs.Relinked.{step_number, HasPlaces, IsLinked, relinked, relinked_numbers, relinked_step, with_each};

use crate::keeping::step_numbers;
use chase_laws::Entry;
use gk_base::NoMemory;
use proof_file::{Proof, ProofStep, Support};
use proof_graph::Ways;
use std::alloc::Global;

/// The numbers of the steps on the way between two joined names, where the entries have these places among those that are
/// kept.
fn steps_between(
    alloc: Global,
    ways: &Ways<'_>,
    kept: &[u32],
    a: u32,
    b: u32,
) -> Result<Vec<u32>, NoMemory>
    requires kept { HasPlaces (length ways.now) kept.now }
    requires joined { joined_by ways.now a b ≡ true }
    ensures { IfOk result (λ steps. steps.items ≡ map (step_number kept.now) (way (links ways.now) (length ways.now) a b)) }
{
    let mut places = Vec::new(alloc);
    ways.put(alloc, a, b, &mut places)?;
    step_numbers(alloc, kept, &places)
}

/// The supports of an entry's step anew.
fn relinked_supports(
    alloc: Global,
    ways: &Ways<'_>,
    kept: &[u32],
    entry: &Entry,
    supports: &[Support],
) -> Result<Vec<Support>, NoMemory>
    requires kept { HasPlaces (length ways.now) kept.now }
    requires linked { All (IsLinked ways.now entry.now) supports.now }
    ensures { IfOk result (λ made. made.items ≡ map (relinked ways.now kept.now entry.now) supports.now) }
{
    let mut made = Vec::with_capacity(alloc, supports.len())?;
    for support in supports {
        let slot = support.slot;
        let a = entry.left.get(slot as usize);
        let b = entry.right.get(slot as usize);
        let steps = steps_between(alloc, ways, kept, a, b)?;
        made.push(Support { slot, steps })?;
    }
    Ok(made)
}

/// An entry's step with its supports anew.
fn relinked_step(
    alloc: Global,
    ways: &Ways<'_>,
    kept: &[u32],
    entry: &Entry,
    step: ProofStep,
) -> Result<ProofStep, NoMemory>
    requires kept { HasPlaces (length ways.now) kept.now }
    requires linked { All (IsLinked ways.now entry.now) step.supports }
    ensures { IfOk result (λ made. made ≡ relinked_numbers ways.now kept.now entry.now step) }
{
    let ProofStep {
        key,
        left,
        right,
        supports,
    } = step;
    let supports = relinked_supports(alloc, ways, kept, entry, &supports)?;
    Ok(ProofStep {
        key,
        left,
        right,
        supports,
    })
}

/// The proof with the supports of each entry's step anew.
pub(crate) fn relink(
    alloc: Global,
    ways: &Ways<'_>,
    kept: &[u32],
    entries: &[Entry],
    proof: Proof,
) -> Result<Proof, NoMemory>
    requires kept { HasPlaces (length ways.now) kept.now }
    requires one_each { length proof ≡ length entries.now }
    requires linked { (k : ℕ) (e : Entry) (step : StepShape) → slice_get entries.now k ≡ Some e → slice_get proof k ≡ Some step → All (IsLinked ways.now e) step.supports }
    ensures { IfOk result (λ made. made ≡ with_each (relinked_step ways.now kept.now) entries.now proof) }
{
    let Proof { terms, steps } = proof;
    let mut made = Vec::with_capacity(alloc, steps.len())?;
    let mut at = 0;
    for step in steps {
        made.push(relinked_step(alloc, ways, kept, &entries[at], step)?)?;
        at += 1;
    }
    Ok(Proof { terms, steps: made })
}
