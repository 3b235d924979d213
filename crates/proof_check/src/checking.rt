//! The verdict on the steps of a proof.

ghost use Rattle.std.specs.Prelude.{◌≡◌, ◌<◌, ◌^◌, [], IfOk, All, length, map, slice_index};
ghost use Rattle.proof_file.specs.Steps.{IsNumberedBelow};
ghost use Rattle.proof_check.specs.Verdict.{key_place};
ghost use Rattle.proof_check.specs.Ready.{reason_with, renumbered, verdict_with, with_sides};

use crate::checker::Checker;
use crate::judging::least_reason;
use crate::reason::Reason;
use crate::sides::Sides;
use crate::verdict::Verdict;
use gk_base::{NoMemory, Text};
use key_file::KeyDef;
use proof_file::ProofStep;
use std::alloc::Global;

/// The place of the first key with this name, or how many keys there are.
fn key_place(keys: &[KeyDef], name: &Text) -> usize
    ensures { result ≡ key_place keys.now name.now }
{
    for (place, key) in keys.iter().enumerate() {
        if key.name == *name {
            return place;
        }
    }
    keys.len()
}

/// The least reason against a step with these sides, where the earlier steps have these ends.
fn judge(
    alloc: Global,
    checker: &Checker,
    keys: &[KeyDef],
    step: &ProofStep,
    sides: &Sides,
    ends: &[(u32, u32)],
) -> Result<Option<Reason>, NoMemory>
    requires left { All (λ n. n < length checker.now.names) sides.now.left.items }
    requires right { All (λ n. n < length checker.now.names) sides.now.right.items }
    ensures { IfOk result (λ reason. reason ≡ reason_with checker.now keys.now ends.now (with_sides step.now sides.now)) }
{
    match checker.patterns.get(key_place(keys, &step.key)) {
        Some(pattern) => least_reason(alloc, checker, pattern, step, sides, ends),
        None => Ok(Some(Reason::UnknownKey)),
    }
}

/// The first number of a side, or 0.
fn first(side: &[u32]) -> u32
    ensures { result ≡ slice_index side.now 0 }
{
    if side.is_empty() { 0 } else { side[0] }
}

/// The verdict on steps, of whose terms these are the numbers.
pub(crate) fn judge_all(
    alloc: Global,
    checker: &Checker,
    keys: &[KeyDef],
    numbers: &[u32],
    steps: &[ProofStep],
) -> Result<Verdict, NoMemory>
    requires named { All (λ n. n < length checker.now.names) numbers.now }
    requires inside { All (IsNumberedBelow (length numbers.now)) steps.now }
    requires few { length steps.now < 2 ^ 32 }
    ensures { IfOk result (λ v. v ≡ verdict_with checker.now keys.now [] (map (renumbered numbers.now) steps.now)) }
{
    let mut sides = Sides::new(alloc);
    let mut ends = Vec::with_capacity(alloc, steps.len())?;
    for step in steps {
        sides.fill(numbers, step)?;
        if let Some(reason) = judge(alloc, checker, keys, step, &sides, &ends)? {
            return Ok(Verdict::Rejected {
                step: ends.len() as u32 + 1,
                reason,
            });
        }
        ends.push((first(&sides.left), first(&sides.right)))?;
    }
    Ok(Verdict::Accepted {
        steps: ends.len() as u32,
    })
}
