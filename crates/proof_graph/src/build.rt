//! The proof that a journal makes.

ghost use Rattle.std.specs.Prelude.{◌≡◌, ◌<◌, ◌≤◌, ◌+◌, ◌-◌, ◌^◌, true, IfOk, OnOk, All, Some, length, map, slice_index};
ghost use Rattle.chase_laws.specs.Shape.{is_entity};
ghost use Rattle.chase_laws.specs.Joined.{joined_by};
ghost use Rattle.term_table.specs.Numbering.{with_terms, AreDistinct};
ghost use Rattle.proof_file.specs.Steps.{step_terms, in_numbers, NoneTwiceInSupports};
ghost use Rattle.proof_file.specs.Tells.{AreSupported, TellsAll, supported_slots};
ghost use Rattle.proof_file.specs.TermNumbers.{NotesPlaces};
ghost use Rattle.proof_graph.specs.Built.{built_support, built_step, FitsPattern, IsJoinedAt};

use crate::Ways;
use chase_laws::{Entry, Pattern, Places, Slot, all_valid};
use gk_base::{NoMemory, Text};
use proof_file::{Proof, ProofStep, Support, TermNumbers};
use std::alloc::Global;
use term_table::Names;

/// How many steps a proof may have: steps are numbered from 1, by four bytes.
const MOST_STEPS: usize = 4294967295;

/// The numbers of the steps of entries with these places.
fn step_numbers(alloc: Global, places: &[u32]) -> Result<Vec<u32>, NoMemory>
    requires { All (λ p. p < 2 ^ 32 - 1) places.now }
    ensures { IfOk result (λ steps. steps.items ≡ map (λ p. p + 1) places.now) }
{
    let mut steps = Vec::with_capacity(alloc, places.len())?;
    for place in places {
        steps.push(*place + 1)?;
    }
    Ok(steps)
}

/// What joins the images of an entry at a slot.
fn support(alloc: Global, ways: &Ways<'_>, slot: usize, entry: &Entry) -> Result<Support, NoMemory>
    requires few { length ways.now < 2 ^ 32 }
    requires slot { slot < 256 }
    requires left { slot < length entry.now.left }
    requires right { slot < length entry.now.right }
    requires joined { joined_by ways.now (slice_index entry.now.left slot) (slice_index entry.now.right slot) ≡ true }
    ensures { IfOk result (λ s. s ≡ built_support ways.now entry.now slot) }
{
    let mut places = Vec::new(alloc);
    ways.put(
        alloc,
        entry.left.get(slot),
        entry.right.get(slot),
        &mut places,
    )?;
    Ok(Support {
        slot: slot as u8,
        steps: step_numbers(alloc, &places)?,
    })
}

/// Whether a slot is an entity variable.
fn is_entity(slot: Slot) -> bool
    ensures { result ≡ is_entity (Some slot) }
{
    matches!(slot, Slot::Entity(_))
}

/// What joins the images of an entry at each entity variable but the first.
fn supports(
    alloc: Global,
    ways: &Ways<'_>,
    slots: &[Slot],
    entry: &Entry,
) -> Result<Vec<Support>, NoMemory>
    requires few { length ways.now < 2 ^ 32 }
    requires few_slots { length slots.now ≤ 16 }
    requires left { length entry.now.left ≡ length slots.now }
    requires right { length entry.now.right ≡ length slots.now }
    requires joined { IsJoinedAt ways.now slots.now entry.now }
    ensures { IfOk result (λ supports. supports.items ≡ map (built_support ways.now entry.now) (supported_slots slots.now)) }
{
    let mut supports = Vec::new(alloc);
    for at in 1..slots.len() {
        if is_entity(slots[at]) {
            supports.push(support(alloc, ways, at, entry)?)?;
        }
    }
    Ok(supports)
}

/// The names of a side, as a list.
fn listed(alloc: Global, side: &Places) -> Result<Vec<u32>, NoMemory>
    ensures { IfOk result (λ names. names.items ≡ side.now) }
{
    let mut names = Vec::with_capacity(alloc, side.len())?;
    for at in 0..side.len() {
        names.push(side.get(at))?;
    }
    Ok(names)
}

/// The step of an entry whose key has this pattern and this name.
fn step(
    alloc: Global,
    ways: &Ways<'_>,
    names: &Names,
    numbers: &mut TermNumbers,
    pattern: &Pattern,
    key: &Text,
    entry: &Entry,
) -> Result<ProofStep, NoMemory>
    requires few { length ways.now < 2 ^ 32 }
    requires distinct { AreDistinct names.now }
    requires places { NotesPlaces names.now numbers.old.terms numbers.old.places.items }
    requires fits { FitsPattern (length names.now) ways.now pattern.now entry.now }
    ensures terms { OnOk result (numbers.new.terms ≡
        with_terms numbers.old.terms (step_terms (built_step names.now ways.now pattern.now key.now entry.now))) }
    ensures step { IfOk result (λ s. s ≡
        in_numbers numbers.new.terms (built_step names.now ways.now pattern.now key.now entry.now)) }
    ensures places { OnOk result (NotesPlaces names.now numbers.new.terms numbers.new.places.items) }
{
    let slots = pattern.slots();
    let left = numbers.numbers(alloc, names, &listed(alloc, &entry.left)?)?;
    let right = numbers.numbers(alloc, names, &listed(alloc, &entry.right)?)?;
    Ok(ProofStep {
        key: key.copy()?,
        left,
        right,
        supports: supports(alloc, ways, slots, entry)?,
    })
}

/// The proof that a journal makes: one step for each entry, in order, with the entry's terms, the name of its key, and what
/// joins its images at each entity variable but the first. Each entry must be supported by those before it, as in every
/// lean derivation, and each pattern must have the name of its key.
///
/// `NoMemory` comes also where there are more entries than can be numbered.
pub fn build_proof(
    alloc: Global,
    journal: &[Entry],
    names: &Names,
    patterns: &[Pattern],
    key_names: &[Text],
) -> Result<Proof, NoMemory>
    requires supported { AreSupported (length names.now) patterns.now journal.now }
    requires named { length key_names.now ≡ length patterns.now }
    ensures tells { IfOk result (λ proof. TellsAll names.now patterns.now key_names.now journal.now proof) }

    // No number stands twice in a support.
    ensures once { IfOk result (λ proof. NoneTwiceInSupports proof) }
{
    if journal.len() > MOST_STEPS {
        return Err(NoMemory);
    }
    all_valid(patterns);
    let _distinct = names.len();
    let ways = Ways::new(alloc, journal)?;
    let mut numbers = TermNumbers::new(alloc, names)?;
    let mut steps = Vec::with_capacity(alloc, journal.len())?;
    for entry in journal {
        let key = entry.key as usize;
        let made = step(
            alloc,
            &ways,
            names,
            &mut numbers,
            &patterns[key],
            &key_names[key],
            entry,
        )?;
        steps.push(made)?;
    }
    Ok(Proof {
        terms: numbers.terms,
        steps,
    })
}
