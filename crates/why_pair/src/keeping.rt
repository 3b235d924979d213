//! What is kept of a journal.

ghost use Rattle.std.specs.Prelude.{◌≡◌, ◌<◌, ◌^◌, ◌++◌, ◌∷◌, [], IfOk, OnOk, OnErr, All, length, map, if◌then◌else◌};
ghost use Rattle.why_pair.specs.Kept.{kept_by};
ghost use Rattle.why_pair.specs.Relinked.{places_from, step_number, HasPlaces};

use chase_laws::Entry;
use gk_base::NoMemory;
use std::alloc::Global;

/// Puts an entry at the end, where it has the mark.
fn keep(kept: &mut Vec<Entry>, entry: &Entry, marked: bool) -> Result<(), NoMemory>
    ensures ok { OnOk result (kept.new.items ≡ kept.old.items ++ (if marked then entry.now ∷ [] else [])) }
    ensures err { OnErr result (kept.new.items ≡ kept.old.items) }
{
    if marked {
        kept.push(*entry)?;
    }
    Ok(())
}

/// The entries that have the mark, in their order.
pub(crate) fn kept(alloc: Global, journal: &[Entry], marks: &[bool]) -> Result<Vec<Entry>, NoMemory>
    requires { length marks.now ≡ length journal.now }
    ensures { IfOk result (λ kept. kept.items ≡ kept_by marks.now journal.now) }
{
    let mut kept = Vec::new(alloc);
    for at in 0..journal.len() {
        keep(&mut kept, &journal[at], marks[at])?;
    }
    Ok(kept)
}

/// For each entry how many before it have the mark: its place among them, where it has the mark itself.
pub(crate) fn places_kept(alloc: Global, marks: &[bool]) -> Result<Vec<u32>, NoMemory>
    requires { length marks.now < 2 ^ 32 }
    ensures { IfOk result (λ places. places.items ≡ places_from 0 marks.now) }
{
    let mut places = Vec::with_capacity(alloc, marks.len())?;
    let mut next = 0;
    for marked in marks {
        places.push(next)?;
        if *marked {
            next += 1;
        }
    }
    Ok(places)
}

/// The numbers of the steps of the entries at these places of the journal. Steps are numbered from 1.
pub(crate) fn step_numbers(
    alloc: Global,
    kept: &[u32],
    places: &[u32],
) -> Result<Vec<u32>, NoMemory>
    requires kept { HasPlaces (length kept.now) kept.now }
    requires inside { All (λ p. p < length kept.now) places.now }
    ensures { IfOk result (λ steps. steps.items ≡ map (step_number kept.now) places.now) }
{
    let mut steps = Vec::with_capacity(alloc, places.len())?;
    for place in places {
        steps.push(kept[*place as usize] + 1)?;
    }
    Ok(steps)
}
