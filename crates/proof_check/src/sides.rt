//! The sides of a step by the numbers of the graph's names.

ghost use Rattle.std.specs.Prelude.{◌≡◌, ◌<◌, [], All, OnOk, length, map, slice_index};
ghost use Rattle.proof_file.specs.Steps.{IsNumberedBelow};

use gk_base::NoMemory;
use proof_file::ProofStep;
use std::alloc::Global;

/// The numbers of a step's terms, for either side. One such is filled for each step anew, so that memory is asked for only where
/// a step is longer than all before it.
#[derive(Drop)]
pub(crate) struct Sides {
    pub(crate) left: Vec<u32>,
    pub(crate) right: Vec<u32>,
}

/// Puts the numbers that stand at these places in the place of what was there.
fn fill_side(numbers: &[u32], places: &[u32], side: &mut Vec<u32>) -> Result<(), NoMemory>
    requires { All (λ place. place < length numbers.now) places.now }
    ensures { OnOk result (side.new.items ≡ map (slice_index numbers.now) places.now) }
{
    side.clear();
    for place in places {
        side.push(numbers[*place as usize])?;
    }
    Ok(())
}

impl Sides {
    /// No numbers on either side. It takes no memory.
    pub(crate) fn new(alloc: Global) -> Sides
        ensures left { result.left.items ≡ [] }
        ensures right { result.right.items ≡ [] }
    {
        Sides {
            left: Vec::new(alloc),
            right: Vec::new(alloc),
        }
    }

    /// Makes them those of a step, where the numbers of the proof's terms are these.
    pub(crate) fn fill(&mut self, numbers: &[u32], step: &ProofStep) -> Result<(), NoMemory>
        requires { IsNumberedBelow (length numbers.now) step.now }
        ensures left { OnOk result (self.new.left.items ≡ map (slice_index numbers.now) step.now.left) }
        ensures right { OnOk result (self.new.right.items ≡ map (slice_index numbers.now) step.now.right) }
    {
        fill_side(numbers, &step.left, &mut self.left)?;
        fill_side(numbers, &step.right, &mut self.right)
    }
}
