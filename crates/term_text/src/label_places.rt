//! A place for each label.

ghost use Rattle.std.specs.Prelude.{◌≡◌, ℕ, ◌==◌, None, Some, IfOk, OnOk, if◌then◌else◌};
ghost use Rattle.term_text.specs.Labels.{place_at};

use gk_base::NoMemory;
use std::alloc::Global;
use std::collections::HashMap;

/// For each label a place in a list, or none.
#[derive(Drop)]
pub struct LabelPlaces {
    /// At each label below some number.
    low: Vec<Option<u32>>,
    /// At the other labels.
    high: HashMap<u32, u32>,
}

impl LabelPlaces {
    /// No label has a place. Labels below this number will be looked up in an array, and the others by their hashes.
    pub fn new(alloc: Global, labels: usize) -> Result<LabelPlaces, NoMemory>
        ensures { IfOk result (λ places. (label : ℕ) → place_at places label ≡ None) }
    {
        Ok(LabelPlaces {
            low: vec![in alloc; None; labels]?,
            high: HashMap::new(alloc),
        })
    }

    /// The place of this label.
    pub fn place(&self, label: u32) -> Option<u32>
        ensures { result ≡ place_at self.now label }
    {
        let at = label as usize;
        if at < self.low.len() {
            self.low[at]
        } else {
            self.high.get(&label).copied()
        }
    }

    /// Gives this label a place, and answers the one that it had.
    pub fn replace(&mut self, label: u32, place: u32) -> Result<Option<u32>, NoMemory>
        ensures before { IfOk result (λ before. before ≡ place_at self.old label) }
        ensures places { OnOk result ((l : ℕ) → place_at self.new l ≡ if l == label then Some place else place_at self.old l) }
    {
        let before = self.place(label);
        let at = label as usize;
        if at < self.low.len() {
            self.low[at] = Some(place);
        } else {
            self.high.insert(label, place)?;
        }
        Ok(before)
    }
}
