//! Which labels more than one name has.

ghost use Rattle.std.specs.Prelude.{◌≡◌, ℕ, IfOk, OnOk, ◌==◌, if◌then◌else◌};
ghost use Rattle.term_text.specs.Labels.{label_count, is_shared_in, one_more, CountsLabels};

use gk_base::NoMemory;
use std::alloc::Global;
use std::collections::HashMap;

/// How many names have each label, where two stands for any greater number.
#[derive(Drop)]
pub struct LabelCounts {
    /// At each label below the number of names.
    low: Vec<u8>,
    /// At the other labels.
    high: HashMap<u32, u8>,
}

impl LabelCounts {
    /// The counts of these labels. One pass; labels below their number are counted in an array.
    pub fn of_labels(alloc: Global, labels: &[u32]) -> Result<LabelCounts, NoMemory>
        ensures { IfOk result (λ c. CountsLabels c labels.now) }
    {
        let mut counts = LabelCounts {
            low: vec![in alloc; 0; labels.len()]?,
            high: HashMap::new(alloc),
        };
        for label in labels {
            counts.add(*label)?;
        }
        Ok(counts)
    }

    /// Whether two or more names have this label.
    pub fn is_shared(&self, label: u32) -> bool
        ensures { result ≡ is_shared_in self.now label }
    {
        self.count(label) > 1
    }

    fn count(&self, label: u32) -> u8
        ensures { result ≡ label_count self.now label }
    {
        let place = label as usize;
        if place < self.low.len() {
            self.low[place]
        } else {
            self.high.get(&label).copied().unwrap_or(0)
        }
    }

    fn add(&mut self, label: u32) -> Result<(), NoMemory>
        ensures { OnOk result ((l : ℕ) → label_count self.new l
            ≡ if l == label then one_more (label_count self.old l) else label_count self.old l) }
    {
        let count = self.count(label);
        if count > 1 {
            return Ok(());
        }
        let place = label as usize;
        if place < self.low.len() {
            self.low[place] = count + 1;
        } else {
            self.high.insert(label, count + 1)?;
        }
        Ok(())
    }
}
