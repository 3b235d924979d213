//! From a label to the face of the names that have it.

ghost use Rattle.std.specs.Prelude.{◌≡◌, ℕ, IfOk, OnOk, ◌==◌, None, Some, if◌then◌else◌};
ghost use Rattle.merge_graph.specs.Faces.{kept_face};

use gk_base::NoMemory;
use std::alloc::Global;
use std::collections::HashMap;

/// For each label a name, its face, or none so far.
#[derive(Drop)]
pub struct FaceTable {
    /// At each label below the number of names.
    low: Vec<Option<u32>>,
    /// At the other labels.
    high: HashMap<u32, u32>,
}

impl FaceTable {
    /// A table without faces. Labels below the number of names are kept in an array.
    pub fn new(alloc: Global, names: usize) -> Result<FaceTable, NoMemory>
        ensures { IfOk result (λ t. (label : ℕ) → kept_face t label ≡ None) }
    {
        Ok(FaceTable {
            low: vec![in alloc; None; names]?,
            high: HashMap::new(alloc),
        })
    }

    /// The face that is kept for a label.
    pub fn face(&self, label: u32) -> Option<u32>
        ensures { result ≡ kept_face self.now label }
    {
        let place = label as usize;
        if place < self.low.len() {
            self.low[place]
        } else {
            self.high.get(&label).copied()
        }
    }

    /// Keeps a face for a label, in place of the one before.
    pub fn set(&mut self, label: u32, face: u32) -> Result<(), NoMemory>
        ensures { OnOk result ((l : ℕ) → kept_face self.new l
            ≡ if l == label then Some face else kept_face self.old l) }
    {
        let place = label as usize;
        if place < self.low.len() {
            self.low[place] = Some(face);
        } else {
            self.high.insert(label, face)?;
        }
        Ok(())
    }
}
