//! The gate that counts searches.

use progress::Counts;
use steal_pool::Gate;

/// A gate that lets everyone through, and counts who passes.
#[derive(Drop)]
pub struct Searches<'a> {
    pub counts: &'a Counts,
}

impl Gate for Searches<'_> {
    fn pass(&self, _worker: u32, _pair: u32) {
        self.counts.add_search();
    }
}
