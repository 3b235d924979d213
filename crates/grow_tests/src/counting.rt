//! A gate that counts.

use std::sync::atomic::{AtomicU64, Ordering};
use steal_pool::Gate;

/// Counts how often it is passed, by whichever worker and for whichever pair.
#[derive(Drop)]
pub struct Passes {
    pub count: AtomicU64,
}

impl Gate for Passes {
    fn pass(&self, _worker: u32, _pair: u32) {
        self.count.fetch_add(1, Ordering::SeqCst);
    }
}

/// A gate that no one has passed.
pub fn no_passes() -> Passes {
    Passes {
        count: AtomicU64::new(0),
    }
}
