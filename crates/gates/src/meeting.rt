//! A gate at which workers meet.

use std::sync::atomic::{AtomicU64, Ordering};
use steal_pool::Gate;

/// The first to come waits for a second, and tells whether one came.
#[derive(Drop)]
pub struct Meeting {
    /// How many have come.
    pub here: AtomicU64,
    /// 1 once the first has met a second, and else 0.
    pub met: AtomicU64,
}

// How often the first looks for a second. It gives up then, so that a crew whose workers never meet ends.
const LOOKS: u64 = 100_000_000;

impl Meeting {
    /// A gate that no one has come to.
    pub fn new() -> Meeting {
        Meeting {
            here: AtomicU64::new(0),
            met: AtomicU64::new(0),
        }
    }
}

impl Gate for Meeting {
    fn pass(&self, _worker: u32, _pair: u32) {
        if self.here.fetch_add(1, Ordering::SeqCst) > 0 {
            return;
        }
        for _ in 0..LOOKS {
            if self.here.load(Ordering::SeqCst) > 1 {
                self.met.store(1, Ordering::SeqCst);
                return;
            }
        }
    }
}
