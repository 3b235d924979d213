//! A gate that counts.

ghost use Rattle.std.specs.Prelude.{◌≡◌, IfOk, length};

use gk_base::NoMemory;
use std::alloc::Global;
use std::sync::atomic::{AtomicU64, Ordering};
use steal_pool::Gate;

/// Counts how often each pair passes, and keeps the first.
#[derive(Drop)]
pub struct Counts {
    /// How often each pair has passed.
    pub passed: Vec<AtomicU64>,
    /// The pair that passed first.
    pub first: AtomicU64,
}

// What `first` is before any pair has passed.
const NONE: u64 = 1 << 32;

impl Counts {
    /// A gate with a counter for each of so many pairs.
    pub fn new(alloc: Global, pairs: u32) -> Result<Counts, NoMemory>
        ensures { IfOk result (λ gate. length gate.passed.items ≡ pairs) }
    {
        let mut passed = Vec::new(alloc);
        for pair in 0..pairs {
            passed.push(AtomicU64::new(0))?;
        }
        let first = AtomicU64::new(NONE);
        Ok(Counts { passed, first })
    }
}

impl Gate for Counts {
    fn pass(&self, _worker: u32, pair: u32) {
        let _ = self
            .first
            .compare_exchange(NONE, u64::from(pair), Ordering::SeqCst, Ordering::SeqCst);
        if let Some(count) = self.passed.get(pair as usize) {
            count.fetch_add(1, Ordering::SeqCst);
        }
    }
}
