//! What workers tell one another without the lock.

use crate::door::Door;
use std::sync::atomic::{AtomicU64, Ordering};

/// What workers tell one another without the lock. Nothing is proved of it: each word may be old when it is read.
#[derive(Drop)]
pub struct Signs {
    /// How many workers search.
    in_search: AtomicU64,
    /// One more than the number of the worker that goes on alone, or 0.
    lone: AtomicU64,
    /// What a worker passes before its turn.
    pub door: Door,
}

impl Signs {
    /// Nobody searches, and nobody goes on alone.
    pub fn new() -> Signs {
        Signs {
            in_search: AtomicU64::new(0),
            lone: AtomicU64::new(0),
            door: Door::new(),
        }
    }

    /// How many workers search.
    pub fn searching(&self) -> u64 {
        self.in_search.load(Ordering::SeqCst)
    }

    /// Counts a worker that searches from now on, and did not before.
    pub fn count_in(&self, before: bool, now: bool) {
        if now && !before {
            self.in_search.fetch_add(1, Ordering::SeqCst);
        }
    }

    /// No longer counts a worker that searched before, and does not now.
    pub fn count_out(&self, before: bool, now: bool) {
        if before && !now {
            self.in_search.fetch_sub(1, Ordering::SeqCst);
        }
    }

    /// One more than the number of the worker that goes on alone, or 0.
    pub fn lone(&self) -> u64 {
        self.lone.load(Ordering::SeqCst)
    }

    /// Lets the worker of this number go on alone.
    pub fn go_alone(&self, number: u32) {
        self.lone.store(u64::from(number) + 1, Ordering::SeqCst);
    }

    /// Whether nobody searches who could wake pairs for the others, or one goes on alone.
    pub fn is_quiet(&self) -> bool {
        self.searching() == 0 || self.lone() > 0
    }
}
