//! What a run counts.

use std::sync::atomic::{AtomicU64, Ordering};

/// Counters to which a run adds, and which another thread may read meanwhile. No clause can say what they hold.
#[derive(Drop)]
pub struct Counts {
    /// How many bytes were read.
    read: AtomicU64,
    /// How many searches for a pair have begun.
    searches: AtomicU64,
    /// Whether anything is counted.
    is_on: bool,
}

impl Counts {
    /// Counters at 0, which stay there where `is_on` is false.
    pub fn new(is_on: bool) -> Counts {
        Counts {
            read: AtomicU64::new(0),
            searches: AtomicU64::new(0),
            is_on,
        }
    }

    /// Counts bytes that were read.
    pub fn add_read(&self, count: usize) {
        if self.is_on {
            self.read.fetch_add(count as u64, Ordering::SeqCst);
        }
    }

    /// Counts a search.
    pub fn add_search(&self) {
        if self.is_on {
            self.searches.fetch_add(1, Ordering::SeqCst);
        }
    }

    /// How many bytes were read so far, and how many searches have begun.
    pub fn so_far(&self) -> (u64, u64) {
        (
            self.read.load(Ordering::SeqCst),
            self.searches.load(Ordering::SeqCst),
        )
    }
}
