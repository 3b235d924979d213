//! How many rows may be made.

use gk_base::Stop;
use std::sync::atomic::{AtomicU64, Ordering};
use valuation_groups::ValuationRows;

/// More rows were made than may be.
#[derive(Clone, Copy, Debug, PartialEq, Eq)]
pub(crate) struct TooManyRows;

/// Why rows were not made.
pub(crate) type RowStop = Stop<TooManyRows>;

/// So many rows of a run are counted at once, so that threads seldom meet at the count.
const BATCH: usize = 64;

/// How many rows may be made, and how many were, of all keys and by all threads. No clause can say what it holds.
#[derive(Drop)]
pub(crate) struct Budget {
    most: u64,
    made: AtomicU64,
}

impl Budget {
    /// At most so many rows may be made.
    pub(crate) fn new(most: u64) -> Budget {
        Budget {
            most,
            made: AtomicU64::new(0),
        }
    }

    /// Counts so many rows.
    fn count(&self, rows: usize) -> Result<(), RowStop> {
        let before = self.made.fetch_add(rows as u64, Ordering::SeqCst);
        if before.saturating_add(rows as u64) > self.most {
            return Err(Stop::Fault(TooManyRows));
        }
        Ok(())
    }

    /// Counts the last rows of a run where they fill a batch. It is called after each row.
    pub(crate) fn count_batch(&self, rows: &ValuationRows) -> Result<(), RowStop> {
        if rows.len() % BATCH != 0 {
            return Ok(());
        }
        self.count(BATCH)
    }

    /// Counts the rows at the end of a run that fill no batch. So each row is counted once.
    pub(crate) fn count_rest(&self, rows: &ValuationRows) -> Result<(), RowStop> {
        self.count(rows.len() % BATCH)
    }
}
