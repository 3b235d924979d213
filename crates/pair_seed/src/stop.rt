//! Why `seed` gives no pairs: want of memory, or too many of them.

use gk_base::Stop;

/// There are more candidate pairs than the limit.
#[derive(Clone, Copy, Debug, PartialEq, Eq)]
pub struct TooManyPairs {
    /// One more than the limit, however many there are.
    pub found: u64,
}

/// Why `seed` gives no pairs.
pub type SeedStop = Stop<TooManyPairs>;
