//! What is said of a proof.

use crate::Reason;

/// What the checker says of a proof.
#[derive(Clone, Copy, Debug, PartialEq, Eq)]
pub enum Verdict {
    /// Each step holds, and there are so many.
    Accepted { steps: u32 },
    /// The first step that does not hold, counted from 1, and the first test that it fails.
    Rejected { step: u32, reason: Reason },
}
