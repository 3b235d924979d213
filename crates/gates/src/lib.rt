//! Gates for tests of crews and of whole runs, which share them: one counts who passes, and at one workers meet. A gate tells
//! what happened by its counters, which other threads may change at any time: so what passed is read and not proved.
//!
//! - `counts`: a gate that counts
//! - `meeting`: a gate at which workers meet
#![tactic(auto)]

mod counts;
mod meeting;

pub use counts::Counts;
pub use meeting::Meeting;
