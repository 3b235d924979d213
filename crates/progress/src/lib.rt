//! What a long run tells on a terminal meanwhile: one line, which a second thread writes again each second from what the run has counted
//! so far. It goes before the run writes anything, so a run's own texts stand as if it had never been.
//!
//! - `counts`: what a run counts for the line
//! - `counted_shelf`: a shelf that counts what is read from another
//! - `line`: the line
//! - `line_sink`: a sink before whose first byte the line goes
#![tactic(auto)]

mod counted_shelf;
mod counts;
mod line;
mod line_sink;

pub use counted_shelf::CountedShelf;
pub use counts::Counts;
pub use line::Line;
pub use line_sink::LineSink;

#[cfg(test)]
mod tests;
