//! A board of labels: one thread posts the entries of a book as they come, and others read labels without a turn of any
//! lock. A label that is read is joined with its name by the entries that were posted, from whatever moment it is; and where
//! nothing was posted since a watcher last stood even with the scribe, what it read is what is shown. No call waits, and only
//! `Board::new` takes memory.
//!
//! - `knowledge`: what a seat at the board's table knows, and the rule of the table
//! - `plays`: what each kind of step on the table tells
//! - `steps`: the steps
//! - `handles`: the board, its scribe and its watchers
//! - `open`: a board made over a book
//! - `post`: one entry more is posted
//! - `fill`: a view is filled from the board
//! - `meet`: what was read is joined under what was posted, or what is shown; and a watcher stands even again
#![tactic(auto)]

mod fill;
mod handles;
mod knowledge;
mod meet;
mod open;
mod plays;
mod post;
mod steps;

pub use handles::{Board, Scribe, Watcher};
pub use meet::{law_fresh, law_met};
