//! A lock that lets its holders in one at a time, in the order in which they asked, over a value that keeps a journal.
//! The contracts tell one legal history: what a holder finds begins with all that it had seen before, holds its own
//! entries where it put them, and at the end each entry is the one of exactly one holder. Neither the order in which
//! those who wait are served nor how long anybody waits is part of the contracts.
//!
//! - `handles`: the lock, its passes and its turns
//! - `making`: a lock with its passes
//! - `turns`: entering, leaving, and looking at the number of entries
//! - `lending`: the value within a turn
//! - `closing`: the value out of a lock
//! - `view`: what a seat at the lock's table knows, for the proofs alone
//! - `rule`: the rule of the table
//! - `steps`: what each kind of step on the table tells
//! - `serving`: the words of the table
#![tactic(auto)]

mod closing;
mod handles;
mod lending;
mod making;
mod rule;
mod serving;
mod steps;
mod turns;
mod view;

ghost use Rattle.std.specs.Prelude.{◌≡◌, ◌^◌, ◌<◌, List, length};

pub use handles::{Pass, Turn, TurnLock};
pub use rule::{About, Turns};
pub use view::{Known, Stage, View};

/// A value that keeps a journal: its `base` is what no call under the lock changes, and its `entries` only grow.
pub trait Journaled {
    type Base;

    type Item;

    ghost base: { Self → Self.Base };

    ghost entries: { Self → List Self.Item };

    /// The number of entries. It takes no memory.
    fn count(&self) -> u64
        requires { length (entries self.now) < 2 ^ 64 }
        ensures { result ≡ length (entries self.now) };
}
