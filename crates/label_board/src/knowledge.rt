//! What a seat at the table of a board knows, and the rule of the table. All of it is for the proofs alone.

use atomic_table::TableRule;
use chase_laws::Entry;
use class_book::Book;
use std::collections::LinkedList;
use std::snapshot::Snapshot;

/// What a seat knows. No value of it is made.
pub struct Knowledge {
    /// Whether it is the scribe's seat.
    pub writes: bool,
    /// The entries that were posted, which the scribe alone knows.
    pub posted: LinkedList<Entry>,
    /// The label in the word of each name, which the scribe alone knows.
    pub shown: LinkedList<u32>,
    /// The entries that were posted when the seat last stood even with the scribe. The scribe's own are those that it has
    /// finished posting.
    pub since: LinkedList<Entry>,
    /// The names with the labels that were loaded since the last glance.
    pub read: LinkedList<(u32, u32)>,
    /// The entries that were posted when the watcher that is met last stood even.
    pub noted_since: LinkedList<Entry>,
    /// What the watcher had read that is met.
    pub notes: LinkedList<(u32, u32)>,
}

/// What the table is told when it is made.
#[derive(Drop)]
pub struct About {
    pub book: Snapshot<Book>,
    pub names: u32,
}

/// The rule of the table.
pub struct PostedLabels;

/// The table has no slots: that they would hold entries lets a step announce one.
impl TableRule<Entry, Knowledge, About> for PostedLabels {
    ghost use Rattle.label_board.specs.Rule.{FollowsPosts, scribe_of};

    ghost holds = { λ about. FollowsPosts about.names };

    ghost first = { λ about. scribe_of about.book.value.journal about.book.value.labels };
}
