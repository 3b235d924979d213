//! The board, its scribe and its watchers.

ghost use Rattle.std.specs.Prelude.{◌≡◌};

use crate::knowledge::{About, Knowledge, PostedLabels};
use atomic_table::{Seat, Table};
use chase_laws::Entry;
use std::alloc::Global;
use std::marker::Model;

/// A word for each name, which holds a label, and one that counts the entries that were posted. Threads share it. Contracts
/// see which board it is and how many names it has.
#[derive(Drop)]
pub struct Board {
    pub(crate) table: Table<Entry, Knowledge, About, PostedLabels, Global>,
    pub(crate) names: u32,
}

impl Model for Board {
    ghost use Rattle.std.specs.Prelude.{◌≡◌};
    ghost use Rattle.label_board.specs.Seen.{SeenBoard};
    ghost use Rattle.label_board.specs.Rule.{IsSeatAt};

    ghost Value = { SeenBoard };

    ghost view = { λ b. record { id = b.table.shared.table_id; names = b.names } };

    ghost invariant = { λ b. IsSeatAt b.table.shared.table_id b.table.shared.table_id b.names × (b.table.shared.key.names ≡ b.names) };
}

impl Board {
    /// How many names it has.
    pub fn names(&self) -> u32
        ensures { result ≡ self.now.names }
    {
        self.names
    }
}

/// The right to post, which one holder has. Contracts see the board that it is for, the entries that were posted, and the
/// label in each name's word.
#[derive(Drop)]
pub struct Scribe {
    pub(crate) seat: Seat<Entry, Knowledge>,
}

impl Model for Scribe {
    ghost use Rattle.std.specs.Prelude.{◌≡◌, true};
    ghost use Rattle.label_board.specs.Seen.{SeenScribe};
    ghost use Rattle.label_board.specs.Rule.{between_posts};

    ghost Value = { SeenScribe };

    ghost view = { λ s. record { board = s.seat.table_id; posted = s.seat.me.0.posted; shown = s.seat.me.0.shown } };

    ghost invariant = { λ s. (s.seat.me.0.writes ≡ true) × (s.seat.me.0 ≡ between_posts s.seat.me.0) };
}

/// The right to read. Contracts see the board that it is for, the entries that were posted when it last stood even with the
/// scribe, and the names that were read since the last glance, with their labels.
#[derive(Drop)]
pub struct Watcher {
    /// It gives a watcher a size: an element with no bytes can't be lent for writing.
    pub(crate) number: u32,
    pub(crate) seat: Seat<Entry, Knowledge>,
}

impl Model for Watcher {
    ghost use Rattle.label_board.specs.Seen.{SeenWatcher};

    ghost Value = { SeenWatcher };

    ghost view = { λ w. record { board = w.seat.table_id; since = w.seat.me.0.since; read = w.seat.me.0.read } };
}
