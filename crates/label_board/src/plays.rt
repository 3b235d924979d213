//! What each kind of step on the table tells. These types are for the proofs alone.

use crate::knowledge::Knowledge;
use atomic_table::{Join, Play, Split};
use chase_laws::Entry;

/// An entry is counted up.
pub(crate) struct CountUp;

impl Play<Entry, Knowledge> for CountUp {
    ghost use Rattle.label_board.specs.Rule.{CountsUp};

    ghost then = { CountsUp };
}

/// A label is written.
pub(crate) struct WriteLabel;

impl Play<Entry, Knowledge> for WriteLabel {
    ghost use Rattle.label_board.specs.Rule.{WritesLabel};

    ghost then = { WritesLabel };
}

/// A label is loaded.
pub(crate) struct LoadLabel;

impl Play<Entry, Knowledge> for LoadLabel {
    ghost use Rattle.label_board.specs.Rule.{LoadsLabel};

    ghost then = { LoadsLabel };
}

/// The count is loaded, and what was read is forgotten.
pub(crate) struct Glance;

impl Play<Entry, Knowledge> for Glance {
    ghost use Rattle.label_board.specs.Rule.{Glances};

    ghost then = { Glances };
}

/// The count is loaded by the scribe, which has met the watcher whose notes it has, and is between posts afterwards.
pub(crate) struct Meet;

impl Play<Entry, Knowledge> for Meet {
    ghost use Rattle.label_board.specs.Rule.{Meets};

    ghost then = { Meets };
}

/// A seat is split, and the new one has read as much since the same entries; or such a seat is joined into another, as its
/// notes.
pub(crate) struct Note;

impl Split<Knowledge> for Note {
    ghost use Rattle.label_board.specs.Rule.{watcher_of};

    ghost left = { λ v. v };

    ghost right = { λ v. watcher_of v.since v.read };
}

impl Join<Knowledge> for Note {
    ghost use Rattle.std.specs.Prelude.{[]};
    ghost use Rattle.label_board.specs.Rule.{noting, watcher_of};

    ghost both = { noting };

    ghost spent = { watcher_of [] [] };
}
