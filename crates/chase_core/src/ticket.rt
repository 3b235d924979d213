//! What passes between a chase and whoever searches for it: tickets, outcomes and answers.

use chase_laws::Entry;
use paired_search::Finding;

/// A pair that was handed out to be searched: its number and its ends.
#[derive(Clone, Copy, Debug, PartialEq, Eq)]
pub struct Ticket {
    pub pair: u32,
    pub a: u32,
    pub b: u32,
}

/// What a search for a pair came to.
#[derive(Clone, Copy)]
pub enum Outcome {
    /// A key has two valuations at the pair's ends that coincide.
    Found(Finding),
    /// No key has any.
    Missed,
}

/// What became of a pair that was searched.
#[derive(Clone, Copy, Debug, PartialEq, Eq)]
pub enum Settled {
    /// The identification was entered, at this place of the journal.
    Entered(u32),
    /// The pair's ends were joined already.
    Already,
    /// No key identifies the pair by what is known now.
    Missed,
    /// A label has changed since the pair was handed out: that of this node, which was `seen` and is `now`. The pair
    /// is to be searched again.
    Reopened { node: u32, seen: u32, now: u32 },
}

/// What a finished chase gives: one label for each name, and the identifications in order.
#[derive(Drop)]
pub struct Matched {
    pub labels: Vec<u32>,
    pub journal: Vec<Entry>,
}
