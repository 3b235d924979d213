//! Triples of a key.

use gk_base::Term;

/// A triple of a key: two slots, by their places, and the predicate.
#[derive(Debug, PartialEq, Eq, Drop)]
pub struct KeyEdge {
    pub from: u8,
    pub pred: Term,
    pub to: u8,
}
