//! What the valuations of a key are looked for with.

use crate::budget::Budget;
use crate::leading::Leading;
use chase_laws::Pattern;
use typed_graph::Graph;

/// A graph, a key's pattern with its number and its leading slots, and the count of the rows that are made.
#[derive(Drop)]
pub(crate) struct KeySearch<'a> {
    pub(crate) graph: &'a Graph,
    pub(crate) pattern: &'a Pattern,
    pub(crate) key: u32,
    pub(crate) leading: &'a [Leading],
    pub(crate) budget: &'a Budget,
}
