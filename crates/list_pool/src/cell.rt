//! What is kept for a cell, and for a list.

use crate::optional_cell::OptionalCell;

/// Whether a cell stands in a list, and its neighbours there.
#[derive(Clone, Copy)]
pub struct Cell {
    pub held: bool,
    pub before: OptionalCell,
    pub after: OptionalCell,
}

/// Both ends of a list. An empty list has none.
#[derive(Clone, Copy)]
pub struct Ends {
    pub first: OptionalCell,
    pub last: OptionalCell,
}
