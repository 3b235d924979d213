//! What a seat at the table of the lock knows. No value of these types is made: they are for the proofs alone.

use std::collections::LinkedList;

/// No ticket, a ticket that waits, or the turn.
pub enum Stage {
    Idle,
    Waiting(u64),
    Inside(u64),
}

/// What a pass knows of the value.
pub struct Known<B, I> {
    /// None in a seat that was joined into another.
    pub base: Option<B>,
    pub seen: LinkedList<I>,
    /// The places of its own entries.
    pub mine: LinkedList<u64>,
    pub floor: u64,
}

/// What a seat knows.
pub struct View<B, I> {
    /// Its parts of the right to close the lock: a pass has one.
    pub parts: u64,
    pub stage: Stage,
    pub own: Known<B, I>,
    /// What the seats knew that were joined into this one.
    pub joined: LinkedList<Known<B, I>>,
}
