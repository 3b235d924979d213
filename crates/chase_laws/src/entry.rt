//! One identification of a chase: which key makes which two names the same, and by which valuations.

use crate::Places;

/// One identification: a key tells that two names are the same. Entries in order are a journal.
#[derive(Clone, Copy)]
pub struct Entry {
    /// The one name.
    pub a: u32,
    /// The other name.
    pub b: u32,
    /// The place of the key among the keys.
    pub key: u32,
    /// The key's valuation at `a`: one name for each slot.
    pub left: Places,
    /// The key's valuation at `b`.
    pub right: Places,
}
