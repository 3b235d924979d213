//! Where a term stands.

use crate::TermKind;

/// Where the texts of a term stand in a list of bytes: the first from `start` to `middle`, the second from there to `end`.
#[derive(Clone, Copy)]
pub struct Span {
    pub(crate) kind: TermKind,
    pub(crate) start: u32,
    pub(crate) middle: u32,
    pub(crate) end: u32,
}
