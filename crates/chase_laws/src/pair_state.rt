//! What is known of a pair while the chase runs.

/// Where a pair of names stands while the chase runs.
#[derive(Clone, Copy, Debug, PartialEq, Eq)]
pub enum PairState {
    /// To be searched.
    Ready,
    /// Handed out, to be searched by whoever has it.
    Flying,
    /// No key identifies its ends by what is known to be the same.
    Missed,
    /// Its ends are joined.
    Joined,
}
