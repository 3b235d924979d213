//! How large inputs may be.

/// How large the inputs of a run may be.
#[derive(Clone, Copy, Debug, PartialEq, Eq)]
pub struct Limits {
    /// Bytes of a graph file or a proof file.
    pub bytes: u64,
    /// Bytes of a key file.
    pub key_bytes: u64,
    /// Triple lines of a graph file, repeats counted.
    pub triples: u64,
    /// Candidate pairs of a chase.
    pub pairs: u64,
}

impl Limits {
    /// The limits of the program.
    pub const STANDARD: Limits = Limits {
        bytes: 1 << 29,
        key_bytes: 1 << 20,
        triples: 1 << 22,
        pairs: 1 << 26,
    };
}
