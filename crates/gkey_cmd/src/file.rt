//! The files that commands read, as endings and error texts name them.

/// A file that a command reads.
#[derive(Clone, Copy, Debug, PartialEq, Eq)]
pub enum File {
    /// The graph.
    Graph,
    /// The graph that is added to the first.
    More,
    /// The key file.
    Keys,
    /// The proof file.
    Proof,
}
