//! Versions of proof files.

/// How terms stand in a proof file.
#[derive(Clone, Copy, Debug, PartialEq, Eq)]
pub enum Version {
    /// Each is spelled where it is used.
    One,
    /// They are listed first, and used by their numbers in the list.
    Two,
}
