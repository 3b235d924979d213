//! Where a proof file has come to.

use crate::ProofStep;
use gk_base::Text;

/// Which line may come next, with the step as far as it was read. Terms are numbers of the terms that have come.
#[derive(Drop)]
pub enum Stage {
    /// The header.
    Header,
    /// The number of terms.
    Count,
    /// So many lines with a term.
    Term(u32),
    /// A step, or the end.
    Step,
    /// The left side of a step by this key.
    Left(Text),
    /// Its right side, after this left one.
    Right(Text, Vec<u32>),
    /// One more support of this step, or that it is done.
    Support(ProofStep),
    /// Nothing more.
    End,
}
