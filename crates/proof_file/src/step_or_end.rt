//! Lines between steps.

use gk_base::Text;

/// What a line between steps says.
#[derive(Debug, PartialEq, Eq, Drop)]
pub enum StepOrEnd {
    /// A step by the key of this name begins.
    Begins(Text),
    /// The proof ends, and has so many steps.
    Ends(u32),
}
