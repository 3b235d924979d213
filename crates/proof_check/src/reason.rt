//! Reasons against a step.

ghost use Rattle.std.specs.Prelude.{◌≡◌};
ghost use Rattle.proof_check.specs.Reasons.{reason_text};

/// Why a step of a proof does not hold. The tests come in this order, and each is made only where those before it hold.
#[derive(Clone, Copy, Debug, PartialEq, Eq)]
pub enum Reason {
    /// No key has the name.
    UnknownKey,
    /// A side has not one term for each slot of the key, or the supports are not those of the entity variables but the
    /// first, ascending.
    WrongShape,
    /// A term is subject or object of no triple.
    TermNotInTheGraph,
    /// A term stands twice on one side.
    TermTwice,
    /// At an entity variable or a wildcard the term is a literal or has not the slot's type, or at a value variable it is
    /// no literal.
    WrongKindOrType,
    /// The image of an edge is no triple.
    TripleMissing,
    /// At a constant the term is another one.
    ConstantDiffers,
    /// At a value variable the two terms are not equal, or at a folded one they differ in more than case.
    ValueDiffers,
    /// A support names a step that is not an earlier one.
    SupportNotEarlier,
    /// A support does not lead from the left term to the right one.
    SupportDoesNotLeadThere,
}

impl Reason {
    /// Its text, as the checker's answer names it.
    pub fn text(self) -> &'static [u8]
        ensures { result.now ≡ reason_text self }
    {
        match self {
            Reason::UnknownKey => b"unknown key",
            Reason::WrongShape => b"wrong shape",
            Reason::TermNotInTheGraph => b"term not in the graph",
            Reason::TermTwice => b"term twice",
            Reason::WrongKindOrType => b"wrong kind or type",
            Reason::TripleMissing => b"triple missing",
            Reason::ConstantDiffers => b"constant differs",
            Reason::ValueDiffers => b"value differs",
            Reason::SupportNotEarlier => b"support not earlier",
            Reason::SupportDoesNotLeadThere => b"support does not lead there",
        }
    }
}
