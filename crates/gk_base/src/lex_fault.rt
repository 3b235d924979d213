//! What may be wrong with a line.

ghost use Rattle.std.specs.Prelude.{◌≡◌};
ghost use Rattle.gk_base.specs.Faults.{lex_text};

use crate::Stop;

/// What is wrong with a line of N-Triples or with a term. Where a line has several faults, the one
/// furthest to the left is named, and `NotUtf8` before all others.
#[derive(Clone, Copy, Debug, PartialEq, Eq)]
pub enum LexFault {
    /// The line is not UTF-8.
    NotUtf8,
    /// Where the subject should begin stands neither `<` nor `_`.
    SubjectExpected,
    /// Where the predicate should begin stands no `<`.
    PredicateExpected,
    /// Where the object should begin stands none of `<`, `_` and `"`.
    ObjectExpected,
    /// After the object stands no dot.
    DotExpected,
    /// After the dot stands something other than a comment.
    TextAfterTheDot,
    /// Inside an IRI stands a character that may not stand there raw, or the line ends.
    BadIri,
    /// The IRI does not begin with a scheme.
    RelativeIri,
    /// After a backslash stands no escape that is allowed there, or one that names no character.
    BadEscape,
    /// The line ends inside a string.
    StringNotClosed,
    /// After `_` stands no colon with a first character of a label.
    BadBlankNodeLabel,
    /// After `@` stands no letter, or after a dash of the tag neither letter nor digit.
    BadLanguageTag,
}

impl LexFault {
    /// Its text, as an error message names it.
    pub fn text(self) -> &'static [u8]
        ensures { result.now ≡ lex_text self }
    {
        match self {
            LexFault::NotUtf8 => b"not UTF-8",
            LexFault::SubjectExpected => b"subject expected",
            LexFault::PredicateExpected => b"predicate expected",
            LexFault::ObjectExpected => b"object expected",
            LexFault::DotExpected => b"dot expected",
            LexFault::TextAfterTheDot => b"text after the dot",
            LexFault::BadIri => b"bad IRI",
            LexFault::RelativeIri => b"relative IRI",
            LexFault::BadEscape => b"bad escape",
            LexFault::StringNotClosed => b"string not closed",
            LexFault::BadBlankNodeLabel => b"bad blank node label",
            LexFault::BadLanguageTag => b"bad language tag",
        }
    }
}

/// Why a term or a line was not read.
pub type LexStop = Stop<LexFault>;
