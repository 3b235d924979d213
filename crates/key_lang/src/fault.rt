//! What may be wrong with a key file.

ghost use Rattle.std.specs.Prelude.{◌≡◌};
ghost use Rattle.key_lang.specs.Faults.{key_fault_text, fault_of_term};

use gk_base::{LexFault, Stop};

/// What is wrong with a line of a key file. The first seven are faults of terms, which stand in key files as in
/// N-Triples.
#[derive(Clone, Copy, Debug, PartialEq, Eq)]
pub enum KeyFault {
    /// The line is not UTF-8.
    NotUtf8,
    /// Where an IRI must stand is no `<`, or inside it stands a character that may not stand there raw, or the line ends.
    BadIri,
    /// The IRI does not begin with a scheme.
    RelativeIri,
    /// After a backslash stands no escape that is allowed there, or one that names no character.
    BadEscape,
    /// The line ends inside a string.
    StringNotClosed,
    /// After `_` stands no colon with a first character of a label. In a key file `_` begins a wildcard, so no line has it.
    BadBlankNodeLabel,
    /// After `@` stands no letter, or after a dash of the tag neither letter nor digit.
    BadLanguageTag,
    /// The line is none of the statements, or more than one.
    UnknownStatement,
    /// A name is missing, is malformed or has the wrong sigil.
    BadName,
    /// An earlier key has the name.
    NameUsedTwice,
    /// A key begins inside a key, or any other statement stands outside one.
    StatementOutOfPlace,
    /// An earlier line of the key declares the variable.
    VariableDeclaredTwice,
    /// No earlier line of the key declares the variable.
    VariableNotDeclared,
    /// A triple begins with a value variable, an IRI or a literal.
    SubjectMustBeAnEntityVariableOrWildcard,
    /// The line makes a 17th variable or constant of the key.
    TooManyNodes,
    /// The line makes a 33rd triple of the key.
    TooManyTriplesInKey,
    /// The key ends with no triple.
    KeyWithoutTriples,
    /// The key ends with a variable that stands in no triple.
    VariableNotUsed,
    /// The key ends, and its triples do not join all its variables and constants.
    NotConnected,
    /// The file ends before the key does.
    FileEndsInsideAKey,
    /// The line begins a 65th key.
    TooManyKeys,
    /// The byte after the limit of bytes belongs to the line.
    FileTooLong,
}

impl KeyFault {
    /// Its text, as an error message names it.
    pub fn text(self) -> &'static [u8]
        ensures { result.now ≡ key_fault_text self }
    {
        match self {
            KeyFault::NotUtf8 => b"not UTF-8",
            KeyFault::BadIri => b"bad IRI",
            KeyFault::RelativeIri => b"relative IRI",
            KeyFault::BadEscape => b"bad escape",
            KeyFault::StringNotClosed => b"string not closed",
            KeyFault::BadBlankNodeLabel => b"bad blank node label",
            KeyFault::BadLanguageTag => b"bad language tag",
            KeyFault::UnknownStatement => b"unknown statement",
            KeyFault::BadName => b"bad name",
            KeyFault::NameUsedTwice => b"name used twice",
            KeyFault::StatementOutOfPlace => b"statement out of place",
            KeyFault::VariableDeclaredTwice => b"variable declared twice",
            KeyFault::VariableNotDeclared => b"variable not declared",
            KeyFault::SubjectMustBeAnEntityVariableOrWildcard => {
                b"subject must be an entity variable or wildcard"
            }
            KeyFault::TooManyNodes => b"too many nodes",
            KeyFault::TooManyTriplesInKey => b"too many triples in key",
            KeyFault::KeyWithoutTriples => b"key without triples",
            KeyFault::VariableNotUsed => b"variable not used",
            KeyFault::NotConnected => b"not connected",
            KeyFault::FileEndsInsideAKey => b"file ends inside a key",
            KeyFault::TooManyKeys => b"too many keys",
            KeyFault::FileTooLong => b"file too long",
        }
    }
}

/// What a fault of N-Triples is in a key file. No term has the faults of whole lines; with one of them a line of a key file
/// would be no statement.
pub(crate) fn fault_of_term(fault: LexFault) -> KeyFault
    ensures { result ≡ fault_of_term fault }
{
    match fault {
        LexFault::NotUtf8 => KeyFault::NotUtf8,
        LexFault::BadIri => KeyFault::BadIri,
        LexFault::RelativeIri => KeyFault::RelativeIri,
        LexFault::BadEscape => KeyFault::BadEscape,
        LexFault::StringNotClosed => KeyFault::StringNotClosed,
        LexFault::BadBlankNodeLabel => KeyFault::BadBlankNodeLabel,
        LexFault::BadLanguageTag => KeyFault::BadLanguageTag,
        LexFault::SubjectExpected
        | LexFault::PredicateExpected
        | LexFault::ObjectExpected
        | LexFault::DotExpected
        | LexFault::TextAfterTheDot => KeyFault::UnknownStatement,
    }
}

/// The line at which a key file is refused, counted from 1, and why.
#[derive(Clone, Copy, Debug, PartialEq, Eq)]
pub struct KeyRefusal {
    pub line: u64,
    pub fault: KeyFault,
}

/// Why a key file was not read.
pub type KeyStop = Stop<KeyRefusal>;

/// Why a line, or a part of it, was not read.
pub(crate) type LineStop = Stop<KeyFault>;
