//! What may be wrong with a graph file.

ghost use Rattle.std.specs.Prelude.{◌≡◌};
ghost use Rattle.gk_base.specs.Faults.{read_text};

use crate::{LexFault, Stop};

/// What is wrong with a line of a graph file.
#[derive(Clone, Copy, Debug, PartialEq, Eq)]
pub enum ReadFault {
    /// What stands in the line.
    Lex(LexFault),
    /// It is a triple line too many.
    TooManyTriples,
    /// The byte after the limit of bytes belongs to it.
    TooLong,
}

impl ReadFault {
    /// Its text, as an error message names it.
    pub fn text(self) -> &'static [u8]
        ensures { result.now ≡ read_text self }
    {
        match self {
            ReadFault::Lex(fault) => fault.text(),
            ReadFault::TooManyTriples => b"too many triples",
            ReadFault::TooLong => b"file too long",
        }
    }
}

/// The line at which a graph file is refused, counted from 1, and why.
#[derive(Clone, Copy, Debug, PartialEq, Eq)]
pub struct ReadRefusal {
    pub line: u64,
    pub fault: ReadFault,
}

/// Why a graph file was not read.
pub type ReadStop = Stop<ReadRefusal>;
