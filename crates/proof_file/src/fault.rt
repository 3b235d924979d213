//! What may be wrong with a proof file.

ghost use Rattle.std.specs.Prelude.{◌≡◌};
ghost use Rattle.proof_file.specs.Faults.{proof_fault_text};

use gk_base::{LexFault, Stop};

/// What is wrong with a line of a proof file, or with the file.
#[derive(Clone, Copy, Debug, PartialEq, Eq)]
pub enum ProofFault {
    /// The line is not UTF-8, or a term in it is faulty.
    Lex(LexFault),
    /// The first line is missing, or is the header of no version.
    BadHeader,
    /// The line may not stand there, or has not its form.
    BadLine,
    /// The proof has another number of steps than its last line says.
    CountDiffers,
    /// After the end of the proof stands something other than tabs and spaces.
    TextAfterTheEnd,
    /// The byte after the limit of bytes belongs to the line.
    FileTooLong,
    /// The file ends before the proof does.
    FileEndsInsideAProof,
    /// No term of the file has this number.
    TermNumberOutOfRange,
}

impl ProofFault {
    /// Its text, as an error message names it.
    pub fn text(self) -> &'static [u8]
        ensures { result.now ≡ proof_fault_text self }
    {
        match self {
            ProofFault::Lex(fault) => fault.text(),
            ProofFault::BadHeader => b"bad header",
            ProofFault::BadLine => b"bad line",
            ProofFault::CountDiffers => b"count differs",
            ProofFault::TextAfterTheEnd => b"text after the end",
            ProofFault::FileTooLong => b"file too long",
            ProofFault::FileEndsInsideAProof => b"proof ends early",
            ProofFault::TermNumberOutOfRange => b"term number out of range",
        }
    }
}

/// The line at which a proof file is refused, counted from 1, and why.
#[derive(Clone, Copy, Debug, PartialEq, Eq)]
pub struct ProofRefusal {
    pub line: u64,
    pub fault: ProofFault,
}

/// Why a proof file was not read.
pub type ProofStop = Stop<ProofRefusal>;

/// Why a line of a proof file, or a part of it, was not read.
pub(crate) type LineStop = Stop<ProofFault>;
