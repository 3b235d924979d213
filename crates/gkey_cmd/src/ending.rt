//! How a run ends: with an answer, or with what stopped it; and what is written at the end.

ghost use Rattle.std.specs.Prelude.{◌≡◌, MatchResult};
ghost use Rattle.gkey_cmd.specs.Written.{status_of};
ghost use Rattle.gkey_cmd.specs.Sent.{TookAll, TookLess, Sent};
ghost use Rattle.gkey_cmd.specs.Endings.{graph_ending, more_ending, keys_ending, proof_ending, IsTold};

use crate::file::File;
use crate::texts::{
    DONE, NO_COMMAND, NO_MEMORY, NOT_SO, OUT_OF_MEMORY, REFUSED, UNREAD, UNWRITTEN, USAGE,
    WRITE_FAILED, read_failed, refused_text,
};
use gk_base::{NoMemory, ReadRefusal, Stop};
use gk_io::{Failed, FileFault, FileStop, Sink, write_all};
use key_lang::{KeyRefusal, KeyStop};
use proof_file::{ProofRefusal, ProofStop};
use std::alloc::Global;

/// The answer of a run that comes to its end.
#[derive(Clone, Copy, Debug, PartialEq, Eq)]
pub enum Answer {
    /// The command did what it is for.
    Given,
    /// It looked at a proof, and does not accept it.
    NotAccepted,
    /// It was asked why two entities are the same, and they are not.
    NotTheSame,
}

impl Answer {
    /// The status that goes with it.
    fn status(self) -> u8
        ensures { result ≡ status_of self }
    {
        match self {
            Answer::Given => DONE,
            Answer::NotAccepted => NOT_SO,
            Answer::NotTheSame => NOT_SO,
        }
    }
}

/// Which of the two words for entities.
#[derive(Clone, Copy, Debug, PartialEq, Eq)]
pub enum Asked {
    /// The first.
    First,
    /// The second.
    Second,
}

/// Why a command is refused that the words ask for.
#[derive(Clone, Copy, Debug, PartialEq, Eq)]
pub enum Refusal {
    /// The graph, at this line.
    InGraph(ReadRefusal),
    /// The graph that is added to the first, at this line.
    InMore(ReadRefusal),
    /// The key file, at this line.
    InKeys(KeyRefusal),
    /// The proof file, at this line.
    InProof(ProofRefusal),
    /// This word spells no entity of the graph.
    NoSuchEntity(Asked),
    /// There are more candidate pairs than this limit.
    MorePairsThan(u64),
}

/// How a run ends before anything is written.
#[derive(Drop)]
pub enum Ending {
    /// The words ask for no command.
    NoCommand,
    /// This file could not be found or read.
    Failed(File),
    /// The command is refused.
    Refused(Refusal),
    /// No memory was to be had.
    NoMemory,
    /// The answer, with the text for the output.
    Done(Answer, Vec<u8>),
}

/// The ending of a run that wants memory once its files are read.
impl From<NoMemory> for Ending {
    ghost use Rattle.gkey_cmd.specs.declared.ending.Ending.TheVariants as ending;

    ghost from_gives = { λ _ e. e ≡ ending.NoMemory };

    fn from(_: NoMemory) -> Self {
        Ending::NoMemory
    }
}

/// The ending of a run whose graph is not to be had.
impl From<FileStop<ReadRefusal>> for Ending {
    ghost from_gives = { λ stop e. e ≡ graph_ending stop };

    fn from(stop: FileStop<ReadRefusal>) -> Self {
        match stop {
            Stop::NoMemory => Ending::NoMemory,
            Stop::Fault(FileFault::Failed) => Ending::Failed(File::Graph),
            Stop::Fault(FileFault::Refused(refusal)) => Ending::Refused(Refusal::InGraph(refusal)),
        }
    }
}

/// The ending of a run whose added graph is not to be had.
pub(crate) fn more_ending(stop: FileStop<ReadRefusal>) -> Ending
    ensures { result ≡ more_ending stop }
{
    match stop {
        Stop::NoMemory => Ending::NoMemory,
        Stop::Fault(FileFault::Failed) => Ending::Failed(File::More),
        Stop::Fault(FileFault::Refused(refusal)) => Ending::Refused(Refusal::InMore(refusal)),
    }
}

/// The ending of a run whose key file says no keys.
impl From<KeyStop> for Ending {
    ghost from_gives = { λ stop e. e ≡ keys_ending stop };

    fn from(stop: KeyStop) -> Self {
        match stop {
            Stop::NoMemory => Ending::NoMemory,
            Stop::Fault(refusal) => Ending::Refused(Refusal::InKeys(refusal)),
        }
    }
}

/// The ending of a run whose proof file says no proof.
impl From<ProofStop> for Ending {
    ghost from_gives = { λ stop e. e ≡ proof_ending stop };

    fn from(stop: ProofStop) -> Self {
        match stop {
            Stop::NoMemory => Ending::NoMemory,
            Stop::Fault(refusal) => Ending::Refused(Refusal::InProof(refusal)),
        }
    }
}

/// Writes a text.
fn put<K: Sink>(sink: &mut K, text: &[u8]) -> Result<(), Failed>
    ensures { MatchResult result (λ _. TookAll K.Sink sink.old sink.new text.now)
        (λ _. TookLess K.Sink sink.old sink.new text.now) }
{
    write_all(sink, text)
}

/// Writes a text, whether or not it arrives.
fn tell<K: Sink>(sink: &mut K, text: &[u8])
    ensures { Sent K.Sink sink.old sink.new text.now }
{
    let _ = put(sink, text);
}

/// Writes what an ending leaves: the answer's text to the output, or to the error stream why there is none. It gives the
/// status. Only the text of a refusal takes memory; where there is none for it, that is told instead.
pub fn finish<O: Sink, E: Sink>(alloc: Global, ending: &Ending, out: &mut O, err: &mut E) -> u8
    ensures { IsTold O.Sink E.Sink out.old out.new err.old err.new ending.now result }
{
    match ending {
        Ending::Done(answer, text) => match put(out, text) {
            Ok(()) => answer.status(),
            Err(Failed) => {
                tell(err, WRITE_FAILED);
                UNWRITTEN
            }
        },
        Ending::Refused(refusal) => match refused_text(alloc, *refusal) {
            Ok(text) => {
                tell(err, &text);
                REFUSED
            }
            Err(NoMemory) => {
                tell(err, OUT_OF_MEMORY);
                NO_MEMORY
            }
        },
        Ending::Failed(file) => {
            tell(err, read_failed(*file));
            UNREAD
        }
        Ending::NoMemory => {
            tell(err, OUT_OF_MEMORY);
            NO_MEMORY
        }
        Ending::NoCommand => {
            tell(err, USAGE);
            NO_COMMAND
        }
    }
}
