//! Each status of the program, with its meaning and the text that goes to the error stream with it; and the texts of `--help`
//! and `--version`. No other file has such a status or text, but that what is wrong with a line is said by the fault itself, in
//! `gk_base`, `key_lang` and `proof_file`, and what is wrong with a step of a proof by the reason, in `proof_check`.

ghost use Rattle.std.specs.Prelude.{◌≡◌, IfOk};
ghost use Rattle.gkey_cmd.specs.Texts.{help_text, version_text, file_text, read_failed, line_text, no_entity_text, pairs_text, refused_text};

use crate::ending::{Asked, Refusal};
use crate::file::File;
use gk_base::NoMemory;
use std::alloc::Global;

/// The command did what it is for. Its answer goes to the output, and the error stream gets no text.
pub(crate) const DONE: u8 = 0;

/// What was asked about is not so: the proof is not accepted, or the two entities are not the same. That answer goes to the
/// output, and the error stream gets no text.
pub(crate) const NOT_SO: u8 = 1;

/// An input is refused. The text, `refused_text`, says which and why.
pub(crate) const REFUSED: u8 = 2;

/// A file could not be found or read. The text, `read_failed`, says which.
pub(crate) const UNREAD: u8 = 3;

/// The output could not be written whole. The text is `WRITE_FAILED`.
pub(crate) const UNWRITTEN: u8 = 4;

/// The text of `UNWRITTEN`.
pub(crate) const WRITE_FAILED: &[u8] = b"output: write failed\n";

/// No memory was to be had. The text is `OUT_OF_MEMORY`; where there was none for the words of the program, there is no text.
pub const NO_MEMORY: u8 = 5;

/// The text of `NO_MEMORY`.
pub(crate) const OUT_OF_MEMORY: &[u8] = b"out of memory\n";

/// The system did not give the program its words. `run` can't come to this, and the error stream gets no text.
pub const NO_WORDS: u8 = 6;

/// The words ask for no command. The text is `USAGE`.
pub(crate) const NO_COMMAND: u8 = 64;

/// The text of `NO_COMMAND`.
pub(crate) const USAGE: &[u8] =
    b"usage:\n  gkey match [--workers N] GRAPH KEYS\n  gkey prove [--workers N] GRAPH KEYS\n  gkey check GRAPH KEYS PROOF\n  gkey demo N\n  gkey convert PROOF\n  gkey grow [--workers N] GRAPH MORE KEYS\n  gkey merge [--workers N] GRAPH KEYS\n  gkey why [--workers N] GRAPH KEYS A B\n  gkey --help\n  gkey --version\n  gkey --large COMMAND ...\n";

/// The text of `--version`. The version stands here alone in the code.
const VERSION: &[u8] = b"gkey 0.1.0\n";

/// The text of `--help`.
const HELP: &[u8] = b"\
gkey: finds the entities of a graph that keys make the same, and proves it

usage:
  gkey match [--workers N] GRAPH KEYS
      prints the classes of entities that are the same
  gkey prove [--workers N] GRAPH KEYS
      prints a proof of all that is the same
  gkey check GRAPH KEYS PROOF
      says that every step of a proof holds, or which does not and why
  gkey demo N
      matches a graph of N pairs of entities that it makes, and prints counts
  gkey convert PROOF
      prints a proof of either version in version 2
  gkey grow [--workers N] GRAPH MORE KEYS
      prints the classes of GRAPH and MORE together
  gkey merge [--workers N] GRAPH KEYS
      prints the graph with one entity in the place of each class
  gkey why [--workers N] GRAPH KEYS A B
      prints a proof that A and B are the same, or that they are not
  gkey --help
      prints this text
  gkey --version
      prints the version
  gkey --large COMMAND ...
      runs match, prove, check, convert, grow, merge or why with larger limits

words:
  GRAPH  a graph in N-Triples
  MORE   a graph in N-Triples that is added to GRAPH
  KEYS   a key file
  PROOF  a proof file, as prove, why and convert print it
  A, B   entities of GRAPH, spelled as in N-Triples: '<urn:a>', '_:b'
  N      of --workers: how many workers search, 1 to 64, and 4 without it
         of demo: how many pairs of entities, 1 to 100000

limits:
  GRAPH  536870912 bytes, 4194304 triples
  MORE   536870912 bytes, and as many triples as GRAPH leaves
  KEYS   1048576 bytes, 64 keys, each of 16 nodes and 32 triples
  PROOF  536870912 bytes
  pairs  67108864 candidate pairs of entities

limits with --large:
  GRAPH  1099511627776 bytes, 1073741824 triples
  MORE   1099511627776 bytes, and as many triples as GRAPH leaves
  KEYS   as without it
  PROOF  1099511627776 bytes
  pairs  as many as there are

status:
   0  the command did what it is for
   1  the proof is not accepted, or A and B are not the same
   2  an input is refused
   3  a file could not be read
   4  the output could not be written whole
   5  no memory was to be had
   6  the system did not give the program its words
  64  the words ask for no command

The guide is docs/GUIDE.md, and the manual page docs/gkey.1.
";

/// The text of `--help`, in lines of at most 80 characters.
fn help() -> &'static [u8]
    ensures { result.now ≡ help_text }
{
    HELP
}

/// What `--help` prints.
pub(crate) fn help_text(alloc: Global) -> Result<Vec<u8>, NoMemory>
    ensures { IfOk result (λ text. text.items ≡ help_text) }
{
    Ok(help().to_vec(alloc)?)
}

/// What `--version` prints.
pub(crate) fn version_text(alloc: Global) -> Result<Vec<u8>, NoMemory>
    ensures { IfOk result (λ text. text.items ≡ version_text) }
{
    Ok(VERSION.to_vec(alloc)?)
}

/// What a text calls a file.
fn file_text(file: File) -> &'static [u8]
    ensures { result.now ≡ file_text file }
{
    match file {
        File::Graph => b"graph",
        File::More => b"more",
        File::Keys => b"keys",
        File::Proof => b"proof",
    }
}

/// The text of a file that could not be found or read.
pub(crate) fn read_failed(file: File) -> &'static [u8]
    ensures { result.now ≡ read_failed file }
{
    match file {
        File::Graph => b"graph: read failed\n",
        File::More => b"more: read failed\n",
        File::Keys => b"keys: read failed\n",
        File::Proof => b"proof: read failed\n",
    }
}

/// The text of a line that is refused, with its number from 1.
fn line_text(alloc: Global, file: File, line: u64, fault: &[u8]) -> Result<Vec<u8>, NoMemory>
    ensures { IfOk result (λ text. text.items ≡ line_text file line fault.now) }
{
    let mut text = file_text(file).to_vec(alloc)?;
    text.extend_from_slice(b":")?;
    text.extend_from_slice(line.to_string(alloc)?.as_bytes())?;
    text.extend_from_slice(b": ")?;
    text.extend_from_slice(fault)?;
    text.extend_from_slice(b"\n")?;
    Ok(text)
}

/// The text of a word that names no entity of the graph.
fn no_entity_text(asked: Asked) -> &'static [u8]
    ensures { result.now ≡ no_entity_text asked }
{
    match asked {
        Asked::First => b"first: no such entity\n",
        Asked::Second => b"second: no such entity\n",
    }
}

/// The text of more candidate pairs than the limit.
fn pairs_text(alloc: Global, limit: u64) -> Result<Vec<u8>, NoMemory>
    ensures { IfOk result (λ text. text.items ≡ pairs_text limit) }
{
    let mut text = b"pairs: more than ".to_vec(alloc)?;
    text.extend_from_slice(limit.to_string(alloc)?.as_bytes())?;
    text.extend_from_slice(b"\n")?;
    Ok(text)
}

/// The text of a refusal.
pub(crate) fn refused_text(alloc: Global, refusal: Refusal) -> Result<Vec<u8>, NoMemory>
    ensures { IfOk result (λ text. text.items ≡ refused_text refusal) }
{
    match refusal {
        Refusal::InGraph(at) => line_text(alloc, File::Graph, at.line, at.fault.text()),
        Refusal::InMore(at) => line_text(alloc, File::More, at.line, at.fault.text()),
        Refusal::InKeys(at) => line_text(alloc, File::Keys, at.line, at.fault.text()),
        Refusal::InProof(at) => line_text(alloc, File::Proof, at.line, at.fault.text()),
        Refusal::NoSuchEntity(asked) => Ok(no_entity_text(asked).to_vec(alloc)?),
        Refusal::MorePairsThan(limit) => pairs_text(alloc, limit),
    }
}
