//! Runs over the files `g`, `m`, `k` and `p` in memory, where the call fails that a case names, and that for a file that is not
//! there.

use fixtures::texts::{ALBUM_KEY, ALBUMS, ALBUMS_MERGED, USAGE};
use gk_base::{Limits, NoMemory, Text};
use gk_io::{MemShelf, SureSink};
use gkey_cmd::{ProgramLimits, run_gated};
use std::alloc::Global;
use std::process::Abort;
use std::sync::Wait;
use std::thread::Threads;
use steal_pool::{Gate, OpenGate};

/// A run, and what it is to leave.
#[derive(Clone, Copy)]
pub struct Case<'a> {
    pub words: &'a [&'a str],
    pub graph: &'a [u8],
    pub more: &'a [u8],
    pub keys: &'a [u8],
    pub proof: &'a [u8],
    /// The number of the call of the shelf that fails, from 1; 0 is none.
    pub failing: u64,
    pub limits: Limits,
    pub status: u8,
    pub out: &'a str,
    pub err: &'a str,
}

/// The error text of words that ask for no command.
pub fn usage() -> &'static str {
    USAGE
}

/// A merge of two albums with one name and one year, in constants. Functions take `merge`, which shows their proofs none of its
/// bytes.
pub const MERGE: Case<'static> = Case {
    words: &["merge", "g", "k"],
    graph: ALBUMS,
    more: b"",
    keys: ALBUM_KEY,
    proof: b"",
    failing: 0,
    limits: Limits::STANDARD,
    status: 0,
    out: ALBUMS_MERGED,
    err: "",
};

/// The same.
pub fn merge() -> Case<'static> {
    MERGE
}

/// What a test ends with where there is no memory for it.
pub const ENOUGH: &str = "enough memory";

/// What a run left.
#[derive(Drop)]
pub struct Left {
    pub status: u8,
    pub out: Vec<u8>,
    pub err: Vec<u8>,
}

/// The texts of words.
pub fn texts(alloc: Global, words: &[&str]) -> Result<Vec<Text>, NoMemory> {
    let mut texts = Vec::new(alloc);
    for word in words {
        texts.push(Text::from_bytes(alloc, word.as_bytes())?)?;
    }
    Ok(texts)
}

/// Adds a file with its name.
fn add_file(
    alloc: Global,
    files: &mut Vec<(Text, Vec<u8>)>,
    name: &[u8],
    content: &[u8],
) -> Result<(), NoMemory> {
    let name = Text::from_bytes(alloc, name)?;
    files.push((name, Vec::from_slice(alloc, content)?))?;
    Ok(())
}

/// The files of a case.
fn files_of(alloc: Global, case: &Case<'_>) -> Result<Vec<(Text, Vec<u8>)>, NoMemory> {
    let mut files = Vec::new(alloc);
    add_file(alloc, &mut files, b"g", case.graph)?;
    add_file(alloc, &mut files, b"m", case.more)?;
    add_file(alloc, &mut files, b"k", case.keys)?;
    add_file(alloc, &mut files, b"p", case.proof)?;
    Ok(files)
}

/// The shelf of a case.
fn shelf_of(alloc: Global, case: &Case<'_>) -> Result<MemShelf, NoMemory> {
    let files = files_of(alloc, case)?;
    let failing = [case.failing].to_vec(alloc)?;
    Ok(MemShelf::new(files, 65_536, failing))
}

/// The status of a run with these words and this gate over the files of a case; none where a limit is beyond that of the
/// program.
fn status_of<R: AllocGlobal + Threads + Wait + Sync + Abort, G: Gate>(
    rt: &R,
    words: &[Text],
    case: &Case<'_>,
    gate: &G,
    out: &mut SureSink,
    err: &mut SureSink,
) -> Option<u8> {
    let limits = case.limits;
    let standard = Limits::STANDARD;
    let within = limits.bytes <= standard.bytes
        && limits.key_bytes <= standard.key_bytes
        && limits.triples <= standard.triples
        && limits.pairs <= standard.pairs;
    if !within {
        return None;
    }
    let alloc = rt.alloc();
    let mut shelf = shelf_of(alloc, case).expect(rt, ENOUGH);
    let limits = ProgramLimits {
        plain: limits,
        ..ProgramLimits::STANDARD
    };
    Some(run_gated(rt, alloc, words, &mut shelf, out, err, &limits, gate))
}

/// What a run left that ended with this status, where it ended with one.
fn left_at<R: AllocGlobal + Abort>(
    rt: &R,
    status: Option<u8>,
    out: &[u8],
    err: &[u8],
) -> Option<Left> {
    Some(Left {
        status: status?,
        out: out.to_vec(rt.alloc()).expect(rt, ENOUGH),
        err: err.to_vec(rt.alloc()).expect(rt, ENOUGH),
    })
}

/// What a run with these words and this gate leaves of the files of a case; none where a limit is beyond that of the program.
pub fn run_of<R: AllocGlobal + Threads + Wait + Sync + Abort, G: Gate>(
    rt: &R,
    words: &[Text],
    case: &Case<'_>,
    gate: &G,
) -> Option<Left> {
    let mut out = SureSink::new(rt.alloc(), 10_000).expect(rt, ENOUGH);
    let mut err = SureSink::new(rt.alloc(), 1000).expect(rt, ENOUGH);
    let status = status_of(rt, words, case, gate, &mut out, &mut err);
    left_at(rt, status, out.bytes(), err.bytes())
}

/// Whether a run with these words leaves what the case says.
pub fn leaves<R: AllocGlobal + Threads + Wait + Sync + Abort>(
    rt: &R,
    words: &[Text],
    case: &Case<'_>,
) -> bool {
    match run_of(rt, words, case, &OpenGate) {
        Some(left) => {
            left.status == case.status
                && left.out.as_slice() == case.out.as_bytes()
                && left.err.as_slice() == case.err.as_bytes()
        }
        None => false,
    }
}

/// Whether the run of a case leaves what it says.
pub fn holds<R: AllocGlobal + Threads + Wait + Sync + Abort>(rt: &R, case: &Case<'_>) -> bool {
    let words = texts(rt.alloc(), case.words).expect(rt, ENOUGH);
    leaves(rt, &words, case)
}

/// What the run of a case prints with this gate, where it ends with its status.
pub fn printed<R: AllocGlobal + Threads + Wait + Sync + Abort, G: Gate>(
    rt: &R,
    case: &Case<'_>,
    gate: &G,
) -> Option<Vec<u8>> {
    let words = texts(rt.alloc(), case.words).expect(rt, ENOUGH);
    match run_of(rt, &words, case, gate) {
        Some(left) if left.status == case.status => Some(left.out),
        _ => None,
    }
}
