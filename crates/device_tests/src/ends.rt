//! How a command ends over the files of the two albums, where calls of the shelf and of the output fail.

ghost use Rattle.std.specs.Prelude.{◌<◌};

use fixtures::texts::{ALBUM_KEY, ALBUM_PROOF, ALBUMS};
use gk_base::{NoMemory, Text};
use gk_io::{MemShelf, MemSink};
use gkey_cmd::run;
use std::alloc::Global;
use std::process::Abort;
use std::sync::Wait;
use std::thread::Threads;

/// A command over the graph `g`, the keys `k` and the proof `p`.
pub struct Command {
    pub words: &'static [&'static str],
    /// What it writes where no device fails.
    pub out: &'static str,
    /// What it says of each of its files where that can't be read, in the order in which it reads them.
    pub unread: &'static [&'static str],
}

/// What a run leaves.
#[derive(Drop)]
pub struct End {
    pub status: u8,
    pub out: Vec<u8>,
    pub err: Vec<u8>,
}

/// What a test ends with where there is no memory for it.
const ENOUGH: &str = "enough memory";

/// The texts of words.
fn texts(alloc: Global, words: &[&str]) -> Result<Vec<Text>, NoMemory> {
    let mut texts = Vec::new(alloc);
    for word in words {
        texts.push(Text::from_bytes(alloc, word.as_bytes())?)?;
    }
    Ok(texts)
}

/// Adds a file with its name.
fn add_file(
    alloc: Global,
    files: &mut Vec<(Text, Vec<u8>)>,
    name: &[u8],
    content: &[u8],
) -> Result<(), NoMemory> {
    let name = Text::from_bytes(alloc, name)?;
    files.push((name, Vec::from_slice(alloc, content)?))?;
    Ok(())
}

/// The files of the albums.
fn files(alloc: Global) -> Result<Vec<(Text, Vec<u8>)>, NoMemory> {
    let mut files = Vec::new(alloc);
    add_file(alloc, &mut files, b"g", ALBUMS)?;
    add_file(alloc, &mut files, b"k", ALBUM_KEY)?;
    add_file(alloc, &mut files, b"p", ALBUM_PROOF.as_bytes())?;
    Ok(files)
}

/// The shelf of the albums, whose call with the number `read` fails.
fn shelf_failing_at(alloc: Global, read: u64) -> Result<MemShelf, NoMemory> {
    let reads = [read].to_vec(alloc)?;
    Ok(MemShelf::new(files(alloc)?, 65_536, reads))
}

/// An output that takes at most `most` bytes in one call, and whose call with the number `write` fails.
fn output_failing_at(alloc: Global, write: u64, most: usize) -> Result<MemSink, NoMemory>
    requires { 0 < most }
{
    MemSink::new(alloc, most, 1000, [write].to_vec(alloc)?)
}

/// The status of the command over these devices.
fn status_over<R: AllocGlobal + Threads + Wait + Sync + Abort>(
    rt: &R,
    command: &Command,
    read: u64,
    out: &mut MemSink,
    err: &mut MemSink,
) -> u8 {
    let alloc = rt.alloc();
    let words = texts(alloc, command.words).expect(rt, ENOUGH);
    let mut shelf = shelf_failing_at(alloc, read).expect(rt, ENOUGH);
    run(rt, alloc, &words, &mut shelf, out, err)
}

/// What the command leaves where the call of the shelf with the number `read` fails, and that of the output with the number
/// `write`; none where a number is 0. A call of the output takes at most `most` bytes.
pub fn end_of<R: AllocGlobal + Threads + Wait + Sync + Abort>(
    rt: &R,
    command: &Command,
    read: u64,
    write: u64,
    most: usize,
) -> End
    requires { 0 < most }
{
    let alloc = rt.alloc();
    let mut out = output_failing_at(alloc, write, most).expect(rt, ENOUGH);
    let mut err = MemSink::new(alloc, 100, 100, Vec::new(alloc)).expect(rt, ENOUGH);
    let status = status_over(rt, command, read, &mut out, &mut err);
    End {
        status,
        out: out.bytes().to_vec(alloc).expect(rt, ENOUGH),
        err: err.bytes().to_vec(alloc).expect(rt, ENOUGH),
    }
}
