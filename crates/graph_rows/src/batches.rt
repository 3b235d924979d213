//! Reading and numbering, a batch of pieces after the other. While the triples of one are numbered in a second thread, the pieces of
//! the next are read and judged in the caller's. Where more threads may be used, they help the second one to look the terms up; with
//! one thread each is numbered before the next is read.

ghost use Rattle.std.specs.Prelude.{◌≡◌, ◌+◌, ◌*◌, ◌<◌, ◌≤◌, ◌^◌, ◌++◌, [], List, length, vec_len, IsOk, IsErr, OnOk, Err};
ghost use Rattle.gk_base.specs.declared.stop.Stop.TheVariants as stop;
ghost use Rattle.gk_base.specs.declared.term.Triple.{Triple as AnyTriple};
ghost use Rattle.nt_reader.specs.Kept.{HasRead};
ghost use Rattle.graph_rows.specs.Rows.{StandFor, GoOn, LeaveRoom};
ghost use Rattle.graph_rows.specs.Feeding.{FeedsBatch, FeedsAll};

use crate::pieces::feed_next;
use crate::rows::Rows;
use gk_base::{NoMemory, ReadRefusal};
use gk_io::{FileStop, Shelf};
use nt_reader::Reader;
use std::thread::{Threads, join_mut};
use term_list::Triples;

/// The first batch of several threads ends with the piece that makes it so many bytes: until it is read, nothing is numbered.
const FIRST: usize = 131_072;

/// Each batch of theirs is twice as large as the one before, up to so many bytes. Each but the last costs the start of a thread, which the
/// system may put beside the caller's for some milliseconds before it gives it a processor of its own; so they are to be few.
/// While the last is numbered nothing is read, and two batches lie in memory; so they are not to be larger.
const LARGEST: usize = 4_194_304;

/// Reads and feeds the pieces of a batch of so many bytes, or those that are left, and answers whether the file is at its end.
fn feed_batch<S: Shelf>(
    shelf: &mut S,
    buf: &mut Vec<u8>,
    reader: &mut Reader,
    size: usize,
) -> Result<bool, FileStop<ReadRefusal>>
    requires size { (0 < size) × (size ≤ LARGEST) }
    requires some { 0 < vec_len buf.old }
    requires few { vec_len buf.old ≤ 65536 }
    requires running { IsOk reader.old.so_far }
    ensures room { vec_len buf.new ≡ vec_len buf.old }
    ensures held { S.held shelf.new ≡ S.held shelf.old }
    ensures asked { S.asked shelf.new ≡ S.asked shelf.old }
    ensures limits { reader.new.limits ≡ reader.old.limits }
    ensures feeds { FeedsBatch S.Shelf shelf.old shelf.new reader.old reader.new result }
{
    let mut bytes = 0;
    'pieces: while bytes < size {
        let count = feed_next(shelf, buf, reader)?;
        if count == 0 {
            return Ok(true);
        }
        bytes += count;
    }
    Ok(false)
}

/// The answer where one batch was numbered while another was fed: what stops the reading, whatever became of the numbering, or
/// else what stops the numbering.
fn answer_of(
    numbered: Result<(), NoMemory>,
    fed: Result<bool, FileStop<ReadRefusal>>,
) -> Result<bool, FileStop<ReadRefusal>>
    ensures done { IsOk numbered → result ≡ fed }
    ensures stopped { IsErr fed → result ≡ fed }
    ensures wanting { IsErr numbered → IsOk fed → result ≡ Err stop.NoMemory }
{
    let at_end = fed?;
    numbered?;
    Ok(at_end)
}

/// Numbers these triples, behind those that came before, while the next batch is read and fed, or before it where there is one
/// thread. It leaves the list empty, and answers whether the file is at its end. What stops the reading is the answer, whatever
/// became of the numbering meanwhile.
fn number_and_feed<S: Shelf, R: Threads + Sync>(
    rt: &R,
    threads: u32,
    shelf: &mut S,
    buf: &mut Vec<u8>,
    reader: &mut Reader,
    triples: &mut Triples,
    rows: &mut Rows,
    size: usize,
) -> Result<bool, FileStop<ReadRefusal>>
    requires size { (0 < size) × (size ≤ LARGEST) }
    requires some { 0 < vec_len buf.old }
    requires few { vec_len buf.old ≤ 65536 }
    requires running { IsOk reader.old.so_far }
    requires names { length rows.old.names + 3 * length triples.old < 2 ^ 32 }
    ensures room { vec_len buf.new ≡ vec_len buf.old }
    ensures held { S.held shelf.new ≡ S.held shelf.old }
    ensures asked { S.asked shelf.new ≡ S.asked shelf.old }
    ensures limits { reader.new.limits ≡ reader.old.limits }
    ensures feeds { FeedsBatch S.Shelf shelf.old shelf.new reader.old reader.new result }
    ensures empty { OnOk result (triples.new ≡ []) }
    ensures stand { OnOk result ((before : List AnyTriple) → StandFor rows.old before → StandFor rows.new (before ++ triples.old)) }
{
    if threads < 2 {
        rows.add(rt, 1, triples)?;
        return feed_batch(shelf, buf, reader, size);
    }
    let theirs = threads - 1;
    let (numbered, fed) = join_mut(
        rt,
        &mut || -> Result<(), NoMemory>
            requires { length rows.now.names + 3 * length triples.now < 2 ^ 32 }
        { rows.add(rt, theirs, triples) },
        &mut || feed_batch(shelf, buf, reader, size),
    );
    answer_of(numbered, fed)
}

/// How many bytes the batch has that comes behind one of so many, or the first, behind none. With one thread each is a piece:
/// what is made of it is still near when it is numbered.
fn next_size(threads: u32, size: usize) -> usize
    requires { size ≤ LARGEST }
    ensures { (0 < result) × (result ≤ LARGEST) }
{
    if threads < 2 {
        1
    } else {
        LARGEST.min(FIRST.max(size * 2))
    }
}

/// Reads on to the end of the file. The triples that a batch ends are numbered, behind those that are there, while the next
/// batch is read, or before it. So each lies in one of two lists, that of the reader or this one, which change places between two
/// batches.
pub(crate) fn feed_in_batches<S: Shelf, R: Threads + Sync>(
    rt: &R,
    threads: u32,
    shelf: &mut S,
    buf: &mut Vec<u8>,
    reader: &mut Reader,
    triples: &mut Triples,
    rows: &mut Rows,
) -> Result<(), FileStop<ReadRefusal>>
    requires some { 0 < vec_len buf.old }
    requires few { vec_len buf.old ≤ 65536 }
    requires room { LeaveRoom rows.old reader.old.limits.triples }
    requires fresh { HasRead reader.old [] [] }
    requires running { IsOk reader.old.so_far }
    requires none { triples.old ≡ [] }
    ensures held { S.held shelf.new ≡ S.held shelf.old }
    ensures asked { S.asked shelf.new ≡ S.asked shelf.old }
    ensures limits { reader.new.limits ≡ reader.old.limits }
    ensures feeds { FeedsAll S.Shelf shelf.old shelf.new reader.old.limits reader.new (GoOn rows.old rows.new) result }
{
    let mut size = next_size(threads, 0);
    let mut at_end = feed_batch(shelf, buf, reader, size)?;
    'batches: loop {
        reader.take_triples(triples);
        if at_end {
            rows.add(rt, threads, triples)?;
            return Ok(());
        }
        size = next_size(threads, size);
        at_end = number_and_feed(rt, threads, shelf, buf, reader, triples, rows, size)?;
    }
}
