//! A graph, read piece by piece: from a shelf's file to rows and names, numbered as they come; or what stopped it.

ghost use Rattle.std.specs.Prelude.{◌≡◌, ◌+◌, ◌<◌, ◌≤◌, ◌^◌, length};
ghost use Rattle.graph_rows.specs.Rows.{LeaveRoom, most_triples};
ghost use Rattle.graph_rows.specs.GraphFile.{GivesRows, GivesMoreRows};
ghost use Rattle.graph_rows.specs.Feeding.{FeedsNext, ReadsBehind};

use crate::batches::feed_in_batches;
use crate::loading::{PIECE, buffer};
use crate::rows::Rows;
use gk_base::{Limits, ReadRefusal, Text};
use gk_io::{FileStop, Shelf, file_stop};
use nt_reader::Reader;
use std::alloc::Global;
use std::thread::Threads;
use term_list::Triples;

/// Reads the next piece and feeds it, and answers how many bytes it has: none only at the end.
pub(crate) fn feed_next<S: Shelf>(
    shelf: &mut S,
    buf: &mut [u8],
    reader: &mut Reader,
) -> Result<usize, FileStop<ReadRefusal>>
    requires { 0 < length buf.old }
    ensures held { S.held shelf.new ≡ S.held shelf.old }
    ensures asked { S.asked shelf.new ≡ S.asked shelf.old }
    ensures limits { reader.new.limits ≡ reader.old.limits }
    ensures feeds { FeedsNext S.Shelf shelf.old shelf.new (length buf.old) reader.old reader.new result }
{
    let count = shelf.read(buf)?;
    reader.feed(&buf[..count]).map_err(file_stop)?;
    Ok(count)
}

/// Rows, and how many of them came first.
#[derive(Drop)]
pub struct MoreRows {
    /// All rows, with the names of all.
    pub rows: Rows,
    /// How many of the rows were there before.
    pub first: usize,
}

/// Finds the file of this name, reads it to its end, and numbers its triples behind those that are there.
fn read_behind<S: Shelf, R: Threads + Sync>(
    rt: &R,
    alloc: Global,
    threads: u32,
    shelf: &mut S,
    name: &Text,
    limits: &Limits,
    rows: &mut Rows,
) -> Result<(), FileStop<ReadRefusal>>
    requires bytes { limits.now.bytes + 1 < 2 ^ 64 }
    requires room { LeaveRoom rows.old limits.now.triples }
    ensures held { S.held shelf.new ≡ S.held shelf.old }
    ensures reads { ReadsBehind S.Shelf shelf.old shelf.new limits.now name.now rows.old rows.new result }
{
    let mut buf = buffer(alloc, PIECE)?;
    shelf.find(name.copy()?)?;
    let mut reader = Reader::new(alloc, limits);
    rows.expect(shelf.size_hint());
    let mut triples = Triples::new(alloc);
    feed_in_batches(
        rt,
        threads,
        shelf,
        &mut buf,
        &mut reader,
        &mut triples,
        rows,
    )?;
    let mut last = reader.finish().map_err(file_stop)?;
    rows.add(rt, 1, &mut last)?;
    Ok(())
}

/// The rows and names of the graph of this name. The file is read piece by piece, and no further once it is refused: of the
/// limits, those of bytes and of triples count. A graph has 2^30 triples at most.
///
/// `threads` says how many threads may be used, the caller's among them. With 2 or more, the triples of some pieces are looked
/// up and numbered while the next ones are read and judged. With fewer, all is done on the caller's. The answer is the same.
///
/// - `NoMemory` may come at any time, and says nothing of the file.
/// - `FileFault::Failed`: the shelf could not find the file, or could not read it to its end.
/// - `FileFault::Refused`: the first line that is faulty or beyond a limit, and why.
pub fn read_rows<S: Shelf, R: Threads + Sync>(
    rt: &R,
    alloc: Global,
    threads: u32,
    shelf: &mut S,
    name: &Text,
    limits: &Limits,
) -> Result<Rows, FileStop<ReadRefusal>>
    requires bytes { limits.now.bytes + 1 < 2 ^ 64 }
    requires triples { limits.now.triples ≤ most_triples }
    ensures held { S.held shelf.new ≡ S.held shelf.old }
    ensures gives { GivesRows S.Shelf shelf.old shelf.new limits.now name.now result }
{
    let mut rows = Rows::new(alloc, shelf.hash_seed());
    read_behind(rt, alloc, threads, shelf, name, limits, &mut rows)?;
    Ok(rows)
}

/// The rows and names of the graph of this name behind those that are there, as `read_rows` reads them. A term that is a name
/// already keeps its number. The limit of triples counts those of this file alone, and has to leave room: with the triples
/// that are there they may be no more than a graph may have.
///
/// What stops it is what stops `read_rows`, and the rows that were there are gone then.
pub fn read_more_rows<S: Shelf, R: Threads + Sync>(
    rt: &R,
    alloc: Global,
    threads: u32,
    shelf: &mut S,
    name: &Text,
    limits: &Limits,
    rows: Rows,
) -> Result<MoreRows, FileStop<ReadRefusal>>
    requires bytes { limits.now.bytes + 1 < 2 ^ 64 }
    requires room { LeaveRoom rows limits.now.triples }
    ensures held { S.held shelf.new ≡ S.held shelf.old }
    ensures gives { GivesMoreRows S.Shelf shelf.old shelf.new limits.now name.now rows result }
{
    let first = rows.rows.len();
    let mut rows = rows;
    read_behind(rt, alloc, threads, shelf, name, limits, &mut rows)?;
    Ok(MoreRows { rows, first })
}
