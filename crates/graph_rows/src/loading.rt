//! The first bytes of a file, as many as a limit lets in and one more.

ghost use Rattle.std.specs.Prelude.{◌≡◌, ◌<◌, ◌≤◌, ◌+◌, ◌^◌, ◌++◌, ◌↔◌, [], Some, take, length, vec_len, IfOk, IfErr, OnOk, IfSome, IsSomeAnd};
ghost use Rattle.gk_io.specs.Files.{bytes_of};
ghost use Rattle.graph_rows.specs.Loaded.{LoadStops};
ghost use Rattle.graph_rows.specs.Feeding.{ReadStops};

use gk_base::{NoMemory, Stop, Text};
use gk_io::{Failed, Shelf};
use std::alloc::Global;

/// The most bytes that are read at once. What is made of a piece of a graph, its terms, their numbers and the places where
/// they are looked up, is used again and again before the next is read, so a piece is small enough that all of it stays in the
/// processor's nearest cache. Contracts promise no more than 65,536, so that it can change without them.
pub(crate) const PIECE: usize = 8_192;

/// A buffer for one read of so many bytes.
pub(crate) fn buffer(alloc: Global, size: usize) -> Result<Vec<u8>, NoMemory>
    requires some { 0 < size }
    requires few { size ≤ 65536 }
    ensures some { IfOk result (λ v. 0 < vec_len v) }
    ensures few { IfOk result (λ v. vec_len v ≤ 65536) }
{
    Ok(vec![in alloc; 0u8; size]?)
}

/// Reads some bytes through the buffer, and none only at the end.
fn read_more<S: Shelf>(
    shelf: &mut S,
    buf: &mut [u8],
    bytes: &mut Vec<u8>,
) -> Result<usize, Stop<Failed>>
    requires { 0 < length buf.old }
    ensures held { S.held shelf.new ≡ S.held shelf.old }
    ensures asked { S.asked shelf.new ≡ S.asked shelf.old }
    ensures within { IfOk result (λ n. n ≤ length buf.old) }
    ensures len { IfOk result (λ n. vec_len bytes.new ≡ vec_len bytes.old + n) }
    ensures bytes { IfOk result (λ n. IfSome (S.rest shelf.old) (λ old. IsSomeAnd (S.rest shelf.new) (λ new.
        (bytes.new.items ++ new ≡ bytes.old.items ++ old) × ((n ≡ 0) ↔ (old ≡ []))))) }
    ensures count { OnOk result (S.faults shelf.new ≡ S.faults shelf.old) }
    ensures stop { IfErr result (ReadStops S.Shelf shelf.old shelf.new) }
{
    let n = shelf.read(buf)?;
    bytes.extend_from_slice(&buf[..n])?;
    Ok(n)
}

/// The first bytes of the file of this name, up to one more than the limit, so that who judges them can tell a file that is
/// longer than the limit from one that is not. No more of the file is read.
///
/// `NoMemory` may come at any time, and the shelf did not fail then. `Failed` comes where the shelf failed at this file.
pub fn load<S: Shelf>(
    alloc: Global,
    shelf: &mut S,
    name: &Text,
    limit: u64,
) -> Result<Vec<u8>, Stop<Failed>>
    requires { limit < 2 ^ 62 }
    ensures held { S.held shelf.new ≡ S.held shelf.old }

    // What was read, and what is left.
    ensures few { IfOk result (λ v. length v.items < 2 ^ 63) }
    ensures within { IfOk result (λ v. length v.items ≤ limit + 1) }
    ensures bytes { IfOk result (λ v. IfSome (S.held shelf.old) (λ files. v.items ≡ take (limit + 1) (bytes_of files name.now))) }
    ensures asked { OnOk result (S.asked shelf.new ≡ Some name.now) }
    ensures left { IfOk result (λ v. IfSome (S.held shelf.old) (λ files. IsSomeAnd (S.rest shelf.new) (λ rest. v.items ++ rest ≡ bytes_of files name.now))) }
    ensures count { OnOk result (S.faults shelf.new ≡ S.faults shelf.old) }

    // Why not.
    ensures stop { IfErr result (LoadStops S.Shelf shelf.old shelf.new name.now) }
{
    let mut buf = buffer(alloc, PIECE)?;
    shelf.find(name.copy()?)?;
    let mut bytes = Vec::new(alloc);
    let mut room = limit as usize + 1;
    while room > 0 {
        let most = room.min(buf.len());
        let n = read_more(shelf, &mut buf[..most], &mut bytes)?;
        if n == 0 {
            break;
        }
        room -= n;
    }
    Ok(bytes)
}
