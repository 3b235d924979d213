//! A sink over a writer of std, as the streams of the system are.

ghost use Rattle.std.specs.Prelude.{◌≡◌, ◌≤◌, ◌<◌, ◌+◌, ◌-◌, ◌^◌, None, length, min, take, IfOk, OnErr};
ghost use Rattle.std.specs.Io.KnownBytes.{Appends, Keeps};
ghost use Rattle.gk_io.specs.Cause.{HasCause};

use crate::retries::MOST_TRIES;
use crate::{Failed, Sink};
use std::io::{ErrorKind, Write};
use std::marker::Model;

/// Writes some bytes of a piece, and none only of an empty one.
fn write_some<W: Write>(writer: &mut W, piece: &[u8]) -> Result<usize, Failed>
    ensures count { IfOk result (λ n. (n ≤ length piece.now) × (0 < length piece.now → 0 < n)) }
    ensures ok { IfOk result (λ n. Appends (W.contents writer.old) (W.contents writer.new) (take n piece.now)) }
    ensures err { OnErr result (Keeps (W.contents writer.old) (W.contents writer.new)) }
{
    for _ in 0..MOST_TRIES {
        match writer.write(piece) {
            Ok(n) if n > 0 || piece.is_empty() => return Ok(n),
            Err(e) if e.kind() == ErrorKind::Interrupted => {}
            _ => return Err(Failed),
        }
    }
    Err(Failed)
}

/// Hands on what the writer keeps back.
fn flush<W: Write>(writer: &mut W) -> Result<(), Failed>
    ensures bytes { Keeps (W.contents writer.old) (W.contents writer.new) }
{
    for _ in 0..MOST_TRIES {
        match writer.flush() {
            Ok(()) => return Ok(()),
            Err(e) if e.kind() == ErrorKind::Interrupted => {}
            Err(_) => return Err(Failed),
        }
    }
    Err(Failed)
}

/// A stream of the system, or another writer of std, which is flushed after each write. As a sink it tells no bytes.
///
/// A call that was interrupted is tried again, at most 1,000 times in a row, and then counts as a failure. So does
/// a write that takes nothing of a piece that is not empty, and a flush that fails. A writer's contract says nothing of a flush
/// or of an interruption, so tests alone show that each write is flushed and that a call is tried again.
#[derive(Drop)]
pub struct OutSink<W: Write> {
    writer: W,
    faults: u64,
}

impl<W: Write> Model for OutSink<W> {
    ghost use Rattle.gk_io.specs.OutSink as out;

    ghost Value = { out.OutSink };

    ghost view = { λ s. record { contents = W.contents s.writer; faults = s.faults } };
}

impl<W: Write> OutSink<W> {
    /// A sink that passes on to this writer.
    pub fn new(writer: W) -> OutSink<W>
        ensures contents { result.contents ≡ W.contents writer }
        ensures faults { result.faults ≡ 0 }
    {
        OutSink { writer, faults: 0 }
    }
}

impl<W: Write> Sink for OutSink<W> {
    ghost faults = { λ s. s.faults };

    ghost taken = { λ s. None };

    /// Writes some bytes of the piece, and flushes. Where the flush failed the writer may hold them nevertheless.
    fn write(&mut self, piece: &[u8]) -> Result<usize, Failed>
        ensures passes { IfOk result (λ n. Appends self.old.contents self.new.contents (take n piece.now)) }
        ensures counts { OnErr result (self.new.faults ≡ min (self.old.faults + 1) (2 ^ 64 - 1)) }

        // What every sink promises.
        ensures cause { HasCause self.old.faults self.new.faults result }
        ensures count { IfOk result (λ n. (n ≤ length piece.now) × (0 < length piece.now → 0 < n)) }
    {
        if let Ok(count) = write_some(&mut self.writer, piece)
            && let Ok(()) = flush(&mut self.writer)
        {
            return Ok(count);
        }
        self.faults = self.faults.saturating_add(1);
        Err(Failed)
    }
}

#[cfg(test)]
mod tests;
