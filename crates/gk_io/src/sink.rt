//! What every taker of bytes promises, and writing a whole text to one.

ghost use Rattle.std.specs.Prelude.{◌≡◌, ◌<◌, ◌≤◌, [], Option, List, ℕ, length, take, IfOk, OnOk, OnErr};
ghost use Rattle.gk_io.specs.Cause.{HasCause};
ghost use Rattle.gk_io.specs.Taken.{Appends, AppendsLess};

use crate::Failed;

/// A taker of bytes, which may take a piece a part at a time.
///
/// A sink may leave untold what it took: `taken` is then none, and no clause speaks of the bytes. It may also stop
/// telling, and never begins to tell later.
pub trait Sink {
    /// How often it has failed. It never falls, and stands still at 2^64 - 1.
    ghost faults: { Self → ℕ };

    /// All bytes that it took, in order, where it tells them.
    ghost taken: { Self → Option (List ℕ) };

    /// Takes bytes off the front of the piece, and answers how many: at least 1 of a piece that is not empty.
    ///
    /// After `Failed` it took none.
    fn write(&mut self, piece: &[u8]) -> Result<usize, Failed>
        ensures cause { HasCause (faults self.old) (faults self.new) result }
        ensures count { IfOk result (λ n. (n ≤ length piece.now) × (0 < length piece.now → 0 < n)) }
        ensures ok { IfOk result (λ n. Appends (taken self.old) (taken self.new) (take n piece.now)) }
        ensures err { OnErr result (taken self.new ≡ taken self.old) };
}

/// Writes the whole text, by as many calls of `write` as that takes. An empty text makes no call. Each call is handed all of
/// the text that is left, which a test shows, since a sink's contract says what it took and not what it was handed.
///
/// After `Failed` the sink took a front of the text that is not the whole.
pub fn write_all<K: Sink>(sink: &mut K, text: &[u8]) -> Result<(), Failed>
    ensures cause { HasCause (K.faults sink.old) (K.faults sink.new) result }
    ensures ok { OnOk result (Appends (K.taken sink.old) (K.taken sink.new) text.now) }
    ensures err { OnErr result (AppendsLess (K.taken sink.old) (K.taken sink.new) text.now) }
    ensures empty { text.now ≡ [] → sink.new ≡ sink.old }
{
    let mut at = 0;
    while at < text.len() {
        at += sink.write(&text[at..])?;
    }
    Ok(())
}
