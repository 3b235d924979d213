//! What every shelf of files promises: files that are found by name and then read from front to back.

ghost use Rattle.std.specs.Prelude.{◌≡◌, ◌≤◌, ◌||◌, ◌↔◌, Bool, Option, List, ℕ, Some, length, is_err, IsTrue, IsErr, IfOk, IfSome, IsSomeAnd, OnOk, OnErr};
ghost use Rattle.gk_io.specs.Cause.{HasCause};
ghost use Rattle.gk_io.specs.Files.{bytes_of, TakesNext};

use crate::Failed;
use gk_base::Text;

/// Files that are found by name and then read from front to back, one at a time.
///
/// A shelf may leave untold what its files hold: `held` and `rest` are then none, and no clause speaks of the
/// bytes. Every other clause holds of every shelf.
pub trait Shelf {
    /// How often it has failed. It never falls, and stands still at 2^64 - 1.
    ghost faults: { Self → ℕ };

    /// The name handed to the last `find`, whatever that call answered. None before the first `find`.
    ghost asked: { Self → Option (List ℕ) };

    /// Whether the last `find`, or a `read` after it, failed.
    ghost bad: { Self → Bool };

    /// Its files, where it tells them: names and bytes. Of several files with one name the first counts.
    ghost held: { Self → Option (List (List ℕ × List ℕ)) };

    /// The bytes of the file found last that are still unread, where it tells them. Empty before the first `find`
    /// that answers Ok.
    ghost rest: { Self → Option (List ℕ) };

    /// Turns to the file of this name, to read it from its first byte.
    ///
    /// After `Failed` the file found before stays the one that is read. Where `held` is told and lacks the name,
    /// Ok leaves nothing to read.
    fn find(&mut self, name: Text) -> Result<(), Failed>
        ensures cause { HasCause (faults self.old) (faults self.new) result }
        ensures asked { asked self.new ≡ Some name }
        ensures bad { IsTrue (bad self.new) ↔ IsErr result }
        ensures held { held self.new ≡ held self.old }
        ensures found { OnOk result (IfSome (held self.old) (λ files. rest self.new ≡ Some (bytes_of files name))) }
        ensures err { OnErr result (rest self.new ≡ rest self.old) };

    /// Reads on into the front of the buffer, and answers how many bytes it read. It may read fewer than would
    /// fit, but 0 for a non-empty buffer only at the end of the file.
    ///
    /// After `Failed` nothing was taken off the file; what the buffer then holds is not said.
    fn read(&mut self, buf: &mut [u8]) -> Result<usize, Failed>
        ensures cause { HasCause (faults self.old) (faults self.new) result }
        ensures asked { asked self.new ≡ asked self.old }
        ensures bad { bad self.new ≡ (bad self.old || is_err result) }
        ensures held { held self.new ≡ held self.old }
        ensures within { IfOk result (λ n. n ≤ length buf.old) }
        ensures bytes { IfOk result (λ n. IfSome (rest self.old) (λ old.
            IsSomeAnd (rest self.new) (λ new. TakesNext (length buf.old) n old new buf.new))) }
        ensures err { OnErr result (rest self.new ≡ rest self.old) };

    /// About how many bytes the file found last has. It is a guess, and 0 where nothing is known, so nothing but the time that
    /// a reader takes may rest on it.
    fn size_hint(&self) -> u64 {
        0
    }

    /// A number that who made the files can't have foreseen, to begin hashes with, and none where there is no such number. It
    /// may be another at each call, so nothing but the time that a reader takes may rest on it.
    fn hash_seed(&self) -> Option<u64> {
        None
    }
}
