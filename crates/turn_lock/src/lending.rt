//! The value within a turn. Its clause names the row of `Turn`, which the file that declares `Turn` can't import.
ghost use Rattle.std.specs.Prelude.{◌≡◌};
ghost use Rattle.std.specs.Borrow.{sem};
ghost use Rattle.turn_lock.specs.Lending.{LendsValue};

use crate::Journaled;
use crate::handles::Turn;

impl<T: Journaled> Turn<T> {
    /// The value, to read and to write. What is written through it is what `leave` gives back.
    pub fn value(&mut self) -> &mut T
        ensures* writes_back { sem 𝓛 (LendsValue T.row T.Base.row T.Item.row self.entry result) }
        ensures value { result.now ≡ self.old.value }
    {
        &mut self.value
    }
}
