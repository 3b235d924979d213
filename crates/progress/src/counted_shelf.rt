//! A shelf that counts what is read from another.

ghost use Rattle.std.specs.Prelude.{◌≡◌};

use crate::Counts;
use gk_base::Text;
use gk_io::{Failed, Shelf};

/// A shelf that counts the bytes which are read from another, and is as that one in all else.
#[derive(Drop)]
pub struct CountedShelf<'a, S: Shelf> {
    /// The shelf that is read.
    pub shelf: S,
    counts: &'a Counts,
}

impl<'a, S: Shelf> CountedShelf<'a, S> {
    /// This shelf, with what is read from it counted.
    pub fn new(shelf: S, counts: &'a Counts) -> CountedShelf<'a, S>
        ensures { result.shelf ≡ shelf }
    {
        CountedShelf { shelf, counts }
    }
}

impl<'a, S: Shelf> Shelf for CountedShelf<'a, S> {
    ghost faults = { λ s. S.faults s.shelf };

    ghost asked = { λ s. S.asked s.shelf };

    ghost bad = { λ s. S.bad s.shelf };

    ghost held = { λ s. S.held s.shelf };

    ghost rest = { λ s. S.rest s.shelf };

    fn find(&mut self, name: Text) -> Result<(), Failed> {
        self.shelf.find(name)
    }

    fn read(&mut self, buf: &mut [u8]) -> Result<usize, Failed> {
        match self.shelf.read(buf) {
            Ok(count) => {
                self.counts.add_read(count);
                Ok(count)
            }
            Err(Failed) => Err(Failed),
        }
    }

    fn size_hint(&self) -> u64 {
        self.shelf.size_hint()
    }

    fn hash_seed(&self) -> Option<u64> {
        self.shelf.hash_seed()
    }
}
