//! The hashes of terms.

ghost use Rattle.std.specs.Prelude.{◌≡◌};
ghost use Rattle.term_table.specs.Marks.{hash_of};

use std::hash::{FoldHasher, Hasher};
use term_list::TermRef;

/// How a table hashes its terms. Only speed rests on it: every contract holds for each of them.
#[derive(Clone, Copy)]
pub struct TermHasher {
    /// What std's fast hasher is before a term, so that a seed costs its time once.
    start: FoldHasher,
}

impl TermHasher {
    /// The hasher that is the same in every run.
    pub(crate) fn fixed() -> TermHasher {
        TermHasher {
            start: FoldHasher::default(),
        }
    }

    /// A hasher that begins with this seed. Who does not know the seed can't search for terms with hashes of his choice.
    pub(crate) fn seeded(seed: u64) -> TermHasher {
        let mut start = FoldHasher::default();
        start.write(&seed.to_le_bytes());
        TermHasher { start }
    }

    /// The hash of a term. Its kind is left out: hashing it too would cost each look-up a third write, and terms of different
    /// kinds with the same texts are so few that the marks behind a shared hash hold them.
    #[inline]
    pub(crate) fn hash_of(&self, term: &TermRef<'_>) -> u32
        ensures { result ≡ hash_of self.now term.now }
    {
        let mut hasher = self.start;
        hasher.write(term.first());
        hasher.write(term.second());
        (hasher.finish() >> 33) as u32
    }
}
