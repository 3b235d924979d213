//! The marks of a list's terms: from a term to its place.

ghost use Rattle.std.specs.Prelude.{◌≡◌, ◌≢◌, ℕ, ◌+◌, ◌*◌, ◌^◌, ◌<◌, [], ◌∷◌, ◌++◌, List, length, take, slice_get, Some, IfSome, IfNone, IfOk, OnErr};
ghost use Rattle.gk_base.specs.declared.term.Term.{Term as AnyTerm};

use crate::hashing::TermHasher;
use gk_base::NoMemory;
use indexmap::IndexSet;
use std::alloc::Global;
use term_list::{TermRef, Terms};

/// The place of no term. No list has a term there, since there are fewer than 2^32 of them; so lists of places that may be
/// missing take four bytes a place, and not the eight of an `Option`.
pub(crate) const NO_PLACE: u32 = u32::MAX;

/// The marks of a list's terms, in the order of the list. A term's mark is the first number from its hash on that is no mark
/// of a term before it.
///
/// A set of numbers is so enough to look terms up: a search asks it for the term's hash, then for the number behind it, and so
/// on; where a number is a mark, its place in the set is that of the term in the list, whose texts decide; and the first
/// number that is no mark ends the search, since the term would have got it.
#[derive(Drop)]
pub struct Marks {
    hasher: TermHasher,
    set: IndexSet<u32>,
}

impl Marks {
    ghost use Rattle.term_table.specs.Marks.{hash_of, AreMarksOf, AreMarked, HasOneMore};

    /// The marks of no terms, which will be hashed so. It takes no memory.
    pub(crate) fn new(alloc: Global, hasher: TermHasher) -> Marks
        ensures { AreMarksOf (hash_of result.hasher) result.set.keys [] }
    {
        Marks {
            hasher,
            set: IndexSet::new(alloc),
        }
    }

    /// How the terms are hashed.
    #[inline]
    pub(crate) fn hasher(&self) -> TermHasher {
        self.hasher
    }

    /// Makes room for about so many more, as far as there is memory.
    pub(crate) fn expect(&mut self, count: usize)
        ensures keys { self.new.set.keys ≡ self.old.set.keys }
        ensures hasher { self.new.hasher ≡ self.old.hasher }
    {
        let _ = self.set.reserve(count);
    }

    /// The place of this term.
    pub(crate) fn find(&self, terms: &Terms, term: &TermRef<'_>) -> Option<u32>
        requires { AreMarked (hash_of self.now.hasher) self.now.set.keys terms.now }
        ensures found { IfSome result (λ place. slice_get terms.now place ≡ Some term.now) }
        ensures absent { IfNone result ((place : ℕ) → slice_get terms.now place ≢ Some term.now) }
    {
        let mut mark = self.hasher.hash_of(term);
        loop {
            let place = self.set.get_index_of(&mark)?;
            if terms.get(place).is_same(term) {
                return Some(place as u32);
            }
            if mark == u32::MAX {
                return None;
            }
            mark += 1;
        }
    }

    /// The place of the term with this mark, or no place.
    #[inline]
    pub(crate) fn place_with(&self, mark: u32) -> u32 {
        match self.set.get_index_of(&mark) {
            Some(place) if place < NO_PLACE as usize => place as u32,
            _ => NO_PLACE,
        }
    }

    // How many more are worth making room for, now that there is none, and 0 while there is some. It is many at once, since
    // each move of the marks takes time for all of them.
    fn wanted(&self) -> usize {
        let count = self.set.len();
        if count == self.set.capacity() {
            count.saturating_mul(3)
        } else {
            0
        }
    }

    /// The place of this term, or none where it is new: then it has got its mark, as the term behind the last. After
    /// `NoMemory`, which comes also where no number is left for it, the marks are as they were.
    pub(crate) fn enter(
        &mut self,
        terms: &Terms,
        term: &TermRef<'_>,
    ) -> Result<Option<u32>, NoMemory>
        requires { AreMarked (hash_of self.old.hasher) self.old.set.keys terms.now }
        ensures found { IfOk result (λ r. IfSome r (λ place. slice_get terms.now place ≡ Some term.now)) }
        ensures same { IfOk result (λ r. IfSome r (λ _. self.new.set.keys ≡ self.old.set.keys)) }
        ensures absent { IfOk result (λ r. IfNone r ((place : ℕ) → slice_get terms.now place ≢ Some term.now)) }
        ensures added { IfOk result (λ r. IfNone r
            (HasOneMore (hash_of self.old.hasher) self.old.set.keys terms.now term.now self.new.set.keys)) }
        ensures err { OnErr result (self.new.set.keys ≡ self.old.set.keys) }
        ensures hasher { self.new.hasher ≡ self.old.hasher }
    {
        let mut mark = self.hasher.hash_of(term);
        self.expect(self.wanted());
        loop {
            let (place, is_new) = self.set.insert_full(mark)?;
            if is_new {
                return Ok(None);
            }
            if terms.get(place).is_same(term) {
                return Ok(Some(place as u32));
            }
            if mark == u32::MAX {
                return Err(NoMemory);
            }
            mark += 1;
        }
    }

    /// Keeps the first so many marks.
    pub(crate) fn truncate(&mut self, len: usize)
        ensures keys { self.new.set.keys ≡ take len self.old.set.keys }
        ensures hasher { self.new.hasher ≡ self.old.hasher }
    {
        self.set.truncate(len);
    }
}
