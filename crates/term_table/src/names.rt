//! The table of the names.

ghost use Rattle.std.specs.Prelude.{◌≡◌, ℕ, ◌+◌, ◌-◌, ◌^◌, ◌<◌, ◌≤◌, ◌↔◌, [], length, map, drop, slice_get, slice_index, Some, IsSome, IsNone, IfSome, IfOk, OnOk, OnErr, Contains};
ghost use Rattle.term_table.specs.Folding.{FoldsOf, folds_of, IsLiteralAt};
ghost use Rattle.term_table.specs.Known.{AreKnown, AreNumbersOf, HasNumbered};
ghost use Rattle.term_table.specs.Numbering.{with_term, with_terms, place_of, AreDistinct, HasTakenSome};

use crate::ahead::{Ahead, GROUP};
use crate::folding::folds;
use crate::hashing::TermHasher;
use crate::known::Known;
use crate::looking::{FEW, look_in_threads};
use crate::marks::Marks;
use gk_base::{NoMemory, Term};
use std::alloc::Global;
use std::marker::Model;
use std::thread::Threads;
use term_list::{TermRef, Terms};

/// The names of a graph: its distinct terms, each stored once, packed as `Terms` are, with texts of 2^32 - 1 bytes in all
/// at most. A name's number is its place, counted from 0 in the order in which the terms came, and never changes.
/// Contracts see the list of the terms.
///
/// Beside the terms stand their marks, by which they are looked up.
#[derive(Drop)]
pub struct Names {
    alloc: Global,
    terms: Terms,
    marks: Marks,
}

impl Model for Names {
    ghost use Rattle.std.specs.Prelude.{List};
    ghost use Rattle.gk_base.specs.declared.term.Term.{Term};
    ghost use Rattle.term_table.specs.Marks.{AreMarked, hash_of};

    ghost Value = { List Term };

    ghost view = { λ n. n.terms };

    ghost invariant = { λ n. AreMarked (hash_of n.marks.hasher) n.marks.set.keys n.terms };
}

impl Names {
    /// No names. It takes no memory. They are looked up by hashes that are the same in every run, so somebody could search for
    /// terms that take long to look up: where the terms come from others, `with_seed` is better.
    pub fn new(alloc: Global) -> Names
        ensures { result ≡ [] }
    {
        Names::hashed_by(alloc, TermHasher::fixed())
    }

    /// No names, which are looked up by hashes that begin with this seed. Nothing but time depends on the seed. It takes no
    /// memory.
    pub fn with_seed(alloc: Global, seed: u64) -> Names
        ensures { result ≡ [] }
    {
        Names::hashed_by(alloc, TermHasher::seeded(seed))
    }

    /// No names, which will be hashed so.
    pub(crate) fn hashed_by(alloc: Global, hasher: TermHasher) -> Names
        ensures { result ≡ [] }
    {
        Names {
            alloc,
            terms: Terms::new(alloc),
            marks: Marks::new(alloc, hasher),
        }
    }

    /// How many names there are.
    pub fn len(&self) -> u32
        ensures len { result ≡ length self.now }
        ensures small { length self.now < 2 ^ 32 }
        ensures distinct { AreDistinct self.now }
    {
        self.terms.len() as u32
    }

    /// Makes room for about so many more names before they come, as far as there is memory. The number is a guess: more names
    /// may come, or fewer.
    pub fn expect(&mut self, count: u32)
        ensures { self.new ≡ self.old }
    {
        self.marks.expect(count as usize);
    }

    /// The number of this term. A term that is not yet a name becomes the last one. After `NoMemory`, which comes also
    /// where the texts would be longer than the names can hold, the names are as they were.
    pub fn intern(&mut self, term: Term) -> Result<u32, NoMemory>
        requires { length self.old < 2 ^ 32 - 1 }
        ensures place { IfOk result (λ place. slice_get self.new place ≡ Some term) }
        ensures number { IfOk result (λ place. place ≡ place_of self.old term) }
        ensures ok { OnOk result (self.new ≡ with_term self.old term) }
        ensures err { OnErr result (self.new ≡ self.old) }
        ensures distinct { AreDistinct self.new }
    {
        self.intern_lent(&TermRef::of(&term))
    }

    // The number of this term, which becomes the last name where it is new.
    fn intern_lent(&mut self, term: &TermRef<'_>) -> Result<u32, NoMemory>
        requires { length self.old < 2 ^ 32 - 1 }
        ensures place { IfOk result (λ place. slice_get self.new place ≡ Some term.now) }
        ensures ok { OnOk result (self.new ≡ with_term self.old term.now) }
        ensures err { OnErr result (self.new ≡ self.old) }
        ensures distinct { AreDistinct self.new }
    {
        let count = self.terms.len();
        if let Some(place) = self.marks.enter(&self.terms, term)? {
            return Ok(place);
        }
        match self.terms.push(term) {
            Ok(()) => Ok(count as u32),
            Err(error) => {
                // The term stays out, and so does its mark.
                self.marks.truncate(count);
                Err(error)
            }
        }
    }

    // Numbers the next terms of a list, of which this is known. `numbers` has the numbers of those before them, and gets theirs.
    fn number_known(
        &mut self,
        terms: &Terms,
        known: &[Known],
        numbers: &mut Vec<u32>,
    ) -> Result<(), NoMemory>
        requires within { length numbers.old.items + length known.now ≤ length terms.now }
        requires room { length self.old + length known.now < 2 ^ 32 }
        requires numbered { AreNumbersOf self.old terms.now numbers.old.items }
        requires known { AreKnown self.old terms.now (length numbers.old.items) known.now }
        ensures ok { OnOk result (HasNumbered self.old terms.now (length numbers.old.items) self.new numbers.new.items (length known.now)) }
        ensures err { OnErr result (HasTakenSome self.old (drop (length numbers.old.items) terms.now) self.new) }
        ensures distinct { AreDistinct self.new }
    {
        // A fact for the proof: the names are all different.
        let _ = self.len();
        for k in 0..known.len() {
            let number = match known[k] {
                Known::Before(first) => numbers[first as usize],
                Known::Named(number) => number,
                Known::Unknown(_) => self.intern_lent(&terms.get(numbers.len()))?,
            };
            numbers.push(number)?;
        }
        Ok(())
    }

    /// The numbers of these terms, in their order. Those that are no names yet become names one after another, as by
    /// `intern`; those that are names already take no memory. It is faster than one call for each, since the memory of
    /// many look-ups is fetched at once. After `NoMemory` the first of the terms may have become names; no name is lost.
    pub fn intern_all(&mut self, terms: &Terms) -> Result<Vec<u32>, NoMemory>
        requires { length self.old + length terms.now < 2 ^ 32 }
        ensures numbers { IfOk result (λ numbers. numbers.items ≡ map (place_of self.new) terms.now) }
        ensures ok { OnOk result (self.new ≡ with_terms self.old terms.now) }
        // Else the first of the terms have become names, and no name is lost.
        ensures err { OnErr result (HasTakenSome self.old terms.now self.new) }
        ensures distinct { AreDistinct self.new }
    {
        let alloc = self.alloc;
        let mut ahead = Ahead::new(alloc);
        let mut known = Vec::with_capacity(alloc, GROUP)?;
        let mut numbers = Vec::with_capacity(alloc, terms.len())?;
        'groups: while numbers.len() < terms.len() {
            let start = numbers.len();
            let end = terms.len().min(start + GROUP);
            known.clear();
            ahead.look(&self.marks, &self.terms, terms, start, end, &mut known)?;
            self.number_known(terms, &known, &mut numbers)?;
        }
        Ok(numbers)
    }

    /// The same. `threads` says how many threads may be used, the caller's among them. Where there are many terms, they all look
    /// them up before the caller's numbers them; the answer is the same.
    pub fn intern_all_in_threads<R: Threads + Sync>(
        &mut self,
        rt: &R,
        threads: u32,
        terms: &Terms,
    ) -> Result<Vec<u32>, NoMemory>
        requires { length self.old + length terms.now < 2 ^ 32 }
        ensures numbers { IfOk result (λ numbers. numbers.items ≡ map (place_of self.new) terms.now) }
        ensures ok { OnOk result (self.new ≡ with_terms self.old terms.now) }
        // Else the first of the terms have become names, and no name is lost.
        ensures err { OnErr result (HasTakenSome self.old terms.now self.new) }
        ensures distinct { AreDistinct self.new }
    {
        let alloc = self.alloc;
        let count = terms.len();
        if threads < 2 || count < FEW {
            return self.intern_all(terms);
        }
        let known = look_in_threads(
            rt,
            alloc,
            threads,
            &self.marks,
            &self.terms,
            terms,
            0,
            count,
        )?;
        self.number_in_groups(terms, &known)
    }

    // The numbers of these terms, of which this is known, a group after another. The unknown ones of a group are looked up once more
    // before that: some have become names meanwhile, and what the others are put into has been fetched for all of them at once.
    fn number_in_groups(&mut self, terms: &Terms, known: &[Known]) -> Result<Vec<u32>, NoMemory>
        requires one_each { length known.now ≡ length terms.now }
        requires room { length self.old + length terms.now < 2 ^ 32 }
        requires known { AreKnown self.old terms.now 0 known.now }
        ensures numbers { IfOk result (λ numbers. numbers.items ≡ map (place_of self.new) terms.now) }
        ensures ok { OnOk result (self.new ≡ with_terms self.old terms.now) }
        ensures err { OnErr result (HasTakenSome self.old terms.now self.new) }
        ensures distinct { AreDistinct self.new }
    {
        let alloc = self.alloc;
        let mut ahead = Ahead::new(alloc);
        let mut of_group = Vec::with_capacity(alloc, GROUP)?;
        let mut numbers = Vec::with_capacity(alloc, terms.len())?;
        'groups: while numbers.len() < terms.len() {
            let start = numbers.len();
            let end = terms.len().min(start + GROUP);
            let earlier = &known[start..end];
            ahead.look_again(
                &self.marks,
                &self.terms,
                terms,
                start,
                earlier,
                &mut of_group,
            )?;
            self.number_known(terms, &of_group, &mut numbers)?;
        }
        Ok(numbers)
    }

    /// The number of this term, and `None` exactly where it is no name.
    pub fn find(&self, term: &Term) -> Option<u32>
        ensures place { IfSome result (λ place. slice_get self.now place ≡ Some term.now) }
        ensures number { IfSome result (λ place. place ≡ place_of self.now term.now) }
        ensures present { IsSome result ↔ Contains self.now term.now }
        ensures absent { IsNone result ↔ (Contains self.now term.now → ⊥) }
    {
        self.find_ref(&TermRef::of(term))
    }

    /// The number of this term, which is lent, and `None` exactly where it is no name.
    pub fn find_ref(&self, term: &TermRef<'_>) -> Option<u32>
        ensures place { IfSome result (λ place. slice_get self.now place ≡ Some term.now) }
        ensures number { IfSome result (λ place. place ≡ place_of self.now term.now) }
        ensures present { IsSome result ↔ Contains self.now term.now }
        ensures absent { IsNone result ↔ (Contains self.now term.now → ⊥) }
    {
        self.marks.find(&self.terms, term)
    }

    /// The term with this number.
    #[inline]
    pub fn term(&self, place: u32) -> TermRef<'_>
        requires { place < length self.now }
        ensures { slice_get self.now place ≡ Some result }
    {
        self.terms.get(place as usize)
    }

    /// For each name a number. A literal's is the least number of a literal of the same kind, with the same datatype or
    /// the same language tag, whose lexical form is equal once case is folded (Unicode's default case folding). What
    /// is no literal has its own number. `threads` says how many threads may be used, the caller's among them; the answer is
    /// the same.
    pub fn alike<R: Threads + Sync>(&self, rt: &R, threads: u32) -> Result<Vec<u32>, NoMemory>
        ensures folds { IfOk result (λ numbers. FoldsOf self.now numbers.items) }
        ensures value { IfOk result (λ numbers. numbers.items ≡ folds_of self.now) }

        // Two names are alike where they have the same number, which is that of the first of them.
        ensures one_each { IfOk result (λ numbers. length numbers.items ≡ length self.now) }
        ensures not_above { IfOk result (λ numbers. (n : ℕ) → n < length self.now → slice_index numbers.items n ≤ n) }
        ensures itself { IfOk result (λ numbers. (n : ℕ) → n < length self.now →
            slice_index numbers.items (slice_index numbers.items n) ≡ slice_index numbers.items n) }
        ensures literals { IfOk result (λ numbers. (n : ℕ) →
            IsLiteralAt self.now n → IsLiteralAt self.now (slice_index numbers.items n)) }
        ensures others { IfOk result (λ numbers. (n : ℕ) → n < length self.now →
            ¬ (IsLiteralAt self.now n) → slice_index numbers.items n ≡ n) }
    {
        folds(rt, self.alloc, threads, self.marks.hasher(), &self.terms)
    }
}
