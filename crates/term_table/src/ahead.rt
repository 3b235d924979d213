//! Look-ups of many terms that go step by step together.
//!
//! A look-up in a table that is larger than the processor's caches waits for memory at each of its steps: the set's group, the
//! mark, the term's places, its text. Where many look-ups take the same step one after another, they wait at the same time.
//! What the steps find is a place to try, which need not be right; a comparison at the end decides whether the term is the name
//! that stands there. Terms that came a little before in the list are not looked up at all.

ghost use Rattle.std.specs.Prelude.{◌≡◌, ◌<◌, ◌≤◌, ◌+◌, ◌-◌, ◌^◌, List, length, OnOk};
ghost use Rattle.gk_base.specs.declared.term.Term.{Term as AnyTerm};
ghost use Rattle.term_table.specs.Known.{AreKnown};

use crate::hashing::TermHasher;
use crate::known::Known;
use crate::marks::{Marks, NO_PLACE};
use crate::recent::Recent;
use gk_base::NoMemory;
use std::alloc::Global;
use term_list::Terms;

/// So many terms at most are looked up together. What their look-ups fetch is used before it leaves the nearest caches, however
/// long the list is.
pub(crate) const GROUP: usize = 256;

/// A look-up on its way.
#[derive(Clone, Copy)]
struct LookUp {
    /// Where in the list the term stands.
    at: u32,
    /// The term's hash, and then the place of the name that has it as its mark.
    found: u32,
}

/// Looks ahead at the terms of a list, a group after another.
#[derive(Drop)]
pub(crate) struct Ahead {
    recent: Recent,
    look_ups: Vec<LookUp>,
}

// Whether two texts are as long.
#[inline]
fn are_as_long(name: &[u8], term: &[u8]) -> bool {
    name.len() == term.len()
}

// Whether two texts end with the same byte.
#[inline]
fn end_alike(name: &[u8], term: &[u8]) -> bool {
    name.last() == term.last()
}

// Keeps what was found where a name stands whose first text is like the term's.
fn keep_like<F: Fn(&[u8], &[u8]) -> bool>(
    names: &Terms,
    terms: &Terms,
    look_ups: &mut [LookUp],
    is_like: F,
)
    requires { F.IsAlwaysCallable is_like }
{
    for look_up in look_ups {
        let (found, at) = (look_up.found as usize, look_up.at as usize);
        let likely = found < names.len()
            && at < terms.len()
            && is_like(names.get(found).first(), terms.get(at).first());
        if !likely {
            look_up.found = NO_PLACE;
        }
    }
}

impl Ahead {
    /// No term has been looked at.
    pub(crate) fn new(alloc: Global) -> Ahead {
        Ahead {
            recent: Recent::new(),
            look_ups: Vec::new(alloc),
        }
    }

    // Finds which of the next terms came before. Those that did not are to be looked up by their hashes.
    fn look_back(
        &mut self,
        hasher: TermHasher,
        terms: &Terms,
        start: usize,
        end: usize,
        known: &mut Vec<Known>,
    ) -> Result<(), NoMemory>
        requires ordered { start + length known.old.items ≤ end }
        requires within { end ≤ length terms.now }
        requires few { length terms.now < 2 ^ 32 }
        ensures known { OnOk result ((names : List AnyTerm) → AreKnown names terms.now start known.old.items → AreKnown names terms.now start known.new.items) }
        ensures one_each { OnOk result (length known.new.items ≡ end - start) }
    {
        self.look_ups.clear();
        for at in start + known.len()..end {
            let first = self.recent.first(terms, at);
            if (first as usize) < at {
                known.push(Known::Before(first))?;
            } else {
                let hash = hasher.hash_of(&terms.get(at));
                known.push(Known::Unknown(hash))?;
                self.look_ups.push(LookUp {
                    at: at as u32,
                    found: hash,
                })?;
            }
        }
        Ok(())
    }

    // Notes which of the terms are the names that stand where their look-ups ended.
    fn note_same(&self, names: &Terms, terms: &Terms, start: usize, known: &mut [Known])
        requires { AreKnown names.now terms.now start known.old }
        ensures known { AreKnown names.now terms.now start known.new }
        ensures one_each { length known.new ≡ length known.old }
    {
        for look_up in &self.look_ups {
            let (found, at) = (look_up.found as usize, look_up.at as usize);
            if start <= at
                && at - start < known.len()
                && at < terms.len()
                && found < names.len()
                && names.get(found).is_same(&terms.get(at))
            {
                known[at - start] = Known::Named(look_up.found);
            }
        }
    }

    // Asks the table for all terms that are to be looked up, as one group, and notes which are names.
    fn look_up(
        &mut self,
        marks: &Marks,
        names: &Terms,
        terms: &Terms,
        start: usize,
        known: &mut [Known],
    )
        requires { AreKnown names.now terms.now start known.old }
        ensures known { AreKnown names.now terms.now start known.new }
        ensures one_each { length known.new ≡ length known.old }
    {
        for look_up in &mut self.look_ups {
            look_up.found = marks.place_with(look_up.found);
        }
        keep_like(names, terms, &mut self.look_ups, are_as_long);
        keep_like(names, terms, &mut self.look_ups, end_alike);
        self.note_same(names, terms, start, known);
    }

    /// Looks at the next terms of a list, up to one place. `known` says what is known of those from `start` on that were looked
    /// at before, and gets what is known of the others behind it. The table is asked for them as one group.
    pub(crate) fn look(
        &mut self,
        marks: &Marks,
        names: &Terms,
        terms: &Terms,
        start: usize,
        end: usize,
        known: &mut Vec<Known>,
    ) -> Result<(), NoMemory>
        requires ordered { start + length known.old.items ≤ end }
        requires within { end ≤ length terms.now }
        requires few { length terms.now < 2 ^ 32 }
        requires known { AreKnown names.now terms.now start known.old.items }
        ensures known { OnOk result (AreKnown names.now terms.now start known.new.items) }
        ensures one_each { OnOk result (length known.new.items ≡ end - start) }
    {
        self.look_back(marks.hasher(), terms, start, end, known)?;
        self.look_up(marks, names, terms, start, known);
        Ok(())
    }

    /// Looks once more at terms of a list, from `start` on, of which this was known earlier: at the unknown ones, since more terms may
    /// be names by now. `known` gets what is known of all of them. Those that are still unknown are new, but for few, and what is
    /// touched where they become names has been fetched then.
    pub(crate) fn look_again(
        &mut self,
        marks: &Marks,
        names: &Terms,
        terms: &Terms,
        start: usize,
        earlier: &[Known],
        known: &mut Vec<Known>,
    ) -> Result<(), NoMemory>
        requires within { start + length earlier.now ≤ length terms.now }
        requires few { length terms.now < 2 ^ 32 }
        requires earlier { AreKnown names.now terms.now start earlier.now }
        ensures known { OnOk result (AreKnown names.now terms.now start known.new.items) }
        ensures one_each { OnOk result (length known.new.items ≡ length earlier.now) }
    {
        self.look_ups.clear();
        for k in 0..earlier.len() {
            if let Known::Unknown(hash) = earlier[k] {
                self.look_ups.push(LookUp {
                    at: (start + k) as u32,
                    found: hash,
                })?;
            }
        }
        known.clear();
        known.extend_from_slice(earlier)?;
        self.look_up(marks, names, terms, start, known);
        Ok(())
    }
}
