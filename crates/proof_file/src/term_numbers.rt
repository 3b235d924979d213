//! The terms of a proof, numbered by first occurrence.

ghost use Rattle.std.specs.Prelude.{◌≡◌, ◌<◌, [], All, IfOk, OnOk, length, map};
ghost use Rattle.term_table.specs.Numbering.{with_term, with_terms, place_of, AreDistinct};
ghost use Rattle.proof_file.specs.Steps.{term_at};
ghost use Rattle.proof_file.specs.TermNumbers.{NotesPlaces};

use gk_base::NoMemory;
use std::alloc::Global;
use term_list::Terms;
use term_table::Names;

/// How many terms a proof may have, so that a number and one more has a place in four bytes.
pub(crate) const MOST_TERMS: usize = 4294967295;

/// The terms of a proof as far as they have come, for steps whose terms are names.
#[derive(Drop)]
pub struct TermNumbers {
    /// The terms that have come, each once and in order.
    pub terms: Terms,
    /// For each name the number of its term and one more, or 0 where it has not come.
    pub places: Vec<u32>,
}

impl TermNumbers {
    /// No term has come yet.
    pub fn new(alloc: Global, names: &Names) -> Result<TermNumbers, NoMemory>
        ensures terms { IfOk result (λ n. n.terms ≡ []) }
        ensures places { IfOk result (λ n. NotesPlaces names.now n.terms n.places.items) }
    {
        Ok(TermNumbers {
            terms: Terms::new(alloc),
            places: vec![in alloc; 0; names.len() as usize]?,
        })
    }

    /// The number of a name's term. One that comes for the first time becomes the last.
    fn number(&mut self, names: &Names, name: u32) -> Result<u32, NoMemory>
        requires places { NotesPlaces names.now self.old.terms self.old.places.items }
        requires named { name < length names.now }
        requires distinct { AreDistinct names.now }
        ensures terms { OnOk result (self.new.terms ≡ with_term self.old.terms (term_at names.now name)) }
        ensures number { IfOk result (λ n. n ≡ place_of self.new.terms (term_at names.now name)) }
        ensures places { OnOk result (NotesPlaces names.now self.new.terms self.new.places.items) }
    {
        let noted = self.places[name as usize];
        if noted > 0 {
            return Ok(noted - 1);
        }
        let count = self.terms.len();
        if count >= MOST_TERMS {
            return Err(NoMemory);
        }
        self.terms.push(&names.term(name))?;
        self.places[name as usize] = count as u32 + 1;
        Ok(count as u32)
    }

    /// The numbers of the terms of these names, counted from 0. Those that come for the first time become the last. After
    /// `NoMemory` some of them may have come.
    pub fn numbers(
        &mut self,
        alloc: Global,
        names: &Names,
        side: &[u32],
    ) -> Result<Vec<u32>, NoMemory>
        requires places { NotesPlaces names.now self.old.terms self.old.places.items }
        requires named { All (λ n. n < length names.now) side.now }
        requires distinct { AreDistinct names.now }
        ensures terms { OnOk result (self.new.terms ≡ with_terms self.old.terms (map (term_at names.now) side.now)) }
        ensures numbers { IfOk result (λ numbers. numbers.items ≡ map (place_of self.new.terms) (map (term_at names.now) side.now)) }
        ensures places { OnOk result (NotesPlaces names.now self.new.terms self.new.places.items) }
    {
        let mut numbers = Vec::with_capacity(alloc, side.len())?;
        for name in side {
            numbers.push(self.number(names, *name)?)?;
        }
        Ok(numbers)
    }
}
