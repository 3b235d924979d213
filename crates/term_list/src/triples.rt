//! A list of triples.

ghost use Rattle.std.specs.Prelude.{◌≡◌, ◌++◌, ◌∷◌, [], length, OnOk, OnErr};
ghost use Rattle.term_list.specs.Triples.{terms_of};

use crate::{TermRef, Terms};
use gk_base::NoMemory;
use std::alloc::Global;
use std::marker::Model;

/// A list of triples, packed as `Terms` are. Contracts see the list of the triples.
#[derive(Drop)]
pub struct Triples {
    terms: Terms,
}

impl Model for Triples {
    ghost use Rattle.std.specs.Prelude.{List};
    ghost use Rattle.gk_base.specs.declared.term.Triple.{Triple};
    ghost use Rattle.term_list.specs.Triples.{triples_in, AreWhole};

    ghost Value = { List Triple };

    ghost view = { λ t. triples_in t.terms };

    ghost invariant = { λ t. AreWhole t.terms };
}

/// Puts copies of these terms at the end of a list, all or none.
fn push_three(
    terms: &mut Terms,
    subject: &TermRef<'_>,
    predicate: &TermRef<'_>,
    object: &TermRef<'_>,
) -> Result<(), NoMemory>
    ensures ok { OnOk result (terms.new ≡ terms.old ++ subject.now ∷ predicate.now ∷ object.now ∷ []) }
    ensures err { OnErr result (terms.new ≡ terms.old) }
{
    let len = terms.len();
    terms.push(subject)?;
    if terms.push(predicate).is_err() || terms.push(object).is_err() {
        terms.truncate(len);
        return Err(NoMemory);
    }
    Ok(())
}

impl Triples {
    /// No triples. It takes no memory.
    pub fn new(alloc: Global) -> Triples
        ensures { result ≡ [] }
    {
        Triples {
            terms: Terms::new(alloc),
        }
    }

    /// How many triples there are.
    pub fn len(&self) -> usize
        ensures { result ≡ length self.now }
    {
        self.terms.len() / 3
    }

    /// The terms of the triples, three a triple.
    pub fn terms(&self) -> &Terms
        ensures { result.now ≡ terms_of self.now }
    {
        &self.terms
    }

    /// Puts a copy of this triple at the end. After `NoMemory` the list is as it was.
    pub fn push(
        &mut self,
        subject: &TermRef<'_>,
        predicate: &TermRef<'_>,
        object: &TermRef<'_>,
    ) -> Result<(), NoMemory>
        ensures ok { OnOk result (self.new ≡
            self.old ++ (record { subject = subject.now; predicate = predicate.now; object = object.now }) ∷ []) }
        ensures err { OnErr result (self.new ≡ self.old) }
    {
        push_three(&mut self.terms, subject, predicate, object)
    }

    /// Puts copies of the triples of another list at the end. After `NoMemory` the list is as it was.
    pub fn append(&mut self, other: &Triples) -> Result<(), NoMemory>
        ensures ok { OnOk result (self.new ≡ self.old ++ other.now) }
        ensures err { OnErr result (self.new ≡ self.old) }
    {
        self.terms.append(&other.terms)
    }

    /// Leaves no triples. The memory stays, for further ones.
    pub fn clear(&mut self)
        ensures { self.new ≡ [] }
    {
        self.terms.clear();
    }
}
