//! The triple of a line, whose terms are lent.

ghost use Rattle.std.specs.Prelude.{◌≡◌, IfOk};

use gk_base::{NoMemory, Triple};
use nt_lex::LexedTerm;
use std::alloc::Global;
use std::marker::Model;

/// The triple of a line, whose terms are lent as far as they stand in the line. Contracts see the triple.
#[derive(Drop)]
pub struct LexedTriple<'a> {
    pub(crate) subject: LexedTerm<'a>,
    pub(crate) predicate: LexedTerm<'a>,
    pub(crate) object: LexedTerm<'a>,
}

impl<'a> Model for LexedTriple<'a> {
    ghost use Rattle.gk_base.specs.declared.term.Triple.{Triple};

    ghost Value = { Triple };

    ghost view = { λ t. record { subject = t.subject; predicate = t.predicate; object = t.object } };
}

impl<'a> LexedTriple<'a> {
    /// The triple with texts of its own.
    pub(crate) fn to_triple(&self, alloc: Global) -> Result<Triple, NoMemory>
        ensures { IfOk result (λ t. t ≡ self.now) }
    {
        Ok(Triple {
            subject: self.subject.lent().to_term(alloc)?,
            predicate: self.predicate.lent().to_term(alloc)?,
            object: self.object.lent().to_term(alloc)?,
        })
    }
}
