//! Terms as rows of tables have them.

use gk_base::{NoMemory, Term};
use std::alloc::Global;
use std::process::Abort;
use term_list::{TermKind, TermRef};

/// A term of a table.
#[derive(Clone, Copy)]
pub(crate) enum Sample {
    Iri(&'static [u8]),
    Blank(&'static [u8]),
    Plain(&'static [u8]),
    Typed(&'static [u8], &'static [u8]),
    Lang(&'static [u8], &'static [u8]),
}

impl Sample {
    /// The term, lent.
    pub(crate) fn lent(self) -> TermRef<'static> {
        match self {
            Sample::Iri(name) => TermRef::new(TermKind::Iri, name, b""),
            Sample::Blank(label) => TermRef::new(TermKind::Blank, label, b""),
            Sample::Plain(form) => TermRef::new(TermKind::Plain, form, b""),
            Sample::Typed(form, datatype) => TermRef::new(TermKind::Typed, form, datatype),
            Sample::Lang(form, tag) => TermRef::new(TermKind::Lang, form, tag),
        }
    }

    /// The term with texts of its own.
    pub(crate) fn to_term(self, alloc: Global) -> Result<Term, NoMemory> {
        self.lent().to_term(alloc)
    }

    /// The same in a test, which ends where there is no memory for it.
    pub(crate) fn made<R: AllocGlobal + Abort>(self, rt: &R) -> Term {
        self.to_term(rt.alloc()).expect(rt, "enough memory")
    }

    /// Whether it is this term.
    pub(crate) fn is(self, term: &TermRef<'_>) -> bool {
        term.is_same(&self.lent())
    }
}
