//! A term that is lent.

ghost use Rattle.std.specs.Prelude.{◌≡◌, ◌↔◌, IsTrue, IfOk};
ghost use Rattle.gk_base.specs.Term.{is_literal};
ghost use Rattle.term_list.specs.Parts.{kind_of, first_text, second_text, GoesWith, made_of};

use crate::TermKind;
use gk_base::{NoMemory, Term, Text};
use std::alloc::Global;
use std::marker::Model;

/// A term whose texts are lent. Contracts see the term.
#[derive(Drop)]
pub struct TermRef<'a> {
    pub(crate) kind: TermKind,
    pub(crate) first: &'a [u8],
    pub(crate) second: &'a [u8],
}

impl<'a> Model for TermRef<'a> {
    ghost use Rattle.gk_base.specs.declared.term.Term.{Term};
    ghost use Rattle.term_list.specs.Parts.{GoesWith, made_of};

    ghost Value = { Term };

    ghost view = { λ t. made_of t.kind t.first.now t.second.now };

    ghost invariant = { λ t. GoesWith t.kind t.second.now };
}

impl<'a> TermRef<'a> {
    /// The term of this kind with these texts. Where terms of this kind have one text, the second is empty.
    #[inline]
    pub fn new(kind: TermKind, first: &'a [u8], second: &'a [u8]) -> TermRef<'a>
        requires { GoesWith kind second.now }
        ensures { result ≡ made_of kind first.now second.now }
    {
        TermRef {
            kind,
            first,
            second,
        }
    }

    /// The term, lent.
    #[inline]
    pub fn of(term: &'a Term) -> TermRef<'a>
        ensures { result ≡ term.now }
    {
        let (kind, first, second): (TermKind, &'a [u8], &'a [u8]) = match term {
            Term::Iri(name) => (TermKind::Iri, name.bytes(), &[]),
            Term::Blank(label) => (TermKind::Blank, label.bytes(), &[]),
            Term::Plain(form) => (TermKind::Plain, form.bytes(), &[]),
            Term::Typed(form, datatype) => (TermKind::Typed, form.bytes(), datatype.bytes()),
            Term::Lang(form, tag) => (TermKind::Lang, form.bytes(), tag.bytes()),
        };
        TermRef {
            kind,
            first,
            second,
        }
    }

    /// Its kind.
    #[inline]
    pub fn kind(&self) -> TermKind
        ensures { result ≡ kind_of self.now }
    {
        self.kind
    }

    /// Its name, label or lexical form.
    #[inline]
    pub fn first(&self) -> &'a [u8]
        ensures { result.now ≡ first_text self.now }
    {
        self.first
    }

    /// Its datatype or its language tag, or nothing.
    #[inline]
    pub fn second(&self) -> &'a [u8]
        ensures { result.now ≡ second_text self.now }
    {
        self.second
    }

    /// Whether it is the same term.
    #[inline]
    pub fn is_same(&self, other: &TermRef<'_>) -> bool
        ensures { IsTrue result ↔ (self.now ≡ other.now) }
    {
        self.kind == other.kind && self.first == other.first && self.second == other.second
    }

    /// Whether it is a literal, and no IRI or blank node.
    pub fn is_literal(&self) -> bool
        ensures { result ≡ is_literal self.now }
    {
        match self.kind {
            TermKind::Iri | TermKind::Blank => false,
            TermKind::Plain | TermKind::Typed | TermKind::Lang => true,
        }
    }

    /// The term with texts of its own.
    pub fn to_term(&self, alloc: Global) -> Result<Term, NoMemory>
        ensures { IfOk result (λ t. t ≡ self.now) }
    {
        let first = Text::from_bytes(alloc, self.first)?;
        Ok(match self.kind {
            TermKind::Iri => Term::Iri(first),
            TermKind::Blank => Term::Blank(first),
            TermKind::Plain => Term::Plain(first),
            TermKind::Typed => Term::Typed(first, Text::from_bytes(alloc, self.second)?),
            TermKind::Lang => Term::Lang(first, Text::from_bytes(alloc, self.second)?),
        })
    }
}
