//! RDF terms and triples as data, as reading leaves them.

ghost use Rattle.std.specs.Prelude.{◌≡◌, IfOk};
ghost use Rattle.gk_base.specs.Term.{is_literal};

use crate::{NoMemory, Text};

/// A term of an RDF graph (RDF 1.1 Concepts, sections 3.2 to 3.4), as reading leaves it: escapes are decoded.
/// Two literals are equal where lexical form, datatype and language tag are.
#[derive(Debug, PartialEq, Eq, PartialOrd, Ord, Hash, Drop)]
pub enum Term {
    /// An IRI, without its angle brackets.
    Iri(Text),
    /// A blank node's label, without `_:`.
    Blank(Text),
    /// A literal with the datatype `xsd:string`.
    Plain(Text),
    /// A literal's lexical form and its datatype, which reading never leaves as `xsd:string`.
    Typed(Text, Text),
    /// A literal's lexical form and its language tag, in ASCII lower case.
    Lang(Text, Text),
}

impl Term {
    /// The same term once more.
    pub fn copy(&self) -> Result<Term, NoMemory>
        ensures { IfOk result (λ t. t ≡ self.now) }
    {
        Ok(match self {
            Term::Iri(name) => Term::Iri(name.copy()?),
            Term::Blank(label) => Term::Blank(label.copy()?),
            Term::Plain(form) => Term::Plain(form.copy()?),
            Term::Typed(form, datatype) => Term::Typed(form.copy()?, datatype.copy()?),
            Term::Lang(form, tag) => Term::Lang(form.copy()?, tag.copy()?),
        })
    }

    /// Whether it is a literal, and no IRI or blank node.
    pub fn is_literal(&self) -> bool
        ensures { result ≡ is_literal self.now }
    {
        match self {
            Term::Iri(_) | Term::Blank(_) => false,
            Term::Plain(_) | Term::Typed(_, _) | Term::Lang(_, _) => true,
        }
    }
}

/// A triple of an RDF graph. Reading leaves an IRI or a blank node as subject and an IRI as predicate.
#[derive(Debug, PartialEq, Eq, PartialOrd, Ord, Hash, Drop)]
pub struct Triple {
    pub subject: Term,
    pub predicate: Term,
    pub object: Term,
}
