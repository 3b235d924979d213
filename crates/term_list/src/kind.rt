//! The kinds of terms.

/// Which kind of term it is (RDF 1.1 Concepts, sections 3.2 to 3.4).
#[derive(Clone, Copy, Debug, PartialEq, Eq)]
pub enum TermKind {
    /// An IRI.
    Iri,
    /// A blank node.
    Blank,
    /// A literal with the datatype `xsd:string`.
    Plain,
    /// A literal with another datatype.
    Typed,
    /// A literal with a language tag.
    Lang,
}
