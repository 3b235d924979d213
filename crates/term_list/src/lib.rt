//! Terms that are lent, and lists of terms and of triples that are packed in memory. A graph has millions of terms, most of
//! which come again and again: a term that is only looked at needs no memory of its own, and a list that has its texts in one
//! row takes no memory for each of them.
//!
//! - `kind`: the kinds of terms
//! - `term_ref`: a term that is lent
//! - `terms`, `span`: a list of terms
//! - `triples`: a list of triples
#![tactic(auto)]

mod kind;
mod span;
mod term_ref;
mod terms;
mod triples;

pub use kind::TermKind;
pub use term_ref::TermRef;
pub use terms::Terms;
pub use triples::Triples;
