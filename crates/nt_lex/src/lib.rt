//! Reads the terminals of N-Triples (RDF 1.1 N-Triples, section 7) at a place of a line: IRIs, blank nodes and
//! literals. Each reader gives the term and the place after it, or the one fault that the grammar and its stop
//! rules name there, the leftmost deciding. What a piece of text spells, where a term stops and where each fault
//! comes is said in `specs/`, on characters; the readers run over bytes. A reader named `lex_` lends the term where
//! its texts stand in the line as they are, and one named `read_` gives a term with texts of its own.
//!
//! - `object`: any of the terms
//! - `iri`, `blank`, `literal`: one kind of term each
//! - `lexed`: terms as the readers give them
//! - `tag`: language tags
//! - `body`: the characters inside an IRI or a string
//! - `escape`: escaped characters
//! - `scan`, `lanes`: runs of bytes that stand for themselves
//! - `space`: tabs and spaces
//! - `laws`: what holds of the grammar for every line
#![tactic(auto)]

mod blank;
mod body;
mod escape;
mod iri;
mod lanes;
mod laws;
mod lexed;
mod literal;
mod object;
mod scan;
mod space;
mod tag;

pub use blank::{lex_blank, read_blank};
pub use iri::{lex_iri, read_iri};
pub use laws::{law_ends_at_a_character, law_one_answer, law_one_reading, law_reads_or_fails};
pub use lexed::LexedTerm;
pub use literal::read_literal;
pub use object::{lex_object, read_object};
pub use scan::{iri_run, string_run};
pub use space::skip_space;
