//! How terms and classes are printed. A term or a triple is written in one canonical spelling of N-Triples, so that
//! equal terms always print the same bytes. The report prints the classes of equal labels, one line for each class of
//! two or more names, with the members and the lines in the order of their bytes. Only members of printed classes are
//! spelled and sorted.
//!
//! - `canonical`: the canonical text of terms and triples
//! - `escapes`: the bytes of IRIs and strings, escaped
//! - `label_counts`: which labels more than one name has
//! - `label_places`: a place for each label
//! - `member_texts`: the texts of the names that are printed
//! - `member`, `lent_text`: these names with their texts, which are lent, and their order
//! - `listing`: which names are printed
//! - `links`: which member follows which in its class
//! - `lines`: the lines of the classes
//! - `class_report`: the report
//! - `report_bytes`: its text
#![tactic(auto)]

mod canonical;
mod class_report;
mod escapes;
mod label_counts;
mod label_places;
mod lent_text;
mod lines;
mod links;
mod listing;
mod member;
mod member_texts;
mod report_bytes;

pub use canonical::{put_lent_term, put_lent_triple, put_term, put_triple};
pub use class_report::report;
pub use report_bytes::Report;
