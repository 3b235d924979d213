//! The merged graph: each entity stands as the first member of its class, so that a graph with what a match found is a
//! graph again. The subject and the object of each row are replaced by the member of their class whose canonical text is
//! least by bytes, their face, and the predicate stays. The triples are printed by their canonical texts, each once,
//! ascending by bytes; `nt_reader` reads them back as they are.
//!
//! - `merging`: the merged graph's text, from rows and labels
//! - `faces`: for each name its face
//! - `face_table`: from a label to the face of the names that have it
//! - `lines`: the lines of the triples, sorted and joined
//! - `ranked`: the same by the ranks of names
//! - `name_texts`: the texts of names
//! - `ranks`: the names in the order of their texts, and their ranks
//! - `ascending`: lines that are written as long as they ascend
//! - `merged_text`: the text
#![tactic(auto)]

mod ascending;
mod face_table;
mod faces;
mod lines;
mod merged_text;
mod merging;
mod name_texts;
mod ranked;
mod ranks;

pub use merged_text::MergedText;
pub use merging::merge;
