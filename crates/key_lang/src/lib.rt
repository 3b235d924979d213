//! Key files: how the keys that matching works by are written, and how such files are read. A key file is a text of
//! lines, each of which begins or ends a key, declares a variable of it, or gives a triple of its pattern. Reading gives
//! the keys, or the first faulty line with the first check that fails there. Keys are written in one canonical text,
//! which reads back to them. What a line says where it stands is said in `specs/`, check by check.
//!
//! - `fault`: what may be wrong with a key file
//! - `declarations`: the line that begins a key, and declarations
//! - `keyword`: the first words of statements
//! - `tokens`: words, names, variables and terms of a line
//! - `open_key`: a key that has begun and not yet ended
//! - `variables`: the variables of an open key
//! - `triples`: the triples of an open key
//! - `endings`: an open key that ends
//! - `line`: one line
//! - `file`: a whole file
//! - `canonical`: the canonical text of keys
//! - `laws`: what holds for every key file
#![tactic(auto)]

mod canonical;
mod declarations;
mod endings;
mod fault;
mod file;
mod keyword;
mod laws;
mod line;
mod open_key;
mod tokens;
mod triples;
mod variables;

pub use canonical::put_keys;
pub use fault::{KeyFault, KeyRefusal, KeyStop};
pub use file::read_keys;
pub use key_file::{KeyDef, KeyEdge, KeyFile, KeySlot, compile};
pub use laws::{law_key_file, law_keys_read_back, law_one_keys_answer, law_one_line_answer};
