//! What every other crate speaks of: texts, terms and triples as data, how large inputs may be, and the
//! faults of a graph file with their texts.
//!
//! - `memory`: the one answer for want of memory
//! - `stop`: why a call did not answer, want of memory or a fault
//! - `text`: byte strings
//! - `term`: terms and triples
//! - `limits`: how large inputs may be
//! - `lex_fault`: what may be wrong with a line
//! - `read_fault`: what may be wrong with a graph file
#![tactic(auto)]

mod lex_fault;
mod limits;
mod memory;
mod read_fault;
mod stop;
mod term;
mod text;

pub use lex_fault::{LexFault, LexStop};
pub use limits::Limits;
pub use memory::NoMemory;
pub use read_fault::{ReadFault, ReadRefusal, ReadStop};
pub use stop::Stop;
pub use term::{Term, Triple};
pub use text::Text;
