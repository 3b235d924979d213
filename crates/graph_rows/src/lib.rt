//! A graph in numbers: from a shelf's file to rows and names, or what stopped it; and from those and the keys to what a chase
//! works on. Three doors read files, `read_rows` a graph piece by piece, `read_more_rows` a second one behind it, and `load` the
//! first bytes of any file. `number_rows` makes the patterns and all that a graph is built of, `number` builds it too, and
//! `number_growth` makes the first graph and the whole one.
//!
//! - `loading`: the first bytes of a file
//! - `rows`: triples in numbers
//! - `pieces`: a graph's rows, read piece by piece
//! - `batches`: reading and numbering by turns, or at once in two threads
//! - `numbered_keys`: keys in numbers over the names of a graph
//! - `numbering`: names, rows or graph, and patterns in numbers
//! - `growth`: names, two graphs of which the second has all rows of the first, and patterns in numbers
#![tactic(auto)]

mod batches;
mod growth;
mod loading;
mod numbered_keys;
mod numbering;
mod pieces;
mod rows;

pub use growth::{Growth, number_growth};
pub use loading::load;
pub use numbering::{Numbered, NumberedRows, number, number_rows};
pub use pieces::{MoreRows, read_more_rows, read_rows};
pub use rows::Rows;
