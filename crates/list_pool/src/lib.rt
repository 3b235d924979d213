//! One region of numbered cells that serves many lists. A cell stands in at most one list and can be taken out of
//! it, or the whole list put to the end of another, in constant time. Making a pool takes its memory, in two
//! growths; no later call takes any.
//!
//! - `pool`: the pool
//! - `links`: one link of a list, forwards and back, and the mark of a cell that stands in one
//! - `empty`: cells in no list, and lists with no cell
//! - `cell`: what is kept for a cell, and for a list
//! - `optional_cell`: the number of a cell, or none
#![tactic(auto)]

mod cell;
mod empty;
mod links;
mod optional_cell;
mod pool;

pub use pool::Pool;
