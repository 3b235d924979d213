//! The chase of a graph, in whichever way serves it. Where keys make few pairs of names, candidate pairs are searched by workers
//! (`match_run`); where many names share a value, they would be many more than the names, and the chase goes by signatures of
//! valuations (`signature_chase`), which makes no pair. Where there are too many valuations, it goes by pairs after all. With
//! the largest limit pairs have no limit: none is counted, and the chase goes by signatures alone. What comes of it is the same.
//!
//! - `way`: the two ways, and which one serves
//! - `ground`: what was chased
//! - `whole`: the chase of a graph
//! - `growth`: the chase of a graph, and of the graph with more rows from there on
#![tactic(auto)]

mod ground;
mod growth;
mod way;
mod whole;

pub use ground::Ground;
pub use growth::chase_growth;
pub use way::Way;
pub use whole::{Finished, chase_graph};
