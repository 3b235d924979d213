//! In which order a search goes through the slots of a key's pattern, and how far it goes. In a plan each later slot is joined by
//! an edge to an earlier one, wildcards come as late as they can, and each slot has the edges that lead back. Its radius tells
//! how many rows away from an entity the key can look.
//!
//! - `distance`: how far each slot is from slot 0, and the greatest of these distances
//! - `order`: the slots in the order of a search, and the place of each
//! - `renumber`: a pattern's slots and edges under other numbers, and the edges that a place adds
//! - `plan`: plans
#![tactic(auto)]

mod distance;
mod order;
mod plan;
mod renumber;

pub use distance::distances;
pub use plan::Plan;
