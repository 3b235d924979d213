//! The parts of valuations as rows of numbers, and groups of the rows that have the same values. Nothing here looks at a
//! graph. Rows and groups lie in flat arrays.
//!
//! - `rows`: rows of one key
//! - `shared`: those whose values another name has, too, in order and each once
//! - `groups`: the groups of all keys
//! - `group`: one of them
//! - `cells`: rows of one width in an array
#![tactic(auto)]

mod cells;
mod group;
mod groups;
mod rows;
mod shared;

pub use group::Group;
pub use groups::ValuationGroups;
pub use rows::ValuationRows;
pub use shared::keep_shared;
