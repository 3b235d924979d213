//! Which entities a key can look at from an entity. For each entity of a type that some key designates, `Near` holds the
//! entities that can stand at an entity variable of such a key, as far as one walk along the edges of its pattern tells;
//! and for each name it holds the entities whose list has it, so that a change at a name tells whose search has to be
//! made again. All lists of one kind lie in one array.
//!
//! - `near`: near lists and owners
//! - `rows`: many lists in one array
//! - `filling`: many lists of known lengths, filled in any order
//! - `turn`: for each number the lists that have it
//! - `pairs`: for each number the pairs that have it
//! - `legs`: the legs of walks along a pattern
//! - `walk`: walks along the legs
//! - `entities`: the entities that walks reach from each name
#![tactic(auto)]

mod entities;
mod filling;
mod legs;
mod near;
mod pairs;
mod rows;
mod turn;
mod walk;

pub use near::Near;
pub use pairs::pairs_by_end;
pub use rows::Rows;
