//! The candidate pairs of a graph under keys: the pairs that may be worth a search. A candidate has, under some key, a
//! type in common and, for each value edge at the key's first slot, a shared literal. `seed` finds all of them from the
//! shared literals, entity by entity in ascending order, and stops where there are more than a limit; `seed_in_threads`
//! does so in runs of names. `count_candidates` counts them and makes no list, and `bound_candidates` gives a number that they do not
//! exceed, without looking at any pair. What they take beside the pairs is for each thread the work of one entity and, where a key
//! folds values, one index of literals for all.
//!
//! - `candidates`: all pairs
//! - `count`: how many there are
//! - `bound`: how many there are at most
//! - `threads`: all pairs by threads
//! - `stop`: why there are no pairs
//! - `gather`: the partners of one entity
//! - `lead`: the edge from whose literals an entity's partners are found
//! - `share`: whether a key pairs two names
//! - `folds`: who has a literal that is alike to a name
//! - `parts`: the parts of a pattern
#![tactic(auto)]

mod bound;
mod candidates;
mod count;
mod folds;
mod gather;
mod lead;
mod parts;
mod share;
mod stop;
mod threads;

pub use bound::bound_candidates;
pub use candidates::seed;
pub use count::count_candidates;
pub use stop::{SeedStop, TooManyPairs};
pub use threads::seed_in_threads;
