//! Rules out candidate pairs without a search. `keep` keeps those that some key pairs to a small depth: the two names are fit for
//! its first slot, and as far as two of its edges lead, the graph has for each edge rows whose ends can go together. Every
//! pair that a step can identify is among them. `keep_with_keys` also tells of each which keys may identify it. The pairs
//! are cut into runs, each run is filtered by one thread, and what is kept of each is joined in order; so the
//! answer is the same whatever the number of threads.
//!
//! - `keeping`: which pairs are kept
//! - `dealing`: which thread filters which run of pairs
//! - `runs`: what is kept of a run
//! - `keys`: which keys may identify two names
//! - `paired`: whether a key pairs two names
//! - `leaf`: the quick way where no edge leads on
//! - `here`: whether two names can go together at a slot
//! - `parts`: the parts of a pattern
#![tactic(auto)]

mod dealing;
mod here;
mod keeping;
mod keys;
mod leaf;
mod paired;
mod parts;
mod runs;

pub use keeping::{KeptPairs, keep, keep_with_keys};
