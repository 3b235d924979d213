//! The numbering of terms. Each distinct term of a graph is stored once, in a packed list, and gets a number, its place by
//! first occurrence, so that all later work is on numbers of four bytes. Numbers are looked up by term through a set of *marks*,
//! numbers of four bytes too, one for each term and found from its hash; terms are looked up by number in the list. `alike`
//! tells which literals are the same but for the case of their letters.
//!
//! - `names`: the table of the names
//! - `marks`: from a term to its place
//! - `hashing`: the hashes of terms, begun with a seed
//! - `ahead`: look-ups of many terms that go step by step together
//! - `looking`: the same by several threads
//! - `known`: what they tell of a term
//! - `recent`: which terms of a list came before in it
//! - `folded`: the literals of a list with their case folded
//! - `folding`: which literals are the same but for case
#![tactic(auto)]

mod ahead;
mod folded;
mod folding;
mod hashing;
mod known;
mod looking;
mod marks;
mod names;
mod recent;

pub use names::Names;
