//! What a key file says once it is read: at most 64 named keys, each a small pattern of variables, constants and triples
//! whose terms are still texts. The types keep that each key is valid, so that whoever holds one need not check it again.
//! `compile` numbers the keys' terms behind those of a graph and gives the patterns that matching works with.
//!
//! - `slot`: variables and constants of a key
//! - `edge`: triples of a key
//! - `key`: keys
//! - `file`: the keys of a file
//! - `name`: names of keys and of their variables
//! - `walks`: which slots stand on an edge, and whether walks lead to all of them
//! - `patterns`: keys as patterns over numbers
//! - `laws`: what the test of a valid key says
#![tactic(auto)]

mod edge;
mod file;
mod key;
pub mod laws;
mod name;
mod patterns;
mod slot;
mod walks;

pub use edge::KeyEdge;
pub use file::KeyFile;
pub use key::KeyDef;
pub use name::is_name;
pub use patterns::compile;
pub use slot::KeySlot;
pub use walks::{is_connected, is_used};
