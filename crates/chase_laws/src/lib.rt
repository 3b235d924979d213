//! What a chase with keys is, and its laws. The types are the plain data of keys and of identifications; `specs/`
//! defines valuations, chase steps, derivations, 'the same', candidate pairs, neighbourhoods and the report over lists
//! of numbers; and the laws are functions with empty bodies whose contracts speak of all lists. Every crate that
//! matches, prints or checks is proved against these definitions.
//!
//! - `pattern`: slots, edges and patterns of keys
//! - `places`: short lists of numbers, one number for each slot
//! - `entry`: one identification
//! - `laws`: the laws
//! - `pair_state`: where a pair stands while the chase runs
//! - `core_law`: the law of the chase's core
#![tactic(auto)]

pub mod core_law;
mod entry;
pub mod laws;
mod pair_state;
mod pattern;
mod places;

pub use entry::Entry;
pub use pair_state::PairState;
pub use pattern::{Edge, Pattern, Slot, all_valid};
pub use places::Places;
