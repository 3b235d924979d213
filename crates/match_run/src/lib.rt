//! A whole chase: from a graph's rows and keys to the classes of equal names, and to why names are the same. `prepare` builds the
//! graph, finds the candidate pairs and makes what a chase works on, and `prepare_graph` does it for a graph that is built. `chase`
//! runs a crew's chase to its end, `chase_on` makes the crew too, `chase_setup` also the chase, and `classes` keeps only the labels
//! of it. What the classes are is said in `specs/`, by the chase's definitions alone.
//!
//! - `preparing`: what a chase needs before it runs
//! - `together`: a chase by a crew
//! - `whole`: the labels of a whole chase
#![tactic(auto)]

mod preparing;
mod together;
mod whole;

pub use preparing::{Prepared, prepare, prepare_graph};
pub use together::{chase, chase_on, chase_setup};
pub use whole::classes;
