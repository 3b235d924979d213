//! Growth: the chase of a graph to which triples are added. What was identified over the first graph stays identified with
//! more rows, so it is kept, in its order, and is not searched again: the chase of the whole graph begins with it, and only
//! the pairs that it leaves are searched. What the whole graph's classes are does not depend on how they were come to.
//!
//! - `replaying`: a journal, entered again in a new chase
//! - `growing`: the chase of a graph, and then of the graph with more rows
#![tactic(auto)]

mod growing;
mod replaying;

pub use growing::{Grown, grow};
pub use replaying::replay;
