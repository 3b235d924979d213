//! The checker of proofs. It looks at each step of a proof, over the triples of a graph and the keys, and says that all steps
//! hold, or which is the first that does not and why. What it is to say is defined over terms and the list of triples alone
//! (`specs/Verdict.antt`); it searches for nothing, and knows nothing of how matches are found.
//!
//! - `verdict`, `reason`: what is said of a proof
//! - `checker`: what is made of a graph and keys before a proof is there, and the checker
//! - `checking`: the verdict on the steps of a proof
//! - `numbers`: triples in numbers
//! - `ends`, `rows`: what is looked up in the graph
//! - `sides`: the sides of a step by the numbers of the graph's names
//! - `judging`: the least reason against a step
//! - `side`, `values`, `supports`: the tests of a step
//! - `laws`: what an accepted proof is
#![tactic(auto)]

mod checker;
mod checking;
mod ends;
mod judging;
mod laws;
mod numbers;
mod reason;
mod rows;
mod side;
mod sides;
mod supports;
mod values;
mod verdict;

pub use checker::{Checker, check, check_rows};
pub use laws::law_proof;
pub use reason::Reason;
pub use verdict::Verdict;
