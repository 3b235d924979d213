//! Why two names are the same: a proof for one pair, with only the steps that this pair needs. The journal of a chase says how
//! all pairs came to be the same; what leads from the one name to the other is picked from it, with what that rests on.
//!
//! - `answer`: a proof and its steps that lead from name to name
//! - `asking`: the answer for two names
//! - `marking`: which entries of a journal are needed
//! - `keeping`: what is kept of a journal
//! - `relinking`: the supports of what is kept
//! - `laws`: what holds of parts of a derivation, and which identifications have a proof
#![tactic(auto)]

mod answer;
mod asking;
mod keeping;
mod laws;
mod marking;
mod relinking;

pub use answer::Why;
pub use asking::why;
pub use laws::{law_part, law_provable};
