//! Proofs that names are the same, and proof files. A proof says, step by step, which two terms a key makes the same: it names
//! the key, gives a term for each of the key's slots on either side, and for each further entity variable the earlier steps that
//! lead from its one term to the other. Such a proof is written and read as a text. How one is found is no matter of this crate,
//! on which the checker stands.
//!
//! - `proof`, `step`, `slot_support`: proofs and their parts
//! - `term_numbers`: the terms of a proof, numbered by first occurrence
//! - `canonical`: the text of a proof
//! - `fault`: what may be wrong with a proof file
//! - `words`, `decimals`: words and numbers of a line
//! - `statements`, `version`, `step_or_end`: lines of words alone
//! - `sides`: lines with terms
//! - `progress`, `stage`: a file as far as it was read
//! - `line`: a file after one more line
//! - `splitting`, `read_lines`: the lines of a file
//! - `in_order`, `renumbering`: the proof of steps whose terms are numbered as a file lists them
//! - `read`: reads a proof file
//! - `laws`: what holds of proof files for every text
#![tactic(auto)]

mod canonical;
mod decimals;
mod fault;
mod in_order;
mod laws;
mod line;
mod progress;
mod proof;
mod read;
mod read_lines;
mod renumbering;
mod sides;
mod slot_support;
mod splitting;
mod stage;
mod statements;
mod step;
mod step_or_end;
mod term_numbers;
mod version;
mod words;

pub use canonical::put_proof;
pub use fault::{ProofFault, ProofRefusal, ProofStop};
pub use laws::{law_one_proof_answer, law_proof_read_back};
pub use proof::Proof;
pub use read::read_proof;
pub use slot_support::Support;
pub use step::ProofStep;
pub use term_numbers::TermNumbers;
