//! Tests of whole runs of `gkey_cmd` over files and sinks in memory. They stand in a crate of their own, since a crate with
//! tests is proved twice.
//!
//! - `runs`: limits, devices that fail, and demos
//! - `words`: words that ask for no command, for help, or for the version
//! - `graphs`: graphs in all forms of N-Triples, and graphs that are refused
//! - `keys`: small graphs with keys, and the classes that follow by hand
//! - `proofs`: proofs that are made, checked and converted
//! - `proof_files`: proof files that are refused or can't be read
//! - `workers`: chases with one worker and with many, and what passes their gates
//! - `limits`: limits without `--large` and with it
//! - `texts`: texts that several of them run on
#![tactic(auto)]

#[cfg(test)]
mod graphs;
#[cfg(test)]
mod keys;
#[cfg(test)]
mod limits;
#[cfg(test)]
mod proof_files;
#[cfg(test)]
mod proofs;
#[cfg(test)]
mod runs;
#[cfg(test)]
mod texts;
#[cfg(test)]
mod words;
#[cfg(test)]
mod workers;
