//! Tests of the devices of `gk_io` and of the texts and terms of `gk_base`. They stand here and not in those crates, since a
//! crate with tests is proved twice.
//!
//! - `texts`: texts and terms
//! - `shelves`: files in memory
//! - `sinks`: sinks in memory, and `write_all`
//! - `paths`: the system's files, less what is private in `gk_io`
#![tactic(auto)]

#[cfg(test)]
mod paths;
#[cfg(test)]
mod shelves;
#[cfg(test)]
mod sinks;
#[cfg(test)]
mod texts;

/// What a test ends with where there is no memory for it.
#[cfg(test)]
const ENOUGH: &str = "enough memory";

/// What a test ends with where a file can't be written, found, read or removed.
#[cfg(test)]
const FILE: &str = "a file";
