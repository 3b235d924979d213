//! Tests of keys: `key_file` and `key_lang`. They stand here and not in those crates, since a crate with tests is proved twice.
//!
//! - `patterns`: `key_file`
//! - `key_files`: `key_lang`
#![tactic(auto)]

#[cfg(test)]
mod key_files;
#[cfg(test)]
mod patterns;
