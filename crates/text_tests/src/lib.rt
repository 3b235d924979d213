//! Tests of the crates that terms pass through as texts: `term_list`, `term_table`, `nt_lex`, `nt_reader` and `term_text`. They
//! stand here and not in those crates, since a crate with tests is proved twice.
//!
//! - `sample`: terms as rows of tables
//! - `packed`: `term_list`
//! - `numbered`: `term_table`
//! - `lexed`: `nt_lex`
//! - `read`: `nt_reader`
//! - `printed`: `term_text`
#![tactic(auto)]

#[cfg(test)]
mod lexed;
#[cfg(test)]
mod numbered;
#[cfg(test)]
mod packed;
#[cfg(test)]
mod printed;
#[cfg(test)]
mod read;
#[cfg(test)]
mod sample;
