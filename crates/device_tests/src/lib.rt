//! Tests of whole runs of `gkey_cmd` in which each call of a device fails in turn. They stand in a crate of their own, since a
//! crate with tests is proved twice.
//!
//! - `ends`: how a command ends over devices that fail
//! - `failing`: the tests
#![tactic(auto)]

#[cfg(test)]
mod ends;
#[cfg(test)]
mod failing;
