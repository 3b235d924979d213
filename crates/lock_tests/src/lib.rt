//! Tests of turns, on a list of numbers, in one thread and in many. They stand here and not in `turn_lock`, since a crate with
//! tests is proved twice.
//!
//! - `numbers`: the list
//! - `threads`: turns of many threads
//! - `turns`: the tests
#![tactic(auto)]

#[cfg(test)]
mod numbers;
#[cfg(test)]
mod threads;
#[cfg(test)]
mod turns;
