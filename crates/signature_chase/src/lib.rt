//! The chase by signatures. Two valuations of one key identify their names exactly if they have one signature: the same
//! values, and images of the same labels. The valuations with equal values make a group; a queue has the groups that are to be
//! looked at. A look enters what is of one signature, and where an entry gives names other labels, the groups that have one
//! of them among their images wait again.
//!
//! - `chasing`: the whole chase
//! - `settling`: one look at a group
//! - `leaders`: its rows of one signature
//! - `setting`: what a chase works on
//! - `entering`: one identification more, and those that were made before
//! - `waking`: which groups wait again
//! - `owning`, `owners`: for each name the groups that have it among their images
//! - `queue`: the groups that wait
#![tactic(auto)]

mod chasing;
mod entering;
mod leaders;
mod owners;
mod owning;
mod queue;
mod setting;
mod settling;
mod waking;

pub use chasing::{Chased, chase_by_signatures};
