//! Valuations of one key on one side: one that has given parts, and lists of all that matter. A search goes through a key's
//! slots by its plan and extends a list of names slot by slot. Its answers are exact in both directions.
//!
//! - `fits`: what one more name has to be
//! - `choices`: which names may come next
//! - `marks`: what the names at some places have to be
//! - `complete`: one valuation that begins with a list
//! - `find`: one valuation with given parts
//! - `leading`: the values next to slot 0, by which names are left out at once
//! - `parts`: the parts of a valuation as a row
//! - `extend_all`: all choices at the slots behind a list
//! - `budget`: how many rows may be made
//! - `search`: what the valuations of a key are looked for with
//! - `runs`: the valuations at a run of leading values
//! - `threads`: rows by threads
//! - `list`: the valuations of all keys whose values another name has, too
#![tactic(auto)]

mod budget;
mod choices;
mod complete;
mod extend_all;
mod find;
mod fits;
mod leading;
mod list;
mod marks;
mod parts;
mod runs;
mod search;
mod threads;

pub use find::find_valuation;
pub use list::list_valuations;
