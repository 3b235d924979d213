//! The search for one key and two valuations of it, at two given names, that coincide up to what is known to be the
//! same. What is known is a `Sameness`, as a `View`: names with the labels that they had. The search goes through a key's slots by its
//! plan and extends both valuations at once, so that what cannot coincide is dropped as soon as it shows. Where only wildcards
//! and constants are left, it completes each valuation by itself. It takes no memory, and its answer is exact in both directions.
//!
//! - `sameness`: what is known to be the same
//! - `view`: names with their labels
//! - `both`: two ascending lists of names, walked at once
//! - `planning`: the plans of all keys
//! - `fits`: what one more name has to be
//! - `choices`: which names may come next
//! - `complete`: valuations that begin with given lists, each by itself
//! - `extend`: two valuations, extended slot by slot
//! - `key_range`: which keys are searched
//! - `all_keys`: the search over the keys of a range, or all
#![tactic(auto)]

mod all_keys;
mod both;
mod choices;
mod complete;
mod extend;
mod fits;
mod key_range;
mod planning;
mod sameness;
mod view;

pub use all_keys::{Finding, search, search_within};
pub use both::{least_from, past};
pub use key_range::KeyRange;
pub use planning::plan_all;
pub use sameness::Sameness;
pub use view::View;
