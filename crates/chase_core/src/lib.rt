//! The state of a chase, of which one identification after another makes names the same. A `Setup` holds what the chase
//! works on: the graph, the keys, the pairs of names that a key may identify, and what is near to each name. A `Chase`
//! hands a pair out with a view of the present labels, and settles it by what a search with that view came to: what was
//! found is always right and is entered, which makes pairs that missed before Ready again where it makes one class of a
//! name near to the one end and a name near to the other; that nothing was found is kept only where no label of the view has
//! changed since. One who knows that none has settles the pair with nothing compared. So pairs may be searched by many at
//! once, in any order, and the classes come out the same. One thread that works alone drains a chase: it searches by the
//! present labels themselves, and has no view to show or to compare.
//!
//! - `chase`: the chase and its calls
//! - `setup`: what a chase works on
//! - `ticket`: what passes between a chase and whoever searches for it
//! - `woken`: the pairs that an entry woke
//! - `held_law`: the law of pairs that are handed out
//! - `table`: where the pairs stand, and the Ready list
//! - `take`: which pair is handed out
//! - `show`: what is near to a pair's ends, shown with its labels
//! - `present`: what is the same by the present labels
//! - `settle`: what becomes of a pair that was searched
//! - `gather`: the pairs whose ends an entry brings together, set aside
//! - `wake`: pairs that were set aside, made Ready
//! - `recall`: pairs that are handed out, given back
//! - `tried`: what a search for a pair comes to
#![tactic(auto)]

mod chase;
mod gather;
pub mod held_law;
mod present;
mod recall;
mod settle;
mod setup;
mod show;
mod table;
mod take;
mod ticket;
mod tried;
mod wake;
mod woken;

pub use chase::Chase;
pub use chase_laws::PairState;
pub use setup::Setup;
pub use ticket::{Matched, Outcome, Settled, Ticket};
pub use tried::outcome_of;
pub use woken::Woken;
