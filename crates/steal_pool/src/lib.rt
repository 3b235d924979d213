//! Workers that share one chase: they search at once, each in a thread of its own, and all hold one state of what is the
//! same. The chase stands behind a lock that lets them in one at a time. In a turn a worker settles what it has searched
//! and takes its next pairs; it searches between turns, by views of the labels that it took with them. A worker has a
//! deque of hints, which are pairs that may be found now; it takes the hint that was pushed last, steals one where it has
//! none, and takes the first Ready pair where nobody has any. Contracts say that the chase comes out over the same setup
//! with a journal that goes on from what it was. How much of it the workers did is not part of them.
//!
//! - `crew`: a crew, made and mustered
//! - `run`: the run of a crew
//! - `gate`: what a worker passes before a search
//! - `shared`: the chase as a value with a journal
//! - `threads`: workers in threads of their own, over any value
//! - `worker`: what a worker does until it ends
//! - `search`: searches by labels of the board
//! - `turns`: a turn of a worker
//! - `batch`: what a worker does with the chase in a turn
//! - `signs`: what workers tell one another without the lock
//! - `door`: what a worker passes before its turn
//! - `alone`: what a worker does that has a chase for itself
//! - `hunt`: where a worker looks for a hint
//! - `crew_member`: a worker with its pass of the lock
//! - `workspace`: what a worker has besides
//! - `workspaces`: the workspaces of all workers
//! - `deques`: the workers' deques, and the passes for stealing from them
//! - `hints`: a deque of hints
//! - `hint_rule`: the rule of such a deque
#![tactic(auto)]

mod alone;
mod batch;
mod crew;
mod crew_member;
mod deques;
mod door;
mod gate;
mod hint_rule;
mod hints;
mod hunt;
mod run;
mod search;
mod shared;
mod signs;
mod threads;
mod turns;
mod worker;
mod workspace;
mod workspaces;

pub use crew::{Crew, muster};
pub use gate::{Gate, OpenGate};
pub use run::run_crew;
pub use shared::Shared;
