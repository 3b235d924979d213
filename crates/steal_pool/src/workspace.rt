//! What a worker has besides its pass of the lock.

use crate::hints::{HintDeque, ThiefPass};
use chase_core::{Ticket, Woken};
use label_board::Watcher;
use paired_search::{Finding, View};

/// A pass for stealing from one worker's deque. The number gives it a size: what has no bytes cannot be lent for writing
/// out of a list.
#[derive(Drop)]
pub struct StealPass {
    pub pass: ThiefPass,
    /// Whose deque it is.
    pub of: u32,
}

/// How far a job has come.
#[derive(Clone, Copy)]
pub enum Progress {
    /// It has no pair.
    Free,
    /// A pair was taken for it.
    Taken(Ticket),
    /// The pair was searched, and no key has two valuations that coincide.
    Missed(Ticket),
    /// The pair was searched, and the job has what was found.
    Found(Ticket),
}

/// A place of a worker's batch: a pair from its take to its settling, and the view that it is searched by, with the watcher
/// that fills it.
#[derive(Drop)]
pub struct Job {
    pub view: View,
    pub watcher: Watcher,
    /// How many entries there were when the pair was taken.
    pub since: usize,
    pub progress: Progress,
    /// What was found, where its progress is `Found`, and else nothing of meaning. It is large, and stands beside the progress
    /// so that no step of a pair for which nothing is found writes it.
    pub finding: Finding,
}

/// What a worker has besides its pass of the lock.
#[derive(Drop)]
pub struct Workspace {
    /// Its number among the workers.
    pub number: u32,
    /// How many pairs there are.
    pub count: u32,
    /// Its own deque.
    pub own: HintDeque,
    pub steal_passes: Vec<StealPass>,
    /// The pairs that its last settles woke, which belong on top of its own deque. They are pushed after the turn.
    pub pending: Vec<u32>,
    /// Room for the pairs that one settle wakes.
    pub woken: Woken,
    /// A batch takes at most one in so many of the Ready pairs.
    pub share: u32,
    /// How many of the jobs the present batch uses.
    pub used: usize,
    /// Whether the present batch has a pair.
    pub searches: bool,
    pub jobs: Vec<Job>,
}
