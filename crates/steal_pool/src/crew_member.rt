//! A worker with its pass of the lock.

use crate::workspace::Workspace;
use turn_lock::{Journaled, Pass};

/// A worker.
#[derive(Drop)]
pub struct CrewMember<T: Journaled> {
    pub pass: Pass<T>,
    pub workspace: Workspace,
}
