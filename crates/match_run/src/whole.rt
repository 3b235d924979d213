//! Answers the classes of equal names, from what is prepared.

ghost use Rattle.std.specs.Prelude.{◌<◌, ◌≤◌, IfOk};
ghost use Rattle.match_run.specs.Classes.{AreClasses};

use crate::together::chase_setup;
use chase_core::Setup;
use gk_base::NoMemory;
use std::alloc::Global;
use std::sync::Wait;
use std::thread::Threads;
use steal_pool::Gate;

/// One label for each name, equal exactly where the chase makes two names the same. All else that the chase took is given back,
/// the setup too. At most so many workers chase, 1 to 64, each in a thread of its own, and each passes the gate before each search.
/// Only want of memory stops it.
pub fn classes<R: Threads + Wait + Sync, G: Gate>(
    rt: &R,
    alloc: Global,
    setup: Setup,
    workers: u32,
    gate: &G,
) -> Result<Vec<u32>, NoMemory>
    requires workers { (0 < workers) × (workers ≤ 64) }
    ensures classes { IfOk result (λ labels. AreClasses setup.task.graph setup.task.patterns labels.items) }
{
    let matched = chase_setup(rt, alloc, &setup, workers, gate)?;
    Ok(matched.labels)
}
