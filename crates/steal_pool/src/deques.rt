//! The workers' deques, the hints that are dealt into them, and the passes for stealing from them.

ghost use Rattle.std.specs.Prelude.{◌≡◌, ◌<◌, ◌≤◌, ℕ, All, IfOk, length};
ghost use Rattle.steal_pool.specs.Workspaces.{IsOwnDeque, ReachAll, deque_ids, thief_ids};

use crate::hints::{HintDeque, Thief, another, hint_deque, push};
use crate::workspace::StealPass;
use gk_base::NoMemory;
use std::alloc::Global;

/// How many hints a deque has room for at first, and how many it is dealt at most.
pub const DEALT: u32 = 256;

/// An empty deque for each worker.
pub fn deques(alloc: Global, workers: u32, count: u32) -> Result<Vec<HintDeque>, NoMemory>
    ensures each { IfOk result (λ ds. length ds.items ≡ workers) }
    ensures deques { IfOk result (λ ds. All (IsOwnDeque count) ds.items) }
{
    let mut deques = Vec::with_capacity(alloc, workers as usize)?;
    for _ in 0..workers {
        deques.push_reserved(hint_deque(alloc, DEALT as usize, count)?);
    }
    Ok(deques)
}

/// Pushes the first pairs as hints, in ascending order, one to each worker in turn.
pub fn deal(deques: &mut [HintDeque], count: u32)
    requires some { (0 < length deques.old) × (length deques.old ≤ 64) }
    requires deques { All (IsOwnDeque count) deques.old }
    ensures each { length deques.new ≡ length deques.old }
    ensures deques { All (IsOwnDeque count) deques.new }
{
    let most = DEALT * deques.len() as u32;
    for pair in 0..count.min(most) {
        let turn = pair as usize % deques.len();
        push(&mut deques[turn], pair);
    }
}

/// A handle of each deque, by which others steal from it.
pub fn thieves_of(alloc: Global, deques: &[HintDeque]) -> Result<Vec<Thief>, NoMemory>
    ensures { IfOk result (λ ts. thief_ids ts.items ≡ deque_ids deques.now) }
{
    let mut thieves = Vec::with_capacity(alloc, deques.len())?;
    for deque in deques {
        thieves.push_reserved(deque.stealer()?);
    }
    Ok(thieves)
}

/// A pass of each deque, for one worker.
pub fn steal_passes_of(
    alloc: Global,
    deques: &mut [HintDeque],
    count: u32,
) -> Result<Vec<StealPass>, NoMemory>
    requires few { length deques.old ≤ 64 }
    requires deques { All (IsOwnDeque count) deques.old }
    ensures each { length deques.new ≡ length deques.old }
    ensures deques { All (IsOwnDeque count) deques.new }
    ensures same { deque_ids deques.new ≡ deque_ids deques.old }
    ensures reach { IfOk result (λ ps. ReachAll count (deque_ids deques.old) ps.items) }
{
    let mut passes = Vec::with_capacity(alloc, deques.len())?;
    for k in 0..deques.len() {
        let pass = another(&mut deques[k]);
        passes.push_reserved(StealPass { pass, of: k as u32 });
    }
    Ok(passes)
}
