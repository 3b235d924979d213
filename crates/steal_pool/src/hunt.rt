//! Where a worker looks for a hint, and where the pairs go that its settles woke.

ghost use Rattle.std.specs.Prelude.{◌≡◌, [], ℕ, ◌<◌, All, IfSome, IsTrue};
ghost use Rattle.label_board.specs.Seen.{SeenBoard};
ghost use Rattle.steal_pool.specs.Workspaces.{IsOwnDeque, IsWorkspace, ReachEach};

use crate::hints::{HintDeque, Thief, pop, push, steal};
use crate::workspace::{StealPass, Workspace};

/// A hint of another worker, in the order of their numbers.
fn steal_any(
    thieves: &[Thief],
    steal_passes: &mut [StealPass],
    number: u32,
    count: u32,
) -> Option<u32>
    requires passes { ReachEach count thieves.now steal_passes.old }
    ensures passes { ReachEach count thieves.now steal_passes.new }
    ensures hint { IfSome result (λ x. x < count) }
{
    for k in 0..thieves.len() {
        if k != number as usize {
            let found = steal(&thieves[k], &mut steal_passes[k].pass);
            if found.is_some() {
                return found;
            }
        }
    }
    None
}

/// A worker's own next hint: the last of the pairs that wait to be pushed, or the one that was pushed last.
pub fn own_hint(workspace: &mut Workspace, n: u32) -> Option<u32>
    requires own { IsOwnDeque n workspace.old.own }
    requires pending { All (λ p. p < n) workspace.old.pending.items }
    ensures count { workspace.new.count ≡ workspace.old.count }
    ensures own { IsOwnDeque n workspace.new.own }
    ensures passes { workspace.new.steal_passes ≡ workspace.old.steal_passes }
    ensures pending { All (λ p. p < n) workspace.new.pending.items }
    ensures jobs { workspace.new.jobs ≡ workspace.old.jobs }
    ensures hint { IfSome result (λ p. p < n) }
{
    if let Some(hint) = workspace.pending.pop() {
        return Some(hint);
    }
    pop(&mut workspace.own)
}

/// The next hint: the last of the pairs that wait to be pushed, the one that was pushed last, or another worker's.
pub fn next_hint(workspace: &mut Workspace, thieves: &[Thief], n: u32) -> Option<u32>
    requires count { workspace.old.count ≡ n }
    requires own { IsOwnDeque n workspace.old.own }
    requires passes { ReachEach n thieves.now workspace.old.steal_passes.items }
    requires pending { All (λ p. p < n) workspace.old.pending.items }
    ensures count { workspace.new.count ≡ n }
    ensures own { IsOwnDeque n workspace.new.own }
    ensures passes { ReachEach n thieves.now workspace.new.steal_passes.items }
    ensures pending { All (λ p. p < n) workspace.new.pending.items }
    ensures jobs { workspace.new.jobs ≡ workspace.old.jobs }
    ensures hint { IfSome result (λ p. p < n) }
{
    if let Some(hint) = own_hint(workspace, n) {
        return Some(hint);
    }
    steal_any(
        thieves,
        workspace.steal_passes.as_mut_slice(),
        workspace.number,
        n,
    )
}

/// Looks for a hint, and keeps it for the next turn. It answers whether there was one.
pub fn keep_hint(workspace: &mut Workspace, thieves: &[Thief]) -> bool
    requires { (n widest : ℕ) × (on : SeenBoard) × IsWorkspace n widest on thieves.now workspace.old }
    ensures jobs { workspace.new.jobs ≡ workspace.old.jobs }
    ensures workspace { (n widest : ℕ) → (on : SeenBoard) → IsWorkspace n widest on thieves.now workspace.old → IsWorkspace n widest on thieves.now workspace.new }
{
    let count = workspace.count;
    match next_hint(workspace, thieves, count) {
        Some(hint) => {
            let _ = workspace.pending.push(hint);
            true
        }
        None => false,
    }
}

/// Keeps the pairs that a settle woke until they may be pushed, so that the first of them is the first to come off. What
/// there is no memory for is let go.
pub fn keep_woken(pending: &mut Vec<u32>, woken: &[u32], count: u32)
    requires pending { All (λ p. p < count) pending.old.items }
    requires woken { All (λ p. p < count) woken.now }
    ensures { All (λ p. p < count) pending.new.items }
{
    for k in 0..woken.len() {
        let _ = pending.push(woken[woken.len() - 1 - k]);
    }
}

/// Pushes the pairs that were kept, the last on top. What the deque refuses is let go.
pub fn push_kept(own: &mut HintDeque, pending: &mut Vec<u32>, count: u32)
    requires own { IsOwnDeque count own.old }
    requires pending { All (λ p. p < count) pending.old.items }
    ensures own { IsOwnDeque count own.new }
    ensures empty { pending.new.items ≡ [] }
{
    for k in 0..pending.len() {
        push(own, pending[k]);
    }
    pending.clear();
}
