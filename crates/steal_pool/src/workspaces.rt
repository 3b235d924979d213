//! The workers' workspaces.

ghost use Rattle.std.specs.Prelude.{◌≡◌, ◌<◌, ◌≤◌, ◌+◌, ◌*◌, ◌/◌, ℕ, [], All, IfOk, length, max, min};
ghost use Rattle.steal_pool.specs.Workspaces.{IsPlace, IsOwnDeque, IsWorkspace, ReachAll, deque_ids};

use crate::deques::{deal, deques, steal_passes_of, thieves_of};
use crate::hints::{HintDeque, Thief};
use crate::workspace::{Job, Progress, StealPass, Workspace};
use chase_core::{Setup, Woken};
use chase_laws::Places;
use gk_base::NoMemory;
use label_board::{Board, Watcher};
use paired_search::{Finding, View};
use std::alloc::Global;

// How many woken pairs one settle may note.
const WOKEN: u32 = 256;

// How many pairs a batch has at most. More gain little, and grow old while they wait in it.
const BATCH: u32 = 64;

// For how many names the views of one worker have room together, where one view does not take more: 512 kilobytes.
const NAMES: u32 = 65536;

// A batch takes at most this part of a worker's even share of the Ready pairs.
const PART: u32 = 8;

/// The passes for stealing, a list for each worker.
fn all_steal_passes(
    alloc: Global,
    deques: &mut [HintDeque],
    count: u32,
) -> Result<Vec<Vec<StealPass>>, NoMemory>
    requires few { length deques.old ≤ 64 }
    requires deques { All (IsOwnDeque count) deques.old }
    ensures each { IfOk result (λ lists. length lists.items ≡ length deques.old) }
    ensures kept { length deques.new ≡ length deques.old }
    ensures deques { All (IsOwnDeque count) deques.new }
    ensures same { deque_ids deques.new ≡ deque_ids deques.old }
    ensures reach { IfOk result (λ lists. All (λ ps. ReachAll count (deque_ids deques.old) ps.items) lists.items) }
{
    let mut lists = Vec::with_capacity(alloc, deques.len())?;
    for _ in 0..deques.len() {
        lists.push_reserved(steal_passes_of(alloc, deques, count)?);
    }
    Ok(lists)
}

/// How many jobs a worker has, where its views have room for so many names each.
pub fn batch_size(widest: u32) -> u32
    ensures size { result ≡ max 1 (min 64 (65536 / max 1 widest)) }
    ensures within { (0 < result) × (result ≤ 64) }
{
    BATCH.min(NAMES / widest.max(1)).max(1)
}

/// What stands in a job before anything was found.
fn no_finding() -> Finding {
    Finding {
        key: 0,
        left: Places::empty(),
        right: Places::empty(),
    }
}

/// Jobs without a pair, for the last so many of the watchers, with room for the widest view.
fn free_jobs(
    alloc: Global,
    board: &Board,
    widest: u32,
    watchers: &mut Vec<Watcher>,
    count: u32,
) -> Result<Vec<Job>, NoMemory>
    requires enough { count ≤ length watchers.old.items }
    requires watchers { All (λ w. w.board ≡ board.now.id) watchers.old.items }
    ensures left { IfOk result (λ js. length watchers.new.items + count ≡ length watchers.old.items) }
    ensures watchers { All (λ w. w.board ≡ board.now.id) watchers.new.items }
    ensures places { IfOk result (λ js. All (IsPlace widest board.now) js.items) }
{
    let mut jobs = Vec::with_capacity(alloc, count as usize)?;
    for _ in 0..count {
        let watcher = watchers.pop().unwrap();
        let view = View::new(alloc, widest)?;
        jobs.push_reserved(Job {
            view,
            watcher,
            since: 0,
            progress: Progress::Free,
            finding: no_finding(),
        });
    }
    Ok(jobs)
}

/// One workspace.
fn workspace_of(
    alloc: Global,
    setup: &Setup,
    number: u32,
    share: u32,
    own: HintDeque,
    steal_passes: Vec<StealPass>,
    jobs: Vec<Job>,
) -> Result<Workspace, NoMemory>
    ensures count { IfOk result (λ w. w.count ≡ length setup.now.task.pairs) }
    ensures own { IfOk result (λ w. w.own ≡ own) }
    ensures passes { IfOk result (λ w. w.steal_passes ≡ steal_passes) }
    ensures pending { IfOk result (λ w. w.pending.items ≡ []) }
    ensures jobs { IfOk result (λ w. w.jobs ≡ jobs) }
{
    let count = setup.pairs().len() as u32;
    let woken = Woken::new(alloc, WOKEN)?;
    let pending = Vec::with_capacity(alloc, WOKEN as usize)?;
    Ok(Workspace {
        number,
        count,
        own,
        steal_passes,
        pending,
        woken,
        share,
        used: 0,
        searches: false,
        jobs,
    })
}

/// The workspaces of so many workers, and a handle of each deque. The first pairs are dealt as hints. A worker has so
/// many jobs, and each of these has one of the watchers.
pub fn workspaces(
    alloc: Global,
    setup: &Setup,
    board: &Board,
    watchers: Vec<Watcher>,
    workers: u32,
    each: u32,
) -> Result<(Vec<Thief>, Vec<Workspace>), NoMemory>
    requires workers { (0 < workers) × (workers ≤ 64) }
    requires enough { length watchers.items ≡ workers * each }
    requires watchers { All (λ w. w.board ≡ board.now.id) watchers.items }
    ensures each { IfOk result (λ r. length r.1.items ≡ workers) }
    ensures workspaces { IfOk result (λ r. All (IsWorkspace (length setup.now.task.pairs) setup.now.widest board.now r.0.items) r.1.items) }
{
    let mut watchers = watchers;
    let count = setup.pairs().len() as u32;
    let widest = setup.widest();
    let mut owned = deques(alloc, workers, count)?;
    deal(owned.as_mut_slice(), count);
    let thieves = thieves_of(alloc, owned.as_slice())?;
    let mut lists = all_steal_passes(alloc, owned.as_mut_slice(), count)?;
    let mut workspaces = Vec::with_capacity(alloc, workers as usize)?;
    while let Some(own) = owned.pop() {
        let passes = lists.pop().unwrap();
        let number = owned.len() as u32;
        let jobs = free_jobs(alloc, board, widest, &mut watchers, each)?;
        let workspace = workspace_of(alloc, setup, number, PART * workers, own, passes, jobs)?;
        workspaces.push_reserved(workspace);
    }
    Ok((thieves, workspaces))
}
