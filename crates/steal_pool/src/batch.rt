//! What a worker does with the chase in a turn: it settles the jobs that it has searched, and takes pairs for new ones.

ghost use Rattle.std.specs.Prelude.{◌≡◌, ◌++◌, ◌<◌, ◌^◌, ◌↔◌, [], ℕ, List, All, IfSome, IsTrue, IsSome, None, Some, MatchOption, if◌then◌else◌, length, slice_index_or};
ghost use Rattle.chase_laws.specs.declared.entry.Entry.{Entry};
ghost use Rattle.chase_laws.specs.Core.{ListsNear, PairAt};
ghost use Rattle.chase_core.specs.declared.ticket.Outcome.TheVariants.{Found, Missed};
ghost use Rattle.chase_core.specs.declared.ticket.Settled.{Settled};
ghost use Rattle.chase_core.specs.Settling.{IsFoundBy, Settles};
ghost use Rattle.chase_core.specs.Taking.{TakesFirst, TakesHint};
ghost use Rattle.steal_pool.specs.declared.batch.Next.TheVariants.{End, Search};
ghost use Rattle.steal_pool.specs.declared.workspace.Job.{Job};
ghost use Rattle.steal_pool.specs.declared.workspace.Progress.TheVariants.{Free};
ghost use Rattle.steal_pool.specs.Workspaces.{IsPlace, IsOwnDeque, IsWorkspace, ReachEach, Thief};
ghost use Rattle.label_board.specs.Seen.{SeenBoard};
ghost use Rattle.steal_pool.specs.Bases.{IsSince, board_over};
ghost use Rattle.steal_pool.specs.Batches.{IsJob, IsSearched, SettlesBy, pair_in};

use crate::hints::Thief;
use crate::hunt::{keep_woken, next_hint, own_hint};
use crate::shared::Shared;
use crate::workspace::{Job, Progress, Workspace};
use chase_core::{Ticket, Woken};
use label_board::Board;

/// A post writes a label for each name of the class that its entry made. Where that has more names than this, a worker goes on
/// alone, which posts nothing.
const LARGE: u32 = 1024;

/// What a worker does after a turn.
#[derive(Clone, Copy)]
pub enum Next {
    /// It searches for the pairs of its batch, if it has any, and goes on.
    Search,
    /// It looks for hints until it finds one or no other worker searches, and goes on.
    LookAgain,
    /// It ends: no pair was Ready when it took one last.
    End,
    /// It ends, since another worker goes on alone.
    Leave,
    /// It ends with the others, and goes on alone.
    GoAlone,
}

/// Settles the pair of a job of which its search found something, and keeps what that wakes. The job has no pair then.
fn settle_found(
    shared: &mut Shared<'_>,
    board: &Board,
    job: &mut Job,
    ticket: Ticket,
    woken: &mut Woken,
    pending: &mut Vec<u32>,
    count: u32,
)
    requires board { board_over shared.old.chase.setup shared.old.scribe.board ≡ board.now }
    requires place { IsPlace shared.old.chase.setup.widest board.now job.old }
    requires read { job.old.watcher.read ≡ job.old.view.pairs }
    requires ends { PairAt shared.old.chase.setup.task ticket.pair ticket.a ticket.b }
    requires near { ListsNear shared.old.chase.setup.task ticket.a ticket.b job.old.view.pairs }
    requires found { IsFoundBy shared.old.chase.setup.task ticket job.old.view.pairs (Found job.old.finding) }
    requires pending { All (λ p. p < count) pending.old.items }
    requires count { length shared.old.chase.setup.task.pairs ≡ count }
    ensures settles { (answer : Settled) × Settles shared.old.chase ticket job.new.view.pairs (Found job.old.finding) answer shared.new.chase }
    ensures free { job.new.progress ≡ Free }
    ensures setup { shared.new.chase.setup ≡ shared.old.chase.setup }
    ensures board { shared.new.scribe.board ≡ shared.old.scribe.board }
    ensures grows { (more : List Entry) × (shared.new.chase.book.journal ≡ shared.old.chase.book.journal ++ more) }
    ensures pending { All (λ p. p < count) pending.new.items }
    ensures place { IsPlace shared.old.chase.setup.widest board.now job.new }
{
    shared.settle_found(
        board,
        &mut job.watcher,
        ticket,
        &job.view,
        &job.finding,
        woken,
    );
    keep_woken(pending, woken.list(), count);
    job.progress = Progress::Free;
}

/// Settles the pair of a job of which its search found nothing, which wakes no pair. The job has no pair then.
#[inline]
fn settle_missed(
    shared: &mut Shared<'_>,
    board: &Board,
    job: &mut Job,
    ticket: Ticket,
    woken: &mut Woken,
)
    requires board { board_over shared.old.chase.setup shared.old.scribe.board ≡ board.now }
    requires place { IsPlace shared.old.chase.setup.widest board.now job.old }
    requires read { job.old.watcher.read ≡ job.old.view.pairs }
    requires since { IsSince shared.old.chase.book.journal job.old.watcher.since job.old.since }
    requires ends { PairAt shared.old.chase.setup.task ticket.pair ticket.a ticket.b }
    requires near { ListsNear shared.old.chase.setup.task ticket.a ticket.b job.old.view.pairs }
    requires found { IsFoundBy shared.old.chase.setup.task ticket job.old.view.pairs Missed }
    ensures settles { (answer : Settled) × Settles shared.old.chase ticket job.new.view.pairs Missed answer shared.new.chase }
    ensures free { job.new.progress ≡ Free }
    ensures setup { shared.new.chase.setup ≡ shared.old.chase.setup }
    ensures board { shared.new.scribe.board ≡ shared.old.scribe.board }
    ensures book { shared.new.chase.book ≡ shared.old.chase.book }
    ensures place { IsPlace shared.old.chase.setup.widest board.now job.new }
{
    shared.settle_missed(board, &mut job.watcher, job.since, ticket, &job.view, woken);
    job.progress = Progress::Free;
}

/// Settles a job that was searched, and keeps what that wakes. Another job stays as it is.
#[inline]
fn settle_job(
    shared: &mut Shared<'_>,
    board: &Board,
    job: &mut Job,
    woken: &mut Woken,
    pending: &mut Vec<u32>,
    count: u32,
)
    requires board { board_over shared.old.chase.setup shared.old.scribe.board ≡ board.now }
    requires place { IsPlace shared.old.chase.setup.widest board.now job.old }
    requires job { IsJob shared.old.chase.setup.task shared.old.chase.book.journal job.old }
    requires pending { All (λ p. p < count) pending.old.items }
    requires count { length shared.old.chase.setup.task.pairs ≡ count }
    ensures settles { SettlesBy shared.old.chase job.new.view.pairs job.old.finding job.old.progress shared.new.chase job.new.progress }
    ensures settled { ¬ (IsSearched job.new.progress) }
    ensures setup { shared.new.chase.setup ≡ shared.old.chase.setup }
    ensures board { shared.new.scribe.board ≡ shared.old.scribe.board }
    ensures grows { (more : List Entry) × (shared.new.chase.book.journal ≡ shared.old.chase.book.journal ++ more) }
    ensures pending { All (λ p. p < count) pending.new.items }
    ensures place { IsPlace shared.old.chase.setup.widest board.now job.new }
    ensures job { IsJob shared.new.chase.setup.task shared.new.chase.book.journal job.new }
{
    match job.progress {
        Progress::Missed(ticket) => settle_missed(shared, board, job, ticket, woken),
        Progress::Found(ticket) => {
            settle_found(shared, board, job, ticket, woken, pending, count)
        }
        Progress::Taken(_) => {}
        Progress::Free => {}
    }
}

/// Settles the first jobs, in order.
fn settle_all(
    shared: &mut Shared<'_>,
    board: &Board,
    jobs: &mut [Job],
    used: usize,
    woken: &mut Woken,
    pending: &mut Vec<u32>,
    count: u32,
)
    requires board { board_over shared.old.chase.setup shared.old.scribe.board ≡ board.now }
    requires jobs { All (IsJob shared.old.chase.setup.task shared.old.chase.book.journal) jobs.old }
    requires places { All (IsPlace shared.old.chase.setup.widest board.now) jobs.old }
    requires pending { All (λ p. p < count) pending.old.items }
    requires count { length shared.old.chase.setup.task.pairs ≡ count }
    ensures settled { (k : ℕ) (d : Job) → k < used → k < length jobs.old → ¬ (IsSearched (slice_index_or jobs.new k d).progress) }
    ensures setup { shared.new.chase.setup ≡ shared.old.chase.setup }
    ensures board { shared.new.scribe.board ≡ shared.old.scribe.board }
    ensures grows { (more : List Entry) × (shared.new.chase.book.journal ≡ shared.old.chase.book.journal ++ more) }
    ensures pending { All (λ p. p < count) pending.new.items }
    ensures jobs { All (IsJob shared.new.chase.setup.task shared.new.chase.book.journal) jobs.new }
    ensures places { All (IsPlace shared.old.chase.setup.widest board.now) jobs.new }
{
    for k in 0..used.min(jobs.len()) {
        settle_job(shared, board, &mut jobs[k], woken, pending, count);
    }
}

/// Takes a pair for a job that has none. It answers whether it has one now.
#[inline]
fn take_job(shared: &mut Shared<'_>, board: &Board, job: &mut Job, hint: Option<u32>) -> bool
    requires board { board_over shared.old.chase.setup shared.old.scribe.board ≡ board.now }
    requires place { IsPlace shared.old.chase.setup.widest board.now job.old }
    requires free { pair_in job.old.progress ≡ None }
    requires hint { IfSome hint (λ p. p < length shared.old.chase.setup.task.pairs) }
    ensures takes { MatchOption hint (TakesFirst shared.old.chase shared.new.chase (pair_in job.new.progress)) (λ p. TakesHint shared.old.chase shared.new.chase p (pair_in job.new.progress)) }
    ensures taken { IsTrue result ↔ IsSome (pair_in job.new.progress) }
    ensures none { hint ≡ None → ¬ (IsTrue result) → shared.new.chase.table.ready ≡ [] }
    ensures setup { shared.new.chase.setup ≡ shared.old.chase.setup }
    ensures book { shared.new.chase.book ≡ shared.old.chase.book }
    ensures scribe { shared.new.scribe ≡ shared.old.scribe }
    ensures place { IsPlace shared.old.chase.setup.widest board.now job.new }
    ensures job { IsJob shared.old.chase.setup.task shared.old.chase.book.journal job.new }
{
    match shared.take(board, hint, &mut job.watcher) {
        Some(ticket) => {
            job.since = shared.chase.book().journal().len();
            job.progress = Progress::Taken(ticket);
            true
        }
        None => {
            job.progress = Progress::Free;
            false
        }
    }
}

/// Takes a pair for a job that has none. One that has a pair keeps it, so that none is ever lost. It answers whether the
/// job has one now.
#[inline]
fn fill_job(shared: &mut Shared<'_>, board: &Board, job: &mut Job, hint: Option<u32>) -> bool
    requires board { board_over shared.old.chase.setup shared.old.scribe.board ≡ board.now }
    requires place { IsPlace shared.old.chase.setup.widest board.now job.old }
    requires job { IsJob shared.old.chase.setup.task shared.old.chase.book.journal job.old }
    requires hint { IfSome hint (λ p. p < length shared.old.chase.setup.task.pairs) }
    ensures kept { (p : ℕ) → pair_in job.old.progress ≡ Some p → job.new.progress ≡ job.old.progress }
    ensures taken { IsTrue result ↔ IsSome (pair_in job.new.progress) }
    ensures none { hint ≡ None → ¬ (IsTrue result) → shared.new.chase.table.ready ≡ [] }
    ensures setup { shared.new.chase.setup ≡ shared.old.chase.setup }
    ensures book { shared.new.chase.book ≡ shared.old.chase.book }
    ensures scribe { shared.new.scribe ≡ shared.old.scribe }
    ensures place { IsPlace shared.old.chase.setup.widest board.now job.new }
    ensures job { IsJob shared.old.chase.setup.task shared.old.chase.book.journal job.new }
{
    match job.progress {
        Progress::Free => take_job(shared, board, job, hint),
        Progress::Taken(_) => true,
        Progress::Missed(_) => true,
        Progress::Found(_) => true,
    }
}

/// The next hint: none at all in a turn that had none before, and only one of the worker's own where its last settles woke
/// pairs, which are searched for at once, with no others beside them.
fn hint_unless(
    dry: bool,
    woke: bool,
    workspace: &mut Workspace,
    thieves: &[Thief],
    n: u32,
) -> Option<u32>
    requires count { workspace.old.count ≡ n }
    requires own { IsOwnDeque n workspace.old.own }
    requires passes { ReachEach n thieves.now workspace.old.steal_passes.items }
    requires pending { All (λ p. p < n) workspace.old.pending.items }
    ensures count { workspace.new.count ≡ n }
    ensures own { IsOwnDeque n workspace.new.own }
    ensures passes { ReachEach n thieves.now workspace.new.steal_passes.items }
    ensures pending { All (λ p. p < n) workspace.new.pending.items }
    ensures jobs { workspace.new.jobs ≡ workspace.old.jobs }
    ensures hint { IfSome result (λ p. p < n) }
{
    if dry {
        return None;
    }
    if woke {
        return own_hint(workspace, n);
    }
    next_hint(workspace, thieves, n)
}

/// Whether a worker that finds no hint takes no more: it has what its last settles woke, or no pair is Ready while others
/// search, who may wake more.
fn has_enough(shared: &Shared<'_>, is_full: bool, others: bool) -> bool {
    is_full || (others && shared.chase.ready_count() == 0)
}

/// Notes whether a batch has a pair, and answers what follows: a search where it has one, and else what is given.
fn search_or(workspace: &mut Workspace, taken: bool, otherwise: Next) -> Next
    ensures next { result ≡ (if taken then Search else otherwise) }
    ensures noted { workspace.new ≡ record workspace.old { searches = taken } }
    ensures jobs { workspace.new.jobs ≡ workspace.old.jobs }
    ensures workspace { (n widest : ℕ) → (on : SeenBoard) → (thieves : List Thief) → IsWorkspace n widest on thieves workspace.old → IsWorkspace n widest on thieves workspace.new }
{
    workspace.searches = taken;
    if taken { Next::Search } else { otherwise }
}

/// Takes pairs for the first jobs, at most so many. Without a hint it takes only where a pair is Ready or no other worker
/// searches, since those that do may wake more.
fn take_all(
    shared: &mut Shared<'_>,
    workspace: &mut Workspace,
    board: &Board,
    thieves: &[Thief],
    most: usize,
    others: bool,
) -> Next
    requires board { board_over shared.old.chase.setup shared.old.scribe.board ≡ board.now }
    requires jobs { All (IsJob shared.old.chase.setup.task shared.old.chase.book.journal) workspace.old.jobs.items }
    requires workspace { IsWorkspace (length shared.old.chase.setup.task.pairs) shared.old.chase.setup.widest board.now thieves.now workspace.old }
    ensures ends { result ≡ End → shared.new.chase.table.ready ≡ [] }
    ensures setup { shared.new.chase.setup ≡ shared.old.chase.setup }
    ensures book { shared.new.chase.book ≡ shared.old.chase.book }
    ensures scribe { shared.new.scribe ≡ shared.old.scribe }
    ensures jobs { All (IsJob shared.old.chase.setup.task shared.old.chase.book.journal) workspace.new.jobs.items }
    ensures workspace { IsWorkspace (length shared.old.chase.setup.task.pairs) shared.old.chase.setup.widest board.now thieves.now workspace.new }
{
    let count = workspace.count;
    let woke = !workspace.pending.is_empty();
    let mut taken = false;
    let mut dry = false;
    workspace.used = most.min(workspace.jobs.len());
    for k in 0..workspace.jobs.len().min(most) {
        let hint = hint_unless(dry, woke, workspace, thieves, count);
        dry = hint.is_none();
        let is_through = dry && has_enough(shared, woke && taken, others);
        if is_through {
            return search_or(workspace, taken, Next::LookAgain);
        }
        if fill_job(shared, board, &mut workspace.jobs[k], hint) {
            taken = true;
        } else if dry {
            return search_or(workspace, taken, Next::End);
        }
    }
    search_or(workspace, taken, Next::Search)
}

/// A batch without a pair.
fn rest(workspace: &mut Workspace)
    ensures jobs { workspace.new.jobs ≡ workspace.old.jobs }
    ensures workspace { (n widest : ℕ) → (on : SeenBoard) → (thieves : List Thief) → IsWorkspace n widest on thieves workspace.old → IsWorkspace n widest on thieves workspace.new }
{
    workspace.used = 0;
    workspace.searches = false;
}

/// Whether there are more entries than that, and the last of them made a large class.
fn made_large(shared: &Shared<'_>, before: usize) -> bool {
    let book = shared.chase.book();
    let journal = book.journal();
    match journal.last() {
        Some(entry) => journal.len() > before && book.size(entry.a) > LARGE,
        None => false,
    }
}

/// Takes no more pairs, where another worker goes on alone or this one is to; or else the next batch: at most a share of what is
/// Ready, so that others find pairs too, and at least one.
fn take_next(
    shared: &mut Shared<'_>,
    workspace: &mut Workspace,
    board: &Board,
    thieves: &[Thief],
    others: bool,
    lone: bool,
    alone: bool,
) -> Next
    requires board { board_over shared.old.chase.setup shared.old.scribe.board ≡ board.now }
    requires jobs { All (IsJob shared.old.chase.setup.task shared.old.chase.book.journal) workspace.old.jobs.items }
    requires workspace { IsWorkspace (length shared.old.chase.setup.task.pairs) shared.old.chase.setup.widest board.now thieves.now workspace.old }
    ensures ends { result ≡ End → shared.new.chase.table.ready ≡ [] }
    ensures setup { shared.new.chase.setup ≡ shared.old.chase.setup }
    ensures book { shared.new.chase.book ≡ shared.old.chase.book }
    ensures scribe { shared.new.scribe ≡ shared.old.scribe }
    ensures jobs { All (IsJob shared.old.chase.setup.task shared.old.chase.book.journal) workspace.new.jobs.items }
    ensures workspace { IsWorkspace (length shared.old.chase.setup.task.pairs) shared.old.chase.setup.widest board.now thieves.now workspace.new }
{
    if lone {
        rest(workspace);
        return Next::Leave;
    }
    if alone {
        rest(workspace);
        return Next::GoAlone;
    }
    let share = workspace.share.max(1) as usize;
    let most = (shared.chase.ready_count() / share).max(1);
    take_all(shared, workspace, board, thieves, most, others)
}

/// Settles what was searched, and takes the next batch.
pub fn settle_and_take(
    shared: &mut Shared<'_>,
    workspace: &mut Workspace,
    board: &Board,
    thieves: &[Thief],
    others: bool,
    lone: bool,
) -> Next
    requires board { board_over shared.old.chase.setup shared.old.scribe.board ≡ board.now }
    requires jobs { All (IsJob shared.old.chase.setup.task shared.old.chase.book.journal) workspace.old.jobs.items }
    requires workspace { IsWorkspace (length shared.old.chase.setup.task.pairs) shared.old.chase.setup.widest board.now thieves.now workspace.old }
    ensures ends { result ≡ End → shared.new.chase.table.ready ≡ [] }
    ensures setup { shared.new.chase.setup ≡ shared.old.chase.setup }
    ensures board { shared.new.scribe.board ≡ shared.old.scribe.board }
    ensures grows { (more : List Entry) × (shared.new.chase.book.journal ≡ shared.old.chase.book.journal ++ more) }
    ensures short { length shared.new.chase.book.journal < 2 ^ 32 }
    ensures jobs { All (IsJob shared.old.chase.setup.task shared.new.chase.book.journal) workspace.new.jobs.items }
    ensures workspace { IsWorkspace (length shared.old.chase.setup.task.pairs) shared.old.chase.setup.widest board.now thieves.now workspace.new }
{
    let before = shared.chase.book().journal().len();
    settle_all(
        shared,
        board,
        workspace.jobs.as_mut_slice(),
        workspace.used,
        &mut workspace.woken,
        &mut workspace.pending,
        workspace.count,
    );
    let alone = made_large(shared, before);
    let next = take_next(shared, workspace, board, thieves, others, lone, alone);
    shared.holds();
    next
}
