//! Searches by labels of the board.

ghost use Rattle.std.specs.Prelude.{◌≡◌, ◌≤◌, ℕ, List};
ghost use Rattle.chase_laws.specs.declared.entry.Entry.{Entry};
ghost use Rattle.chase_laws.specs.Core.{PairAt, ListsNear, name_count};
ghost use Rattle.label_board.specs.Seen.{SeenBoard};
ghost use Rattle.steal_pool.specs.Bases.{IsSince};
ghost use Rattle.steal_pool.specs.Workspaces.{IsPlace};
ghost use Rattle.steal_pool.specs.Batches.{ComesTo, IsJob, SearchesBy};

use crate::workspace::{Job, Progress};
use chase_core::{Outcome, Setup, Ticket, outcome_of};
use label_board::{Board, Watcher};
use paired_search::View;

/// Fills a view of what is near to a pair's ends from the board.
fn look(setup: &Setup, board: &Board, ticket: &Ticket, watcher: &mut Watcher, view: &mut View)
    requires board { (watcher.old.board ≡ board.now.id) × (board.now.names ≡ name_count setup.now.task) }
    requires ends { PairAt setup.now.task ticket.now.pair ticket.now.a ticket.now.b }
    requires room { setup.now.widest ≤ view.old.room }
    ensures near { ListsNear setup.now.task ticket.now.a ticket.now.b view.new.pairs }
    ensures read { watcher.new.read ≡ view.new.pairs }
    ensures since { watcher.new.since ≡ watcher.old.since }
    ensures board { watcher.new.board ≡ watcher.old.board }
    ensures room { view.new.room ≡ view.old.room }
{
    // What holds of every setup: its pairs are of names.
    let _ = setup.pairs();
    let near = setup.near();
    let left = near.near(ticket.a);
    let right = near.near(ticket.b);
    board.fill(watcher, left, right, view);
}

/// Searches for the pair of a job by its view, and notes what that comes to.
fn search_view(setup: &Setup, job: &mut Job, ticket: Ticket)
    requires ends { PairAt setup.now.task ticket.pair ticket.a ticket.b }
    requires near { ListsNear setup.now.task ticket.a ticket.b job.old.view.pairs }
    requires read { job.old.watcher.read ≡ job.old.view.pairs }
    ensures comes { ComesTo setup.now.task ticket job.new.view.pairs job.new.finding job.new.progress }
    ensures place { (widest : ℕ) → (on : SeenBoard) → IsPlace widest on job.old → IsPlace widest on job.new }
    ensures job { (seen : List Entry) → IsSince seen job.old.watcher.since job.old.since → IsJob setup.now.task seen job.new }
{
    match outcome_of(setup, &ticket, &job.view) {
        Outcome::Missed => job.progress = Progress::Missed(ticket),
        Outcome::Found(finding) => {
            job.finding = finding;
            job.progress = Progress::Found(ticket);
        }
    }
}

/// Searches for the pair of a job that was taken, by labels of the board. Another job stays as it is.
pub fn search_job(setup: &Setup, board: &Board, job: &mut Job)
    requires place { IsPlace setup.now.widest board.now job.old }
    requires names { board.now.names ≡ name_count setup.now.task }
    requires job { (seen : List Entry) × IsJob setup.now.task seen job.old }
    ensures place { IsPlace setup.now.widest board.now job.new }
    ensures searches { SearchesBy setup.now.task job.new.view.pairs job.new.finding job.old.progress job.new.progress }
    ensures job { (seen : List Entry) → IsJob setup.now.task seen job.old → IsJob setup.now.task seen job.new }
{
    match job.progress {
        Progress::Taken(ticket) => {
            look(setup, board, &ticket, &mut job.watcher, &mut job.view);
            search_view(setup, job, ticket);
        }
        Progress::Missed(_) => {}
        Progress::Found(_) => {}
        Progress::Free => {}
    }
}
