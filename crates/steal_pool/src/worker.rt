//! What a worker does until it ends.

ghost use Rattle.std.specs.Prelude.{◌≡◌, ◌<◌, ℕ, List, All, Some, length};
ghost use Rattle.chase_laws.specs.declared.entry.Entry.{Entry};
ghost use Rattle.chase_laws.specs.Core.{Task, name_count};
ghost use Rattle.label_board.specs.Seen.{SeenBoard};
ghost use Rattle.turn_lock.specs.Handles.{base_of};
ghost use Rattle.steal_pool.specs.Workspaces.{IsPlace};
ghost use Rattle.steal_pool.specs.Bases.{pair_count, widest_of, board_of};
ghost use Rattle.steal_pool.specs.CrewMembers.{IsCrewMember};
ghost use Rattle.steal_pool.specs.Batches.{IsAtWork, IsJob};

use crate::batch::Next;
use crate::crew_member::CrewMember;
use crate::gate::Gate;
use crate::hints::Thief;
use crate::hunt::keep_hint;
use crate::search::search_job;
use crate::shared::Shared;
use crate::signs::Signs;
use crate::threads::Work;
use crate::turns::change_batch;
use crate::workspace::{Job, Progress};
use chase_core::Setup;
use label_board::Board;
use std::sync::Wait;
use std::thread;
use turn_lock::TurnLock;

/// Searches for the pair of one of a worker's jobs.
fn search_at<'a>(
    lock: &TurnLock<Shared<'a>>,
    board: &Board,
    thieves: &[Thief],
    setup: &Setup,
    member: &mut CrewMember<Shared<'a>>,
    k: usize,
)
    requires at_work { IsAtWork lock.now board.now thieves.now member.old }
    requires names { board.now.names ≡ name_count setup.now.task }
    requires setup { base_of member.old.pass ≡ Some (setup.now, board.now) }
    requires within { k < length member.old.workspace.jobs.items }
    ensures at_work { IsAtWork lock.now board.now thieves.now member.new }
    ensures setup { base_of member.new.pass ≡ Some (setup.now, board.now) }
    ensures count { length member.new.workspace.jobs.items ≡ length member.old.workspace.jobs.items }
{
    search_job(setup, board, &mut member.workspace.jobs[k]);
}

/// Lets no job have a pair.
fn free_all(jobs: &mut Vec<Job>)
    ensures places { (widest : ℕ) (on : SeenBoard) → All (IsPlace widest on) jobs.old.items → All (IsPlace widest on) jobs.new.items }
    ensures jobs { (T : Task) → (seen : List Entry) → All (IsJob T seen) jobs.new.items }
{
    for k in 0..jobs.len() {
        jobs[k].progress = Progress::Free;
    }
}

/// A worker that begins has no pair.
fn begin<'a>(
    lock: &TurnLock<Shared<'a>>,
    board: &Board,
    thieves: &[Thief],
    member: &mut CrewMember<Shared<'a>>,
)
    requires { IsCrewMember pair_count widest_of board_of lock.now board.now thieves.now member.old }
    ensures { IsAtWork lock.now board.now thieves.now member.new }
{
    // The board is only named in the contract.
    let _ = board;
    free_all(&mut member.workspace.jobs);
}

/// Looks for a hint, and keeps it for the next turn. It answers whether there was one.
fn find_hint<'a>(
    lock: &TurnLock<Shared<'a>>,
    board: &Board,
    thieves: &[Thief],
    member: &mut CrewMember<Shared<'a>>,
) -> bool
    requires { IsAtWork lock.now board.now thieves.now member.old }
    ensures { IsAtWork lock.now board.now thieves.now member.new }
{
    // The board is only named in the contract.
    let _ = board;
    keep_hint(&mut member.workspace, thieves)
}

/// Looks for hints until there is one, or no worker searches that could wake any.
fn look_again<'a, R: Wait>(
    rt: &R,
    lock: &TurnLock<Shared<'a>>,
    board: &Board,
    thieves: &[Thief],
    signs: &Signs,
    member: &mut CrewMember<Shared<'a>>,
)
    requires { IsAtWork lock.now board.now thieves.now member.old }
    ensures { IsAtWork lock.now board.now thieves.now member.new }
{
    for _ in rt.forever() {
        if find_hint(lock, board, thieves, member) || signs.is_quiet() {
            return;
        }
        thread::yield_now();
    }
    unreachable!()
}

impl<'a> Work for Shared<'a> {
    ghost pairs = { pair_count };

    ghost widest = { widest_of };

    ghost board_of = { board_of };

    fn work<G: Gate, R: Wait>(
        rt: &R,
        lock: &TurnLock<Shared<'a>>,
        board: &Board,
        thieves: &[Thief],
        gate: &G,
        signs: &Signs,
        member: &mut CrewMember<Shared<'a>>,
    ) {
        begin(lock, board, thieves, member);
        for _ in rt.forever() {
            let (next, setup) = change_batch(rt, lock, board, thieves, signs, member);
            match next {
                Next::End => return,
                Next::Leave => return,
                Next::GoAlone => return,
                Next::LookAgain => look_again(rt, lock, board, thieves, signs, member),
                Next::Search => {
                    for k in 0..member.workspace.used.min(member.workspace.jobs.len()) {
                        if let Progress::Taken(ticket) = member.workspace.jobs[k].progress {
                            gate.pass(member.workspace.number, ticket.pair);
                            search_at(lock, board, thieves, setup, member, k);
                        }
                    }
                }
            }
        }
    }
}
