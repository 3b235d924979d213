//! A turn of a worker.

ghost use Rattle.std.specs.Prelude.{◌≡◌, Some};
ghost use Rattle.turn_lock.specs.Handles.{base_of};
ghost use Rattle.chase_laws.specs.Core.{name_count};
ghost use Rattle.steal_pool.specs.Batches.{IsAtWork};

use crate::batch::{Next, settle_and_take};
use crate::crew_member::CrewMember;
use crate::hints::Thief;
use crate::hunt::push_kept;
use crate::shared::Shared;
use crate::signs::Signs;
use chase_core::Setup;
use label_board::Board;
use std::sync::Wait;
use turn_lock::TurnLock;

/// Pushes the pairs that a worker's last settles woke.
fn push_woken<'a>(
    lock: &TurnLock<Shared<'a>>,
    board: &Board,
    thieves: &[Thief],
    member: &mut CrewMember<Shared<'a>>,
)
    requires { IsAtWork lock.now board.now thieves.now member.old }
    ensures at_work { IsAtWork lock.now board.now thieves.now member.new }
    ensures pass { member.new.pass ≡ member.old.pass }
{
    // The board is only named in the contract.
    let _ = board;
    push_kept(
        &mut member.workspace.own,
        &mut member.workspace.pending,
        member.workspace.count,
    );
}

/// A turn in which the worker's jobs are settled, and the next pairs taken.
fn settle_and_take_in_turn<'a, R: Wait>(
    rt: &R,
    lock: &TurnLock<Shared<'a>>,
    board: &Board,
    thieves: &[Thief],
    signs: &Signs,
    member: &mut CrewMember<Shared<'a>>,
) -> (Next, &'a Setup)
    requires { IsAtWork lock.now board.now thieves.now member.old }
    ensures at_work { IsAtWork lock.now board.now thieves.now member.new }
    ensures names { board.now.names ≡ name_count result.1.now.task }
    ensures setup { base_of member.new.pass ≡ Some (result.1.now, board.now) }
{
    let searched = member.workspace.searches;
    signs.door.enter(rt);
    let mut turn = lock.enter(rt, &mut member.pass);
    let shared = turn.value();
    let others = signs.searching() > u64::from(searched);
    let lone = signs.lone() > 0;
    let next = settle_and_take(shared, &mut member.workspace, board, thieves, others, lone);
    let setup = shared.chase.setup();
    if let Next::GoAlone = next {
        signs.go_alone(member.workspace.number);
    }
    signs.count_in(searched, member.workspace.searches);
    lock.leave(turn, &mut member.pass);
    signs.door.leave();
    (next, setup)
}

/// A turn in which the worker's jobs are settled, and the next pairs taken; what woke is pushed after the turn, but
/// for a worker that goes on alone, which keeps it. Whoever
/// has the jobs may search for them without the turn, in the setup that is answered with what the worker does next.
///
/// A worker counts as in search from the turn in which it takes a pair, until it is through with a turn that takes none.
pub fn change_batch<'a, R: Wait>(
    rt: &R,
    lock: &TurnLock<Shared<'a>>,
    board: &Board,
    thieves: &[Thief],
    signs: &Signs,
    member: &mut CrewMember<Shared<'a>>,
) -> (Next, &'a Setup)
    requires { IsAtWork lock.now board.now thieves.now member.old }
    ensures at_work { IsAtWork lock.now board.now thieves.now member.new }
    ensures names { board.now.names ≡ name_count result.1.now.task }
    ensures setup { base_of member.new.pass ≡ Some (result.1.now, board.now) }
{
    let searched = member.workspace.searches;
    let (next, setup) = settle_and_take_in_turn(rt, lock, board, thieves, signs, member);
    match next {
        Next::GoAlone => {}
        _ => push_woken(lock, board, thieves, member),
    }
    signs.count_out(searched, member.workspace.searches);
    (next, setup)
}
