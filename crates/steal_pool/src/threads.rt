//! Workers in threads of their own, over any value: the lifetime of the value stays behind the type parameter.

ghost use Rattle.std.specs.Prelude.{◌≡◌, ℕ, All};
ghost use Rattle.label_board.specs.Seen.{SeenBoard};
ghost use Rattle.steal_pool.specs.CrewMembers.{IsCrewMember};

use crate::crew_member::CrewMember;
use crate::gate::Gate;
use crate::hints::Thief;
use crate::signs::Signs;
use label_board::Board;
use std::sync::Wait;
use std::thread;
use std::thread::Threads;
use turn_lock::{Journaled, TurnLock};

/// What a worker does with a shared value until it ends.
pub trait Work: Journaled {
    /// How many pairs there are.
    ghost pairs: { Self.Base → ℕ };

    /// The room that a view has to have.
    ghost widest: { Self.Base → ℕ };

    /// The board of board.
    ghost board_of: { Self.Base → SeenBoard };

    /// By the signs workers tell one another what they are at.
    fn work<G: Gate, R: Wait>(
        rt: &R,
        lock: &TurnLock<Self>,
        board: &Board,
        thieves: &[Thief],
        gate: &G,
        signs: &Signs,
        member: &mut CrewMember<Self>,
    )
        requires { IsCrewMember pairs widest board_of lock.now board.now thieves.now member.old }
        ensures { IsCrewMember pairs widest board_of lock.now board.now thieves.now member.new };
}

/// Each worker in a thread of its own, where there are several. All have ended when it returns.
pub fn work_all<T: Work + Send, G: Gate, R: Threads + Wait + Sync>(
    rt: &R,
    lock: &TurnLock<T>,
    board: &Board,
    thieves: &[Thief],
    gate: &G,
    signs: &Signs,
    members: &mut [CrewMember<T>],
)
    requires { All (IsCrewMember T.pairs T.widest T.board_of lock.now board.now thieves.now) members.old }
    ensures { All (IsCrewMember T.pairs T.widest T.board_of lock.now board.now thieves.now) members.new }
{
    if members.len() < 2 {
        return;
    }
    thread::for_each_mut(
        rt,
        members,
        64,
        &|_, member|
            requires { IsCrewMember T.pairs T.widest T.board_of lock.now board.now thieves.now member.now }
            ensures { IsCrewMember T.pairs T.widest T.board_of lock.entry.now board.entry.now thieves.entry.now member.exit.now }
        { T::work(rt, lock, board, thieves, gate, signs, member) },
    );
}
