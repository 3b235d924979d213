//! A crew: workers that are ready to share a chase.

ghost use Rattle.std.specs.Prelude.{◌≡◌, ◌<◌, ◌≤◌, ℕ, All, IfOk, IfErr, length, vec_len, vec_capacity};
ghost use Rattle.chase_laws.specs.Core.{name_count};
ghost use Rattle.chase_core.specs.Setup.{Preparation};
ghost use Rattle.turn_lock.specs.Handles.{opened, seats_of};
ghost use Rattle.steal_pool.specs.Bases.{pair_count, widest_of, board_of};
ghost use Rattle.steal_pool.specs.CrewMembers.{IsCrewMember, AllOutWith};
ghost use Rattle.steal_pool.specs.Workspaces.{IsWorkspace};

use crate::crew_member::CrewMember;
use crate::hints::Thief;
use crate::shared::Shared;
use crate::workspace::Workspace;
use crate::workspaces::{batch_size, workspaces};
use chase_core::Chase;
use gk_base::NoMemory;
use label_board::{Board, Scribe};
use std::alloc::Global;
use std::marker::Model;
use turn_lock::{Pass, TurnLock};

/// Workers that are ready to share a chase: all that their run needs is at hand. Contracts see the setup and the journal
/// of the chase, and how many workers there are. A crew ends only in `run_crew`.
pub struct Crew<'a> {
    pub(crate) lock: TurnLock<Shared<'a>>,
    pub(crate) board: Board,
    pub(crate) thieves: Vec<Thief>,
    pub(crate) members: Vec<CrewMember<Shared<'a>>>,
    /// Room for the passes when they come back.
    pub(crate) home: Vec<Pass<Shared<'a>>>,
}

impl<'a> Model for Crew<'a> {
    ghost use Rattle.std.specs.Prelude.{length};
    ghost use Rattle.turn_lock.specs.Handles.{opened};
    ghost use Rattle.steal_pool.specs.Crews.{CrewContents, IsCrew};

    ghost Value = { CrewContents };

    ghost view = { λ c. record { setup = (opened c.lock).chase.setup; journal = (opened c.lock).chase.book.journal; workers = length c.members.items } };

    ghost invariant = { λ c. IsCrew c.lock c.board c.thieves.items c.members.items c.home };
}

/// Gives each pass a workspace.
fn members_of<'a>(
    lock: &TurnLock<Shared<'a>>,
    board: &Board,
    thieves: &[Thief],
    passes: &mut Vec<Pass<Shared<'a>>>,
    workspaces: &mut Vec<Workspace>,
    members: &mut Vec<CrewMember<Shared<'a>>>,
)
    requires count { vec_len passes.old ≡ vec_len workspaces.old }
    requires room { (vec_len members.old ≡ 0) × (vec_len passes.old ≤ vec_capacity members.old) }
    requires parts { (S : Preparation) × AllOutWith lock.now (S, board.now) passes.old.items × All (IsWorkspace (length S.task.pairs) S.widest board.now thieves.now) workspaces.old.items }
    ensures count { vec_len members.new ≡ vec_len passes.old }
    ensures home { (vec_len passes.new ≡ 0) × (vec_capacity passes.new ≡ vec_capacity passes.old) }
    ensures members { All (IsCrewMember pair_count widest_of board_of lock.now board.now thieves.now) members.new.items }
{
    // The board is only named in the contract.
    let _ = board;
    while let Some(pass) = passes.pop() {
        let workspace = workspaces.pop().unwrap();
        members.push_reserved(CrewMember { pass, workspace });
    }
}

/// What a crew needs besides its lock.
struct CrewParts<'a> {
    board: Board,
    scribe: Scribe,
    thieves: Vec<Thief>,
    workspaces: Vec<Workspace>,
    /// Room for the members.
    members: Vec<CrewMember<Shared<'a>>>,
}

/// What a crew of so many workers over a chase needs besides its lock.
fn crew_parts<'a>(alloc: Global, chase: &Chase<'a>, workers: u32) -> Result<CrewParts<'a>, NoMemory>
    requires { (0 < workers) × (workers ≤ 64) }
    ensures names { IfOk result (λ p. p.board.names ≡ name_count chase.now.setup.task) }
    ensures scribe { IfOk result (λ p. p.scribe.board ≡ p.board.id) }
    ensures posted { IfOk result (λ p. p.scribe.posted ≡ chase.now.book.journal) }
    ensures shown { IfOk result (λ p. p.scribe.shown ≡ chase.now.book.labels) }
    ensures count { IfOk result (λ p. length p.workspaces.items ≡ workers) }
    ensures workspaces { IfOk result (λ p. All (IsWorkspace (length chase.now.setup.task.pairs) chase.now.setup.widest p.board p.thieves.items) p.workspaces.items) }
    ensures room { IfOk result (λ p. (vec_len p.members ≡ 0) × (workers ≤ vec_capacity p.members)) }
{
    let names = chase.setup().graph().names();
    let jobs = batch_size(chase.setup().widest());
    let (board, scribe, watchers) = Board::new(alloc, chase.book(), names, workers * jobs)?;
    let (thieves, workspaces) = workspaces(alloc, chase.setup(), &board, watchers, workers, jobs)?;
    let members = Vec::with_capacity(alloc, workers as usize)?;
    Ok(CrewParts {
        board,
        scribe,
        thieves,
        workspaces,
        members,
    })
}

/// The crew with this lock, of which each pass gets a workspace.
fn assemble<'a>(
    lock: TurnLock<Shared<'a>>,
    passes: Vec<Pass<Shared<'a>>>,
    board: Board,
    thieves: Vec<Thief>,
    workspaces: Vec<Workspace>,
    members: Vec<CrewMember<Shared<'a>>>,
) -> Crew<'a>
    requires seats { (0 < seats_of lock) × (seats_of lock ≤ 64) }
    requires passes { length passes.items ≡ seats_of lock }
    requires count { length workspaces.items ≡ seats_of lock }
    requires room { (vec_len members ≡ 0) × (seats_of lock ≤ vec_capacity members) }
    requires parts { (S : Preparation) × AllOutWith lock (S, board) passes.items × All (IsWorkspace (length S.task.pairs) S.widest board thieves.items) workspaces.items }
    ensures setup { result.setup ≡ (opened lock.entry).chase.setup }
    ensures journal { result.journal ≡ (opened lock.entry).chase.book.journal }
    ensures workers { result.workers ≡ seats_of lock.entry }
{
    let (mut passes, mut workspaces, mut members) = (passes, workspaces, members);
    members_of(
        &lock,
        &board,
        thieves.as_slice(),
        &mut passes,
        &mut workspaces,
        &mut members,
    );
    Crew {
        lock,
        board,
        thieves,
        members,
        home: passes,
    }
}

impl<'a> Crew<'a> {
    /// A crew of so many workers, 1 to 64. The first pairs are dealt to them as hints. With `NoMemory` the chase comes
    /// back as it was.
    pub fn new(
        alloc: Global,
        chase: Chase<'a>,
        workers: u32,
    ) -> Result<Crew<'a>, (Chase<'a>, NoMemory)>
        requires { (0 < workers) × (workers ≤ 64) }
        ensures setup { IfOk result (λ c. c.setup ≡ chase.entry.setup) }
        ensures journal { IfOk result (λ c. c.journal ≡ chase.entry.book.journal) }
        ensures workers { IfOk result (λ c. c.workers ≡ workers) }
        ensures err { IfErr result (λ e. e.0 ≡ chase.entry) }
    {
        let Ok(parts) = crew_parts(alloc, &chase, workers) else {
            return Err((chase, NoMemory));
        };
        let CrewParts {
            board,
            scribe,
            thieves,
            workspaces,
            members,
        } = parts;
        // For the proof alone: the journal is shorter than what a lock can count.
        let _ = chase.book();
        match TurnLock::new(alloc, Shared { chase, scribe }, workers) {
            Ok((lock, passes)) => Ok(assemble(lock, passes, board, thieves, workspaces, members)),
            Err((shared, NoMemory)) => {
                let Shared { chase, .. } = shared;
                Err((chase, NoMemory))
            }
        }
    }

    /// How many workers there are.
    pub fn workers(&self) -> u32
        ensures workers { result ≡ self.now.workers }
        ensures within { (0 < self.now.workers) × (self.now.workers ≤ 64) }
    {
        self.members.len() as u32
    }
}

/// A crew of as many workers as there is memory for: so many, 1 to 64, or half as many, and so on down to one. With
/// `NoMemory` there was not enough for one, and the chase is gone.
pub fn muster<'a>(alloc: Global, chase: Chase<'a>, workers: u32) -> Result<Crew<'a>, NoMemory>
    requires { (0 < workers) × (workers ≤ 64) }
    ensures setup { IfOk result (λ c. c.setup ≡ chase.entry.setup) }
    ensures journal { IfOk result (λ c. c.journal ≡ chase.entry.book.journal) }
    ensures workers { IfOk result (λ c. (0 < c.workers) × (c.workers ≤ workers)) }
{
    let mut chase = chase;
    let mut count = workers;
    while count > 0 {
        match Crew::new(alloc, chase, count) {
            Ok(crew) => return Ok(crew),
            Err((back, NoMemory)) => chase = back,
        }
        count /= 2;
    }
    Err(NoMemory)
}
