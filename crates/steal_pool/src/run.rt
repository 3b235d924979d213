//! The run of a crew.

ghost use Rattle.std.specs.Prelude.{◌≡◌, ◌++◌, List};
ghost use Rattle.chase_laws.specs.declared.entry.Entry.{Entry};

use crate::alone::work_alone;
use crate::crew::Crew;
use crate::crew_member::CrewMember;
use crate::gate::Gate;
use crate::shared::Shared;
use crate::signs::Signs;
use crate::threads::work_all;
use crate::workspace::Workspace;
use chase_core::Chase;
use std::sync::Wait;
use std::thread::Threads;

/// The one workspace, or the other.
fn chosen(other: Option<Workspace>, workspace: Workspace, is_chosen: bool) -> Option<Workspace> {
    if is_chosen { Some(workspace) } else { other }
}

/// Lets all workers run to their end, each in a thread of its own, or one worker on the thread that calls, and answers the
/// chase: over the same setup, with a journal that has gone on from what it was. A worker passes the gate before each
/// search, and holds no turn then. How much of the chase the workers do, and in what order, is not part of the contract.
/// Want of memory never ends it: a hint that there is no room for is let go.
pub fn run_crew<'a, G: Gate, R: Threads + Wait + Sync>(
    rt: &R,
    crew: Crew<'a>,
    gate: &G,
) -> Chase<'a>
    ensures setup { result.setup ≡ crew.entry.setup }
    ensures grows { (more : List Entry) × (result.book.journal ≡ crew.entry.journal ++ more) }
{
    let Crew {
        lock,
        board,
        thieves,
        mut members,
        mut home,
    } = crew;
    let alone = members.len() == 1;
    let signs = Signs::new();
    work_all(
        rt,
        &lock,
        &board,
        thieves.as_slice(),
        gate,
        &signs,
        members.as_mut_slice(),
    );
    let mut last = None;
    while let Some(member) = members.pop() {
        let CrewMember { pass, workspace } = member;
        home.push_reserved(pass);
        let is_last = alone || signs.lone() == u64::from(workspace.number) + 1;
        last = chosen(last, workspace, is_last);
    }
    let Shared { chase, .. } = lock.close(home);
    match last {
        Some(workspace) => work_alone(rt, chase, workspace, alone, gate),
        None => chase,
    }
}
