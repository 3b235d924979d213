//! Runs a chase to its end with a crew.

ghost use Rattle.std.specs.Prelude.{◌≡◌, ◌<◌, ◌≤◌, ◌++◌, List, All, Contains, IfOk};
ghost use Rattle.chase_laws.specs.declared.entry.Entry.{Entry};
ghost use Rattle.match_run.specs.Classes.{AreClasses, IsFinishedJournal, JoinsStepsOf, JoinsAsAll};

use chase_core::{Chase, Matched, Setup, Woken};
use chase_laws::core_law::law_core;
use chase_laws::laws::{law_confluence, law_joined, law_step_grows};
use gk_base::NoMemory;
use std::alloc::Global;
use std::sync::Wait;
use std::thread::Threads;
use steal_pool::{Crew, Gate, muster, run_crew};

/// Runs a crew, and then its chase to the end: the pairs that the workers still had are given back, and those that are
/// Ready are searched on this thread. The labels are equal exactly where two names are the same, and the journal is a
/// lean derivation that no step goes beyond, over the pairs of the setup; it begins with the crew's. Each worker passes
/// the gate before each search. Woken keeps its room. Want of memory never ends it.
pub fn chase<G: Gate, R: Threads + Wait + Sync>(
    rt: &R,
    crew: Crew<'_>,
    woken: &mut Woken,
    gate: &G,
) -> Matched
    ensures classes { AreClasses crew.entry.setup.task.graph crew.entry.setup.task.patterns result.labels.items }
    ensures journal { IsFinishedJournal crew.entry.setup.task.graph crew.entry.setup.task.patterns result.journal.items }
    ensures ends { All (λ e. Contains crew.entry.setup.task.pairs (e.a, e.b)) result.journal.items }
    ensures woken_room { woken.new.room ≡ woken.old.room }
    ensures begins { (more : List Entry) × (result.journal.items ≡ crew.entry.journal ++ more) }
{
    law_core();
    let mut running = run_crew(rt, crew, gate);
    running.recall();
    running.drain(woken);
    running.finish()
}

/// Runs a chase to its end, with a crew of as many workers as there is memory for: at most so many, 1 to 64, and no more
/// than there are pairs, but at least one. The labels are equal exactly where two names are the same, and the journal is a
/// lean derivation that no step goes beyond, over the pairs of the setup; it begins with that of the chase. Each worker
/// passes the gate before each search. Only want of memory stops it, before any search. Whatever could be identified next when
/// it began is joined when it ends.
pub fn chase_on<R: Threads + Wait + Sync, G: Gate>(
    rt: &R,
    alloc: Global,
    made: Chase<'_>,
    workers: u32,
    gate: &G,
) -> Result<Matched, NoMemory>
    requires workers { (0 < workers) × (workers ≤ 64) }
    ensures classes { IfOk result (λ m. AreClasses made.entry.setup.task.graph made.entry.setup.task.patterns m.labels.items) }
    ensures journal { IfOk result (λ m. IsFinishedJournal made.entry.setup.task.graph made.entry.setup.task.patterns m.journal.items) }
    ensures ends { IfOk result (λ m. All (λ e. Contains made.entry.setup.task.pairs (e.a, e.b)) m.journal.items) }
    ensures begins { IfOk result (λ m. (more : List Entry) × (m.journal.items ≡ made.entry.book.journal ++ more)) }
    ensures steps { IfOk result (λ m. JoinsStepsOf made.entry.setup.task.graph made.entry.setup.task.patterns made.entry.book.journal m.journal.items) }
{
    // Facts for the proof: a step stays one as the journal goes on.
    law_step_grows();
    law_joined();
    let pairs = made.setup().pairs().len() as u32;
    let mut woken = Woken::new(alloc, 0)?;
    let crew = muster(alloc, made, workers.min(pairs.max(1)))?;
    Ok(chase(rt, crew, &mut woken, gate))
}

/// Runs a new chase over a setup to its end, as `chase_on` does one that has begun. Whoever chases the same graph by the same
/// keys to its end, in whatever order and over whatever pairs, joins the same names.
pub fn chase_setup<R: Threads + Wait + Sync, G: Gate>(
    rt: &R,
    alloc: Global,
    setup: &Setup,
    workers: u32,
    gate: &G,
) -> Result<Matched, NoMemory>
    requires workers { (0 < workers) × (workers ≤ 64) }
    ensures classes { IfOk result (λ m. AreClasses setup.now.task.graph setup.now.task.patterns m.labels.items) }
    ensures journal { IfOk result (λ m. IsFinishedJournal setup.now.task.graph setup.now.task.patterns m.journal.items) }
    ensures ends { IfOk result (λ m. All (λ e. Contains setup.now.task.pairs (e.a, e.b)) m.journal.items) }
    ensures same_joined { IfOk result (λ m. JoinsAsAll setup.now.task.graph setup.now.task.patterns m.journal.items) }
{
    // A fact for the proof: the order of steps is of no account.
    law_confluence();
    let made = Chase::new(alloc, setup)?;
    chase_on(rt, alloc, made, workers, gate)
}
