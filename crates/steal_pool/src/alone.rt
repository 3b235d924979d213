//! What a worker does that has a chase for itself.

ghost use Rattle.std.specs.Prelude.{◌≡◌, ◌<◌, ◌++◌, [], ℕ, List, All, IsTrue, length};
ghost use Rattle.chase_laws.specs.declared.entry.Entry.{Entry};
ghost use Rattle.chase_laws.specs.Core.{PairAt};
ghost use Rattle.chase_laws.specs.Joined.{Joined};
ghost use Rattle.chase_core.specs.Present.{SettlesPresent};

use crate::deques::DEALT;
use crate::gate::Gate;
use crate::hunt::keep_woken;
use crate::workspace::Workspace;
use chase_core::{Chase, Settled, Ticket, Woken};
use std::sync::Wait;

/// The first pairs as hints, in ascending order. What there is no memory for is let go.
fn deal_alone(hints: &mut Vec<u32>, count: u32)
    ensures { All (λ p. p < count) hints.new.items }
{
    hints.clear();
    for pair in 0..count.min(DEALT) {
        let _ = hints.push(pair);
    }
}

/// The hints that a worker begins with: those that it has, or where it begins anew the first pairs.
fn first_hints(hints: &mut Vec<u32>, count: u32, is_new: bool)
    ensures { All (λ p. p < count) hints.new.items }
{
    let are_pairs = hints.iter().all(|pair| *pair < count);
    if is_new || !are_pairs {
        deal_alone(hints, count);
    }
}

/// Searches by the present labels for a pair that was taken just now, and settles it.
fn settle_at_once(chase: &mut Chase<'_>, ticket: Ticket, woken: &mut Woken) -> Settled
    requires ends { PairAt chase.old.setup.task ticket.pair ticket.a ticket.b }
    requires apart { ¬ (Joined chase.old.book.journal ticket.a ticket.b) }
    ensures settles { SettlesPresent chase.old ticket result chase.new }
    ensures setup { chase.new.setup ≡ chase.old.setup }
    ensures grows { (more : List Entry) × (chase.new.book.journal ≡ chase.old.book.journal ++ more) }
    ensures woken { All (λ p. p < length chase.old.setup.task.pairs) woken.new.list }
{
    // What holds of every chase.
    let _ = chase.book();
    chase.settle_at_once(ticket, woken)
}

/// Takes the pair that was hinted last, or without a hint the first that is Ready, passes the gate, searches by the
/// present labels and settles. It answers whether it had a hint or a pair.
fn search_next<G: Gate>(
    chase: &mut Chase<'_>,
    hints: &mut Vec<u32>,
    woken: &mut Woken,
    count: u32,
    gate: &G,
) -> bool
    requires hints { All (λ p. p < count) hints.old.items }
    requires count { length chase.old.setup.task.pairs ≡ count }
    ensures setup { chase.new.setup ≡ chase.old.setup }
    ensures grows { (more : List Entry) × (chase.new.book.journal ≡ chase.old.book.journal ++ more) }
    ensures hints { All (λ p. p < count) hints.new.items }
    ensures ends { ¬ (IsTrue result) → chase.new.table.ready ≡ [] }
{
    let hint = hints.pop();
    match chase.take_unseen(hint) {
        Some(ticket) => {
            gate.pass(0, ticket.pair);
            settle_at_once(chase, ticket, woken);
            keep_woken(hints, woken.list(), count);
            true
        }
        None => hint.is_some(),
    }
}

/// Searches until no pair is Ready, without the lock and without views: nothing is entered by another. Woken pairs are
/// hints, as they are for workers who share. One that is new to the chase begins with the first pairs, and another with the
/// hints that it has.
pub fn work_alone<'a, G: Gate, R: Wait>(
    rt: &R,
    chase: Chase<'a>,
    workspace: Workspace,
    is_new: bool,
    gate: &G,
) -> Chase<'a>
    ensures setup { result.setup ≡ chase.entry.setup }
    ensures grows { (more : List Entry) × (result.book.journal ≡ chase.entry.book.journal ++ more) }
    ensures ends { result.table.ready ≡ [] }
{
    let mut workspace = workspace;
    let mut chase = chase;
    let count = chase.setup().pairs().len() as u32;
    first_hints(&mut workspace.pending, count, is_new);
    for _ in rt.forever() {
        if !search_next(
            &mut chase,
            &mut workspace.pending,
            &mut workspace.woken,
            count,
            gate,
        ) {
            return chase;
        }
    }
    unreachable!()
}
