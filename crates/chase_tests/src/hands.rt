//! Pairs in hand, and steps with them.

ghost use Rattle.std.specs.Prelude.{◌≡◌, ◌<◌, ◌++◌, List, IfOk, IsTrue, None, length};
ghost use Rattle.std.specs.Option.{ForSome};
ghost use Rattle.chase_laws.specs.declared.entry.Entry.{Entry};
ghost use Rattle.chase_core.specs.Holding.{IsHeld};

use chase_core::held_law::law_held;
use chase_core::{Chase, PairState, Settled, Setup, Ticket, Woken, outcome_of};
use gk_base::NoMemory;
use paired_search::View;
use std::alloc::Global;
use std::process::Abort;

/// A pair that was taken, if there is one, with the view that came with it.
#[derive(Drop)]
pub(crate) struct Hand {
    pub(crate) ticket: Option<Ticket>,
    pub(crate) view: View,
}

impl Hand {
    /// Nothing in hand, and a view with room for any pair of the setup.
    pub(crate) fn new(alloc: Global, setup: &Setup) -> Result<Hand, NoMemory>
        ensures none { IfOk result (λ h. h.ticket ≡ None) }
        ensures room { IfOk result (λ h. h.view.room ≡ setup.now.widest) }
    {
        Ok(Hand {
            ticket: None,
            view: View::new(alloc, setup.widest())?,
        })
    }
}

/// Takes a pair into a hand, and answers its number.
fn take_into(chase: &mut Chase, hand: &mut Hand, hint: Option<u32>) -> Option<u32>
    requires hint { ForSome hint (λ p. p < length chase.old.setup.task.pairs) }
    requires room { hand.old.view.room ≡ chase.old.setup.widest }
    requires held { ForSome hand.old.ticket (λ t. IsHeld chase.old.setup.task chase.old.book.journal t hand.old.view.pairs) }
    ensures setup { chase.new.setup ≡ chase.old.setup }
    ensures journal { chase.new.book.journal ≡ chase.old.book.journal }
    ensures room { hand.new.view.room ≡ hand.old.view.room }
    ensures held { ForSome hand.new.ticket (λ t. IsHeld chase.old.setup.task chase.old.book.journal t hand.new.view.pairs) }
{
    let ticket = chase.take(hint, &mut hand.view)?;
    hand.ticket = Some(ticket);
    Some(ticket.pair)
}

/// Searches for the pair of a hand by its view, and settles it.
fn settle_from(chase: &mut Chase, hand: &Hand, woken: &mut Woken) -> Option<Settled>
    requires held { ForSome hand.now.ticket (λ t. IsHeld chase.old.setup.task chase.old.book.journal t hand.now.view.pairs) }
    ensures setup { chase.new.setup ≡ chase.old.setup }
    ensures grows { (more : List Entry) × (chase.new.book.journal ≡ chase.old.book.journal ++ more) }
{
    law_held();
    let ticket = hand.ticket?;
    let outcome = outcome_of(chase.setup(), &ticket, &hand.view);
    Some(chase.settle(ticket, &hand.view, outcome, woken))
}

/// One thing done with a chase and a hand, and what has to come of it.
#[derive(Clone, Copy)]
pub(crate) enum Step {
    /// Takes a pair by this hint, and names the pair that comes. Where none comes, the hand keeps what it had.
    Take(Option<u32>, Option<u32>),
    /// Settles the pair in hand, and names the answer and the first two pairs that are woken.
    Settle(Settled, Option<u32>, Option<u32>),
    /// Calls all pairs back.
    Recall,
    /// Names where a pair stands.
    Stands(u32, PairState),
}

/// The first two numbers of a list.
fn first_two(list: &[u32]) -> [Option<u32>; 2] {
    [list.first().copied(), list.get(1).copied()]
}

/// Whether a number is that of a pair.
fn is_pair(chase: &Chase, pair: u32) -> bool
    ensures { IsTrue result → pair < length chase.now.setup.task.pairs }
{
    (pair as usize) < chase.setup().pairs().len()
}

/// Does one thing, and tells whether the right thing came of it.
fn does(chase: &mut Chase, hand: &mut Hand, woken: &mut Woken, step: Step) -> bool
    requires room { hand.old.view.room ≡ chase.old.setup.widest }
    requires held { ForSome hand.old.ticket (λ t. IsHeld chase.old.setup.task chase.old.book.journal t hand.old.view.pairs) }
    ensures setup { chase.new.setup ≡ chase.old.setup }
    ensures grows { (more : List Entry) × (chase.new.book.journal ≡ chase.old.book.journal ++ more) }
    ensures room { hand.new.view.room ≡ hand.old.view.room }
    ensures held { ForSome hand.new.ticket (λ t. IsHeld chase.old.setup.task chase.old.book.journal t hand.new.view.pairs) }
{
    match step {
        Step::Take(None, wanted) => take_into(chase, hand, None) == wanted,
        Step::Take(Some(pair), wanted) => {
            is_pair(chase, pair) && take_into(chase, hand, Some(pair)) == wanted
        }
        Step::Settle(wanted, first, second) => {
            settle_from(chase, hand, woken) == Some(wanted)
                && first_two(woken.list()) == [first, second]
        }
        Step::Recall => {
            chase.recall();
            true
        }
        Step::Stands(pair, wanted) => is_pair(chase, pair) && chase.state(pair) == wanted,
    }
}

/// Does one thing after another with a chase and two hands, of which the flag tells the first.
pub(crate) fn play(
    rt: &impl Abort,
    chase: &mut Chase,
    left: &mut Hand,
    right: &mut Hand,
    woken: &mut Woken,
    steps: &[(bool, Step)],
)
    requires left_room { left.old.view.room ≡ chase.old.setup.widest }
    requires right_room { right.old.view.room ≡ chase.old.setup.widest }
    requires left_held { ForSome left.old.ticket (λ t. IsHeld chase.old.setup.task chase.old.book.journal t left.old.view.pairs) }
    requires right_held { ForSome right.old.ticket (λ t. IsHeld chase.old.setup.task chase.old.book.journal t right.old.view.pairs) }
    ensures setup { chase.new.setup ≡ chase.old.setup }
    ensures room { left.new.view.room ≡ left.old.view.room }
{
    law_held();
    for (place, (is_left, what)) in steps.iter().enumerate() {
        let is_right = if *is_left {
            does(chase, left, woken, *what)
        } else {
            does(chase, right, woken, *what)
        };
        assert!(rt; is_right, "step {place}");
    }
}
