//! Enters a journal again, in a chase in which nothing is identified yet.

ghost use Rattle.std.specs.Prelude.{◌≡◌, ◌≢◌, ◌<◌, ◌≤◌, ◌++◌, ◌∷◌, [], ℕ, All, Contains, Some, length, slice_get};
ghost use Rattle.chase_laws.specs.declared.pair_state.PairState.TheVariants as state;
ghost use Rattle.chase_laws.specs.Joined.{Joined};
ghost use Rattle.chase_laws.specs.Chase.{IsStep, IsDerivation, IsLean};
ghost use Rattle.chase_laws.specs.Core.{PairAt};
ghost use Rattle.grow_match.specs.Replaying.{AreUnsearched};

use chase_core::{Chase, Outcome, Setup, Woken};
use chase_laws::Entry;
use paired_search::{Finding, View};

/// The number of a pair.
fn number_of(setup: &Setup, a: u32, b: u32) -> u32
    requires { Contains setup.now.task.pairs (a, b) }
    ensures pair { PairAt setup.now.task result a b }
    ensures within { result < length setup.now.task.pairs }
{
    setup.pairs().binary_search(&(a, b)).unwrap() as u32
}

/// Enters an identification of a pair that was not searched: it takes the pair, and settles it by what the entry says was
/// found.
fn enter_again(chase: &mut Chase<'_>, entry: Entry, view: &mut View, woken: &mut Woken)
    requires pair { Contains chase.old.setup.task.pairs (entry.a, entry.b) }
    requires apart { ¬ (Joined chase.old.book.journal entry.a entry.b) }
    requires step { IsStep chase.old.setup.task.graph chase.old.setup.task.patterns chase.old.book.journal entry }
    requires states { AreUnsearched chase.old.table.states }
    requires room { chase.old.setup.widest ≤ view.old.room }
    ensures journal { chase.new.book.journal ≡ chase.old.book.journal ++ entry ∷ [] }
    ensures states { AreUnsearched chase.new.table.states }
    ensures setup { chase.new.setup ≡ chase.old.setup }
    ensures view_room { view.new.room ≡ view.old.room }
    ensures woken_room { woken.new.room ≡ woken.old.room }
{
    // For the proof alone: every chase is sound.
    let _ = chase.book();
    let pair = number_of(chase.setup(), entry.a, entry.b);
    let ticket = chase.take(Some(pair), view).unwrap();
    let outcome = Outcome::Found(Finding {
        key: entry.key,
        left: entry.left,
        right: entry.right,
    });
    chase.settle(ticket, view, outcome, woken);
}

/// Enters a journal again, entry by entry and with no search, in a new chase, where nothing is identified and every pair is
/// Ready. The journal has to be a lean derivation over the chase's graph and keys between ends of its pairs; over which
/// graph it was made is of no account. The view has to have room for the setup's widest; what it and `woken` hold
/// afterwards has no meaning. Every pair that no entry is of stays to be searched. It takes no memory.
pub fn replay(chase: &mut Chase<'_>, journal: &[Entry], view: &mut View, woken: &mut Woken)
    requires empty { chase.old.book.journal ≡ [] }
    requires ready { All (λ s. s ≡ state.Ready) chase.old.table.states }
    requires derivation { IsDerivation chase.old.setup.task.graph chase.old.setup.task.patterns journal.now }
    requires lean { IsLean journal.now }
    requires ends { All (λ e. Contains chase.old.setup.task.pairs (e.a, e.b)) journal.now }
    requires room { chase.old.setup.widest ≤ view.old.room }
    ensures journal { chase.new.book.journal ≡ journal.now }
    ensures states { AreUnsearched chase.new.table.states }
    ensures landed { (p : ℕ) → slice_get chase.new.table.states p ≢ Some state.Flying }
    ensures setup { chase.new.setup ≡ chase.old.setup }
    ensures view_room { view.new.room ≡ view.old.room }
    ensures woken_room { woken.new.room ≡ woken.old.room }
{
    for entry in journal {
        enter_again(chase, *entry, view, woken);
    }
}
