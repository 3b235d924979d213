//! The chase with the scribe of its board, as a value with a journal.

ghost use Rattle.std.specs.Prelude.{◌≡◌, ◌++◌, ◌<◌, ◌^◌, ℕ, List, All, IfSome, IsTrue, MatchOption, length};
ghost use Rattle.chase_laws.specs.declared.entry.Entry.{Entry};
ghost use Rattle.chase_laws.specs.Joined.{Joined};
ghost use Rattle.chase_laws.specs.View.{same_by};
ghost use Rattle.chase_laws.specs.Core.{Happens, ListsNear, PairAt, State};
ghost use Rattle.chase_laws.specs.Core.Event.{Enter};
ghost use Rattle.chase_core.specs.declared.ticket.Outcome.TheVariants.{Found, Missed};
ghost use Rattle.chase_core.specs.Running.{IsRunning, state_in};
ghost use Rattle.chase_core.specs.Settling.{IsFoundBy, Settles};
ghost use Rattle.chase_core.specs.Taking.{TakesFirst, TakesHint, pair_of};
ghost use Rattle.label_board.specs.Seen.{AllShown};
ghost use Rattle.steal_pool.specs.Bases.{IsSince, base_with, board_over};

use chase_core::held_law::law_held;
use chase_core::{Chase, Outcome, Settled, Setup, Ticket, Woken};
use chase_laws::Entry;
use label_board::{Board, Scribe, Watcher, law_fresh, law_met};
use paired_search::{Finding, View};
use turn_lock::Journaled;

/// A chase that workers share, and the scribe that posts its entries. Its base is the setup and the scribe's board, and its
/// entries are the journal, which only grows. What was posted is the journal, and the board shows the labels of the book.
#[derive(Drop)]
pub struct Shared<'a> {
    pub chase: Chase<'a>,
    pub(crate) scribe: Scribe,
    ghost posted: { scribe.posted ≡ chase.book.journal },
    ghost shown: { scribe.shown ≡ chase.book.labels },
}

impl<'a> Journaled for Shared<'a> {
    type Base = (Setup, Board);

    type Item = Entry;

    ghost base = { λ s. base_with s.chase.setup s.scribe.board };

    ghost entries = { λ s. s.chase.book.journal };

    fn count(&self) -> u64 {
        self.chase.book().journal().len() as u64
    }
}

/// Posts the last entry of a chase whose other entries were posted, and whose labels before it are shown.
fn post_last(board: &Board, scribe: &mut Scribe, chase: &Chase<'_>)
    requires board { board_over chase.now.setup scribe.old.board ≡ board.now }
    requires entered { (old : State) × (p : ℕ) × (e : Entry) × Happens chase.now.setup.task old (Enter p e) (state_in chase.now)
        × (scribe.old.posted ≡ old.journal) × (scribe.old.shown ≡ old.labels) }
    ensures board { scribe.new.board ≡ scribe.old.board }
    ensures posted { scribe.new.posted ≡ chase.now.book.journal }
    ensures shown { scribe.new.shown ≡ chase.now.book.labels }
{
    board.post(scribe, chase.book());
}

/// The watcher of a view meets the scribe: what is the same by the view is joined by the entries that were posted, and where
/// these are those of the watcher's last take, the view has the labels that are shown.
#[inline]
fn meet_scribe(board: &Board, watcher: &mut Watcher, scribe: &mut Scribe)
    requires watcher { watcher.old.board ≡ board.now.id }
    requires scribe { scribe.old.board ≡ board.now.id }
    ensures watcher { watcher.new ≡ watcher.old }
    ensures scribe { scribe.new ≡ scribe.old }
    ensures joined { (m n : ℕ) → IsTrue (same_by watcher.old.read m n) → Joined scribe.old.posted m n }
    ensures fresh { watcher.old.since ≡ scribe.old.posted → AllShown scribe.old.shown watcher.old.read }
{
    law_met();
    board.meet(watcher, scribe);
}

impl<'a> Shared<'a> {
    /// Says for proofs what holds of every shared chase. It does nothing.
    pub(crate) fn holds(&self)
        ensures running { IsRunning self.now.chase }
        ensures few { length self.now.chase.setup.task.pairs < 2 ^ 32 }
        ensures short { length self.now.chase.book.journal < 2 ^ 32 }
    {
        let _ = self.chase.book();
        let _ = self.chase.setup().pairs();
    }

    /// Hands a pair out, as `Chase::take_unseen` does. The watcher stands even with the scribe.
    pub(crate) fn take(
        &mut self,
        board: &Board,
        hint: Option<u32>,
        watcher: &mut Watcher,
    ) -> Option<Ticket>
        requires board { board_over self.old.chase.setup self.old.scribe.board ≡ board.now }
        requires watcher { watcher.old.board ≡ board.now.id }
        requires hint { IfSome hint (λ p. p < length self.old.chase.setup.task.pairs) }
        ensures takes { MatchOption hint (TakesFirst self.old.chase self.new.chase (pair_of result)) (λ p. TakesHint self.old.chase self.new.chase p (pair_of result)) }
        ensures ends { IfSome result (λ t. PairAt self.old.chase.setup.task t.pair t.a t.b) }
        ensures watcher { (watcher.new.board ≡ watcher.old.board) × (watcher.new.since ≡ self.old.chase.book.journal) }
        ensures setup { self.new.chase.setup ≡ self.old.chase.setup }
        ensures book { self.new.chase.book ≡ self.old.chase.book }
        ensures scribe { self.new.scribe ≡ self.old.scribe }
    {
        board.renew(&mut self.scribe, watcher);
        self.chase.take_unseen(hint)
    }

    /// Settles a pair that was taken, of which a search found something with a view that the watcher filled. The watcher meets
    /// the scribe first, so that what is the same by the view is joined by the journal. An entry is posted.
    pub(crate) fn settle_found(
        &mut self,
        board: &Board,
        watcher: &mut Watcher,
        ticket: Ticket,
        view: &View,
        finding: &Finding,
        woken: &mut Woken,
    ) -> Settled
        requires board { board_over self.old.chase.setup self.old.scribe.board ≡ board.now }
        requires watcher { (watcher.old.board ≡ board.now.id) × (watcher.old.read ≡ view.now.pairs) }
        requires ends { PairAt self.old.chase.setup.task ticket.pair ticket.a ticket.b }
        requires near { ListsNear self.old.chase.setup.task ticket.a ticket.b view.now.pairs }
        requires found { IsFoundBy self.old.chase.setup.task ticket view.now.pairs (Found finding.now) }
        ensures settles { Settles self.old.chase ticket view.now.pairs (Found finding.now) result self.new.chase }
        ensures watcher { watcher.new ≡ watcher.old }
        ensures setup { self.new.chase.setup ≡ self.old.chase.setup }
        ensures board { self.new.scribe.board ≡ self.old.scribe.board }
        ensures grows { (more : List Entry) × (self.new.chase.book.journal ≡ self.old.chase.book.journal ++ more) }
        ensures woken { All (λ p. p < length self.old.chase.setup.task.pairs) woken.new.list }
    {
        law_held();
        self.holds();
        meet_scribe(board, watcher, &mut self.scribe);
        let outcome = Outcome::Found(*finding);
        let settled = self.chase.settle(ticket, view, outcome, woken);
        if let Settled::Entered(_) = settled {
            post_last(board, &mut self.scribe, &self.chase);
        }
        settled
    }

    /// Settles a pair that was taken, of which a search found nothing with a view that the watcher filled since there were so
    /// many entries. Where there are no more entries, the watcher meets the scribe: the view has the present labels, and nothing is
    /// compared. Nothing is entered, so nothing is posted, and no finding is passed on: this is what becomes of nearly all pairs.
    #[inline]
    pub(crate) fn settle_missed(
        &mut self,
        board: &Board,
        watcher: &mut Watcher,
        since: usize,
        ticket: Ticket,
        view: &View,
        woken: &mut Woken,
    ) -> Settled
        requires board { board_over self.old.chase.setup self.old.scribe.board ≡ board.now }
        requires watcher { (watcher.old.board ≡ board.now.id) × (watcher.old.read ≡ view.now.pairs) }
        requires since { IsSince self.old.chase.book.journal watcher.old.since since }
        requires ends { PairAt self.old.chase.setup.task ticket.pair ticket.a ticket.b }
        requires near { ListsNear self.old.chase.setup.task ticket.a ticket.b view.now.pairs }
        requires found { IsFoundBy self.old.chase.setup.task ticket view.now.pairs Missed }
        ensures settles { Settles self.old.chase ticket view.now.pairs Missed result self.new.chase }
        ensures watcher { watcher.new ≡ watcher.old }
        ensures setup { self.new.chase.setup ≡ self.old.chase.setup }
        ensures board { self.new.scribe.board ≡ self.old.scribe.board }
        ensures book { self.new.chase.book ≡ self.old.chase.book }
        ensures woken { All (λ p. p < length self.old.chase.setup.task.pairs) woken.new.list }
    {
        law_fresh();
        self.holds();
        let is_fresh = self.chase.book().journal().len() == since;
        if is_fresh {
            meet_scribe(board, watcher, &mut self.scribe);
            return self.chase.settle_missed(ticket, view, woken);
        }
        self.chase.settle(ticket, view, Outcome::Missed, woken)
    }
}
