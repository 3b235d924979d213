//! `Chase`: which names are the same so far, where each pair stands, and the calls that go on from there.

ghost use Rattle.std.specs.Prelude.{◌≡◌, ◌≢◌, ◌<◌, ◌≤◌, ◌++◌, ◌↔◌, List, ℕ, IfOk, IfSome, IfNone, OnSome, MatchOption, Some, length, slice_get};
ghost use Rattle.std.specs.Option.{ForSome};
ghost use Rattle.std.specs.List.{range_with_len};
ghost use Rattle.chase_laws.specs.declared.entry.Entry.{Entry};
ghost use Rattle.chase_laws.specs.declared.pair_state.PairState.TheVariants as state;
ghost use Rattle.chase_laws.specs.Joined.{Joined};
ghost use Rattle.chase_laws.specs.Core.{PairAt, ListsNear, IsPresent, Event, Happens, Run, IsFinished, opening};
ghost use Rattle.chase_laws.specs.Core.Event.{Recall};
ghost use Rattle.chase_core.specs.declared.ticket.Outcome.TheVariants.{Missed};
ghost use Rattle.chase_core.specs.declared.ticket.Settled.TheVariants.{Already, Reopened};
ghost use Rattle.chase_core.specs.Running.{state_in, IsRunning};
ghost use Rattle.chase_core.specs.Taking.{TakesFirst, TakesHint, pair_of};
ghost use Rattle.chase_core.specs.Holding.{IsHeld};
ghost use Rattle.chase_core.specs.Settling.{IsRightOutcome, RiseInOrder, Settles, Notes};
ghost use Rattle.chase_core.specs.Present.{SettlesPresent};

use crate::recall::recall_parts;
use crate::settle::{settle_compared, settle_found, settle_missed, settle_present};
use crate::show::show_near;
use crate::table::PairTable;
use crate::take::take_parts;
use crate::{Matched, Outcome, Settled, Setup, Ticket, Woken};
use chase_laws::PairState;
use chase_laws::core_law::law_core;
use class_book::Book;
use gk_base::NoMemory;
use paired_search::View;
use std::alloc::Global;
use std::marker::Model;

/// A chase over a setup: which names are the same so far, and where each pair stands. Whoever searches takes a pair
/// with a view, searches without the chase, and settles the pair; each call is one event. Contracts see the setup, the
/// book of classes with the journal, and the pairs' states with the Ready list. Only `new` takes memory.
#[derive(Drop)]
pub struct Chase<'a> {
    setup: &'a Setup,
    book: Book,
    table: PairTable,
    /// Room in which `settle` gathers the pairs that an entry wakes.
    aside: Vec<u32>,
}

impl<'a> Model for Chase<'a> {
    ghost use Rattle.std.specs.Prelude.{vec_capacity};
    ghost use Rattle.chase_core.specs.Running.{Running, running_with};
    ghost use Rattle.chase_core.specs.Inner.{IsKept};

    ghost Value = { Running };

    ghost view = { λ c. running_with c.setup.now c.book c.table };

    ghost invariant = { λ c. IsKept (running_with c.setup.now c.book c.table) (vec_capacity c.aside) };
}

impl<'a> Chase<'a> {
    /// A chase in which nothing is identified and every pair is Ready, in ascending order.
    pub fn new(alloc: Global, setup: &'a Setup) -> Result<Chase<'a>, NoMemory>
        ensures setup { IfOk result (λ c. c.setup ≡ setup.now) }
        ensures opening { IfOk result (λ c. state_in c ≡ opening setup.now.task) }
        ensures ready { IfOk result (λ c. c.table.ready ≡ range_with_len 0 (length setup.now.task.pairs)) }
    {
        law_core();
        setup.prepared();
        let names = setup.graph().names();
        let count = setup.pairs().len() as u32;
        let room = count.min(names.saturating_sub(1));
        let book = Book::new(alloc, names, room)?;
        let table = PairTable::new(alloc, count)?;
        let aside = Vec::with_capacity(alloc, count as usize)?;
        Ok(Chase {
            setup,
            book,
            table,
            aside,
        })
    }

    /// What it works on.
    pub fn setup(&self) -> &'a Setup
        ensures { result.now ≡ self.now.setup }
    {
        self.setup
    }

    /// Where a pair stands.
    pub fn state(&self, pair: u32) -> PairState
        requires { pair < length self.now.setup.task.pairs }
        ensures state { slice_get self.now.table.states pair ≡ Some result }
        ensures running { IsRunning self.now }
    {
        self.table.state(pair)
    }

    /// How many pairs are Ready.
    pub fn ready_count(&self) -> usize
        ensures { result ≡ length self.now.table.ready }
    {
        self.table.ready_count()
    }

    /// Which names are the same so far, and the identifications in order.
    pub fn book(&self) -> &Book
        ensures book { result.now ≡ self.now.book }
        ensures running { IsRunning self.now }
    {
        self.table.listed();
        &self.book
    }

    /// Hands a pair out to be searched: the hinted one, or without a hint the first of the Ready list. A Ready pair whose
    /// ends are joined already becomes Joined and is passed over. The view gets the present labels of what is near to
    /// the pair's ends; it has to have room for the setup's widest view, and stays as it was where no pair is handed out.
    pub fn take(&mut self, hint: Option<u32>, view: &mut View) -> Option<Ticket>
        requires hint { ForSome hint (λ p. p < length self.old.setup.task.pairs) }
        requires room { self.old.setup.widest ≤ view.old.room }
        ensures takes { MatchOption hint (TakesFirst self.old self.new (pair_of result)) (λ p. TakesHint self.old self.new p (pair_of result)) }
        ensures ends { IfSome result (λ t. PairAt self.old.setup.task t.pair t.a t.b) }
        ensures near { IfSome result (λ t. ListsNear self.old.setup.task t.a t.b view.new.pairs) }
        ensures present { OnSome result (IsPresent (state_in self.new) view.new.pairs) }
        ensures held { IfSome result (λ t. IsHeld self.old.setup.task self.new.book.journal t view.new.pairs) }
        ensures none { IfNone result (view.new ≡ view.old) }
        ensures room { view.new.room ≡ view.old.room }
        ensures setup { self.new.setup ≡ self.old.setup }
        ensures book { self.new.book ≡ self.old.book }
    {
        law_core();
        let ticket = self.take_unseen(hint)?;
        show_near(self.setup, &self.book, ticket, view);
        Some(ticket)
    }

    /// Settles a pair by what a search with its view came to. What was found has to be a step from the present journal,
    /// and is never refused; that nothing was found is kept only where no label of the view has changed since.
    pub fn settle(
        &mut self,
        ticket: Ticket,
        view: &View,
        outcome: Outcome,
        woken: &mut Woken,
    ) -> Settled
        requires ends { PairAt self.old.setup.task ticket.pair ticket.a ticket.b }
        requires view { ListsNear self.old.setup.task ticket.a ticket.b view.now.pairs }
        requires outcome { IsRightOutcome self.old.setup.task (state_in self.old) ticket view.now.pairs outcome }
        ensures settles { Settles self.old ticket view.now.pairs outcome result self.new }
        ensures already { (result ≡ Already) ↔ Joined self.old.book.journal ticket.a ticket.b }
        ensures woken { Notes self.old ticket.pair result self.new woken.old.room woken.new.list }
        ensures woken_room { woken.new.room ≡ woken.old.room }
        ensures setup { self.new.setup ≡ self.old.setup }
        ensures grows { (more : List Entry) × (self.new.book.journal ≡ self.old.book.journal ++ more) }
    {
        law_core();
        match outcome {
            Outcome::Missed => {
                settle_compared(self.setup, &self.book, &mut self.table, ticket, view, woken)
            }
            Outcome::Found(finding) => settle_found(
                self.setup,
                &mut self.book,
                &mut self.table,
                &mut self.aside,
                ticket,
                finding,
                woken,
            ),
        }
    }

    /// Settles a pair of which a search found nothing, by one who knows that the view has the present labels: nothing is
    /// compared.
    #[inline]
    pub fn settle_missed(&mut self, ticket: Ticket, view: &View, woken: &mut Woken) -> Settled
        requires ends { PairAt self.old.setup.task ticket.pair ticket.a ticket.b }
        requires view { ListsNear self.old.setup.task ticket.a ticket.b view.now.pairs }
        requires outcome { IsRightOutcome self.old.setup.task (state_in self.old) ticket view.now.pairs Missed }
        requires present { IsPresent (state_in self.old) view.now.pairs }
        ensures settles { Settles self.old ticket view.now.pairs Missed result self.new }
        ensures already { (result ≡ Already) ↔ Joined self.old.book.journal ticket.a ticket.b }
        ensures woken { Notes self.old ticket.pair result self.new woken.old.room woken.new.list }
        ensures woken_room { woken.new.room ≡ woken.old.room }
        ensures setup { self.new.setup ≡ self.old.setup }
        ensures grows { (more : List Entry) × (self.new.book.journal ≡ self.old.book.journal ++ more) }
        ensures never_again { (node seen now : ℕ) → result ≢ Reopened node seen now }
    {
        law_core();
        settle_missed(self.setup, &self.book, &mut self.table, ticket, view, woken)
    }

    /// Gives all pairs back that are handed out: each Flying pair becomes Ready, in ascending order at the end of the
    /// list.
    pub fn recall(&mut self)
        ensures event { Happens self.old.setup.task (state_in self.old) Recall (state_in self.new) }
        ensures rise { (list : List ℕ) × RiseInOrder state.Flying self.old.table.states self.old.table.ready self.new.table list }
        ensures landed { (p : ℕ) → slice_get self.new.table.states p ≢ Some state.Flying }
        ensures setup { self.new.setup ≡ self.old.setup }
        ensures book { self.new.book ≡ self.old.book }
    {
        law_core();
        recall_parts(self.setup, &mut self.table);
    }

    /// Searches and settles pairs until no pair is Ready. No pair may be Flying. Afterwards every pair is Missed or Joined,
    /// and the journal begins with what it was. Each pair is searched by the present labels: no one else enters anything
    /// meanwhile, so there is no view to show and none to compare.
    pub fn drain(&mut self, woken: &mut Woken)
        requires landed { (p : ℕ) → slice_get self.old.table.states p ≢ Some state.Flying }
        ensures finished { IsFinished (state_in self.new) }
        ensures run { (events : List Event) × Run self.old.setup.task (state_in self.old) events (state_in self.new) }
        ensures grows { (more : List Entry) × (self.new.book.journal ≡ self.old.book.journal ++ more) }
        ensures setup { self.new.setup ≡ self.old.setup }
        ensures woken_room { woken.new.room ≡ woken.old.room }
    {
        law_core();
        // What holds of every chase.
        let _ = self.book();
        while let Some(ticket) = self.take_unseen(None) {
            self.settle_at_once(ticket, woken);
            let _ = self.book();
        }
        let _ = self.book();
    }

    /// Hands out the pair that `take` does, and shows nothing: for one who has the chase alone, and searches by the present
    /// labels.
    #[inline]
    pub fn take_unseen(&mut self, hint: Option<u32>) -> Option<Ticket>
        requires hint { ForSome hint (λ p. p < length self.old.setup.task.pairs) }
        ensures takes { MatchOption hint (TakesFirst self.old self.new (pair_of result)) (λ p. TakesHint self.old self.new p (pair_of result)) }
        ensures ends { IfSome result (λ t. PairAt self.old.setup.task t.pair t.a t.b) }
        ensures apart { IfSome result (λ t. ¬ (Joined self.new.book.journal t.a t.b)) }
        ensures setup { self.new.setup ≡ self.old.setup }
        ensures book { self.new.book ≡ self.old.book }
    {
        law_core();
        take_parts(self.setup, &self.book, &mut self.table, hint)
    }

    /// Searches for a pair whose ends are not joined by the present labels, and settles it.
    pub fn settle_at_once(&mut self, ticket: Ticket, woken: &mut Woken) -> Settled
        requires ends { PairAt self.old.setup.task ticket.pair ticket.a ticket.b }
        requires apart { ¬ (Joined self.old.book.journal ticket.a ticket.b) }
        ensures settles { SettlesPresent self.old ticket result self.new }
        ensures woken { Notes self.old ticket.pair result self.new woken.old.room woken.new.list }
        ensures woken_room { woken.new.room ≡ woken.old.room }
        ensures setup { self.new.setup ≡ self.old.setup }
        ensures grows { (more : List Entry) × (self.new.book.journal ≡ self.old.book.journal ++ more) }
    {
        law_core();
        settle_present(
            self.setup,
            &mut self.book,
            &mut self.table,
            &mut self.aside,
            ticket,
            woken,
        )
    }

    /// The labels and the journal. It takes no memory.
    pub fn finish(self) -> Matched
        ensures labels { result.labels.items ≡ self.entry.book.labels }
        ensures journal { result.journal.items ≡ self.entry.book.journal }
        ensures running { IsRunning self.entry }
    {
        let Chase { book, table, .. } = self;
        table.listed();
        let (labels, journal) = book.into_parts();
        Matched { labels, journal }
    }
}
