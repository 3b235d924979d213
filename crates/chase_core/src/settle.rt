//! Settles a pair that was searched: enters what was found, and keeps that nothing was found while that is still known. It
//! takes a chase's fields and not the chase: the pair's mark, the entry and the pairs that it wakes are one event, and within
//! it what every chase keeps does not hold.

ghost use Rattle.std.specs.Prelude.{◌≡◌, ◌≤◌, List, ℕ, IfSome, IfNone, Some, length, slice_get, slice_index, vec_capacity};
ghost use Rattle.chase_laws.specs.Joined.{Joined};
ghost use Rattle.chase_laws.specs.Chase.{IsStep};
ghost use Rattle.chase_laws.specs.Core.{IsSound, name_count, PairAt, ListsNear, IsPresent};
ghost use Rattle.paired_search.specs.Held.{Ascends};
ghost use Rattle.chase_core.specs.declared.ticket.Outcome.TheVariants.{Found, Missed};
ghost use Rattle.chase_core.specs.Running.{state_of, running_with, journal_room};
ghost use Rattle.chase_core.specs.Settling.{entry_of, IsRightOutcome, IsFirstOvertaken, Settles, Notes};
ghost use Rattle.chase_core.specs.Present.{SettlesPresent};

use crate::gather::gather_across;
use crate::table::PairTable;
use crate::tried::find_present;
use crate::wake::wake_each;
use crate::{Settled, Setup, Ticket, Woken};
use chase_laws::core_law::law_core;
use chase_laws::{Entry, PairState};
use class_book::Book;
use paired_search::{Finding, View};

/// The first name of a pair's view whose label is not the present one, with the label in the view and the present one.
fn overtaken(setup: &Setup, book: &Book, ticket: Ticket, view: &View) -> Option<(u32, u32, u32)>
    requires labels { length book.now.labels ≡ name_count setup.now.task }
    requires view { ListsNear setup.now.task ticket.a ticket.b view.now.pairs }
    ensures found { IfSome result (λ r. IsFirstOvertaken book.now.labels view.now.pairs r.0 r.1 r.2) }
    ensures none { IfNone result ((k n l : ℕ) → slice_get view.now.pairs k ≡ Some (n, l) → l ≡ slice_index book.now.labels n) }
    ensures ascends { Ascends view.now.pairs }
{
    setup.prepared();
    // The ticket only says in the contract whose view it is.
    let _ = ticket;
    for place in 0..view.len() {
        let (node, seen) = view.at(place);
        let now = book.label(node);
        if seen != now {
            return Some((node, seen, now));
        }
    }
    None
}

/// Settles a pair for which something was found: where its ends are not joined, it enters that, and makes the Missed pairs
/// Ready whose ends it brings together.
pub fn settle_found(
    setup: &Setup,
    book: &mut Book,
    table: &mut PairTable,
    aside: &mut Vec<u32>,
    ticket: Ticket,
    finding: Finding,
    woken: &mut Woken,
) -> Settled
    requires sound { IsSound setup.now.task (state_of book.old table.old) }
    requires ends { PairAt setup.now.task ticket.pair ticket.a ticket.b }
    requires step { IsStep setup.now.task.graph setup.now.task.patterns book.old.journal (entry_of ticket finding) }
    requires room { book.old.room ≡ journal_room setup.now.task }
    requires aside { length setup.now.task.pairs ≤ vec_capacity aside.old }
    ensures settles { (view : List (ℕ × ℕ)) → Settles (running_with setup.now book.old table.old) ticket view (Found finding) result (running_with setup.now book.new table.new) }
    ensures woken { Notes (running_with setup.now book.old table.old) ticket.pair result (running_with setup.now book.new table.new) woken.old.room woken.new.list }
    ensures room { book.new.room ≡ book.old.room }
    ensures aside { vec_capacity aside.new ≡ vec_capacity aside.old }
    ensures woken_room { woken.new.room ≡ woken.old.room }
{
    law_core();
    setup.prepared();
    woken.clear();
    table.mark(ticket.pair, PairState::Joined);
    if book.same(ticket.a, ticket.b) {
        return Settled::Already;
    }
    // Before the entry labels tell its two classes. Two passes: the pairs are gathered as their ends look at these, and
    // made Ready afterwards, for they come in the names' order and have to wait in their own. A pair that is set aside is
    // no longer Missed, so it is gathered once however many of the names it looks at.
    aside.clear();
    gather_across(setup, book, table, ticket.a, ticket.b, aside);
    let place = book.enter(Entry {
        a: ticket.a,
        b: ticket.b,
        key: finding.key,
        left: finding.left,
        right: finding.right,
    });
    aside.sort_unstable();
    wake_each(table, aside, woken);
    Settled::Entered(place)
}

/// Settles a pair that was searched and not found: its view is compared with the present labels.
pub fn settle_compared(
    setup: &Setup,
    book: &Book,
    table: &mut PairTable,
    ticket: Ticket,
    view: &View,
    woken: &mut Woken,
) -> Settled
    requires sound { IsSound setup.now.task (state_of book.now table.old) }
    requires ends { PairAt setup.now.task ticket.pair ticket.a ticket.b }
    requires view { ListsNear setup.now.task ticket.a ticket.b view.now.pairs }
    requires outcome { IsRightOutcome setup.now.task (state_of book.now table.old) ticket view.now.pairs Missed }
    ensures settles { Settles (running_with setup.now book.now table.old) ticket view.now.pairs Missed result (running_with setup.now book.now table.new) }
    ensures woken { Notes (running_with setup.now book.now table.old) ticket.pair result (running_with setup.now book.now table.new) woken.old.room woken.new.list }
    ensures woken_room { woken.new.room ≡ woken.old.room }
{
    setup.prepared();
    woken.clear();
    if book.same(ticket.a, ticket.b) {
        table.mark(ticket.pair, PairState::Joined);
        return Settled::Already;
    }
    match overtaken(setup, book, ticket, view) {
        Some((node, seen, now)) => {
            table.make_ready(ticket.pair);
            Settled::Reopened { node, seen, now }
        }
        None => {
            table.mark(ticket.pair, PairState::Missed);
            Settled::Missed
        }
    }
}

/// Settles a pair of which a search found nothing, where the view has the present labels: nothing is compared. The chase
/// lends its table alone for the pair's mark.
#[inline]
pub fn settle_missed(
    setup: &Setup,
    book: &Book,
    table: &mut PairTable,
    ticket: Ticket,
    view: &View,
    woken: &mut Woken,
) -> Settled
    requires sound { IsSound setup.now.task (state_of book.now table.old) }
    requires ends { PairAt setup.now.task ticket.pair ticket.a ticket.b }
    requires view { ListsNear setup.now.task ticket.a ticket.b view.now.pairs }
    requires outcome { IsRightOutcome setup.now.task (state_of book.now table.old) ticket view.now.pairs Missed }
    requires present { IsPresent (state_of book.now table.old) view.now.pairs }
    ensures settles { Settles (running_with setup.now book.now table.old) ticket view.now.pairs Missed result (running_with setup.now book.now table.new) }
    ensures woken { Notes (running_with setup.now book.now table.old) ticket.pair result (running_with setup.now book.now table.new) woken.old.room woken.new.list }
    ensures woken_room { woken.new.room ≡ woken.old.room }
{
    setup.prepared();
    // The view only says in the contract what was searched.
    let _ = view;
    woken.clear();
    if !book.same(ticket.a, ticket.b) {
        table.mark(ticket.pair, PairState::Missed);
        return Settled::Missed;
    }
    table.mark(ticket.pair, PairState::Joined);
    Settled::Already
}

/// Searches for a pair whose ends are not joined by the present labels, and settles it. Nothing is compared: between the
/// search and what it leads to nothing can be entered.
pub fn settle_present(
    setup: &Setup,
    book: &mut Book,
    table: &mut PairTable,
    aside: &mut Vec<u32>,
    ticket: Ticket,
    woken: &mut Woken,
) -> Settled
    requires sound { IsSound setup.now.task (state_of book.old table.old) }
    requires ends { PairAt setup.now.task ticket.pair ticket.a ticket.b }
    requires apart { ¬ (Joined book.old.journal ticket.a ticket.b) }
    requires room { book.old.room ≡ journal_room setup.now.task }
    requires aside { length setup.now.task.pairs ≤ vec_capacity aside.old }
    ensures settles { SettlesPresent (running_with setup.now book.old table.old) ticket result (running_with setup.now book.new table.new) }
    ensures woken { Notes (running_with setup.now book.old table.old) ticket.pair result (running_with setup.now book.new table.new) woken.old.room woken.new.list }
    ensures room { book.new.room ≡ book.old.room }
    ensures aside { vec_capacity aside.new ≡ vec_capacity aside.old }
    ensures woken_room { woken.new.room ≡ woken.old.room }
{
    law_core();
    setup.prepared();
    match find_present(setup, book, ticket) {
        Some(finding) => settle_found(setup, book, table, aside, ticket, finding, woken),
        None => {
            woken.clear();
            table.mark(ticket.pair, PairState::Missed);
            Settled::Missed
        }
    }
}
