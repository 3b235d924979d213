//! Finds the pair that is handed out.

ghost use Rattle.std.specs.Prelude.{◌≡◌, ◌<◌, IfSome, MatchOption, length};
ghost use Rattle.std.specs.Option.{ForSome};
ghost use Rattle.chase_laws.specs.Core.{name_count, PairAt};
ghost use Rattle.chase_core.specs.Running.{running_with};
ghost use Rattle.chase_core.specs.Taking.{TakesFirst, TakesHint, pair_of};
ghost use Rattle.chase_core.specs.Passing.{PassesOver, PassesHint, Passes};

use crate::table::PairTable;
use crate::{Setup, Ticket};
use chase_laws::PairState;
use class_book::Book;

/// A pair by its number.
#[inline]
fn ticket_of(setup: &Setup, pair: u32) -> Ticket
    requires { pair < length setup.now.task.pairs }
    ensures pair { result.pair ≡ pair }
    ensures ends { PairAt setup.now.task pair result.a result.b }
    ensures a { result.a < name_count setup.now.task }
    ensures b { result.b < name_count setup.now.task }
{
    let pairs = setup.pairs();
    let (a, b) = pairs[pair as usize];
    Ticket { pair, a, b }
}

/// Takes the pairs at the front of the Ready list off it whose ends are joined, and answers the first whose ends are
/// not.
#[inline]
fn pass_over(setup: &Setup, book: &Book, table: &mut PairTable) -> Option<u32>
    requires labels { length book.now.labels ≡ name_count setup.now.task }
    requires states { length table.old.states ≡ length setup.now.task.pairs }
    ensures { PassesOver setup.now.task book.now table.old table.new result }
{
    while let Some(pair) = table.first() {
        let ticket = ticket_of(setup, pair);
        if !book.same(ticket.a, ticket.b) {
            return Some(pair);
        }
        table.mark(pair, PairState::Joined);
    }
    None
}

/// Answers a pair that is Ready and whose ends are not joined. Where they are joined, it takes the pair off the list.
fn pass_hint(setup: &Setup, book: &Book, table: &mut PairTable, pair: u32) -> Option<u32>
    requires labels { length book.now.labels ≡ name_count setup.now.task }
    requires states { length table.old.states ≡ length setup.now.task.pairs }
    requires pair { pair < length setup.now.task.pairs }
    ensures { PassesHint setup.now.task book.now table.old table.new pair result }
{
    if let PairState::Ready = table.state(pair) {
        let ticket = ticket_of(setup, pair);
        if book.same(ticket.a, ticket.b) {
            table.mark(pair, PairState::Joined);
            return None;
        }
        return Some(pair);
    }
    None
}

/// A pair that is Ready and whose ends are not joined: the hinted one, or without a hint the first of the Ready list. Pairs
/// whose ends are joined are taken off the list on the way.
#[inline]
fn next_pair(setup: &Setup, book: &Book, table: &mut PairTable, hint: Option<u32>) -> Option<u32>
    requires labels { length book.now.labels ≡ name_count setup.now.task }
    requires states { length table.old.states ≡ length setup.now.task.pairs }
    requires hint { ForSome hint (λ p. p < length setup.now.task.pairs) }
    ensures { Passes setup.now.task book.now table.old table.new hint result }
{
    match hint {
        None => pass_over(setup, book, table),
        Some(pair) => pass_hint(setup, book, table, pair),
    }
}

/// Takes a pair: the hinted one, or without a hint the first of the Ready list. It takes a chase's fields and not the
/// chase: the pairs that are passed over and the one that is handed out are one event, and within it what every chase
/// keeps has not been shown.
#[inline]
pub fn take_parts(
    setup: &Setup,
    book: &Book,
    table: &mut PairTable,
    hint: Option<u32>,
) -> Option<Ticket>
    requires labels { length book.now.labels ≡ name_count setup.now.task }
    requires states { length table.old.states ≡ length setup.now.task.pairs }
    requires hint { ForSome hint (λ p. p < length setup.now.task.pairs) }
    ensures takes { let old = running_with setup.now book.now table.old in let new = running_with setup.now book.now table.new in
        MatchOption hint (TakesFirst old new (pair_of result)) (λ p. TakesHint old new p (pair_of result)) }
    ensures ends { IfSome result (λ t. PairAt setup.now.task t.pair t.a t.b) }
{
    table.listed();
    let pair = next_pair(setup, book, table, hint)?;
    let ticket = ticket_of(setup, pair);
    table.mark(pair, PairState::Flying);
    Some(ticket)
}
