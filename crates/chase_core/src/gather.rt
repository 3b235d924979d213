//! Sets the pairs aside whose ends an entry brings together, until `wake` makes them Ready.

ghost use Rattle.std.specs.Prelude.{◌≡◌, ◌<◌, ◌↔◌, ℕ, IsTrue, length, slice_index, vec_capacity};
ghost use Rattle.chase_laws.specs.Core.{name_count};
ghost use Rattle.near_lists.specs.Turning.{HasEnd};
ghost use Rattle.chase_core.specs.Gathering.{HasEnds, LooksAt, LooksFrom, LooksPast, LooksAcross, SetsAside, AreAside};

use crate::Setup;
use crate::table::PairTable;
use chase_laws::PairState;
use class_book::Book;

/// The other end of a pair.
fn other_end(setup: &Setup, pair: u32, end: u32) -> u32
    requires { HasEnd setup.now.task.pairs pair end }
    ensures ends { HasEnds setup.now.task.pairs pair end result }
    ensures only { (o : ℕ) → HasEnds setup.now.task.pairs pair end o → o ≡ result }
    ensures named { result < name_count setup.now.task }
{
    let (a, b) = setup.pairs()[pair as usize];
    if a == end { b } else { a }
}

/// Whether a name near to an end has a label.
fn looks_at(setup: &Setup, book: &Book, end: u32, label: u32) -> bool
    requires labels { length book.now.labels ≡ name_count setup.now.task }
    requires end { end < name_count setup.now.task }
    ensures { IsTrue result ↔ LooksAt setup.now book.now.labels end label }
{
    for name in setup.near().near(end) {
        if book.label(*name) == label {
            return true;
        }
    }
    false
}

/// Sets a pair of an end aside, if it is Missed and its other end looks at a label.
fn gather_pair(
    setup: &Setup,
    book: &Book,
    table: &mut PairTable,
    pair: u32,
    end: u32,
    label: u32,
    aside: &mut Vec<u32>,
)
    requires labels { length book.now.labels ≡ name_count setup.now.task }
    requires pair { HasEnd setup.now.task.pairs pair end }
    requires states { length table.old.states ≡ length setup.now.task.pairs }
    requires aside { AreAside table.old.states aside.old.items (vec_capacity aside.old) }
    ensures states { length table.new.states ≡ length setup.now.task.pairs }
    ensures aside { AreAside table.new.states aside.new.items (vec_capacity aside.new) }
    ensures sets { SetsAside (λ q. (pair ≡ q) × LooksFrom setup.now book.now.labels label q end) table.old table.new aside.old.items aside.new.items }
    ensures capacity { vec_capacity aside.new ≡ vec_capacity aside.old }
{
    if let PairState::Missed = table.state(pair) {
        let other = other_end(setup, pair, end);
        if looks_at(setup, book, other, label) {
            // Flying says here that the pair is set aside already.
            table.mark(pair, PairState::Flying);
            aside.push_reserved(pair);
        }
    }
}

/// Sets each Missed pair aside that has a name as an end, and whose other end looks at a label.
fn gather_pairs(
    setup: &Setup,
    book: &Book,
    table: &mut PairTable,
    end: u32,
    label: u32,
    aside: &mut Vec<u32>,
)
    requires labels { length book.now.labels ≡ name_count setup.now.task }
    requires end { end < name_count setup.now.task }
    requires states { length table.old.states ≡ length setup.now.task.pairs }
    requires aside { AreAside table.old.states aside.old.items (vec_capacity aside.old) }
    ensures states { length table.new.states ≡ length setup.now.task.pairs }
    ensures aside { AreAside table.new.states aside.new.items (vec_capacity aside.new) }
    ensures sets { SetsAside (λ q. LooksFrom setup.now book.now.labels label q end) table.old table.new aside.old.items aside.new.items }
    ensures capacity { vec_capacity aside.new ≡ vec_capacity aside.old }
{
    for pair in setup.pairs_of(end) {
        gather_pair(setup, book, table, *pair, end, label, aside);
    }
}

/// Sets each Missed pair aside that looks at a name from one end, and at a label from the other.
fn gather_owners(
    setup: &Setup,
    book: &Book,
    table: &mut PairTable,
    name: u32,
    label: u32,
    aside: &mut Vec<u32>,
)
    requires labels { length book.now.labels ≡ name_count setup.now.task }
    requires name { name < name_count setup.now.task }
    requires states { length table.old.states ≡ length setup.now.task.pairs }
    requires aside { AreAside table.old.states aside.old.items (vec_capacity aside.old) }
    ensures states { length table.new.states ≡ length setup.now.task.pairs }
    ensures aside { AreAside table.new.states aside.new.items (vec_capacity aside.new) }
    ensures sets { SetsAside (λ q. LooksPast setup.now book.now.labels label q name) table.old table.new aside.old.items aside.new.items }
    ensures capacity { vec_capacity aside.new ≡ vec_capacity aside.old }
{
    for end in setup.near().owners(name) {
        gather_pairs(setup, book, table, *end, label, aside);
    }
}

/// Sets each Missed pair aside that looks at the class of the one name from one end, and at that of the other name from
/// the other. It goes through the pairs that look at the first of the two classes.
fn gather_class(
    setup: &Setup,
    book: &Book,
    table: &mut PairTable,
    one: u32,
    other: u32,
    aside: &mut Vec<u32>,
)
    requires labels { length book.now.labels ≡ name_count setup.now.task }
    requires one { one < name_count setup.now.task }
    requires other { other < name_count setup.now.task }
    requires states { length table.old.states ≡ length setup.now.task.pairs }
    requires aside { AreAside table.old.states aside.old.items (vec_capacity aside.old) }
    ensures states { length table.new.states ≡ length setup.now.task.pairs }
    ensures aside { AreAside table.new.states aside.new.items (vec_capacity aside.new) }
    ensures sets { SetsAside (LooksAcross setup.now book.now.labels (slice_index book.now.labels one) (slice_index book.now.labels other))
        table.old table.new aside.old.items aside.new.items }
    ensures capacity { vec_capacity aside.new ≡ vec_capacity aside.old }
{
    setup.prepared();
    let label = book.label(other);
    let count = book.size(one);
    let mut member = Some(book.first_member(one));
    for done in 0..count {
        if let Some(name) = member {
            gather_owners(setup, book, table, name, label, aside);
            member = book.next_member(name);
        }
    }
}

/// Sets each Missed pair aside that looks at the class of the one name from one end, and at that of the other name from
/// the other. It goes through the pairs that look at the smaller class, so that over a chase it goes through those of each
/// name a logarithm of times.
pub fn gather_across(
    setup: &Setup,
    book: &Book,
    table: &mut PairTable,
    a: u32,
    b: u32,
    aside: &mut Vec<u32>,
)
    requires labels { length book.now.labels ≡ name_count setup.now.task }
    requires a { a < name_count setup.now.task }
    requires b { b < name_count setup.now.task }
    requires states { length table.old.states ≡ length setup.now.task.pairs }
    requires aside { AreAside table.old.states aside.old.items (vec_capacity aside.old) }
    ensures states { length table.new.states ≡ length setup.now.task.pairs }
    ensures aside { AreAside table.new.states aside.new.items (vec_capacity aside.new) }
    ensures sets { SetsAside (LooksAcross setup.now book.now.labels (slice_index book.now.labels a) (slice_index book.now.labels b))
        table.old table.new aside.old.items aside.new.items }
    ensures capacity { vec_capacity aside.new ≡ vec_capacity aside.old }
{
    if book.size(a) < book.size(b) {
        gather_class(setup, book, table, a, b, aside);
    } else {
        gather_class(setup, book, table, b, a, aside);
    }
}
