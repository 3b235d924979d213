//! Shows what is near to the ends of a pair with the present labels.

ghost use Rattle.std.specs.Prelude.{◌≡◌, ◌<◌, ◌≤◌, ◌+◌, ℕ, All, Some, length, min, slice_index};
ghost use Rattle.std.specs.List.Sorted.{IsStrictlyIncreasing};
ghost use Rattle.chase_laws.specs.View.{label_in};
ghost use Rattle.chase_laws.specs.Core.{name_count, PairAt, ListsNear};
ghost use Rattle.paired_search.specs.Both.{NamesBoth};

use crate::{Setup, Ticket};
use class_book::Book;
use paired_search::{View, least_from, past};

/// Shows the names of two ascending lists with their present labels, ascending and each once.
fn show_both(book: &Book, first: &[u32], second: &[u32], view: &mut View)
    requires first { IsStrictlyIncreasing first.now }
    requires second { IsStrictlyIncreasing second.now }
    requires first_named { All (λ n. n < length book.now.labels) first.now }
    requires second_named { All (λ n. n < length book.now.labels) second.now }
    requires room { min (length first.now + length second.now) (length book.now.labels) ≤ view.old.room }
    ensures listed { NamesBoth first.now second.now view.new.pairs }
    ensures present { (n l : ℕ) → label_in view.new.pairs n ≡ Some l → l ≡ slice_index book.now.labels n }
    ensures room { view.new.room ≡ view.old.room }
{
    view.clear();
    let mut i = 0;
    let mut j = 0;
    while i < first.len() || j < second.len() {
        let name = least_from(first, i, second, j);
        view.push(name, book.label(name));
        i = past(first, i, name);
        j = past(second, j, name);
    }
}

/// Shows what is near to the ends of a pair.
pub fn show_near(setup: &Setup, book: &Book, ticket: Ticket, view: &mut View)
    requires labels { length book.now.labels ≡ name_count setup.now.task }
    requires ends { PairAt setup.now.task ticket.pair ticket.a ticket.b }
    requires room { setup.now.widest ≤ view.old.room }
    ensures near { ListsNear setup.now.task ticket.a ticket.b view.new.pairs }
    ensures present { (n l : ℕ) → label_in view.new.pairs n ≡ Some l → l ≡ slice_index book.now.labels n }
    ensures room { view.new.room ≡ view.old.room }
{
    setup.prepared();
    let near = setup.near();
    show_both(book, near.near(ticket.a), near.near(ticket.b), view);
}
