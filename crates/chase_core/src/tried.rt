//! Searches for a pair that was handed out.

ghost use Rattle.std.specs.Prelude.{◌≡◌, IfSome, IfNone, Some, length, slice_get};
ghost use Rattle.chase_laws.specs.Shape.{Shape};
ghost use Rattle.chase_laws.specs.Valuation.{IsMatch, Matches};
ghost use Rattle.chase_laws.specs.Core.{name_count};
ghost use Rattle.chase_core.specs.Settling.{IsFoundBy};
ghost use Rattle.chase_core.specs.Present.{same_by_labels};

use crate::present::PresentLabels;
use crate::{Outcome, Setup, Ticket};
use class_book::Book;
use paired_search::{Finding, Sameness, View, search_within};

/// Searches for a pair by what is the same, among the keys that may identify it.
fn search_for<S: Sameness>(setup: &Setup, ticket: &Ticket, view: &S) -> Option<Finding>
    ensures found { IfSome result (λ f. (Q : Shape) × (slice_get setup.now.task.patterns f.key ≡ Some Q)
        × IsMatch setup.now.task.graph Q (S.are_same view.now) ticket.now.a ticket.now.b f.left f.right) }
    ensures none { IfNone result (¬ (Matches setup.now.task.graph setup.now.task.patterns (S.are_same view.now) ticket.now.a ticket.now.b)) }
{
    let keys = setup.keys_for(ticket);
    search_within(
        setup.graph(),
        setup.patterns(),
        setup.plans(),
        keys,
        ticket.a,
        ticket.b,
        view,
    )
}

/// Searches for a pair by a view of what is near to its ends.
pub fn outcome_of(setup: &Setup, ticket: &Ticket, view: &View) -> Outcome
    ensures { IsFoundBy setup.now.task ticket.now view.now.pairs result }
{
    match search_for(setup, ticket, view) {
        Some(finding) => Outcome::Found(finding),
        None => Outcome::Missed,
    }
}

/// Searches for a pair by the present labels.
pub fn find_present(setup: &Setup, book: &Book, ticket: Ticket) -> Option<Finding>
    requires labels { length book.now.labels ≡ name_count setup.now.task }
    ensures found { IfSome result (λ f. (Q : Shape) × (slice_get setup.now.task.patterns f.key ≡ Some Q)
        × IsMatch setup.now.task.graph Q (same_by_labels book.now.labels) ticket.a ticket.b f.left f.right) }
    ensures none { IfNone result (¬ (Matches setup.now.task.graph setup.now.task.patterns (same_by_labels book.now.labels) ticket.a ticket.b)) }
{
    let labels = PresentLabels::new(book, setup.graph().names());
    search_for(setup, &ticket, &labels)
}
