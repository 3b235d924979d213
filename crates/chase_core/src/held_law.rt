//! The law of pairs that are handed out: a function with an empty body, whose contract holds of all of them.

ghost use Rattle.std.specs.Prelude.{List, ℕ, ◌++◌};
ghost use Rattle.chase_laws.specs.declared.entry.Entry.{Entry};
ghost use Rattle.chase_laws.specs.Core.{Task, State};
ghost use Rattle.chase_core.specs.declared.ticket.Ticket.{Ticket};
ghost use Rattle.chase_core.specs.declared.ticket.Outcome.{Outcome};
ghost use Rattle.chase_core.specs.Holding.{IsHeld};
ghost use Rattle.chase_core.specs.Settling.{IsFoundBy, IsRightOutcome};

/// However many others are settled meanwhile, what a search by a ticket's view comes to may be settled. It does nothing:
/// its contract is for proofs.
pub fn law_held()
    ensures stays { (T : Task) (seen more : List Entry) (t : Ticket) (view : List (ℕ × ℕ)) → IsHeld T seen t view → IsHeld T (seen ++ more) t view }
    ensures right { (T : Task) (S : State) (t : Ticket) (view : List (ℕ × ℕ)) (found : Outcome) → IsHeld T S.journal t view →
        IsFoundBy T t view found → IsRightOutcome T S t view found }
{}
