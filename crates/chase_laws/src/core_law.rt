//! The law of the chase's core: a function with an empty body, whose contract holds of all tasks, states and events.

ghost use Rattle.std.specs.Prelude.{List, ℕ, Bool, IsTrue, ◌≡◌, ◌↔◌, ◌<◌, ◌+◌, Some, length, slice_get};
ghost use Rattle.chase_laws.specs.declared.entry.Entry.{Entry};
ghost use Rattle.chase_laws.specs.Shape.{Shape};
ghost use Rattle.chase_laws.specs.Graph.{NumberedGraph};
ghost use Rattle.chase_laws.specs.Valuation.{IsMatch};
ghost use Rattle.chase_laws.specs.Joined.{Joined};
ghost use Rattle.chase_laws.specs.Chase.{IsStep, AreSame, IsClosed};
ghost use Rattle.chase_laws.specs.View.{same_by};
ghost use Rattle.chase_laws.specs.Core.{Task, IsTask, State, name_count, opening, ListsNear, IsPresent, EndsApart, Event, Happens, Run, IsFinished, IsSound};

/// Whatever the events are and in whatever order they come, each state that they reach is sound, and a finished one
/// has the classes of the chase. So any two finished states of one task have the same classes.
pub fn law_core()
    ensures run { (T : Task) → IsTask T → (events : List Event) (S : State) → Run T (opening T) events S → IsSound T S }
    ensures finished { (T : Task) → IsTask T → (S : State) → IsSound T S → IsFinished S →
        IsClosed T.graph T.patterns S.journal × ((a b : ℕ) → Joined S.journal a b ↔ AreSame T.graph T.patterns a b) }

    // The parts of the first clause, for whoever makes events one at a time.
    ensures opening { (T : Task) → IsSound T (opening T) }
    ensures event { (T : Task) → IsTask T → (old new : State) (event : Event) → IsSound T old → Happens T old event new → IsSound T new }

    // What a view with the labels of a state calls the same is joined there, and what a key has up to that is a step.
    ensures shown { (T : Task) → IsTask T → (S : State) → IsSound T S → (a b : ℕ) (view : List (ℕ × ℕ)) → ListsNear T a b view →
        IsPresent S view → (m n : ℕ) → IsTrue (same_by view m n) → Joined S.journal m n }
    ensures found { (G : NumberedGraph) (K : List Shape) (H : List Entry) (e : Entry) (Q : Shape) (same : ℕ → ℕ → Bool) →
        slice_get K e.key ≡ Some Q → IsMatch G Q same e.a e.b e.left e.right →
        ((m n : ℕ) → IsTrue (same m n) → Joined H m n) → IsStep G K H e }

    // While the ends of a pair are not joined, the journal has fewer entries than there are pairs, and fewer by two
    // than there are names.
    ensures room { (T : Task) → IsTask T → (S : State) → IsSound T S → (p : ℕ) → EndsApart T S p →
        (length S.journal < length T.pairs) × (length S.journal + 1 < name_count T) }
{}
