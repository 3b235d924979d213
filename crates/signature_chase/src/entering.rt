//! One identification more in a book, and those that were made before.

ghost use Rattle.std.specs.Prelude.{[], ◌∷◌, ◌++◌, ◌≡◌, ℕ, IfOk, slice_index};
ghost use Rattle.chase_laws.specs.Graph.{IsGraph};
ghost use Rattle.chase_laws.specs.Joined.{Joined};
ghost use Rattle.chase_laws.specs.Chase.{IsStep, IsDerivation, IsLean};
ghost use Rattle.class_book.specs.Classes.{IsLabelled, relabelled, going, staying};
ghost use Rattle.signature_chase.specs.Setting.{AreFacts, IsDerived};

use chase_laws::{Entry, Pattern, all_valid};
use class_book::Book;
use gk_base::NoMemory;
use std::alloc::Global;
use typed_graph::Graph;

/// Enters a step whose ends are not joined.
pub fn enter_step(graph: &Graph, patterns: &[Pattern], book: &mut Book, entry: Entry)
    requires facts { AreFacts patterns.now }
    requires derived { IsDerived graph.now patterns.now book.old }
    requires step { IsStep graph.now patterns.now book.old.journal entry }
    requires apart { ¬ (Joined book.old.journal entry.a entry.b) }
    ensures derived { IsDerived graph.now patterns.now book.new }
    ensures journal { book.new.journal ≡ book.old.journal ++ entry ∷ [] }
    ensures labels { let x = slice_index book.old.labels entry.a in let y = slice_index book.old.labels entry.b in
        book.new.labels ≡ relabelled book.old.labels (going book.old.labels x y) (staying book.old.labels x y) }
    ensures labelled { IsLabelled book.new.labels book.new.journal }
{
    // For the proof alone: the graph's names, of which the patterns' valuations are, and the ends of the journal.
    let _ = patterns;
    let _names = graph.names();
    let _journal = book.journal();
    book.enter(entry);
}

/// A book over the names of a graph in which these identifications are entered, in their order, and nothing else.
pub fn replayed(
    alloc: Global,
    graph: &Graph,
    patterns: &[Pattern],
    given: &[Entry],
) -> Result<Book, NoMemory>
    requires derivation { IsDerivation graph.now patterns.now given.now }
    requires lean { IsLean given.now }
    ensures journal { IfOk result (λ b. b.journal ≡ given.now) }
    ensures derived { IfOk result (IsDerived graph.now patterns.now) }
{
    all_valid(patterns);
    let names = graph.names();
    let mut book = Book::new(alloc, names, names)?;
    for entry in given {
        enter_step(graph, patterns, &mut book, *entry);
    }
    Ok(book)
}
