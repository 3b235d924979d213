//! The whole chase.

ghost use Rattle.std.specs.Prelude.{◌++◌, ◌≡◌, ◌<◌, ◌↔◌, List, ℕ, Contains, IfOk, OnOk, length, slice_index};
ghost use Rattle.chase_laws.specs.declared.entry.Entry.{Entry};
ghost use Rattle.chase_laws.specs.Chase.{IsDerivation, IsLean, IsClosed, AreSame};
ghost use Rattle.chase_laws.specs.Signature.{ListsShared};
ghost use Rattle.valuation_groups.specs.Groups.{group_at, listed_of, AreApart};
ghost use Rattle.signature_chase.specs.Settled.{IsSettled};
ghost use Rattle.signature_chase.specs.Setting.{IsDerived};

use crate::entering::replayed;
use crate::queue::Queue;
use crate::setting::Setting;
use crate::settling::settle_group;
use chase_laws::laws::{law_listed, law_signature};
use chase_laws::{Entry, Pattern, all_valid};
use class_book::Book;
use gk_base::NoMemory;
use std::alloc::Global;
use typed_graph::Graph;
use valuation_groups::ValuationGroups;

/// What a chase comes to.
#[derive(Drop)]
pub struct Chased {
    /// A label for each name, equal exactly where two names are the same.
    pub labels: Vec<u32>,
    /// The identifications in order.
    pub journal: Vec<Entry>,
}

/// Looks at groups until none waits.
fn settle_all(
    setting: &Setting<'_>,
    book: &mut Book,
    queue: &mut Queue,
    leaders: &mut Vec<u32>,
    keyed: &mut Vec<(u32, u32, u32)>,
) -> Result<(), NoMemory>
    requires derived { IsDerived setting.now.graph setting.now.patterns book.old }
    requires waiting { (g : ℕ) → g < length setting.now.groups → Contains queue.old.list g }
    requires count { queue.old.count ≡ length setting.now.groups }
    ensures derived { OnOk result (IsDerived setting.now.graph setting.now.patterns book.new) }
    ensures begins { OnOk result ((more : List Entry) × (book.new.journal ≡ book.old.journal ++ more)) }
    ensures settled { OnOk result ((g : ℕ) → g < length setting.now.groups → IsSettled book.new.labels (group_at setting.now.groups g)) }
{
    setting.holds();
    'groups: while let Some(place) = queue.pop() {
        settle_group(setting, place, book, queue, leaders, keyed)?;
        // For the proof alone: no more groups wait than there are, and the ends of the journal are names.
        queue.listed();
        let _journal = book.journal();
    }
    Ok(())
}

/// The book of the whole chase: the entries that are given, and then what is found.
fn settled_book(
    alloc: Global,
    graph: &Graph,
    patterns: &[Pattern],
    groups: &ValuationGroups,
    given: &[Entry],
) -> Result<Book, NoMemory>
    requires listed { ListsShared graph.now patterns.now (listed_of groups.now) }
    requires derivation { IsDerivation graph.now patterns.now given.now }
    requires lean { IsLean given.now }
    ensures derived { IfOk result (IsDerived graph.now patterns.now) }
    ensures begins { IfOk result (λ b. (more : List Entry) × (b.journal ≡ given.now ++ more)) }
    ensures settled { IfOk result (λ b. (g : ℕ) → g < length groups.now → IsSettled b.labels (group_at groups.now g)) }
{
    let mut book = replayed(alloc, graph, patterns, given)?;
    let setting = Setting::new(alloc, graph, patterns, groups)?;
    let mut queue = Queue::full(alloc, groups.len() as u32)?;
    let mut leaders = Vec::new(alloc);
    let mut keyed = Vec::new(alloc);
    settle_all(&setting, &mut book, &mut queue, &mut leaders, &mut keyed)?;
    Ok(book)
}

/// Chases a graph by the groups of its keys' valuations. The groups have the parts of all valuations that share their values
/// with one at another name, those of equal values of a key in one group. `given` was identified before: it is entered first,
/// and the journal begins with it. The labels are equal exactly where two names are the same, and the journal is a lean
/// derivation beyond which no step goes. The groups are taken in one order each time, so the journal is the same each time.
/// Fails only for want of memory.
pub fn chase_by_signatures(
    alloc: Global,
    graph: &Graph,
    patterns: &[Pattern],
    groups: &ValuationGroups,
    given: &[Entry],
) -> Result<Chased, NoMemory>
    requires listed { ListsShared graph.now patterns.now (listed_of groups.now) }
    requires apart { AreApart groups.now }
    requires derivation { IsDerivation graph.now patterns.now given.now }
    requires lean { IsLean given.now }
    ensures begins { IfOk result (λ c. (more : List Entry) × (c.journal.items ≡ given.now ++ more)) }
    ensures derivation { IfOk result (λ c. IsDerivation graph.now patterns.now c.journal.items) }
    ensures lean { IfOk result (λ c. IsLean c.journal.items) }
    ensures closed { IfOk result (λ c. IsClosed graph.now patterns.now c.journal.items) }
    ensures count { IfOk result (λ c. length c.labels.items ≡ length graph.now.literal) }
    ensures same { IfOk result (λ c. (a b : ℕ) → a < length c.labels.items → b < length c.labels.items →
        (slice_index c.labels.items a ≡ slice_index c.labels.items b) ↔ AreSame graph.now patterns.now a b) }
{
    // For the proof alone: what holds of valid patterns and of each graph.
    law_listed();
    law_signature();
    all_valid(patterns);
    let _names = graph.names();
    let book = settled_book(alloc, graph, patterns, groups, given)?;
    let (labels, journal) = book.into_parts();
    Ok(Chased { labels, journal })
}
