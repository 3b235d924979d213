//! `Setting`: what a chase works on, and does not change.

ghost use Rattle.std.specs.Prelude.{◌≡◌, ◌<◌, List, ℕ, IfOk, drop, length, slice_index};
ghost use Rattle.chase_laws.specs.Joined.{Joined};
ghost use Rattle.chase_laws.specs.Chase.{IsStep};
ghost use Rattle.chase_laws.specs.Signature.{ListsShared};
ghost use Rattle.key_plan.specs.Route.{IsPlanOf};
ghost use Rattle.key_valuations.specs.Parts.{HasParts};
ghost use Rattle.valuation_groups.specs.Groups.{group_at, row_in, listed_of};
ghost use Rattle.signature_chase.specs.Setting.{IsWork, IsGroupOf, IsEntryOf, IsDerived};
ghost use Rattle.signature_chase.specs.Advance.{Advances};

use crate::entering::enter_step;
use crate::owners::Owners;
use crate::owning::owners_of;
use crate::queue::Queue;
use crate::waking::wake;
use chase_laws::{Entry, Pattern, Places, all_valid};
use class_book::Book;
use gk_base::NoMemory;
use key_plan::Plan;
use key_valuations::find_valuation;
use paired_search::plan_all;
use std::alloc::Global;
use std::marker::Model;
use typed_graph::Graph;
use valuation_groups::{Group, ValuationGroups};

/// A graph, keys with their plans, groups of their valuations, and for each name the groups that have it among their images.
#[derive(Drop)]
pub struct Setting<'a> {
    graph: &'a Graph,
    patterns: &'a [Pattern],
    plans: Vec<Plan>,
    groups: &'a ValuationGroups,
    owners: Owners,
}

impl<'a> Model for Setting<'a> {
    ghost use Rattle.signature_chase.specs.Setting.{Work, IsWork};

    ghost Value = { Work };

    ghost view = { λ s. record { graph = s.graph.now; patterns = s.patterns.now; plans = s.plans.items; groups = s.groups.now; owners = s.owners } };

    ghost invariant = { λ s. IsWork (record { graph = s.graph.now; patterns = s.patterns.now; plans = s.plans.items; groups = s.groups.now; owners = s.owners }) };
}

/// A valuation that has the parts of a group's row.
fn valuation_of(
    graph: &Graph,
    pattern: &Pattern,
    plan: &Plan,
    group: &Group<'_>,
    row: usize,
) -> Places
    requires plan { IsPlanOf pattern.now plan.now }
    requires row { row < length group.now.rows }
    requires some { (v : List ℕ) × HasParts graph.now pattern.now (slice_index (row_in group.now row) 0) group.now.values (drop 1 (row_in group.now row)) v }
    ensures { HasParts graph.now pattern.now (slice_index (row_in group.now row) 0) group.now.values (drop 1 (row_in group.now row)) result }
{
    let name = group.name(row);
    match find_valuation(
        graph,
        pattern,
        plan,
        name,
        group.values(),
        group.images_of(row),
    ) {
        Some(places) => places,
        None => unreachable!(),
    }
}

impl<'a> Setting<'a> {
    /// Makes the plans and the owners. The groups have to be those of the graph and the patterns.
    pub fn new(
        alloc: Global,
        graph: &'a Graph,
        patterns: &'a [Pattern],
        groups: &'a ValuationGroups,
    ) -> Result<Setting<'a>, NoMemory>
        requires { ListsShared graph.now patterns.now (listed_of groups.now) }
        ensures graph { IfOk result (λ s. s.graph ≡ graph.now) }
        ensures patterns { IfOk result (λ s. s.patterns ≡ patterns.now) }
        ensures groups { IfOk result (λ s. s.groups ≡ groups.now) }
    {
        all_valid(patterns);
        let names = graph.names();
        let plans = plan_all(alloc, patterns)?;
        let owners = owners_of(alloc, groups, names)?;
        Ok(Setting {
            graph,
            patterns,
            plans,
            groups,
            owners,
        })
    }

    /// Says for proofs what each setting keeps. It does nothing.
    pub fn holds(&self)
        ensures { IsWork self.now }
    {
        let _ = &self.plans;
    }

    /// The group at a place.
    pub fn group(&self, place: u32) -> Group<'a>
        requires { place < length self.now.groups }
        ensures { result ≡ group_at self.now.groups place }
    {
        self.groups.group(place as usize)
    }

    /// The entry of two rows of a group.
    pub fn entry_of(&self, group: &Group<'_>, left: usize, right: usize) -> Entry
        requires group { IsGroupOf self.now.graph self.now.patterns group.now }
        requires left { left < length group.now.rows }
        requires right { right < length group.now.rows }
        ensures { IsEntryOf self.now.graph self.now.patterns group.now left right result }
    {
        let key = group.key();
        let pattern = &self.patterns[key as usize];
        let plan = &self.plans[key as usize];
        Entry {
            a: group.name(left),
            b: group.name(right),
            key,
            left: valuation_of(self.graph, pattern, plan, group, left),
            right: valuation_of(self.graph, pattern, plan, group, right),
        }
    }

    /// Enters a step whose ends are not joined, and lets all groups wait that have a name among their images which gets
    /// another label.
    pub fn enter(&self, book: &mut Book, queue: &mut Queue, entry: Entry)
        requires derived { IsDerived self.now.graph self.now.patterns book.old }
        requires step { IsStep self.now.graph self.now.patterns book.old.journal entry }
        requires apart { ¬ (Joined book.old.journal entry.a entry.b) }
        requires count { queue.old.count ≡ length self.now.groups }
        ensures derived { IsDerived self.now.graph self.now.patterns book.new }
        ensures advances { Advances self.now.groups book.old book.new queue.old.list queue.new.list }
        ensures joined { slice_index book.new.labels entry.a ≡ slice_index book.new.labels entry.b }
        ensures count { queue.new.count ≡ queue.old.count }
    {
        wake(book, &self.owners, queue, entry.a, entry.b);
        enter_step(self.graph, self.patterns, book, entry);
    }
}
