//! Runs of rows of leading values: the valuations at each.

ghost use Rattle.std.specs.Prelude.{◌≡◌, ◌≤◌, IfOk, OnOk, length};
ghost use Rattle.key_plan.specs.Route.{IsPlanOf};
ghost use Rattle.key_valuations.specs.Counts.{HasCounts};
ghost use Rattle.key_valuations.specs.Listing.{AreBareFrom, AddsSome, IsAt};
ghost use Rattle.key_valuations.specs.Search.{IsSearch, AreLeads, AreRowsAt};

use crate::budget::RowStop;
use crate::extend_all::{bare_from, extend_all};
use crate::find::begin;
use crate::leading::leading_marks;
use crate::parts::{Lists, counts_of};
use crate::search::KeySearch;
use chase_laws::{Pattern, Places};
use key_plan::Plan;
use std::alloc::Global;
use typed_graph::Graph;
use valuation_groups::ValuationRows;

/// Adds a row for each choice of values and images of the valuations at a name that have the given marks. From the place
/// `bare` on all slots are wildcards and constants.
fn add_at(
    graph: &Graph,
    pattern: &Pattern,
    plan: &Plan,
    marks: &[Option<u32>],
    bare: usize,
    name: u32,
    lists: &mut Lists<'_>,
    rows: &mut ValuationRows,
) -> Result<(), RowStop>
    requires plan { IsPlanOf pattern.now plan.now }
    requires marks { length plan.now.shape.slots ≤ length marks.now }
    requires bare { AreBareFrom plan.now.shape bare }
    requires counts { HasCounts pattern.now rows.old.value_count rows.old.image_count }
    ensures { OnOk result (AddsSome graph.now pattern.now (IsAt graph.now pattern.now plan.now.place marks.now name) rows.old rows.new) }
{
    // For the proof alone: the pattern is valid.
    let _ = pattern.slots();
    let mut places = Places::empty();
    if !begin(graph, plan, marks, name, &mut places) {
        return Ok(());
    }
    extend_all(graph, pattern, plan, marks, bare, &mut places, lists, rows)?;
    Ok(())
}

/// The rows of a key's valuations at the rows `from..to` of leading values: at the name of each, with its values.
pub(crate) fn rows_in_turn(
    alloc: Global,
    search: &KeySearch<'_>,
    plan: &Plan,
    leads: &ValuationRows,
    from: usize,
    to: usize,
) -> Result<ValuationRows, RowStop>
    requires search { IsSearch search.now }
    requires plan { IsPlanOf search.now.pattern.now plan.now }
    requires leads { AreLeads search.now leads.now }
    requires order { from ≤ to }
    requires within { to ≤ length leads.now.parts }
    ensures { IfOk result (AreRowsAt search.now leads.now from to) }
{
    let KeySearch {
        graph,
        pattern,
        leading,
        budget,
        ..
    } = search;
    // For the proof alone: a pattern has at most 16 slots, and rows have the counts of the key.
    let _ = pattern.slots();
    let _ = leads.len();
    let counts = counts_of(pattern);
    let bare = bare_from(plan);
    let mut rows = ValuationRows::new(alloc, search.key, counts.values, counts.images);
    let mut lists = Lists::new(alloc, budget);
    for row in from..to {
        let marks = leading_marks(pattern, plan, leading, leads.values(row));
        let name = leads.name(row);
        add_at(
            graph, pattern, plan, &marks, bare, name, &mut lists, &mut rows,
        )?;
    }
    budget.count_rest(&rows)?;
    Ok(rows)
}
