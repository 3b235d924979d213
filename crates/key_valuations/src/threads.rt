//! Rows by threads: what they are made of is cut into runs. What comes of it is the same, in the same order.

ghost use Rattle.std.specs.Prelude.{◌≡◌, ◌≤◌, IfOk, length};
ghost use Rattle.std.specs.Thread.{IsSync};
ghost use Rattle.key_plan.specs.Route.{IsPlanOf};
ghost use Rattle.key_valuations.specs.Search.{IsSearch, AreLeads, AreLeadsOf, AreRowsAt};

use crate::budget::RowStop;
use crate::leading::leading_rows;
use crate::runs::rows_in_turn;
use crate::search::KeySearch;
use key_plan::Plan;
use std::alloc::Global;
use std::thread::{Threads, join};
use valuation_groups::ValuationRows;

/// A run that is cut in two has so many rows or names at least: for fewer a thread costs more than it saves.
const MANY: usize = 4096;

/// The rows of leading values at some names. With two threads or more many names are cut in two halves, and the threads are
/// shared out among them.
#[cycle(leads)]
pub(crate) fn leads_in_threads<R: Threads + Sync>(
    rt: &R,
    alloc: Global,
    threads: u32,
    search: &KeySearch<'_>,
    names: &[u32],
) -> Result<ValuationRows, RowStop>
    requires { IsSearch search.now }
    ensures { IfOk result (AreLeadsOf search.now names.now) }
{
    if threads < 2 || names.len() < MANY {
        return leading_rows(alloc, search, names);
    }
    let (front, back) = names.split_at(names.len() / 2);
    let theirs = threads / 2;
    let ours = threads - theirs;
    let lower = move || -> Result<ValuationRows, RowStop>
        requires { IsSync R.row × IsSearch search.now }
        ensures { IfOk result (AreLeadsOf search.entry.now front.entry.now) }
    { leads_in_threads(rt, alloc, theirs, search, front) };
    let upper = move || -> Result<ValuationRows, RowStop>
        requires { IsSync R.row × IsSearch search.now }
        ensures { IfOk result (AreLeadsOf search.entry.now back.entry.now) }
    { leads_in_threads(rt, alloc, ours, search, back) };
    let (low, high) = join(rt, lower, upper);
    let mut leads = low?;
    leads.append(high?)?;
    Ok(leads)
}

/// The rows of a key's valuations at the rows `from..to` of leading values, by threads in the same way.
#[cycle(rows)]
pub(crate) fn rows_in_threads<R: Threads + Sync>(
    rt: &R,
    alloc: Global,
    threads: u32,
    search: &KeySearch<'_>,
    plan: &Plan,
    leads: &ValuationRows,
    from: usize,
    to: usize,
) -> Result<ValuationRows, RowStop>
    requires search { IsSearch search.now }
    requires plan { IsPlanOf search.now.pattern.now plan.now }
    requires leads { AreLeads search.now leads.now }
    requires order { from ≤ to }
    requires within { to ≤ length leads.now.parts }
    ensures { IfOk result (AreRowsAt search.now leads.now from to) }
{
    if threads < 2 || to - from < MANY {
        return rows_in_turn(alloc, search, plan, leads, from, to);
    }
    let middle = from + (to - from) / 2;
    let theirs = threads / 2;
    let ours = threads - theirs;
    let lower = move || -> Result<ValuationRows, RowStop>
        requires { IsSync R.row × IsSearch search.now × IsPlanOf search.now.pattern.now plan.now × AreLeads search.now leads.now × (from ≤ middle) × (middle ≤ length leads.now.parts) }
        ensures { IfOk result (AreRowsAt search.entry.now leads.entry.now from middle) }
    { rows_in_threads(rt, alloc, theirs, search, plan, leads, from, middle) };
    let upper = move || -> Result<ValuationRows, RowStop>
        requires { IsSync R.row × IsSearch search.now × IsPlanOf search.now.pattern.now plan.now × AreLeads search.now leads.now × (middle ≤ to) × (to ≤ length leads.now.parts) }
        ensures { IfOk result (AreRowsAt search.entry.now leads.entry.now middle to) }
    { rows_in_threads(rt, alloc, ours, search, plan, leads, middle, to) };
    let (low, high) = join(rt, lower, upper);
    let mut rows = low?;
    rows.append(high?)?;
    Ok(rows)
}
