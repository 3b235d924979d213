//! The valuations of all keys whose values another name has, too.

ghost use Rattle.std.specs.Prelude.{Contains, IfOk, IfSome};
ghost use Rattle.chase_laws.specs.Signature.{SignatureParts, ListsShared};
ghost use Rattle.key_plan.specs.Route.{IsPlanOf};
ghost use Rattle.valuation_groups.specs.Rows.{StandOnce};
ghost use Rattle.valuation_groups.specs.Groups.{listed_of, AreApart};
ghost use Rattle.key_valuations.specs.Listing.{AreRowsOf, AreSharedRowsOf};
ghost use Rattle.key_valuations.specs.Parts.{IsSharedIn};

use crate::budget::{Budget, RowStop, TooManyRows};
use crate::leading::leading_of;
use crate::search::KeySearch;
use crate::threads::{leads_in_threads, rows_in_threads};
use chase_laws::Pattern;
use gk_base::{NoMemory, Stop};
use key_plan::Plan;
use std::alloc::Global;
use std::thread::Threads;
use typed_graph::Graph;
use valuation_groups::{ValuationGroups, ValuationRows, keep_shared};

/// Rows of a key's valuations: of all at different names that have the same values, and of some others. Only names are asked whose
/// leading values another name has.
fn rows_of_key<R: Threads + Sync>(
    rt: &R,
    alloc: Global,
    threads: u32,
    graph: &Graph,
    pattern: &Pattern,
    plan: &Plan,
    key: u32,
    budget: &Budget,
) -> Result<ValuationRows, RowStop>
    requires { IsPlanOf pattern.now plan.now }
    ensures { IfOk result (λ rows. AreRowsOf graph.now pattern.now key rows) }
{
    let slots = leading_of(alloc, pattern)?;
    let leading = slots.as_slice();
    let search = KeySearch {
        graph,
        pattern,
        key,
        leading,
        budget,
    };
    let names = graph.with_type(pattern.designated_type());
    let leads = leads_in_threads(rt, alloc, threads, &search, names)?;
    let shared = keep_shared(rt, alloc, threads, leads)?;
    let count = shared.len();
    let rows = rows_in_threads(rt, alloc, threads, &search, plan, &shared, 0, count)?;
    Ok(rows)
}

/// The rows of a key's valuations whose values another name has, too, in order and each once.
fn shared_rows_of_key<R: Threads + Sync>(
    rt: &R,
    alloc: Global,
    threads: u32,
    graph: &Graph,
    pattern: &Pattern,
    key: u32,
    budget: &Budget,
) -> Result<ValuationRows, RowStop>
    ensures { IfOk result (λ rows. AreSharedRowsOf graph.now pattern.now key rows) }
{
    let plan = Plan::new(alloc, pattern)?;
    let rows = rows_of_key(rt, alloc, threads, graph, pattern, &plan, key, budget)?;
    let kept = keep_shared(rt, alloc, threads, rows)?;
    Ok(kept)
}

/// The groups of all keys, where no more rows are made than may be.
fn list_within<R: Threads + Sync>(
    rt: &R,
    alloc: Global,
    threads: u32,
    graph: &Graph,
    patterns: &[Pattern],
    budget: &Budget,
) -> Result<ValuationGroups, RowStop>
    ensures listed { IfOk result (λ groups. ListsShared graph.now patterns.now (listed_of groups)) }
    ensures shared { IfOk result (λ groups. (p : SignatureParts) → Contains (listed_of groups) p → IsSharedIn (listed_of groups) p) }
    ensures once { IfOk result (λ groups. StandOnce (listed_of groups)) }
    ensures apart { IfOk result (λ groups. AreApart groups) }
{
    if patterns.len() > u32::MAX as usize {
        return Err(Stop::NoMemory);
    }
    let mut groups = ValuationGroups::new(alloc);
    for key in 0..patterns.len() {
        let pattern = &patterns[key];
        let rows = shared_rows_of_key(rt, alloc, threads, graph, pattern, key as u32, budget)?;
        groups.add(&rows)?;
    }
    Ok(groups)
}

/// The parts of the valuations of all keys, in groups of equal values. Those whose values no other name has are left out, since
/// they coincide with none at another name: exactly the others are listed, each once. None where the valuations are more than
/// `most`, or may be: rows are counted as they are made, those of leading values too, and no more are kept than so many. With
/// two threads or more, many rows are made by so many threads and sorted by all processors. Fails only for want of memory. The
/// answer is the same whatever the number of threads.
pub fn list_valuations<R: Threads + Sync>(
    rt: &R,
    alloc: Global,
    threads: u32,
    graph: &Graph,
    patterns: &[Pattern],
    most: u64,
) -> Result<Option<ValuationGroups>, NoMemory>
    ensures listed { IfOk result (λ answer. IfSome answer (λ groups. ListsShared graph.now patterns.now (listed_of groups))) }
    ensures shared { IfOk result (λ answer. IfSome answer (λ groups. (p : SignatureParts) → Contains (listed_of groups) p → IsSharedIn (listed_of groups) p)) }
    ensures once { IfOk result (λ answer. IfSome answer (λ groups. StandOnce (listed_of groups))) }
    ensures apart { IfOk result (λ answer. IfSome answer (λ groups. AreApart groups)) }
{
    match list_within(rt, alloc, threads, graph, patterns, &Budget::new(most)) {
        Ok(groups) => Ok(Some(groups)),
        Err(Stop::Fault(TooManyRows)) => Ok(None),
        Err(Stop::NoMemory) => Err(NoMemory),
    }
}
