//! Runs of pairs are dealt to threads in turn, as cards are, so that each has about as much work as the others.

ghost use Rattle.std.specs.Prelude.{◌≡◌, ◌<◌, ◌≤◌, ◌^◌, ℕ, IfOk, Some, length, slice_get};
ghost use Rattle.pair_filter.specs.Runs.{AreKeptOf, IsKept};

use crate::keeping::KeptPairs;
use crate::runs::{RUN, keep_run, run_at};
use chase_laws::Pattern;
use gk_base::NoMemory;
use rayon::prelude::*;
use std::alloc::Global;
use std::thread::Threads;
use typed_graph::Graph;

/// What is kept of each run from the place `first` on that is dealt to one of so many threads.
fn keep_dealt(
    alloc: Global,
    graph: &Graph,
    patterns: &[Pattern],
    pairs: &[(u32, u32)],
    first: usize,
    threads: usize,
) -> Result<Vec<KeptPairs>, NoMemory>
    requires some { 0 < threads }
    requires few { threads < 2 ^ 32 }
    ensures { IfOk result (λ v. AreKeptOf graph.now patterns.now pairs.now threads first v.items) }
{
    let mut kept = Vec::new(alloc);
    let mut place = first;
    while place < pairs.len().div_ceil(RUN) {
        kept.push(keep_run(alloc, graph, patterns, run_at(pairs, place))?)?;
        place += threads;
    }
    Ok(kept)
}

/// What is kept of each run, by the thread to which it is dealt. Where a thread can't be started the caller does its work.
fn keep_by_threads<R: Threads + Sync>(
    rt: &R,
    alloc: Global,
    threads: usize,
    graph: &Graph,
    patterns: &[Pattern],
    pairs: &[(u32, u32)],
) -> Result<Vec<Vec<KeptPairs>>, NoMemory>
    requires some { 0 < threads }
    requires few { threads < 2 ^ 32 }
    ensures count { IfOk result (λ v. length v.items ≡ threads) }
    ensures kept { IfOk result (λ v. (first : ℕ) (dealt : _) → slice_get v.items first ≡ Some dealt → AreKeptOf graph.now patterns.now pairs.now threads first dealt.items) }
{
    (0..threads)
        .into_par_iter()
        .with_min_len(1)
        .map(
            |first: usize| -> Result<Vec<KeptPairs>, NoMemory>
                requires { (0 < threads) × (threads < 2 ^ 32) }
                ensures { IfOk result (λ v. AreKeptOf graph.entry.now patterns.entry.now pairs.entry.now threads first v.items) }
            { keep_dealt(alloc, graph, patterns, pairs, first, threads) },
        )
        .collect::<Result<Vec<Vec<KeptPairs>>, NoMemory>>(rt, alloc)?
}

/// Those of some pairs that are kept, in order. With two threads or more, a longer list of pairs is cut into runs, which are dealt to
/// the threads, and what is kept of each is put together in the order of the runs.
pub(crate) fn keep_in_threads<R: Threads + Sync>(
    rt: &R,
    alloc: Global,
    threads: u32,
    graph: &Graph,
    patterns: &[Pattern],
    pairs: &[(u32, u32)],
) -> Result<KeptPairs, NoMemory>
    ensures { IfOk result (IsKept graph.now patterns.now pairs.now) }
{
    let threads = (pairs.len() / RUN).min(threads as usize);
    if threads < 2 {
        return keep_run(alloc, graph, patterns, pairs);
    }
    let dealt = keep_by_threads(rt, alloc, threads, graph, patterns, pairs)?;
    let mut kept = Vec::with_capacity(alloc, pairs.len())?;
    let mut keys = Vec::with_capacity(alloc, pairs.len())?;
    for run in 0..pairs.len().div_ceil(RUN) {
        let of_run = &dealt[run % threads][run / threads];
        kept.extend_from_slice(&of_run.pairs)?;
        keys.extend_from_slice(&of_run.keys)?;
    }
    Ok(KeptPairs { pairs: kept, keys })
}
