//! Runs of pairs: each is filtered by one thread, from its first pair to its last.

ghost use Rattle.std.specs.Prelude.{◌≡◌, ◌≤◌, ◌*◌, IfOk, length};
ghost use Rattle.pair_filter.specs.Runs.{run_of, IsKept};

use crate::keeping::KeptPairs;
use crate::keys::keys_of;
use chase_laws::Pattern;
use gk_base::NoMemory;
use std::alloc::Global;
use typed_graph::Graph;

/// So many pairs are in a run; the last may have fewer.
pub(crate) const RUN: usize = 1024;

/// The run at a place.
pub(crate) fn run_at(pairs: &[(u32, u32)], place: usize) -> &[(u32, u32)]
    requires { place * 1024 ≤ length pairs.now }
    ensures { result.now ≡ run_of pairs.now place }
{
    let (_before, rest) = pairs.split_at(place * RUN);
    let (run, _behind) = rest.split_at(RUN.min(rest.len()));
    run
}

/// Those of some pairs that are kept, in order.
pub(crate) fn keep_run(
    alloc: Global,
    graph: &Graph,
    patterns: &[Pattern],
    pairs: &[(u32, u32)],
) -> Result<KeptPairs, NoMemory>
    ensures { IfOk result (IsKept graph.now patterns.now pairs.now) }
{
    let mut kept = Vec::with_capacity(alloc, pairs.len())?;
    let mut keys = Vec::with_capacity(alloc, pairs.len())?;
    for pair in pairs {
        let Some(range) = keys_of(graph, patterns, *pair) else {
            continue;
        };
        kept.push(*pair)?;
        keys.push(range)?;
    }
    Ok(KeptPairs { pairs: kept, keys })
}
