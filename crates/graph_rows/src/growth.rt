//! From the rows of two graphs, names and keys to what growth works on: the graph of the first rows and the graph of all.

ghost use Rattle.std.specs.Prelude.{◌≡◌, ◌<◌, ◌≤◌, ◌^◌, ◌↔◌, ℕ, List, All, Contains, length, IfOk};
ghost use Rattle.std.specs.Option.{ForSome};
ghost use Rattle.gk_base.specs.declared.term.Triple.{Triple as AnyTriple};
ghost use Rattle.chase_laws.specs.Graph.{IsFolding};
ghost use Rattle.chase_laws.specs.SameRows.{HasRowsOf};
ghost use Rattle.graph_rows.specs.Rows.{StandFor, AreFew};
ghost use Rattle.graph_rows.specs.NumberedGrowth.{IsNumberedGrowth};

use crate::numbered_keys::{NumberedKeys, number_keys};
use crate::rows::Rows;
use chase_laws::Pattern;
use gk_base::NoMemory;
use key_lang::KeyFile;
use std::alloc::Global;
use std::thread::Threads;
use term_table::Names;
use typed_graph::Graph;

/// Two graphs and their keys in numbers, of which the second has all rows of the first. A number stands for the name at its
/// place, the same in both.
#[derive(Drop)]
pub struct Growth {
    /// The names of all rows, and behind them those that only keys have.
    pub names: Names,
    /// The first rows with their indexes.
    pub first: Graph,
    /// All rows with their indexes.
    pub both: Graph,
    /// A pattern for each key, in the order of the keys.
    pub patterns: Vec<Pattern>,
}

/// The graph of these rows over the names of the keys. What it keeps is copied, so that another graph may have the same.
fn graph_over<R: Threads + Sync>(
    rt: &R,
    alloc: Global,
    threads: u32,
    rows: &[[u32; 3]],
    keys: &NumberedKeys,
) -> Result<Graph, NoMemory>
    requires named { All (λ row. All (λ n. n < length keys.now.names) row) rows.now }
    requires flags { length keys.now.literal.items ≡ length keys.now.names }
    requires type_named { ForSome keys.now.rdf_type (λ p. p < length keys.now.names) }
    requires folding { IsFolding (record { rows = rows.now; literal = keys.now.literal.items; rdf_type = keys.now.rdf_type; alike = keys.now.alike.items }) }
    ensures rows { IfOk result (λ g. (row : List ℕ) → Contains g.rows row ↔ Contains rows.now row) }
    ensures literal { IfOk result (λ g. g.literal ≡ keys.now.literal.items) }
    ensures rdf_type { IfOk result (λ g. g.rdf_type ≡ keys.now.rdf_type) }
    ensures alike { IfOk result (λ g. g.alike ≡ keys.now.alike.items) }
{
    let rows = Vec::from_slice(alloc, rows)?;
    let literal = Vec::from_slice(alloc, &keys.literal)?;
    let alike = Vec::from_slice(alloc, &keys.alike)?;
    let count = keys.names.len();
    Graph::build_in_threads(
        rt,
        alloc,
        threads,
        rows,
        count,
        literal,
        keys.rdf_type,
        alike,
    )
}

/// The graph of the first so many of these rows, the graph of all of them, and the keys' patterns, in numbers over the same
/// names. The keys' terms that are no names yet become names behind the others. `threads` says how many threads may be used, the
/// caller's among them; the answer is the same. Only want of memory stops it.
pub fn number_growth<R: Threads + Sync>(
    rt: &R,
    alloc: Global,
    threads: u32,
    rows: Rows,
    first: usize,
    keys: &KeyFile,
) -> Result<Growth, NoMemory>
    requires few { AreFew rows }
    requires first { first ≤ length rows.rows.items }
    ensures numbered { IfOk result (λ g. (triples : List AnyTriple) → StandFor rows triples → IsNumberedGrowth g first triples keys.now) }
    ensures rows { IfOk result (λ g. HasRowsOf g.patterns.items g.first g.both) }
    ensures few_patterns { IfOk result (λ g. length g.patterns.items < 2 ^ 32) }
{
    let Rows { names, rows } = rows;
    let _ = keys.keys();
    let whole = number_keys(rt, alloc, threads, names, keys)?;
    let first = graph_over(rt, alloc, threads, &rows[..first], &whole)?;
    let NumberedKeys {
        names,
        patterns,
        literal,
        rdf_type,
        alike,
    } = whole;
    let count = names.len();
    let both = Graph::build_in_threads(rt, alloc, threads, rows, count, literal, rdf_type, alike)?;
    Ok(Growth {
        names,
        first,
        both,
        patterns,
    })
}
