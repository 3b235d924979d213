//! From rows, names and keys to what a chase works on: rows and keys in numbers, with what a graph has beside its rows, or the
//! graph with its indexes.

ghost use Rattle.std.specs.Prelude.{◌<◌, ◌^◌, List, length, IfOk};
ghost use Rattle.gk_base.specs.declared.term.Triple.{Triple as AnyTriple};
ghost use Rattle.graph_rows.specs.Rows.{StandFor, AreFew};
ghost use Rattle.graph_rows.specs.Numbered.{AreNumberedRows, AreGraphParts, IsNumbered};

use crate::numbered_keys::{NumberedKeys, number_keys};
use crate::rows::Rows;
use chase_laws::Pattern;
use gk_base::NoMemory;
use key_lang::KeyFile;
use std::alloc::Global;
use std::thread::Threads;
use term_table::Names;
use typed_graph::Graph;

/// The rows of a graph and its keys in numbers, and what the graph has beside its rows. A number stands for the name at its place.
#[derive(Drop)]
pub struct NumberedRows {
    /// The names of the rows, and behind them those that only keys have.
    pub names: Names,
    /// A row for each triple, in their order and with repeats.
    pub rows: Vec<[u32; 3]>,
    /// A flag for each name that tells whether it is a literal.
    pub literal: Vec<bool>,
    /// The number of `rdf:type`, where it is a name.
    pub rdf_type: Option<u32>,
    /// What each name is alike to, as far as the keys ask for it.
    pub alike: Vec<u32>,
    /// A pattern for each key, in the order of the keys.
    pub patterns: Vec<Pattern>,
}

/// A graph and its keys in numbers. A number stands for the name at its place.
#[derive(Drop)]
pub struct Numbered {
    /// The names of the rows, and behind them those that only keys have.
    pub names: Names,
    /// The rows with their indexes.
    pub graph: Graph,
    /// A pattern for each key, in the order of the keys.
    pub patterns: Vec<Pattern>,
}

/// These rows and the keys' patterns, in numbers, with what a graph has beside its rows. The keys' terms that are no names yet
/// become names behind the others. `threads` says how many threads may be used, the caller's among them; the answer is the same.
/// Only want of memory stops it.
pub fn number_rows<R: Threads + Sync>(
    rt: &R,
    alloc: Global,
    threads: u32,
    rows: Rows,
    keys: &KeyFile,
) -> Result<NumberedRows, NoMemory>
    requires few { AreFew rows }
    ensures numbered { IfOk result (λ n. (triples : List AnyTriple) → StandFor rows triples → AreNumberedRows n triples keys.now) }
    ensures parts { IfOk result AreGraphParts }
    ensures few_patterns { IfOk result (λ n. length n.patterns.items < 2 ^ 32) }
{
    let Rows { names, rows } = rows;
    let _ = keys.keys();
    let whole = number_keys(rt, alloc, threads, names, keys)?;
    let NumberedKeys {
        names,
        patterns,
        literal,
        rdf_type,
        alike,
    } = whole;
    Ok(NumberedRows {
        names,
        rows,
        literal,
        rdf_type,
        alike,
        patterns,
    })
}

/// The graph of these rows and the keys' patterns, in numbers, as `number_rows` numbers them. Only want of memory stops it.
pub fn number<R: Threads + Sync>(
    rt: &R,
    alloc: Global,
    threads: u32,
    rows: Rows,
    keys: &KeyFile,
) -> Result<Numbered, NoMemory>
    requires few { AreFew rows }
    ensures numbered { IfOk result (λ n. (triples : List AnyTriple) → StandFor rows triples → IsNumbered n triples keys.now) }
    ensures few_patterns { IfOk result (λ n. length n.patterns.items < 2 ^ 32) }
{
    let whole = number_rows(rt, alloc, threads, rows, keys)?;
    let NumberedRows {
        names,
        rows,
        literal,
        rdf_type,
        alike,
        patterns,
    } = whole;
    let count = names.len();
    let graph = Graph::build_in_threads(rt, alloc, threads, rows, count, literal, rdf_type, alike)?;
    Ok(Numbered {
        names,
        graph,
        patterns,
    })
}
