//! The two orders of a graph's rows, one after the other or at once.

ghost use Rattle.std.specs.Prelude.{◌≡◌, ◌<◌, ◌↔◌, [], ◌∷◌, List, ℕ, All, Contains, IfOk, length, slice_index};
ghost use Rattle.std.specs.Ordering.{nat_cmp};
ghost use Rattle.std.specs.Cmp.Lexicographic.{slice_cmp};
ghost use Rattle.std.specs.List.Sorted.{IsStrictlySortedBy};
ghost use Rattle.typed_graph.specs.Table.{TableHas};
ghost use Rattle.typed_graph.specs.Types.{AreTypes};
ghost use Rattle.typed_graph.specs.Blocks.{turned};

use crate::Index;
use crate::rows::{sorted_in_threads, three_each, turn};
use crate::types::{TypesOf, types_of_all};
use gk_base::NoMemory;
use std::alloc::Global;
use std::thread;
use std::thread::Threads;

/// The rows of a graph in order, with what is looked up by their subjects.
#[derive(Drop)]
pub(crate) struct SortedRows {
    pub rows: Vec<[u32; 3]>,
    /// The rows as subject, predicate, object.
    pub forward: Index,
    /// What is kept of each name's types.
    pub types: Vec<TypesOf>,
}

/// Makes the index by subjects of rows in order, and what is kept of each name's types.
pub(crate) fn index_forward(
    alloc: Global,
    rows: Vec<[u32; 3]>,
    names: u32,
    rdf_type: Option<u32>,
) -> Result<SortedRows, NoMemory>
    requires ascending { IsStrictlySortedBy (slice_cmp nat_cmp) rows.items }
    requires three { All (λ row. length row ≡ 3) rows.items }
    requires named { All (λ row. All (λ n. n < names) row) rows.items }
    ensures rows { IfOk result (λ o. o.rows.items ≡ rows.items) }
    ensures forward { IfOk result (λ o. (n p c : ℕ) → TableHas o.forward n p c ↔ Contains o.rows.items (n ∷ p ∷ c ∷ [])) }
    ensures types { IfOk result (λ o. AreTypes o.forward rdf_type names o.types.items) }
{
    let forward = Index::from_sorted(alloc, &rows, names)?;
    let types = types_of_all(alloc, &forward, rdf_type, names)?;
    Ok(SortedRows {
        rows,
        forward,
        types,
    })
}

/// Both orders at once, each sorted in several threads: the index by objects is made in a new thread, if one can be started.
pub(crate) fn both_orders<R: Threads + Sync>(
    rt: &R,
    alloc: Global,
    rows: Vec<[u32; 3]>,
    names: u32,
    rdf_type: Option<u32>,
) -> Result<(SortedRows, Index), NoMemory>
    requires named { All (λ row. All (λ n. n < names) row) rows.items }
    ensures ascending { IfOk result (λ r. IsStrictlySortedBy (slice_cmp nat_cmp) r.0.rows.items) }
    ensures three { IfOk result (λ r. All (λ row. length row ≡ 3) r.0.rows.items) }
    ensures same { IfOk result (λ r. (row : List ℕ) → Contains r.0.rows.items row ↔ Contains rows.items row) }
    ensures forward { IfOk result (λ r. (n p c : ℕ) → TableHas r.0.forward n p c ↔ Contains r.0.rows.items (n ∷ p ∷ c ∷ [])) }
    ensures types { IfOk result (λ r. AreTypes r.0.forward rdf_type names r.0.types.items) }
    ensures backward { IfOk result (λ r. (n p c : ℕ) → TableHas r.1 n p c ↔ Contains r.0.rows.items (c ∷ p ∷ n ∷ [])) }
{
    three_each(&rows);
    let other_way = turn(alloc, &rows)?;
    let (backward, forward) = thread::join(
        rt,
        move || -> Result<Index, NoMemory>
            requires { All (λ row. slice_index row 0 < names) other_way.items }
            ensures { IfOk result (λ t. (n p c : ℕ) → TableHas t n p c ↔ Contains other_way.items (n ∷ p ∷ c ∷ [])) }
        { Index::build_in_threads(rt, alloc, other_way, names) },
        move || -> Result<SortedRows, NoMemory>
            requires { All (λ row. All (λ n. n < names) row) rows.items }
            ensures ascending { IfOk result (λ o. IsStrictlySortedBy (slice_cmp nat_cmp) o.rows.items) }
            ensures three { IfOk result (λ o. All (λ row. length row ≡ 3) o.rows.items) }
            ensures same { IfOk result (λ o. (row : List ℕ) → Contains o.rows.items row ↔ Contains rows.items row) }
            ensures forward { IfOk result (λ o. (n p c : ℕ) → TableHas o.forward n p c ↔ Contains o.rows.items (n ∷ p ∷ c ∷ [])) }
            ensures types { IfOk result (λ o. AreTypes o.forward rdf_type names o.types.items) }
        { index_forward(alloc, sorted_in_threads(rt, rows), names, rdf_type) },
    );
    Ok((forward?, backward?))
}
