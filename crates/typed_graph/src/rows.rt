//! Lists of rows: sorted, and turned round.

ghost use Rattle.std.specs.Prelude.{◌≡◌, List, ◌↔◌, ℕ, All, Contains, IfOk, length, map};
ghost use Rattle.std.specs.Ordering.{nat_cmp};
ghost use Rattle.std.specs.Cmp.Lexicographic.{slice_cmp};
ghost use Rattle.std.specs.List.Sorted.{IsPermutation, IsSorted, IsStrictlySortedBy};
ghost use Rattle.typed_graph.specs.Blocks.{turned};

use gk_base::NoMemory;
use rayon::prelude::*;
use std::alloc::Global;
use std::thread::Threads;

/// Of so many rows the first two are looked at. It is a prime, since rows often come in groups of a few.
const STRIDE: usize = 61;

/// A fact for proofs, with an empty body: each row has three numbers.
pub(crate) fn three_each(rows: &[[u32; 3]])
    ensures { All (λ row. length row ≡ 3) rows.now }
{
    let _ = rows;
}

/// The rows ascending, each once. A key of three numbers compares faster than the row itself, which is compared in a loop.
pub(crate) fn sorted(rows: Vec<[u32; 3]>) -> Vec<[u32; 3]>
    ensures ascending { IsStrictlySortedBy (slice_cmp nat_cmp) result.items }
    ensures three { All (λ row. length row ≡ 3) result.items }
    ensures same { (row : List ℕ) → Contains result.items row ↔ Contains rows.items row }
{
    three_each(&rows);
    let mut rows = rows;
    rows.sort_unstable_by_key(|row| (row[0], row[1], row[2]));
    rows.dedup();
    rows
}

/// Sorts rows in several threads.
fn sort_in_threads<R: Threads + Sync>(rt: &R, rows: &mut Vec<[u32; 3]>)
    ensures permutation { IsPermutation rows.old.items rows.new.items }
    ensures ascending { IsSorted (slice_cmp nat_cmp) rows.new.items }
{
    three_each(rows);
    par_sort_unstable_by_key(rt, rows.as_mut_slice(), |row| (row[0], row[1], row[2]));
}

/// Whether rows seem to be in order: the first two of each 61 are looked at. Only speed rests on the answer.
fn seem_ordered(rows: &[[u32; 3]]) -> bool {
    rows.chunks(STRIDE).all(|some| some
        .iter()
        .take(2)
        .is_sorted_by_key(|row| (row[0], row[1], row[2])))
}

/// The rows ascending, each once, sorted in several threads. Many files name their subjects in order: one thread is done with
/// such rows before several have shared them out.
pub(crate) fn sorted_in_threads<R: Threads + Sync>(rt: &R, rows: Vec<[u32; 3]>) -> Vec<[u32; 3]>
    ensures ascending { IsStrictlySortedBy (slice_cmp nat_cmp) result.items }
    ensures three { All (λ row. length row ≡ 3) result.items }
    ensures same { (row : List ℕ) → Contains result.items row ↔ Contains rows.items row }
{
    if seem_ordered(&rows) {
        return sorted(rows);
    }
    three_each(&rows);
    let mut rows = rows;
    sort_in_threads(rt, &mut rows);
    rows.dedup();
    rows
}

/// The rows with the object first and the subject last.
pub(crate) fn turn(alloc: Global, rows: &[[u32; 3]]) -> Result<Vec<[u32; 3]>, NoMemory>
    ensures { IfOk result (λ v. v.items ≡ map turned rows.now) }
{
    let mut out = Vec::with_capacity(alloc, rows.len())?;
    for row in rows {
        out.push([row[2], row[1], row[0]])?;
    }
    Ok(out)
}
