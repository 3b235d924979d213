//! The rows whose values another name has, too.

ghost use Rattle.std.specs.Prelude.{◌≡◌, ◌≢◌, ◌<◌, ◌≤◌, ◌↔◌, ℕ, All, AllPairs, Contains, IfOk, OnOk, length, slice_index, ◌^◌};
ghost use Rattle.std.specs.List.{range_with_len, dedup};
ghost use Rattle.std.specs.List.Sorted.{IsPermutation, IsSortedByKey};
ghost use Rattle.std.specs.Ordering.{nat_cmp};
ghost use Rattle.std.specs.Cmp.Lexicographic.{slice_cmp};
ghost use Rattle.chase_laws.specs.Signature.{SignatureParts};
ghost use Rattle.valuation_groups.specs.Shared.{in_order, kept_of, grown};
ghost use Rattle.valuation_groups.specs.Rows.{part_at, cells_in, row_numbered, have_equal_rows, AreOfShape, IsShared, AscendByValues, StandOnce, Precedes};

use crate::rows::ValuationRows;
use gk_base::NoMemory;
use rayon::prelude::*;
use std::alloc::Global;
use std::thread::Threads;

/// So many rows or more are sorted by several threads.
const MANY: usize = 16_384;

/// The numbers from 0 up to `count`.
fn numbers_below(alloc: Global, count: usize) -> Result<Vec<u32>, NoMemory>
    requires { count < 2 ^ 32 }
    ensures { IfOk result (λ v. v.items ≡ range_with_len 0 count) }
{
    let mut numbers = Vec::with_capacity(alloc, count)?;
    for number in 0..count as u32 {
        numbers.push(number)?;
    }
    Ok(numbers)
}

/// Sorts numbers of rows by the rows, on the caller's thread.
fn sort_alone(rows: &ValuationRows, order: &mut Vec<u32>)
    ensures permutation { IsPermutation order.old.items order.new.items }
    ensures sorted { IsSortedByKey (row_numbered rows.now.parts) (slice_cmp nat_cmp) order.new.items }
{
    order.sort_unstable_by(|a, b| rows.row(*a as usize).cmp(rows.row(*b as usize)));
}

/// The same by all processors.
fn sort_in_threads<R: Threads + Sync>(rt: &R, rows: &ValuationRows, order: &mut Vec<u32>)
    ensures permutation { IsPermutation order.old.items order.new.items }
    ensures sorted { IsSortedByKey (row_numbered rows.now.parts) (slice_cmp nat_cmp) order.new.items }
{
    par_sort_unstable_by(
        rt,
        order.as_mut_slice(),
        |a, b| rows.row(*a as usize).cmp(rows.row(*b as usize)),
    );
}

/// The same by all processors where there are many and two threads or more may be used, and else on the caller's thread.
fn sort<R: Threads + Sync>(rt: &R, threads: u32, rows: &ValuationRows, order: &mut Vec<u32>)
    ensures permutation { IsPermutation order.old.items order.new.items }
    ensures sorted { IsSortedByKey (row_numbered rows.now.parts) (slice_cmp nat_cmp) order.new.items }
{
    if threads < 2 || order.len() < MANY {
        sort_alone(rows, order);
    } else {
        sort_in_threads(rt, rows, order);
    }
}

/// Takes out each number whose row equals the one before it.
fn leave_one_each(rows: &ValuationRows, order: &mut Vec<u32>)
    ensures { order.new.items ≡ dedup (have_equal_rows rows.now.parts) order.old.items }
{
    order.dedup_by(|a, b| rows.row(*a as usize) == rows.row(*b as usize));
}

/// The numbers of the rows in the rows' order. Of equal rows one is left.
fn order_of<R: Threads + Sync>(
    rt: &R,
    alloc: Global,
    threads: u32,
    rows: &ValuationRows,
) -> Result<Vec<u32>, NoMemory>
    ensures numbers { IfOk result (λ order. All (λ n. n < length rows.now.parts) order.items) }
    ensures rising { IfOk result (λ order. AllPairs (λ m n. Precedes (part_at rows.now.parts m) (part_at rows.now.parts n)) order.items) }
    ensures all { IfOk result (λ order. (p : SignatureParts) → Contains rows.now.parts p → Contains (in_order rows.now.parts order.items) p) }
    ensures shape { IfOk result (λ _. AreOfShape rows.now) }
{
    let mut order = numbers_below(alloc, rows.len())?;
    sort(rt, threads, rows, &mut order);
    leave_one_each(rows, &mut order);
    Ok(order)
}

/// Where the rows end that have the same values as a row, and follow it in an order.
fn end_of_run(rows: &ValuationRows, order: &[u32], from: usize) -> usize
    requires numbers { All (λ n. n < length rows.now.parts) order.now }
    requires within { from < length order.now }
    ensures after { from < result }
    ensures within { result ≤ length order.now }
    ensures same { (k : ℕ) → from ≤ k → k < result →
        (part_at rows.now.parts (slice_index order.now k)).values ≡ (part_at rows.now.parts (slice_index order.now from)).values }
    ensures other { result < length order.now →
        (part_at rows.now.parts (slice_index order.now result)).values ≢ (part_at rows.now.parts (slice_index order.now from)).values }
{
    let values = rows.values(order[from] as usize);
    let mut end = from + 1;
    while end < order.len() && rows.values(order[end] as usize) == values {
        end += 1;
    }
    end
}

/// Adds the rows of these numbers.
fn push_rows(
    kept: &mut ValuationRows,
    rows: &ValuationRows,
    numbers: &[u32],
) -> Result<(), NoMemory>
    requires numbers { All (λ n. n < length rows.now.parts) numbers.now }
    requires shape { AreOfShape rows.now }
    requires key { kept.old.key ≡ rows.now.key }
    requires values { kept.old.value_count ≡ rows.now.value_count }
    requires images { kept.old.image_count ≡ rows.now.image_count }
    ensures { OnOk result (kept.new ≡ grown kept.old (in_order rows.now.parts numbers.now)) }
{
    for number in numbers {
        let row = *number as usize;
        kept.push(rows.values(row), rows.name(row), rows.images(row))?;
    }
    Ok(())
}

/// Adds those rows whose values a row of another name has, too, in an order in which each row stands once.
fn push_shared(
    kept: &mut ValuationRows,
    rows: &ValuationRows,
    order: &[u32],
) -> Result<(), NoMemory>
    requires numbers { All (λ n. n < length rows.now.parts) order.now }
    requires rising { AllPairs (λ m n. Precedes (part_at rows.now.parts m) (part_at rows.now.parts n)) order.now }
    requires shape { AreOfShape rows.now }
    requires key { kept.old.key ≡ rows.now.key }
    requires values { kept.old.value_count ≡ rows.now.value_count }
    requires images { kept.old.image_count ≡ rows.now.image_count }
    ensures { OnOk result (kept.new ≡ grown kept.old (kept_of rows.now.parts order.now)) }
{
    let mut from = 0;
    while from < order.len() {
        let end = end_of_run(rows, order, from);
        if rows.name(order[from] as usize) != rows.name(order[end - 1] as usize) {
            push_rows(kept, rows, &order[from..end])?;
        }
        from = end;
    }
    Ok(())
}

/// Those rows whose values a row of another name has, too, each once, by values, then names, then images. With two threads or
/// more, many rows are sorted by all processors.
pub fn keep_shared<R: Threads + Sync>(
    rt: &R,
    alloc: Global,
    threads: u32,
    rows: ValuationRows,
) -> Result<ValuationRows, NoMemory>
    ensures key { IfOk result (λ kept. kept.key ≡ rows.key) }
    ensures value_count { IfOk result (λ kept. kept.value_count ≡ rows.value_count) }
    ensures image_count { IfOk result (λ kept. kept.image_count ≡ rows.image_count) }
    ensures exact { IfOk result (λ kept. (p : SignatureParts) → Contains kept.parts p ↔ (Contains rows.parts p × IsShared rows.parts p)) }
    ensures once { IfOk result (λ kept. StandOnce kept.parts) }
    ensures sorted { IfOk result (λ kept. AscendByValues kept.parts) }
{
    let order = order_of(rt, alloc, threads, &rows)?;
    let mut kept = ValuationRows::new(alloc, rows.key(), rows.value_count(), rows.image_count());
    push_shared(&mut kept, &rows, &order)?;
    Ok(kept)
}
