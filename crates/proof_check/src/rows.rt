//! Rows of three numbers, in order.

ghost use Rattle.std.specs.Prelude.{◌≡◌, ◌↔◌, List, ℕ, [], ◌∷◌, All, IfOk, IfSome, IsTrue, Contains, length};
ghost use Rattle.std.specs.Ordering.{nat_cmp};
ghost use Rattle.std.specs.Cmp.Lexicographic.{slice_cmp};
ghost use Rattle.std.specs.List.Sorted.{IsSorted};
ghost use Rattle.proof_check.specs.Rows.{HasLowerBefore};

use gk_base::NoMemory;
use std::alloc::Global;
use std::marker::Model;

/// How many rows a search looks at one after another.
const FEW: usize = 16;

/// Rows that ascend, and for each first number the place where the rows with it begin. Contracts see the rows.
///
/// The places need not be right: a search tests the one that it begins at, and looks through all rows where that is wrong. So
/// no clause speaks of them, and nothing but time depends on them.
#[derive(Drop)]
pub(crate) struct SortedRows {
    rows: Vec<[u32; 3]>,
    begins: Vec<usize>,
}

impl Model for SortedRows {
    ghost use Rattle.std.specs.Prelude.{List, ℕ};
    ghost use Rattle.std.specs.Ordering.{nat_cmp};
    ghost use Rattle.std.specs.Cmp.Lexicographic.{slice_cmp};
    ghost use Rattle.std.specs.List.Sorted.{IsSorted};

    ghost Value = { List (List ℕ) };

    ghost view = { λ r. r.rows.items };

    ghost invariant = { λ r. IsSorted (slice_cmp nat_cmp) r.rows.items };
}

/// A fact for proofs, with an empty body: each row has three numbers.
fn three_each(rows: &[[u32; 3]])
    ensures { All (λ row. length row ≡ 3) rows.now }
{
    let _ = rows;
}

/// The rows, ascending. A key of three numbers compares faster than the row itself, which is compared in a loop.
fn sorted(rows: Vec<[u32; 3]>) -> Vec<[u32; 3]>
    ensures ascending { IsSorted (slice_cmp nat_cmp) result.items }
    ensures same { (row : List ℕ) → Contains result.items row ↔ Contains rows.items row }
{
    three_each(&rows);
    let mut rows = rows;
    rows.sort_unstable_by_key(|row| (row[0], row[1], row[2]));
    rows
}

/// For each first number below `count` the place of the first row with it, or the end of the rows.
fn begins_of(alloc: Global, rows: &[[u32; 3]], count: usize) -> Result<Vec<usize>, NoMemory>
    ensures { IfOk result (λ begins. length begins.items ≡ count) }
{
    let mut begins = vec![in alloc; rows.len(); count]?;
    for (place, row) in rows.iter().enumerate().rev() {
        let first = row[0] as usize;
        if first < count {
            begins[first] = place;
        }
    }
    Ok(begins)
}

/// Whether the rows before a place have first numbers below `s`.
fn is_lower_before(rows: &[[u32; 3]], place: usize, s: u32) -> bool
    requires { IsSorted (slice_cmp nat_cmp) rows.now }
    ensures { IsTrue result → HasLowerBefore rows.now place s }
{
    if place == 0 {
        return true;
    }
    if place > rows.len() {
        return false;
    }
    rows[place - 1][0] < s
}

/// Whether a row is that of these three numbers.
#[inline]
fn is_row(row: &[u32; 3], s: u32, p: u32, o: u32) -> bool
    ensures { IsTrue result ↔ (row.now ≡ s ∷ p ∷ o ∷ []) }
{
    row[0] == s && row[1] == p && row[2] == o
}

/// Whether there is the row of these three numbers, where those with its first number begin at a place and are few. Where they
/// don't begin there or are many, it may be that nothing is found out.
fn few_have(rows: &[[u32; 3]], from: usize, s: u32, p: u32, o: u32) -> Option<bool>
    requires { IsSorted (slice_cmp nat_cmp) rows.now }
    ensures { IfSome result (λ found. IsTrue found ↔ Contains rows.now (s ∷ p ∷ o ∷ [])) }
{
    if !is_lower_before(rows, from, s) {
        return None;
    }
    let until = rows.len().min(from.saturating_add(FEW));
    for place in from..until {
        if rows[place][0] > s {
            return Some(false);
        }
        if is_row(&rows[place], s, p, o) {
            return Some(true);
        }
    }
    if until == rows.len() {
        Some(false)
    } else {
        None
    }
}

/// Whether a row is among these, which ascend.
fn has_row(rows: &[[u32; 3]], row: [u32; 3]) -> bool
    requires { IsSorted (slice_cmp nat_cmp) rows.now }
    ensures { IsTrue result ↔ Contains rows.now row }
{
    rows.binary_search(&row).is_ok()
}

impl SortedRows {
    /// These rows, in order. Those with first numbers below `count` are found faster.
    pub(crate) fn new(
        alloc: Global,
        rows: Vec<[u32; 3]>,
        count: usize,
    ) -> Result<SortedRows, NoMemory>
        ensures { IfOk result (λ r. (row : List ℕ) → Contains r row ↔ Contains rows.items row) }
    {
        let rows = sorted(rows);
        let begins = begins_of(alloc, &rows, count)?;
        Ok(SortedRows { rows, begins })
    }

    /// Whether there is the row of these three numbers.
    pub(crate) fn has(&self, s: u32, p: u32, o: u32) -> bool
        ensures { IsTrue result ↔ Contains self.now (s ∷ p ∷ o ∷ []) }
    {
        let first = s as usize;
        if first < self.begins.len() {
            if let Some(found) = few_have(&self.rows, self.begins[first], s, p, o) {
                return found;
            }
        }
        has_row(&self.rows, [s, p, o])
    }
}
