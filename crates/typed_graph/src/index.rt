//! One sorted order of rows, kept as columns with an offset for each first number. A row takes 8 bytes and a first number 8.

ghost use Rattle.std.specs.Prelude.{◌≡◌, ◌<◌, ◌≤◌, ◌+◌, ◌-◌, ◌↔◌, ℕ, [], ◌∷◌, All, Contains, IfOk, IsTrue, length, take, drop, map, slice_index};
ghost use Rattle.std.specs.List.Sorted.{IsStrictlyIncreasing, IsNonDecreasing};
ghost use Rattle.typed_graph.specs.Table.{TableHas};
ghost use Rattle.typed_graph.specs.Blocks.{RowsRise, IsStart, AreRowStarts};

use crate::ascending::{cut, lower, upper_from};
use crate::rows::{sorted, sorted_in_threads};
use gk_base::NoMemory;
use std::alloc::Global;
use std::marker::Model;
use std::thread::Threads;

/// Rows of three numbers in ascending order, found by their first two. Contracts see it as a table of columns, and ask
/// only whether a row stands there.
#[derive(Drop)]
pub struct Index {
    starts: Vec<usize>,
    middles: Vec<u32>,
    lasts: Vec<u32>,
}

impl Model for Index {
    ghost use Rattle.typed_graph.specs.Table.{Table};
    ghost use Rattle.typed_graph.specs.Blocks.{IsTable};

    ghost Value = { Table };

    ghost view = { λ i. record { starts = i.starts.items; middles = i.middles.items; lasts = i.lasts.items } };

    ghost invariant = { λ i. IsTable (record { starts = i.starts.items; middles = i.middles.items; lasts = i.lasts.items }) };
}

impl Index {
    /// Sorts the rows, which may come in any order and with repeats, and makes a table of them. Their first numbers are
    /// below `names`. Fails only for want of memory.
    pub fn build(alloc: Global, rows: Vec<[u32; 3]>, names: u32) -> Result<Index, NoMemory>
        requires { All (λ row. slice_index row 0 < names) rows.items }
        ensures { IfOk result (λ t. (n p c : ℕ) → TableHas t n p c ↔ Contains rows.items (n ∷ p ∷ c ∷ [])) }
    {
        let rows = sorted(rows);
        Index::from_sorted(alloc, &rows, names)
    }

    /// Does what `build` does, and sorts in several threads.
    pub(crate) fn build_in_threads<R: Threads + Sync>(
        rt: &R,
        alloc: Global,
        rows: Vec<[u32; 3]>,
        names: u32,
    ) -> Result<Index, NoMemory>
        requires { All (λ row. slice_index row 0 < names) rows.items }
        ensures { IfOk result (λ t. (n p c : ℕ) → TableHas t n p c ↔ Contains rows.items (n ∷ p ∷ c ∷ [])) }
    {
        let rows = sorted_in_threads(rt, rows);
        Index::from_sorted(alloc, &rows, names)
    }

    /// A table of ascending rows.
    pub(crate) fn from_sorted(
        alloc: Global,
        rows: &[[u32; 3]],
        names: u32,
    ) -> Result<Index, NoMemory>
        requires rise { RowsRise rows.now }
        requires named { All (λ row. slice_index row 0 < names) rows.now }
        ensures { IfOk result (λ t. (n p c : ℕ) → TableHas t n p c ↔ Contains rows.now (n ∷ p ∷ c ∷ [])) }
    {
        let starts = starts_of(alloc, rows, names)?;
        let middles = column(alloc, rows, 1)?;
        let lasts = column(alloc, rows, 2)?;
        Ok(Index {
            starts,
            middles,
            lasts,
        })
    }

    /// The last numbers of the rows that begin with `n` and `p`, ascending without repeats.
    pub fn find(&self, n: u32, p: u32) -> &[u32]
        ensures ascending { IsStrictlyIncreasing result.now }
        ensures exact { (c : ℕ) → Contains result.now c ↔ TableHas self.now n p c }
    {
        let at = n as usize;
        if at + 1 >= self.starts.len() {
            return &self.lasts[0..0];
        }
        let from = self.starts[at];
        let to = self.starts[at + 1];
        let block = &self.middles[from..to];
        let low = lower(block, p);
        let high = upper_from(block, low, p);
        cut(&self.lasts, from + low, from + high)
    }

    /// How many rows begin with `n`: for the choice of the shorter way.
    pub(crate) fn count(&self, n: u32) -> usize {
        let at = n as usize;
        if at + 1 < self.starts.len() && self.starts[at] <= self.starts[at + 1] {
            self.starts[at + 1] - self.starts[at]
        } else {
            0
        }
    }

    /// Whether some row begins with `n`.
    pub fn begins(&self, n: u32) -> bool
        ensures { IsTrue result ↔ ((p c : ℕ) × TableHas self.now n p c) }
    {
        let at = n as usize;
        at + 1 < self.starts.len() && self.starts[at] < self.starts[at + 1]
    }
}

/// The first place behind the rows that begin with n, from the place where they begin.
fn block_end(rows: &[[u32; 3]], n: u32, start: usize) -> usize
    requires rise { RowsRise rows.now }
    requires start { IsStart rows.now n start }
    ensures { IsStart rows.now (n + 1) result }
{
    let mut end = start;
    while end < rows.len() && rows[end][0] == n {
        end += 1;
    }
    end
}

/// The place where the rows of each first number begin.
fn starts_of(alloc: Global, rows: &[[u32; 3]], names: u32) -> Result<Vec<usize>, NoMemory>
    requires rise { RowsRise rows.now }
    requires named { All (λ row. slice_index row 0 < names) rows.now }
    ensures { IfOk result (λ v. AreRowStarts rows.now names v.items) }
{
    let mut starts = Vec::with_capacity(alloc, names as usize + 1)?;
    let mut place = 0;
    for n in 0..names {
        starts.push(place)?;
        place = block_end(rows, n, place);
    }
    starts.push(place)?;
    Ok(starts)
}

/// One column of the rows.
fn column(alloc: Global, rows: &[[u32; 3]], at: usize) -> Result<Vec<u32>, NoMemory>
    requires { at < 3 }
    ensures { IfOk result (λ v. v.items ≡ map (λ row. slice_index row at) rows.now) }
{
    let mut numbers = Vec::with_capacity(alloc, rows.len())?;
    for row in rows {
        numbers.push(row[at])?;
    }
    Ok(numbers)
}
