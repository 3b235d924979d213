//! A pool: its cells, its lists and the calls that change them.

ghost use Rattle.std.specs.Prelude.{◌≡◌, ◌≢◌, ◌+◌, ◌-◌, ◌<◌, ◌↔◌, ◌++◌, ◌∷◌, [], ℕ, IfOk, IfSome, IfNone, IsNone, IsTrue, Contains, Some, length, slice_get, slice_set, drop, replicate, sum_by};
ghost use Rattle.list_pool.specs.Pool.{list_at, IsFree, StandOnce, AreInRange, without, joined_lists};

use crate::cell::{Cell, Ends};
use crate::empty::{empty_lists, free_cells, no_ends};
use crate::links::{link, mark};
use crate::optional_cell::OptionalCell;
use gk_base::NoMemory;
use std::alloc::Global;
use std::marker::Model;

/// Cells with numbers from 0, each in at most one of many lists with numbers from 0. Contracts see the list of cells
/// of each list, how many cells there are, and how many stand in no list.
#[derive(Drop)]
pub struct Pool {
    cells: Vec<Cell>,
    lists: Vec<Ends>,
    spare: u32,
}

impl Model for Pool {
    ghost use Rattle.std.specs.Prelude.{length};
    ghost use Rattle.list_pool.specs.Pool.{Lists};
    ghost use Rattle.list_pool.specs.Linked.{IsPool, lists_of};

    ghost Value = { Lists };

    ghost view = { λ p. record { lists = lists_of p.cells.items p.lists.items; cells = length p.cells.items; spare = p.spare } };

    ghost invariant = { λ p. IsPool p.cells.items p.lists.items p.spare (lists_of p.cells.items p.lists.items) };
}

impl Pool {
    /// A pool of so many cells and lists, all lists empty. It takes time and memory for each cell and list, in two
    /// growths; the other calls take neither more time for larger pools nor any memory.
    pub fn new(alloc: Global, cells: u32, lists: u32) -> Result<Pool, NoMemory>
        ensures lists { IfOk result (λ p. p.lists ≡ replicate lists []) }
        ensures cells { IfOk result (λ p. p.cells ≡ cells) }
        ensures spare { IfOk result (λ p. p.spare ≡ cells) }
    {
        Ok(Pool {
            cells: free_cells(alloc, cells)?,
            lists: empty_lists(alloc, lists)?,
            spare: cells,
        })
    }

    /// Puts a cell that stands in no list to the end of a list.
    pub fn push_back(&mut self, list: u32, cell: u32)
        requires list { list < length self.old.lists }
        requires cell { cell < self.old.cells }
        requires free { IsFree self.old.lists cell }
        ensures lists { self.new.lists ≡ slice_set self.old.lists list (list_at self.old.lists list ++ cell ∷ []) }
        ensures cells { self.new.cells ≡ self.old.cells }
        ensures spare { self.new.spare + 1 ≡ self.old.spare }
    {
        let last = self.lists[list as usize].last;
        let new_last = OptionalCell::new(Some(cell));
        let none = OptionalCell::none();
        link(&mut self.cells, &mut self.lists, list, last, new_last);
        link(&mut self.cells, &mut self.lists, list, new_last, none);
        mark(&mut self.cells, cell, true);
        self.spare -= 1;
    }

    /// Takes a cell out of the list that it stands in. The rest keeps its order.
    pub fn remove(&mut self, list: u32, cell: u32)
        requires list { list < length self.old.lists }
        requires stands { Contains (list_at self.old.lists list) cell }
        ensures lists { self.new.lists ≡ slice_set self.old.lists list (without (list_at self.old.lists list) cell) }
        ensures cells { self.new.cells ≡ self.old.cells }
        ensures spare { self.new.spare ≡ self.old.spare + 1 }
        ensures free { IsFree self.new.lists cell }
    {
        let Cell { before, after, .. } = self.cells[cell as usize];
        link(&mut self.cells, &mut self.lists, list, before, after);
        mark(&mut self.cells, cell, false);
        self.spare += 1;
    }

    /// Takes the first cell out of a list, and none exactly where the list is empty.
    pub fn pop_front(&mut self, list: u32) -> Option<u32>
        requires { list < length self.old.lists }
        ensures first { result ≡ slice_get (list_at self.old.lists list) 0 }
        ensures empty { IsNone result ↔ (list_at self.old.lists list ≡ []) }
        ensures lists { self.new.lists ≡ slice_set self.old.lists list (drop 1 (list_at self.old.lists list)) }
        ensures cells { self.new.cells ≡ self.old.cells }
        ensures none { IfNone result (self.new ≡ self.old) }
        ensures spare { IfSome result (λ _. self.new.spare ≡ self.old.spare + 1) }
        ensures free { IfSome result (λ cell. IsFree self.new.lists cell) }
    {
        let first = self.first(list)?;
        self.remove(list, first);
        Some(first)
    }

    /// Puts the cells of the second list to the end of the first, in their order, and leaves the second empty.
    pub fn splice(&mut self, into: u32, from: u32)
        requires into { into < length self.old.lists }
        requires from { from < length self.old.lists }
        requires apart { into ≢ from }
        ensures lists { self.new.lists ≡ joined_lists self.old.lists into from }
        ensures cells { self.new.cells ≡ self.old.cells }
        ensures spare { self.new.spare ≡ self.old.spare }
    {
        let Ends { first, last } = self.lists[from as usize];
        if first.get().is_some() {
            let end = self.lists[into as usize].last;
            let none = OptionalCell::none();
            link(&mut self.cells, &mut self.lists, into, end, first);
            link(&mut self.cells, &mut self.lists, into, last, none);
            self.lists[from as usize] = no_ends();
        }
    }

    /// The first cell of a list, and none exactly where the list is empty.
    #[inline]
    pub fn first(&self, list: u32) -> Option<u32>
        requires { list < length self.now.lists }
        ensures first { result ≡ slice_get (list_at self.now.lists list) 0 }
        ensures empty { IsNone result ↔ (list_at self.now.lists list ≡ []) }
        ensures stands { IfSome result (Contains (list_at self.now.lists list)) }

        // What holds of every pool.
        ensures once { StandOnce self.now.lists }
        ensures in_range { AreInRange self.now.lists self.now.cells }
    {
        self.lists[list as usize].first.get()
    }

    /// The cell that follows one in the list that it stands in, and none exactly at the last.
    #[inline]
    pub fn next(&self, list: u32, cell: u32) -> Option<u32>
        requires list { list < length self.now.lists }
        requires stands { Contains (list_at self.now.lists list) cell }
        ensures next { (i : ℕ) → slice_get (list_at self.now.lists list) i ≡ Some cell → result ≡ slice_get (list_at self.now.lists list) (i + 1) }
        ensures stands { IfSome result (Contains (list_at self.now.lists list)) }
        ensures last { let cells = list_at self.now.lists list in IsNone result ↔ (slice_get cells (length cells - 1) ≡ Some cell) }
    {
        // Only the contract speaks of the list: what follows a cell is kept with the cell.
        let _ = list;
        self.cells[cell as usize].after.get()
    }

    /// Whether a cell stands in no list.
    #[inline]
    pub fn is_free(&self, cell: u32) -> bool
        requires { cell < self.now.cells }
        ensures { IsTrue result ↔ IsFree self.now.lists cell }
    {
        !self.cells[cell as usize].held
    }

    /// How many cells stand in no list.
    #[inline]
    pub fn spare(&self) -> u32
        ensures spare { result ≡ self.now.spare }
        ensures rest { self.now.spare + sum_by length self.now.lists ≡ self.now.cells }
    {
        self.spare
    }
}
