//! Cells in no list, and lists with no cell: what a new pool is made of.

ghost use Rattle.std.specs.Prelude.{◌≡◌, IfOk, replicate, None, false};

use crate::cell::{Cell, Ends};
use crate::optional_cell::OptionalCell;
use gk_base::NoMemory;
use std::alloc::Global;

/// The ends of an empty list.
pub fn no_ends() -> Ends
    ensures { result ≡ record { first = None; last = None } }
{
    Ends {
        first: OptionalCell::none(),
        last: OptionalCell::none(),
    }
}

/// Cells in no list.
pub fn free_cells(alloc: Global, count: u32) -> Result<Vec<Cell>, NoMemory>
    ensures { IfOk result (λ v. v.items ≡ replicate count (record { held = false; before = None; after = None })) }
{
    let mut cells = Vec::with_capacity(alloc, count as usize)?;
    for i in 0..count {
        cells.push_reserved(Cell {
            held: false,
            before: OptionalCell::none(),
            after: OptionalCell::none(),
        });
    }
    Ok(cells)
}

/// Lists with no cell.
pub fn empty_lists(alloc: Global, count: u32) -> Result<Vec<Ends>, NoMemory>
    ensures { IfOk result (λ v. v.items ≡ replicate count (record { first = None; last = None })) }
{
    let mut lists = Vec::with_capacity(alloc, count as usize)?;
    for i in 0..count {
        lists.push_reserved(no_ends());
    }
    Ok(lists)
}
