//! One link of a list, forwards and back, and the mark of a cell that stands in one. They take the cells and the lists, and
//! not a pool: between two links the invariant of a pool does not hold, and a call on a pool would need it.

ghost use Rattle.std.specs.Prelude.{◌≡◌, ◌+◌, ◌<◌, ◌≤◌, ◌^◌, length};
ghost use Rattle.std.specs.Option.{ForSome};
ghost use Rattle.list_pool.specs.Links.{Links, cells_after, lists_after, cells_before, lists_before, cells_marked};

use crate::cell::{Cell, Ends};
use crate::optional_cell::OptionalCell;

/// Lets `right` follow `left` in a list. None on the left is the list's head, none on the right its tail.
pub fn link(
    cells: &mut Vec<Cell>,
    lists: &mut Vec<Ends>,
    list: u32,
    left: OptionalCell,
    right: OptionalCell,
)
    requires list { list < length lists.old.items }
    requires left { ForSome left (λ cell. cell < length cells.old.items) }
    requires right { ForSome right (λ cell. cell < length cells.old.items) }
    ensures { Links cells.old.items lists.old.items cells.new.items lists.new.items list left right }
{
    link_after(cells, lists, list, left, right);
    link_before(cells, lists, list, left, right);
}

/// Writes what follows `left`.
fn link_after(
    cells: &mut Vec<Cell>,
    lists: &mut Vec<Ends>,
    list: u32,
    left: OptionalCell,
    right: OptionalCell,
)
    requires list { list < length lists.old.items }
    requires left { ForSome left (λ cell. cell < length cells.old.items) }
    ensures cells { cells.new.items ≡ cells_after cells.old.items left right }
    ensures lists { lists.new.items ≡ lists_after lists.old.items list left right }
{
    match left.get() {
        None => lists[list as usize].first = right,
        Some(cell) => cells[cell as usize].after = right,
    }
}

/// Writes what stands before `right`.
fn link_before(
    cells: &mut Vec<Cell>,
    lists: &mut Vec<Ends>,
    list: u32,
    left: OptionalCell,
    right: OptionalCell,
)
    requires list { list < length lists.old.items }
    requires right { ForSome right (λ cell. cell < length cells.old.items) }
    ensures cells { cells.new.items ≡ cells_before cells.old.items left right }
    ensures lists { lists.new.items ≡ lists_before lists.old.items list left right }
{
    match right.get() {
        None => lists[list as usize].last = left,
        Some(cell) => cells[cell as usize].before = left,
    }
}

/// Writes whether a cell stands in a list.
pub fn mark(cells: &mut Vec<Cell>, cell: u32, held: bool)
    requires { cell < length cells.old.items }
    ensures { cells.new.items ≡ cells_marked cells.old.items cell held }
{
    cells[cell as usize].held = held;
}
