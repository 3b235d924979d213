//! Rows of one width, one behind the other in an array.

ghost use Rattle.std.specs.Prelude.{◌≡◌, ◌++◌, ◌*◌, ◌+◌, ◌≤◌, OnOk, OnErr, length, ◌∷◌};
ghost use Rattle.valuation_groups.specs.Cells.{row_at};

use gk_base::NoMemory;

/// A row by its number. Behind the end of the cells there is nothing.
pub(crate) fn row_of(cells: &[u32], width: usize, row: usize) -> &[u32]
    ensures { result.now ≡ row_at cells.now width row }
{
    let rest = match cells.get(row.saturating_mul(width)..) {
        Some(rest) => rest,
        None => &[],
    };
    rest.get(..width).unwrap_or(rest)
}

/// Puts numbers at the end. After want of memory the cells are as before.
pub(crate) fn put(
    cells: &mut Vec<u32>,
    front: &[u32],
    middle: u32,
    back: &[u32],
) -> Result<(), NoMemory>
    ensures ok { OnOk result (cells.new.items ≡ cells.old.items ++ (front.now ++ middle ∷ back.now)) }
    ensures err { OnErr result (cells.new.items ≡ cells.old.items) }
{
    cells.reserve(front.len() + 1 + back.len())?;
    cells.extend_from_slice(front)?;
    cells.push_reserved(middle);
    cells.extend_from_slice(back)?;
    Ok(())
}
