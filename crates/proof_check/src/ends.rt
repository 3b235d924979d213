//! Which names are subject or object of a triple.

ghost use Rattle.std.specs.Prelude.{◌≡◌, ◌<◌, ℕ, IfOk, true, false, length, slice_index_or, slice_set};
ghost use Rattle.proof_check.specs.Rows.{has_end};

use gk_base::NoMemory;
use std::alloc::Global;

/// Sets the flag of a number, if it has one.
#[inline]
fn mark(ends: &mut [bool], n: u32)
    ensures { ends.new ≡ slice_set ends.old n true }
{
    let at = n as usize;
    if at < ends.len() {
        ends[at] = true;
    }
}

/// Sets the flags of the subjects and the objects of rows.
fn mark_all(ends: &mut [bool], rows: &[[u32; 3]])
    requires { (n : ℕ) → slice_index_or ends.old n false ≡ false }
    ensures { (n : ℕ) → n < length ends.old → slice_index_or ends.new n false ≡ has_end rows.now n }
{
    for row in rows {
        mark(ends, row[0]);
        mark(ends, row[2]);
    }
}

/// For each number below `count`, whether it is the subject or the object of a row.
pub(crate) fn ends_of(alloc: Global, rows: &[[u32; 3]], count: usize) -> Result<Vec<bool>, NoMemory>
    ensures count { IfOk result (λ ends. length ends.items ≡ count) }
    ensures ends { IfOk result (λ ends. (n : ℕ) → n < count → slice_index_or ends.items n false ≡ has_end rows.now n) }
{
    let mut ends = vec![in alloc; false; count]?;
    mark_all(&mut ends, rows);
    Ok(ends)
}
