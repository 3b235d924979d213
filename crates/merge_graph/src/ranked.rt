//! The lines of the images by way of ranks: a text is made once for each name and not for each line, and three numbers are
//! compared in place of two lines.

ghost use Rattle.std.specs.Prelude.{◌≡◌, ◌<◌, ◌↔◌, ℕ, List, IfOk, IfSome, All, Contains, length, map};
ghost use Rattle.term_text.specs.CanonicalText.{triple_text};
ghost use Rattle.merge_graph.specs.MergedGraph.{IsWithin, image};
ghost use Rattle.merge_graph.specs.Ranked.{IsJoinedOnce, ranked_row};

use crate::ascending::joined_ascending;
use crate::name_texts::texts_of_marked;
use crate::ranks::{by_text, marked, marks_of, ranks_of};
use gk_base::NoMemory;
use std::alloc::Global;
use term_table::Names;

/// The lines of the images of the rows, ascending by bytes, each once, one after another; or none where the lines do not
/// ascend as the ranks of their names do, which comes only with names that no file can spell.
pub fn lines_by_rank(
    alloc: Global,
    names: &Names,
    faces: &[u32],
    rows: &[[u32; 3]],
) -> Result<Option<Vec<u8>>, NoMemory>
    requires one_each { length faces.now ≡ length names.now }
    requires faces { All (λ face. face < length names.now) faces.now }
    requires rows { All (IsWithin (length names.now)) rows.now }
    ensures { IfOk result (λ o. IfSome o (λ v.
        IsJoinedOnce (map (λ row. triple_text (image names.now faces.now row)) rows.now) v.items)) }
{
    let count = names.len() as usize;
    let marks = marks_of(alloc, faces, rows)?;
    let texts = texts_of_marked(alloc, names, &marks)?;
    let order = by_text(&texts, marked(alloc, &marks)?);
    let ranks = ranks_of(alloc, &order, count)?;
    let sorted = sorted(ranked_rows(alloc, faces, &ranks, rows)?);
    let text = joined_ascending(alloc, &texts, &order, &sorted)?;
    Ok(text)
}

/// The ranks of the names of each row's image, in the order of the rows.
fn ranked_rows(
    alloc: Global,
    faces: &[u32],
    ranks: &[u32],
    rows: &[[u32; 3]],
) -> Result<Vec<[u32; 3]>, NoMemory>
    requires one_each { length ranks.now ≡ length faces.now }
    requires faces { All (λ face. face < length faces.now) faces.now }
    requires rows { All (IsWithin (length faces.now)) rows.now }
    ensures { IfOk result (λ v. v.items ≡ map (ranked_row ranks.now faces.now) rows.now) }
{
    let mut ranked = Vec::with_capacity(alloc, rows.len())?;
    for row in rows {
        ranked.push([
            ranks[faces[row[0] as usize] as usize],
            ranks[row[1] as usize],
            ranks[faces[row[2] as usize] as usize],
        ])?;
    }
    Ok(ranked)
}

/// The rows ascending, without those that stand twice. A key of three numbers compares faster than the row itself, which is
/// compared in a loop.
fn sorted(rows: Vec<[u32; 3]>) -> Vec<[u32; 3]>
    ensures { (row : List ℕ) → Contains result.items row ↔ Contains rows.items row }
{
    let mut rows = rows;
    rows.sort_unstable_by_key(|row| (row[0], row[1], row[2]));
    rows.dedup();
    rows
}
